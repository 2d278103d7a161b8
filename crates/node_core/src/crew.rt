//! The nodes that have the partitions.

ghost use Rattle.std.specs.Prelude.{◌≡◌, IfOk, max, slice_get, slice_set, unwrap_or};
ghost use Rattle.node_core.specs.Crews.{first_owner as node_first, first_owners};
ghost use Rattle.node_core.specs.Stops.{has_stopped as has_node_stopped};

use crate::stops::has_stopped;
use move_plan::Plan;
use std::alloc::{AllocError, Global};

/// Which node has each partition, and what the plan has for them.
#[derive(Drop)]
pub struct Crew {
    /// Of each partition the node that has it.
    pub owners: Vec<u32>,
    /// How many nodes there are.
    pub nodes: u32,
    /// What the plan has.
    pub plan: Plan,
    /// Up to which turn its moves are done.
    pub moved: u64,
}

/// Which of so many nodes has a partition first: the one that comes next, as often as they go round.
fn first_owner(nodes: u32, part: u32) -> u32
    ensures { result ≡ node_first nodes part }
{
    if nodes == 0 { 0 } else { part % nodes }
}

impl Crew {
    /// So many partitions and nodes: each partition is on the node that comes next, as often as they go round.
    pub fn new(alloc: Global, partitions: u32, nodes: u32, plan: Plan) -> Result<Crew, AllocError>
        ensures owners { IfOk result (λ crew. crew.owners.items ≡ first_owners partitions nodes) }
        ensures rest { IfOk result (λ crew. (crew.nodes ≡ nodes) × (crew.plan ≡ plan)
            × (crew.moved ≡ 0)) }
    {
        let mut owners = Vec::new(alloc);
        'parts: for part in 0..partitions {
            owners.push(first_owner(nodes, part))?;
        }
        Ok(Crew {
            owners,
            nodes,
            plan,
            moved: 0,
        })
    }

    /// The node that has a partition.
    pub fn owner(&self, part: u32) -> u32
        ensures { result ≡ unwrap_or (slice_get self.now.owners.items part) 0 }
    {
        match self.owners.get(part as usize) {
            Some(owner) => *owner,
            None => 0,
        }
    }

    /// Whether the node of a partition has stopped by so many turns of the store.
    pub fn has_stopped(&self, part: u32, turns: u64) -> bool
        ensures { result ≡ has_node_stopped self.now.plan.stops.items
            (unwrap_or (slice_get self.now.owners.items part) 0) turns }
    {
        has_stopped(&self.plan.stops, self.owner(part), turns)
    }
}

impl Crew {
    /// The next node behind one, counting up and round, that hasn't stopped by so many turns.
    fn next_live(&self, node: u32, turns: u64) -> Option<u32> {
        'nodes: for step in 1..=self.nodes {
            let next = (node as u64 + step as u64) % self.nodes as u64;
            let next = next as u32;
            if !has_stopped(&self.plan.stops, next, turns) {
                return Some(next);
            }
        }
        None
    }

    /// The node that the plan's moves by so many turns, which weren't done before, give a partition last: one that hasn't stopped.
    fn moved_to(&self, part: u32, turns: u64) -> Option<u32> {
        let mut found = None;
        'moves: for one in self.plan.moves.iter() {
            let due = self.moved < one.turn && one.turn <= turns;
            if due && one.partition == part && !has_stopped(&self.plan.stops, one.node, turns) {
                found = Some(one.node);
            }
        }
        found
    }

    /// The node that takes a partition over by so many turns, if one does: that to which it moves, or the next one where its own has
    /// stopped.
    pub fn next_owner(&self, part: u32, turns: u64) -> Option<u32> {
        let owner = self.owner(part);
        let wanted = match self.moved_to(part, turns) {
            Some(node) => node,
            None => owner,
        };
        if has_stopped(&self.plan.stops, wanted, turns) {
            return self.next_live(wanted, turns);
        }
        if wanted == owner { None } else { Some(wanted) }
    }

    /// A node has a partition from now on.
    pub fn give(&mut self, part: u32, node: u32)
        ensures owners { self.new.owners.items ≡ slice_set self.old.owners.items part node }
        ensures rest { (self.new.nodes ≡ self.old.nodes) × (self.new.plan ≡ self.old.plan)
            × (self.new.moved ≡ self.old.moved) }
    {
        if let Some(owner) = self.owners.get_mut(part as usize) {
            *owner = node;
        }
    }

    /// The moves by so many turns are done.
    pub fn move_on(&mut self, turns: u64)
        ensures { self.new ≡ record self.old { moved = max self.old.moved turns } }
    {
        if self.moved < turns {
            self.moved = turns;
        }
    }
}
