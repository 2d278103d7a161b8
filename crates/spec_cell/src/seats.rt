//! A cell begins, its seat goes out and comes back, and moments are handed in.

ghost use Rattle.std.specs.Prelude.{◌≡◌, ◌≤◌, ◌^◌, ◌-◌, ℕ, List, length, max, min, Ok, true, false, is_some, IfSome, IfNone};
ghost use Rattle.cell_steps.specs.Ahead.{ahead_of};
ghost use Rattle.dura_value.specs.Ids.{Id as PlainId};
ghost use Rattle.part_rows.specs.Timers.{AreDue};
ghost use Rattle.dura_model.specs.Entries.{placed};
ghost use Rattle.part_steps.specs.States.{IsSound, state_of, count_of};
ghost use Rattle.spec_cell.specs.Views.{IsNew, IsBase, HasFacts, CountsDue};

use crate::cell::Cell;
use crate::mine::Mine;
use cell_steps::{Live, Round};
use cell_tasks::GivenOut;
use cell_waits::Waits;
use part_steps::PartState;
use std::alloc::Global;
use std::mem;

/// How many timers of the state ahead are due by now, if there is a state.
fn due_in(live: &Option<Live>, now: u64) -> usize
    requires { IfSome live.now (λ l. IsSound (ahead_of l)) }
    ensures due { IfSome live.now (λ l. (due : List (PlainId × ℕ))
        × AreDue (state_of (ahead_of l)).timers now due
        × (result ≡ min (length due) (2 ^ 64 - 1))) }
    ensures none { IfNone live.now (result ≡ 0) }
{
    match live {
        Some(live) => live.ahead().due_count(now),
        None => 0,
    }
}

impl<S: Mine> Cell<S> {
    /// A cell whose seat has settled all that made this state, where this incarnation makes entries, and which this node owns.
    pub fn new(alloc: Global, base: PartState, seat: S, owner: u32, incarnation: u64) -> Cell<S>
        requires sound { IsSound base }
        requires partitions { count_of base ≡ S.count }
        requires made { placed S.flows S.count (S.begin (S.number seat)) (S.slot seat).mine
            ≡ Ok (state_of base) }
        requires stamp { (state_of base).stamp ≤ (S.begin (S.number seat)).stamp }
        requires younger { (state_of base).incarnation ≤ incarnation }
        requires low { incarnation ≤ 2 ^ 63 }
        requires room { (state_of base).position ≤ 2 ^ 62 }
        ensures { IsNew (S.number seat) (S.slot seat) owner incarnation result }
    {
        let live = Live {
            base,
            steps: Vec::new(alloc),
            incarnation,
            waits: Waits::new(alloc),
            given: GivenOut::new(alloc),
        };
        Cell {
            live: Some(live),
            now: 0,
            out: 0,
            owner,
            round: Round::Waits,
            cut_off: Vec::new(alloc),
            seat,
        }
    }

    /// Whether it has a state: memory didn't run out.
    pub fn is_going(&self) -> bool
        ensures going { result ≡ self.entry.now.going }
        ensures facts { result ≡ true
            → HasFacts S.flows S.count (S.begin self.entry.now.number) self.entry.now }
    {
        self.live.is_some()
    }

    /// How many of the first entries are in the frame that is out.
    pub fn out(&self) -> usize
        ensures { result ≡ self.entry.now.out }
    {
        self.out
    }

    /// How many entries it holds that aren't settled.
    pub fn held(&self) -> usize
        ensures { result ≡ length self.entry.now.entries }
    {
        match &self.live {
            Some(live) => live.steps.len(),
            None => 0,
        }
    }

    /// The incarnation that makes entries, or 0 where memory ran out.
    pub fn incarnation(&self) -> u64
        ensures { result ≡ self.entry.now.incarnation }
    {
        match &self.live {
            Some(live) => live.incarnation,
            None => 0,
        }
    }

    /// Lets go of its state, and gives its seat back.
    pub fn end(self) -> S
        ensures number { S.number result ≡ self.number }
        ensures slot { S.slot result ≡ self.slot }
    {
        let Cell {
            live,
            now: _,
            out: _,
            owner: _,
            round: _,
            cut_off,
            seat,
        } = self;
        drop(live);
        drop(cut_off);
        seat
    }

    /// The node that owns it is this one.
    pub fn own(&mut self, node: u32)
        ensures { self.new ≡ record self.old { owner = node } }
    {
        self.owner = node;
    }

    /// The frame that is out comes back.
    pub fn unpick(&mut self)
        ensures { self.new ≡ record self.old { out = 0 } }
    {
        self.out = 0;
    }

    /// The settled state, unless memory ran out.
    pub fn base(&self) -> Option<&PartState>
        ensures going { is_some result ≡ self.entry.now.going }
        ensures base { IfSome result (λ s. IsBase S.flows S.count
            (S.begin self.entry.now.number) self.entry.now (state_of s.now)) }
        ensures sound { IfSome result (λ s. IsSound s.now) }
        ensures partitions { IfSome result (λ s. count_of s.now ≡ S.count) }
    {
        match &self.live {
            Some(live) => Some(&live.base),
            None => None,
        }
    }

    /// It is this moment, in milliseconds, or later: what the cell does from now on carries it. It says how many timers of the state ahead
    /// are due by the greatest moment that was handed in, and 0 where memory ran out.
    pub fn fire(&mut self, now: u64) -> usize
        ensures moment { self.new ≡ record self.old { now = max self.old.now now } }
        ensures due { self.old.going ≡ true → CountsDue S.flows S.count (S.begin self.old.number)
            self.old (max self.old.now now) result }
        ensures none { self.old.going ≡ false → result ≡ 0 }
    {
        self.now = self.now.max(now);
        due_in(&self.live, self.now)
    }

    /// What stands for the seat while it is out comes in its place, or the seat in the place of that. Both are of one place in the
    /// store.
    pub fn exchange_seat(&mut self, other: S) -> S
        requires number { S.number other ≡ self.old.number }
        requires slot { S.slot other ≡ record self.old.slot { token = (S.slot other).token } }
        ensures taken { self.new ≡ record self.old { slot = S.slot other } }
        ensures number { S.number result ≡ self.old.number }
        ensures slot { S.slot result ≡ self.old.slot }
    {
        mem::replace(&mut self.seat, other)
    }
}
