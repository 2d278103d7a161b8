//! What a life begins with: what is known of the logs, and a cell for each partition.

ghost use Rattle.std.specs.Prelude.{◌≡◌, ◌≤◌, ◌∷◌, [], false, IfOk};
ghost use Rattle.call_begins.specs.Begins.{BeginsWith, IsUntouched};
ghost use Rattle.cell_frames.specs.Begun.{HasBegun};
ghost use Rattle.cell_frames.specs.Joined.{view_of};
ghost use Rattle.gated_store.specs.Kept.{IsKept};
ghost use Rattle.many_rules.specs.Ledgers.{ledgers, readers};
ghost use Rattle.many_rules.specs.Makes.{Makes};
ghost use Rattle.spec_tracker.specs.declared.marks.Marks.{Marks as KnownMarks};
ghost use Rattle.world_core.specs.World.{Stands, world};
ghost use Rattle.world_laws.specs.Lives.{IsNewLife, IsCurrent};
ghost use Rattle.world_steps.specs.Known.{AreMarksOf};

use crate::shape::Shape;
use call_begins::cells_of;
use gated_store::GatedStore;
use many_rules::{ByRules, Picked};
use part_steps::PartState;
use site_model::Site;
use spec_tracker::Marks;
use std::alloc::{AllocError, Global};
use world_core::Life;

/// What is known of the logs when a life begins.
fn first_known<V: Site, M: Picked>(
    alloc: Global,
    store: &mut GatedStore<V, ByRules<M>>,
    count: u32,
) -> Result<Vec<Marks>, AllocError>
    requires begun { HasBegun M.origin M.rules }
    requires kept { IsKept M.origin.count (ledgers M.rules) (readers M.rules) (Makes M.rules)
        store.old }
    requires count { M.rules.count ≡ count }
    ensures logs { store.new.logs ≡ store.old.logs }
    ensures ledgers { store.new.ledgers ≡ store.old.ledgers }
    ensures kept { IsKept M.origin.count (ledgers M.rules) (readers M.rules) (Makes M.rules)
        store.new }
    ensures known { IfOk result (λ marks. (first : KnownMarks) × (marks.items ≡ first ∷ [])
        × AreMarksOf M.rules (view_of store.old) first) }
{
    let now = store.marks(alloc, count)?;
    let mut marks = Vec::new(alloc);
    if marks.push(now).is_err() {
        return Err(AllocError);
    }
    Ok(marks)
}

/// A life begins over a new store: a cell for each partition, and what is known of the logs.
pub(crate) fn begin_life<V: Site, M: Picked>(
    alloc: Global,
    store: &mut GatedStore<V, ByRules<M>>,
    states: Vec<PartState>,
    incarnations: &[u64],
    shape: Shape,
) -> Result<Life<M>, AllocError>
    requires begun { HasBegun M.origin M.rules }
    requires kept { IsKept M.origin.count (ledgers M.rules) (readers M.rules) (Makes M.rules)
        store.old }
    requires untouched { IsUntouched M.rules.count store.old }
    requires begins { BeginsWith M.rules states.items incarnations.now }
    requires count { M.rules.count ≡ shape.count }
    requires since { M.rules.since ≡ 0 }
    requires most { 64 ≤ M.rules.most }
    requires latest { store.old.logs.latest ≡ 0 }
    ensures logs { store.new.logs ≡ store.old.logs }
    ensures kept { IsKept M.origin.count (ledgers M.rules) (readers M.rules) (Makes M.rules)
        store.new }
    ensures stands { IfOk result (λ life. Stands M.rules (world store.new life.cells.items
        life.packets.items life.marks.items life.ended)) }
    ensures going { IfOk result (λ life. life.ended ≡ false) }
    ensures new { IfOk result (λ life. IsNewLife M.rules (world store.new life.cells.items
        life.packets.items life.marks.items life.ended)) }
    ensures current { IfOk result (λ life. IsCurrent M.rules (world store.new life.cells.items
        life.packets.items life.marks.items life.ended)) }
    ensures shape { IfOk result (λ life. (life.mode ≡ shape.mode) × (life.nodes ≡ shape.nodes)) }
{
    let marks = first_known(alloc, store, shape.count)?;
    let cells = cells_of(alloc, states, incarnations, 0, store.settled(), shape.nodes)?;
    Ok(Life {
        cells,
        packets: Vec::new(alloc),
        marks,
        mode: shape.mode,
        nodes: shape.nodes,
        ended: false,
    })
}
