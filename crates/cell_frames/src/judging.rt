//! What a cell made of what was given up is given up too.

ghost use Rattle.std.specs.Prelude.{◌≡◌, ◌<◌, ℕ, true, IfOk, OnOk};
ghost use Rattle.cell_frames.specs.Begun.{HasBegun};
ghost use Rattle.cell_frames.specs.Judges.{Judges};
ghost use Rattle.cell_frames.specs.Joined.{Joined, view_of};
ghost use Rattle.cell_frames.specs.Writes.{KeepsOthers};
ghost use Rattle.gated_store.specs.Kept.{IsKept};
ghost use Rattle.many_rules.specs.Ledgers.{ledgers, readers};
ghost use Rattle.many_rules.specs.Makes.{Makes};

use crate::seat::Seat;
use gated_store::GatedStore;
use many_rules::{ByRules, Picked};
use site_model::Site;
use spec_cell::{Cell, CellRewind};
use spec_tracker::Marks;
use std::alloc::{AllocError, Global};

/// Gives up what a cell holds behind the frame that is out, from the first entry on that depends on a lost one by these marks, and has the
/// store know the incarnation that begins. Where none does, packets of lost entries are let go of.
pub fn judge_cell<V: Site, M: Picked>(
    alloc: Global,
    store: &mut GatedStore<V, ByRules<M>>,
    cell: &mut Cell<Seat<M>>,
    part: u32,
    marks: &Marks,
) -> Result<CellRewind, AllocError>
    requires begun { HasBegun M.origin M.rules }
    requires kept { IsKept M.origin.count (ledgers M.rules) (readers M.rules) (Makes M.rules)
        store.old }
    requires place { part < M.rules.count }
    requires going { cell.old.going ≡ true }
    requires joined { Joined M.rules (view_of store.old) part cell.old }
    ensures kept { IsKept M.origin.count (ledgers M.rules) (readers M.rules) (Makes M.rules)
        store.new }
    ensures joined { OnOk result (Joined M.rules (view_of store.new) part cell.new) }
    ensures others { KeepsOthers M.rules part (view_of store.old) (view_of store.new) }
    ensures judges { IfOk result (λ judged. Judges M.rules part marks.now (view_of store.old)
        (view_of store.new) cell.old judged cell.new) }
    ensures going { OnOk result (cell.new.going ≡ true) }
    ensures logs { store.new.logs ≡ store.old.logs }
{
    if !cell.is_going() {
        return Err(AllocError);
    }
    match cell.rewind(alloc, marks) {
        Ok(CellRewind::Kept) => Ok(CellRewind::Kept),
        Ok(CellRewind::Spent(number)) => Ok(CellRewind::Spent(number)),
        Ok(CellRewind::Rewound(floor, dep)) => {
            match store.restart(part, cell.incarnation(), floor) {
                Ok(()) => Ok(CellRewind::Rewound(floor, dep)),
                Err(error) => Err(error),
            }
        }
        Err(error) => Err(error),
    }
}
