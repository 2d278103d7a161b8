//! What the cell of a partition among all gives up.

ghost use Rattle.std.specs.Prelude.{◌≡◌, ◌≢◌, ◌⊎◌, ◌<◌, false, true, length, Ok, Err, IfOk, OnOk};
ghost use Rattle.cell_frames.specs.Begun.{HasBegun};
ghost use Rattle.cell_frames.specs.Joined.{view_of};
ghost use Rattle.cell_frames.specs.Judges.{Judges};
ghost use Rattle.gated_store.specs.Kept.{IsKept};
ghost use Rattle.many_rules.specs.Ledgers.{ledgers, readers};
ghost use Rattle.many_rules.specs.Makes.{Makes};
ghost use Rattle.world_steps.specs.Cells.{CellBecomes};
ghost use Rattle.world_steps.specs.Cells.{AllJoined};

use cell_frames::{Seat, judge_cell};
use gated_store::GatedStore;
use many_rules::{ByRules, Picked};
use site_model::Site;
use spec_cell::{Cell, CellRewind};
use spec_tracker::Marks;
use std::alloc::{AllocError, Global};

/// What the cell of a partition made of what was given up is given up too.
pub fn judge_at<V: Site, M: Picked>(
    alloc: Global,
    store: &mut GatedStore<V, ByRules<M>>,
    cells: &mut Vec<Cell<Seat<M>>>,
    part: u32,
    marks: &Marks,
) -> Result<CellRewind, AllocError>
    requires begun { HasBegun M.origin M.rules }
    requires kept { IsKept M.origin.count (ledgers M.rules) (readers M.rules) (Makes M.rules)
        store.old }
    requires many { length cells.old.items ≡ M.rules.count }
    requires place { part < M.rules.count }
    requires joined { AllJoined M.rules (view_of store.old) cells.old.items }
    ensures many { length cells.new.items ≡ length cells.old.items }
    ensures kept { IsKept M.origin.count (ledgers M.rules) (readers M.rules) (Makes M.rules)
        store.new }
    ensures joined { OnOk result (AllJoined M.rules (view_of store.new) cells.new.items) }
    ensures judges { IfOk result (λ judged. CellBecomes part cells.old.items cells.new.items
        (λ c after. Judges M.rules part marks.now (view_of store.old) (view_of store.new) c judged
        after)) }
    ensures logs { store.new.logs ≡ store.old.logs }
{
    let cell = &mut cells[part as usize];
    judge_cell(alloc, store, cell, part, marks)
}
