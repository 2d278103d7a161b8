//! What is known of cells, and of the logs.

ghost use Rattle.std.specs.Prelude.{◌≡◌, IfOk};
ghost use Rattle.cell_frames.specs.Begun.{HasBegun};
ghost use Rattle.cell_frames.specs.Joined.{view_of};
ghost use Rattle.gated_store.specs.Kept.{IsKept};
ghost use Rattle.many_rules.specs.Ledgers.{ledgers, readers};
ghost use Rattle.many_rules.specs.Makes.{Makes};
ghost use Rattle.world_steps.specs.Cells.{AllKnown};
ghost use Rattle.world_steps.specs.Known.{AreMarksOf};

use cell_frames::Seat;
use gated_store::GatedStore;
use many_rules::{ByRules, Picked};
use site_model::Site;
use spec_cell::Cell;
use spec_tracker::Marks;
use std::alloc::{AllocError, Global};

/// Looks at each cell. It changes nothing: that each which has a state is as cells are is known from then on.
pub fn look_at<M: Picked>(cells: &[Cell<Seat<M>>])
    ensures { AllKnown M.rules cells.now }
{
    'cells: for cell in cells {
        let _ = cell.is_going();
    }
}

/// What is known of the logs of so many partitions now.
pub fn marks_now<V: Site, M: Picked>(
    alloc: Global,
    store: &mut GatedStore<V, ByRules<M>>,
    count: u32,
) -> Result<Marks, AllocError>
    requires begun { HasBegun M.origin M.rules }
    requires kept { IsKept M.origin.count (ledgers M.rules) (readers M.rules) (Makes M.rules)
        store.old }
    requires count { M.rules.count ≡ count }
    ensures kept { IsKept M.origin.count (ledgers M.rules) (readers M.rules) (Makes M.rules)
        store.new }
    ensures logs { store.new.logs ≡ store.old.logs }
    ensures ledgers { store.new.ledgers ≡ store.old.ledgers }
    ensures known { IfOk result (AreMarksOf M.rules (view_of store.old)) }
{
    let now = store.marks(alloc, count)?;
    Ok(now)
}
