//! A task is given out.

ghost use Rattle.std.specs.Prelude.{◌≡◌, ◌<◌, length, IfOk, IfSome, OnOk};
ghost use Rattle.cell_frames.specs.Begun.{HasBegun};
ghost use Rattle.cell_frames.specs.Joined.{StoreView};
ghost use Rattle.dura_value.specs.Views.{id_of};
ghost use Rattle.world_steps.specs.Cells.{AllJoined, CellBecomes};
ghost use Rattle.world_steps.specs.Comes.{GivesAt, IsAskedFor};

use cell_frames::Seat;
use many_rules::Picked;
use spec_cell::{Cell, Task};
use std::alloc::{AllocError, Global};

/// The first task of a partition that is pending in its settled state and isn't out is given out to be run.
pub fn take_task_at<M: Picked>(
    alloc: Global,
    cells: &mut Vec<Cell<Seat<M>>>,
    part: u32,
) -> Result<Option<Task>, AllocError>
    requires begun { HasBegun M.origin M.rules }
    requires place { part < length cells.old.items }
    requires inside { part < M.rules.count }
    ensures many { length cells.new.items ≡ length cells.old.items }
    ensures gives { IfOk result (λ task. CellBecomes part cells.old.items cells.new.items
        (GivesAt M.rules task)) }
    ensures joined { (s : StoreView) → AllJoined M.rules s cells.old.items
        → OnOk result (AllJoined M.rules s cells.new.items) }
    ensures asked { (s : StoreView) → AllJoined M.rules s cells.old.items
        → IfOk result (λ task. IfSome task (λ one.
        IsAskedFor M.rules part (id_of one.id) one.task cells.new.items)) }
{
    let cell = &mut cells[part as usize];
    if !cell.is_going() {
        return Err(AllocError);
    }
    cell.next_task(alloc)
}
