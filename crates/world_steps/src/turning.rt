//! A partition makes an entry.

ghost use Rattle.std.specs.Prelude.{◌≡◌, ◌<◌, ◌≤◌, false, true, length, IfOk, OnOk, slice_get};
ghost use Rattle.cell_frames.specs.Joined.{StoreView};
ghost use Rattle.spec_cell.specs.Turns.{CellTurns};
ghost use Rattle.world_steps.specs.Cells.{CellBecomes};
ghost use Rattle.world_steps.specs.Cells.{AllJoined};

use cell_frames::Seat;
use cell_steps::Mode;
use many_rules::Picked;
use part_rows::Reactions;
use spec_cell::{Cell, CellTurn};
use std::alloc::{AllocError, Global};

/// The cell of a partition makes an entry, if it may.
pub fn turn_at<M: Picked, R: Reactions>(
    alloc: Global,
    reactions: &R,
    cells: &mut Vec<Cell<Seat<M>>>,
    part: u32,
    limit: u32,
    mode: Mode,
) -> Result<CellTurn, AllocError>
    requires flows { R.flows reactions.now ≡ M.rules.flows }
    requires some { 0 < limit }
    requires most { limit ≤ 64 }
    requires bound { limit ≤ M.rules.most }
    requires place { part < length cells.old.items }
    ensures many { length cells.new.items ≡ length cells.old.items }
    ensures turns { IfOk result (λ turned. CellBecomes part cells.old.items cells.new.items
        (λ c after. CellTurns M.rules.flows M.rules.count (M.rules.begin c.number) mode limit c
        turned after)) }
    ensures joined { (s : StoreView) → AllJoined M.rules s cells.old.items
        → OnOk result (AllJoined M.rules s cells.new.items) }
{
    let cell = &mut cells[part as usize];
    if !cell.is_going() {
        return Err(AllocError);
    }
    cell.turn(alloc, reactions, limit, mode)
}
