//! What others may lack is sent again.

ghost use Rattle.std.specs.Prelude.{◌≡◌, ◌<◌, length, IfOk, Some, slice_get};
ghost use Rattle.spec_cell.specs.Sends.{Resends};
ghost use Rattle.spec_cell.specs.Views.{CellView};

use cell_frames::Seat;
use cell_steps::Mode;
use log_items::Packet;
use many_rules::Picked;
use spec_cell::Cell;
use std::alloc::{AllocError, Global};

/// What is left of a partition's streams, once more: of the state ahead where entries run ahead everywhere, else of the settled one.
pub fn resend_at<M: Picked>(
    alloc: Global,
    cells: &[Cell<Seat<M>>],
    part: u32,
    mode: Mode,
) -> Result<Vec<Packet>, AllocError>
    requires place { part < length cells.now }
    ensures { IfOk result (λ packets. (c : CellView) → slice_get cells.now part ≡ Some c
        → Resends M.rules.flows M.rules.count (M.rules.begin c.number) mode c packets.items) }
{
    cells[part as usize].resend(alloc, mode)
}
