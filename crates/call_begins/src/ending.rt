//! Cells end.

use cell_frames::Seat;
use many_rules::Picked;
use spec_cell::Cell;

/// Lets go of a cell.
pub fn end_cell<M: Picked>(cell: Cell<Seat<M>>) {
    cell.end().let_go();
}

/// Lets go of cells.
pub fn end_cells<M: Picked>(cells: Vec<Cell<Seat<M>>>) {
    let mut cells = cells;
    'cells: while let Some(cell) = cells.pop() {
        end_cell(cell);
    }
    cells.destroy_empty();
}
