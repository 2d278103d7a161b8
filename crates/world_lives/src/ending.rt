//! A life ends.

use call_begins::end_cells;
use many_rules::Picked;
use world_core::Life;

/// Lets go of what a life has beside its store.
pub(crate) fn end_life<M: Picked>(life: Life<M>) {
    let Life {
        cells,
        packets,
        marks,
        mode: _,
        nodes: _,
        ended: _,
    } = life;
    end_cells(cells);
    drop(packets);
    drop(marks);
}
