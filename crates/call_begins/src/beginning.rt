//! What others see of each partition, and a cell for each.

ghost use Rattle.std.specs.Prelude.{◌≡◌, ◌≤◌, ◌<◌, ◌^◌, ◌%◌, ◌++◌, ◌∷◌, [], length, OnOk, IfOk};
ghost use Rattle.call_begins.specs.Begins.{AreLedgersOf, BeginsWith, AllBegun, IsBegun};
ghost use Rattle.hub_store.specs.Plain.{trail_of};
ghost use Rattle.part_steps.specs.States.{AreStatesOfAll, state_of, IsStateOf};

use crate::ending::{end_cell, end_cells};
use cell_frames::Seat;
use commit_gate::{Ledger, Past};
use hub_store::Settled;
use many_rules::Picked;
use part_steps::PartState;
use spec_cell::Cell;
use state_ledgers::ledger_of;
use std::alloc::{AllocError, AllocFailed, Global};

/// The greatest position that an entry can have: that a log has as many takes more memory than there is.
const LAST_POSITION: u64 = 1 << 62;

/// What others see of each partition, by its state and the incarnations of its entries.
pub fn ledgers_of(
    alloc: Global,
    states: &[PartState],
    pasts: Vec<Past>,
    count: u32,
) -> Result<Vec<Ledger>, AllocError>
    requires all { AreStatesOfAll states.now }
    requires states { length states.now ≡ count }
    requires pasts { length pasts.items ≡ count }
    ensures many { IfOk result (λ v. length v.items ≡ count) }
    ensures show { IfOk result (λ v. AreLedgersOf count states.now pasts.items v.items) }
{
    let mut ledgers = Vec::new(alloc);
    let mut place: usize = 0;
    'pasts: for past in pasts {
        let ledger = ledger_of(alloc, &states[place], count, past)?;
        if ledgers.push(ledger).is_err() {
            return Err(AllocError);
        }
        place += 1;
    }
    Ok(ledgers)
}

/// The node that has a partition at the beginning: one after another, as often as they go round.
pub fn owner_of(partition: u32, nodes: u32) -> u32
    ensures { 0 < nodes → result ≡ partition % nodes }
{
    if nodes == 0 { 0 } else { partition % nodes }
}

/// A cell comes behind others. Where memory runs out it is let go of.
pub fn push_cell<M: Picked>(
    cells: &mut Vec<Cell<Seat<M>>>,
    cell: Cell<Seat<M>>,
) -> Result<(), AllocError>
    ensures { OnOk result (cells.new.items ≡ cells.old.items ++ cell ∷ []) }
{
    match cells.push(cell) {
        Ok(()) => Ok(()),
        Err(AllocFailed { value }) => {
            end_cell(value);
            Err(AllocError)
        }
    }
}

/// The cell of a partition that goes on from this state and from this moment on, with nothing settled.
pub fn cell_of<M: Picked>(
    alloc: Global,
    state: PartState,
    partition: u32,
    incarnation: u64,
    since: u64,
    trail: &[Settled],
    nodes: u32,
) -> Cell<Seat<M>>
    requires new { trail_of trail.now ≡ [] }
    requires state { IsStateOf M.rules.count partition state }
    requires begin { M.rules.begin partition ≡ state_of state }
    requires young { incarnation < 2 ^ 62 }
    requires younger { (state_of state).incarnation ≤ incarnation }
    requires room { (state_of state).position ≤ 2 ^ 62 }
    ensures { IsBegun partition incarnation since result }
{
    let seat = Seat::of(partition, trail);
    let mut cell = Cell::new(alloc, state, seat, owner_of(partition, nodes), incarnation);
    let _ = cell.fire(since);
    cell
}

/// A cell for each partition, in their order, from this moment on, with nothing settled.
pub fn cells_of<M: Picked>(
    alloc: Global,
    states: Vec<PartState>,
    incarnations: &[u64],
    since: u64,
    trail: &[Settled],
    nodes: u32,
) -> Result<Vec<Cell<Seat<M>>>, AllocError>
    requires new { trail_of trail.now ≡ [] }
    requires begins { BeginsWith M.rules states.items incarnations.now }
    ensures many { IfOk result (λ cells. length cells.items ≡ M.rules.count) }
    ensures begun { IfOk result (λ cells. AllBegun incarnations.now since cells.items) }
{
    let mut cells = Vec::new(alloc);
    let mut place: u32 = 0;
    'states: for state in states {
        if state.position() > LAST_POSITION {
            end_cells(cells);
            return Err(AllocError);
        }
        let cell = cell_of(
            alloc,
            state,
            place,
            incarnations[place as usize],
            since,
            trail,
            nodes,
        );
        if push_cell(&mut cells, cell).is_err() {
            end_cells(cells);
            return Err(AllocError);
        }
        place += 1;
    }
    Ok(cells)
}
