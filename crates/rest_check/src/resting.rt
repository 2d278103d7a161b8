//! Whether nothing is possible any more.

ghost use Rattle.std.specs.Prelude.{◌≡◌, ◌<◌, ◌≤◌, ◌↔◌, true, List, length, map, IfOk, Some};
ghost use Rattle.std.specs.List.{slice_get};
ghost use Rattle.client_port.specs.Clients.{clients_of};
ghost use Rattle.client_port.specs.Ports.{due_of};
ghost use Rattle.dura_value.specs.Ids.{client as client_id, home};
ghost use Rattle.dura_value.specs.Views.{id_of};
ghost use Rattle.rest_check.specs.Rest.{AreAwaitedAt, AreStatesOfCells, IsAtRest, IsAwaited, IsAwaitedAt};
ghost use Rattle.hub_store.specs.Changes.{trail_in};
ghost use Rattle.node_core.specs.Running.{IsRunning};
ghost use Rattle.part_steps.specs.States.{parts_in, state_of};
ghost use Rattle.part_steps.specs.declared.state.PartState.{PartState as RowsOfState};
ghost use Rattle.request_reader.specs.Line.{Request};
ghost use Rattle.rest_laws.specs.Rest.{AreAtRest};
ghost use Rattle.spec_cell.specs.Views.{CellView};

use cell_frames::Seat;
use client_port::Port;
use dura_value::{Id, Name, home};
use flow_messages::copy_name;
use gated_store::GatedStore;
use many_rules::{ByRules, Picked};
use part_steps::PartState;
use rest_laws::are_at_rest;
use site_model::Site;
use spec_cell::Cell;
use std::alloc::{AllocError, Global};

/// The settled states of all cells, in their order. Where a cell has none, memory ran out before.
fn states_of<'a, M: Picked>(
    alloc: Global,
    cells: &'a [Cell<Seat<M>>],
) -> Result<Vec<&'a PartState>, AllocError>
    ensures { IfOk result (λ states.
        AreStatesOfCells M.rules cells.now (map (λ s. s.now) states.items)) }
{
    let mut states = Vec::new(alloc);
    'cells: for cell in cells {
        let Some(base) = cell.base() else {
            return Err(AllocError);
        };
        states.push(base)?;
    }
    Ok(states)
}

/// Whether the settled states of all cells are at rest.
fn are_resting<V: Site, M: Picked>(
    alloc: Global,
    _store: &GatedStore<V, ByRules<M>>,
    cells: &[Cell<Seat<M>>],
) -> Result<bool, AllocError>
    requires { IsRunning M.origin M.rules _store.now cells.now }
    ensures { IfOk result (λ yes. (states : List RowsOfState) × AreStatesOfCells M.rules cells.now states
        × ((yes ≡ true) ↔ AreAtRest (length states) (parts_in states))) }
{
    let states = states_of(alloc, cells)?;
    Ok(are_at_rest(&states))
}

/// Whether a client's request was taken, and isn't answered, as a state has it.
fn is_awaited_in(state: &PartState, client: &Id, number: u32) -> bool
    ensures { (result ≡ true) ↔ IsAwaited (state_of state.now) (id_of client.now) number }
{
    state.taken(client, number).is_some() && state.answer(client, number).is_none()
}

/// Whether a client's request was taken, and isn't answered, as the settled state of its home has it.
fn is_awaited<M: Picked>(
    cells: &[Cell<Seat<M>>],
    client: &Name,
    number: u32,
) -> Result<bool, AllocError>
    requires some { 0 < M.rules.count }
    requires few { M.rules.count ≤ 32 }
    requires many { length cells.now ≡ M.rules.count }
    ensures { IfOk result (λ yes. (c : CellView)
        → slice_get cells.now (home M.rules.count (client_id client.now)) ≡ Some c
        → ((yes ≡ true) ↔ IsAwaitedAt M.rules c (client_id client.now) number)) }
{
    let id = Id::Client(copy_name(client)?);
    let part = home(&id, cells.len() as u32);
    let awaited = match cells[part as usize].base() {
        Some(base) => Ok(is_awaited_in(base, &id, number)),
        None => Err(AllocError),
    };
    drop(id);
    awaited
}

/// Whether what comes next of a client, where something does, was taken and isn't answered.
fn is_next_awaited<M: Picked>(
    cells: &[Cell<Seat<M>>],
    port: &Port,
    client: &Name,
) -> Result<bool, AllocError>
    requires some { 0 < M.rules.count }
    requires few { M.rules.count ≤ 32 }
    requires many { length cells.now ≡ M.rules.count }
    ensures { IfOk result (λ yes. (c : CellView)
        → slice_get cells.now (home M.rules.count (client_id client.now)) ≡ Some c
        → ((yes ≡ true) ↔ ((r : Request) → due_of client.now port.now ≡ Some r
        → IsAwaitedAt M.rules c (client_id client.now) r.number))) }
{
    match port.next_of(client) {
        Some(request) => is_awaited(cells, client, request.number),
        None => Ok(true),
    }
}

/// Whether what comes next of each client was taken and isn't answered.
fn are_awaited<M: Picked>(
    cells: &[Cell<Seat<M>>],
    port: &Port,
    clients: &[Name],
) -> Result<bool, AllocError>
    requires some { 0 < M.rules.count }
    requires few { M.rules.count ≤ 32 }
    requires many { length cells.now ≡ M.rules.count }
    ensures { IfOk result (λ yes.
        (yes ≡ true) ↔ AreAwaitedAt M.rules cells.now port.now clients.now) }
{
    'clients: for client in clients {
        if !is_next_awaited(cells, port, client)? {
            return Ok(false);
        }
    }
    Ok(true)
}

/// Whether nothing is possible any more, as it is settled: all partitions are at rest, and what comes next of each client was taken and isn't
/// answered.
pub fn is_at_rest<V: Site, M: Picked>(
    alloc: Global,
    store: &GatedStore<V, ByRules<M>>,
    cells: &[Cell<Seat<M>>],
    port: &Port,
    clients: &[Name],
) -> Result<bool, AllocError>
    requires running { IsRunning M.origin M.rules store.now cells.now }
    requires clients { clients.now ≡ clients_of M.rules.requests }
    ensures { IfOk result (λ yes.
        (yes ≡ true) ↔ IsAtRest M.rules (trail_in store.now.logs) port.now) }
{
    let resting = are_resting(alloc, store, cells)?;
    let awaited = are_awaited(cells, port, clients)?;
    Ok(resting && awaited)
}
