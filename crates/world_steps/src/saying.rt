//! The answer to a client's request is said.

ghost use Rattle.std.specs.Prelude.{◌≡◌, ◌≢◌, ◌<◌, ◌≤◌, false, true, length, Err, IfOk, IfSome};
ghost use Rattle.std.specs.Option.{option_map};
ghost use Rattle.cell_frames.specs.Begun.{HasBegun};
ghost use Rattle.cell_frames.specs.Joined.{StoreView, view_of};
ghost use Rattle.client_port.specs.Lines.{line_of};
ghost use Rattle.dura_model.specs.Partition.{Partition};
ghost use Rattle.dura_value.specs.Ids.{client as client_id};
ghost use Rattle.gated_store.specs.Kept.{IsKept};
ghost use Rattle.hub_store.specs.Changes.{asked, told_in, trail_in};
ghost use Rattle.many_rules.specs.Answering.{answer};
ghost use Rattle.many_rules.specs.Ledgers.{ledgers, readers};
ghost use Rattle.many_rules.specs.Makes.{Makes};
ghost use Rattle.many_rules.specs.Rules.{IsNext};
ghost use Rattle.part_steps.specs.States.{state_of};
ghost use Rattle.site_model.specs.Calls.{HasRisen};
ghost use Rattle.spec_cell.specs.Views.{IsBase};
ghost use Rattle.world_steps.specs.Cells.{AllJoined};
ghost use Rattle.world_steps.specs.Says.{KeepsSaying, SaysAs};

use cell_frames::Seat;
use client_port::answer_line;
use dura_value::{Id, Name, home};
use flow_messages::copy_name;
use gated_store::{GatedStore, SayRefusal};
use many_rules::{ByRules, Picked};
use part_steps::PartState;
use site_model::Site;
use spec_cell::Cell;
use std::alloc::{AllocError, Global};

/// The client of this name, in memory of its own.
fn client_of(name: &Name) -> Result<Id, AllocError>
    ensures { IfOk result (λ id. id ≡ Id.Client name.now) }
{
    match copy_name(name) {
        Ok(name) => Ok(Id::Client(name)),
        Err(error) => Err(error),
    }
}

/// The line that answers a request as a state has it, if that does.
fn line_of_state(
    alloc: Global,
    state: &PartState,
    id: &Id,
    client: &Name,
    number: u32,
) -> Result<Option<Vec<u8>>, AllocError>
    requires { id.now ≡ Id.Client client.now }
    ensures line { IfOk result (λ line. option_map (λ l. l.items) line
        ≡ option_map (line_of client.now number)
        ((state_of state.now).answers (client_id client.now) number)) }
    ensures there { IfOk result (λ line. IfSome line (λ l. 0 < length l.items)) }
{
    match state.answer(id, number) {
        Some(answer) => Ok(Some(answer_line(alloc, client, number, answer)?)),
        None => Ok(None),
    }
}

/// The line that answers a request as the settled state of a cell has it, if that does.
fn line_of_cell<M: Picked>(
    alloc: Global,
    cell: &Cell<Seat<M>>,
    id: &Id,
    client: &Name,
    number: u32,
) -> Result<Option<Vec<u8>>, AllocError>
    requires { id.now ≡ Id.Client client.now }
    ensures line { IfOk result (λ line. (base : Partition)
        × IsBase M.rules.flows M.rules.count (M.rules.begin cell.entry.now.number)
        cell.entry.now base
        × (option_map (λ l. l.items) line ≡ option_map (line_of client.now number)
        (base.answers (client_id client.now) number))) }
    ensures there { IfOk result (λ line. IfSome line (λ l. 0 < length l.items)) }
{
    match cell.base() {
        Some(base) => line_of_state(alloc, base, id, client, number),
        None => Err(AllocError),
    }
}

/// The line that answers a request, as the settled state of its client's home has it, if that does.
fn line_at<M: Picked>(
    alloc: Global,
    cells: &Vec<Cell<Seat<M>>>,
    client: &Name,
    number: u32,
) -> Result<Option<Vec<u8>>, AllocError>
    requires some { 0 < M.rules.count }
    requires few { M.rules.count ≤ 32 }
    requires many { length cells.now.items ≡ M.rules.count }
    ensures line { (s : StoreView) → AllJoined M.rules s cells.now.items
        → IfOk result (λ line. answer M.rules s.trail (asked client.now number)
        ≡ option_map (λ l. l.items) line) }
    ensures there { IfOk result (λ line. IfSome line (λ l. 0 < length l.items)) }
{
    let id = client_of(client)?;
    let part = home(&id, cells.len() as u32);
    let line = line_of_cell(alloc, &cells[part as usize], &id, client, number);
    drop(id);
    line
}

/// Says this line, the one that answers a request as what is settled has it, if there is one.
fn say_line<V: Site, M: Picked>(
    store: &mut GatedStore<V, ByRules<M>>,
    client: &Name,
    number: u32,
    line: &Option<Vec<u8>>,
) -> Result<(), SayRefusal>
    requires begun { HasBegun M.origin M.rules }
    requires kept { IsKept M.origin.count (ledgers M.rules) (readers M.rules) (Makes M.rules)
        store.old }
    requires going { store.old.logs.halted ≡ false }
    requires count { 0 < M.rules.count }
    requires next { M.rules.serves ≡ true
        → IsNext M.rules (told_in store.old.logs) (asked client.now number) }
    requires answer { answer M.rules (trail_in store.old.logs) (asked client.now number)
        ≡ option_map (λ l. l.items) line.now }
    requires there { IfSome line.now (λ l. 0 < length l.items) }
    ensures keeps { KeepsSaying store.old store.new }
    ensures kept { IsKept M.origin.count (ledgers M.rules) (readers M.rules) (Makes M.rules)
        store.new }
    ensures says { SaysAs M.rules client.now number (view_of store.old) (view_of store.new) result }
    ensures still { result ≢ Err SayRefusal.SayFault → store.new.logs.halted ≡ false }
    ensures whole { result ≢ Err SayRefusal.SayFault
        → store.new.logs.cut ≡ store.old.logs.cut }
    ensures fault { result ≡ Err SayRefusal.SayFault → HasRisen
        (V.say_faults store.old.logs.site) (V.say_faults store.new.logs.site) }
{
    match line {
        Some(line) => store.say(client, number, Some(line.as_slice())),
        None => store.say(client, number, None),
    }
}

/// Says the answer to a client's request, if what is settled has one. Where the call serves clients it is the client's next request.
pub fn say_answer<V: Site, M: Picked>(
    alloc: Global,
    store: &mut GatedStore<V, ByRules<M>>,
    cells: &Vec<Cell<Seat<M>>>,
    client: &Name,
    number: u32,
) -> Result<(), SayRefusal>
    requires begun { HasBegun M.origin M.rules }
    requires kept { IsKept M.origin.count (ledgers M.rules) (readers M.rules) (Makes M.rules)
        store.old }
    requires going { store.old.logs.halted ≡ false }
    requires some { 0 < M.rules.count }
    requires few { M.rules.count ≤ 32 }
    requires many { length cells.now.items ≡ M.rules.count }
    requires joined { AllJoined M.rules (view_of store.old) cells.now.items }
    requires next { M.rules.serves ≡ true
        → IsNext M.rules (told_in store.old.logs) (asked client.now number) }
    ensures keeps { KeepsSaying store.old store.new }
    ensures kept { IsKept M.origin.count (ledgers M.rules) (readers M.rules) (Makes M.rules)
        store.new }
    ensures joined { result ≢ Err SayRefusal.SayFault
        → AllJoined M.rules (view_of store.new) cells.now.items }
    ensures says { SaysAs M.rules client.now number (view_of store.old) (view_of store.new) result }
    ensures still { result ≢ Err SayRefusal.SayFault → store.new.logs.halted ≡ false }
    ensures whole { result ≢ Err SayRefusal.SayFault
        → store.new.logs.cut ≡ store.old.logs.cut }
    ensures fault { result ≡ Err SayRefusal.SayFault → HasRisen
        (V.say_faults store.old.logs.site) (V.say_faults store.new.logs.site) }
{
    let Ok(line) = line_at(alloc, cells, client, number) else {
        return Err(SayRefusal::Memory);
    };
    let said = say_line(store, client, number, &line);
    drop(line);
    said
}
