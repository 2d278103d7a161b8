//! What clients are told, and what they ask.

ghost use Rattle.std.specs.Prelude.{◌≡◌, ◌≢◌, ◌≤◌, ◌<◌, false, length, Err, IfErr, OnOk};
ghost use Rattle.cell_frames.specs.Joined.{StoreView};
ghost use Rattle.hub_store.specs.Changes.{trail_in};
ghost use Rattle.round_steps.specs.Serving.{GoesOn, HasSaid, IsServing};
ghost use Rattle.node_core.specs.Halts.{IsPast, RisesFor};
ghost use Rattle.node_core.specs.Running.{Keeps};
ghost use Rattle.world_steps.specs.Cells.{AllJoined};

use crate::course::Course;
use cell_frames::Seat;
use client_port::Port;
use dura_value::{Name, home};
use gated_store::{GatedStore, SayRefusal};
use many_rules::{ByRules, Picked};
use node_core::Halt;
use part_rows::copy_message;
use site_model::Site;
use spec_cell::{Cell, Offered};
use std::alloc::{AllocError, Global};
use std::mem;
use world_steps::{offer_at, say_answer};

/// More requests than a client has.
const MOST_REQUESTS: u32 = u32::MAX;

/// Says the answer to a client's next request, if what is settled has one. It says whether it was said.
fn tell_next<V: Site, M: Picked>(
    alloc: Global,
    store: &mut GatedStore<V, ByRules<M>>,
    cells: &Vec<Cell<Seat<M>>>,
    port: &mut Port,
    client: &Name,
) -> Result<bool, Halt>
    requires serving { IsServing M.origin M.rules store.old cells.now.items port.old }
    ensures goes { GoesOn M.rules store.old store.new }
    ensures kept { Keeps M.origin M.rules store.new }
    ensures whole { result ≢ Err Halt.SayFault → store.new.logs.cut ≡ false }
    ensures serving { OnOk result (IsServing M.origin M.rules store.new cells.now.items port.new) }
    ensures rises { IfErr result (RisesFor (V.disk_faults store.old.logs.site)
        (V.say_faults store.old.logs.site) (V.disk_faults store.new.logs.site)
        (V.say_faults store.new.logs.site)) }
    ensures past { IfErr result (IsPast M.rules store.new cells.now.items) }
    ensures clock { result ≢ Err Halt.ClockFault }
    ensures latest { store.new.logs.latest ≡ store.old.logs.latest }
    ensures trail { trail_in store.new.logs ≡ trail_in store.old.logs }
{
    let Some(request) = port.next_of(client) else {
        return Ok(false);
    };
    let number = request.number;
    match say_answer(alloc, store, cells, client, number) {
        Ok(()) => {
            port.said(client);
            Ok(true)
        }
        Err(SayRefusal::NotAnswered) => Ok(false),
        Err(SayRefusal::SayFault) => Err(Halt::SayFault),
        Err(SayRefusal::Memory) => Err(Halt::Memory),
    }
}

/// Says the answers to a client's requests, one after another, until the next has none.
fn tell<V: Site, M: Picked>(
    alloc: Global,
    store: &mut GatedStore<V, ByRules<M>>,
    cells: &Vec<Cell<Seat<M>>>,
    port: &mut Port,
    client: &Name,
) -> Result<(), Halt>
    requires serving { IsServing M.origin M.rules store.old cells.now.items port.old }
    ensures goes { GoesOn M.rules store.old store.new }
    ensures kept { Keeps M.origin M.rules store.new }
    ensures whole { result ≢ Err Halt.SayFault → store.new.logs.cut ≡ false }
    ensures serving { OnOk result (IsServing M.origin M.rules store.new cells.now.items port.new) }
    ensures rises { IfErr result (RisesFor (V.disk_faults store.old.logs.site)
        (V.say_faults store.old.logs.site) (V.disk_faults store.new.logs.site)
        (V.say_faults store.new.logs.site)) }
    ensures past { IfErr result (IsPast M.rules store.new cells.now.items) }
    ensures clock { result ≢ Err Halt.ClockFault }
    ensures latest { store.new.logs.latest ≡ store.old.logs.latest }
    ensures trail { trail_in store.new.logs ≡ trail_in store.old.logs }
{
    'answers: for _ in 0..MOST_REQUESTS {
        if !tell_next(alloc, store, cells, port, client)? {
            return Ok(());
        }
    }
    Ok(())
}

/// A client's next request comes to its home, if there is one.
fn ask<M: Picked>(
    alloc: Global,
    cells: &mut Vec<Cell<Seat<M>>>,
    port: &Port,
    client: &Name,
) -> Result<(), AllocError>
    requires some { 0 < M.rules.count }
    requires few { M.rules.count ≤ 32 }
    requires place { length cells.old.items ≡ M.rules.count }
    ensures many { length cells.new.items ≡ length cells.old.items }
    ensures joined { (s : StoreView) → HasSaid M.rules.requests s.told port.now
        → AllJoined M.rules s cells.old.items → OnOk result (AllJoined M.rules s cells.new.items) }
{
    let Some(request) = port.next_of(client) else {
        return Ok(());
    };
    let message = copy_message(&request.message)?;
    let part = home(&message.from, cells.len() as u32);
    match offer_at(alloc, cells, part, message)? {
        Offered::Queued => Ok(()),
        Offered::Taken => Ok(()),
        Offered::Clash => Ok(()),
        Offered::Kept(answer) => {
            drop(answer);
            Ok(())
        }
    }
}

/// A client is told what is answered, and asks what comes next.
fn serve_client<V: Site, M: Picked>(
    alloc: Global,
    store: &mut GatedStore<V, ByRules<M>>,
    cells: &mut Vec<Cell<Seat<M>>>,
    port: &mut Port,
    client: &Name,
) -> Result<(), Halt>
    requires serving { IsServing M.origin M.rules store.old cells.old.items port.old }
    ensures goes { GoesOn M.rules store.old store.new }
    ensures kept { Keeps M.origin M.rules store.new }
    ensures whole { result ≢ Err Halt.SayFault → store.new.logs.cut ≡ false }
    ensures serving { OnOk result (IsServing M.origin M.rules store.new cells.new.items port.new) }
    ensures rises { IfErr result (RisesFor (V.disk_faults store.old.logs.site)
        (V.say_faults store.old.logs.site) (V.disk_faults store.new.logs.site)
        (V.say_faults store.new.logs.site)) }
    ensures past { IfErr result (IsPast M.rules store.new cells.new.items) }
    ensures clock { result ≢ Err Halt.ClockFault }
    ensures latest { store.new.logs.latest ≡ store.old.logs.latest }
    ensures trail { trail_in store.new.logs ≡ trail_in store.old.logs }
{
    tell(alloc, store, cells, port, client)?;
    match ask(alloc, cells, port, client) {
        Ok(()) => Ok(()),
        Err(_) => Err(Halt::Memory),
    }
}

/// All these clients are served, one after another.
pub fn serve_all<V: Site, M: Picked>(
    alloc: Global,
    store: &mut GatedStore<V, ByRules<M>>,
    cells: &mut Vec<Cell<Seat<M>>>,
    port: &mut Port,
    clients: &[Name],
) -> Result<(), Halt>
    requires serving { IsServing M.origin M.rules store.old cells.old.items port.old }
    ensures goes { GoesOn M.rules store.old store.new }
    ensures kept { Keeps M.origin M.rules store.new }
    ensures whole { result ≢ Err Halt.SayFault → store.new.logs.cut ≡ false }
    ensures serving { OnOk result (IsServing M.origin M.rules store.new cells.new.items port.new) }
    ensures rises { IfErr result (RisesFor (V.disk_faults store.old.logs.site)
        (V.say_faults store.old.logs.site) (V.disk_faults store.new.logs.site)
        (V.say_faults store.new.logs.site)) }
    ensures past { IfErr result (IsPast M.rules store.new cells.new.items) }
    ensures clock { result ≢ Err Halt.ClockFault }
    ensures latest { store.new.logs.latest ≡ store.old.logs.latest }
    ensures trail { trail_in store.new.logs ≡ trail_in store.old.logs }
{
    'clients: for client in clients {
        serve_client(alloc, store, cells, port, client)?;
    }
    Ok(())
}

/// The clients that something reached since they were served last are.
pub fn serve_reached<V: Site, M: Picked>(
    alloc: Global,
    store: &mut GatedStore<V, ByRules<M>>,
    cells: &mut Vec<Cell<Seat<M>>>,
    course: &mut Course,
) -> Result<(), Halt>
    requires serving { IsServing M.origin M.rules store.old cells.old.items course.old.port }
    ensures goes { GoesOn M.rules store.old store.new }
    ensures kept { Keeps M.origin M.rules store.new }
    ensures whole { result ≢ Err Halt.SayFault → store.new.logs.cut ≡ false }
    ensures serving { OnOk result (IsServing M.origin M.rules store.new cells.new.items course.new.port) }
    ensures rises { IfErr result (RisesFor (V.disk_faults store.old.logs.site)
        (V.say_faults store.old.logs.site) (V.disk_faults store.new.logs.site)
        (V.say_faults store.new.logs.site)) }
    ensures past { IfErr result (IsPast M.rules store.new cells.new.items) }
    ensures clock { result ≢ Err Halt.ClockFault }
    ensures latest { store.new.logs.latest ≡ store.old.logs.latest }
    ensures trail { trail_in store.new.logs ≡ trail_in store.old.logs }
    ensures seen { course.new.seen ≡ course.old.seen }
{
    let reached = mem::replace(&mut course.reached, Vec::new(alloc));
    let served = serve_all(alloc, store, cells, &mut course.port, &reached);
    drop(reached);
    served
}
