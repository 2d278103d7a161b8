//! What goes out of a cell whose entries are settled: by the turn that makes them, or once they are.

ghost use Rattle.std.specs.Prelude.{◌≡◌, ◌≤◌, [], take, length};
ghost use Rattle.flow_syntax.specs.Views.{flows_of};
ghost use Rattle.log_items.specs.Plain.{entries_of};

use crate::calls::{TestCell, id_of};
use crate::seat::{Named, leave, leave_seat, new_cell, seat_of};
use crate::world::send;
use dura_value::{Body, Message, Reply, Value};
use flow_steps::Machines;
use flow_syntax::Flows;
use log_items::{Entry, Packet};
use spec_cell::{CellTurn, Mode, Offered};
use spec_tracker::Marks;
use std::alloc::Global;
use std::marker::Brand;
use std::process::Abort;
use std::str::FromStr;

/// A request to start an instance comes for the first time.
pub(crate) fn ask<N: Named>(rt: &impl Abort, alloc: Global, cell: &mut TestCell<N>, instance: &str)
    ensures number { cell.new.number ≡ cell.old.number }
    ensures slot { cell.new.slot ≡ cell.old.slot }
{
    let message = Message {
        from: id_of(rt, alloc, "#a"),
        to: id_of(rt, alloc, instance),
        body: Body::Start(Value::Null, Reply::Request(1)),
    };
    match cell.offer(alloc, message).expect(rt, "memory") {
        Offered::Queued => {}
        Offered::Taken | Offered::Clash | Offered::Kept(_) => panic!(rt; "it waits"),
    }
}

/// An entry is made. What goes out at once.
pub(crate) fn turn_once<N: Named>(
    rt: &impl Abort,
    alloc: Global,
    flows: &Flows,
    cell: &mut TestCell<N>,
    mode: Mode,
) -> Vec<Packet>
    requires { flows_of flows.now ≡ N.flows }
    ensures number { cell.new.number ≡ cell.old.number }
    ensures slot { cell.new.slot ≡ cell.old.slot }
{
    let machines = Machines::of(flows);
    match cell.turn(alloc, &machines, 64, mode).expect(rt, "memory") {
        CellTurn::Turned(_, packets) => packets,
        CellTurn::Held | CellTurn::Idle | CellTurn::Spent(_) => panic!(rt; "an entry is made"),
    }
}

/// The entries that depend on nothing but one another, of a cell that has settled none.
fn pick_all<N: Named>(rt: &impl Abort, alloc: Global, cell: &mut TestCell<N>) -> Vec<Entry>
    ensures first { entries_of result.items ≡ take (length result.items) cell.new.entries }
    ensures few { length result.items ≤ length cell.new.entries }
    ensures number { cell.new.number ≡ cell.old.number }
    ensures slot { cell.new.slot ≡ cell.old.slot }
{
    let marks = Marks {
        lengths: Vec::new(alloc),
        floors: Vec::new(alloc),
        reads: Vec::new(alloc),
    };
    let picked = cell.pick(alloc, &marks).expect(rt, "memory");
    drop(marks);
    let (frame, sending) = picked.expect(rt, "a frame");
    drop(sending);
    frame.into_entries()
}

/// They are settled in this partition. What goes out by then.
pub(crate) fn settle<N: Named>(
    rt: &impl Abort,
    alloc: Global,
    cell: &mut TestCell<N>,
    number: u32,
    mode: Mode,
) -> Vec<Packet>
    requires number { cell.old.number ≡ number }
    requires none { cell.old.slot.mine ≡ [] }
{
    let entries = pick_all(rt, alloc, cell);
    let count = entries.len();
    let (stub, packets) = cell.settled(alloc, count, mode, seat_of(number, entries));
    leave_seat(stub);
    packets.expect(rt, "memory")
}

/// What goes out of a new cell of partition 1 by the entry that takes a request for `Draw/x`, which lives in partition 0: at once, and once it is settled. The caller picks its
/// flows.
fn sends_named<N: Named, A: Abort>(
    rt: &A,
    alloc: Global,
    flows: &Flows,
    mode: Mode,
) -> (Vec<Packet>, Vec<Packet>)
    requires flows { flows_of flows.now ≡ N.flows }
    requires count { 4 ≡ N.count }
{
    let mut cell = new_cell::<N>(alloc, 4, 1);
    ask(rt, alloc, &mut cell, "Draw/x");
    let at_once = turn_once(rt, alloc, flows, &mut cell, mode);
    let later = settle(rt, alloc, &mut cell, 1, mode);
    leave(cell);
    (at_once, later)
}

/// The packets say this.
fn check(rt: &impl Abort, alloc: Global, packets: Vec<Packet>, wanted: &str) {
    let mut sent = Vec::new(alloc);
    let begun = String::from_str(alloc, "sent").expect(rt, "memory");
    let told = send(rt, alloc, &mut sent, packets, begun);
    drop(sent);
    assert!(rt; told.as_str() == wanted, "not {wanted}, but {told}");
    drop(told);
}

/// In each mode a message goes out once: at once, or when its entry is settled.
fn modes_of(rt: &impl Abort, alloc: Global) {
    let flows = Flows::new(alloc);
    for (mode, at_once, later) in [
        (Mode::None, "sent", "sent, to 0: start"),
        (Mode::Local, "sent", "sent, to 0: start"),
        (Mode::Global, "sent, to 0: start", "sent"),
    ] {
        let (first, second) = sends_named::<Brand, _>(rt, alloc, &flows, mode);
        check(rt, alloc, first, at_once);
        check(rt, alloc, second, later);
    }
    drop(flows);
}

#[test]
fn messages_that_go_out_once(rt: HostRuntime) {
    modes_of(&rt, rt.alloc());
}
