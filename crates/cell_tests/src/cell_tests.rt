//! Transcripts of cells of partition 0 of 2.

ghost use Rattle.std.specs.Prelude.{◌≡◌};
ghost use Rattle.flow_syntax.specs.Views.{flows_of};

use crate::calls::check_line;
use crate::seat::{Named, leave, new_cell};
use flow_reader::read_flows;
use flow_syntax::Flows;
use std::alloc::Global;
use std::marker::Brand;
use std::process::Abort;

/// An activity adds two numbers, and a timer is waited for.
pub(crate) const FLOWS: &[u8] = br#"{"flows":{
    "Sum":[["call","s","add",{"list":[2,3]}],["return",{"v":"s"}]],
    "Nap":[["timer","t",10],["await","r",{"v":"t"}],["return","up"]]}}"#;

/// Calls of one cell, each with its answer.
#[derive(Clone, Copy)]
struct Script {
    lines: &'static str,
}

/// The calls are made one after another on a new cell. The caller picks its flows.
fn play_named<N: Named, A: Abort>(rt: &A, alloc: Global, flows: &Flows, script: Script)
    requires flows { flows_of flows.now ≡ N.flows }
    requires count { 2 ≡ N.count }
{
    let mut cell = new_cell::<N>(alloc, 2, 0);
    for line in script.lines.lines() {
        check_line(rt, alloc, flows, &mut cell, line);
    }
    leave(cell);
}

fn play(rt: &impl Abort, alloc: Global, lines: &'static str) {
    let flows = read_flows(alloc, FLOWS).expect(rt, "flows");
    play_named::<Brand, _>(rt, alloc, &flows, Script { lines });
    drop(flows);
}

/// Packets of a stream come in order, once each, also behind a turn that took what waited.
const PACKETS: &str = "packet 1 1: gap, next is 0
packet 1 0: queued
packet 1 0: repeat, next is 1
packet 1 2: gap, next is 1
packet 1 1: queued
turn local: entry 0
packet 1 1: repeat, next is 2
packet 1 3: gap, next is 2
packet 1 2: queued
turn local: entry 1
turn local: idle";

/// An outcome of an activity is recorded once, while it is pending.
const OUTCOMES: &str = "outcome Sum/y 0: not pending
offer 1 Sum/y: queued
turn local: entry 0
turn local: idle
outcome Sum/y 1: not pending
outcome Sum/w 0: not pending
outcome Sum/y 0: recorded
outcome Sum/y 0: not pending
turn local: entry 1
turn local: idle
outcome Sum/y 0: not pending";

/// A request is known by its client and its number, as long as it waits and once it was taken.
const REQUESTS: &str = "offer 1 Sum/y: queued
offer 1 Sum/y: taken
offer 1 Sum/w: clash
offer 2 Sum/w: queued
turn local: entry 0
offer 1 Sum/y: taken
offer 1 Sum/w: clash
offer 2 Sum/w: taken
offer 3 Sum/y: queued
turn local: entry 1
turn local: idle";

/// Without speculation no entry is made behind one that isn't settled.
const HELD: &str = "turn none: idle
offer 1 Sum/y: queued
turn none: entry 0
turn none: held
packet 1 0: queued
turn none: held
turn local: entry 1
turn none: held
reset 0: done
turn none: idle";

/// An entry is given up with all behind it where a packet of it was sent by an entry that was. What was taken in is sent anew.
const REWOUND: &str = "packet 1 0: queued
turn local: entry 0
packet 1 1: queued
turn local: entry 1
offer 1 Sum/y: queued
turn local: entry 2
rewind 1 2: kept
rewind 1 1: from 1 on for 1/0/1
turn local: idle
packet 1 2: gap, next is 1
packet 1 1: queued
turn global: entry 1
rewind 1 0: from 0 on for 1/0/0
packet 1 0: queued
turn local: entry 0
turn local: idle";

/// An entry goes with the one right before it, and the request that it took may come again. Nothing goes where nothing depends on what was
/// given up.
const CHAINED: &str = "offer 1 Sum/y: queued
turn local: entry 0
offer 2 Sum/w: queued
turn local: entry 1
rewind 1 0: kept
rewind 0 1: kept
rewind 0 0: from 1 on for 0/0/0
offer 1 Sum/y: taken
offer 2 Sum/w: queued
turn local: entry 1
turn local: idle";

/// A packet that waits goes where the entry that sent it was given up, with those behind it, and a request stays.
const CUT: &str = "packet 1 0: queued
packet 1 1: queued
packet 1 2: queued
offer 1 Sum/y: queued
rewind 1 1: kept
packet 1 2: gap, next is 1
offer 1 Sum/y: taken
turn local: entry 0
turn local: idle";

/// All from a position on is given up, and requests that wait stay.
const RESET: &str = "offer 1 Sum/y: queued
turn local: entry 0
packet 1 0: queued
turn local: entry 1
offer 2 Sum/w: queued
packet 1 1: queued
reset 1: done
packet 1 1: gap, next is 0
offer 1 Sum/y: taken
offer 2 Sum/w: taken
outcome Sum/y 0: recorded
turn local: entry 1
reset 0: done
offer 1 Sum/y: queued
turn local: entry 0
turn local: idle";

/// Timers that are due are counted by the greatest moment that was handed in, and fire in a turn.
const TIMERS: &str = "offer 1 Nap/y: queued
fire 5: 0 due
turn local: entry 0
fire 14: 0 due
fire 15: 1 due
fire 3: 1 due
turn local: entry 1
fire 99: 0 due
turn local: idle";

#[test]
fn timers(rt: HostRuntime) {
    play(&rt, rt.alloc(), TIMERS);
}

#[test]
fn packets(rt: HostRuntime) {
    play(&rt, rt.alloc(), PACKETS);
}

#[test]
fn outcomes(rt: HostRuntime) {
    play(&rt, rt.alloc(), OUTCOMES);
}

#[test]
fn requests(rt: HostRuntime) {
    play(&rt, rt.alloc(), REQUESTS);
}

#[test]
fn turns_without_speculation(rt: HostRuntime) {
    play(&rt, rt.alloc(), HELD);
}

#[test]
fn entries_that_are_rewound(rt: HostRuntime) {
    play(&rt, rt.alloc(), REWOUND);
}

#[test]
fn entries_behind_those_that_are_lost(rt: HostRuntime) {
    play(&rt, rt.alloc(), CHAINED);
}

#[test]
fn packets_that_are_cut(rt: HostRuntime) {
    play(&rt, rt.alloc(), CUT);
}

#[test]
fn resets(rt: HostRuntime) {
    play(&rt, rt.alloc(), RESET);
}
