//! A transcript of what only as many passes of judging as there are partitions give up.

use crate::lives::{new_site, played};
use cell_steps::Mode;
use std::alloc::Global;
use std::process::Abort;

/// Client a and `G/a` live in partition 1 of 3, `F/c` in 2 and `H/c` in 0. An entry of partition 1 is given up whose packet comes late to 2,
/// which goes on by 1 to 0.
const GIVEN_UP: &str = "submit a 1 start F/c: queued
turn 1 16: entry 0
own 1 0: owned
arrive 2 0: queued
turn 2 16: entry 0
arrive 1 1: queued
arrive 1 2: queued
turn 1 16: entry 0
arrive 0 3: queued
turn 0 16: entry 0";

/// Each pass of judging, from 0 to 2, gives up one entry, and the last one of 0 in the third.
const PASSES: &str = "judge 0 0: kept
judge 1 0: kept
judge 2 0: from 0 on for 1/0/0
judge 0 0: kept
judge 1 0: from 0 on for 2/0/0
judge 2 0: kept
judge 0 0: from 0 on for 1/1/0
judge 1 0: kept
judge 2 0: kept";

/// Nothing is left of it, and the request is offered again.
const AGAIN: &str = "turn 0 16: idle
turn 1 16: idle
turn 2 16: idle
submit a 1 start F/c: queued
turn 1 16: entry 0
body 1 0: written
sync 1: synced
gate 1: open
settle 1: settled";

/// All is given up by what this text judges.
fn all_given_up(rt: &impl Abort, alloc: Global, judged: &str) {
    let text = format!(in alloc; "{GIVEN_UP}\n{judged}\n{AGAIN}").expect(rt, "memory");
    let (site, settled) = played(rt, alloc, new_site(rt, alloc), 3, Mode::Global, &text);
    drop(text);
    assert!(rt; settled == 1);
    drop(site);
}

#[test]
fn as_many_passes_as_partitions(rt: HostRuntime) {
    all_given_up(&rt, rt.alloc(), PASSES);
}

#[test]
fn all_passes_at_once(rt: HostRuntime) {
    all_given_up(&rt, rt.alloc(), "judge all: kept");
}
