//! Transcripts of four cells, partitions 0 to 3 of 4: `Draw/x` lives in 0, client a in 1 and `@Account/A` in 2.

ghost use Rattle.std.specs.Prelude.{◌≡◌};
ghost use Rattle.flow_syntax.specs.Views.{flows_of};

use crate::seat::Named;
use crate::world::{leave_world, new_world};
use crate::world_calls::check_line;
use flow_reader::read_flows;
use flow_syntax::Flows;
use std::alloc::Global;
use std::marker::Brand;
use std::process::Abort;

/// A word is drawn, and an account is set to it.
const FLOWS: &[u8] = br#"{
"classes":{"Account":{"init":100,"ops":{"set":[["let","self",{"v":"arg"}]]}}},
"flows":{"Draw":[["call","w","draw",null],["signal","Account","A","set",{"v":"w"}],["return",{"v":"w"}]]}}"#;

/// Calls of four cells, each with its answer.
#[derive(Clone, Copy)]
struct Script {
    lines: &'static str,
}

/// The calls are made one after another on new cells. The caller picks their flows.
fn play_named<N: Named, A: Abort>(rt: &A, alloc: Global, flows: &Flows, script: Script)
    requires flows { flows_of flows.now ≡ N.flows }
    requires count { 4 ≡ N.count }
{
    let mut world = new_world::<N>(alloc);
    for line in script.lines.lines() {
        check_line(rt, alloc, flows, &mut world, line);
    }
    leave_world(world);
}

fn play(rt: &impl Abort, alloc: Global, lines: &'static str) {
    let flows = read_flows(alloc, FLOWS).expect(rt, "flows");
    play_named::<Brand, _>(rt, alloc, &flows, Script { lines });
    drop(flows);
}

/// An answer that depends on a word goes with the word, through all cells. No entry is settled.
const DRAWN_TWICE: &str = "1 offer 1 Draw/x: queued
1 turn global: entry 0, to 0: start
0 packet 1 0: start, queued
0 turn global: entry 0, to 1: started
0 turn global: idle
0 outcome 11: recorded
0 turn global: entry 1, to 2: set 11
2 packet 0 0: set 11, queued
2 turn global: entry 0
1 offer 2 @Account/A: queued
1 turn global: entry 1, to 2: query
2 packet 1 0: query, queued
2 turn global: entry 1, to 1: value 11
1 packet 2 0: value 11, queued
1 turn global: entry 2
1 offer 2 @Account/A: taken
0 reset 1: done
2 rewind 0 1: from 0 on for 0/0/1
1 rewind 0 1: kept
1 rewind 0 1, 2 0: from 2 on for 2/0/1
1 packet 2 0: value 11, queued
1 rewind 0 1, 2 0: kept
0 outcome 12: recorded
0 turn global: entry 1, to 2: set 12
2 packet 0 0: set 12, queued
2 turn global: entry 0
1 resend global: 2 sent, to 0: start, to 2: query
2 packet 1 0: query, queued
2 turn global: entry 1, to 1: value 12
1 packet 2 0: value 12, queued
1 turn global: entry 2
1 turn global: idle
0 resend global: 2 sent, to 1: started, to 2: set 12
2 resend global: 1 sent, to 1: value 12";

/// What another partition has read of a stream is let go of, once, by an entry. What was read of other streams changes nothing.
const TRIMMED: &str = "1 offer 1 Draw/x: queued
1 turn global: entry 0, to 0: start
0 packet 1 0: start, queued
0 turn global: entry 0, to 1: started
0 outcome 11: recorded
0 turn global: entry 1, to 2: set 11
0 resend global: 2 sent, to 1: started, to 2: set 11
0 trim 2 0 0: 0 trimmed
0 trim 2 1 1, 3 0 1: 0 trimmed
0 turn global: idle
0 trim 2 0 1: 1 trimmed
0 turn global: entry 2
0 resend global: 1 sent, to 1: started
0 trim 2 0 1: 0 trimmed
0 trim 1 0 1, 2 0 1: 1 trimmed
0 trim 1 0 1: 1 trimmed
0 turn global: entry 3
0 resend global: 0 sent
0 trim 1 0 1, 2 0 1: 0 trimmed
0 turn global: idle";

/// Where entries don't run ahead everywhere, nothing goes out while its entry isn't settled.
const KEPT_BACK: &str = "1 offer 1 Draw/x: queued
1 turn none: entry 0
1 resend none: 0 sent
1 offer 2 Draw/y: queued
1 turn none: held
1 turn local: entry 1
1 resend local: 0 sent
1 resend global: 2 sent, to 0: start, to 3: start";

#[test]
fn words_that_are_drawn_twice(rt: HostRuntime) {
    play(&rt, rt.alloc(), DRAWN_TWICE);
}

#[test]
fn messages_that_are_trimmed(rt: HostRuntime) {
    play(&rt, rt.alloc(), TRIMMED);
}

#[test]
fn messages_that_are_kept_back(rt: HostRuntime) {
    play(&rt, rt.alloc(), KEPT_BACK);
}
