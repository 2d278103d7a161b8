//! Transcripts around a gate, and of a word that is drawn twice.

use crate::lives::{new_site, played};
use cell_steps::Mode;
use site_memory::{MemorySite, Pick};
use site_model::Site;
use std::alloc::Global;
use std::process::Abort;

/// The log of partition 0.
const LOG: u32 = 16;

/// The request is taken, and its entry is on the disk behind a closed gate.
const SYNCED: &str = "submit a 1 start Sum/x: queued
turn 0 1: entry 0
body 0 0: written
sync 0: synced";

/// And its gate is opened.
const GATED: &str = "submit a 1 start Sum/x: queued
turn 0 1: entry 0
body 0 0: written
sync 0: synced
gate 0: open";

/// The request is offered again, taken and answered once.
const AGAIN: &str = "say a 1: not answered
submit a 1 start Sum/x: queued
submit a 1 start Sum/x: taken
turn 0 16: entry 0
body 0 0: written
sync 0: synced
gate 0: open
settle 0: settled
submit a 1 start Sum/x: answered
say a 1: said";

/// The request was taken, and goes on.
const STANDS: &str = "submit a 1 start Sum/x: taken
submit a 1 start Sum/y: clash
turn 0 16: entry 1
body 0 0: written
sync 0: synced
gate 0: open
settle 0: settled
say a 1: said";

/// What a crash leaves at the end of a life.
fn crashed(rt: &impl Abort, alloc: Global, site: &MemorySite, pick: Pick) -> MemorySite {
    let moment = site.moment();
    site.image(alloc, moment, pick).expect(rt, "memory")
}

/// The tape has just these lines.
fn check_tape(rt: &impl Abort, alloc: Global, site: &MemorySite, lines: &str) {
    let tape = site.tape(alloc).expect(rt, "memory");
    assert!(rt; tape.as_slice() == lines.as_bytes());
    drop(tape);
}

/// The byte of the first frame's gate, and the log's length.
fn gate_byte(rt: &impl Abort, alloc: Global, site: &MemorySite) -> (u8, usize) {
    let content = site.content(alloc, LOG).expect(rt, "memory");
    let found = (*content.get(33).expect(rt, "a gate"), content.len());
    drop(content);
    found
}

/// One partition that runs ahead of its log lives through these events.
fn alone(rt: &impl Abort, alloc: Global, site: MemorySite, text: &str) -> (MemorySite, usize) {
    played(rt, alloc, site, 1, Mode::Local, text)
}

#[test]
fn a_crash_before_the_gate(rt: HostRuntime) {
    let alloc = rt.alloc();
    let (site, settled) = alone(&rt, alloc, new_site(&rt, alloc), SYNCED);
    assert!(&rt; settled == 0);
    assert!(&rt; gate_byte(&rt, alloc, &site) == (0, 77));
    for pick in [Pick::Stable, Pick::All, Pick::Torn(0xC3)] {
        let (again, settled) = alone(&rt, alloc, crashed(&rt, alloc, &site, pick), AGAIN);
        assert!(&rt; settled == 1);
        check_tape(&rt, alloc, &again, "a 1 started\n");
        drop(again);
    }
    drop(site);
}

#[test]
fn a_crash_in_the_gate(rt: HostRuntime) {
    let alloc = rt.alloc();
    let (site, settled) = alone(&rt, alloc, new_site(&rt, alloc), GATED);
    assert!(&rt; settled == 0);
    for (pick, text) in [
        (Pick::Stable, AGAIN),
        (Pick::Torn(0x17), AGAIN),
        (Pick::All, STANDS),
        (Pick::Torn(0xC3), STANDS),
    ] {
        let (again, settled) = alone(&rt, alloc, crashed(&rt, alloc, &site, pick), text);
        assert!(&rt; settled == 1);
        check_tape(&rt, alloc, &again, "a 1 started\n");
        drop(again);
    }
    drop(site);
}

/// The node is stopped behind the gate's opening: the frame is settled by the one that takes over.
const STOPPED_BEHIND: &str = "submit a 1 start Sum/x: queued
turn 0 1: entry 0
body 0 0: written
sync 0: synced
gate 0: open
stop 0: seen
own 0 1: settled and owned
settle 0: unmet
turn 0 16: entry 1
body 0 0: written
sync 0: synced
gate 0: open
settle 0: settled
say a 1: said
own 0 2: unmet";

/// It is stopped before: the frame is dropped, and the request is offered again.
const STOPPED_BEFORE: &str = "submit a 1 start Sum/x: queued
turn 0 1: entry 0
body 0 0: written
sync 0: synced
stop 0: seen
own 0 1: owned
gate 0: unmet
submit a 1 start Sum/x: queued
turn 0 16: entry 0
body 0 0: written
sync 0: synced
gate 0: open
settle 0: settled
say a 1: said";

#[test]
fn a_node_that_stops_around_the_gate(rt: HostRuntime) {
    let alloc = rt.alloc();
    let (site, settled) = alone(&rt, alloc, new_site(&rt, alloc), STOPPED_BEHIND);
    assert!(&rt; settled == 2);
    check_tape(&rt, alloc, &site, "a 1 started\n");
    drop(site);
    let (site, settled) = alone(&rt, alloc, new_site(&rt, alloc), STOPPED_BEFORE);
    assert!(&rt; settled == 1);
    check_tape(&rt, alloc, &site, "a 1 started\n");
    drop(site);
}

/// A word is drawn, an account set to it and asked, all ahead of the logs; then the node of the entry that drew it stops, and that entry is
/// given up. `Draw/x` lives in partition 0, client a in 1 and `@Account/A` in 2.
const DRAWN: &str = "submit a 1 start Draw/x: queued
turn 1 16: entry 0
arrive 0 0: queued
turn 0 16: entry 0
body 0 0: none ready
body 1 0: written
sync 1: synced
gate 1: open
settle 1: settled
body 0 0: written
sync 0: synced
gate 0: open
settle 0: settled
outcome 0 Draw/x draw 11: recorded
outcome 0 Draw/x draw 11: not pending
turn 0 16: entry 1
arrive 2 2: queued
turn 2 16: entry 0
submit a 2 query @Account/A: queued
turn 1 16: entry 1
arrive 2 3: queued
turn 2 16: entry 1
arrive 1 4: queued
turn 1 16: entry 2
say a 2: not answered
stop 0: seen
own 0 1: owned
judge 2 1: kept";

/// What depends on it is given up, partition by partition.
const JUDGED_EACH: &str = "judge 2 0: from 0 on for 0/0/1
judge 1 0: from 2 on for 2/0/1
judge 1 0: kept";

/// The same of all at once.
const JUDGED_ALL: &str = "judge all: kept
judge 2 0: kept
judge 1 0: kept";

/// Another word is drawn, set and said.
const DRAWN_AGAIN: &str = "outcome 0 Draw/x draw 12: recorded
turn 0 16: entry 1
arrive 2 2: queued
judge 2 0: kept
arrive 2 5: queued
turn 2 16: entry 0
arrive 2 3: queued
turn 2 16: entry 1
arrive 1 6: queued
turn 1 16: entry 2
body 0 0: written
sync 0: synced
gate 0: open
settle 0: settled
body 1 0: written
sync 1: synced
gate 1: open
settle 1: settled
body 2 0: written
sync 2: synced
gate 2: open
settle 2: settled
body 1 0: written
sync 1: synced
gate 1: open
settle 1: settled
say a 2: said";

/// A word is drawn, given up with all that depends on it, and another is drawn.
fn drawn_twice(rt: &impl Abort, alloc: Global, judged: &str) {
    let text = format!(in alloc; "{DRAWN}\n{judged}\n{DRAWN_AGAIN}").expect(rt, "memory");
    let (site, _) = played(rt, alloc, new_site(rt, alloc), 4, Mode::Global, &text);
    drop(text);
    check_tape(rt, alloc, &site, "a 2 value 12\n");
    drop(site);
}

#[test]
fn a_word_that_is_drawn_twice(rt: HostRuntime) {
    drawn_twice(&rt, rt.alloc(), JUDGED_EACH);
}

#[test]
fn a_word_that_is_drawn_twice_with_all_judged(rt: HostRuntime) {
    drawn_twice(&rt, rt.alloc(), JUDGED_ALL);
}
