//! Runs without faults.

use crate::programs::{
    NAP, PROGRAMS, Program, SUM, check_end, check_kept, check_tape, run_by, run_from, run_on,
    site_left, site_of, tape_and_lines,
};
use log_items::Item;
use site_memory::MemorySite;
use std::alloc::Global;
use std::process::Abort;

/// The next run says all lines again, and settles and writes nothing.
fn check_again(rt: &impl Abort, alloc: Global, program: Program, site: MemorySite) {
    let log = site.content(alloc, 16).expect(rt, "memory");
    let wanted = tape_and_lines(rt, alloc, program, &site);
    let again = run_on(rt, alloc, site);
    check_end(rt, &again, 0);
    check_tape(rt, alloc, &again.site, &wanted);
    drop(wanted);
    assert!(rt; again.trail.as_slice().is_empty());
    check_kept(rt, alloc, &again.site, &log);
    drop(again);
    drop(log);
}

/// A run by so many labels says all lines, and the next run says them again.
fn check_program(rt: &impl Abort, alloc: Global, program: Program, batch: &str) {
    let first = run_by(rt, alloc, site_of(rt, alloc, program, &[]), batch);
    check_end(rt, &first, 0);
    check_tape(rt, alloc, &first.site, program.lines.as_bytes());
    check_again(rt, alloc, program, site_left(first));
}

#[test]
fn each_program_and_again(rt: HostRuntime) {
    let alloc = rt.alloc();
    for program in PROGRAMS {
        for batch in ["1", "2", "16", "64"] {
            check_program(&rt, alloc, program, batch);
        }
    }
}

/// By single labels there are seven: two requests taken, four messages delivered, and an activity over.
#[test]
fn labels_of_the_sum(rt: HostRuntime) {
    let alloc = rt.alloc();
    let ended = run_by(&rt, alloc, site_of(&rt, alloc, SUM, &[]), "1");
    let entries = ended.trail.as_slice();
    assert!(rt; entries.len() == 7);
    for (position, entry) in entries.iter().enumerate() {
        assert!(rt; entry.position == position as u64);
        assert!(rt; entry.incarnation == 0 && entry.partition == 0);
    }
    drop(ended);
}

/// Whoever takes a nap wakes at its stamp or later.
#[test]
fn the_clock_behind_a_nap(rt: HostRuntime) {
    let alloc = rt.alloc();
    let ended = run_on(&rt, alloc, site_of(&rt, alloc, NAP, &[]));
    assert!(rt; ended.clock.latest() >= 10);
    drop(ended);
}

/// The stamp of a delivery or of a timer.
fn stamp_of(item: &Item) -> Option<u64> {
    match item {
        Item::Ran(_, _, stamp) | Item::Fired(_, _, stamp) => Some(*stamp),
        _ => None,
    }
}

/// Whoever begins a nap of 10 milliseconds at stamp 1000 wakes at 1010: all before it is at the one, and all from it on at the other.
#[test]
fn a_nap_from_a_later_stamp(rt: HostRuntime) {
    let alloc = rt.alloc();
    let ended = run_from(&rt, alloc, site_of(&rt, alloc, NAP, &[]), 1000);
    check_end(&rt, &ended, 0);
    let mut woken = false;
    for entry in ended.trail.as_slice() {
        for item in entry.items.as_slice() {
            woken = woken || matches!(item, Item::Fired(_, _, _));
            let wanted = if woken { 1010 } else { 1000 };
            assert!(rt; stamp_of(item).is_none_or(|stamp| stamp == wanted));
        }
    }
    assert!(rt; woken);
    drop(ended);
}
