//! Each call of the outside fails in turn.

use crate::programs::{
    NAP, PROGRAMS, Program, Run, SUM, check_end, check_next, check_tape, run_on, run_words,
    site_left, site_of,
};
use site_memory::{Kind, MemorySite, Pick};
use std::alloc::Global;
use std::process::Abort;

/// What stands on the tape is a front of all lines, and whole lines where it was no line that failed.
fn check_front(rt: &impl Abort, program: Program, tape: &[u8], is_say: bool) {
    assert!(rt; program.lines.as_bytes().starts_with(tape));
    assert!(rt; is_say || tape.is_empty() || tape.last() == Some(&b'\n'));
}

/// The run ended by the fault of one call.
fn check_fault(rt: &impl Abort, alloc: Global, program: Program, ended: &Run, kind: Kind) {
    let is_say = kind == Kind::Say;
    let (status, disk, say) = if is_say { (6, 0, 1) } else { (5, 1, 0) };
    check_end(rt, ended, status);
    assert!(rt; ended.site.disk_faults() == disk);
    assert!(rt; ended.site.say_faults() == say);
    let tape = ended.site.tape(alloc).expect(rt, "memory");
    check_front(rt, program, &tape, is_say);
    drop(tape);
}

const PICKS: [Pick; 3] = [Pick::Stable, Pick::All, Pick::Torn(0xC3)];

/// The next runs say all lines, whatever is left of what a run left.
fn check_left(rt: &impl Abort, alloc: Global, program: Program, site: &MemorySite) {
    let moment = site.record().len() as u64;
    for pick in PICKS {
        let image = site.image(alloc, moment, pick).expect(rt, "memory");
        check_next(rt, alloc, program, image);
    }
}

/// The run ended by the fault of one call, and the next runs say all lines.
fn check_failed(rt: &impl Abort, alloc: Global, program: Program, ended: Run, kind: Kind) {
    check_fault(rt, alloc, program, &ended, kind);
    let site = site_left(ended);
    check_left(rt, alloc, program, &site);
    check_next(rt, alloc, program, site);
}

/// Whether the call with this number failed, with the next runs after it checked.
fn fails_at(rt: &impl Abort, alloc: Global, program: Program, kind: Kind, number: u64) -> bool {
    let first = run_on(rt, alloc, site_of(rt, alloc, program, &[(kind, number)]));
    let fails = first.status != 0;
    if fails {
        check_failed(rt, alloc, program, first, kind);
    } else {
        assert!(rt; number == first.site.calls(kind));
        drop(first);
    }
    fails
}

/// Each of these calls in turn fails, and there are at least so many.
fn check_kind(rt: &impl Abort, alloc: Global, program: Program, kind: Kind, least: u64) {
    let mut faults = 0;
    for number in 0..400 {
        if !fails_at(rt, alloc, program, kind, number) {
            break;
        }
        faults = number + 1;
    }
    assert!(rt; faults >= least && faults < 400);
}

#[test]
fn each_fault_in_turn(rt: HostRuntime) {
    for program in PROGRAMS {
        check_kind(&rt, rt.alloc(), program, Kind::Device, 10);
        check_kind(&rt, rt.alloc(), program, Kind::Say, 2);
    }
}

/// The run ended by a fault of the disk, after so many in all, and the next run says all lines.
fn check_disk_fault(rt: &impl Abort, alloc: Global, program: Program, ended: Run, faults: u64) {
    check_end(rt, &ended, 5);
    assert!(rt; ended.site.disk_faults() == faults);
    check_next(rt, alloc, program, site_left(ended));
}

/// Whether the device's call with this number after one that failed before it fails too, with the next runs checked.
fn fails_again_at(rt: &impl Abort, alloc: Global, first: u64, second: u64) -> bool {
    let fails = [(Kind::Device, first), (Kind::Device, second)];
    let before = run_on(rt, alloc, site_of(rt, alloc, SUM, &fails));
    check_end(rt, &before, 5);
    let after = run_on(rt, alloc, site_left(before));
    let fails = after.status != 0;
    if fails {
        check_disk_fault(rt, alloc, SUM, after, 2);
    } else {
        drop(after);
    }
    fails
}

#[test]
fn two_faults_in_turn(rt: HostRuntime) {
    let alloc = rt.alloc();
    for first in 0..10 {
        for second in first + 1..1000 {
            if !fails_again_at(&rt, alloc, first, second) {
                break;
            }
        }
    }
}

#[test]
fn a_sync_fails(rt: HostRuntime) {
    let alloc = rt.alloc();
    let first = run_on(&rt, alloc, site_of(&rt, alloc, SUM, &[(Kind::Sync, 1)]));
    check_tape(&rt, alloc, &first.site, b"");
    check_disk_fault(&rt, alloc, SUM, first, 1);
}

/// The run ended by a fault of the clock, and the next run says all lines.
fn check_clock_fault(rt: &impl Abort, alloc: Global, ended: Run) {
    check_end(rt, &ended, 7);
    assert!(rt; ended.clock.faults() == 1);
    check_next(rt, alloc, NAP, site_left(ended));
}

/// Whether the clock's call with this number failed, with the next run after it checked.
fn clock_fails_at(rt: &impl Abort, alloc: Global, number: u64) -> bool {
    let fails = vec![in alloc; number].expect(rt, "memory");
    let first = run_words(
        rt,
        alloc,
        &["run", "--partitions", "1"],
        site_of(rt, alloc, NAP, &[]),
        fails,
    );
    let fails = first.status != 0;
    if fails {
        check_clock_fault(rt, alloc, first);
    } else {
        drop(first);
    }
    fails
}

/// Each reading of the clock fails in turn, and each wait for it.
#[test]
fn the_clock_fails(rt: HostRuntime) {
    let mut faults = 0;
    for number in 0..100 {
        if !clock_fails_at(&rt, rt.alloc(), number) {
            break;
        }
        faults = number + 1;
    }
    assert!(rt; faults >= 3 && faults < 100);
}
