//! Runs that are cut off at each moment.

ghost use Rattle.std.specs.Prelude.{◌<◌};

use crate::programs::{
    NAP, Program, SUM, TRANSFERS, check_next, run_by, run_on, site_left, site_of,
};
use site_memory::{MemorySite, Pick};
use site_model::Site;
use std::alloc::Global;
use std::process::Abort;

const PICKS: [Pick; 4] = [Pick::Stable, Pick::All, Pick::Torn(0x17), Pick::Torn(0xC3)];

fn image(rt: &impl Abort, alloc: Global, site: &MemorySite, moment: u64, pick: Pick) -> MemorySite {
    site.image(alloc, moment, pick).expect(rt, "memory")
}

/// The next run after a crash at this moment says all lines, whatever is left.
fn check_images(rt: &impl Abort, alloc: Global, program: Program, site: &MemorySite, moment: u64) {
    for pick in PICKS {
        check_next(rt, alloc, program, image(rt, alloc, site, moment, pick));
    }
}

/// A run of a program is cut off at each moment, or at every so many.
fn check_moments(rt: &impl Abort, alloc: Global, program: Program, batch: &str, step: usize)
    requires { 0 < step }
{
    let site = site_of(rt, alloc, program, &[]);
    let prepared = site.moment();
    let first = site_left(run_by(rt, alloc, site, batch));
    for moment in (prepared..=first.moment()).step_by(step) {
        check_images(rt, alloc, program, &first, moment);
    }
    drop(first);
}

#[test]
fn the_sum_by_single_labels(rt: HostRuntime) {
    check_moments(&rt, rt.alloc(), SUM, "1", 1);
}

#[test]
fn the_sum(rt: HostRuntime) {
    check_moments(&rt, rt.alloc(), SUM, "16", 1);
}

#[test]
fn the_nap(rt: HostRuntime) {
    check_moments(&rt, rt.alloc(), NAP, "16", 1);
}

#[test]
fn the_transfers(rt: HostRuntime) {
    check_moments(&rt, rt.alloc(), TRANSFERS, "16", 5);
}

/// The next run after a crash at this moment, and another in the run behind it, says all lines.
fn check_second_crash(rt: &impl Abort, alloc: Global, site: &MemorySite, moment: u64, pick: Pick) {
    let crashed = image(rt, alloc, site, moment, pick);
    let start = crashed.moment();
    let second = site_left(run_on(rt, alloc, crashed));
    for later in (start..=second.moment()).step_by(5) {
        let crashed = image(rt, alloc, &second, later, Pick::Torn(0xC3));
        check_next(rt, alloc, SUM, crashed);
    }
    drop(second);
}

#[test]
fn two_crashes(rt: HostRuntime) {
    let alloc = rt.alloc();
    let site = site_of(&rt, alloc, SUM, &[]);
    let prepared = site.moment();
    let first = site_left(run_on(&rt, alloc, site));
    for moment in prepared..=first.moment() {
        check_second_crash(&rt, alloc, &first, moment, Pick::Stable);
        check_second_crash(&rt, alloc, &first, moment, Pick::Torn(0xC3));
    }
    drop(first);
}
