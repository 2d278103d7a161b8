// What no clause says: that the clocks give stamps at all, that of the machine in milliseconds, and that a wait gives up.
use site_host::WallClock;
use site_memory::TickClock;
use site_model::{Clock, LAST_STAMP};
use std::process::Abort;
use std::time::Duration;
use std::{io, rt};

// A clock that stands still.
#[derive(Drop)]
struct Still(Duration);

impl rt::Clock for Still {
    fn monotonic(&self) -> io::Result<Duration> {
        Ok(self.0)
    }

    fn since_1970(&self) -> io::Result<Duration> {
        Ok(self.0)
    }
}

fn check_wait(rt: &impl Abort, clock: &mut WallClock<HostRuntime>, from: u64) {
    let soon = from.saturating_add(5).min(LAST_STAMP);
    let reached = clock.wait_until(soon).expect(rt, "a wait");
    assert!(rt; reached >= soon);
}

fn check_moments(rt: &impl Abort, clock: &mut WallClock<HostRuntime>) {
    let first = clock.now().expect(rt, "a stamp");
    let second = clock.now().expect(rt, "a stamp");
    assert!(rt; 1_700_000_000_000 < first && first <= second);
    check_wait(rt, clock, second);
}

fn check_still(rt: &impl Abort) {
    let mut clock = WallClock::new(Still(Duration::from_millis(1234)));
    let reached = clock.wait_until(1234).expect(rt, "a stamp");
    assert!(rt; reached == 1234);
    clock.wait_until(1235).expect_err(rt, "a fault");
}

/// A clock past the last stamp gives none.
fn check_past_the_last(rt: &impl Abort) {
    let mut clock = WallClock::new(Still(Duration::from_secs(u64::MAX)));
    clock.now().expect_err(rt, "a fault");
}

#[test]
fn reads_the_clock(rt: HostRuntime) {
    check_moments(&rt, &mut WallClock::new(rt));
    check_still(&rt);
    check_past_the_last(&rt);
}

/// Both are the same stamp.
fn check_same(rt: &impl Abort, value: u64, wanted: u64) {
    assert!(rt; value == wanted);
}

fn check_first_waits(rt: &impl Abort, clock: &mut TickClock) {
    check_same(rt, clock.latest(), 0);
    check_same(rt, clock.now().expect(rt, "a stamp"), 5);
    clock.wait_until(9).expect_err(rt, "a fault");
    check_same(rt, clock.wait_until(9).expect(rt, "a stamp"), 9);
    check_same(rt, clock.wait_until(3).expect(rt, "a stamp"), 9);
}

fn check_last_wait(rt: &impl Abort, clock: &mut TickClock) {
    clock.now().expect_err(rt, "a fault");
    let last = clock.wait_until(LAST_STAMP).expect(rt, "a stamp");
    check_same(rt, last, LAST_STAMP);
    check_same(rt, clock.latest(), LAST_STAMP);
    check_same(rt, clock.faults(), 2);
}

#[test]
fn the_clock_moves_when_it_is_waited_for(rt: HostRuntime) {
    let fails = [1, 4].to_vec(rt.alloc()).expect(&rt, "memory");
    let mut clock = TickClock::new(5, fails);
    check_first_waits(&rt, &mut clock);
    check_last_wait(&rt, &mut clock);
}
