// The clock of the machine.
ghost use Rattle.std.specs.Prelude.{◌≡◌, ◌≤◌, ◌∷◌, [], max, IfOk, OnErr};
ghost use Rattle.site_model.specs.Calls.{HasCause};
ghost use Rattle.site_model.specs.Readings.{asked, waited};

use site_calls::counted;
use site_model::{Clock, Failed, LAST_STAMP, Readings};
use std::io::ErrorKind;
use std::time::{Duration, SystemTime, UNIX_EPOCH};
use std::{io, rt, thread};

/// How often a wait reads the clock.
const READS_LIMIT: u32 = 1000;

/// The machine's clock, in milliseconds since 1970. It may be set back, so a stamp may lie before an earlier one.
#[derive(Drop)]
pub struct WallClock<R> {
    rt: R,
    latest: u64,
    faults: u64,
    readings: Readings,
}

impl<R> WallClock<R> {
    /// A clock that has given no stamp.
    pub fn new(rt: R) -> WallClock<R> {
        WallClock {
            rt,
            latest: 0,
            faults: 0,
            readings: Readings::new(),
        }
    }

    // A stamp that was read becomes one that was given, or the fault is counted.
    fn give(&mut self, read: io::Result<u64>) -> Result<u64, Failed>
        ensures same { IfOk result (λ t. read ≡ Ok t) }
        ensures latest { IfOk result (λ t. self.new.latest ≡ max self.old.latest t) }
        ensures failed { OnErr result (self.new.latest ≡ self.old.latest) }
        ensures readings { self.new.readings ≡ self.old.readings }
        ensures cause { HasCause self.old.faults self.new.faults result }
    {
        let stamp = counted(read, &mut self.faults)?;
        self.latest = self.latest.max(stamp);
        Ok(stamp)
    }
}

impl<R: rt::Clock> Clock for WallClock<R> {
    ghost latest = { λ clock. clock.latest };

    ghost given = { λ clock. clock.readings.stamps };

    ghost clock_faults = { λ clock. clock.faults };

    fn now(&mut self) -> Result<u64, Failed> {
        let read = read_clock(&self.rt);
        let now = self.give(read)?;
        self.readings.asked(now);
        Ok(now)
    }

    fn wait_until(&mut self, stamp: u64) -> Result<u64, Failed> {
        let read = read_from(&self.rt, stamp);
        let now = self.give(read)?;
        self.readings.waited(stamp, now);
        Ok(now)
    }
}

// A clock that is set before 1970 gives an error, and so does one past the last stamp.
fn read_clock(rt: &impl rt::Clock) -> io::Result<u64>
    ensures range { IfOk result (λ t. t ≤ LAST_STAMP) }
{
    let Ok(since) = SystemTime::now(rt)?.duration_since(UNIX_EPOCH) else {
        return Err(io::Error::from(ErrorKind::InvalidData));
    };
    match u64::try_from(since.as_millis()) {
        Ok(stamp) if stamp <= LAST_STAMP => Ok(stamp),
        _ => Err(io::Error::from(ErrorKind::InvalidData)),
    }
}

// Reads the clock until it has come to this stamp. It sleeps in between, and reads again since a sleep may end early.
fn read_from(rt: &impl rt::Clock, stamp: u64) -> io::Result<u64>
    ensures reached { IfOk result (λ t. stamp ≤ t) }
    ensures range { IfOk result (λ t. t ≤ LAST_STAMP) }
{
    for _ in 0..READS_LIMIT {
        let now = read_clock(rt)?;
        if now >= stamp {
            return Ok(now);
        }
        thread::sleep(rt, Duration::from_millis(stamp - now));
    }
    Err(io::Error::from(ErrorKind::TimedOut))
}
