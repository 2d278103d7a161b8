// The clock in memory.
ghost use Rattle.std.specs.Prelude.{◌≡◌, ◌≤◌, ◌<◌, ◌^◌, [], ◌∷◌, max, IfOk, OnErr};
ghost use Rattle.site_model.specs.Calls.{HasCause};
ghost use Rattle.site_model.specs.Readings.{asked, waited};

use crate::faults::raised;
use site_model::{Clock, Failed, LAST_STAMP, Readings};

/// A clock that stands still until it is waited for, and fails where it is told to.
///
/// A listed call fails and is counted as a fault, and the clock stays as it is.
#[derive(Drop)]
pub struct TickClock {
    at: u64,
    latest: u64,
    calls: u64,
    faults: u64,
    readings: Readings,
    fails: Vec<u64>,
    ghost range: { at < 2 ^ 63 },
}

impl TickClock {
    ghost use Rattle.site_memory.specs.Tick.{tick_at, tick_latest, tick_given, tick_faults};

    /// A clock at this stamp. The calls with these numbers fail, counted from 0 over both kinds.
    pub fn new(at: u64, fails: Vec<u64>) -> TickClock
        requires { at ≤ LAST_STAMP }
        ensures at { tick_at result ≡ at }
        ensures latest { tick_latest result ≡ 0 }
        ensures given { tick_given result ≡ [] }
        ensures faults { tick_faults result ≡ 0 }
    {
        TickClock {
            at,
            latest: 0,
            calls: 0,
            faults: 0,
            readings: Readings::new(),
            fails,
        }
    }

    /// The greatest stamp that it gave, or 0.
    pub fn latest(&self) -> u64
        ensures { result ≡ tick_latest self.now }
    {
        self.latest
    }

    /// How often it has failed.
    pub fn faults(&self) -> u64
        ensures { result ≡ tick_faults self.now }
    {
        self.faults
    }
}

// Counts a call, and says whether it is to fail.
fn call(calls: &mut u64, fails: &[u64]) -> bool {
    let number = *calls;
    *calls = number.saturating_add(1);
    fails.contains(&number)
}

impl Clock for TickClock {
    ghost use Rattle.site_memory.specs.Tick.{tick_at, tick_latest, tick_given, tick_faults};

    ghost latest = { tick_latest };

    ghost given = { tick_given };

    ghost clock_faults = { tick_faults };

    fn now(&mut self) -> Result<u64, Failed>
        ensures range { IfOk result (λ t. t ≤ LAST_STAMP) }
        ensures latest { IfOk result (λ t. tick_latest self.new ≡ max (tick_latest self.old) t) }
        ensures given { IfOk result (λ t. tick_given self.new ≡ asked t ∷ tick_given self.old) }
        ensures failed { OnErr result (tick_latest self.new ≡ tick_latest self.old) }
        ensures gave_none { OnErr result (tick_given self.new ≡ tick_given self.old) }
        ensures cause { HasCause (tick_faults self.old) (tick_faults self.new) result }
        ensures at { IfOk result (λ t. t ≡ tick_at self.old) }
        ensures stays { tick_at self.new ≡ tick_at self.old }
    {
        if call(&mut self.calls, &self.fails) {
            self.faults = raised(self.faults);
            return Err(Failed);
        }
        self.latest = self.latest.max(self.at);
        self.readings.asked(self.at);
        Ok(self.at)
    }

    fn wait_until(&mut self, stamp: u64) -> Result<u64, Failed>
        requires { stamp ≤ LAST_STAMP }
        ensures reached { IfOk result (λ t. stamp ≤ t) }
        ensures range { IfOk result (λ t. t ≤ LAST_STAMP) }
        ensures latest { IfOk result (λ t. tick_latest self.new ≡ max (tick_latest self.old) t) }
        ensures given { IfOk result (λ t. tick_given self.new
            ≡ waited stamp t ∷ tick_given self.old) }
        ensures failed { OnErr result (tick_latest self.new ≡ tick_latest self.old) }
        ensures gave_none { OnErr result (tick_given self.new ≡ tick_given self.old) }
        ensures cause { HasCause (tick_faults self.old) (tick_faults self.new) result }
        ensures at { IfOk result (λ t. t ≡ max (tick_at self.old) stamp) }
        ensures moved { IfOk result (λ t. tick_at self.new ≡ t) }
        ensures stays { OnErr result (tick_at self.new ≡ tick_at self.old) }
    {
        if call(&mut self.calls, &self.fails) {
            self.faults = raised(self.faults);
            return Err(Failed);
        }
        self.at = self.at.max(stamp);
        self.latest = self.latest.max(self.at);
        self.readings.waited(stamp, self.at);
        Ok(self.at)
    }
}
