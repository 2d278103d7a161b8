//! What a program sees of a clock.

ghost use Rattle.std.specs.Prelude.{◌≡◌, ◌≤◌, ◌∷◌, ℕ, List, max, IfOk, OnErr};
ghost use Rattle.site_model.specs.Calls.{HasCause};
ghost use Rattle.site_model.specs.Readings.{Reading, asked, waited};

use crate::Failed;

/// The last stamp that a clock can give.
pub const LAST_STAMP: u64 = 0x7fff_ffff_ffff_ffff;

/// A clock that gives stamps in milliseconds.
pub trait Clock {
    /// The greatest stamp that it gave.
    ghost latest: { Self → ℕ };

    /// The stamps that it gave, the newest first.
    ghost given: { Self → List Reading };

    /// How often it has failed.
    ghost clock_faults: { Self → ℕ };

    /// The present stamp.
    fn now(&mut self) -> Result<u64, Failed>
        ensures range { IfOk result (λ t. t ≤ LAST_STAMP) }
        ensures latest { IfOk result (λ t. latest self.new ≡ max (latest self.old) t) }
        ensures given { IfOk result (λ t. given self.new ≡ asked t ∷ given self.old) }
        ensures failed { OnErr result (latest self.new ≡ latest self.old) }
        ensures gave_none { OnErr result (given self.new ≡ given self.old) }
        ensures cause { HasCause (clock_faults self.old) (clock_faults self.new) result };

    /// Waits until this stamp or later, and gives the stamp then.
    fn wait_until(&mut self, stamp: u64) -> Result<u64, Failed>
        requires { stamp ≤ LAST_STAMP }
        ensures reached { IfOk result (λ t. stamp ≤ t) }
        ensures range { IfOk result (λ t. t ≤ LAST_STAMP) }
        ensures latest { IfOk result (λ t. latest self.new ≡ max (latest self.old) t) }
        ensures given { IfOk result (λ t. given self.new ≡ waited stamp t ∷ given self.old) }
        ensures failed { OnErr result (latest self.new ≡ latest self.old) }
        ensures gave_none { OnErr result (given self.new ≡ given self.old) }
        ensures cause { HasCause (clock_faults self.old) (clock_faults self.new) result };
}
