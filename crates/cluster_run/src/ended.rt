//! What a call gives back.

ghost use Rattle.std.specs.Prelude.{◌≡◌};
ghost use Rattle.run_causes.specs.Causes.{status_of};

use hub_store::Trail;
use run_causes::Cause;

/// What a call gives back.
#[derive(Drop)]
pub struct Ended<V, C> {
    /// The exit status.
    pub status: u8,
    /// Why it ended.
    pub cause: Cause,
    /// What it settled.
    pub trail: Trail,
    /// The site, whatever happened.
    pub site: V,
    /// The clock, whatever happened.
    pub clock: C,
}

/// A call that ended for this cause.
pub fn end_with<V, C>(cause: Cause, trail: Trail, site: V, clock: C) -> Ended<V, C>
    ensures status { result.status ≡ status_of cause }
    ensures cause { result.cause ≡ cause }
    ensures trail { result.trail ≡ trail }
    ensures site { result.site ≡ site }
    ensures clock { result.clock ≡ clock }
{
    Ended {
        status: cause.status(),
        cause,
        trail,
        site,
        clock,
    }
}
