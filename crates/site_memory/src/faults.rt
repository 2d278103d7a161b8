// A count of faults.
ghost use Rattle.std.specs.Prelude.{◌≤◌};
ghost use Rattle.site_model.specs.Calls.{HasRisen};

/// One more, up to the last number.
pub(crate) fn raised(faults: u64) -> u64
    ensures later { faults ≤ result }
    ensures risen { HasRisen faults result }
{
    faults.saturating_add(1)
}
