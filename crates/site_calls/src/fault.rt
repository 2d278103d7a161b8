// Each error of the system is counted, and only the count says that there was one.
ghost use Rattle.std.specs.Prelude.{◌≡◌, ◌+◌, ◌≤◌, IfOk, MatchResult, Ok, Err, Some};
ghost use Rattle.site_model.specs.Calls.{HasCause};

use site_model::Failed;
use std::io;

/// Where the outside failed.
#[derive(Clone, Copy, PartialEq, Eq)]
pub enum FaultPlace {
    /// At the file with this number.
    File(u32),
    /// At the names of the directory.
    Names,
    /// At standard output.
    Output,
}

/// What failed, for people.
#[derive(Clone, Copy)]
pub struct Fault {
    pub place: FaultPlace,
    pub error: io::Error,
}

/// The outcome without its error, which raises the count. The count stays at the last number that it can hold.
pub fn counted<T>(outcome: io::Result<T>, faults: &mut u64) -> Result<T, Failed>
    ensures cause { HasCause faults.old faults.new result }
    ensures same { IfOk result (λ value. outcome ≡ Ok value) }
    ensures once { MatchResult outcome (λ _. faults.new ≡ faults.old)
        (λ _. faults.new ≤ faults.old + 1) }
{
    match outcome {
        Ok(value) => Ok(value),
        Err(_) => {
            *faults = faults.saturating_add(1);
            Err(Failed)
        }
    }
}

/// The outcome with the place of its error.
pub(crate) fn placed<T>(place: FaultPlace, outcome: io::Result<T>) -> Result<T, Fault>
    ensures { MatchResult result (λ value. outcome ≡ Ok value)
        (λ fault. (outcome ≡ Err fault.error) × (fault.place ≡ place)) }
{
    match outcome {
        Ok(value) => Ok(value),
        Err(error) => Err(Fault { place, error }),
    }
}

/// The outcome without its fault, which is kept as the last one and raises the count.
pub(crate) fn noted<T>(
    outcome: Result<T, Fault>,
    faults: &mut u64,
    last: &mut Option<Fault>,
) -> Result<T, Failed>
    ensures cause { HasCause faults.old faults.new result }
    ensures same { IfOk result (λ value. outcome ≡ Ok value) }
    ensures once { MatchResult outcome (λ _. faults.new ≡ faults.old)
        (λ _. faults.new ≤ faults.old + 1) }
    ensures last { MatchResult outcome (λ _. last.new ≡ last.old) (λ fault. last.new ≡ Some fault) }
{
    match outcome {
        Ok(value) => Ok(value),
        Err(fault) => {
            *last = Some(fault);
            counted(Err(fault.error), faults)
        }
    }
}
