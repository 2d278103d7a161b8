//! A value that goes along with a step which may fail.

ghost use Rattle.std.specs.Prelude.{◌≡◌, IfOk, IfErr, Ok, Err};

/// What a step made together with a value that goes on, or the step's fault, and then the value is let go. `?` alone would do the same;
/// but it lets a value of many parts go part by part where it stands, each of which is to be proved there, and here it is one call.
pub fn with<R, E, T: Drop>(step: Result<R, E>, value: T) -> Result<(R, T), E>
    ensures ok { IfOk result (λ both. (step ≡ Ok both.0) × (both.1 ≡ value)) }
    ensures err { IfErr result (λ fault. step ≡ Err fault) }
{
    match step {
        Ok(made) => Ok((made, value)),
        Err(fault) => Err(fault),
    }
}
