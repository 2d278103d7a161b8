//! Why a table was not said to its end.

ghost use Rattle.std.specs.Prelude.{◌≡◌};
ghost use Rattle.state_lines.specs.declared.error.ShowError.TheVariants.{Memory};

use std::alloc::AllocError;
use std::fmt;

/// Why a table was not said to its end.
#[derive(Clone, Copy, Debug, PartialEq, Eq)]
pub enum ShowError {
    /// The tape failed: of the line that it failed at a part may stand.
    SayFault,
    /// Memory ran out. Whole lines were said.
    Memory,
}

impl fmt::Display for ShowError {
    fn fmt<W: fmt::Write>(&self, f: &mut fmt::Formatter<W>) -> fmt::Result {
        f.write_str(match self {
            ShowError::SayFault => "the tape failed",
            ShowError::Memory => "memory ran out",
        })
    }
}

impl std::error::Error for ShowError {}

impl From<AllocError> for ShowError {
    ghost from_gives = { λ _ error. error ≡ Memory };

    fn from(_error: AllocError) -> ShowError {
        ShowError::Memory
    }
}
