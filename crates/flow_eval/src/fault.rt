//! What an expression throws.

ghost use Rattle.std.specs.Prelude.{◌≡◌};
ghost use Rattle.flow_eval.specs.declared.fault.EvalError.TheVariants.{Memory, Thrown};
ghost use Rattle.flow_eval.specs.Faults.{fault_text};

use std::alloc::{AllocError, AllocFailed};
use thiserror::Error;

/// A fault of an expression.
#[derive(Clone, Copy, Debug)]
pub enum Fault {
    /// An argument of another kind.
    Type,
    /// A variable that was never set.
    Unset,
    /// An integer past 64 bits.
    Overflow,
    /// A division by zero.
    DivZero,
    /// A value past a limit.
    Size,
    /// No scalar at that place of a list.
    Range,
    /// No text of a key's form.
    Key,
}

/// Why an expression gave nothing.
#[derive(Debug, Drop, Error)]
pub enum EvalError {
    /// It threw a fault.
    #[error("{}", .0.as_str())]
    Thrown(Fault),
    /// Its value had no room.
    #[error("out of memory")]
    Memory,
}

impl Fault {
    /// Its text.
    pub fn as_str(self) -> &'static str
        ensures { result.now ≡ fault_text self }
    {
        match self {
            Fault::Type => "type",
            Fault::Unset => "unset",
            Fault::Overflow => "overflow",
            Fault::DivZero => "divzero",
            Fault::Size => "size",
            Fault::Range => "range",
            Fault::Key => "key",
        }
    }
}

impl From<Fault> for EvalError {
    ghost from_gives = { λ f e. e ≡ Thrown f };

    fn from(fault: Fault) -> EvalError {
        EvalError::Thrown(fault)
    }
}

impl From<AllocError> for EvalError {
    ghost from_gives = { λ _ e. e ≡ Memory };

    fn from(_e: AllocError) -> EvalError {
        EvalError::Memory
    }
}

impl<T: Drop> From<AllocFailed<T>> for EvalError {
    ghost from_gives = { λ _ e. e ≡ Memory };

    fn from(_e: AllocFailed<T>) -> EvalError {
        EvalError::Memory
    }
}
