//! Why there is no plan.

ghost use Rattle.std.specs.Prelude.{◌≡◌};
ghost use Rattle.move_plan.specs.declared.error.PlanError.TheVariants.{Memory};

use std::alloc::{AllocError, AllocFailed};
use std::fmt;
use thiserror::Error;

/// Where a plan is wrong.
#[derive(Clone, Copy, Debug, PartialEq, Eq)]
pub enum Place {
    /// There are no lists of moves and of stops, or something besides.
    Whole,
    /// The move with this number, from 0.
    Move(usize),
    /// The stop with this number, from 0.
    Stop(usize),
}

/// Why a file gave no plan.
#[derive(Clone, Copy, Debug, Drop, PartialEq, Eq, Error)]
pub enum PlanError {
    /// It is no plan. The place is the first that is wrong.
    #[error("{0} is wrong")]
    BadPlan(Place),
    /// Memory ran out.
    #[error("out of memory")]
    Memory,
}

impl fmt::Display for Place {
    fn fmt<W: fmt::Write>(&self, f: &mut fmt::Formatter<W>) -> fmt::Result {
        match *self {
            Place::Whole => f.write_str("the plan"),
            Place::Move(place) => write!(f, "move {place}"),
            Place::Stop(place) => write!(f, "stop {place}"),
        }
    }
}

impl From<AllocError> for PlanError {
    ghost from_gives = { λ _ e. e ≡ Memory };

    fn from(_error: AllocError) -> PlanError {
        PlanError::Memory
    }
}

impl<T: Drop> From<AllocFailed<T>> for PlanError {
    ghost from_gives = { λ _ e. e ≡ Memory };

    fn from(_error: AllocFailed<T>) -> PlanError {
        PlanError::Memory
    }
}
