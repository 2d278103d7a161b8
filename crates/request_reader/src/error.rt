//! Why nothing was read.

ghost use Rattle.std.specs.Prelude.{◌≡◌};
ghost use Rattle.request_reader.specs.declared.error.ReadError.TheVariants as parts;
ghost use Rattle.request_reader.specs.declared.error.RequestsError.TheVariants.{Memory};

use dura_value::Name;
use std::alloc::{AllocError, AllocFailed};
use thiserror::Error;

/// Why a part of a line gave nothing.
#[derive(Drop)]
pub(crate) enum ReadError {
    /// It is not of the form that is read.
    Refused,
    /// Memory ran out.
    Memory,
}

/// Why a file gave no requests.
#[derive(Debug, Drop, Error)]
pub enum RequestsError {
    /// The line is no request, or its number isn't above the client's earlier ones. It is the first such line.
    #[error("line {line} is wrong")]
    BadLine {
        /// Its number, from 1.
        line: u64,
    },
    /// Two different requests of a client have one number, and no line before the second is wrong.
    #[error("two requests have number {number}")]
    Clash {
        /// The client.
        client: Name,
        /// The number.
        number: u32,
    },
    /// Memory ran out.
    #[error("out of memory")]
    Memory,
}

impl From<AllocError> for ReadError {
    ghost from_gives = { λ _ e. e ≡ parts.Memory };

    fn from(_error: AllocError) -> ReadError {
        ReadError::Memory
    }
}

impl<T: Drop> From<AllocFailed<T>> for ReadError {
    ghost from_gives = { λ _ e. e ≡ parts.Memory };

    fn from(_error: AllocFailed<T>) -> ReadError {
        ReadError::Memory
    }
}

impl From<AllocError> for RequestsError {
    ghost from_gives = { λ _ e. e ≡ Memory };

    fn from(_error: AllocError) -> RequestsError {
        RequestsError::Memory
    }
}
