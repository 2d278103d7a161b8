//! Numbers from the front of bytes.

ghost use Rattle.std.specs.Prelude.{◌≡◌};
ghost use Rattle.std.specs.Int.{w16, w32, w64};
ghost use Rattle.dura_codec.specs.Fields.{Takes, StaysWithin, byte_at, number_at, count_at, request_number_at};
ghost use Rattle.dura_codec.specs.declared.fields.FieldError.TheVariants.{Memory};

use dura_value::NUMBER_LIMIT;
use std::alloc::{AllocError, AllocFailed};

/// Why a reader stopped.
#[derive(Drop)]
pub enum FieldError {
    /// So many bytes are left from the first field on that can't be read or passes a limit.
    Bad { left: usize },
    /// Memory ran out.
    Memory,
}

impl From<AllocError> for FieldError {
    ghost from_gives = { λ _ e. e ≡ Memory };

    fn from(_e: AllocError) -> FieldError {
        FieldError::Memory
    }
}

impl<T: Drop> From<AllocFailed<T>> for FieldError {
    ghost from_gives = { λ _ e. e ≡ Memory };

    fn from(_e: AllocFailed<T>) -> FieldError {
        FieldError::Memory
    }
}

pub fn take_u8(bytes: &[u8]) -> Result<(u8, &[u8]), FieldError>
    ensures takes { Takes (λ x. x) result (byte_at bytes.now) }
    ensures within { StaysWithin bytes.now result }
{
    match bytes.split_first() {
        Some((byte, rest)) => Ok((*byte, rest)),
        None => Err(FieldError::Bad { left: 0 }),
    }
}

pub fn take_u16(bytes: &[u8]) -> Result<(u16, &[u8]), FieldError>
    ensures takes { Takes (λ x. x) result (number_at w16 bytes.now) }
    ensures within { StaysWithin bytes.now result }
{
    if bytes.len() < 2 {
        return Err(FieldError::Bad { left: bytes.len() });
    }
    let (front, rest) = bytes.split_at(2);
    let number = u16::from_be_bytes([front[0], front[1]]);
    Ok((number, rest))
}

pub fn take_u32(bytes: &[u8]) -> Result<(u32, &[u8]), FieldError>
    ensures { Takes (λ x. x) result (number_at w32 bytes.now) }
{
    if bytes.len() < 4 {
        return Err(FieldError::Bad { left: bytes.len() });
    }
    let (front, rest) = bytes.split_at(4);
    let number = u32::from_be_bytes([front[0], front[1], front[2], front[3]]);
    Ok((number, rest))
}

pub fn take_u64(bytes: &[u8]) -> Result<(u64, &[u8]), FieldError>
    ensures takes { Takes (λ x. x) result (number_at w64 bytes.now) }
    ensures within { StaysWithin bytes.now result }
{
    if bytes.len() < 8 {
        return Err(FieldError::Bad { left: bytes.len() });
    }
    let (front, rest) = bytes.split_at(8);
    let number = u64::from_be_bytes([
        front[0], front[1], front[2], front[3], front[4], front[5], front[6], front[7],
    ]);
    Ok((number, rest))
}

/// A number of 64 bits whose highest bit is clear.
#[tactic(auto, unfolding(crate::specs::Fields::count_at))]
pub fn take_count(bytes: &[u8]) -> Result<(u64, &[u8]), FieldError>
    ensures { Takes (λ x. x) result (count_at bytes.now) }
{
    let (number, rest) = take_u64(bytes)?;
    if number >= NUMBER_LIMIT {
        return Err(FieldError::Bad { left: bytes.len() });
    }
    Ok((number, rest))
}

/// A request's number, which isn't 0.
#[tactic(auto, unfolding(crate::specs::Fields::request_number_at))]
pub fn take_request_number(bytes: &[u8]) -> Result<(u32, &[u8]), FieldError>
    ensures { Takes (λ x. x) result (request_number_at bytes.now) }
{
    let (number, rest) = take_u32(bytes)?;
    if number == 0 {
        return Err(FieldError::Bad { left: bytes.len() });
    }
    Ok((number, rest))
}
