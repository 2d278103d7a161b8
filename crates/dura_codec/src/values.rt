//! Values from the front of bytes.

ghost use Rattle.std.specs.Prelude.{◌≡◌, ◌≤◌, length};
ghost use Rattle.dura_codec.specs.Fields.{Takes, StaysWithin, several_at};
ghost use Rattle.dura_value.specs.Values.{value_of};
ghost use Rattle.dura_codec.specs.Grammar.{scalar_at, scalars_at, value_at, value_front};

use crate::fields::{FieldError, take_u8, take_u16, take_u64};
use crate::tags::{FALSE, INT, LIST, NULL, TEXT, TRUE};
use crate::words::take_text;
use dura_value::{SCALARS_BYTES_LIMIT, SCALARS_LIMIT, Scalar, Scalars, Value};
use std::alloc::Global;

/// Reads a scalar from the front of these bytes.
#[tactic(auto, unfolding(crate::specs::Grammar::scalar_at))]
pub fn take_scalar(alloc: Global, bytes: &[u8]) -> Result<(Scalar, &[u8]), FieldError>
    ensures takes { Takes (λ x. x) result (scalar_at bytes.now) }
    ensures within { StaysWithin bytes.now result }
{
    let (tag, rest) = take_u8(bytes)?;
    match tag {
        NULL => Ok((Scalar::Null, rest)),
        FALSE => Ok((Scalar::False, rest)),
        TRUE => Ok((Scalar::True, rest)),
        INT => match take_u64(rest) {
            Ok((number, rest)) => Ok((Scalar::Int(number.cast_signed()), rest)),
            Err(error) => Err(error),
        },
        TEXT => match take_text(alloc, rest) {
            Ok((text, rest)) => Ok((Scalar::Text(text), rest)),
            Err(error) => Err(error),
        },
        _ => Err(FieldError::Bad { left: bytes.len() }),
    }
}

/// So many scalars, one behind the other.
fn take_several(alloc: Global, count: u16, bytes: &[u8]) -> Result<(Vec<Scalar>, &[u8]), FieldError>
    ensures takes { Takes (λ v. v.items) result (several_at scalar_at count bytes.now) }
    ensures within { StaysWithin bytes.now result }
{
    let mut scalars = Vec::new(alloc);
    let mut rest = bytes;
    for _ in 0..count {
        let (scalar, after) = take_scalar(alloc, rest)?;
        scalars.push(scalar)?;
        rest = after;
    }
    Ok((scalars, rest))
}

/// The bytes that the scalars of a list may take.
fn front_of(bytes: &[u8]) -> &[u8]
    ensures front { result.now ≡ value_front bytes.now }
    ensures short { length result.now ≤ length bytes.now }
{
    if bytes.len() < SCALARS_BYTES_LIMIT {
        bytes
    } else {
        &bytes[..SCALARS_BYTES_LIMIT]
    }
}

/// The count and the scalars of a list, in no more bytes than a value has.
#[tactic(auto, unfolding(crate::specs::Grammar::scalars_at))]
fn take_scalars(alloc: Global, bytes: &[u8]) -> Result<(Scalars, &[u8]), FieldError>
    ensures { Takes (λ x. x) result (scalars_at bytes.now) }
{
    let (count, rest) = take_u16(bytes)?;
    if count as usize > SCALARS_LIMIT {
        return Err(FieldError::Bad { left: bytes.len() });
    }
    let front = front_of(rest);
    match take_several(alloc, count, front) {
        Ok((scalars, left)) => {
            let used = front.len().saturating_sub(left.len());
            Ok((Scalars::of(scalars), &rest[used..]))
        }
        Err(FieldError::Bad { left }) => Err(FieldError::Bad {
            left: left + (rest.len() - front.len()),
        }),
        Err(FieldError::Memory) => Err(FieldError::Memory),
    }
}

fn value_of(scalar: Scalar) -> Value
    ensures { result ≡ value_of scalar }
{
    match scalar {
        Scalar::Null => Value::Null,
        Scalar::False => Value::False,
        Scalar::True => Value::True,
        Scalar::Int(n) => Value::Int(n),
        Scalar::Text(text) => Value::Text(text),
    }
}

/// A value: a scalar or a list.
#[tactic(auto, unfolding(crate::specs::Grammar::value_at))]
pub fn take_value(alloc: Global, bytes: &[u8]) -> Result<(Value, &[u8]), FieldError>
    ensures { Takes (λ x. x) result (value_at bytes.now) }
{
    let (tag, rest) = take_u8(bytes)?;
    if tag == LIST {
        match take_scalars(alloc, rest) {
            Ok((scalars, behind)) => Ok((Value::List(scalars), behind)),
            Err(error) => Err(error),
        }
    } else {
        match take_scalar(alloc, bytes) {
            Ok((scalar, behind)) => Ok((value_of(scalar), behind)),
            Err(error) => Err(error),
        }
    }
}
