//! Which values are within the limits of the format.

ghost use Rattle.std.specs.Prelude.{◌≡◌, length};
ghost use Rattle.std.specs.Bool.{Decides};
ghost use Rattle.dura_codec.specs.Spelling.{spell_scalar};
ghost use Rattle.part_items.specs.Fits.{FitsScalar, FitsList, FitsValue};

use dura_value::{SCALARS_BYTES_LIMIT, SCALARS_LIMIT, Scalar, Value};

/// How many bytes a scalar takes where it is written. No scalar by itself passes a limit.
fn spelled_size(scalar: &Scalar) -> usize
    ensures size { result ≡ length (spell_scalar scalar.now) }
    ensures fits { FitsScalar scalar.now }
{
    match scalar {
        Scalar::Null => 1,
        Scalar::False => 1,
        Scalar::True => 1,
        Scalar::Int(number) => {
            let _number = *number;
            9
        }
        Scalar::Text(text) => 3 + text.as_bytes().len(),
    }
}

fn list_fits(parts: &[Scalar]) -> bool
    ensures { Decides result (FitsList parts.now) }
{
    if parts.len() > SCALARS_LIMIT {
        return false;
    }
    // counted down, so that no sum wraps
    let mut left = SCALARS_BYTES_LIMIT;
    for part in parts {
        let size = spelled_size(part);
        if size > left {
            return false;
        }
        left -= size;
    }
    true
}

pub(crate) fn value_fits(value: &Value) -> bool
    ensures { Decides result (FitsValue value.now) }
{
    match value {
        Value::Null => true,
        Value::False => true,
        Value::True => true,
        Value::Int(number) => {
            let _number = *number;
            true
        }
        Value::Text(text) => {
            let _ = text.as_bytes();
            true
        }
        Value::List(parts) => list_fits(parts.as_slice()),
    }
}
