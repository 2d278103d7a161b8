//! How many bytes the scalars of a list take where it is written.

ghost use Rattle.std.specs.Prelude.{◌≡◌, ◌≤◌, nat_le};
ghost use Rattle.dura_value.specs.Limits.{most_scalars_bytes};
ghost use Rattle.dura_value.specs.Values.{scalar_size, scalars_size};

use crate::data::Scalar;
use crate::limits::SCALARS_BYTES_LIMIT;

fn scalar_size(scalar: &Scalar) -> usize
    ensures size { result ≡ scalar_size scalar.now }
    ensures small { result ≤ 4099 }
{
    match scalar {
        Scalar::Null => 1,
        Scalar::False => 1,
        Scalar::True => 1,
        Scalar::Int(_) => 9,
        Scalar::Text(text) => 3 + text.as_bytes().len(),
    }
}

/// Whether scalars are few enough bytes for a list.
#[tactic(auto, using(crate::proofs::Counted::counted, crate::proofs::Counted::too_many))]
pub fn are_short(scalars: &[Scalar]) -> bool
    ensures { result ≡ nat_le (scalars_size scalars.now) most_scalars_bytes }
{
    let mut left = SCALARS_BYTES_LIMIT;
    for scalar in scalars {
        let size = scalar_size(scalar);
        if size > left {
            return false;
        }
        left -= size;
    }
    true
}
