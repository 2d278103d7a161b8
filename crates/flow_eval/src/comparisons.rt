//! How values are compared.

ghost use Rattle.std.specs.Prelude.{◌≡◌};
ghost use Rattle.dura_value.specs.Values.{value_eq};
ghost use Rattle.dura_value.specs.Bytes.{bytes_before};
ghost use Rattle.flow_syntax.specs.Eval.{is_less};
ghost use Rattle.flow_eval.specs.Gives.{EvalGives};

use crate::fault::{EvalError, Fault};
use crate::kinds::truth;
use dura_value::Value;

#[tactic(auto, using(dura_value::proofs::Bytes::less_bytes))]
fn comes_before(first: &[u8], second: &[u8]) -> bool
    ensures { result ≡ bytes_before first.now second.now }
{
    first.cmp(second).is_lt()
}

/// Two integers, or two texts by bytes.
pub(crate) fn is_less(first: &Value, second: &Value) -> Result<Value, EvalError>
    ensures { EvalGives (λ value. value) result (is_less first.now second.now) }
{
    match first {
        Value::Int(a) => match second {
            Value::Int(b) => Ok(truth(a < b)),
            _ => Err(EvalError::Thrown(Fault::Type)),
        },
        Value::Text(a) => match second {
            Value::Text(b) => Ok(truth(comes_before(a.as_bytes(), b.as_bytes()))),
            _ => Err(EvalError::Thrown(Fault::Type)),
        },
        _ => Err(EvalError::Thrown(Fault::Type)),
    }
}

pub(crate) fn are_equal(first: &Value, second: &Value) -> bool
    ensures { result ≡ value_eq first.now second.now }
{
    first.eq(second)
}
