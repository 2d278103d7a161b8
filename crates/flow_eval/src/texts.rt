//! Operations that make texts.

ghost use Rattle.std.specs.Prelude.{◌≡◌, ◌++◌, Ok};
ghost use Rattle.dura_value.specs.declared.data.Value.TheVariants as values;
ghost use Rattle.dura_value.specs.Text.{IsText};
ghost use Rattle.flow_syntax.specs.Eval.{text, int_text};
ghost use Rattle.flow_eval.specs.Gives.{EvalGives};

use crate::fault::{EvalError, Fault};
use dura_value::{TEXT_BYTES_LIMIT, Text, TextError, Value};
use std::alloc::Global;

/// A text of these bytes.
#[tactic(auto, using(crate::proofs::TextBytes::whole))]
fn text_of(alloc: Global, bytes: &[u8]) -> Result<Value, EvalError>
    requires { IsText bytes.now }
    ensures { EvalGives (λ value. value) result (Ok (values.Text bytes.now)) }
{
    match Text::read(alloc, bytes) {
        Ok(text) => Ok(Value::Text(text)),
        Err(TextError::Memory) => Err(EvalError::Memory),
        Err(TextError::TooLong { .. }) => unreachable!(),
        Err(TextError::NotUtf8 { .. }) => unreachable!(),
    }
}

/// Two texts joined.
#[tactic(auto, using(crate::proofs::TextBytes::both))]
pub(crate) fn joined(alloc: Global, first: &Text, second: &Text) -> Result<Value, EvalError>
    ensures { EvalGives (λ value. value) result (text (first.now ++ second.now)) }
{
    let (first, second) = (first.as_bytes(), second.as_bytes());
    let length = first.len() + second.len();
    if length > TEXT_BYTES_LIMIT {
        return Err(EvalError::Thrown(Fault::Size));
    }
    let mut bytes = Vec::with_capacity(alloc, length)?;
    bytes.extend_from_slice(first)?;
    bytes.extend_from_slice(second)?;
    text_of(alloc, &bytes)
}

/// An integer as a text.
#[tactic(auto, using(crate::proofs::TextBytes::is_ascii, crate::proofs::TextBytes::is_short, crate::proofs::TextBytes::same_text))]
pub(crate) fn decimal(alloc: Global, n: i64) -> Result<Value, EvalError>
    ensures { EvalGives (λ value. value) result (Ok (values.Text (int_text n))) }
{
    let digits = format!(in alloc; "{n}")?;
    text_of(alloc, digits.as_bytes())
}
