//! Activities: plain steps with outside effects, and those that are shipped.

ghost use Rattle.std.specs.Prelude.{◌≡◌, ℕ, List, true, IfOk};
ghost use Rattle.std.specs.Option.{option_map};
ghost use Rattle.activity_table.specs.Table.{may, joined, concatenated, failing, shipped};

use crate::adding::{added, failed};
use dura_value::{Outcome, Scalar, Text, TextError, Value};
use std::alloc::{AllocError, Global};

/// The activities that an engine can run.
pub trait Activities {
    ghost use Rattle.dura_value.specs.declared.data.Value.{Value};
    ghost use Rattle.dura_value.specs.declared.outcome.Outcome.{Outcome};

    /// What an activity of this name gives with this argument and this word.
    ghost gives: { List ℕ → Value → ℕ → Outcome };

    /// Runs an activity. `word` is different for each run, for those that want chance. An activity may be run more
    /// than once; its completion is recorded once. Err is want of memory, and then nothing is recorded.
    fn run(
        &self,
        alloc: Global,
        name: &str,
        argument: &Value,
        word: u64,
    ) -> Result<Outcome, AllocError>
        ensures given { IfOk result (λ outcome. outcome ≡ gives name.now argument.now word) }
        ensures may { IfOk result (λ outcome. may name.now argument.now outcome ≡ true) };
}

/// The activities that are shipped.
///
/// `echo` gives its argument, `add` the sum of a list of two integers, `concat` the texts of a list one after another, and
/// `draw` the word that it is run with, its highest bit cleared; `fail` fails with its text. What doesn't fit fails with
/// `overflow` or `size`, another argument with `type`, another name with `unknown`.
#[derive(Clone, Copy)]
pub struct Table;

impl Activities for Table {
    ghost gives = { shipped };

    #[tactic(auto, using(crate::proofs::Outcomes::shipped_may))]
    fn run(
        &self,
        alloc: Global,
        name: &str,
        argument: &Value,
        word: u64,
    ) -> Result<Outcome, AllocError> {
        outcome_of(alloc, name, argument, word)
    }
}

/// What a shipped activity of this name gives with this argument and this word.
pub fn outcome_of(
    alloc: Global,
    name: &str,
    argument: &Value,
    word: u64,
) -> Result<Outcome, AllocError>
    ensures { IfOk result (λ outcome. outcome ≡ shipped name.now argument.now word) }
{
    match name {
        "draw" => Ok(Outcome::Done(Value::Int((word % (1 << 63)) as i64))),
        "echo" => Ok(Outcome::Done(argument.clone()?)),
        "add" => added(alloc, argument),
        "concat" => concatenated(alloc, argument),
        "fail" => failing(alloc, argument),
        _ => failed(alloc, "unknown"),
    }
}

fn failing(alloc: Global, argument: &Value) -> Result<Outcome, AllocError>
    ensures { IfOk result (λ outcome. outcome ≡ failing argument.now) }
{
    match argument {
        Value::Text(text) => Ok(Outcome::Failed(text.clone()?)),
        _ => failed(alloc, "type"),
    }
}

fn concatenated(alloc: Global, argument: &Value) -> Result<Outcome, AllocError>
    ensures { IfOk result (λ outcome. outcome ≡ concatenated argument.now) }
{
    let Value::List(parts) = argument else {
        return failed(alloc, "type");
    };
    let Some(bytes) = joined(alloc, parts.as_slice())? else {
        return failed(alloc, "type");
    };
    match Text::read(alloc, bytes.as_slice()) {
        Ok(text) => Ok(Outcome::Done(Value::Text(text))),
        Err(TextError::TooLong { .. }) => failed(alloc, "size"),
        // texts one after another are UTF-8
        Err(_) => Err(AllocError),
    }
}

/// The texts one after another, where all are texts.
#[tactic(auto, using(crate::proofs::Joins::before_twice, crate::proofs::Joins::before_nothing, crate::proofs::Joins::nothing_before))]
fn joined(alloc: Global, parts: &[Scalar]) -> Result<Option<Vec<u8>>, AllocError>
    ensures { IfOk result (λ bytes. option_map (λ v. v.items) bytes ≡ joined parts.now) }
{
    let mut bytes = Vec::new(alloc);
    for part in parts {
        match part {
            Scalar::Text(text) => bytes.extend_from_slice(text.as_bytes())?,
            _ => return Ok(None),
        }
    }
    Ok(Some(bytes))
}
