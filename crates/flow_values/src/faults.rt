//! Why a file of flows is refused, and where.

ghost use Rattle.std.specs.Prelude.{◌≡◌, [], ◌∷◌, ◌++◌, map, reverse, IfOk, OnOk};
ghost use Rattle.flow_values.specs.Answers.{IsUnder};
ghost use Rattle.flow_values.specs.Faults.{path_text, step_text};
ghost use Rattle.flow_values.specs.Paths.{step_of};
ghost use Rattle.flow_values.specs.declared.faults.PartError.TheVariants as parts;

use dura_value::Name;
use std::alloc::{AllocError, AllocFailed, Global};
use std::marker::Model;
use thiserror::Error;

/// A step into JSON.
#[derive(Debug, Drop)]
pub enum Step {
    /// To the member under one of the words of the file.
    Word(&'static str),
    /// To the member under a name.
    Name(Name),
    /// To a part of an array.
    Part(usize),
}

/// A value of a file, by the steps to it from the whole file, the last of them first. A contract sees them in their order.
#[derive(Debug, Drop)]
pub struct Path {
    steps: Vec<Step>,
}

impl Model for Path {
    ghost use Rattle.std.specs.Prelude.{map, reverse};
    ghost use Rattle.flow_values.specs.Faults.{Path as Steps};
    ghost use Rattle.flow_values.specs.Paths.{step_of};

    ghost Value = { Steps };

    ghost view = { λ p. reverse (map step_of p.steps.items) };
}

/// Why a part of a file gave nothing.
#[derive(Debug, Drop, Error)]
pub enum PartError {
    /// A value isn't of the shape wanted, or a name stands for nothing.
    #[error("not of the shape wanted")]
    Misshapen(Path),
    /// Memory ran out.
    #[error("out of memory")]
    Memory,
}

impl From<AllocError> for PartError {
    ghost from_gives = { λ _ e. e ≡ parts.Memory };

    fn from(_error: AllocError) -> PartError {
        PartError::Memory
    }
}

impl<T: Drop> From<AllocFailed<T>> for PartError {
    ghost from_gives = { λ _ e. e ≡ parts.Memory };

    fn from(_error: AllocFailed<T>) -> PartError {
        PartError::Memory
    }
}

impl Step {
    /// Appends `/` and the key or the place.
    fn write(&self, alloc: Global, out: &mut Vec<u8>) -> Result<(), AllocError>
        ensures { OnOk result (out.new.items ≡ out.old.items ++ step_text (step_of self.now)) }
    {
        out.push(b'/')?;
        match self {
            Step::Word(word) => out.extend_from_slice(word.as_bytes()),
            Step::Name(name) => out.extend_from_slice(name.as_bytes()),
            Step::Part(index) => {
                let digits = index.to_string(alloc)?;
                out.extend_from_slice(digits.as_bytes())
            }
        }
    }
}

impl Path {
    /// The whole file, or the value that is looked at.
    pub(crate) fn here(alloc: Global) -> Path
        ensures { result ≡ [] }
    {
        Path {
            steps: Vec::new(alloc),
        }
    }

    /// The same value, from one step further out.
    #[tactic(auto, using(crate::proofs::Trails::outer))]
    pub(crate) fn within(mut self, step: Step) -> Result<Path, AllocError>
        ensures { IfOk result (λ p. p ≡ step_of step ∷ self) }
    {
        self.steps.push(step)?;
        Ok(self)
    }

    /// `#` and the JSON Pointer.
    pub fn text(&self, alloc: Global) -> Result<Vec<u8>, AllocError>
        ensures { IfOk result (λ text. text.items ≡ path_text self.now) }
    {
        steps_text(alloc, &self.steps)
    }
}

/// `#` and the JSON Pointer of steps, the last of them first.
#[tactic(auto, using(crate::proofs::Trails::none_left, crate::proofs::Trails::one_more, crate::proofs::Trails::all))]
fn steps_text(alloc: Global, steps: &[Step]) -> Result<Vec<u8>, AllocError>
    ensures { IfOk result (λ text. text.items ≡ path_text (reverse (map step_of steps.now))) }
{
    let mut text = Vec::new(alloc);
    text.push(b'#')?;
    let mut left = steps.len();
    while left > 0 {
        left -= 1;
        steps[left].write(alloc, &mut text)?;
    }
    Ok(text)
}

/// The fault of a part, seen from the value that it is in.
pub fn under(error: PartError, step: Step) -> PartError
    ensures { IsUnder (step_of step) error result }
{
    match error {
        PartError::Misshapen(path) => match path.within(step) {
            Ok(path) => PartError::Misshapen(path),
            Err(_) => PartError::Memory,
        },
        PartError::Memory => PartError::Memory,
    }
}
