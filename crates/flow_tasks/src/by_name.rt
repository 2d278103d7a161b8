//! Numbers by names.

ghost use Rattle.std.specs.Prelude.{◌≡◌, ◌==◌, ◌++◌, ◌∷◌, [], drop, position, IfOk, OnOk, OnErr};
ghost use Rattle.std.specs.List.{slice_get};
ghost use Rattle.flow_tasks.specs.Numbers.{numbers_in, no_number, at_name, without};

use dura_value::Name;
use std::alloc::{AllocError, Global};
use std::collections::{BTreeMap, VecDeque};

/// A queue of numbers for each name, which a contract sees as a function.
#[derive(Drop)]
pub(crate) struct NumbersByName {
    alloc: Global,
    queues: BTreeMap<Name, VecDeque<usize>>,
}

impl NumbersByName {
    /// No numbers under any name.
    pub(crate) fn new(alloc: Global) -> NumbersByName
        ensures { numbers_in result ≡ no_number }
    {
        NumbersByName {
            alloc,
            queues: BTreeMap::new(alloc),
        }
    }

    /// The first number of a name.
    pub(crate) fn first(&self, name: &Name) -> Option<usize>
        ensures { result ≡ slice_get (numbers_in self.now name.now) 0 }
    {
        match self.queues.get(name) {
            Some(queue) => queue.front().copied(),
            None => None,
        }
    }

    /// A number comes behind those of its name.
    pub(crate) fn push(&mut self, name: Name, number: usize) -> Result<(), AllocError>
        ensures ok { OnOk result (numbers_in self.new
            ≡ at_name (numbers_in self.old) name (numbers_in self.old name ++ number ∷ [])) }
        ensures err { OnErr result (numbers_in self.new ≡ numbers_in self.old) }
    {
        match self.queues.get_mut(&name) {
            Some(queue) => queue.push_back(number)?,
            None => {
                let mut queue = VecDeque::new(self.alloc);
                queue.push_back(number)?;
                self.queues.insert(name, queue)?;
            }
        }
        Ok(())
    }

    /// Takes out the first number of a name.
    pub(crate) fn take_first(&mut self, name: &Name) -> Option<usize>
        ensures first { result ≡ slice_get (numbers_in self.old name.now) 0 }
        ensures rest { numbers_in self.new ≡ at_name (numbers_in self.old) name.now
            (drop 1 (numbers_in self.old name.now)) }
    {
        match self.queues.get_mut(name) {
            Some(queue) => queue.pop_front(),
            None => None,
        }
    }

    /// Takes out a number of a name, at once where it is the first.
    pub(crate) fn leave_out(&mut self, name: &Name, number: usize)
        ensures { numbers_in self.new ≡ at_name (numbers_in self.old) name.now
            (without number (numbers_in self.old name.now)) }
    {
        if let Some(queue) = self.queues.get_mut(name) {
            leave_out(queue, number);
        }
    }
}

fn place_of(numbers: &VecDeque<usize>, number: usize) -> Option<usize>
    ensures { result ≡ position (λ other. number == other) numbers.now.items }
{
    numbers.iter().position(|other| number == *other)
}

/// Takes out the first such number.
#[tactic(auto, using(crate::proofs::Positions::taken_out))]
fn leave_out(numbers: &mut VecDeque<usize>, number: usize)
    ensures { numbers.new.items ≡ without number numbers.old.items }
{
    if let Some(place) = place_of(numbers, number) {
        numbers.remove(place);
    }
}

/// The same name once more.
pub(crate) fn copy_name(name: &Name) -> Result<Name, AllocError>
    ensures { IfOk result (λ copy. copy ≡ name.now) }
{
    name.clone()
}
