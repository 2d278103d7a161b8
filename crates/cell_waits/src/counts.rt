//! How many there are of each number.

ghost use Rattle.std.specs.Prelude.{◌≡◌, ◌+◌, ◌-◌, ℕ, OnOk, if◌then◌else◌};
ghost use Rattle.cell_waits.specs.Keys.{counts_in, no_count, is_number};

use std::alloc::{AllocError, Global};
use std::collections::BTreeMap;

/// How many there are of each number, which a contract sees as a function.
///
/// After an Err, which is want of memory, they are only dropped.
#[derive(Drop)]
pub(crate) struct Counts {
    counts: BTreeMap<u32, u64>,
}

impl Counts {
    /// None of any number.
    pub(crate) fn new(alloc: Global) -> Counts
        ensures { counts_in result ≡ no_count }
    {
        Counts {
            counts: BTreeMap::new(alloc),
        }
    }

    /// How many there are of this number.
    pub(crate) fn get(&self, number: u32) -> u64
        ensures { result ≡ counts_in self.now number }
    {
        match self.counts.get(&number) {
            Some(count) => *count,
            None => 0,
        }
    }

    /// There is one more of this number, if it is one.
    #[tactic(auto, using(crate::proofs::Counting::one_more, crate::proofs::Counting::none_more))]
    pub(crate) fn add(&mut self, number: Option<u32>) -> Result<(), AllocError>
        ensures { OnOk result ((q : ℕ) → counts_in self.new q
            ≡ counts_in self.old q + (if is_number number q then 1 else 0)) }
    {
        let Some(number) = number else {
            return Ok(());
        };
        // So many don't fit into memory.
        let Some(count) = self.get(number).checked_add(1) else {
            return Err(AllocError);
        };
        self.counts.insert(number, count)?;
        Ok(())
    }

    /// There is one less of this number, if it is one.
    #[tactic(auto, using(crate::proofs::Counting::one_less, crate::proofs::Counting::none_less))]
    pub(crate) fn take(&mut self, number: Option<u32>) -> Result<(), AllocError>
        ensures { OnOk result ((q : ℕ) → counts_in self.new q
            ≡ counts_in self.old q - (if is_number number q then 1 else 0)) }
    {
        let Some(number) = number else {
            return Ok(());
        };
        let count = self.get(number);
        if count <= 1 {
            drop(self.counts.remove(&number));
        } else {
            self.counts.insert(number, count - 1)?;
        }
        Ok(())
    }
}
