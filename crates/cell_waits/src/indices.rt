//! What is known of what waits without a look through the queue.

ghost use Rattle.std.specs.Prelude.{◌≡◌, ℕ, ◌+◌, List, [], ◌∷◌, ◌++◌, length, IfOk, OnOk};
ghost use Rattle.cell_waits.specs.Indices.{Agrees};
ghost use Rattle.cell_waits.specs.Waits.{Waiting, wait_of};

use crate::counts::Counts;
use crate::places::Places;
use crate::wait::{Wait, asker_of, source_of, target_of, task_of};
use std::alloc::{AllocError, Global};

/// How many packets and trims wait, and at which places requests and outcomes do.
///
/// After an Err, which is want of memory, they are only dropped.
#[derive(Drop)]
pub(crate) struct Indices {
    /// How many packets wait of the stream from each partition.
    pub(crate) packets: Counts,
    /// How many trims wait of the stream to each partition.
    pub(crate) trims: Counts,
    /// Where requests wait, by client and number.
    pub(crate) requests: Places,
    /// Where outcomes wait, by id and task.
    pub(crate) outcomes: Places,
}

impl Indices {
    /// Nothing waits.
    pub(crate) fn new(alloc: Global) -> Indices
        ensures { (first : ℕ) → Agrees result first [] }
    {
        Indices {
            packets: Counts::new(alloc),
            trims: Counts::new(alloc),
            requests: Places::new(alloc),
            outcomes: Places::new(alloc),
        }
    }

    /// This waits at a place, behind all others.
    pub(crate) fn add(&mut self, alloc: Global, wait: &Wait, place: u64) -> Result<(), AllocError>
        ensures { OnOk result ((first : ℕ) (waiting : List Waiting)
            → Agrees self.old first waiting → place ≡ first + length waiting
            → Agrees self.new first (waiting ++ wait_of wait.now ∷ [])) }
    {
        self.packets.add(source_of(wait))?;
        self.trims.add(target_of(wait))?;
        self.requests.push(alloc, asker_of(wait), place)?;
        self.outcomes.push(alloc, task_of(wait), place)?;
        Ok(())
    }

    /// This waits behind all others, of which the first is at a place and there are so many.
    pub(crate) fn add_behind(
        &mut self,
        alloc: Global,
        wait: &Wait,
        first: u64,
        count: usize,
    ) -> Result<(), AllocError>
        ensures { OnOk result ((waiting : List Waiting) → Agrees self.old first waiting
            → count ≡ length waiting → Agrees self.new first (waiting ++ wait_of wait.now ∷ [])) }
    {
        // So many don't fit into memory.
        match first.checked_add(count as u64) {
            Some(place) => self.add(alloc, wait, place),
            None => Err(AllocError),
        }
    }

    /// This, the first, doesn't wait any more.
    pub(crate) fn take(&mut self, alloc: Global, wait: &Wait) -> Result<(), AllocError>
        ensures { OnOk result ((first : ℕ) (waiting : List Waiting)
            → Agrees self.old first (wait_of wait.now ∷ waiting)
            → Agrees self.new (first + 1) waiting) }
    {
        self.packets.take(source_of(wait))?;
        self.trims.take(target_of(wait))?;
        self.requests.pop(alloc, asker_of(wait))?;
        self.outcomes.pop(alloc, task_of(wait))?;
        Ok(())
    }

    /// This, the first, which is at a place, doesn't wait any more. The place of the next is answered.
    pub(crate) fn take_first(
        &mut self,
        alloc: Global,
        wait: &Wait,
        first: u64,
    ) -> Result<u64, AllocError>
        ensures { IfOk result (λ next. (waiting : List Waiting)
            → Agrees self.old first (wait_of wait.now ∷ waiting)
            → Agrees self.new next waiting) }
    {
        // So many never come.
        match first.checked_add(1) {
            Some(next) => {
                self.take(alloc, wait)?;
                Ok(next)
            }
            None => Err(AllocError),
        }
    }
}
