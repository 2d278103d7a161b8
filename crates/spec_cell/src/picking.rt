//! A frame of the first entries.

ghost use Rattle.std.specs.Prelude.{◌≡◌, ◌<◌, ◌≤◌, true, false, take, length, MatchOption, option_map, slice_index_or, IfOk, OnErr};
ghost use Rattle.std.specs.List.{All};
ghost use Rattle.dura_value.specs.Dependencies.{named_by, Ready};
ghost use Rattle.dura_value.specs.Items.{Entry as PlainEntry};
ghost use Rattle.log_items.specs.Plain.{entries_of};
ghost use Rattle.spec_cell.specs.Picks.{Picks};
ghost use Rattle.cell_steps.specs.Steps.{entries_in};
ghost use Rattle.spec_tracker.specs.Marks.{identity_of, floors_of, length_in};

use crate::cell::Cell;
use crate::mine::Mine;
use crate::moving::state_at;
use cell_steps::{Step, last_made, sending_between};
use commit_gate::Sending;
use entry_verdicts::{are_ready, copy_entry};
use log_items::{Entry, Frame};
use spec_tracker::{Dep, Marks, Verdict};
use std::alloc::{AllocError, Global};

/// How many entries a frame has at most.
const FRAME_LIMIT: usize = 64;

/// Whether the entry is ready, if there is one.
fn is_ready(marks: &Marks, before: Option<Dep>) -> bool
    ensures ready { result ≡ true → MatchOption (option_map identity_of before) (Unit {0})
        (Ready (length_in marks.now) (floors_of marks.now)) }
    ensures not { result ≡ false → MatchOption (option_map identity_of before) (Unit {0})
        (Ready (length_in marks.now) (floors_of marks.now)) → ⊥ }
{
    let Some(before) = before else {
        return true;
    };
    match marks.verdict(&before) {
        Verdict::Ready => true,
        Verdict::Undecided | Verdict::Lost => false,
    }
}

/// How many of the first steps, up to so many, name only what is ready.
fn count_ready(marks: &Marks, steps: &[Step], most: usize) -> usize
    ensures few { result ≤ length steps.now }
    ensures most { result ≤ most }
    ensures ready { All (λ e. All (Ready (length_in marks.now) (floors_of marks.now))
        (named_by e.items)) (take result (entries_in steps.now)) }
    ensures stop { result < length steps.now → result < most → (d : PlainEntry)
        → All (Ready (length_in marks.now) (floors_of marks.now))
        (named_by (slice_index_or (entries_in steps.now) result d).items) → ⊥ }
{
    for (count, step) in steps.iter().enumerate() {
        if count >= most {
            return count;
        }
        if !are_ready(marks, step.entry.items.as_slice()) {
            return count;
        }
    }
    steps.len()
}

/// Copies of the entries of the first so many steps.
fn copy_front(alloc: Global, steps: &[Step], count: usize) -> Result<Vec<Entry>, AllocError>
    requires { count ≤ length steps.now }
    ensures { IfOk result (λ copies. entries_of copies.items ≡ take count (entries_in steps.now)) }
{
    let mut copies = Vec::with_capacity(alloc, count)?;
    for place in 0..count {
        copies.push(copy_entry(alloc, &steps[place].entry)?)?;
    }
    Ok(copies)
}

impl<S: Mine> Cell<S> {
    /// The first entries that depend only on what is ready or among them, as many as there are up to 64, unless a frame is out. They are
    /// out from now on, and come with what they send to other partitions.
    pub fn pick(
        &mut self,
        alloc: Global,
        marks: &Marks,
    ) -> Result<Option<(Frame, Vec<Sending>)>, AllocError>
        ensures picks { IfOk result (λ picked. Picks S.flows S.count (S.begin self.old.number) marks.now
            self.old picked self.new) }
        ensures same { OnErr result (self.new ≡ self.old) }
    {
        let Some(live) = &self.live else {
            return Err(AllocError);
        };
        if self.out > 0 {
            return Ok(None);
        }
        if !is_ready(marks, last_made(&live.base)) {
            return Ok(None);
        }
        let count = count_ready(marks, &live.steps, FRAME_LIMIT);
        if count == 0 {
            return Ok(None);
        }
        let entries = copy_front(alloc, &live.steps, count)?;
        let sending = sending_between(alloc, &live.base, state_at(live, count))?;
        self.out = count;
        Ok(Some((Frame::of(entries), sending)))
    }
}
