//! The queue of what waits at a cell, with what is looked for in it.

ghost use Rattle.std.specs.Prelude.{◌≡◌, ◌≤◌, ◌-◌, ◌==◌, [], ◌∷◌, ◌++◌, length, map, not, count_by, filter, if◌then◌else◌, option_map, MatchOption, IfOk, OnOk, slice_get};
ghost use Rattle.std.specs.List.{All, list_any};
ghost use Rattle.dura_value.specs.Views.{id_of, message_of};
ghost use Rattle.part_rows.specs.Views.{activity_of};
ghost use Rattle.spec_tracker.specs.Marks.{floors_of};
ghost use Rattle.cell_waits.specs.CutStreams.{goes, cut_behind};
ghost use Rattle.cell_waits.specs.Indices.{IsIndexed};
ghost use Rattle.cell_waits.specs.Waits.{MayWait, wait_of, waits_of, sender_of, is_of_stream, is_trim_of, is_outcome_of, request_in, message_of_one, lasting, lost_by, without_lost};

use crate::cutting::goes;
use crate::indices::Indices;
use crate::wait::{Wait, is_lasting, is_outcome, message_in};
use dura_value::{Id, Message};
use part_rows::Activity;
use spec_tracker::Marks;
use std::alloc::{AllocError, Global};
use std::collections::VecDeque;

/// What waits at a cell, in the order in which it came.
///
/// After an Err, which is want of memory, the queue is only dropped.
#[derive(Drop)]
pub struct Waits {
    queue: VecDeque<Wait>,
    /// The place of the first: it counts all that went before it.
    first: u64,
    indices: Indices,
}

/// This comes behind all others.
fn put_back(queue: &mut VecDeque<Wait>, wait: Wait) -> Result<(), AllocError>
    ensures { OnOk result (queue.new.items ≡ queue.old.items ++ wait ∷ []) }
{
    queue.push_back(wait)?;
    Ok(())
}

/// Lets go of it. Where another function drops it, the drop of each of its parts is proved there once more.
fn let_go(wait: Wait) {
    drop(wait);
}

impl Waits {
    /// Nothing waits.
    pub fn new(alloc: Global) -> Waits
        ensures none { waits_of result ≡ [] }
        ensures indexed { IsIndexed result }
    {
        Waits {
            queue: VecDeque::new(alloc),
            first: 0,
            indices: Indices::new(alloc),
        }
    }

    /// Whether nothing waits.
    pub fn is_empty(&self) -> bool
        ensures { result ≡ (length (waits_of self.now) == 0) }
    {
        self.queue.is_empty()
    }

    /// This waits behind all others.
    pub fn push(&mut self, alloc: Global, wait: Wait) -> Result<(), AllocError>
        requires { IsIndexed self.old }
        ensures pushed { OnOk result (waits_of self.new ≡ waits_of self.old ++ wait_of wait ∷ []) }
        ensures indexed { OnOk result (IsIndexed self.new) }
    {
        match self
            .indices
            .add_behind(alloc, &wait, self.first, self.queue.len())
        {
            Ok(()) => put_back(&mut self.queue, wait),
            Err(refused) => {
                let_go(wait);
                Err(refused)
            }
        }
    }

    /// This waits behind all others, or is let go of.
    fn push_where(&mut self, alloc: Global, wait: Wait, stays: bool) -> Result<(), AllocError>
        requires { IsIndexed self.old }
        ensures pushed { OnOk result (waits_of self.new
            ≡ waits_of self.old ++ (if stays then wait_of wait ∷ [] else [])) }
        ensures indexed { OnOk result (IsIndexed self.new) }
    {
        if stays {
            self.push(alloc, wait)
        } else {
            let_go(wait);
            Ok(())
        }
    }

    /// This waits behind all others, unless it is a packet that is lost or comes behind one of its stream.
    fn push_unlost(
        &mut self,
        alloc: Global,
        cut: &mut Vec<u32>,
        marks: &Marks,
        wait: Wait,
    ) -> Result<(), AllocError>
        requires { IsIndexed self.old }
        ensures pushed { OnOk result (waits_of self.new ≡ waits_of self.old
            ++ (if not (goes (lost_by (floors_of marks.now)) cut.old.items
            (sender_of (wait_of wait).item)) then wait_of wait ∷ [] else [])) }
        ensures cut { OnOk result (cut.new.items ≡ cut_behind (lost_by (floors_of marks.now))
            cut.old.items (sender_of (wait_of wait).item)) }
        ensures indexed { OnOk result (IsIndexed self.new) }
    {
        match goes(cut, marks, &wait) {
            Ok(gone) => self.push_where(alloc, wait, !gone),
            Err(refused) => {
                let_go(wait);
                Err(refused)
            }
        }
    }

    /// What lasts of this waits behind all others.
    fn push_lasting(&mut self, alloc: Global, queue: &mut VecDeque<Wait>) -> Result<(), AllocError>
        requires { IsIndexed self.old }
        ensures pushed { OnOk result (waits_of self.new
            ≡ waits_of self.old ++ filter lasting (map wait_of queue.old.items)) }
        ensures indexed { OnOk result (IsIndexed self.new) }
    {
        'waiting: while let Some(wait) = queue.pop_front() {
            let stays = is_lasting(&wait);
            self.push_where(alloc, wait, stays)?;
        }
        Ok(())
    }

    /// All of this waits behind all others, but for what is lost.
    fn push_all_unlost(
        &mut self,
        alloc: Global,
        marks: &Marks,
        queue: &mut VecDeque<Wait>,
    ) -> Result<(), AllocError>
        requires { IsIndexed self.old }
        ensures pushed { OnOk result (waits_of self.new ≡ waits_of self.old
            ++ without_lost (lost_by (floors_of marks.now)) (map wait_of queue.old.items)) }
        ensures indexed { OnOk result (IsIndexed self.new) }
    {
        let mut cut = Vec::new(alloc);
        'waiting: while let Some(wait) = queue.pop_front() {
            self.push_unlost(alloc, &mut cut, marks, wait)?;
        }
        Ok(())
    }

    /// Takes out the first.
    pub fn pop(&mut self, alloc: Global) -> Result<Option<Wait>, AllocError>
        requires { IsIndexed self.old }
        ensures popped { IfOk result (λ popped. MatchOption popped
            ((waits_of self.old ≡ []) × (waits_of self.new ≡ []))
            (λ wait. waits_of self.old ≡ wait_of wait ∷ waits_of self.new)) }
        ensures indexed { OnOk result (IsIndexed self.new) }
    {
        match self.queue.pop_front() {
            Some(wait) => match self.indices.take_first(alloc, &wait, self.first) {
                Ok(next) => {
                    self.first = next;
                    Ok(Some(wait))
                }
                Err(refused) => {
                    let_go(wait);
                    Err(refused)
                }
            },
            None => Ok(None),
        }
    }

    /// How many packets of the stream from a partition wait.
    pub fn packets_of(&self, source: u32) -> u64
        requires { IsIndexed self.now }
        ensures { result ≡ count_by (is_of_stream source) (waits_of self.now) }
    {
        self.indices.packets.get(source)
    }

    /// The message of the request at a place, if there is one.
    fn message_at(&self, place: u64) -> Option<&Message>
        requires { self.now.first ≤ place }
        ensures { option_map (λ m. message_of m.now) result
            ≡ message_of_one (slice_get (waits_of self.now) (place - self.now.first)) }
    {
        match self.queue.get((place - self.first) as usize) {
            Some(wait) => message_in(wait),
            None => None,
        }
    }

    /// The message of the first request of a client with this number that waits.
    pub fn request(&self, client: &Id, number: u32) -> Option<&Message>
        requires { IsIndexed self.now }
        ensures { option_map (λ m. message_of m.now) result
            ≡ request_in (waits_of self.now) (id_of client.now) number }
    {
        match self.indices.requests.first(client, number) {
            Some(place) => self.message_at(place),
            None => None,
        }
    }

    /// Whether a trim of the stream to a partition waits.
    pub fn has_trim(&self, target: u32) -> bool
        requires { IsIndexed self.now }
        ensures { result ≡ list_any (is_trim_of target) (waits_of self.now) }
    {
        0 < self.indices.trims.get(target)
    }

    /// Whether an outcome of this task of this activity waits, by a look through all.
    fn finds_outcome(&self, id: &Id, task: u32, activity: &Activity) -> bool
        ensures { result ≡ list_any
            (λ wait. is_outcome_of (id_of id.now) task (activity_of activity.now) (wait_of wait))
            self.now.queue.items }
    {
        self.queue
            .iter()
            .any(|wait| is_outcome(wait, id, task, activity))
    }

    /// Whether an outcome of this task of this activity waits. Where none of the task does, that takes no look through all.
    pub fn has_outcome(&self, id: &Id, task: u32, activity: &Activity) -> bool
        requires { IsIndexed self.now }
        ensures { result ≡ list_any (is_outcome_of (id_of id.now) task (activity_of activity.now))
            (waits_of self.now) }
    {
        match self.indices.outcomes.first(id, task) {
            Some(_) => self.finds_outcome(id, task, activity),
            None => false,
        }
    }

    /// Requests and trims go on to wait, and all else is let go of.
    pub fn keep_lasting(&mut self, alloc: Global) -> Result<(), AllocError>
        ensures kept { OnOk result (waits_of self.new ≡ filter lasting (waits_of self.old)) }
        ensures may { All MayWait (waits_of self.old)
            → OnOk result (All MayWait (waits_of self.new)) }
        ensures indexed { OnOk result (IsIndexed self.new) }
    {
        let mut kept = Waits::new(alloc);
        kept.push_lasting(alloc, &mut self.queue)?;
        *self = kept;
        Ok(())
    }

    /// Packets whose entry was given up are let go of, and so are those of their streams behind them.
    pub fn cut_lost(&mut self, alloc: Global, marks: &Marks) -> Result<(), AllocError>
        ensures kept { OnOk result (waits_of self.new
            ≡ without_lost (lost_by (floors_of marks.now)) (waits_of self.old)) }
        ensures may { All MayWait (waits_of self.old)
            → OnOk result (All MayWait (waits_of self.new)) }
        ensures indexed { OnOk result (IsIndexed self.new) }
    {
        let mut kept = Waits::new(alloc);
        kept.push_all_unlost(alloc, marks, &mut self.queue)?;
        *self = kept;
        Ok(())
    }
}
