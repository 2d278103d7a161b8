//! The streams from and to other partitions.

ghost use Rattle.std.specs.Prelude.{◌≡◌, ◌+◌, ◌++◌, length, nat_le, ◌≤◌, if◌then◌else◌, option_map, IfOk, OnOk};
ghost use Rattle.std.specs.List.{slice_get};
ghost use Rattle.dura_model.specs.Partition.{with_inbox};
ghost use Rattle.log_items.specs.Streams.{with_posted, begins_at, with_first};
ghost use Rattle.dura_value.specs.Views.{posted_of, identity_of};
ghost use Rattle.part_rows.specs.Views.{inbox_of, outbox_of, inboxes_of, outboxes_of, no_outbox, no_inbox};

use crate::copies::copy_message;
use dura_value::{Identity, Posted};
use shared_lists::SharedSequence;
use std::alloc::{AllocError, Global};
use std::collections::BTreeMap;

/// What is left of the stream to another partition. Copies share its messages.
#[derive(Drop)]
pub struct Outbox {
    /// The number of its first message.
    pub first: u64,
    /// The messages.
    pub messages: SharedSequence<Posted>,
}

/// How far the stream from another partition was taken in.
#[derive(Clone, Copy)]
pub struct Inbox {
    /// The number of the next message.
    pub next: u64,
    /// The entry that took the last.
    pub reader: Identity,
}

/// The streams from other partitions, which a contract sees as a function.
#[derive(Drop)]
pub struct Inboxes {
    boxes: BTreeMap<u32, Inbox>,
}

/// The streams to other partitions, which a contract sees as a function.
#[derive(Drop)]
pub struct Outboxes {
    boxes: BTreeMap<u32, Outbox>,
}

/// The same message of the same entry.
pub fn copy_posted(posted: &Posted) -> Result<Posted, AllocError>
    ensures { IfOk result (λ copy. copy ≡ posted.now) }
{
    Ok(Posted {
        entry: posted.entry,
        message: copy_message(&posted.message)?,
    })
}

/// The message at a place among these.
fn message_at(messages: &SharedSequence<Posted>, place: usize) -> Option<&Posted>
    ensures { option_map (λ posted. posted.now) result ≡ slice_get messages.now place }
{
    messages.get(place)
}

impl Clone for Outbox {
    ghost is_clone = { λ outbox copy. copy ≡ outbox };

    fn clone(&self) -> Result<Self, AllocError> {
        Ok(Outbox {
            first: self.first,
            messages: self.messages.copy()?,
        })
    }
}

impl Outbox {
    /// How many messages are left.
    #[tactic(auto, using(crate::proofs::Left::same_count))]
    fn count(&self) -> usize
        ensures { result ≡ length (outbox_of self.now).messages }
    {
        self.messages.len()
    }

    /// The message at this place.
    #[tactic(auto, using(crate::proofs::Left::seen_at))]
    fn at(&self, place: u64) -> Option<&Posted>
        ensures { option_map (λ posted. posted_of posted.now) result
            ≡ slice_get (outbox_of self.now).messages place }
    {
        message_at(&self.messages, place as usize)
    }

    /// It begins at a later number; one that it has begun at stays. A number past its end is refused.
    fn begin_at(&mut self, alloc: Global, number: u64) -> Result<bool, AllocError>
        ensures refused { IfOk result (λ begins. begins
            ≡ nat_le number (self.old.first + length self.old.messages)) }
        ensures begins { IfOk result (λ begins. outbox_of self.new ≡
            (if begins then begins_at number (outbox_of self.old) else outbox_of self.old)) }
    {
        if number <= self.first {
            return Ok(true);
        }
        if (self.messages.len() as u64) < number - self.first {
            return Ok(false);
        }
        self.drop_to(alloc, number)?;
        Ok(true)
    }

    /// It begins at a later number, which is not past its end.
    fn drop_to(&mut self, alloc: Global, number: u64) -> Result<(), AllocError>
        requires later { self.old.first ≤ number }
        requires inside { number ≤ self.old.first + length self.old.messages }
        ensures { OnOk result (outbox_of self.new ≡ begins_at number (outbox_of self.old)) }
    {
        while self.first < number {
            drop(self.messages.remove(alloc, 0)?);
            self.first += 1;
        }
        Ok(())
    }
}

impl Outboxes {
    /// No stream has begun.
    pub fn new(alloc: Global) -> Outboxes
        ensures { outboxes_of result ≡ no_outbox }
    {
        Outboxes {
            boxes: BTreeMap::new(alloc),
        }
    }

    /// A message joins the stream to a partition. After an Err the streams are only dropped.
    #[tactic(auto, using(crate::proofs::Boxes::posted_written, crate::proofs::Boxes::posted_begun))]
    pub fn push(&mut self, alloc: Global, target: u32, posted: Posted) -> Result<(), AllocError>
        ensures { OnOk result (outboxes_of self.new
            ≡ with_posted (outboxes_of self.old) target (posted_of posted)) }
    {
        match self.boxes.get_mut(&target) {
            Some(outbox) => outbox.messages.push(alloc, posted)?,
            None => {
                let mut messages = SharedSequence::new();
                messages.push(alloc, posted)?;
                self.boxes.insert(target, Outbox { first: 0, messages })?;
            }
        }
        Ok(())
    }

    /// The stream to a partition begins at a later number; one that it has begun at stays. A number past its end is refused.
    #[tactic(auto, using(crate::proofs::Boxes::begun_nowhere))]
    pub fn begin_at(&mut self, alloc: Global, target: u32, number: u64) -> Result<bool, AllocError>
        ensures refused { IfOk result (λ begins. begins ≡ nat_le number
            ((outboxes_of self.old target).first + length (outboxes_of self.old target).messages)) }
        ensures begins { IfOk result (λ begins. outboxes_of self.new
            ≡ (if begins then with_first (outboxes_of self.old) target number else outboxes_of
            self.old)) }
    {
        match self.boxes.get_mut(&target) {
            Some(outbox) => outbox.begin_at(alloc, number),
            None => Ok(number == 0),
        }
    }

    /// The number of the first message that is left of the stream to a partition.
    pub fn first(&self, target: u32) -> u64
        ensures { result ≡ (outboxes_of self.now target).first }
    {
        match self.boxes.get(&target) {
            Some(outbox) => outbox.first,
            None => 0,
        }
    }

    /// How many messages are left of the stream to a partition.
    pub fn left_len(&self, target: u32) -> usize
        ensures { result ≡ length (outboxes_of self.now target).messages }
    {
        match self.boxes.get(&target) {
            Some(outbox) => outbox.count(),
            None => 0,
        }
    }

    /// The message at this place of what is left of the stream to a partition.
    pub fn left(&self, target: u32, place: u64) -> Option<&Posted>
        ensures { option_map (λ posted. posted_of posted.now) result
            ≡ slice_get (outboxes_of self.now target).messages place }
    {
        match self.boxes.get(&target) {
            Some(outbox) => outbox.at(place),
            None => None,
        }
    }

    /// The same streams, which share their messages.
    pub fn copy(&self) -> Result<Outboxes, AllocError>
        ensures { IfOk result (λ copy. outboxes_of copy ≡ outboxes_of self.now) }
    {
        Ok(Outboxes {
            boxes: self.boxes.clone()?,
        })
    }
}

impl Inboxes {
    /// Nothing came in.
    pub fn new(alloc: Global) -> Inboxes
        ensures { inboxes_of result ≡ no_inbox }
    {
        Inboxes {
            boxes: BTreeMap::new(alloc),
        }
    }

    /// The number of the next message of the stream from a partition.
    pub fn next(&self, source: u32) -> u64
        ensures { result ≡ (inboxes_of self.now source).next }
    {
        match self.boxes.get(&source) {
            Some(inbox) => inbox.next,
            None => 0,
        }
    }

    /// The entry that took in the last message of the stream from a partition.
    pub fn reader(&self, source: u32) -> Identity
        ensures { identity_of result ≡ (inboxes_of self.now source).reader }
    {
        match self.boxes.get(&source) {
            Some(inbox) => inbox.reader,
            None => Identity {
                partition: 0,
                incarnation: 0,
                position: 0,
            },
        }
    }

    /// The stream from a partition was taken in as far as this.
    #[tactic(auto, using(crate::proofs::Boxes::inbox_changes))]
    pub fn put(&mut self, source: u32, inbox: Inbox) -> Result<(), AllocError>
        ensures { OnOk result (inboxes_of self.new
            ≡ with_inbox (inboxes_of self.old) source (inbox_of inbox)) }
    {
        self.boxes.insert(source, inbox)?;
        Ok(())
    }

    /// The same streams.
    pub fn copy(&self) -> Result<Inboxes, AllocError>
        ensures { IfOk result (λ copy. inboxes_of copy ≡ inboxes_of self.now) }
    {
        Ok(Inboxes {
            boxes: self.boxes.clone()?,
        })
    }
}
