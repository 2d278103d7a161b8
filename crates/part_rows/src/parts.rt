//! All that a partition knows.

ghost use Rattle.std.specs.Prelude.{◌≡◌, ◌<◌, IfOk, OnOk};
ghost use Rattle.dura_value.specs.Views.{message_of, messages_of, identity_of};
ghost use Rattle.part_rows.specs.Timers.{InOrder};
ghost use Rattle.dura_model.specs.Partition.{fresh, entry_of, post, post_all};
ghost use Rattle.part_rows.specs.Parts.{part_of};

use crate::queue::Queue;
use crate::rows::{Activity, Row};
use crate::streams::{Inboxes, Outboxes};
use crate::timers::TimerRow;
use dura_value::{Answer, Identity, Message, Posted, home, with};
use flow_messages::Entity;
use shared_maps::{IdMap, NumberMap, TaskMap};
use std::alloc::{AllocError, Global};

/// What a partition among so many knows. After an Err, which is want of memory, it is only dropped.
#[derive(Drop)]
pub struct PartRows {
    /// How many partitions there are.
    pub partitions: u32,
    /// Which of them it is.
    pub number: u32,
    /// The position of its next entry.
    pub position: u64,
    /// Its incarnation.
    pub incarnation: u64,
    /// Its greatest stamp.
    pub stamp: u64,
    /// The requests that were taken from its clients.
    pub taken: NumberMap<Message>,
    /// The answers to them.
    pub answers: NumberMap<Answer>,
    /// Its instances.
    pub instances: IdMap<Row>,
    /// Its entities.
    pub entities: IdMap<Entity>,
    /// The activities that are pending.
    pub activities: TaskMap<Activity>,
    /// The timers that are pending.
    pub timers: TimerRow,
    /// The messages to receivers here.
    pub queue: Queue,
    /// The streams from other partitions.
    pub inboxes: Inboxes,
    /// The streams to other partitions.
    pub outboxes: Outboxes,
}

impl PartRows {
    /// A partition among so many where nothing happened.
    pub fn new(alloc: Global, partitions: u32, number: u32) -> PartRows
        ensures fresh { part_of result ≡ fresh number }
        ensures order { InOrder result.timers }
        ensures partitions { result.partitions ≡ partitions }
        ensures number { result.number ≡ number }
    {
        PartRows {
            partitions,
            number,
            position: 0,
            incarnation: 0,
            stamp: 0,
            taken: NumberMap::new(alloc),
            answers: NumberMap::new(alloc),
            instances: IdMap::new(alloc),
            entities: IdMap::new(alloc),
            activities: TaskMap::new(alloc),
            timers: TimerRow::new(alloc),
            queue: Queue::new(),
            inboxes: Inboxes::new(alloc),
            outboxes: Outboxes::new(alloc),
        }
    }

    /// A partition that knows the same.
    pub fn copy(&self, alloc: Global) -> Result<PartRows, AllocError>
        requires { InOrder self.now.timers }
        ensures same { IfOk result (λ copy. part_of copy ≡ part_of self.now) }
        ensures order { IfOk result (λ copy. InOrder copy.timers) }
        ensures partitions { IfOk result (λ copy. copy.partitions ≡ self.now.partitions) }
        ensures number { IfOk result (λ copy. copy.number ≡ self.now.number) }
    {
        let mut copy = PartRows::new(alloc, self.partitions, self.number);
        let copied = copy.copy_from(alloc, self);
        let (_, copy) = with(copied, copy)?;
        Ok(copy)
    }

    /// Knows what another partition knows.
    fn copy_from(&mut self, alloc: Global, other: &PartRows) -> Result<(), AllocError>
        requires { InOrder other.now.timers }
        ensures same { OnOk result (part_of self.new ≡ part_of other.now) }
        ensures order { OnOk result (InOrder self.new.timers) }
        ensures partitions { OnOk result (self.new.partitions ≡ other.now.partitions) }
        ensures number { OnOk result (self.new.number ≡ other.now.number) }
    {
        self.partitions = other.partitions;
        self.number = other.number;
        self.position = other.position;
        self.incarnation = other.incarnation;
        self.stamp = other.stamp;
        self.taken = other.taken.copy()?;
        self.answers = other.answers.copy()?;
        self.instances = other.instances.copy()?;
        self.entities = other.entities.copy()?;
        self.activities = other.activities.copy()?;
        self.timers = other.timers.copy()?;
        self.queue = other.queue.copy()?;
        self.inboxes = other.inboxes.copy()?;
        self.outboxes = other.outboxes.copy()?;
        Ok(())
    }

    /// Lets go of all that it knows. Where another crate drops it, the drop of each of its parts is proved there once more.
    pub fn let_go(self) {
        drop(self);
    }

    /// The entry that its items belong to.
    pub fn entry(&self) -> Identity
        ensures { identity_of result ≡ entry_of (part_of self.now) }
    {
        Identity {
            partition: self.number,
            incarnation: self.incarnation,
            position: self.position.saturating_sub(1),
        }
    }

    /// A message joins the queue here, or the stream to its receiver's partition.
    #[tactic(auto, using(crate::proofs::Posting::joined))]
    pub fn post(&mut self, alloc: Global, message: Message) -> Result<(), AllocError>
        requires { 0 < self.old.partitions }
        ensures posted { OnOk result (part_of self.new
            ≡ post self.old.partitions (part_of self.old) (message_of message)) }
        ensures timers { self.new.timers ≡ self.old.timers }
        ensures partitions { self.new.partitions ≡ self.old.partitions }
    {
        let target = home(&message.to, self.partitions);
        if target == self.number {
            return self.queue.push(alloc, message);
        }
        let entry = self.entry();
        self.outboxes.push(alloc, target, Posted { entry, message })
    }

    /// Messages are posted one after the other.
    pub fn post_all(&mut self, alloc: Global, messages: Vec<Message>) -> Result<(), AllocError>
        requires { 0 < self.old.partitions }
        ensures posted { OnOk result (part_of self.new
            ≡ post_all self.old.partitions (part_of self.old) (messages_of messages.items)) }
        ensures timers { self.new.timers ≡ self.old.timers }
        ensures partitions { self.new.partitions ≡ self.old.partitions }
    {
        for message in messages {
            self.post(alloc, message)?;
        }
        Ok(())
    }
}
