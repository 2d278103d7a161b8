//! What comes in from other partitions and from clients, and what is let go.

ghost use Rattle.std.specs.Prelude.{◌≡◌, ◌<◌, ◌==◌, ◌&&◌, ◌+◌, ◌++◌, ◌∷◌, [], not, nat_lt, IfOk, OnOk};
ghost use Rattle.dura_value.specs.Ids.{home};
ghost use Rattle.dura_value.specs.Views.{id_of, message_of, identity_of};
ghost use Rattle.dura_model.specs.Partition.{entry_of, with_inbox, got_in, trim_in};
ghost use Rattle.part_rows.specs.Parts.{part_of};
ghost use Rattle.part_rows.specs.Accepts.{Accepts};

use crate::parts::PartRows;
use crate::streams::Inbox;
use dura_value::{Identity, Message, home};
use std::alloc::{AllocError, Global};

impl PartRows {
    /// Whether a stream comes from another partition.
    fn is_other(&self, partition: u32) -> bool
        ensures { result ≡ (not (partition == self.now.number) && nat_lt partition
            self.now.partitions) }
    {
        partition != self.number && partition < self.partitions
    }

    /// The next message of a stream is taken in by the entry under way.
    #[tactic(auto, using(crate::proofs::Posting::joined))]
    fn take_in(
        &mut self,
        alloc: Global,
        source: u32,
        number: u64,
        message: Message,
    ) -> Result<(), AllocError>
        ensures taken { OnOk result (part_of self.new
            ≡ record (part_of self.old) {
              queue = (part_of self.old).queue ++ message_of message
                  ∷ [];
              inboxes = with_inbox (part_of self.old).inboxes source
                  (record { next = number + 1; reader = entry_of (part_of self.old) });
            }) }
        ensures timers { self.new.timers ≡ self.old.timers }
        ensures partitions { self.new.partitions ≡ self.old.partitions }
    {
        let Some(next) = number.checked_add(1) else {
            drop(message);
            return Err(AllocError);
        };
        let reader = self.entry();
        self.queue.push(alloc, message)?;
        self.inboxes.put(source, Inbox { next, reader })?;
        Ok(())
    }

    /// Whether it is the next message of a stream from another partition, to a receiver here.
    fn is_next(&self, source: u32, number: u64, message: &Message) -> bool
        requires { 0 < self.now.partitions }
        ensures { result ≡ (not (source == self.now.number) &&
            (nat_lt source self.now.partitions &&
            (number == ((part_of self.now).inboxes source).next && home self.now.partitions
            (id_of message.now.to) == self.now.number))) }
    {
        self.is_other(source)
            && number == self.inboxes.next(source)
            && home(&message.to, self.partitions) == self.number
    }

    /// The next message of a stream from another partition joins the queue; any other is refused.
    pub fn got(
        &mut self,
        alloc: Global,
        source: &Identity,
        number: u64,
        message: Message,
    ) -> Result<bool, AllocError>
        requires { 0 < self.old.partitions }
        ensures accepts { IfOk result (λ yes.
            Accepts yes (part_of self.old) (part_of self.new)
            (got_in self.old.partitions (part_of self.old) (identity_of source.now) number
            (message_of message))) }
        ensures timers { self.new.timers ≡ self.old.timers }
        ensures partitions { self.new.partitions ≡ self.old.partitions }
    {
        if !self.is_next(source.partition, number, &message) {
            drop(message);
            return Ok(false);
        }
        self.take_in(alloc, source.partition, number, message)?;
        Ok(true)
    }

    /// The stream to another partition begins later, not past its end; else this is refused.
    pub fn trim(
        &mut self,
        alloc: Global,
        reader: &Identity,
        number: u64,
    ) -> Result<bool, AllocError>
        ensures accepts { IfOk result (λ yes.
            Accepts yes (part_of self.old) (part_of self.new)
            (trim_in self.old.partitions (part_of self.old) (identity_of reader.now) number)) }
        ensures timers { self.new.timers ≡ self.old.timers }
        ensures partitions { self.new.partitions ≡ self.old.partitions }
    {
        if !self.is_other(reader.partition) {
            return Ok(false);
        }
        let begins = self.outboxes.begin_at(alloc, reader.partition, number)?;
        Ok(begins)
    }
}
