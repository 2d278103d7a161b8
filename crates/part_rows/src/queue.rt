//! The messages to receivers of a partition.

ghost use Rattle.std.specs.Prelude.{◌≡◌, ◌++◌, ◌∷◌, [], Some, IfOk, OnOk, IfSome, IfNone, option_map, true, slice_get, length};
ghost use Rattle.std.specs.List.{position};
ghost use Rattle.dura_value.specs.Views.{id_of, body_of, messages_of};
ghost use Rattle.dura_model.specs.Partition.{first_in, without_first};
ghost use Rattle.part_rows.specs.Queues.{is_of_link, said_in};

use dura_value::{Id, Message};
use shared_lists::{Shared, SharedSequence};
use std::alloc::{AllocError, Global};
use std::marker::Model;

/// Messages in the order in which they came, which a contract sees as a list. Copies share them.
#[derive(Drop)]
pub struct Queue {
    messages: SharedSequence<Message>,
}

impl Model for Queue {
    ghost use Rattle.std.specs.Prelude.{List};
    ghost use Rattle.dura_value.specs.declared.messages.Message.{Message};

    ghost Value = { List Message };

    ghost view = { λ q. q.messages };
}

/// Whether a message is from one to the other.
#[tactic(auto, using(dura_value::proofs::Ids::derived_id_eq))]
fn is_between(message: &Message, from: &Id, to: &Id) -> bool
    ensures { result ≡ is_of_link (id_of from.now) (id_of to.now) message.now }
{
    *from == message.from && *to == message.to
}

impl Queue {
    /// A queue without messages.
    pub fn new() -> Queue
        ensures { result ≡ [] }
    {
        Queue {
            messages: SharedSequence::new(),
        }
    }

    /// A message comes behind all others.
    pub fn push(&mut self, alloc: Global, message: Message) -> Result<(), AllocError>
        ensures { OnOk result (self.new ≡ self.old ++ message ∷ []) }
    {
        self.messages.push(alloc, message)
    }

    /// Where the first message from one to the other is.
    #[tactic(auto, using(crate::proofs::Links::nowhere))]
    fn place_of(&self, from: &Id, to: &Id) -> Option<usize>
        ensures { result ≡ position (is_of_link (id_of from.now) (id_of to.now)) self.now }
    {
        let length = self.messages.len();
        let mut place = 0;
        while place < length {
            let message = self.messages.get(place)?;
            if is_between(message, from, to) {
                return Some(place);
            }
            place += 1;
        }
        None
    }

    /// How many messages there are.
    pub fn len(&self) -> usize
        ensures { result ≡ length self.now }
    {
        self.messages.len()
    }

    /// The message at a place.
    pub fn at(&self, place: usize) -> Option<&Message>
        ensures { option_map (λ m. m.now) result ≡ slice_get self.now place }
    {
        self.messages.get(place)
    }

    /// The first message from one to the other is taken out.
    #[tactic(auto, using(crate::proofs::Links::place_is_link, crate::proofs::Links::place_inside, crate::proofs::Links::place_said, crate::proofs::Links::place_gone, crate::proofs::Links::no_place_said, crate::proofs::Links::no_place_gone))]
    pub fn take_first(
        &mut self,
        alloc: Global,
        from: &Id,
        to: &Id,
    ) -> Result<Option<Shared<Message>>, AllocError>
        ensures first { IfOk result (λ taken. said_in taken
            ≡ first_in (messages_of self.old) (id_of from.now) (id_of to.now)) }
        ensures rest { OnOk result (messages_of self.new
            ≡ without_first (messages_of self.old) (id_of from.now) (id_of to.now)) }
        ensures link { IfOk result (λ taken. IfSome taken (λ m.
            is_of_link (id_of from.now) (id_of to.now) m ≡ true)) }
        ensures none { IfOk result (λ taken. IfNone taken (self.new ≡ self.old)) }
    {
        match self.place_of(from, to) {
            Some(place) => Ok(Some(self.messages.remove(alloc, place)?)),
            None => Ok(None),
        }
    }

    /// The same messages, which both share.
    pub fn copy(&self) -> Result<Queue, AllocError>
        ensures { IfOk result (λ copy. copy ≡ self.now) }
    {
        Ok(Queue {
            messages: self.messages.copy()?,
        })
    }
}
