//! What instances and entities make of what reaches them, whoever works it out.

ghost use Rattle.std.specs.Prelude.{◌≡◌, [], Option, Some, is_some, IfOk, option_map};
ghost use Rattle.dura_value.specs.Views.{id_of, answer_of, body_of as said_of, messages_of};
ghost use Rattle.flow_syntax.specs.Syntax.{Flows, class_of};
ghost use Rattle.flow_messages.specs.Views.{event_of as seen, entity_of};
ghost use Rattle.dura_model.specs.Deliveries.{to_instance, goes_on_from, standing};
ghost use Rattle.dura_model.specs.Partition.{instance_in, event_of};
ghost use Rattle.dura_model.specs.World.{Orchestration};
ghost use Rattle.part_rows.specs.Reactions.{reaction, reaction_of, delivered};
ghost use Rattle.part_rows.specs.Views.{row_of};

use crate::rows::{Row, Waiting};
use dura_value::{Answer, Id, Message, Name};
use flow_messages::{Asked, Entity, Event};
use std::alloc::{AllocError, Global};

/// What a message or an event made of an instance.
#[derive(Drop)]
pub struct Reaction {
    /// The event of its history that it is, if it is one.
    pub event: Option<Event>,
    /// Who waits for the instance's end, the longest waiting first, or none where it isn't there.
    pub waiting: Option<Vec<Waiting>>,
    /// What is sent, in this order.
    pub sent: Vec<Message>,
    /// What was asked for.
    pub asked: Vec<Asked>,
    /// Whether its pending activities and timers are given up.
    pub gives_up: bool,
}

/// What instances and entities make of what reaches them. The state of a partition goes by it, and looks into no machine. Each
/// Err is want of memory.
pub trait Reactions {
    /// The flows and classes that it goes by.
    ghost flows: { Self → Flows };

    /// A message reaches the instance that has this row, or one that isn't there.
    fn react(
        &self,
        alloc: Global,
        row: Option<&Row>,
        message: &Message,
        stamp: u64,
    ) -> Result<Reaction, AllocError>
        ensures { IfOk result (λ made. (o : Option Orchestration)
            → o ≡ option_map (λ r.
            instance_in (flows self.now) (id_of message.now.to) (row_of r.now)) row.entry
            → reaction_of made ≡ reaction
            (event_of (flows self.now) o (id_of message.now.from) (id_of message.now.to)
            (said_of message.now.body))
            (to_instance (flows self.now) o (id_of message.now.from) (id_of message.now.to) stamp
            (said_of message.now.body))) };

    /// An event reaches the instance that has this row.
    fn go_on(
        &self,
        alloc: Global,
        id: &Id,
        row: &Row,
        event: Event,
        stamp: u64,
    ) -> Result<Reaction, AllocError>
        ensures { IfOk result (λ made. reaction_of made
            ≡ reaction (Some (seen event))
            (goes_on_from (instance_in (flows self.now) (id_of id.now) (row_of row.now))
            (seen event) stamp [])) };

    /// A message reaches an entity of this class, as it is kept or as its class begins. What it is then comes back, with what it
    /// sends.
    fn deliver(
        &self,
        alloc: Global,
        class: &Name,
        kept: Option<Entity>,
        message: &Message,
        stamp: u64,
    ) -> Result<(Entity, Vec<Message>), AllocError>
        ensures entity { IfOk result (λ made. entity_of made.0
            ≡ (delivered (flows self.now) class.now (option_map entity_of kept)
            (id_of message.now.from) (id_of message.now.to) stamp
            (said_of message.now.body)).entity) }
        ensures sent { IfOk result (λ made. messages_of made.1.items
            ≡ (delivered (flows self.now) class.now (option_map entity_of kept)
            (id_of message.now.from) (id_of message.now.to) stamp
            (said_of message.now.body)).sent) };

    /// Whether there is a class of this name.
    fn has_class(&self, class: &Name) -> bool
        ensures { result ≡ is_some (class_of (flows self.now) class.now) };

    /// How the instance that has this row stands.
    fn standing(&self, alloc: Global, id: &Id, row: &Row) -> Result<Answer, AllocError>
        ensures { IfOk result (λ answer. answer_of answer
            ≡ standing (instance_in (flows self.now) (id_of id.now)
            (row_of row.now)).machine.progress) };
}
