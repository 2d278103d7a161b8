//! What reaches instances and entities, as the state of a partition asks for it.

ghost use Rattle.std.specs.Prelude.{◌≡◌, IfOk, option_map};
ghost use Rattle.dura_value.specs.Views.{id_of};
ghost use Rattle.flow_syntax.specs.Views.{flows_of};
ghost use Rattle.flow_messages.specs.Views.{event_of as seen};
ghost use Rattle.dura_model.specs.Partition.{instance_in};
ghost use Rattle.part_rows.specs.Reactions.{waits_of, reaction, reaction_of};
ghost use Rattle.part_rows.specs.Views.{row_of};
ghost use Rattle.flow_steps.specs.Views.{instance_of, effect_of, flows_by};

use crate::deliveries::{instance_of_row, to_instance};
use crate::ends::go_on_from;
use crate::entities::entity_at;
use crate::events::event_of;
use crate::instance::{Effect, Instance};
use crate::present::stand;
use dura_value::{Answer, Id, Message, Name, with};
use flow_messages::{Entity, Event};
use flow_replay::deliver;
use flow_syntax::Flows;
use part_rows::{Reaction, Reactions, Row, Waiting};
use std::alloc::{AllocError, Global};

/// Instances and entities by the machines of these flows and classes.
#[derive(Clone, Copy)]
pub struct Machines<'f> {
    flows: &'f Flows,
}

impl<'f> Machines<'f> {
    /// The machines of these flows and classes.
    pub fn of(flows: &'f Flows) -> Machines<'f>
        ensures { flows_by result ≡ flows_of flows.now }
    {
        Machines { flows }
    }
}

/// Who waits for the end of an instance, which is let go of.
fn waiting_of(instance: Option<Instance<'_>>) -> Option<Vec<Waiting>>
    ensures { option_map (λ w. waits_of w.items) result
        ≡ option_map (λ o. o.waiting) (option_map instance_of instance.entry) }
{
    match instance {
        Some(Instance { machine, waiting }) => {
            drop(machine);
            Some(waiting)
        }
        None => None,
    }
}

/// What an effect is to the instance's row.
fn as_reaction(event: Option<Event>, effect: Effect<'_>) -> Reaction
    ensures { reaction_of result ≡ reaction (option_map seen event) (effect_of effect.entry) }
{
    Reaction {
        event,
        waiting: waiting_of(effect.instance),
        sent: effect.sent,
        asked: effect.asked,
        gives_up: effect.gives_up,
    }
}

/// The instance that a row stands for, if there is one.
fn instance_if<'f>(
    alloc: Global,
    flows: &'f Flows,
    id: &Id,
    row: Option<&Row>,
) -> Result<Option<Instance<'f>>, AllocError>
    ensures { IfOk result (λ o. option_map instance_of o
        ≡ option_map (λ r. instance_in (flows_of flows.now) (id_of id.now) (row_of r.now))
        row.entry) }
{
    match row {
        Some(row) => {
            let instance = instance_of_row(alloc, flows, id, row)?;
            Ok(Some(instance))
        }
        None => Ok(None),
    }
}

impl Reactions for Machines<'_> {
    ghost flows = { flows_by };

    fn react(
        &self,
        alloc: Global,
        row: Option<&Row>,
        message: &Message,
        stamp: u64,
    ) -> Result<Reaction, AllocError> {
        let instance = instance_if(alloc, self.flows, &message.to, row)?;
        let (event, instance) = with(event_of(self.flows, &instance, message), instance)?;
        let reached = to_instance(alloc, self.flows, instance, message, stamp);
        let (effect, event) = with(reached, event)?;
        Ok(as_reaction(event, effect))
    }

    fn go_on(
        &self,
        alloc: Global,
        id: &Id,
        row: &Row,
        event: Event,
        stamp: u64,
    ) -> Result<Reaction, AllocError> {
        let (instance, event) = with(instance_of_row(alloc, self.flows, id, row), event)?;
        let gone_on = go_on_from(alloc, instance, &event, stamp, Vec::new(alloc));
        let (effect, event) = with(gone_on, event)?;
        Ok(as_reaction(Some(event), effect))
    }

    fn deliver(
        &self,
        alloc: Global,
        class: &Name,
        kept: Option<Entity>,
        message: &Message,
        stamp: u64,
    ) -> Result<(Entity, Vec<Message>), AllocError> {
        let mut entity = entity_at(self.flows, class, kept, stamp)?;
        let delivered = deliver(alloc, &mut entity, self.flows, class, message);
        let (sent, entity) = with(delivered, entity)?;
        Ok((entity, sent))
    }

    fn has_class(&self, class: &Name) -> bool {
        self.flows.class_of(class).is_some()
    }

    fn standing(&self, alloc: Global, id: &Id, row: &Row) -> Result<Answer, AllocError> {
        let instance = instance_of_row(alloc, self.flows, id, row)?;
        let standing = stand(&instance.machine.progress);
        drop(instance);
        standing
    }
}
