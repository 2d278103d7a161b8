//! What a listing of a partition tells: the ids of its instances and entities, and how each of them stands.

ghost use Rattle.std.specs.Prelude.{◌≡◌, Some, is_some, IfOk, option_map};
ghost use Rattle.dura_value.specs.Messages.{is_value};
ghost use Rattle.dura_value.specs.Views.{id_of, answer_of};
ghost use Rattle.flow_messages.specs.Views.{entity_of};
ghost use Rattle.shared_maps.specs.Maps.{has_id};
ghost use Rattle.part_steps.specs.Listing.{entity_standing, instance_standing};
ghost use Rattle.part_steps.specs.States.{state_of};

use crate::state::PartState;
use dura_value::{Answer, Id};
use flow_messages::{Entity, copy_value};
use part_rows::Reactions;
use shared_maps::OrderedIds;
use std::alloc::{AllocError, Global};

/// What a query of an entity is answered.
fn standing_of_entity(entity: &Entity) -> Result<Answer, AllocError>
    ensures { IfOk result (λ answer. answer_of answer ≡ is_value (entity_of entity.now).value) }
{
    Ok(Answer::Value(copy_value(&entity.value)?))
}

impl PartState {
    /// The ids of its entities, in their order.
    pub fn entity_ids(&self, alloc: Global) -> Result<OrderedIds, AllocError>
        ensures { IfOk result (λ ids. has_id ids
            ≡ (λ id. is_some ((state_of self.now).entities id))) }
    {
        let ids = self.rows.entities.ids(alloc)?;
        Ok(ids)
    }

    /// The ids of its instances, in their order.
    pub fn instance_ids(&self, alloc: Global) -> Result<OrderedIds, AllocError>
        ensures { IfOk result (λ ids. has_id ids
            ≡ (λ id. is_some ((state_of self.now).instances id))) }
    {
        let ids = self.rows.instances.ids(alloc)?;
        Ok(ids)
    }

    /// The answer that a query of an entity would get, whoever holds it, if the entity is there.
    pub fn entity_answer(&self, id: &Id) -> Result<Option<Answer>, AllocError>
        ensures { IfOk result (λ found. option_map answer_of found
            ≡ entity_standing (state_of self.now) (id_of id.now)) }
    {
        match self.rows.entities.get(id) {
            Some(entity) => Ok(Some(standing_of_entity(entity)?)),
            None => Ok(None),
        }
    }

    /// The answer that a query of an instance would get, if the instance is there: its history is replayed.
    pub fn instance_answer<R: Reactions>(
        &self,
        alloc: Global,
        reactions: &R,
        id: &Id,
    ) -> Result<Option<Answer>, AllocError>
        ensures { IfOk result (λ found. option_map answer_of found
            ≡ instance_standing (R.flows reactions.now) (state_of self.now) (id_of id.now)) }
    {
        match self.rows.instances.get(id) {
            Some(row) => Ok(Some(reactions.standing(alloc, id, row)?)),
            None => Ok(None),
        }
    }
}
