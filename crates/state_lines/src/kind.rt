//! What the lines of a table are for.

ghost use Rattle.std.specs.Prelude.{◌≡◌, IfOk, option_map};
ghost use Rattle.dura_value.specs.Views.{id_of, answer_of};
ghost use Rattle.part_steps.specs.States.{state_of};
ghost use Rattle.shared_maps.specs.Maps.{has_id};
ghost use Rattle.state_lines.specs.Kinds.{keeps, kept_answer};
ghost use Rattle.state_lines.specs.Table.{answer_at};

use dura_value::{Answer, Id};
use part_rows::Reactions;
use part_steps::PartState;
use shared_maps::OrderedIds;
use std::alloc::{AllocError, Global};

/// What a line of a table is for.
#[derive(Clone, Copy)]
pub(crate) enum Kind {
    /// An entity that was delivered to.
    Entity,
    /// An instance of an orchestration.
    Instance,
}

/// What a query of an entity with this answer is told: an entity of a class that isn't there has no value.
fn answer_at<R: Reactions>(reactions: &R, id: &Id, answer: Answer) -> Answer
    ensures { answer_of result ≡ answer_at (R.flows reactions.now) (id_of id.now)
        (answer_of answer) }
{
    match id {
        Id::Entity(class, _) if !reactions.has_class(class) => {
            drop(answer);
            Answer::None
        }
        _ => answer,
    }
}

/// The answer that the line of an entity tells, if the state keeps the entity.
fn entity_answer<R: Reactions>(
    reactions: &R,
    state: &PartState,
    id: &Id,
) -> Result<Option<Answer>, AllocError>
    ensures { IfOk result (λ found. option_map answer_of found
        ≡ kept_answer Kind.Entity (R.flows reactions.now) (state_of state.now) (id_of id.now)) }
{
    match state.entity_answer(id)? {
        Some(answer) => Ok(Some(answer_at(reactions, id, answer))),
        None => Ok(None),
    }
}

impl Kind {
    /// The ids that a state keeps something of this kind for, in their order.
    pub(crate) fn ids(self, alloc: Global, state: &PartState) -> Result<OrderedIds, AllocError>
        ensures { IfOk result (λ ids. has_id ids ≡ keeps self (state_of state.now)) }
    {
        match self {
            Kind::Entity => state.entity_ids(alloc),
            Kind::Instance => state.instance_ids(alloc),
        }
    }

    /// The answer that the line of an id tells, if the state keeps something of this kind for it.
    pub(crate) fn answer<R: Reactions>(
        self,
        alloc: Global,
        reactions: &R,
        state: &PartState,
        id: &Id,
    ) -> Result<Option<Answer>, AllocError>
        ensures { IfOk result (λ found. option_map answer_of found
            ≡ kept_answer self (R.flows reactions.now) (state_of state.now) (id_of id.now)) }
    {
        match self {
            Kind::Entity => entity_answer(reactions, state, id),
            Kind::Instance => state.instance_answer(alloc, reactions, id),
        }
    }
}
