//! Entities.

ghost use Rattle.std.specs.Prelude.{◌≡◌};
ghost use Rattle.dura_value.specs.Views.{id_of};
ghost use Rattle.flow_syntax.specs.Entity.{takes};
ghost use Rattle.flow_messages.specs.Views.{entity_of};

use crate::copies::copy_value;
use dura_value::{Id, Value};
use std::alloc::AllocError;

/// An entity.
#[derive(Drop)]
pub struct Entity {
    /// Its value.
    pub value: Value,
    /// The instance that holds it.
    pub holder: Option<Id>,
    /// Its last stamp.
    pub last: u64,
}

impl Clone for Entity {
    ghost is_clone = { λ entity copy. copy ≡ entity };

    fn clone(&self) -> Result<Self, AllocError> {
        Ok(Entity {
            value: copy_value(&self.value)?,
            holder: self.holder.clone()?,
            last: self.last,
        })
    }
}

impl Entity {
    /// Whether it takes what this sender sends: with a holder it takes only what the holder sends.
    #[tactic(auto, using(dura_value::proofs::Ids::derived_id_eq))]
    pub fn takes(&self, sender: &Id) -> bool
        ensures { result ≡ takes (entity_of self.now).holder (id_of sender.now) }
    {
        match &self.holder {
            Some(holder) => *holder == *sender,
            None => true,
        }
    }
}
