//! An entity as it is kept, or as its class begins.

ghost use Rattle.std.specs.Prelude.{◌≡◌, IfOk, option_map};
ghost use Rattle.flow_syntax.specs.Entity.{initial};
ghost use Rattle.flow_syntax.specs.Syntax.{class_of};
ghost use Rattle.flow_syntax.specs.Views.{flows_of};
ghost use Rattle.flow_messages.specs.Views.{entity_of};
ghost use Rattle.dura_model.specs.Steps.{entity_of as entity_in};

use dura_value::{Name, Value};
use flow_messages::{Entity, copy_value};
use flow_syntax::Flows;
use std::alloc::AllocError;

/// What an entity of a class begins with.
fn first_value(flows: &Flows, class: &Name) -> Result<Value, AllocError>
    ensures { IfOk result (λ value. value ≡ initial (class_of (flows_of flows.now) class.now)) }
{
    match flows.class_of(class) {
        Some(class) => copy_value(&class.init),
        None => Ok(Value::Null),
    }
}

/// An entity as it was kept, or as its class begins, at a new last stamp.
pub(crate) fn entity_at(
    flows: &Flows,
    class: &Name,
    kept: Option<Entity>,
    stamp: u64,
) -> Result<Entity, AllocError>
    ensures { IfOk result (λ e. entity_of e
        ≡ record (entity_in (flows_of flows.now) class.now (option_map entity_of kept))
        { last = stamp }) }
{
    match kept {
        Some(entity) => Ok(Entity {
            last: stamp,
            ..entity
        }),
        None => Ok(Entity {
            value: first_value(flows, class)?,
            holder: None,
            last: stamp,
        }),
    }
}
