//! The event of its history that a message is to an instance.

ghost use Rattle.std.specs.Prelude.{◌≡◌, Some, None, IfOk, option_map};
ghost use Rattle.dura_value.specs.Views.{id_of, body_of as said_of};
ghost use Rattle.flow_syntax.specs.Syntax.{Flows as PlainFlows};
ghost use Rattle.flow_syntax.specs.Views.{flows_of};
ghost use Rattle.flow_messages.specs.Views.{event_of as seen};
ghost use Rattle.dura_model.specs.Partition.{event_of};
ghost use Rattle.flow_steps.specs.Views.{instance_of};

use crate::absent::{flow_in, start_event};
use crate::instance::Instance;
use crate::present::{has_ended, raise_event};
use dura_value::{Body, Message, Reply};
use flow_messages::Event;
use flow_syntax::Flows;
use part_rows::copy_answer;
use std::alloc::AllocError;

/// The event that a message is to an instance that isn't there.
fn event_of_absent(flows: &Flows, message: &Message) -> Result<Option<Event>, AllocError>
    ensures { IfOk result (λ event. option_map seen event
        ≡ event_of (flows_of flows.now) None (id_of message.now.from) (id_of message.now.to)
        (said_of message.now.body)) }
{
    match &message.body {
        Body::Start(argument, reply) => match flow_in(flows, &message.to) {
            Some(_) => Ok(Some(start_event(&message.from, argument, reply)?)),
            None => Ok(None),
        },
        _ => Ok(None),
    }
}

/// The event that a message is to an instance that is there.
fn event_of_present(instance: &Instance<'_>, message: &Message) -> Result<Option<Event>, AllocError>
    ensures { IfOk result (λ event. (flows : PlainFlows)
        → option_map seen event
        ≡ event_of flows (Some (instance_of instance.now)) (id_of message.now.from)
        (id_of message.now.to) (said_of message.now.body)) }
{
    let over = has_ended(&instance.machine.progress);
    match &message.body {
        Body::Raise(name, value, _) if !over => Ok(Some(raise_event(name, value)?)),
        Body::Result(Reply::Task(task), answer) if !over => {
            Ok(Some(Event::Resulted(*task, copy_answer(answer)?)))
        }
        Body::Granted(task) => Ok(Some(Event::Granted(*task))),
        _ => Ok(None),
    }
}

/// The event of its history that a message is to an instance, if it is one.
pub(crate) fn event_of(
    flows: &Flows,
    instance: &Option<Instance<'_>>,
    message: &Message,
) -> Result<Option<Event>, AllocError>
    ensures { IfOk result (λ event. option_map seen event
        ≡ event_of (flows_of flows.now) (option_map instance_of instance.now)
        (id_of message.now.from) (id_of message.now.to) (said_of message.now.body)) }
{
    match instance {
        Some(instance) => {
            let event = event_of_present(instance, message)?;
            Ok(event)
        }
        None => event_of_absent(flows, message),
    }
}
