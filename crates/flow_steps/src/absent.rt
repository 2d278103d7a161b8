//! Each kind of message to an instance that isn't there.

ghost use Rattle.std.specs.Prelude.{◌≡◌, [], Some, None, option_map, IfOk};
ghost use Rattle.dura_value.specs.Views.{id_of, reply_of, body_of as said_of, messages_of};
ghost use Rattle.flow_syntax.specs.Machine.{new_machine, started};
ghost use Rattle.flow_syntax.specs.Views.{flows_of};
ghost use Rattle.flow_messages.specs.Views.{event_of};
ghost use Rattle.flow_machine.specs.Views.{body_of};
ghost use Rattle.dura_model.specs.Deliveries.{stays_away, flow_of, begun, to_absent};
ghost use Rattle.flow_steps.specs.Views.{instance_of, effect_of};

use crate::answers::{begin, refuse, tell};
use crate::ends::go_on_from;
use crate::instance::{Effect, Instance};
use dura_value::{Answer, Body, Id, Message, Reply, Value, with};
use flow_machine::Machine;
use flow_messages::{Event, copy_id, copy_reply, copy_value};
use flow_syntax::{Flows, Stmt};
use std::alloc::{AllocError, Global};

/// It isn't there, and this is answered.
fn stay_away<'f>(alloc: Global, sent: Vec<Message>) -> Effect<'f>
    ensures { effect_of result ≡ stays_away (messages_of sent.items) }
{
    Effect {
        instance: None,
        sent,
        asked: Vec::new(alloc),
        gives_up: false,
    }
}

/// The body of an instance's flow.
pub(crate) fn flow_in<'f>(flows: &'f Flows, id: &Id) -> Option<&'f [Stmt]>
    ensures { option_map body_of result ≡ flow_of (flows_of flows.now) (id_of id.now) }
{
    match id {
        Id::Flow(flow, _) => flows.body_of(flow),
        _ => None,
    }
}

/// An instance that nobody waits for, before its first event.
fn new_instance<'f>(alloc: Global, id: &Id, body: &'f [Stmt]) -> Result<Instance<'f>, AllocError>
    ensures { IfOk result (λ o. instance_of o
        ≡ record {
          machine = new_machine (id_of id.now) (Some (body_of body.entry));
          waiting = [];
        }) }
{
    Ok(Instance {
        machine: Machine::new(alloc, id, Some(body))?,
        waiting: Vec::new(alloc),
    })
}

/// The start of an instance.
pub(crate) fn start_event(from: &Id, argument: &Value, reply: &Reply) -> Result<Event, AllocError>
    ensures { IfOk result (λ event. event_of event
        ≡ started (id_of from.now) argument.now (reply_of reply.now)) }
{
    let (argument, from) = with(copy_value(argument), copy_id(from)?)?;
    Ok(Event::Started(from, argument, copy_reply(reply)))
}

/// An instance begins with the body of its flow.
fn begin_with<'f>(
    alloc: Global,
    message: &Message,
    argument: &Value,
    reply: &Reply,
    stamp: u64,
    body: &'f [Stmt],
) -> Result<Effect<'f>, AllocError>
    ensures { IfOk result (λ e. effect_of e
        ≡ begun (id_of message.now.from) (id_of message.now.to) argument.now (reply_of reply.now)
        stamp (Some (body_of body.entry))) }
{
    let before = begin(alloc, &message.to, &message.from, reply)?;
    let event = start_event(&message.from, argument, reply)?;
    let made = new_instance(alloc, &message.to, body);
    let (instance, event) = with(made, event)?;
    let effect = go_on_from(alloc, instance, &event, stamp, before);
    drop(event);
    effect
}

/// An instance begins, where its flow is there.
fn begin_instance<'f>(
    alloc: Global,
    flows: &'f Flows,
    message: &Message,
    argument: &Value,
    reply: &Reply,
    stamp: u64,
) -> Result<Effect<'f>, AllocError>
    ensures { IfOk result (λ e. effect_of e
        ≡ begun (id_of message.now.from) (id_of message.now.to) argument.now (reply_of reply.now)
        stamp (flow_of (flows_of flows.now) (id_of message.now.to))) }
{
    match flow_in(flows, &message.to) {
        Some(body) => begin_with(alloc, message, argument, reply, stamp, body),
        None => {
            let sent = refuse(
                alloc,
                &message.to,
                &message.from,
                reply,
                Answer::Unknown,
                "unknown",
            )?;
            Ok(stay_away(alloc, sent))
        }
    }
}

/// A message to an instance that isn't there.
pub(crate) fn to_nothing<'f>(
    alloc: Global,
    flows: &'f Flows,
    message: &Message,
    stamp: u64,
) -> Result<Effect<'f>, AllocError>
    ensures { IfOk result (λ e. effect_of e
        ≡ to_absent (flows_of flows.now) (id_of message.now.from) (id_of message.now.to) stamp
        (said_of message.now.body)) }
{
    let sent = match &message.body {
        Body::Start(argument, reply) => {
            return begin_instance(alloc, flows, message, argument, reply, stamp);
        }
        Body::Wait(number) | Body::Raise(_, _, number) | Body::Query(number) => tell(
            alloc,
            &message.to,
            &message.from,
            *number,
            Answer::None,
        )?,
        _ => Vec::new(alloc),
    };
    Ok(stay_away(alloc, sent))
}
