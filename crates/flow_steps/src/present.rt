//! Each kind of message to an instance that is there.

ghost use Rattle.std.specs.Prelude.{◌≡◌, ◌++◌, ◌∷◌, [], true, codes, Some, IfOk};
ghost use Rattle.dura_value.specs.Messages.{was_there, was_raised};
ghost use Rattle.dura_value.specs.Views.{id_of, reply_of, answer_of, body_of as said_of, messages_of};
ghost use Rattle.flow_syntax.specs.Machine.{was_raised as raised_event};
ghost use Rattle.flow_messages.specs.Views.{event_of};
ghost use Rattle.flow_machine.specs.Views.{progress_of};
ghost use Rattle.dura_model.specs.Deliveries.{goes_on_from, stays_so, standing, is_over, ending, waited, raised_at, result_at, granted_at, refusing, telling, to_present};
ghost use Rattle.part_rows.specs.Reactions.{waits_of};
ghost use Rattle.flow_steps.specs.Views.{instance_of, effect_of};

use crate::answers::{refuse, tell};
use crate::ends::{end_answer, go_on_from};
use crate::instance::{Effect, Instance};
use dura_value::{Answer, Body, Id, Message, Name, Reply, Value, with};
use flow_machine::Progress;
use flow_messages::{Event, copy_id, copy_name, copy_text, copy_value};
use flow_replay::advance;
use part_rows::{Waiting, copy_answer};
use std::alloc::{AllocError, Global};

/// It stays as it is, and this is answered.
fn stay<'f>(alloc: Global, instance: Instance<'f>, sent: Vec<Message>) -> Effect<'f>
    ensures { effect_of result ≡ stays_so (instance_of instance.entry).machine
        (instance_of instance.entry).waiting (messages_of sent.items) }
{
    Effect {
        instance: Some(instance),
        sent,
        asked: Vec::new(alloc),
        gives_up: false,
    }
}

/// How an instance stands.
pub(crate) fn stand(progress: &Progress) -> Result<Answer, AllocError>
    ensures { IfOk result (λ answer. answer_of answer ≡ standing (progress_of progress.now)) }
{
    match progress {
        Progress::Done(value) => Ok(Answer::Done(copy_value(value)?)),
        Progress::Failed(text) => Ok(Answer::Failed(copy_text(text)?)),
        Progress::Unborn | Progress::Running => Ok(Answer::Running),
    }
}

/// Whether it has come to its end.
pub(crate) fn has_ended(progress: &Progress) -> bool
    ensures { result ≡ is_over (progress_of progress.now) }
{
    matches!(progress, Progress::Done(_) | Progress::Failed(_))
}

/// A client is answered with its end.
fn tell_end<'f>(
    alloc: Global,
    instance: Instance<'f>,
    from: &Id,
    to: &Id,
    number: u32,
    answer: Answer,
) -> Result<Effect<'f>, AllocError>
    ensures { IfOk result (λ e. effect_of e
        ≡ waited (instance_of instance.entry).machine (instance_of instance.entry).waiting
        (id_of from.now) (id_of to.now) number (Some (answer_of answer))) }
{
    let (sent, instance) = with(tell(alloc, to, from, number, answer), instance)?;
    Ok(stay(alloc, instance, sent))
}

/// All who wait, and a client more.
fn with_client(
    mut waiting: Vec<Waiting>,
    from: &Id,
    number: u32,
) -> Result<Vec<Waiting>, AllocError>
    ensures { IfOk result (λ all. waits_of all.items
        ≡ waits_of waiting.items ++ (id_of from.now, number) ∷ []) }
{
    let client = copy_id(from)?;
    waiting.push(Waiting { client, number })?;
    Ok(waiting)
}

/// A client waits for its end.
fn await_end<'f>(
    alloc: Global,
    instance: Instance<'f>,
    from: &Id,
    number: u32,
) -> Result<Effect<'f>, AllocError>
    ensures { IfOk result (λ e. effect_of e
        ≡ stays_so (instance_of instance.entry).machine
        ((instance_of instance.entry).waiting ++ (id_of from.now, number) ∷ []) []) }
{
    let Instance { machine, waiting } = instance;
    let (waiting, machine) = with(with_client(waiting, from, number), machine)?;
    Ok(stay(alloc, Instance { machine, waiting }, Vec::new(alloc)))
}

/// A client waits for its end, or is answered where it has come to it.
fn wait<'f>(
    alloc: Global,
    instance: Instance<'f>,
    from: &Id,
    to: &Id,
    number: u32,
) -> Result<Effect<'f>, AllocError>
    ensures { IfOk result (λ e. effect_of e
        ≡ waited (instance_of instance.entry).machine (instance_of instance.entry).waiting
        (id_of from.now) (id_of to.now) number
        (ending (instance_of instance.entry).machine.progress)) }
{
    let (answer, instance) = with(end_answer(&instance.machine.progress), instance)?;
    match answer {
        Some(answer) => tell_end(alloc, instance, from, to, number, answer),
        None => await_end(alloc, instance, from, number),
    }
}

/// A raise of an event.
pub(crate) fn raise_event(name: &Name, value: &Value) -> Result<Event, AllocError>
    ensures { IfOk result (λ event. event_of event ≡ raised_event name.now value.now) }
{
    Ok(Event::Raised(copy_name(name)?, copy_value(value)?))
}

/// What answers a raise of an event, and the event.
fn raising(
    alloc: Global,
    message: &Message,
    name: &Name,
    value: &Value,
    number: u32,
) -> Result<(Vec<Message>, Event), AllocError>
    ensures { IfOk result (λ both. (messages_of both.0.items
        ≡ telling (id_of message.now.to) (id_of message.now.from) number was_raised)
        × (event_of both.1 ≡ raised_event name.now value.now)) }
{
    let told = tell(alloc, &message.to, &message.from, number, Answer::Raised);
    let before = told?;
    let event = raise_event(name, value)?;
    Ok((before, event))
}

/// An event is raised at it.
fn raise<'f>(
    alloc: Global,
    instance: Instance<'f>,
    message: &Message,
    stamp: u64,
    name: &Name,
    value: &Value,
    number: u32,
) -> Result<Effect<'f>, AllocError>
    ensures { IfOk result (λ e. effect_of e
        ≡ raised_at (instance_of instance.entry) (id_of message.now.from) (id_of message.now.to)
        stamp name.now value.now number (is_over (instance_of instance.entry).machine.progress)) }
{
    if has_ended(&instance.machine.progress) {
        let told = tell(alloc, &message.to, &message.from, number, Answer::Ended);
        let (sent, instance) = with(told, instance)?;
        return Ok(stay(alloc, instance, sent));
    }
    let both = raising(alloc, message, name, value, number);
    let ((before, event), instance) = with(both, instance)?;
    let effect = go_on_from(alloc, instance, &event, stamp, before);
    drop(event);
    effect
}

/// An event reaches it, and nothing is sent before.
fn go_on<'f>(
    alloc: Global,
    instance: Instance<'f>,
    event: &Event,
    stamp: u64,
) -> Result<Effect<'f>, AllocError>
    ensures { IfOk result (λ e. effect_of e
        ≡ goes_on_from (instance_of instance.entry) (event_of event.now) stamp []) }
{
    go_on_from(alloc, instance, event, stamp, Vec::new(alloc))
}

/// The result of a task reaches it.
fn take_result<'f>(
    alloc: Global,
    instance: Instance<'f>,
    stamp: u64,
    task: u32,
    answer: &Answer,
) -> Result<Effect<'f>, AllocError>
    ensures { IfOk result (λ e. effect_of e
        ≡ result_at (instance_of instance.entry) stamp task (answer_of answer.now)
        (is_over (instance_of instance.entry).machine.progress)) }
{
    if has_ended(&instance.machine.progress) {
        return Ok(stay(alloc, instance, Vec::new(alloc)));
    }
    let (answer, instance) = with(copy_answer(answer), instance)?;
    let event = Event::Resulted(task, answer);
    let effect = go_on(alloc, instance, &event, stamp);
    drop(event);
    effect
}

/// A grant reaches it at its end: it gives the set back.
fn grant_late<'f>(
    alloc: Global,
    mut instance: Instance<'f>,
    stamp: u64,
    task: u32,
) -> Result<Effect<'f>, AllocError>
    ensures { IfOk result (λ e. effect_of e
        ≡ granted_at (instance_of instance.entry) stamp task true) }
{
    let event = Event::Granted(task);
    let made = advance(&mut instance.machine, alloc, &event, stamp);
    drop(event);
    let (made, instance) = with(made, instance)?;
    Ok(Effect {
        instance: Some(instance),
        sent: made.messages,
        asked: Vec::new(alloc),
        gives_up: false,
    })
}

/// A grant reaches it.
fn grant<'f>(
    alloc: Global,
    instance: Instance<'f>,
    stamp: u64,
    task: u32,
) -> Result<Effect<'f>, AllocError>
    ensures { IfOk result (λ e. effect_of e
        ≡ granted_at (instance_of instance.entry) stamp task
        (is_over (instance_of instance.entry).machine.progress)) }
{
    if has_ended(&instance.machine.progress) {
        return grant_late(alloc, instance, stamp, task);
    }
    let event = Event::Granted(task);
    let effect = go_on(alloc, instance, &event, stamp);
    drop(event);
    effect
}

/// It is started again, which is refused.
fn start_again<'f>(
    alloc: Global,
    instance: Instance<'f>,
    from: &Id,
    to: &Id,
    reply: &Reply,
) -> Result<Effect<'f>, AllocError>
    ensures { IfOk result (λ e. effect_of e
        ≡ stays_so (instance_of instance.entry).machine (instance_of instance.entry).waiting
        (refusing (id_of to.now) (id_of from.now) (reply_of reply.now) was_there
        (codes "exists"))) }
{
    let refusal = refuse(alloc, to, from, reply, Answer::Exists, "exists");
    let (sent, instance) = with(refusal, instance)?;
    Ok(stay(alloc, instance, sent))
}

/// A client is told how it stands.
fn tell_standing(
    alloc: Global,
    progress: &Progress,
    from: &Id,
    to: &Id,
    number: u32,
) -> Result<Vec<Message>, AllocError>
    ensures { IfOk result (λ sent. messages_of sent.items
        ≡ telling (id_of to.now) (id_of from.now) number (standing (progress_of progress.now))) }
{
    let answer = stand(progress)?;
    tell(alloc, to, from, number, answer)
}

/// A client asks how it stands.
fn query<'f>(
    alloc: Global,
    instance: Instance<'f>,
    from: &Id,
    to: &Id,
    number: u32,
) -> Result<Effect<'f>, AllocError>
    ensures { IfOk result (λ e. effect_of e
        ≡ stays_so (instance_of instance.entry).machine (instance_of instance.entry).waiting
        (telling (id_of to.now) (id_of from.now) number
        (standing (instance_of instance.entry).machine.progress))) }
{
    let told = tell_standing(alloc, &instance.machine.progress, from, to, number);
    let (sent, instance) = with(told, instance)?;
    Ok(stay(alloc, instance, sent))
}

/// A message to an instance that is there, at its new last stamp.
pub(crate) fn to_it<'f>(
    alloc: Global,
    instance: Instance<'f>,
    message: &Message,
    stamp: u64,
) -> Result<Effect<'f>, AllocError>
    ensures { IfOk result (λ e. effect_of e
        ≡ to_present (instance_of instance.entry) (id_of message.now.from) (id_of message.now.to)
        stamp (said_of message.now.body)) }
{
    let from = &message.from;
    let to = &message.to;
    match &message.body {
        Body::Start(_, reply) => start_again(alloc, instance, from, to, reply),
        Body::Query(number) => query(alloc, instance, from, to, *number),
        Body::Wait(number) => wait(alloc, instance, from, to, *number),
        Body::Raise(name, value, number) => raise(
            alloc, instance, message, stamp, name, value, *number,
        ),
        Body::Result(Reply::Task(task), answer) => take_result(
            alloc, instance, stamp, *task, answer,
        ),
        Body::Granted(task) => grant(alloc, instance, stamp, *task),
        _ => Ok(stay(alloc, instance, Vec::new(alloc))),
    }
}
