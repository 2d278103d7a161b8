//! What a message makes of an entity.

ghost use Rattle.std.specs.Prelude.{◌≡◌, ◌∷◌, [], Some, suc, codes, if◌then◌else◌, option_map, IfOk, OnOk};
ghost use Rattle.dura_value.specs.Messages.{entity_at, is_value, is_missing, to_request};
ghost use Rattle.dura_value.specs.Views.{id_of, reply_of, answer_of, body_of as said_of, messages_of, spots_of};
ghost use Rattle.flow_syntax.specs.Views.{block_of, flows_of};
ghost use Rattle.flow_syntax.specs.Entity.{answering, operated, operation_of, body_answer, new_value, lock_goes_on, deliver};
ghost use Rattle.flow_syntax.specs.Machine.{go, most_steps};
ghost use Rattle.flow_machine.specs.Views.{machine_of, progress_of, body_of};
ghost use Rattle.flow_messages.specs.Views.{entity_of};
ghost use Rattle.flow_replay.specs.Resuming.{begun};
ghost use Rattle.flow_replay.specs.Entities.{Delivers, Finishes, body_run, shown_class};

use crate::going::go;
use crate::resume::{give, run_body};
use dura_value::{Answer, Body, Id, Message, Name, Reply, Spots, Value};
use flow_machine::{Machine, Progress, put};
use flow_messages::{
    Entity, Made, answer_reply, copy_id, copy_text, copy_value, pass_on, word_text,
};
use flow_syntax::{Class, Flows, Stmt};
use std::alloc::{AllocError, Global};

/// Runs the body of an operation, with the entity's value and the argument.
fn run_operation<'f>(
    machine: &mut Machine<'f>,
    alloc: Global,
    value: &Value,
    argument: &Value,
    body: &'f [Stmt],
) -> Result<(), AllocError>
    ensures { OnOk result (machine_of machine.new
        ≡ (go most_steps (begun (machine_of machine.old)
        ((codes "self", value.now) ∷ (codes "arg", argument.now) ∷ [])
        (block_of body.now))).machine) }
{
    run_body(machine, alloc, body)?;
    give(machine, alloc, b"self", value)?;
    give(machine, alloc, b"arg", argument)?;
    let mut made = Made::new(alloc);
    let gone = go(machine, alloc, &mut made);
    drop(made);
    gone
}

/// The value that an operation's body returned, or its fault.
fn end_answer(alloc: Global, progress: &Progress) -> Result<Answer, AllocError>
    ensures { IfOk result (λ answer. answer_of answer ≡ body_answer (progress_of progress.now)) }
{
    match progress {
        Progress::Done(value) => Ok(Answer::Done(copy_value(value)?)),
        Progress::Failed(text) => Ok(Answer::Failed(copy_text(text)?)),
        Progress::Unborn | Progress::Running => Ok(Answer::Failed(word_text(alloc, "")?)),
    }
}

/// An operation of a class, where both are known.
fn operation_in<'f>(class: Option<&'f Class>, operation: &Name) -> Option<&'f [Stmt]>
    ensures { option_map (λ b. block_of b.now) result
        ≡ operation_of (option_map shown_class class.entry) operation.now }
{
    match class {
        Some(class) => class.operation(operation),
        None => None,
    }
}

/// Its value is what the end of an operation's body makes of it: that of `self`, and after a fault what it was.
fn keep(alloc: Global, entity: &mut Entity, end: &Machine<'_>) -> Result<(), AllocError>
    ensures { OnOk result (entity_of entity.new
        ≡ record (entity_of entity.old) {
          value = new_value entity.old.value (machine_of end.now).variables
              (machine_of end.now).progress;
        }) }
{
    if let Progress::Done(_) = &end.progress {
        if let Some(value) = end.variables.get(&Name::of(alloc, b"self")?) {
            put(&mut entity.value, copy_value(value)?);
        }
    }
    Ok(())
}

/// The body of an operation runs on a machine, and its end answers.
fn finish<'f>(
    alloc: Global,
    entity: &mut Entity,
    machine: &mut Machine<'f>,
    argument: &Value,
    body: &'f [Stmt],
) -> Result<Answer, AllocError>
    ensures { IfOk result (λ answer.
        Finishes answer entity.new (entity_of entity.old)
        (go most_steps (begun (machine_of machine.old)
        ((codes "self", entity.old.value) ∷ (codes "arg", argument.now) ∷ [])
        (block_of body.now))).machine) }
{
    run_operation(machine, alloc, &entity.value, argument, body)?;
    keep(alloc, entity, machine)?;
    end_answer(alloc, &machine.progress)
}

/// An operation's body runs, and its end answers.
#[tactic(auto, unfolding(crate::specs::Entities::body_run))]
fn run(
    alloc: Global,
    entity: &mut Entity,
    at: &Id,
    argument: &Value,
    body: &[Stmt],
) -> Result<Answer, AllocError>
    ensures { IfOk result (λ answer.
        Finishes answer entity.new (entity_of entity.old)
        (body_run (id_of at.now) entity.old.value argument.now (block_of body.now))) }
{
    let mut machine = Machine::new(alloc, at, None)?;
    let answer = finish(alloc, entity, &mut machine, argument, body);
    drop(machine);
    answer
}

/// An operation, where the class has it.
#[tactic(auto, unfolding(crate::specs::Entities::body_run))]
fn operate(
    alloc: Global,
    entity: &mut Entity,
    message: &Message,
    body: Option<&[Stmt]>,
    argument: &Value,
    reply: &Reply,
) -> Result<Vec<Message>, AllocError>
    ensures { IfOk result (λ sent. Delivers sent.items entity.new
        (operated (entity_of entity.old) (id_of message.now.from) (id_of message.now.to)
        argument.now (reply_of reply.now) (option_map body_of body.entry))) }
{
    let answer = match body {
        Some(body) => run(alloc, entity, &message.to, argument, body)?,
        None => Answer::Failed(word_text(alloc, "unknown")?),
    };
    answer_reply(alloc, &message.to, &message.from, reply, answer)
}

/// Its value is asked for by a client's request, where its class is known.
fn tell_value(
    alloc: Global,
    entity: &Entity,
    message: &Message,
    known: bool,
    number: u32,
) -> Result<Vec<Message>, AllocError>
    ensures { IfOk result (λ sent. messages_of sent.items
        ≡ answering (id_of message.now.to) (id_of message.now.from) (to_request number)
        (if known then is_value entity.now.value else is_missing)) }
{
    let answer = if known {
        Answer::Value(copy_value(&entity.value)?)
    } else {
        Answer::None
    };
    answer_reply(
        alloc,
        &message.to,
        &message.from,
        &Reply::Request(number),
        answer,
    )
}

/// An operation by its name.
fn take_operation(
    alloc: Global,
    entity: &mut Entity,
    class: Option<&Class>,
    message: &Message,
    operation: &Name,
    argument: &Value,
    reply: &Reply,
) -> Result<Vec<Message>, AllocError>
    ensures { IfOk result (λ sent. Delivers sent.items entity.new
        (operated (entity_of entity.old) (id_of message.now.from) (id_of message.now.to)
        argument.now (reply_of reply.now)
        (operation_of (option_map shown_class class.entry) operation.now))) }
{
    let body = operation_in(class, operation);
    operate(alloc, entity, message, body, argument, reply)
}

/// A lock is taken for the instance of this id, and goes on.
fn take_lock(
    alloc: Global,
    entity: &mut Entity,
    at: &Id,
    id: &Id,
    task: u32,
    set: &Spots,
    index: u8,
) -> Result<Vec<Message>, AllocError>
    ensures { IfOk result (λ sent. Delivers sent.items entity.new
        (record {
          entity = record (entity_of entity.old) { holder = Some (id_of id.now) };
          sent =
              lock_goes_on (id_of at.now) (id_of id.now) task (spots_of set.now) (suc index)
              (entity_at (spots_of set.now) (suc index)) ∷ [];
        })) }
{
    put(&mut entity.holder, Some(copy_id(id)?));
    let next = pass_on(at, id, task, set, index as usize + 1)?;
    let mut sent = Vec::new(alloc);
    sent.push(next)?;
    Ok(sent)
}

/// What a message makes of an entity of this class that takes it: what it sent. What it doesn't know is dropped.
pub fn deliver(
    alloc: Global,
    entity: &mut Entity,
    flows: &Flows,
    class: &Name,
    message: &Message,
) -> Result<Vec<Message>, AllocError>
    ensures { IfOk result (λ sent. Delivers sent.items entity.new
        (deliver (flows_of flows.now) (entity_of entity.old) class.now (id_of message.now.from)
        (id_of message.now.to) (said_of message.now.body))) }
{
    let class = flows.class_of(class);
    match &message.body {
        Body::Op(operation, argument, reply) => {
            take_operation(alloc, entity, class, message, operation, argument, reply)
        }
        Body::Query(number) => tell_value(alloc, entity, message, class.is_some(), *number),
        Body::Lock(id, task, set, index) => {
            take_lock(alloc, entity, &message.to, id, *task, set, *index)
        }
        Body::Release => {
            entity.holder = None;
            Ok(Vec::new(alloc))
        }
        _ => Ok(Vec::new(alloc)),
    }
}
