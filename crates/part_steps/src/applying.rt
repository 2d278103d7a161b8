//! What an item makes of all that a partition knows.

ghost use Rattle.std.specs.Prelude.{◌≡◌, ◌<◌, ◌∷◌, [], Some, None, is_some, map, IfOk, OnOk};
ghost use Rattle.dura_value.specs.Items.{ran, ended, fired};
ghost use Rattle.dura_value.specs.Views.{id_of, answer_of, body_of as said_of, message_of, messages_of, identity_of};
ghost use Rattle.part_rows.specs.Timers.{InOrder};
ghost use Rattle.log_items.specs.Plain.{item_of};
ghost use Rattle.dura_model.specs.Steps.{answer_of as answer_to};
ghost use Rattle.dura_model.specs.Partition.{raised_to, got_in, trim_in, accepted};
ghost use Rattle.dura_value.specs.ById.{at_number};
ghost use Rattle.part_rows.specs.Accepts.{accepted_request};
ghost use Rattle.part_rows.specs.Parts.{part_of};
ghost use Rattle.part_rows.specs.Reactions.{reaction_of};
ghost use Rattle.part_steps.specs.Applied.{Applied};
ghost use Rattle.part_steps.specs.Kept.{kept_in};
ghost use Rattle.part_steps.specs.Outputs.{sent_to, answered_to, answered_of, outputs_by, outputs_of};
ghost use Rattle.part_steps.specs.Reached.{fires_at, reached};

use crate::keeping::keep;
use crate::reaching::{answers_to, reach, takes_at};
use dura_value::{
    Answer, Answered, Answers, Id, Identity, Message, Messages, Outcome, Outputs, with,
};
use flow_messages::{Event, copy_text, copy_value};
use log_items::Item;
use part_rows::{PartRows, Reaction, Reactions, copy_message};
use std::alloc::{AllocError, Global};

/// What a step sends and which requests it answers, as one value.
fn outputs(sent: Vec<Message>, answers: Vec<Answered>) -> Outputs
    ensures { outputs_of result ≡ record
        { sent = messages_of sent.items; answers = map answered_of answers.items } }
{
    Outputs {
        messages: Messages::of(sent),
        answers: Answers::of(answers),
    }
}

/// Outputs without answers.
fn sent_alone(alloc: Global, sent: Vec<Message>) -> Outputs
    ensures { outputs_of result ≡ record { sent = messages_of sent.items; answers = [] } }
{
    outputs(sent, Vec::new(alloc))
}

/// A request of a client is taken.
fn take(
    alloc: Global,
    rows: &mut PartRows,
    message: &Message,
) -> Result<Option<Outputs>, AllocError>
    requires { 0 < rows.old.partitions }
    ensures applied { IfOk result (λ made.
        Applied made (part_of rows.old) (part_of rows.new)
        (accepted_request rows.old.partitions (part_of rows.old) (message_of message.now))
        (record { sent = message_of message.now ∷ []; answers = [] })) }
    ensures timers { rows.new.timers ≡ rows.old.timers }
    ensures partitions { rows.new.partitions ≡ rows.old.partitions }
{
    if !rows.take(alloc, message)? {
        return Ok(None);
    }
    let copy = copy_message(message)?;
    let mut sent = Vec::new(alloc);
    sent.push(copy)?;
    Ok(Some(sent_alone(alloc, sent)))
}

/// The next message of a stream comes in.
fn get(
    alloc: Global,
    rows: &mut PartRows,
    source: Identity,
    number: u64,
    message: &Message,
) -> Result<Option<Outputs>, AllocError>
    requires { 0 < rows.old.partitions }
    ensures applied { IfOk result (λ made.
        Applied made (part_of rows.old) (part_of rows.new)
        (got_in rows.old.partitions (part_of rows.old) (identity_of source) number
        (message_of message.now)) (record { sent = []; answers = [] })) }
    ensures timers { rows.new.timers ≡ rows.old.timers }
    ensures partitions { rows.new.partitions ≡ rows.old.partitions }
{
    if !rows.got(alloc, &source, number, copy_message(message)?)? {
        return Ok(None);
    }
    Ok(Some(sent_alone(alloc, Vec::new(alloc))))
}

/// A stream is let go of.
fn let_go(
    alloc: Global,
    rows: &mut PartRows,
    reader: Identity,
    number: u64,
) -> Result<Option<Outputs>, AllocError>
    ensures applied { IfOk result (λ made.
        Applied made (part_of rows.old) (part_of rows.new)
        (trim_in rows.old.partitions (part_of rows.old) (identity_of reader) number)
        (record { sent = []; answers = [] })) }
    ensures timers { rows.new.timers ≡ rows.old.timers }
    ensures partitions { rows.new.partitions ≡ rows.old.partitions }
{
    if !rows.trim(alloc, &reader, number)? {
        return Ok(None);
    }
    Ok(Some(sent_alone(alloc, Vec::new(alloc))))
}

/// A message that left the queue reaches its receiver, who takes it.
fn reach_first<R: Reactions>(
    alloc: Global,
    reactions: &R,
    rows: &mut PartRows,
    message: &Message,
    stamp: u64,
) -> Result<Outputs, AllocError>
    requires order { InOrder rows.old.timers }
    requires partitions { 0 < rows.old.partitions }
    ensures outputs { IfOk result (λ made. outputs_of made
        ≡ record {
          sent = sent_to (R.flows reactions.now) (raised_to stamp (part_of rows.old))
              (id_of message.now.from) (id_of message.now.to) stamp (said_of message.now.body);
          answers =
              answered_to (raised_to stamp (part_of rows.old)) (id_of message.now.to)
              (Some (said_of message.now.body));
        }) }
    ensures stands { OnOk result (part_of rows.new
        ≡ reached (R.flows reactions.now) rows.old.partitions (raised_to stamp (part_of rows.old))
        (id_of message.now.from) (id_of message.now.to) stamp (said_of message.now.body)) }
    ensures order { OnOk result (InOrder rows.new.timers) }
    ensures partitions { rows.new.partitions ≡ rows.old.partitions }
{
    rows.raise_to(stamp);
    let answers = answers_to(alloc, rows, &message.to, &message.body)?;
    let sent = reach(alloc, reactions, rows, message, stamp)?;
    Ok(outputs(sent, answers))
}

/// The first message of a link is delivered at this stamp.
fn run<R: Reactions>(
    alloc: Global,
    reactions: &R,
    rows: &mut PartRows,
    from: &Id,
    to: &Id,
    stamp: u64,
) -> Result<Option<Outputs>, AllocError>
    requires order { InOrder rows.old.timers }
    requires partitions { 0 < rows.old.partitions }
    ensures applied { IfOk result (λ made.
        Applied made (part_of rows.old) (part_of rows.new)
        (accepted (R.flows reactions.now) rows.old.partitions (part_of rows.old)
        (ran (id_of from.now) (id_of to.now) stamp))
        (outputs_by (R.flows reactions.now) (part_of rows.old)
        (ran (id_of from.now) (id_of to.now) stamp))) }
    ensures order { OnOk result (InOrder rows.new.timers) }
    ensures partitions { rows.new.partitions ≡ rows.old.partitions }
{
    if !takes_at(rows, from, to, stamp) {
        return Ok(None);
    }
    let Some(message) = rows.queue.take_first(alloc, from, to)? else {
        return Ok(None);
    };
    let made = reach_first(alloc, reactions, rows, message.get(), stamp);
    drop(message);
    Ok(Some(made?))
}

/// An instance stands as an event made it. What it sends comes back.
fn keep_event(
    alloc: Global,
    rows: &mut PartRows,
    id: &Id,
    stamp: u64,
    made: Reaction,
) -> Result<Outputs, AllocError>
    requires order { InOrder rows.old.timers }
    requires partitions { 0 < rows.old.partitions }
    ensures outputs { IfOk result (λ outputs. outputs_of outputs
        ≡ record { sent = (reaction_of made).sent; answers = [] }) }
    ensures stands { OnOk result (part_of rows.new
        ≡ kept_in rows.old.partitions (part_of rows.old) (id_of id.now) stamp (reaction_of made)) }
    ensures order { OnOk result (InOrder rows.new.timers) }
    ensures partitions { rows.new.partitions ≡ rows.old.partitions }
{
    let sent = keep(alloc, rows, id, stamp, made)?;
    Ok(sent_alone(alloc, sent))
}

/// The answer that an outcome becomes.
fn answer_of(outcome: &Outcome) -> Result<Answer, AllocError>
    ensures { IfOk result (λ answer. answer_of answer ≡ answer_to outcome.now) }
{
    match outcome {
        Outcome::Done(value) => Ok(Answer::Done(copy_value(value)?)),
        Outcome::Failed(text) => Ok(Answer::Failed(copy_text(text)?)),
    }
}

/// Whether an activity of an instance's task is pending.
fn is_pending(rows: &PartRows, id: &Id, task: u32) -> bool
    ensures { result ≡ is_some ((part_of rows.now).activities (id_of id.now) task) }
{
    rows.activities.get(id, task).is_some()
}

/// An activity of an instance's task is no longer pending.
fn drop_activity(alloc: Global, rows: &mut PartRows, id: &Id, task: u32) -> Result<(), AllocError>
    ensures dropped { OnOk result (part_of rows.new ≡ record (part_of rows.old)
        { activities = at_number (part_of rows.old).activities (id_of id.now) task None }) }
    ensures timers { rows.new.timers ≡ rows.old.timers }
    ensures partitions { rows.new.partitions ≡ rows.old.partitions }
{
    drop(rows.take_activity(alloc, id, task)?);
    Ok(())
}

/// A pending activity is over.
fn finish<R: Reactions>(
    alloc: Global,
    reactions: &R,
    rows: &mut PartRows,
    id: &Id,
    task: u32,
    outcome: &Outcome,
) -> Result<Option<Outputs>, AllocError>
    requires order { InOrder rows.old.timers }
    requires partitions { 0 < rows.old.partitions }
    ensures applied { IfOk result (λ made.
        Applied made (part_of rows.old) (part_of rows.new)
        (accepted (R.flows reactions.now) rows.old.partitions (part_of rows.old)
        (ended (id_of id.now) task outcome.now))
        (outputs_by (R.flows reactions.now) (part_of rows.old)
        (ended (id_of id.now) task outcome.now))) }
    ensures order { OnOk result (InOrder rows.new.timers) }
    ensures partitions { rows.new.partitions ≡ rows.old.partitions }
{
    if !is_pending(rows, id, task) {
        return Ok(None);
    }
    let Some(row) = rows.instances.get(id) else {
        return Ok(None);
    };
    let stamp = row.stamp;
    let answer = answer_of(outcome)?;
    let made = reactions.go_on(alloc, id, row, Event::Resulted(task, answer), stamp)?;
    let (_, made) = with(drop_activity(alloc, rows, id, task), made)?;
    let outputs = keep_event(alloc, rows, id, stamp, made)?;
    Ok(Some(outputs))
}

/// Whether a timer of an instance's task is pending and due, and the instance's last stamp isn't later.
fn may_fire(rows: &PartRows, id: &Id, task: u32, stamp: u64) -> bool
    ensures { result ≡ fires_at ((part_of rows.now).instances (id_of id.now))
        ((part_of rows.now).timers (id_of id.now) task) stamp }
{
    match (rows.instances.get(id), rows.timers.get(id, task)) {
        (Some(row), Some(due)) => due <= stamp && row.stamp <= stamp,
        _ => false,
    }
}

/// A pending timer fires at this stamp.
fn fire<R: Reactions>(
    alloc: Global,
    reactions: &R,
    rows: &mut PartRows,
    id: &Id,
    task: u32,
    stamp: u64,
) -> Result<Option<Outputs>, AllocError>
    requires order { InOrder rows.old.timers }
    requires partitions { 0 < rows.old.partitions }
    ensures applied { IfOk result (λ made.
        Applied made (part_of rows.old) (part_of rows.new)
        (accepted (R.flows reactions.now) rows.old.partitions (part_of rows.old)
        (fired (id_of id.now) task stamp))
        (outputs_by (R.flows reactions.now) (part_of rows.old) (fired (id_of id.now) task stamp))) }
    ensures order { OnOk result (InOrder rows.new.timers) }
    ensures partitions { rows.new.partitions ≡ rows.old.partitions }
{
    if !may_fire(rows, id, task, stamp) {
        return Ok(None);
    }
    let Some(row) = rows.instances.get(id) else {
        return Ok(None);
    };
    let made = reactions.go_on(alloc, id, row, Event::Fired(task), stamp)?;
    let (_, made) = with(rows.take_timer(alloc, id, task), made)?;
    rows.raise_to(stamp);
    let outputs = keep_event(alloc, rows, id, stamp, made)?;
    Ok(Some(outputs))
}

/// An item is applied to all that a partition knows, where it is accepted; else nothing changes.
pub(crate) fn apply_item<R: Reactions>(
    alloc: Global,
    reactions: &R,
    rows: &mut PartRows,
    item: &Item,
) -> Result<Option<Outputs>, AllocError>
    requires order { InOrder rows.old.timers }
    requires partitions { 0 < rows.old.partitions }
    ensures applied { IfOk result (λ made.
        Applied made (part_of rows.old) (part_of rows.new)
        (accepted (R.flows reactions.now) rows.old.partitions (part_of rows.old) (item_of item.now))
        (outputs_by (R.flows reactions.now) (part_of rows.old) (item_of item.now))) }
    ensures order { OnOk result (InOrder rows.new.timers) }
    ensures partitions { rows.new.partitions ≡ rows.old.partitions }
{
    match item {
        Item::Took(message) => {
            let made = take(alloc, rows, message)?;
            Ok(made)
        }
        Item::Got(partition, incarnation, position, number, message) => {
            let source = identity(*partition, *incarnation, *position);
            let made = get(alloc, rows, source, *number, message)?;
            Ok(made)
        }
        Item::Ran(from, to, stamp) => run(alloc, reactions, rows, from, to, *stamp),
        Item::Done(id, task, outcome) => finish(alloc, reactions, rows, id, *task, outcome),
        Item::Fired(id, task, stamp) => fire(alloc, reactions, rows, id, *task, *stamp),
        Item::Trim(partition, number, incarnation, position) => {
            let reader = identity(*partition, *incarnation, *position);
            let_go(alloc, rows, reader, *number)
        }
    }
}

/// An entry of a partition.
fn identity(partition: u32, incarnation: u64, position: u64) -> Identity
    ensures { identity_of result ≡ record
        { partition = partition; incarnation = incarnation; position = position } }
{
    Identity {
        partition,
        incarnation,
        position,
    }
}
