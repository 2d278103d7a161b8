//! A message reaches its receiver.

ghost use Rattle.std.specs.Prelude.{◌≡◌, ◌<◌, ◌&&◌, Some, map, IfOk, OnOk};
ghost use Rattle.dura_value.specs.Ids.{entity, client};
ghost use Rattle.dura_value.specs.Views.{id_of, body_of as said_of, messages_of};
ghost use Rattle.part_rows.specs.Timers.{InOrder};
ghost use Rattle.dura_model.specs.Deliveries.{to_instance};
ghost use Rattle.dura_value.specs.ById.{at_id};
ghost use Rattle.dura_model.specs.Partition.{instance_at};
ghost use Rattle.part_rows.specs.Parts.{part_of};
ghost use Rattle.part_steps.specs.Outputs.{sent_to, answered_to, answered_of};
ghost use Rattle.part_steps.specs.Reached.{takes_at, instance_reached, delivered_at, entity_reached, reached};

use crate::keeping::{keep, send};
use dura_value::{Answered, Body, Id, Message, Name, Reply, with};
use flow_messages::copy_name;
use part_rows::{PartRows, Reactions, copy_answer};
use std::alloc::{AllocError, Global};

/// Whether a receiver takes what a sender sends it at this stamp.
pub(crate) fn takes_at(rows: &PartRows, from: &Id, to: &Id, stamp: u64) -> bool
    ensures { result ≡ takes_at (part_of rows.now) (id_of from.now) (id_of to.now) stamp }
{
    rows.lets_in(from, to) && rows.last_of(to) <= stamp
}

/// A message reaches an instance. What this sends comes back.
fn reach_instance<R: Reactions>(
    alloc: Global,
    reactions: &R,
    rows: &mut PartRows,
    message: &Message,
    stamp: u64,
) -> Result<Vec<Message>, AllocError>
    requires order { InOrder rows.old.timers }
    requires partitions { 0 < rows.old.partitions }
    ensures sent { IfOk result (λ sent. messages_of sent.items
        ≡ (to_instance (R.flows reactions.now)
        (instance_at (R.flows reactions.now) (part_of rows.old) (id_of message.now.to))
        (id_of message.now.from) (id_of message.now.to) stamp (said_of message.now.body)).sent) }
    ensures stands { OnOk result (part_of rows.new
        ≡ instance_reached (R.flows reactions.now) rows.old.partitions (part_of rows.old)
        (id_of message.now.from) (id_of message.now.to) stamp (said_of message.now.body)) }
    ensures order { OnOk result (InOrder rows.new.timers) }
    ensures partitions { rows.new.partitions ≡ rows.old.partitions }
{
    let row = rows.instances.get(&message.to);
    let made = reactions.react(alloc, row, message, stamp)?;
    let sent = keep(alloc, rows, &message.to, stamp, made)?;
    Ok(sent)
}

/// An entity of this class is kept as a message made it. What it sent comes back.
fn change_entity<R: Reactions>(
    alloc: Global,
    reactions: &R,
    rows: &mut PartRows,
    class: &Name,
    message: &Message,
    stamp: u64,
) -> Result<Vec<Message>, AllocError>
    ensures sent { IfOk result (λ sent. messages_of sent.items
        ≡ (delivered_at (R.flows reactions.now) (part_of rows.old) class.now
        (id_of message.now.from) (id_of message.now.to) stamp (said_of message.now.body)).sent) }
    ensures kept { OnOk result (part_of rows.new
        ≡ record (part_of rows.old) {
          entities = at_id (part_of rows.old).entities (id_of message.now.to)
              (Some (delivered_at (R.flows reactions.now) (part_of rows.old) class.now
              (id_of message.now.from) (id_of message.now.to) stamp (said_of message.now.body)).entity);
        }) }
    ensures timers { rows.new.timers ≡ rows.old.timers }
    ensures partitions { rows.new.partitions ≡ rows.old.partitions }
{
    let kept = rows.take_entity(alloc, &message.to)?;
    let (entity, sent) = reactions.deliver(alloc, class, kept, message, stamp)?;
    let (_, sent) = with(rows.put_entity(alloc, &message.to, entity), sent)?;
    Ok(sent)
}

/// A message reaches an entity of this class. What this sends comes back.
fn reach_entity<R: Reactions>(
    alloc: Global,
    reactions: &R,
    rows: &mut PartRows,
    class: &Name,
    message: &Message,
    stamp: u64,
) -> Result<Vec<Message>, AllocError>
    requires partitions { 0 < rows.old.partitions }
    ensures sent { IfOk result (λ sent. messages_of sent.items
        ≡ (delivered_at (R.flows reactions.now) (part_of rows.old) class.now
        (id_of message.now.from) (id_of message.now.to) stamp (said_of message.now.body)).sent) }
    ensures stands { OnOk result (part_of rows.new
        ≡ entity_reached (R.flows reactions.now) rows.old.partitions (part_of rows.old) class.now
        (id_of message.now.from) (id_of message.now.to) stamp (said_of message.now.body)) }
    ensures timers { rows.new.timers ≡ rows.old.timers }
    ensures partitions { rows.new.partitions ≡ rows.old.partitions }
{
    let sent = change_entity(alloc, reactions, rows, class, message, stamp)?;
    let sent = send(alloc, rows, sent)?;
    Ok(sent)
}

/// The answer that a client keeps of what reaches it: the one to a request that was taken.
pub(crate) fn answers_to(
    alloc: Global,
    rows: &PartRows,
    to: &Id,
    body: &Body,
) -> Result<Vec<Answered>, AllocError>
    ensures { IfOk result (λ answers. map answered_of answers.items
        ≡ answered_to (part_of rows.now) (id_of to.now) (Some (said_of body.now))) }
{
    let mut answers = Vec::new(alloc);
    let (Id::Client(name), Body::Result(Reply::Request(number), answer)) = (to, body) else {
        return Ok(answers);
    };
    if rows.has_taken(to, *number) {
        answers.push(Answered {
            client: copy_name(name)?,
            number: *number,
            answer: copy_answer(answer)?,
        })?;
    }
    Ok(answers)
}

/// A message reaches its receiver. What this sends comes back.
pub(crate) fn reach<R: Reactions>(
    alloc: Global,
    reactions: &R,
    rows: &mut PartRows,
    message: &Message,
    stamp: u64,
) -> Result<Vec<Message>, AllocError>
    requires order { InOrder rows.old.timers }
    requires partitions { 0 < rows.old.partitions }
    ensures sent { IfOk result (λ sent. messages_of sent.items
        ≡ sent_to (R.flows reactions.now) (part_of rows.old) (id_of message.now.from)
        (id_of message.now.to) stamp (said_of message.now.body)) }
    ensures stands { OnOk result (part_of rows.new
        ≡ reached (R.flows reactions.now) rows.old.partitions (part_of rows.old)
        (id_of message.now.from) (id_of message.now.to) stamp (said_of message.now.body)) }
    ensures order { OnOk result (InOrder rows.new.timers) }
    ensures partitions { rows.new.partitions ≡ rows.old.partitions }
{
    match &message.to {
        Id::Flow(_, _) => {
            let sent = reach_instance(alloc, reactions, rows, message, stamp)?;
            Ok(sent)
        }
        Id::Entity(class, _) => {
            let sent = reach_entity(alloc, reactions, rows, class, message, stamp)?;
            Ok(sent)
        }
        Id::Client(_) => {
            rows.receive(alloc, &message.to, &message.body)?;
            Ok(Vec::new(alloc))
        }
    }
}
