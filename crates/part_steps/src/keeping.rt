//! An instance is kept as a delivery or an event made it.

ghost use Rattle.std.specs.Prelude.{◌≡◌, ◌<◌, ◌++◌, map, IfOk, OnOk, option_map};
ghost use Rattle.dura_value.specs.Views.{id_of, messages_of};
ghost use Rattle.flow_messages.specs.Views.{event_of, past_of};
ghost use Rattle.part_rows.specs.Timers.{InOrder};
ghost use Rattle.dura_value.specs.ById.{at_id};
ghost use Rattle.dura_model.specs.Partition.{history_of, with_event, post_all, given_up_in};
ghost use Rattle.part_rows.specs.Reactions.{waits_of, reaction_of};
ghost use Rattle.part_rows.specs.Views.{row_of};
ghost use Rattle.part_rows.specs.Parts.{part_of};
ghost use Rattle.part_steps.specs.Kept.{next_row, kept_in};

use dura_value::{Id, Message, with};
use flow_messages::{Event, Past};
use part_rows::{PartRows, Reaction, Row, Waiting, copy_message};
use shared_lists::{Shared, SharedList};
use std::alloc::{AllocError, Global};

/// The history of a row, or none where there is no row.
fn history_in(row: Option<Row>) -> SharedList<Past>
    ensures { map past_of result ≡ history_of (option_map row_of row) }
{
    match row {
        Some(row) => row.history,
        None => SharedList::new(),
    }
}

/// A history with this event behind, if there is one.
fn add_event(
    alloc: Global,
    mut history: SharedList<Past>,
    stamp: u64,
    event: Option<Event>,
) -> Result<SharedList<Past>, AllocError>
    ensures { IfOk result (λ all. map past_of all
        ≡ with_event (map past_of history) stamp (option_map event_of event)) }
{
    if let Some(event) = event {
        history.push(alloc, Past { event, stamp })?;
    }
    Ok(history)
}

/// The row of an instance for whose end these wait, after a delivery or an event at this stamp.
fn next_row(
    alloc: Global,
    row: Option<Row>,
    stamp: u64,
    event: Option<Event>,
    waiting: Vec<Waiting>,
) -> Result<Row, AllocError>
    ensures { IfOk result (λ next. row_of next
        ≡ next_row (option_map row_of row) stamp (option_map event_of event)
        (waits_of waiting.items)) }
{
    let added = add_event(alloc, history_in(row), stamp, event);
    let (history, waiting) = with(added, waiting)?;
    let (waiting, history) = with(Shared::new(alloc, waiting), history)?;
    Ok(Row {
        stamp,
        history,
        waiting,
    })
}

/// The row of an instance after a delivery or an event at this stamp, or none where the instance isn't there.
fn next_or_none(
    alloc: Global,
    row: Option<Row>,
    stamp: u64,
    event: Option<Event>,
    waiting: Option<Vec<Waiting>>,
) -> Result<Option<Row>, AllocError>
    ensures { IfOk result (λ next. option_map row_of next
        ≡ option_map (next_row (option_map row_of row) stamp (option_map event_of event))
        (option_map (λ w. waits_of w.items) waiting)) }
{
    match waiting {
        Some(waiting) => {
            let next = next_row(alloc, row, stamp, event, waiting)?;
            Ok(Some(next))
        }
        None => {
            drop(row);
            drop(event);
            Ok(None)
        }
    }
}

/// An instance has the row that a delivery or an event at this stamp makes of its row, or none where it isn't there.
fn put_row(
    alloc: Global,
    rows: &mut PartRows,
    id: &Id,
    stamp: u64,
    event: Option<Event>,
    waiting: Option<Vec<Waiting>>,
) -> Result<(), AllocError>
    ensures put { OnOk result (part_of rows.new
        ≡ record (part_of rows.old) {
          instances = at_id (part_of rows.old).instances (id_of id.now)
              (option_map (next_row ((part_of rows.old).instances (id_of id.now)) stamp
              (option_map event_of event)) (option_map (λ w. waits_of w.items) waiting));
        }) }
    ensures timers { rows.new.timers ≡ rows.old.timers }
    ensures partitions { rows.new.partitions ≡ rows.old.partitions }
{
    let row = rows.take_instance(alloc, id)?;
    let next = next_or_none(alloc, row, stamp, event, waiting)?;
    rows.replace_instance(alloc, id, next)?;
    Ok(())
}

/// What is pending of an instance is given up, if so it is.
fn give_up_if(alloc: Global, rows: &mut PartRows, id: &Id, gives_up: bool) -> Result<(), AllocError>
    requires { InOrder rows.old.timers }
    ensures given_up { OnOk result (part_of rows.new
        ≡ given_up_in (part_of rows.old) (id_of id.now) gives_up) }
    ensures order { OnOk result (InOrder rows.new.timers) }
    ensures partitions { rows.new.partitions ≡ rows.old.partitions }
{
    if gives_up {
        rows.give_up(alloc, id)?;
    }
    Ok(())
}

/// Copies of messages come behind the others.
fn add_copies(copies: &mut Vec<Message>, messages: &[Message]) -> Result<(), AllocError>
    ensures { OnOk result (copies.new.items ≡ copies.old.items ++ messages.now) }
{
    for message in messages {
        let copy = copy_message(message)?;
        copies.push(copy)?;
    }
    Ok(())
}

/// Copies of messages.
fn copy_messages(alloc: Global, messages: &[Message]) -> Result<Vec<Message>, AllocError>
    ensures { IfOk result (λ copies. copies.items ≡ messages.now) }
{
    let mut copies = Vec::new(alloc);
    let added = add_copies(&mut copies, messages);
    let (_, copies) = with(added, copies)?;
    Ok(copies)
}

/// Messages are posted, and come back as outputs.
pub(crate) fn send(
    alloc: Global,
    rows: &mut PartRows,
    messages: Vec<Message>,
) -> Result<Vec<Message>, AllocError>
    requires { 0 < rows.old.partitions }
    ensures sent { IfOk result (λ sent. messages_of sent.items ≡ messages_of messages.items) }
    ensures posted { OnOk result (part_of rows.new
        ≡ post_all rows.old.partitions (part_of rows.old) (messages_of messages.items)) }
    ensures timers { rows.new.timers ≡ rows.old.timers }
    ensures partitions { rows.new.partitions ≡ rows.old.partitions }
{
    let (copies, messages) = with(copy_messages(alloc, &messages), messages)?;
    let (_, copies) = with(rows.post_all(alloc, messages), copies)?;
    Ok(copies)
}

/// An instance stands as a delivery or an event made it. What it sent comes back.
pub(crate) fn keep(
    alloc: Global,
    rows: &mut PartRows,
    id: &Id,
    stamp: u64,
    made: Reaction,
) -> Result<Vec<Message>, AllocError>
    requires order { InOrder rows.old.timers }
    requires partitions { 0 < rows.old.partitions }
    ensures sent { IfOk result (λ sent. messages_of sent.items ≡ (reaction_of made).sent) }
    ensures stands { OnOk result (part_of rows.new
        ≡ kept_in rows.old.partitions (part_of rows.old) (id_of id.now) stamp (reaction_of made)) }
    ensures order { OnOk result (InOrder rows.new.timers) }
    ensures partitions { rows.new.partitions ≡ rows.old.partitions }
{
    put_row(alloc, rows, id, stamp, made.event, made.waiting)?;
    give_up_if(alloc, rows, id, made.gives_up)?;
    rows.ask_all(alloc, id, made.asked)?;
    let sent = send(alloc, rows, made.sent)?;
    Ok(sent)
}
