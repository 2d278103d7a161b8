//! A frame of 64 entries of 64 items, of four kinds by turns.

ghost use Rattle.std.specs.Prelude.{◌≤◌, IfOk, length};
ghost use Rattle.std.specs.List.{All};
ghost use Rattle.log_items.specs.Plain.{item_of, items_of, entry_of, entries_of};
ghost use Rattle.part_items.specs.Spelling.{CanSpellItem, CanSpellEntry, CanSpellFrame};

use dura_value::{Body, Id, Message, Name, Outcome, ReadError, Text, Value};
use log_items::{Entry, Frame, Item, Items};
use std::alloc::Global;

/// The client that asks, the flow that it asks for, and the entity that the flow asks.
const CLIENT: &[u8] = b"#c0";

const FLOW: &[u8] = b"Work/w1";

const ENTITY: &[u8] = b"@Pot/p0";

/// All numbers of tasks and requests, and all stamps.
const NUMBER: u32 = 2048;

fn make_took(alloc: Global, long: &[u8]) -> Result<Item, ReadError>
    ensures { IfOk result (λ i. CanSpellItem (item_of i)) }
{
    match (
        Id::read(alloc, CLIENT),
        Id::read(alloc, FLOW),
        Name::of(alloc, b"go"),
        Text::read(alloc, long),
    ) {
        (Ok(from), Ok(to), Ok(event), Ok(text)) => Ok(Item::Took(Message {
            from,
            to,
            body: Body::Raise(event, Value::Text(text), NUMBER),
        })),
        _ => Err(ReadError::Memory),
    }
}

fn make_ran(alloc: Global) -> Result<Item, ReadError>
    ensures { IfOk result (λ i. CanSpellItem (item_of i)) }
{
    match (Id::read(alloc, FLOW), Id::read(alloc, ENTITY)) {
        (Ok(from), Ok(to)) => Ok(Item::Ran(from, to, NUMBER as u64)),
        _ => Err(ReadError::Memory),
    }
}

fn make_done(alloc: Global, long: &[u8]) -> Result<Item, ReadError>
    ensures { IfOk result (λ i. CanSpellItem (item_of i)) }
{
    match (Id::read(alloc, FLOW), Text::read(alloc, long)) {
        (Ok(id), Ok(text)) => Ok(Item::Done(id, NUMBER, Outcome::Done(Value::Text(text)))),
        _ => Err(ReadError::Memory),
    }
}

fn make_fired(alloc: Global) -> Result<Item, ReadError>
    ensures { IfOk result (λ i. CanSpellItem (item_of i)) }
{
    match Id::read(alloc, FLOW) {
        Ok(id) => Ok(Item::Fired(id, NUMBER, NUMBER as u64)),
        Err(error) => Err(error),
    }
}

fn make_item(alloc: Global, index: u32, long: &[u8]) -> Result<Item, ReadError>
    ensures { IfOk result (λ i. CanSpellItem (item_of i)) }
{
    match index % 4 {
        0 => make_took(alloc, long),
        1 => make_ran(alloc),
        2 => make_done(alloc, long),
        _ => make_fired(alloc),
    }
}

fn make_items(alloc: Global, long: &[u8]) -> Result<Vec<Item>, ReadError>
    ensures few { IfOk result (λ v. length v.items ≤ 64) }
    ensures each { IfOk result (λ v. All CanSpellItem (items_of v.items)) }
{
    let mut items = Vec::new(alloc);
    for index in 0..64u32 {
        items.push(make_item(alloc, index, long)?)?;
    }
    Ok(items)
}

fn make_entry(alloc: Global, position: u64, long: &[u8]) -> Result<Entry, ReadError>
    ensures { IfOk result (λ e. CanSpellEntry (entry_of e)) }
{
    match make_items(alloc, long) {
        Ok(items) => Ok(Entry {
            position,
            incarnation: 1,
            items: Items::of(items),
        }),
        Err(error) => Err(error),
    }
}

/// The frame, with this text wherever one stands.
pub fn make_frame(alloc: Global, long: &[u8]) -> Result<Frame, ReadError>
    ensures { IfOk result (λ f. CanSpellFrame (entries_of f)) }
{
    let mut entries = Vec::new(alloc);
    for position in 0..64u32 {
        entries.push(make_entry(alloc, position as u64, long)?)?;
    }
    Ok(Frame::of(entries))
}
