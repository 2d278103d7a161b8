//! Items, entries and frames from bytes.

ghost use Rattle.std.specs.Prelude.{◌≡◌};
ghost use Rattle.dura_value.specs.Reading.{ReadGives};
ghost use Rattle.dura_codec.specs.Fields.{Takes, several_at, fault_in};
ghost use Rattle.log_items.specs.Plain.{item_of, items_of, entry_of, entries_of};
ghost use Rattle.part_items.specs.Grammar.{took_at, got_at, ran_at, done_at, fired_at, trim_at, item_at, members_at, entry_items_at, entry_at, alone, frame_at, frame_in};

use crate::tags::{DONE, FIRED, GOT, MEMBERS_LIMIT, RAN, TOOK, TRIM};
use dura_codec::{
    FieldError, take_count, take_id, take_message, take_outcome, take_u8, take_u16, take_u32,
};
use dura_value::{ReadError, with};
use log_items::{Entry, Frame, Item, Items};
use std::alloc::Global;

#[tactic(auto, unfolding(crate::specs::Grammar::took_at))]
fn take_took(alloc: Global, bytes: &[u8]) -> Result<(Item, &[u8]), FieldError>
    ensures { Takes item_of result (took_at bytes.now) }
{
    match take_message(alloc, bytes) {
        Ok((message, rest)) => Ok((Item::Took(message), rest)),
        Err(error) => Err(error),
    }
}

#[tactic(auto, unfolding(crate::specs::Grammar::got_at))]
fn take_got(alloc: Global, bytes: &[u8]) -> Result<(Item, &[u8]), FieldError>
    ensures { Takes item_of result (got_at bytes.now) }
{
    let (src, rest) = take_u32(bytes)?;
    let (inc, rest) = take_count(rest)?;
    let (pos, rest) = take_count(rest)?;
    let (seq, rest) = take_count(rest)?;
    match take_message(alloc, rest) {
        Ok((message, rest)) => Ok((Item::Got(src, inc, pos, seq, message), rest)),
        Err(error) => Err(error),
    }
}

#[tactic(auto, unfolding(crate::specs::Grammar::ran_at))]
fn take_ran(alloc: Global, bytes: &[u8]) -> Result<(Item, &[u8]), FieldError>
    ensures { Takes item_of result (ran_at bytes.now) }
{
    let (from, rest) = take_id(alloc, bytes)?;
    let ((to, rest), from) = with(take_id(alloc, rest), from)?;
    match with(with(take_count(rest), from), to) {
        Ok((((stamp, rest), from), to)) => Ok((Item::Ran(from, to, stamp), rest)),
        Err(error) => Err(error),
    }
}

#[tactic(auto, unfolding(crate::specs::Grammar::done_at))]
fn take_done(alloc: Global, bytes: &[u8]) -> Result<(Item, &[u8]), FieldError>
    ensures { Takes item_of result (done_at bytes.now) }
{
    let (id, rest) = take_id(alloc, bytes)?;
    let ((task, rest), id) = with(take_u32(rest), id)?;
    match with(take_outcome(alloc, rest), id) {
        Ok(((outcome, rest), id)) => Ok((Item::Done(id, task, outcome), rest)),
        Err(error) => Err(error),
    }
}

#[tactic(auto, unfolding(crate::specs::Grammar::fired_at))]
fn take_fired(alloc: Global, bytes: &[u8]) -> Result<(Item, &[u8]), FieldError>
    ensures { Takes item_of result (fired_at bytes.now) }
{
    let (id, rest) = take_id(alloc, bytes)?;
    let ((task, rest), id) = with(take_u32(rest), id)?;
    match with(take_count(rest), id) {
        Ok(((stamp, rest), id)) => Ok((Item::Fired(id, task, stamp), rest)),
        Err(error) => Err(error),
    }
}

#[tactic(auto, unfolding(crate::specs::Grammar::trim_at))]
fn take_trim(bytes: &[u8]) -> Result<(Item, &[u8]), FieldError>
    ensures { Takes item_of result (trim_at bytes.now) }
{
    let (dst, rest) = take_u32(bytes)?;
    let (upto, rest) = take_count(rest)?;
    let (inc, rest) = take_count(rest)?;
    match take_count(rest) {
        Ok((pos, rest)) => Ok((Item::Trim(dst, upto, inc, pos), rest)),
        Err(error) => Err(error),
    }
}

/// Reads an item from the front of these bytes.
#[tactic(auto, unfolding(crate::specs::Grammar::item_at))]
fn take_item(alloc: Global, bytes: &[u8]) -> Result<(Item, &[u8]), FieldError>
    ensures { Takes item_of result (item_at bytes.now) }
{
    let (tag, rest) = take_u8(bytes)?;
    match tag {
        TOOK => take_took(alloc, rest),
        GOT => take_got(alloc, rest),
        RAN => take_ran(alloc, rest),
        DONE => take_done(alloc, rest),
        FIRED => take_fired(alloc, rest),
        TRIM => take_trim(rest),
        _ => Err(FieldError::Bad { left: bytes.len() }),
    }
}

/// How many members there are: 1 to 64.
#[tactic(auto, unfolding(crate::specs::Grammar::members_at))]
pub(crate) fn take_members(bytes: &[u8]) -> Result<(u16, &[u8]), FieldError>
    ensures { Takes (λ n. n) result (members_at bytes.now) }
{
    let (count, rest) = take_u16(bytes)?;
    if count == 0 || count > MEMBERS_LIMIT {
        return Err(FieldError::Bad { left: bytes.len() });
    }
    Ok((count, rest))
}

fn take_items(alloc: Global, count: u16, bytes: &[u8]) -> Result<(Vec<Item>, &[u8]), FieldError>
    ensures { Takes (λ v. items_of v.items) result (several_at item_at count bytes.now) }
{
    let mut items = Vec::new(alloc);
    let mut rest = bytes;
    for _ in 0..count {
        let (item, after) = take_item(alloc, rest)?;
        items.push(item)?;
        rest = after;
    }
    Ok((items, rest))
}

/// The items of an entry, of which there are 1 to 64.
#[tactic(auto, unfolding(crate::specs::Grammar::entry_items_at))]
pub(crate) fn take_entry_items(alloc: Global, bytes: &[u8]) -> Result<(Items, &[u8]), FieldError>
    ensures { Takes items_of result (entry_items_at bytes.now) }
{
    let (count, rest) = take_members(bytes)?;
    match take_items(alloc, count, rest) {
        Ok((items, rest)) => Ok((Items::of(items), rest)),
        Err(error) => Err(error),
    }
}

/// Reads an entry from the front of these bytes.
#[tactic(auto, unfolding(crate::specs::Grammar::entry_at))]
fn take_entry(alloc: Global, bytes: &[u8]) -> Result<(Entry, &[u8]), FieldError>
    ensures { Takes entry_of result (entry_at bytes.now) }
{
    let (position, rest) = take_count(bytes)?;
    let (incarnation, rest) = take_count(rest)?;
    let (items, rest) = take_entry_items(alloc, rest)?;
    let entry = Entry {
        position,
        incarnation,
        items,
    };
    Ok((entry, rest))
}

fn take_entries(alloc: Global, count: u16, bytes: &[u8]) -> Result<(Vec<Entry>, &[u8]), FieldError>
    ensures { Takes (λ v. entries_of v.items) result (several_at entry_at count bytes.now) }
{
    let mut entries = Vec::new(alloc);
    let mut rest = bytes;
    for _ in 0..count {
        let (entry, after) = take_entry(alloc, rest)?;
        entries.push(entry)?;
        rest = after;
    }
    Ok((entries, rest))
}

/// The frame of these entries, behind which nothing may follow.
fn whole_frame(entries: Vec<Entry>, rest: &[u8]) -> Result<(Frame, &[u8]), FieldError>
    ensures { Takes entries_of result (alone (entries_of entries.items, rest.now)) }
{
    if !rest.is_empty() {
        return Err(FieldError::Bad { left: rest.len() });
    }
    Ok((Frame::of(entries), rest))
}

#[tactic(auto, unfolding(crate::specs::Grammar::frame_at))]
fn take_frame(alloc: Global, bytes: &[u8]) -> Result<(Frame, &[u8]), FieldError>
    ensures { Takes entries_of result (frame_at bytes.now) }
{
    let (count, rest) = take_members(bytes)?;
    let (entries, rest) = take_entries(alloc, count, rest)?;
    whole_frame(entries, rest)
}

/// Where the fault is, from the start of these bytes.
pub(crate) fn at_offset(error: FieldError, bytes: &[u8]) -> ReadError
    ensures { result ≡ fault_in bytes.now error }
{
    match error {
        FieldError::Bad { left } => ReadError::Bad {
            offset: bytes.len().saturating_sub(left),
        },
        FieldError::Memory => ReadError::Memory,
    }
}

/// The frame that these bytes are, all of them.
pub fn read_frame(alloc: Global, bytes: &[u8]) -> Result<Frame, ReadError>
    ensures { ReadGives entries_of result (frame_in bytes.now) }
{
    match take_frame(alloc, bytes) {
        Ok((frame, _)) => Ok(frame),
        Err(error) => Err(at_offset(error, bytes)),
    }
}
