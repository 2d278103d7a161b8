//! Items, entries and frames to the end of bytes.

ghost use Rattle.std.specs.Prelude.{◌≡◌, ◌++◌, OnOk};
ghost use Rattle.std.specs.List.{All, flat_map};
ghost use Rattle.dura_codec.specs.Spelling.{CanSpellBody, CanSpellOutcome};
ghost use Rattle.dura_value.specs.Views.{body_of};
ghost use Rattle.log_items.specs.Plain.{item_of, items_of, entry_of, entries_of};
ghost use Rattle.part_items.specs.Spelling.{spell_item, spell_three, spell_heading, spell_entry, spell_frame, CanSpellItem, CanSpellEntry, CanSpellFrame};

use crate::tags::{DONE, FIRED, GOT, RAN, TOOK, TRIM};
use dura_codec::{write_id, write_message, write_outcome, write_u16, write_u32, write_u64};
use dura_value::{Id, Message, Outcome};
use log_items::{Entry, Frame, Item};
use std::alloc::AllocError;

#[tactic(auto, unfolding(crate::specs::Spelling::spell_three))]
fn write_three(out: &mut Vec<u8>, a: u64, b: u64, c: u64) -> Result<(), AllocError>
    ensures { OnOk result (out.new.items ≡ out.old.items ++ spell_three a b c) }
{
    write_u64(out, a)?;
    write_u64(out, b)?;
    write_u64(out, c)
}

#[tactic(auto, unfolding(crate::specs::Spelling::spell_heading))]
fn write_heading(
    out: &mut Vec<u8>,
    position: u64,
    incarnation: u64,
    count: u16,
) -> Result<(), AllocError>
    ensures { OnOk result (out.new.items
        ≡ out.old.items ++ spell_heading position incarnation count) }
{
    write_u64(out, position)?;
    write_u64(out, incarnation)?;
    write_u16(out, count)
}

fn write_got(
    out: &mut Vec<u8>,
    src: u32,
    inc: u64,
    pos: u64,
    seq: u64,
    message: &Message,
) -> Result<(), AllocError>
    requires { CanSpellBody (body_of message.now.body) }
    ensures { OnOk result (out.new.items
        ≡ out.old.items ++ spell_item (item_of (Item.Got src inc pos seq message.now))) }
{
    out.push(GOT)?;
    write_u32(out, src)?;
    write_three(out, inc, pos, seq)?;
    write_message(out, message)
}

fn write_ran(out: &mut Vec<u8>, from: &Id, to: &Id, stamp: u64) -> Result<(), AllocError>
    ensures { OnOk result (out.new.items
        ≡ out.old.items ++ spell_item (item_of (Item.Ran from.now to.now stamp))) }
{
    out.push(RAN)?;
    write_id(out, from)?;
    write_id(out, to)?;
    write_u64(out, stamp)
}

fn write_done(out: &mut Vec<u8>, id: &Id, task: u32, outcome: &Outcome) -> Result<(), AllocError>
    requires { CanSpellOutcome outcome.now }
    ensures { OnOk result (out.new.items
        ≡ out.old.items ++ spell_item (item_of (Item.Done id.now task outcome.now))) }
{
    out.push(DONE)?;
    write_id(out, id)?;
    write_u32(out, task)?;
    write_outcome(out, outcome)
}

fn write_fired(out: &mut Vec<u8>, id: &Id, task: u32, stamp: u64) -> Result<(), AllocError>
    ensures { OnOk result (out.new.items
        ≡ out.old.items ++ spell_item (item_of (Item.Fired id.now task stamp))) }
{
    out.push(FIRED)?;
    write_id(out, id)?;
    write_u32(out, task)?;
    write_u64(out, stamp)
}

fn write_trim(out: &mut Vec<u8>, dst: u32, upto: u64, inc: u64, pos: u64) -> Result<(), AllocError>
    ensures { OnOk result (out.new.items
        ≡ out.old.items ++ spell_item (item_of (Item.Trim dst upto inc pos))) }
{
    out.push(TRIM)?;
    write_u32(out, dst)?;
    write_three(out, upto, inc, pos)
}

fn write_item(out: &mut Vec<u8>, item: &Item) -> Result<(), AllocError>
    requires { CanSpellItem (item_of item.now) }
    ensures { OnOk result (out.new.items ≡ out.old.items ++ spell_item (item_of item.now)) }
{
    match item {
        Item::Took(message) => {
            out.push(TOOK)?;
            write_message(out, message)
        }
        Item::Got(src, inc, pos, seq, message) => write_got(out, *src, *inc, *pos, *seq, message),
        Item::Ran(from, to, stamp) => write_ran(out, from, to, *stamp),
        Item::Done(id, task, outcome) => write_done(out, id, *task, outcome),
        Item::Fired(id, task, stamp) => write_fired(out, id, *task, *stamp),
        Item::Trim(dst, upto, inc, pos) => write_trim(out, *dst, *upto, *inc, *pos),
    }
}

fn write_items(out: &mut Vec<u8>, items: &[Item]) -> Result<(), AllocError>
    requires { All CanSpellItem (items_of items.now) }
    ensures { OnOk result (out.new.items
        ≡ out.old.items ++ flat_map spell_item (items_of items.now)) }
{
    for item in items {
        write_item(out, item)?;
    }
    Ok(())
}

#[tactic(auto, unfolding(crate::specs::Spelling::spell_entry))]
fn write_entry(out: &mut Vec<u8>, entry: &Entry) -> Result<(), AllocError>
    requires { CanSpellEntry (entry_of entry.now) }
    ensures { OnOk result (out.new.items ≡ out.old.items ++ spell_entry (entry_of entry.now)) }
{
    let items = entry.items.as_slice();
    write_heading(out, entry.position, entry.incarnation, items.len() as u16)?;
    write_items(out, items)
}

fn write_entries(out: &mut Vec<u8>, entries: &[Entry]) -> Result<(), AllocError>
    requires { All CanSpellEntry (entries_of entries.now) }
    ensures { OnOk result (out.new.items
        ≡ out.old.items ++ flat_map spell_entry (entries_of entries.now)) }
{
    for entry in entries {
        write_entry(out, entry)?;
    }
    Ok(())
}

/// Appends a frame of at most 64 entries of at most 64 items.
pub fn write_frame(out: &mut Vec<u8>, frame: &Frame) -> Result<(), AllocError>
    requires { CanSpellFrame (entries_of frame.now) }
    ensures { OnOk result (out.new.items ≡ out.old.items ++ spell_frame (entries_of frame.now)) }
{
    let entries = frame.entries();
    write_u16(out, entries.len() as u16)?;
    write_entries(out, entries)
}
