//! Copies of entries.

ghost use Rattle.std.specs.Prelude.{◌≡◌, IfOk};
ghost use Rattle.log_items.specs.Plain.{entry_of};

use flow_messages::{copy_id, copy_outcome};
use log_items::{Entry, Item, Items};
use part_rows::copy_message;
use std::alloc::{AllocError, Global};

/// A copy of an item.
fn copy_item(item: &Item) -> Result<Item, AllocError>
    ensures { IfOk result (λ copy. copy ≡ item.now) }
{
    Ok(match item {
        Item::Took(message) => Item::Took(copy_message(message)?),
        Item::Got(src, inc, pos, seq, message) => {
            Item::Got(*src, *inc, *pos, *seq, copy_message(message)?)
        }
        Item::Ran(from, to, stamp) => Item::Ran(copy_id(from)?, copy_id(to)?, *stamp),
        Item::Done(id, task, outcome) => Item::Done(copy_id(id)?, *task, copy_outcome(outcome)?),
        Item::Fired(id, task, stamp) => Item::Fired(copy_id(id)?, *task, *stamp),
        Item::Trim(dst, upto, inc, pos) => Item::Trim(*dst, *upto, *inc, *pos),
    })
}

/// Copies of items.
#[tactic(auto, using(crate::proofs::Copying::one_copied))]
fn copy_items(alloc: Global, items: &[Item]) -> Result<Vec<Item>, AllocError>
    ensures { IfOk result (λ copies. copies.items ≡ items.now) }
{
    let mut copies = Vec::with_capacity(alloc, items.len())?;
    for item in items {
        copies.push(copy_item(item)?)?;
    }
    Ok(copies)
}

/// A copy of an entry: its position, its incarnation and copies of its items.
pub fn copy_entry(alloc: Global, entry: &Entry) -> Result<Entry, AllocError>
    ensures { IfOk result (λ copy. entry_of copy ≡ entry_of entry.now) }
{
    let items = copy_items(alloc, entry.items.as_slice())?;
    Ok(Entry {
        position: entry.position,
        incarnation: entry.incarnation,
        items: Items::of(items),
    })
}
