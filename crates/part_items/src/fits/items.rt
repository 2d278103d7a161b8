//! Which items are within the limits of the format.

ghost use Rattle.std.specs.Prelude.{◌≡◌, true, false};
ghost use Rattle.std.specs.Bool.{Decides};
ghost use Rattle.dura_value.specs.Items.{Identity};
ghost use Rattle.log_items.specs.Plain.{item_of};
ghost use Rattle.part_items.specs.Fits.{FitsCount};
ghost use Rattle.part_items.specs.ItemFits.{FitsIdentity, FitsItem};

use crate::fits::messages::{every_id_fits, message_fits, outcome_fits};
use dura_value::NUMBER_LIMIT;
use log_items::Item;

/// The highest bit of a number is clear.
fn count_fits(number: u64) -> bool
    ensures { Decides result (FitsCount number) }
{
    number < NUMBER_LIMIT
}

/// An entry of another partition: its number of 32 bits can't pass a limit.
fn identity_fits(partition: u32, incarnation: u64, position: u64) -> bool
    ensures { Decides result (FitsIdentity
        (record { partition = partition; incarnation = incarnation; position = position })) }
{
    count_fits(incarnation) && count_fits(position)
}

/// Whether an item is within the limits of the format, so that it can be written and is read again.
/// It goes over the item once, and takes no memory.
pub fn item_fits(item: &Item) -> bool
    ensures fits { result ≡ true → FitsItem (item_of item.now) }
    ensures misfit { result ≡ false → FitsItem (item_of item.now) → ⊥ }
{
    match item {
        Item::Took(message) => message_fits(message),
        Item::Got(src, inc, pos, seq, message) => {
            identity_fits(*src, *inc, *pos) && count_fits(*seq) && message_fits(message)
        }
        Item::Ran(from, to, stamp) => {
            every_id_fits(from);
            every_id_fits(to);
            count_fits(*stamp)
        }
        Item::Done(id, task, outcome) => {
            every_id_fits(id);
            let _task = *task;
            outcome_fits(outcome)
        }
        Item::Fired(id, task, stamp) => {
            every_id_fits(id);
            let _task = *task;
            count_fits(*stamp)
        }
        Item::Trim(dst, upto, inc, pos) => identity_fits(*dst, *inc, *pos) && count_fits(*upto),
    }
}
