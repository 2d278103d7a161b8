//! Whether the other partitions are as far as an entry needs.

ghost use Rattle.std.specs.Prelude.{◌≡◌};
ghost use Rattle.dura_value.specs.Views.{identity_of, message_of};
ghost use Rattle.dura_value.specs.Same.{message_eq};
ghost use Rattle.log_items.specs.Plain.{item_of, items_of};
ghost use Rattle.many_logs.specs.Placing.{has_sent, is_ready, are_ready};
ghost use Rattle.part_steps.specs.States.{state_of, parts_in};

use dura_value::{Identity, Message, is_same_entry};
use log_items::Item;
use part_steps::PartState;

/// Whether two messages are the same.
fn is_same_message(one: &Message, other: &Message) -> bool
    ensures { result ≡ message_eq (message_of one.now) (message_of other.now) }
{
    one == other
}

/// Whether a partition's stream to another has this message under this number, sent by this entry, or begins behind it.
fn has_sent(state: &PartState, target: u32, entry: Identity, number: u64, message: &Message) -> bool
    ensures { result ≡ has_sent ((state_of state.now).outboxes target) (identity_of entry) number
        (message_of message.now) }
{
    let first = state.first_left(target);
    if number < first {
        return true;
    }
    match state.left(target, number - first) {
        Some(posted) => {
            is_same_entry(posted.entry, entry) && is_same_message(&posted.message, message)
        }
        None => false,
    }
}

/// Whether the other partitions are as far as an item of this one needs: what it takes in was sent, and what it lets go was read.
pub(crate) fn is_item_ready(states: &[PartState], partition: u32, item: &Item) -> bool
    ensures { result ≡ is_ready (parts_in states.now) partition (item_of item.now) }
{
    match item {
        Item::Got(src, inc, pos, seq, message) => {
            let entry = Identity {
                partition: *src,
                incarnation: *inc,
                position: *pos,
            };
            match states.get(*src as usize) {
                Some(state) => has_sent(state, partition, entry, *seq, message),
                None => false,
            }
        }
        Item::Trim(dst, upto, _, _) => match states.get(*dst as usize) {
            Some(state) => *upto <= state.taken_in(partition),
            None => *upto == 0,
        },
        Item::Took(_) | Item::Ran(_, _, _) | Item::Done(_, _, _) | Item::Fired(_, _, _) => true,
    }
}

/// Whether they are as far as each of these items needs.
pub(crate) fn are_items_ready(states: &[PartState], partition: u32, items: &[Item]) -> bool
    ensures { result ≡ are_ready (parts_in states.now) partition (items_of items.now) }
{
    'items: for item in items {
        if !is_item_ready(states, partition, item) {
            return false;
        }
    }
    true
}
