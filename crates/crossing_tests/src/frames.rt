//! The frames of the two partitions, of one entry each.

ghost use Rattle.std.specs.Prelude.{◌≡◌, [], ◌∷◌, IfOk};
ghost use Rattle.dura_value.specs.Views.{message_of};
ghost use Rattle.log_items.specs.Plain.{item_of, entries_of};
ghost use Rattle.commit_gate.specs.Views.{all_sent};
ghost use Rattle.crossing_tests.specs.Crossing.{message, first_with, asking, sent_on, taking};

use commit_gate::Sending;
use dura_value::{Body, Id, Identity, Key, Message, Name, Posted};
use log_items::{Entry, Frame, Item, Items};
use std::alloc::{AllocError, Global};

/// The first entry of partition 0.
pub(crate) const SENDER: Identity = Identity {
    partition: 0,
    incarnation: 0,
    position: 0,
};

/// The client a asks how F/x stands, in the request with this number.
pub(crate) fn message(alloc: Global, number: u32) -> Result<Message, AllocError>
    ensures { IfOk result (λ m. message_of m ≡ message number) }
{
    let from = Id::Client(Name::of(alloc, b"a")?);
    let to = Id::Flow(Name::of(alloc, b"F")?, Key::of(alloc, b"x")?);
    Ok(Message {
        from,
        to,
        body: Body::Query(number),
    })
}

/// A frame of the first entry of a partition, with one item.
fn frame_of(alloc: Global, item: Item) -> Result<Frame, AllocError>
    ensures { IfOk result (λ frame. entries_of frame ≡ first_with (item_of item) ∷ []) }
{
    let entry = Entry {
        position: 0,
        incarnation: 0,
        items: Items::of(vec![in alloc; item]?),
    };
    Ok(Frame::of(vec![in alloc; entry]?))
}

/// Partition 0 takes request 1.
pub(crate) fn asking(alloc: Global) -> Result<Frame, AllocError>
    ensures { IfOk result (λ frame. entries_of frame ≡ asking ∷ []) }
{
    frame_of(alloc, Item::Took(message(alloc, 1)?))
}

/// And sends it on to partition 1.
pub(crate) fn sending(alloc: Global) -> Result<Vec<Sending>, AllocError>
    ensures { IfOk result (λ sending. all_sent sending.items ≡ sent_on ∷ []) }
{
    let message = message(alloc, 1)?;
    let posted = Posted {
        entry: SENDER,
        message,
    };
    Ok(vec![in alloc; Sending { to: 1, posted }]?)
}

/// Partition 1 takes in the request with this number, as the stream's first message.
pub(crate) fn taking(alloc: Global, number: u32) -> Result<Frame, AllocError>
    ensures { IfOk result (λ frame. entries_of frame ≡ taking number ∷ []) }
{
    frame_of(alloc, Item::Got(0, 0, 0, 0, message(alloc, number)?))
}
