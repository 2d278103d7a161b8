//! A frame in a line: its items, with a comma between each two.

use dura_value::{Body, Id, Identity, Message, Name, Text, Value};
use log_items::{Entry, Frame, Item, Items};
use std::alloc::Global;
use std::process::Abort;

/// A client's request with this number, which raises an event with this text at an instance.
pub(crate) fn request_of(
    rt: &impl Abort,
    alloc: Global,
    client: &[u8],
    instance: &[u8],
    number: u32,
    text: &str,
) -> Message {
    let from = Id::read(alloc, client).expect(rt, "a client");
    let to = Id::read(alloc, instance).expect(rt, "an instance");
    let event = Name::of(alloc, b"answer").expect(rt, "memory");
    let value = Value::Text(Text::read(alloc, text.as_bytes()).expect(rt, "a text"));
    Message {
        from,
        to,
        body: Body::Raise(event, value, number),
    }
}

/// The message that raises an event with this text.
pub(crate) fn message_of(rt: &impl Abort, alloc: Global, text: &str) -> Message {
    request_of(rt, alloc, b"#a", b"Flow/x", 1, text)
}

fn number_in(rt: &impl Abort, text: &str) -> u64 {
    text.parse().expect(rt, "a number")
}

/// An entry by its partition, its incarnation and its position.
fn identity_in(rt: &impl Abort, text: &str) -> Identity {
    let (partition, rest) = text.split_once('/').expect(rt, "an entry");
    let (incarnation, position) = rest.split_once('/').expect(rt, "an entry");
    Identity {
        partition: partition.parse().expect(rt, "a partition"),
        incarnation: number_in(rt, incarnation),
        position: number_in(rt, position),
    }
}

/// A message that comes from an entry under a number.
fn got_in(rt: &impl Abort, alloc: Global, entry: Identity, rest: &str) -> Item {
    let (number, text) = rest.split_once(' ').expect(rt, "a text");
    Item::Got(
        entry.partition,
        entry.incarnation,
        entry.position,
        number_in(rt, number),
        message_of(rt, alloc, text),
    )
}

/// A stream that is let go before a number.
fn trim_in(rt: &impl Abort, entry: Identity, number: &str) -> Item {
    Item::Trim(
        entry.partition,
        number_in(rt, number),
        entry.incarnation,
        entry.position,
    )
}

fn item_in(rt: &impl Abort, alloc: Global, text: &str) -> Item {
    let (kind, rest) = text.split_once(' ').expect(rt, "an item");
    let (entry, rest) = rest.split_once(' ').expect(rt, "an entry");
    let entry = identity_in(rt, entry);
    match kind {
        "got" => got_in(rt, alloc, entry, rest),
        "trim" => trim_in(rt, entry, rest),
        _ => panic!(rt; "no such item"),
    }
}

/// A frame of one entry of these items.
pub(crate) fn frame_in(rt: &impl Abort, alloc: Global, text: &str) -> Frame {
    let mut items = Vec::new(alloc);
    for one in text.split(", ") {
        items.push(item_in(rt, alloc, one)).expect(rt, "memory");
    }
    let entry = Entry {
        position: 0,
        incarnation: 0,
        items: Items::of(items),
    };
    Frame::of(vec![in alloc; entry].expect(rt, "memory"))
}
