//! What others see of a partition.

ghost use Rattle.std.specs.Prelude.{◌≤◌, ◌<◌, ◌+◌, ◌^◌, length};
ghost use Rattle.std.specs.Vec.{vec_len, vec_capacity};
ghost use Rattle.commit_gate.specs.Past.{spread, Rise};

use crate::past::Stretch;
use dura_value::{Floor, Identity, Posted};
use std::collections::VecDeque;

/// A message that an entry sends, and the partition that it goes to.
#[derive(Drop)]
pub struct Sending {
    /// The partition.
    pub to: u32,
    /// The message, and the entry.
    pub posted: Posted,
}

/// What is left of a stream: what is settled of it, and behind that what the frame under way sends. So a frame is settled by a number,
/// without memory.
#[derive(Drop)]
pub struct Stream {
    /// The number of its first message.
    pub(crate) first: u64,
    /// How many messages are settled.
    pub(crate) settled: usize,
    /// The messages.
    pub(crate) messages: VecDeque<Posted>,
    ghost inside: { settled ≤ length messages.items },
}

/// What others see of a partition: which of its entries are settled, and what is left of its streams.
#[derive(Drop)]
pub struct Ledger {
    /// The incarnations of the entries that were recovered or settled, stretch by stretch. There is room for those in the frame under way.
    pub(crate) past: Vec<Stretch>,
    /// The incarnation of each entry in the frame under way.
    pub(crate) incarnations: Vec<u64>,
    /// The incarnations that gave entries up, in the order in which they began.
    pub(crate) floors: Vec<Floor>,
    /// How far each stream from another partition was taken in: the number of its next message.
    pub(crate) nexts: Vec<u64>,
    /// The entry that took in the last message of each.
    pub(crate) readers: Vec<Identity>,
    /// Its streams to others.
    pub(crate) boxes: Vec<Stream>,
    ghost rise: { Rise past.items },
    ghost short: { length (spread past.items) + length incarnations.items < 2 ^ 64 },
    ghost room: { vec_len past + length incarnations.items ≤ vec_capacity past },
}
