//! What a partition's log keeps of its steps, and what partitions send one another.

use dura_value::{Id, Message, Outcome};

/// A step that a log keeps.
#[derive(Drop)]
pub enum Item {
    /// A request was taken.
    Took(Message),
    /// From this partition's entry of this incarnation and position came the message with this number of the stream.
    Got(u32, u64, u64, u64, Message),
    /// The first message from one to the other was delivered, with this stamp.
    Ran(Id, Id, u64),
    /// An activity was over.
    Done(Id, u32, Outcome),
    /// A timer fired, with this stamp.
    Fired(Id, u32, u64),
    /// Of the stream to this partition all before this number is let go: the entry of this incarnation and position has the
    /// one before it.
    Trim(u32, u64, u64, u64),
}

/// A message on its way to another partition.
#[derive(Drop)]
pub struct Packet {
    /// The partition that sends it.
    pub src: u32,
    /// The partition that it goes to.
    pub dst: u32,
    /// The incarnation and the position of the entry that sent it.
    pub inc: u64,
    pub pos: u64,
    /// Its number in the stream.
    pub seq: u64,
    /// The message.
    pub message: Message,
}
