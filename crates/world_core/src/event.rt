//! What may happen.

use cell_waits::Ended;
use dura_value::{Message, Name};

/// What may happen in a life of the world. A packet is named by its place among all that were sent in this life, the first by 0, so that an
/// event can bring any of them: again, late, or never. What was known of the logs is named by how often it has changed since: 0 is what is
/// known now.
#[derive(Drop)]
pub enum Event {
    /// A client's request comes to the partition in which the client lives.
    Submit { request: Message },
    /// A packet that was sent comes to the partition that it goes to.
    Arrive { partition: u32, packet: usize },
    /// A partition makes one entry more, of 1 to so many items.
    Turn { partition: u32, limit: u32 },
    /// The first entries that may go, by what was known then, are written behind the closed gate of the partition's log.
    Body { partition: u32, ago: usize },
    /// They are made safe on the disk.
    SyncBody { partition: u32 },
    /// Their gate is opened, if they are what they claim.
    Gate { partition: u32 },
    /// The open gate is made safe: they are settled.
    Settle { partition: u32 },
    /// What depends on a lost entry, by what was known then, is given up.
    Judge { partition: u32, ago: usize },
    /// An activity's outcome comes.
    Outcome { partition: u32, ended: Ended },
    /// It is this moment, in milliseconds, or later.
    Fire { partition: u32, now: u64 },
    /// What was read of the partition's streams, by what was known then, may be let go of.
    Trim { partition: u32, ago: usize },
    /// A node stops. What comes of it is that another one takes its partitions over, by events of their own.
    Stop { node: u32 },
    /// A node takes a partition over: its log is opened again, and what isn't settled is given up.
    Own { partition: u32, node: u32 },
    /// The answer to a client's request is said.
    Say { client: Name, number: u32 },
    /// Somebody looks at what a crash would leave now.
    Image,
}
