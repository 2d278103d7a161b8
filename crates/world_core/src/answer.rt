//! What comes of what happens.

use commit_gate::Unmet;
use dura_value::Answer as Reply;
use spec_tracker::Dep;

/// What the call answers that an event makes.
#[derive(Drop)]
pub enum Answer {
    /// The event can't happen: it names what isn't there, or the life is over. Nothing changed.
    Unmet,
    /// Memory ran out. The life is over.
    Memory,
    /// The disk failed. The life is over.
    SiteFault,
    /// The tape failed. The life is over.
    SayFault,
    /// A request or a packet waits.
    Queued,
    /// The request was taken, or waits already.
    Taken,
    /// The request is answered by what is settled.
    Answered(Reply),
    /// Another request was taken or waits under its client and number.
    Clash,
    /// The packet came before: the next one has this number.
    Repeat(u64),
    /// Others are to come before the packet: the next one has this number.
    Gap(u64),
    /// An entry was made at this position.
    Turned(u64),
    /// An entry isn't settled, in the mode that has one at a time.
    Held,
    /// Nothing is possible.
    Idle,
    /// The number that comes next is past those that there are.
    Spent(u64),
    /// A frame is written.
    Written,
    /// None may go, or one is out already.
    NoneReady,
    /// The log would come to this length, which isn't below the segment's.
    Full(u64),
    /// The frame is safe on the disk.
    Synced,
    /// Its gate is open.
    Gated,
    /// It isn't what it claims, or not yet.
    Refused(Unmet),
    /// It is settled.
    Settled,
    /// Nothing depends on a lost entry.
    Kept,
    /// From this position on entries were given up, the first of which depends on this entry.
    Rewound(u64, Dep),
    /// The outcome waits.
    Recorded,
    /// Its activity isn't pending, or an outcome of it waits.
    NotPending,
    /// So many timers are due.
    Due(usize),
    /// So many streams have something that may be let go of.
    Trimmed(usize),
    /// The node is another, and the frame that was under way was settled.
    OwnedSettled,
    /// The node is another; no frame was under way, or it was dropped.
    OwnedDropped,
    /// The line was said.
    Said,
    /// What is settled has no answer to the request.
    NotAnswered,
    /// Nothing changes by it.
    Seen,
}
