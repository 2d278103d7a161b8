//! What a call has beside its store and its cells.

ghost use Rattle.std.specs.Prelude.{◌≡◌};

use cell_steps::Mode;
use client_port::Port;
use dura_value::Name;
use node_core::Crew;
use part_transport::Transport;

/// How a call goes on.
#[derive(Clone, Copy, Drop)]
pub struct Pace {
    /// How far partitions run ahead of their logs.
    pub mode: Mode,
    /// The most items of an entry.
    pub batch: u32,
    /// How many labels are enough.
    pub steps: u64,
    /// What chance goes by.
    pub seed: u32,
}

/// How much of what was settled was looked at.
#[derive(Clone, Copy, Drop, PartialEq, Eq)]
pub struct Seen {
    /// How many entries of the trail.
    pub entries: usize,
    /// How many labels these are.
    pub labels: u64,
}

/// What a call has beside its store and its cells.
#[derive(Drop)]
pub struct Course {
    /// The packets on their way.
    pub transport: Transport,
    /// The nodes that have the partitions.
    pub crew: Crew,
    /// What clients may send next.
    pub port: Port,
    /// Of each node how many activities it ran.
    pub runs: Vec<u64>,
    /// How much of the trail was looked at.
    pub seen: Seen,
    /// The clients that something in it reached, who weren't served since.
    pub reached: Vec<Name>,
    /// Whether packets may be lacking somewhere.
    pub lacking: bool,
    /// Whether packets are disturbed on their way.
    pub disturbed: bool,
}

impl Course {
    /// Where there wasn't room for all packets, some may be lacking.
    pub(crate) fn note_room(&mut self, fits: bool)
        ensures port { self.new.port ≡ self.old.port }
        ensures seen { self.new.seen ≡ self.old.seen }
    {
        if !fits {
            self.lacking = true;
        }
    }

    /// Lets go of all but what clients may send next.
    pub fn into_port(self) -> Port
        ensures { result ≡ self.port }
    {
        let Course {
            transport,
            crew,
            port,
            runs,
            seen: _,
            reached,
            lacking: _,
            disturbed: _,
        } = self;
        drop(transport);
        drop(crew);
        drop(runs);
        drop(reached);
        port
    }
}
