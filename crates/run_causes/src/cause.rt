//! The causes.

ghost use Rattle.std.specs.Prelude.{◌≡◌};
ghost use Rattle.run_causes.specs.Causes.{status_of};

use dura_value::Name;
use flow_values::Path;

/// What is wrong with a flows file.
#[derive(Drop)]
pub enum FlowsFault {
    /// It is no JSON.
    NotJson,
    /// The first value that isn't of the shape wanted.
    BadShape {
        /// Where it is.
        path: Path,
    },
    /// Every shape is right, and this is the first name that stands for nothing.
    UnknownName {
        /// Where it is.
        path: Path,
    },
}

/// Where a plan is wrong.
#[derive(Clone, Copy, PartialEq, Eq)]
pub enum PlanPlace {
    /// It is no object of lists.
    Whole,
    /// The move with this number, from 0.
    Move(u64),
    /// The stop with this number, from 0.
    Stop(u64),
}

/// Why a run ended.
#[derive(Drop)]
pub enum Cause {
    /// Every request is answered, and each answer said.
    Done,
    /// The words are no command.
    Usage,
    /// File 0, the flows.
    BadFlows {
        /// What is wrong.
        fault: FlowsFault,
    },
    /// File 1, the requests.
    BadRequests {
        /// The first line that is wrong, from 1.
        line: u64,
    },
    /// Two different requests of a client have one number, in the file or in what is kept.
    Clash {
        /// The client.
        client: Name,
        /// The number.
        number: u32,
    },
    /// File 2, the plan.
    BadPlan {
        /// Where the fault is.
        place: PlanPlace,
    },
    /// An input file of too many bytes.
    TooLong {
        /// The file's number.
        file: u32,
    },
    /// Nothing can happen any more, and this is the first request without an answer.
    Waiting {
        /// The client.
        client: Name,
        /// The request's number.
        number: u32,
    },
    /// The run took as many steps as it may.
    Long {
        /// How many labels were settled.
        labels: u64,
    },
    /// A length, a read, a write or a sync failed.
    SiteFault,
    /// Saying an answer failed.
    SayFault,
    /// The clock failed.
    ClockFault,
    /// A log breaks its grammar.
    Damaged {
        /// The file's number.
        file: u32,
        /// Where it does first.
        offset: u64,
    },
    /// The items of an entry can't have happened.
    Illegal {
        /// The partition.
        partition: u32,
        /// The entry's position.
        position: u64,
    },
    /// An entry needs what the log of another partition doesn't give.
    Unclosed {
        /// The partition.
        partition: u32,
        /// The entry's position.
        position: u64,
        /// The other partition.
        src: u32,
        /// The message's number in its stream.
        seq: u64,
    },
    /// The logs are of another number of partitions.
    OtherShape {
        /// How many partitions the logs are of.
        found: u32,
        /// The one asked for.
        asked: u32,
    },
    /// The logs are of another flows file.
    OtherFlows {
        /// The digest of theirs.
        found: u64,
        /// The digest of the one given.
        given: u64,
    },
    /// Memory ran out.
    Memory,
    /// The next frame doesn't fit into the log.
    Full {
        /// The partition.
        partition: u32,
        /// The length that the log would have.
        length: u64,
    },
    /// A number can't be raised any more.
    Spent {
        /// The partition.
        partition: u32,
        /// The number.
        number: u64,
    },
}

impl Cause {
    /// The program's exit status.
    pub fn status(&self) -> u8
        ensures { result ≡ status_of self.now }
    {
        match self {
            Cause::Done => 0,
            Cause::Usage => 1,
            Cause::BadFlows { .. }
            | Cause::BadRequests { .. }
            | Cause::Clash { .. }
            | Cause::BadPlan { .. }
            | Cause::TooLong { .. } => 2,
            Cause::Waiting { .. } => 3,
            Cause::Long { .. } => 4,
            Cause::SiteFault => 5,
            Cause::SayFault => 6,
            Cause::ClockFault => 7,
            Cause::Damaged { .. } => 8,
            Cause::Illegal { .. } | Cause::Unclosed { .. } => 9,
            Cause::OtherShape { .. } | Cause::OtherFlows { .. } => 10,
            Cause::Memory => 11,
            Cause::Full { .. } | Cause::Spent { .. } => 12,
        }
    }
}
