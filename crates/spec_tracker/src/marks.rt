//! What is known of the partitions' logs.

ghost use Rattle.std.specs.Prelude.{◌≡◌, ◌≤◌, true, false, option_map};
ghost use Rattle.dura_value.specs.Dependencies.{Lost};
ghost use Rattle.dura_value.specs.Views.{floor_of};
ghost use Rattle.spec_tracker.specs.Marks.{identity_of, floors_of, length_in, gives_up, IsVerdict, read_in};

use dura_value::Floor;

/// An entry that another one depends on: its partition, the incarnation of the partition that made it, its position, and the number
/// of the message that is named.
#[derive(Clone, Copy)]
pub struct Dep {
    /// The partition.
    pub src: u32,
    /// Its incarnation.
    pub inc: u64,
    /// The entry's position.
    pub pos: u64,
    /// The number.
    pub seq: u64,
}

/// How far a partition has taken in the stream from another, by entries that are settled: the number of the next message, and the
/// entry that took the last.
#[derive(Clone, Copy)]
pub struct Read {
    /// The partition that reads.
    pub reader: u32,
    /// The partition whose stream it is.
    pub source: u32,
    /// The number.
    pub next: u64,
    /// The incarnation of the entry.
    pub inc: u64,
    /// Its position.
    pub pos: u64,
}

/// What is known: how many entries of each partition are settled, where later incarnations began, and how far streams were read.
#[derive(Drop)]
pub struct Marks {
    /// The count of each partition's settled entries.
    pub lengths: Vec<u64>,
    /// Where later incarnations began.
    pub floors: Vec<Floor>,
    /// How far streams were read.
    pub reads: Vec<Read>,
}

/// What is known of an entry.
#[derive(Clone, Copy)]
pub enum Verdict {
    /// It is settled, and wasn't given up.
    Ready,
    /// It isn't settled, nor given up so far as is known.
    Undecided,
    /// It was given up.
    Lost,
}

impl Dep {
    /// Whether an incarnation of its partition gave it up.
    fn is_given_up(&self, floor: &Floor) -> bool
        ensures { result ≡ gives_up (floor_of floor.now) (identity_of self.now) }
    {
        floor.partition == self.src && self.inc < floor.incarnation && floor.from <= self.pos
    }
}

impl Marks {
    /// How many entries of a partition are settled.
    fn length(&self, partition: u32) -> u64
        ensures { result ≡ length_in self.now partition }
    {
        match self.lengths.get(partition as usize) {
            Some(length) => *length,
            None => 0,
        }
    }

    /// Whether an entry was given up.
    fn is_lost(&self, dep: &Dep) -> bool
        ensures lost { result ≡ true → Lost (floors_of self.now) (identity_of dep.now) }
        ensures kept { result ≡ false → Lost (floors_of self.now) (identity_of dep.now) → ⊥ }
    {
        for floor in &self.floors {
            if dep.is_given_up(floor) {
                return true;
            }
        }
        false
    }

    /// What is known of an entry: that it was given up, or else that it is settled, or neither.
    pub fn verdict(&self, dep: &Dep) -> Verdict
        ensures { IsVerdict (floors_of self.now) (length_in self.now) (identity_of dep.now) result }
    {
        if self.is_lost(dep) {
            return Verdict::Lost;
        }
        if dep.pos < self.length(dep.src) {
            return Verdict::Ready;
        }
        Verdict::Undecided
    }

    /// How far a partition has read the stream from another, if anything is known of it: what is told of that first.
    pub fn read_of(&self, reader: u32, source: u32) -> Option<&Read>
        ensures { option_map (λ read. read.now) result ≡ read_in self.now reader source }
    {
        self.reads
            .iter()
            .find(|read| read.reader == reader && read.source == source)
    }
}
