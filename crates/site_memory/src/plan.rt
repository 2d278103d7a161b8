// Which calls fail.
ghost use Rattle.std.specs.Prelude.{◌≡◌, ◌<◌, slice_index};
ghost use Rattle.site_memory.specs.Kinds.{slot_of};
ghost use Rattle.site_memory.specs.declared.plan.Kind.{Kind};

/// A kind of call.
#[derive(Clone, Copy, PartialEq, Eq)]
pub enum Kind {
    Length,
    Read,
    Write,
    Sync,
    /// The four above together.
    Device,
    Say,
}

/// How many calls there were of each kind, and the numbers of those that fail.
#[derive(Drop)]
pub(crate) struct Plan {
    fails: Vec<(Kind, u64)>,
    calls: [u64; 6],
}

impl Plan {
    pub(crate) fn new(fails: Vec<(Kind, u64)>) -> Plan
        ensures { (kind : Kind) → slice_index result.calls (slot_of kind) ≡ 0 }
    {
        Plan {
            fails,
            calls: [0; 6],
        }
    }

    pub(crate) fn calls(&self, kind: Kind) -> u64
        ensures { result ≡ slice_index self.now.calls (slot_of kind) }
    {
        self.calls[slot(kind)]
    }

    /// Counts a call, of a device also as one of the four together, and says whether it is to fail.
    pub(crate) fn call(&mut self, kind: Kind) -> bool {
        let listed = self.count(kind);
        if kind == Kind::Say {
            return listed;
        }
        let listed_as_device = self.count(Kind::Device);
        listed || listed_as_device
    }

    fn count(&mut self, kind: Kind) -> bool {
        let slot = slot(kind);
        let number = self.calls[slot];
        self.calls[slot] = number.saturating_add(1);
        self.fails.contains(&(kind, number))
    }
}

fn slot(kind: Kind) -> usize
    ensures value { result ≡ slot_of kind }
    ensures bound { result < 6 }
{
    match kind {
        Kind::Length => 0,
        Kind::Read => 1,
        Kind::Write => 2,
        Kind::Sync => 3,
        Kind::Device => 4,
        Kind::Say => 5,
    }
}
