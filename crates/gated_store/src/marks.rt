//! What is settled, as others are told.

ghost use Rattle.std.specs.Prelude.{◌≡◌, ◌≤◌, ◌^◌, map, IfOk};
ghost use Rattle.std.specs.List.{flat_map};
ghost use Rattle.commit_gate.specs.Marking.{length_of, all_reads};
ghost use Rattle.gated_store.specs.Keeps.{turned};
ghost use Rattle.gated_store.specs.Kept.{IsKept};

use crate::local::Local;
use crate::store::{GatedStore, next_turn};
use commit_gate::marks_of;
use site_model::Site;
use spec_tracker::Marks;
use std::alloc::{AllocError, Global};

impl<V: Site, L: Local> GatedStore<V, L> {
    /// What is settled of each partition: how many entries, where its incarnations began, and how far it took in the streams from
    /// others. It counts as a turn.
    pub fn marks(&mut self, alloc: Global, count: u32) -> Result<Marks, AllocError>
        requires kept { IsKept L.origin.count L.ledgers L.readers L.may_make self.old }
        requires count { L.origin.count ≡ count }
        ensures lengths { IfOk result (λ m. m.lengths.items
            ≡ map length_of self.old.ledgers.items) }
        ensures floors { IfOk result (λ m. m.floors.items
            ≡ flat_map (λ l. l.floors.items) self.old.ledgers.items) }
        ensures reads { IfOk result (λ m. m.reads.items
            ≡ all_reads count 0 self.old.ledgers.items) }
        ensures logs { self.new.logs ≡ self.old.logs }
        ensures ledgers { self.new.ledgers ≡ self.old.ledgers }
        ensures turns { self.new.turns ≡ turned self.old.turns }
    {
        self.turns = next_turn(self.turns);
        marks_of(alloc, &self.ledgers, count)
    }
}
