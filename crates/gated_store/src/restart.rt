//! A new incarnation of a partition.

ghost use Rattle.std.specs.Prelude.{◌≡◌, ◌≢◌, ◌<◌, ◌≤◌, ◌+◌, ◌++◌, ◌∷◌, [], ℕ, OnOk, OnErr};
ghost use Rattle.commit_gate.specs.Ledgers.{log_length};
ghost use Rattle.commit_gate.specs.Views.{floors_of};
ghost use Rattle.gated_store.specs.Kept.{IsKept, count_under_way};
ghost use Rattle.hub_store.specs.Changes.{going_at, trail_in};
ghost use Rattle.hub_store.specs.Trail.{of_part};

use crate::local::Local;
use crate::store::GatedStore;
use dura_value::Floor;
use site_model::Site;
use std::alloc::AllocError;

impl<V: Site, L: Local> GatedStore<V, L> {
    /// A new incarnation of a partition begins, which gives up what earlier ones made from a position on: nothing that is settled or
    /// under way. Where memory runs out nothing is recorded.
    pub fn restart(&mut self, part: u32, incarnation: u64, from: u64) -> Result<(), AllocError>
        requires kept { IsKept L.origin.count L.ledgers L.readers L.may_make self.old }
        requires place { part < L.origin.count }
        requires above { log_length (L.ledgers part (of_part part (trail_in self.old.logs)))
            + count_under_way (going_at self.old.logs part) ≤ from }
        ensures kept { IsKept L.origin.count L.ledgers L.readers L.may_make self.new }
        ensures logs { self.new.logs ≡ self.old.logs }
        ensures turns { self.new.turns ≡ self.old.turns }
        ensures others { (other : ℕ) → other ≢ part
            → floors_of self.new.ledgers.items other ≡ floors_of self.old.ledgers.items other }
        ensures floors { OnOk result (floors_of self.new.ledgers.items part
            ≡ floors_of self.old.ledgers.items part
            ++ record { partition = part; incarnation = incarnation; from = from } ∷ []) }
        ensures no_floor { OnErr result (floors_of self.new.ledgers.items part
            ≡ floors_of self.old.ledgers.items part) }
    {
        self.ledgers[part as usize].restart(Floor {
            partition: part,
            incarnation,
            from,
        })
    }
}
