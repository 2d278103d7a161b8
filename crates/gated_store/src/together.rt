//! Making the files of several frames safe by one device call.

ghost use Rattle.std.specs.Prelude.{◌≡◌, ◌↔◌, ℕ, false, true, Err, OnOk};
ghost use Rattle.gated_store.specs.Keeps.{turned};
ghost use Rattle.gated_store.specs.Kept.{IsKept};
ghost use Rattle.hub_store.specs.Changes.{stage_at, going_at, trail_in, KeepsAll, HasHalted};
ghost use Rattle.hub_store.specs.Waiting.{waits, waiting, stage_behind};
ghost use Rattle.site_model.specs.History.{syncing};

use crate::local::Local;
use crate::store::{GatedStore, next_turn};
use hub_store::SyncRefusal;
use site_model::Site;
use std::alloc::Global;

impl<V: Site, L: Local> GatedStore<V, L> {
    /// Makes safe, by one device call, the files of all partitions whose frame is written and not yet safe, or its open gate. A frame
    /// behind its open gate is then to be settled, for which `settle` makes no further call. It is one turn.
    pub fn sync_all(&mut self, alloc: Global) -> Result<(), SyncRefusal>
        requires kept { IsKept L.origin.count L.ledgers L.readers L.may_make self.old }
        requires going { self.old.logs.halted ≡ false }
        ensures kept { IsKept L.origin.count L.ledgers L.readers L.may_make self.new }
        ensures keeps { KeepsAll self.old.logs self.new.logs }
        ensures ledgers { self.new.ledgers ≡ self.old.ledgers }
        ensures ok { OnOk result ((part : ℕ) → stage_at self.new.logs part
            ≡ stage_behind true (stage_at self.old.logs part)) }
        ensures broken { result ≡ Err SyncRefusal.SiteFault → (part : ℕ)
            → stage_at self.new.logs part ≡ stage_behind false (stage_at self.old.logs part) }
        ensures frames { (part : ℕ)
            → going_at self.new.logs part ≡ going_at self.old.logs part }
        ensures trail { trail_in self.new.logs ≡ trail_in self.old.logs }
        // Each file that waits is synced once, in the order of the partitions.
        ensures synced { OnOk result (V.history self.new.logs.site
            ≡ syncing (waiting self.old.logs.ways.items) (V.history self.old.logs.site)) }
        ensures no_frame { result ≡ Err SyncRefusal.NoFrame
            ↔ ((part : ℕ) → waits (stage_at self.old.logs part) ≡ false) }
        ensures unchanged { result ≡ Err SyncRefusal.NoFrame → self.new ≡ self.old }
        ensures memory { result ≡ Err SyncRefusal.Memory → self.new ≡ self.old }
        ensures turns { OnOk result (self.new.turns ≡ turned self.old.turns) }
        ensures turns_broken { result ≡ Err SyncRefusal.SiteFault
            → self.new.turns ≡ turned self.old.turns }
        ensures still { OnOk result (self.new.logs.halted ≡ false) }
        ensures halts { result ≡ Err SyncRefusal.SiteFault → self.new.logs.halted ≡ true }
        ensures halted { HasHalted (V.disk_faults self.old.logs.site)
            (V.disk_faults self.new.logs.site) self.new.logs.halted }
    {
        match self.logs.sync_all(alloc) {
            Ok(()) => {
                self.turns = next_turn(self.turns);
                Ok(())
            }
            Err(SyncRefusal::SiteFault) => {
                self.turns = next_turn(self.turns);
                Err(SyncRefusal::SiteFault)
            }
            Err(SyncRefusal::NoFrame) => Err(SyncRefusal::NoFrame),
            Err(SyncRefusal::Memory) => Err(SyncRefusal::Memory),
        }
    }
}
