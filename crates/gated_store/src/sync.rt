//! Making a frame safe on the disk.

ghost use Rattle.std.specs.Prelude.{◌≡◌, ◌≢◌, ◌<◌, ◌↔◌, false, true, OnOk, Err};
ghost use Rattle.gated_store.specs.Keeps.{turned, KeepsGate};
ghost use Rattle.gated_store.specs.Kept.{IsKept};
ghost use Rattle.hub_store.specs.Changes.{stage_at, going_at, trail_in, HasHalted};

use crate::local::Local;
use crate::store::{GatedStore, next_turn};
use hub_store::{Refusal, Stage};
use site_model::Site;

impl<V: Site, L: Local> GatedStore<V, L> {
    /// Makes the written frame of a partition safe on the disk.
    pub fn sync_body(&mut self, part: u32) -> Result<(), Refusal>
        requires kept { IsKept L.origin.count L.ledgers L.readers L.may_make self.old }
        requires going { self.old.logs.halted ≡ false }
        requires place { part < L.origin.count }
        ensures kept { IsKept L.origin.count L.ledgers L.readers L.may_make self.new }
        ensures keeps { KeepsGate part self.old self.new }
        ensures ok { OnOk result (stage_at self.new.logs part ≡ Stage.Synced) }
        ensures frame { going_at self.new.logs part ≡ going_at self.old.logs part }
        ensures trail { trail_in self.new.logs ≡ trail_in self.old.logs }
        ensures no_frame { result ≡ Err Refusal.NoFrame
            ↔ stage_at self.old.logs part ≢ Stage.Bodied }
        ensures unchanged { result ≡ Err Refusal.NoFrame → self.new ≡ self.old }
        ensures turns { result ≢ Err Refusal.NoFrame → self.new.turns ≡ turned self.old.turns }
        ensures still { OnOk result (self.new.logs.halted ≡ false) }
        ensures halts { result ≡ Err Refusal.SiteFault → self.new.logs.halted ≡ true }
        ensures broken { result ≡ Err Refusal.SiteFault
            → stage_at self.new.logs part ≡ Stage.BrokenBody }
        ensures halted { HasHalted (V.disk_faults self.old.logs.site)
            (V.disk_faults self.new.logs.site) self.new.logs.halted }
    {
        match self.logs.stage(part) {
            Stage::Bodied => {}
            _ => return Err(Refusal::NoFrame),
        }
        self.turns = next_turn(self.turns);
        self.logs.sync_body(part)
    }
}
