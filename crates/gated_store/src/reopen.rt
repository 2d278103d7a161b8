//! Going on after a device call that failed, or where a frame was under way.

ghost use Rattle.std.specs.Prelude.{◌≡◌, ◌≢◌, ◌<◌, ◌↔◌, false, true, length, Ok, Err, IfOk, OnOk, OnErr, slice_index};
ghost use Rattle.commit_log.specs.Segment.{open_gate};
ghost use Rattle.gated_store.specs.Keeps.{turned, KeepsGate};
ghost use Rattle.gated_store.specs.Kept.{IsKept};
ghost use Rattle.hub_store.specs.Changes.{stage_at, going_at, trail_in, Settles};
ghost use Rattle.hub_store.specs.Ways.{gate_of, way_of, is_tried, is_untried};
ghost use Rattle.site_model.specs.Calls.{HasRisen};
ghost use Rattle.site_model.specs.History.{content_of};

use crate::local::Local;
use crate::settle::settle_ledger;
use crate::store::{GatedStore, next_turn};
use hub_store::{Refusal, Reopening, Stage};
use site_model::Site;

impl<V: Site, L: Local> GatedStore<V, L> {
    /// Opens a partition's log again, whose gate was tried.
    fn reopen_tried(&mut self, part: u32) -> Result<Reopening, Refusal>
        requires kept { IsKept L.origin.count L.ledgers L.readers L.may_make self.old }
        requires whole { self.old.logs.cut ≡ false }
        requires place { part < L.origin.count }
        requires tried { is_tried (stage_at self.old.logs part) ≡ true }
        ensures kept { IsKept L.origin.count L.ledgers L.readers L.may_make self.new }
        ensures keeps { KeepsGate part self.old self.new }
        ensures ok { OnOk result (stage_at self.new.logs part ≡ Stage.Resting) }
        ensures settled { result ≡ Ok Reopening.Settled → Settles (V.tells self.new.logs.site)
            (length (V.history self.new.logs.site)) part (going_at self.old.logs part)
            (trail_in self.old.logs) (trail_in self.new.logs) }
        ensures dropped { result ≡ Ok Reopening.Dropped
            → trail_in self.new.logs ≡ trail_in self.old.logs }
        ensures no_trail { OnErr result (trail_in self.new.logs ≡ trail_in self.old.logs) }
        ensures opened { V.tells self.new.logs.site
            → IfOk result (λ found. found ≡ Reopening.Settled
            ↔ slice_index (content_of (L.origin.logs part).file (V.history self.old.logs.site))
            (gate_of (way_of self.old.logs.ways.items part)) ≡ open_gate) }
        ensures frame { OnErr result
            (going_at self.new.logs part ≡ going_at self.old.logs part) }
        ensures broken { OnErr result (stage_at self.new.logs part ≡ Stage.BrokenGate) }
        ensures stops { OnErr result (result ≡ Err Refusal.SiteFault) }
        ensures turns { self.new.turns ≡ turned (turned self.old.turns) }
        ensures still { OnOk result (self.new.logs.halted ≡ false) }
        ensures halts { OnErr result (self.new.logs.halted ≡ true) }
        ensures fault { OnErr result (HasRisen (V.disk_faults self.old.logs.site)
            (V.disk_faults self.new.logs.site)) }
        ensures same { OnOk result (V.disk_faults self.new.logs.site
            ≡ V.disk_faults self.old.logs.site) }
    {
        self.turns = next_turn(next_turn(self.turns));
        let before = self.logs.count();
        match self.logs.reopen(part) {
            Ok(Reopening::Settled) => {
                let settled = self.logs.settled_from(before);
                settle_ledger(&mut self.ledgers[part as usize], settled);
                Ok(Reopening::Settled)
            }
            Ok(Reopening::Dropped) => {
                self.ledgers[part as usize].drop_frame();
                Ok(Reopening::Dropped)
            }
            Err(refusal) => Err(refusal),
        }
    }

    /// Drops a partition's frame whose gate was not tried, which no crash leaves.
    fn drop_untried(&mut self, part: u32) -> Result<(), Refusal>
        requires kept { IsKept L.origin.count L.ledgers L.readers L.may_make self.old }
        requires whole { self.old.logs.cut ≡ false }
        requires place { part < L.origin.count }
        requires untried { is_untried (stage_at self.old.logs part) ≡ true }
        ensures kept { IsKept L.origin.count L.ledgers L.readers L.may_make self.new }
        ensures keeps { KeepsGate part self.old self.new }
        ensures ok { OnOk result (stage_at self.new.logs part ≡ Stage.Resting) }
        ensures trail { trail_in self.new.logs ≡ trail_in self.old.logs }
        ensures closed { V.tells self.new.logs.site → OnOk result
            (slice_index (content_of (L.origin.logs part).file (V.history self.old.logs.site))
            (gate_of (way_of self.old.logs.ways.items part)) ≢ open_gate) }
        ensures frame { OnErr result
            (going_at self.new.logs part ≡ going_at self.old.logs part) }
        ensures broken { OnErr result (stage_at self.new.logs part ≡ Stage.BrokenBody) }
        ensures stops { OnErr result (result ≡ Err Refusal.SiteFault) }
        ensures turns { self.new.turns ≡ turned self.old.turns }
        ensures still { OnOk result (self.new.logs.halted ≡ false) }
        ensures halts { OnErr result (self.new.logs.halted ≡ true) }
        ensures fault { OnErr result (HasRisen (V.disk_faults self.old.logs.site)
            (V.disk_faults self.new.logs.site)) }
        ensures same { OnOk result (V.disk_faults self.new.logs.site
            ≡ V.disk_faults self.old.logs.site) }
    {
        self.turns = next_turn(self.turns);
        match self.logs.drop_frame(part) {
            Ok(()) => {
                self.ledgers[part as usize].drop_frame();
                Ok(())
            }
            Err(refusal) => Err(refusal),
        }
    }

    /// Opens a partition's log again, whose frame is under way, also after a device call failed. Where its gate reads open, once the file
    /// was synced, the frame is settled, at this moment; else it is dropped. A frame whose gate was not tried is only dropped, without a
    /// look at the gate. Then no frame of the partition is under way, and the store goes on.
    pub fn reopen(&mut self, part: u32) -> Result<Reopening, Refusal>
        requires kept { IsKept L.origin.count L.ledgers L.readers L.may_make self.old }
        requires whole { self.old.logs.cut ≡ false }
        requires place { part < L.origin.count }
        ensures kept { IsKept L.origin.count L.ledgers L.readers L.may_make self.new }
        ensures keeps { KeepsGate part self.old self.new }
        ensures ok { OnOk result (stage_at self.new.logs part ≡ Stage.Resting) }
        ensures settled { result ≡ Ok Reopening.Settled → Settles (V.tells self.new.logs.site)
            (length (V.history self.new.logs.site)) part (going_at self.old.logs part)
            (trail_in self.old.logs) (trail_in self.new.logs) }
        ensures tried { result ≡ Ok Reopening.Settled
            → is_tried (stage_at self.old.logs part) ≡ true }
        ensures dropped { result ≡ Ok Reopening.Dropped
            → trail_in self.new.logs ≡ trail_in self.old.logs }
        ensures no_trail { OnErr result (trail_in self.new.logs ≡ trail_in self.old.logs) }
        ensures opened { V.tells self.new.logs.site
            → IfOk result (λ found. found ≡ Reopening.Settled
            ↔ slice_index (content_of (L.origin.logs part).file (V.history self.old.logs.site))
            (gate_of (way_of self.old.logs.ways.items part)) ≡ open_gate) }
        ensures frame { OnErr result
            (going_at self.new.logs part ≡ going_at self.old.logs part) }
        ensures no_frame { result ≡ Err Refusal.NoFrame
            ↔ stage_at self.old.logs part ≡ Stage.Resting }
        ensures unchanged { result ≡ Err Refusal.NoFrame → self.new ≡ self.old }
        ensures still { OnOk result (self.new.logs.halted ≡ false) }
        ensures halts { result ≡ Err Refusal.SiteFault → self.new.logs.halted ≡ true }
        ensures fault { result ≡ Err Refusal.SiteFault → HasRisen
            (V.disk_faults self.old.logs.site) (V.disk_faults self.new.logs.site) }
        ensures same { OnOk result (V.disk_faults self.new.logs.site
            ≡ V.disk_faults self.old.logs.site) }
    {
        match self.logs.stage(part) {
            Stage::Resting => Err(Refusal::NoFrame),
            Stage::Gated | Stage::Safe | Stage::BrokenGate => self.reopen_tried(part),
            Stage::Bodied | Stage::Synced | Stage::BrokenBody => match self.drop_untried(part) {
                Ok(()) => Ok(Reopening::Dropped),
                Err(refusal) => Err(refusal),
            },
        }
    }
}
