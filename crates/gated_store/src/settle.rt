//! Settling a frame.

ghost use Rattle.std.specs.Prelude.{◌≡◌, ◌≢◌, ◌<◌, ◌↔◌, false, true, length, Err, OnOk, OnErr};
ghost use Rattle.commit_gate.specs.Keeping.{AreOfOne, KeepsPlaces};
ghost use Rattle.commit_gate.specs.Ledgers.{after_items};
ghost use Rattle.commit_gate.specs.Views.{readers_in, ledger_of, whole_of};
ghost use Rattle.gated_store.specs.Keeps.{turned_by, KeepsGate};
ghost use Rattle.gated_store.specs.Kept.{IsKept};
ghost use Rattle.gated_store.specs.Settled.{items_settled, readers_settled};
ghost use Rattle.hub_store.specs.Changes.{stage_at, going_at, trail_in, Settles, HasHalted};
ghost use Rattle.hub_store.specs.Plain.{trail_of};
ghost use Rattle.hub_store.specs.Ways.{is_open};

use crate::local::Local;
use crate::store::{GatedStore, next_turn};
use commit_gate::Ledger;
use dura_value::Identity;
use hub_store::{Refusal, Settled, Stage};
use site_model::Site;

/// The ledger takes in and lets go what was settled.
fn take_settled(ledger: &mut Ledger, settled: &[Settled])
    requires rests { whole_of ledger.old ≡ ledger_of ledger.old }
    requires nexts { length ledger.old.nexts.items ≡ length ledger.old.boxes.items }
    requires readers { length ledger.old.readers.items ≡ length ledger.old.boxes.items }
    requires fits { AreOfOne (length ledger.old.boxes.items)
        (items_settled (trail_of settled.now)) }
    ensures settled { ledger_of ledger.new
        ≡ after_items (items_settled (trail_of settled.now)) (ledger_of ledger.old) }
    ensures whole { whole_of ledger.new ≡ ledger_of ledger.new }
    ensures readers { readers_in ledger.new
        ≡ readers_settled (readers_in ledger.old) (trail_of settled.now) }
    ensures places { KeepsPlaces ledger.old ledger.new }
{
    for one in settled {
        let reader = Identity {
            partition: one.partition,
            incarnation: one.incarnation,
            position: one.position,
        };
        ledger.take_items(reader, one.items.as_slice());
    }
}

/// What was under way of it is settled, and it takes in and lets go what was. Of n items that takes a step each, one for each
/// partition's stream, and no memory.
pub(crate) fn settle_ledger(ledger: &mut Ledger, settled: &[Settled])
    requires nexts { length ledger.old.nexts.items ≡ length ledger.old.boxes.items }
    requires readers { length ledger.old.readers.items ≡ length ledger.old.boxes.items }
    requires fits { AreOfOne (length ledger.old.boxes.items)
        (items_settled (trail_of settled.now)) }
    ensures settled { ledger_of ledger.new
        ≡ after_items (items_settled (trail_of settled.now)) (whole_of ledger.old) }
    ensures whole { whole_of ledger.new ≡ ledger_of ledger.new }
    ensures readers { readers_in ledger.new
        ≡ readers_settled (readers_in ledger.old) (trail_of settled.now) }
    ensures places { KeepsPlaces ledger.old ledger.new }
{
    ledger.settle_frame();
    take_settled(ledger, settled);
}

/// The turns, once a frame that came so far is settled.
fn turns_behind(stage: Stage, turns: u64) -> u64
    ensures { result ≡ turned_by stage turns }
{
    if stage == Stage::Gated {
        next_turn(turns)
    } else {
        turns
    }
}

impl<V: Site, L: Local> GatedStore<V, L> {
    /// Settles a partition's frame behind its open gate, at this moment. The gate is made safe on the disk first, unless it is already.
    pub fn settle(&mut self, part: u32) -> Result<(), Refusal>
        requires kept { IsKept L.origin.count L.ledgers L.readers L.may_make self.old }
        requires going { self.old.logs.halted ≡ false }
        requires place { part < L.origin.count }
        ensures kept { IsKept L.origin.count L.ledgers L.readers L.may_make self.new }
        ensures keeps { KeepsGate part self.old self.new }
        ensures ok { OnOk result (stage_at self.new.logs part ≡ Stage.Resting) }
        ensures trail { OnOk result (Settles (V.tells self.new.logs.site)
            (length (V.history self.new.logs.site)) part (going_at self.old.logs part)
            (trail_in self.old.logs) (trail_in self.new.logs)) }
        ensures no_trail { OnErr result (trail_in self.new.logs ≡ trail_in self.old.logs) }
        ensures frame { OnErr result
            (going_at self.new.logs part ≡ going_at self.old.logs part) }
        ensures no_frame { result ≡ Err Refusal.NoFrame
            ↔ is_open (stage_at self.old.logs part) ≡ false }
        ensures unchanged { result ≡ Err Refusal.NoFrame → self.new ≡ self.old }
        // One that is safe already costs no device call.
        ensures safe { stage_at self.old.logs part ≡ Stage.Safe
            → OnOk result (self.new.logs.site ≡ self.old.logs.site) × OnErr result ⊥ }
        ensures turns { result ≢ Err Refusal.NoFrame
            → self.new.turns ≡ turned_by (stage_at self.old.logs part) self.old.turns }
        ensures still { OnOk result (self.new.logs.halted ≡ false) }
        ensures halts { result ≡ Err Refusal.SiteFault → self.new.logs.halted ≡ true }
        ensures broken { result ≡ Err Refusal.SiteFault
            → stage_at self.new.logs part ≡ Stage.BrokenGate }
        ensures halted { HasHalted (V.disk_faults self.old.logs.site)
            (V.disk_faults self.new.logs.site) self.new.logs.halted }
    {
        let stage = self.logs.stage(part);
        if !stage.is_open() {
            return Err(Refusal::NoFrame);
        }
        self.turns = turns_behind(stage, self.turns);
        let before = self.logs.count();
        match self.logs.settle(part) {
            Ok(()) => {}
            Err(refusal) => return Err(refusal),
        }
        let settled = self.logs.settled_from(before);
        settle_ledger(&mut self.ledgers[part as usize], settled);
        Ok(())
    }
}
