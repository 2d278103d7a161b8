//! Opening the gate before a frame.

ghost use Rattle.std.specs.Prelude.{◌≡◌, ◌≢◌, ◌<◌, ◌↔◌, ℕ, List, false, true, Some, Err, OnOk, IfErr};
ghost use Rattle.std.specs.List.{All};
ghost use Rattle.commit_gate.specs.Refused.{Passes, RefusesFirst};
ghost use Rattle.commit_gate.specs.Views.{floors_of};
ghost use Rattle.commit_gate.specs.declared.unmet.Unmet.{Unmet as WhyUnmet};
ghost use Rattle.dura_value.specs.Items.{Entry};
ghost use Rattle.gated_store.specs.Follows.{ledgers_at};
ghost use Rattle.gated_store.specs.Keeps.{turned, KeepsGate};
ghost use Rattle.gated_store.specs.Kept.{IsKept};
ghost use Rattle.hub_store.specs.Changes.{stage_at, going_at, trail_in, HasHalted};
ghost use Rattle.log_items.specs.Entries.{items_in};

use crate::local::Local;
use crate::refusal::GateRefusal;
use crate::store::{GatedStore, next_turn};
use commit_gate::{Unmet, test_frame};
use hub_store::{Refusal, Stage};
use site_model::Site;

impl<V: Site, L: Local> GatedStore<V, L> {
    /// Whether the frame under way is what it claims, by what is settled.
    fn test(&self, part: u32) -> Result<(), Unmet>
        requires kept { IsKept L.origin.count L.ledgers L.readers L.may_make self.now }
        requires place { part < L.origin.count }
        ensures ok { OnOk result ((going : List Entry) → going_at self.now.logs part ≡ Some going
            → All (Passes (ledgers_at L.ledgers (trail_in self.now.logs))
            (floors_of self.now.ledgers.items) part) (items_in going)) }
        ensures err { IfErr result (λ why. (going : List Entry)
            × (going_at self.now.logs part ≡ Some going)
            × RefusesFirst (ledgers_at L.ledgers (trail_in self.now.logs))
            (floors_of self.now.ledgers.items) part (items_in going) why) }
    {
        match self.logs.frame(part) {
            Some(frame) => test_frame(&self.ledgers, part, frame),
            None => Ok(()),
        }
    }

    /// Opens the gate before the safe frame of a partition, if the frame is what it claims: each entry that it names is settled and
    /// wasn't given up, each message that it takes in is the one that the entry sent under this number, and what it lets go was read by
    /// what is settled.
    pub fn gate(&mut self, part: u32) -> Result<(), GateRefusal>
        requires kept { IsKept L.origin.count L.ledgers L.readers L.may_make self.old }
        requires going { self.old.logs.halted ≡ false }
        requires place { part < L.origin.count }
        ensures kept { IsKept L.origin.count L.ledgers L.readers L.may_make self.new }
        ensures keeps { KeepsGate part self.old self.new }
        ensures ok { OnOk result (stage_at self.new.logs part ≡ Stage.Gated) }
        ensures passes { OnOk result ((going : List Entry)
            → going_at self.old.logs part ≡ Some going
            → All (Passes (ledgers_at L.ledgers (trail_in self.old.logs))
            (floors_of self.old.ledgers.items) part) (items_in going)) }
        ensures unmet { (why : WhyUnmet) → result ≡ Err (GateRefusal.Unmet why)
            → (going : List Entry) × (going_at self.old.logs part ≡ Some going)
            × RefusesFirst (ledgers_at L.ledgers (trail_in self.old.logs))
            (floors_of self.old.ledgers.items) part (items_in going) why }
        ensures no_frame { result ≡ Err GateRefusal.NoFrame
            ↔ stage_at self.old.logs part ≢ Stage.Synced }
        ensures unchanged_unmet { (why : WhyUnmet) → result ≡ Err (GateRefusal.Unmet why)
            → self.new ≡ self.old }
        ensures unchanged { result ≡ Err GateRefusal.NoFrame → self.new ≡ self.old }
        ensures frame { going_at self.new.logs part ≡ going_at self.old.logs part }
        ensures trail { trail_in self.new.logs ≡ trail_in self.old.logs }
        ensures turns { OnOk result (self.new.turns ≡ turned self.old.turns) }
        ensures fault_turns { result ≡ Err GateRefusal.SiteFault
            → self.new.turns ≡ turned self.old.turns }
        ensures still { OnOk result (self.new.logs.halted ≡ false) }
        ensures halts { result ≡ Err GateRefusal.SiteFault → self.new.logs.halted ≡ true }
        ensures broken { result ≡ Err GateRefusal.SiteFault
            → stage_at self.new.logs part ≡ Stage.BrokenGate }
        ensures halted { HasHalted (V.disk_faults self.old.logs.site)
            (V.disk_faults self.new.logs.site) self.new.logs.halted }
    {
        match self.logs.stage(part) {
            Stage::Synced => {}
            _ => return Err(GateRefusal::NoFrame),
        }
        if let Err(unmet) = self.test(part) {
            return Err(GateRefusal::Unmet(unmet));
        }
        self.turns = next_turn(self.turns);
        match self.logs.gate(part) {
            Ok(()) => Ok(()),
            Err(Refusal::SiteFault) => Err(GateRefusal::SiteFault),
            Err(Refusal::NoFrame) => unreachable!(),
        }
    }
}
