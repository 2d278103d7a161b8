//! Opening the gate before a frame.

ghost use Rattle.std.specs.Prelude.{◌≡◌, ◌≢◌, ◌⊎◌, ◌<◌, ◌↔◌, ℕ, List, ◌∷◌, true, false, Some, Err, OnOk, OnErr, length};
ghost use Rattle.site_model.specs.History.{on, wrote, changes_of};
ghost use Rattle.site_model.specs.Calls.{HasCause};
ghost use Rattle.site_model.specs.Moments.{LeavesOnly};
ghost use Rattle.commit_log.specs.declared.header.Header.{Header};
ghost use Rattle.commit_log.specs.States.{IsSynced, IsSyncedThere, HasFramesOrOneMore};
ghost use Rattle.dura_value.specs.Items.{Entry};
ghost use Rattle.log_items.specs.Plain.{entries_of};
ghost use Rattle.part_items.specs.Spelling.{spell_frame};
ghost use Rattle.hub_store.specs.Changes.{stage_at, going_at, trail_in, told_in, KeepsStore, HasHalted};
ghost use Rattle.hub_store.specs.Short.{reach_of};
ghost use Rattle.hub_store.specs.Sound.{IsSound};
ghost use Rattle.hub_store.specs.Ways.{WayFits, stage_of, going_in, due_in};

use crate::refusal::Refusal;
use crate::start::Start;
use crate::store::Store;
use crate::way::{Stage, Way, put_way, reached, take_way};
use commit_log::Synced;
use log_items::Frame;
use site_model::Site;

/// Opens the gate before a frame.
fn gate_log<V: Site>(site: &mut V, log: Synced, frame: Frame) -> (Way, Result<(), Refusal>)
    requires { V.tells site.old → IsSyncedThere (changes_of log.file (V.history site.old)) log.gate
        log.next }
    ensures tells { V.tells site.new → V.tells site.old }
    ensures step { (bytes : List ℕ) × ((V.history site.new
        ≡ on log.file (wrote log.gate 1 bytes) ∷ V.history site.old)
        ⊎ (V.history site.new ≡ V.history site.old)) }
    ensures during { (h : Header) (payloads : List (List ℕ)) (payload : List ℕ)
        → IsSynced (changes_of log.file (V.history site.old)) h payloads payload log.gate log.next
        → LeavesOnly log.file (V.history site.old) (V.history site.new)
        (HasFramesOrOneMore h payloads payload log.gate log.next) }
    ensures fits { (h : Header) (payloads : List (List ℕ))
        → IsSynced (changes_of log.file (V.history site.old)) h payloads
        (spell_frame (entries_of frame)) log.gate log.next
        → WayFits log.file h payloads (changes_of log.file (V.history site.new)) result.0 }
    ensures going { going_in result.0 ≡ Some (entries_of frame) }
    ensures due { due_in result.0 ≡ length frame }
    ensures reach { reach_of result.0 ≡ reach_of (Way.Synced log frame) }
    ensures ok { OnOk result.1 (stage_of result.0 ≡ Stage.Gated) }
    ensures err { OnErr result.1 (result.1 ≡ Err Refusal.SiteFault) }
    ensures broken { OnErr result.1 (stage_of result.0 ≡ Stage.BrokenGate) }
    ensures cause { HasCause (V.disk_faults site.old) (V.disk_faults site.new) result.1 }
    ensures say_faults { V.say_faults site.new ≡ V.say_faults site.old }
{
    match log.gate(site) {
        Ok(log) => (Way::Gated(log, frame), Ok(())),
        Err(log) => (Way::BrokenGate(log, frame), Err(Refusal::SiteFault)),
    }
}

impl<V: Site, N: Start> Store<V, N> {
    /// Opens the gate before the safe frame of a partition, which may follow what was settled and said.
    pub fn gate(&mut self, part: u32) -> Result<(), Refusal>
        requires sound { IsSound self.old }
        requires going { self.old.halted ≡ false }
        requires place { part < N.origin.count }
        requires follows { (going : List Entry) → going_at self.old part ≡ Some going
            → N.may_follow self.old.latest (trail_in self.old) (told_in self.old) part going }
        ensures keeps { KeepsStore part self.old self.new }
        ensures sound { IsSound self.new }
        ensures ok { OnOk result (stage_at self.new part ≡ Stage.Gated) }
        ensures frame { going_at self.new part ≡ going_at self.old part }
        ensures trail { trail_in self.new ≡ trail_in self.old }
        ensures no_frame { result ≡ Err Refusal.NoFrame ↔ stage_at self.old part ≢ Stage.Synced }
        ensures unchanged { result ≡ Err Refusal.NoFrame → self.new ≡ self.old }
        ensures still { OnOk result (self.new.halted ≡ false) }
        ensures halts { result ≡ Err Refusal.SiteFault → self.new.halted ≡ true }
        ensures broken { result ≡ Err Refusal.SiteFault
            → stage_at self.new part ≡ Stage.BrokenGate }
        ensures halted { HasHalted (V.disk_faults self.old.site) (V.disk_faults self.new.site)
            self.new.halted }
    {
        let place = part as usize;
        if reached(&self.ways[place]) != Stage::Synced {
            return Err(Refusal::NoFrame);
        }
        let Way::Synced(log, frame) = take_way(&mut self.ways, place) else {
            unreachable!()
        };
        let (way, result) = gate_log(&mut self.site, log, frame);
        put_way(&mut self.ways, place, way);
        self.halted = result.is_err();
        result
    }
}
