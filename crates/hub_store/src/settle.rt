//! Settling a frame.

ghost use Rattle.std.specs.Prelude.{◌≡◌, ◌≢◌, ◌<◌, ◌↔◌, ◌++◌, ℕ, List, true, false, Some, Err, OnOk, OnErr, length};
ghost use Rattle.dura_value.specs.Items.{Entry};
ghost use Rattle.hub_store.specs.Changes.{stage_at, going_at, trail_in, told_in, KeepsStore, Settles, HasHalted};
ghost use Rattle.hub_store.specs.Sound.{IsSound};
ghost use Rattle.hub_store.specs.Ways.{is_open};

use crate::refusal::Refusal;
use crate::start::Start;
use crate::store::Store;
use crate::trail::settle_entries;
use crate::way::{Stage, Way, put_way, reached, take_way};
use site_model::Site;

impl<V: Site, N: Start> Store<V, N> {
    /// Makes the open gate of a partition's frame safe on the disk.
    fn settle_gated(&mut self, part: u32) -> Result<(), Refusal>
        requires sound { IsSound self.old }
        requires going { self.old.halted ≡ false }
        requires place { part < N.origin.count }
        requires stage { stage_at self.old part ≡ Stage.Gated }
        requires follows { (going : List Entry) → going_at self.old part ≡ Some going
            → N.may_follow self.old.latest (trail_in self.old) (told_in self.old) part going }
        ensures keeps { KeepsStore part self.old self.new }
        ensures sound { IsSound self.new }
        ensures ok { OnOk result (stage_at self.new part ≡ Stage.Resting) }
        ensures trail { OnOk result (Settles (V.tells self.new.site)
            (length (V.history self.new.site)) part (going_at self.old part) (trail_in self.old)
            (trail_in self.new)) }
        ensures no_trail { OnErr result (trail_in self.new ≡ trail_in self.old) }
        ensures frame { OnErr result (going_at self.new part ≡ going_at self.old part) }
        ensures err { OnErr result (result ≡ Err Refusal.SiteFault) }
        ensures still { OnOk result (self.new.halted ≡ false) }
        ensures halts { OnErr result (self.new.halted ≡ true) }
        ensures broken { OnErr result (stage_at self.new part ≡ Stage.BrokenGate) }
        ensures halted { HasHalted (V.disk_faults self.old.site) (V.disk_faults self.new.site)
            self.new.halted }
    {
        let place = part as usize;
        let Way::Gated(log, frame) = take_way(&mut self.ways, place) else {
            unreachable!()
        };
        match log.settle(&mut self.site) {
            Ok(log) => {
                let at = self.site.moment();
                self.due -= frame.entries().len();
                settle_entries(&mut self.trail, part, at, frame);
                put_way(&mut self.ways, place, Way::Resting(log));
                Ok(())
            }
            Err(log) => {
                put_way(&mut self.ways, place, Way::BrokenGate(log, frame));
                self.halted = true;
                Err(Refusal::SiteFault)
            }
        }
    }

    /// The open gate of a partition's frame is safe on the disk.
    fn settle_safe(&mut self, part: u32)
        requires sound { IsSound self.old }
        requires going { self.old.halted ≡ false }
        requires place { part < N.origin.count }
        requires stage { stage_at self.old part ≡ Stage.Safe }
        requires follows { (going : List Entry) → going_at self.old part ≡ Some going
            → N.may_follow self.old.latest (trail_in self.old) (told_in self.old) part going }
        ensures keeps { KeepsStore part self.old self.new }
        ensures sound { IsSound self.new }
        ensures ok { stage_at self.new part ≡ Stage.Resting }
        ensures trail { Settles (V.tells self.new.site) (length (V.history self.new.site)) part
            (going_at self.old part) (trail_in self.old) (trail_in self.new) }
        ensures site { self.new.site ≡ self.old.site }
        ensures still { self.new.halted ≡ self.old.halted }
    {
        let place = part as usize;
        let Way::Safe(log, frame) = take_way(&mut self.ways, place) else {
            unreachable!()
        };
        let at = self.site.moment();
        self.due -= frame.entries().len();
        settle_entries(&mut self.trail, part, at, frame);
        put_way(&mut self.ways, place, Way::Resting(log.settled()));
    }

    /// Settles a partition's frame behind its open gate, at this moment. The gate is made safe on the disk first, unless it is already.
    pub fn settle(&mut self, part: u32) -> Result<(), Refusal>
        requires sound { IsSound self.old }
        requires going { self.old.halted ≡ false }
        requires place { part < N.origin.count }
        requires follows { (going : List Entry) → going_at self.old part ≡ Some going
            → is_open (stage_at self.old part) ≡ true
            → N.may_follow self.old.latest (trail_in self.old) (told_in self.old) part going }
        ensures keeps { KeepsStore part self.old self.new }
        ensures sound { IsSound self.new }
        ensures ok { OnOk result (stage_at self.new part ≡ Stage.Resting) }
        ensures trail { OnOk result (Settles (V.tells self.new.site)
            (length (V.history self.new.site)) part (going_at self.old part) (trail_in self.old)
            (trail_in self.new)) }
        ensures no_trail { OnErr result (trail_in self.new ≡ trail_in self.old) }
        ensures frame { OnErr result (going_at self.new part ≡ going_at self.old part) }
        ensures no_frame { result ≡ Err Refusal.NoFrame
            ↔ is_open (stage_at self.old part) ≡ false }
        ensures unchanged { result ≡ Err Refusal.NoFrame → self.new ≡ self.old }
        // One that is safe already costs no device call.
        ensures safe { stage_at self.old part ≡ Stage.Safe
            → OnOk result (self.new.site ≡ self.old.site) × OnErr result ⊥ }
        ensures still { OnOk result (self.new.halted ≡ false) }
        ensures halts { result ≡ Err Refusal.SiteFault → self.new.halted ≡ true }
        ensures broken { result ≡ Err Refusal.SiteFault
            → stage_at self.new part ≡ Stage.BrokenGate }
        ensures halted { HasHalted (V.disk_faults self.old.site) (V.disk_faults self.new.site)
            self.new.halted }
    {
        match reached(&self.ways[part as usize]) {
            Stage::Gated => self.settle_gated(part),
            Stage::Safe => {
                self.settle_safe(part);
                Ok(())
            }
            Stage::Resting
            | Stage::Bodied
            | Stage::Synced
            | Stage::BrokenBody
            | Stage::BrokenGate => Err(Refusal::NoFrame),
        }
    }
}
