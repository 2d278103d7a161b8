//! Making the files of several frames safe by one device call.

ghost use Rattle.std.specs.Prelude.{◌≡◌, ◌≢◌, ◌<◌, ◌↔◌, ℕ, List, [], ◌∷◌, true, false, Some, Err, OnOk, OnErr, IfOk, MatchOption};
ghost use Rattle.site_model.specs.History.{syncing};
ghost use Rattle.dura_value.specs.Items.{Entry};
ghost use Rattle.hub_store.specs.Changes.{stage_at, going_at, trail_in, told_in, KeepsAll, HasHalted};
ghost use Rattle.hub_store.specs.Sound.{IsSound};
ghost use Rattle.hub_store.specs.Waiting.{waits, waiting, stage_behind, IsBehind, AreBehind};

use crate::refusal::SyncRefusal;
use crate::start::Start;
use crate::store::Store;
use crate::way::{Stage, Way, put_way, take_way};
use site_model::Site;
use std::alloc::{AllocError, Global};

/// The file of a frame that waits to be made safe.
fn waiting_file(way: &Way) -> Option<u32>
    ensures { MatchOption result (waiting (way.now ∷ []) ≡ [])
        (λ file. waiting (way.now ∷ []) ≡ file ∷ []) }
{
    match way {
        Way::Bodied(log, _) => Some(log.file),
        Way::Gated(log, _) => Some(log.file),
        Way::Resting(_)
        | Way::Synced(_, _)
        | Way::Safe(_, _)
        | Way::BrokenBody(_, _)
        | Way::BrokenGate(_, _)
        | Way::Away => None,
    }
}

/// The files of all that wait.
fn waiting_files(alloc: Global, ways: &[Way]) -> Result<Vec<u32>, AllocError>
    ensures files { IfOk result (λ files. files.items ≡ waiting ways.now) }
    ensures some { OnErr result (waiting ways.now ≢ []) }
{
    let mut files = Vec::new(alloc);
    for way in ways {
        if let Some(file) = waiting_file(way) {
            files.push(file)?;
        }
    }
    Ok(files)
}

/// A frame behind the call that made all files safe, or failed to.
fn behind(way: Way, safe: bool) -> Way
    ensures { IsBehind safe way result }
{
    match (way, safe) {
        (Way::Bodied(log, frame), true) => Way::Synced(log.synced(), frame),
        (Way::Bodied(log, frame), false) => Way::BrokenBody(log.failed(), frame),
        (Way::Gated(log, frame), true) => Way::Safe(log, frame),
        (Way::Gated(log, frame), false) => Way::BrokenGate(log.failed(), frame),
        (other, _) => other,
    }
}

/// All frames behind it.
fn lead_on(ways: &mut Vec<Way>, safe: bool)
    ensures { AreBehind safe ways.old.items ways.new.items }
{
    for place in 0..ways.len() {
        let way = take_way(ways, place);
        put_way(ways, place, behind(way, safe));
    }
}

impl<V: Site, N: Start> Store<V, N> {
    /// Makes safe, by one device call, the files of all partitions whose frame is written and not yet safe, or its open gate. A frame
    /// behind its open gate is then to be settled, for which `settle` makes no further call.
    pub fn sync_all(&mut self, alloc: Global) -> Result<(), SyncRefusal>
        requires sound { IsSound self.old }
        requires going { self.old.halted ≡ false }
        requires follows { (part : ℕ) → part < N.origin.count → (going : List Entry)
            → going_at self.old part ≡ Some going → stage_at self.old part ≡ Stage.Gated
            → N.may_follow self.old.latest (trail_in self.old) (told_in self.old) part going }
        ensures keeps { KeepsAll self.old self.new }
        ensures sound { IsSound self.new }
        ensures ok { OnOk result ((part : ℕ) → stage_at self.new part
            ≡ stage_behind true (stage_at self.old part)) }
        ensures broken { result ≡ Err SyncRefusal.SiteFault → (part : ℕ)
            → stage_at self.new part ≡ stage_behind false (stage_at self.old part) }
        ensures frames { (part : ℕ) → going_at self.new part ≡ going_at self.old part }
        ensures trail { trail_in self.new ≡ trail_in self.old }
        // Each file that waits is synced once, in the order of the partitions.
        ensures synced { OnOk result (V.history self.new.site
            ≡ syncing (waiting self.old.ways.items) (V.history self.old.site)) }
        ensures no_frame { result ≡ Err SyncRefusal.NoFrame
            ↔ ((part : ℕ) → waits (stage_at self.old part) ≡ false) }
        ensures unchanged { result ≡ Err SyncRefusal.NoFrame → self.new ≡ self.old }
        ensures memory { result ≡ Err SyncRefusal.Memory → self.new ≡ self.old }
        ensures still { OnOk result (self.new.halted ≡ false) }
        ensures halts { result ≡ Err SyncRefusal.SiteFault → self.new.halted ≡ true }
        ensures halted { HasHalted (V.disk_faults self.old.site) (V.disk_faults self.new.site)
            self.new.halted }
    {
        let Ok(files) = waiting_files(alloc, &self.ways) else {
            return Err(SyncRefusal::Memory);
        };
        if files.is_empty() {
            return Err(SyncRefusal::NoFrame);
        }
        match self.site.sync_files(&files) {
            Ok(()) => {
                lead_on(&mut self.ways, true);
                Ok(())
            }
            Err(_) => {
                lead_on(&mut self.ways, false);
                self.halted = true;
                Err(SyncRefusal::SiteFault)
            }
        }
    }
}
