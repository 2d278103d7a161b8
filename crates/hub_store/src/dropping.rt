//! Dropping a frame whose gate was never tried.

ghost use Rattle.std.specs.Prelude.{◌≡◌, ◌≢◌, ◌≤◌, ◌<◌, ◌+◌, ◌↔◌, ℕ, max, MatchResult, List, true, false, Some, Err, OnOk, OnErr, length, slice_index};
ghost use Rattle.site_model.specs.History.{changes_of, content_of};
ghost use Rattle.site_model.specs.Calls.{HasRisen, HasCause};
ghost use Rattle.commit_log.specs.declared.header.Header.{Header};
ghost use Rattle.commit_log.specs.Segment.{open_gate};
ghost use Rattle.log_items.specs.Plain.{entries_of};
ghost use Rattle.hub_store.specs.Changes.{stage_at, going_at, trail_in, KeepsStore};
ghost use Rattle.hub_store.specs.OpenedAgain.{Drops};
ghost use Rattle.hub_store.specs.Short.{reach_of};
ghost use Rattle.hub_store.specs.Sound.{IsSound};
ghost use Rattle.hub_store.specs.Ways.{WayFits, way_of, stage_of, is_untried, going_in, gate_of, due_in};

use crate::refusal::Refusal;
use crate::start::Start;
use crate::store::Store;
use crate::way::{Stage, Way, put_way, reached, take_way};
use commit_log::{BrokenBody, Resting};
use log_items::Frame;
use site_model::Site;

/// Drops the frame of a log whose gate was never tried.
fn drop_log<V: Site>(site: &mut V, way: Way) -> (Result<Resting, BrokenBody>, Frame)
    requires untried { is_untried (stage_of way) ≡ true }
    requires there { way ≢ Way.Away }
    ensures tells { V.tells site.new → V.tells site.old }
    ensures drops { V.tells site.new → (file : ℕ) (h : Header) (payloads : List (List ℕ))
        → WayFits file h payloads (changes_of file (V.history site.old)) way
        → Drops file h payloads (V.history site.old) (V.history site.new) result.0 }
    ensures going { going_in way ≡ Some (entries_of result.1) }
    ensures due { due_in way ≡ length result.1 }
    ensures reach { MatchResult result.0 (λ log. log.gate + 1 ≤ reach_of way)
        (λ log. max log.gate log.next + 1 ≤ reach_of way) }
    ensures cause { HasCause (V.disk_faults site.old) (V.disk_faults site.new) result.0 }
    ensures say_faults { V.say_faults site.new ≡ V.say_faults site.old }
{
    match way {
        Way::Bodied(log, frame) => (log.drop_frame(site), frame),
        Way::Synced(log, frame) => (log.drop_frame(site), frame),
        Way::BrokenBody(log, frame) => (log.drop_frame(site), frame),
        Way::Resting(_) | Way::Gated(_, _) | Way::Safe(_, _) | Way::BrokenGate(_, _) | Way::Away =>
            unreachable!(),
    }
}

impl<V: Site, N: Start> Store<V, N> {
    /// Drops a partition's frame whose gate was never tried, also after a device call failed. Its file is synced, and nothing is read
    /// or settled. Then no frame is under way, and the store goes on.
    pub fn drop_frame(&mut self, part: u32) -> Result<(), Refusal>
        requires sound { IsSound self.old }
        requires whole { self.old.cut ≡ false }
        requires place { part < N.origin.count }
        ensures keeps { KeepsStore part self.old self.new }
        ensures sound { IsSound self.new }
        ensures ok { OnOk result (stage_at self.new part ≡ Stage.Resting) }
        ensures trail { trail_in self.new ≡ trail_in self.old }
        // So the frame is on no crash image.
        ensures closed { V.tells self.new.site → OnOk result
            (slice_index (content_of (N.origin.logs part).file (V.history self.old.site))
            (gate_of (way_of self.old.ways.items part)) ≢ open_gate) }
        ensures frame { OnErr result (going_at self.new part ≡ going_at self.old part) }
        ensures broken { result ≡ Err Refusal.SiteFault
            → stage_at self.new part ≡ Stage.BrokenBody }
        // No frame is under way, or one whose gate was tried.
        ensures no_frame { result ≡ Err Refusal.NoFrame
            ↔ is_untried (stage_at self.old part) ≡ false }
        ensures unchanged { result ≡ Err Refusal.NoFrame → self.new ≡ self.old }
        ensures still { OnOk result (self.new.halted ≡ false) }
        ensures halts { result ≡ Err Refusal.SiteFault → self.new.halted ≡ true }
        ensures fault { result ≡ Err Refusal.SiteFault
            → HasRisen (V.disk_faults self.old.site) (V.disk_faults self.new.site) }
        ensures same { OnOk result (V.disk_faults self.new.site ≡ V.disk_faults self.old.site) }
    {
        let place = part as usize;
        if !reached(&self.ways[place]).is_untried() {
            return Err(Refusal::NoFrame);
        }
        let way = take_way(&mut self.ways, place);
        let (answer, frame) = drop_log(&mut self.site, way);
        match answer {
            Ok(log) => {
                self.due -= frame.entries().len();
                frame.let_go();
                put_way(&mut self.ways, place, Way::Resting(log));
                self.halted = false;
                Ok(())
            }
            Err(log) => {
                put_way(&mut self.ways, place, Way::BrokenBody(log, frame));
                self.halted = true;
                Err(Refusal::SiteFault)
            }
        }
    }
}
