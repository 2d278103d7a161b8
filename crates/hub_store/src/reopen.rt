//! Going on after a device call on a gate that failed.

ghost use Rattle.std.specs.Prelude.{◌≡◌, ◌≤◌, ◌<◌, ◌+◌, ◌↔◌, ℕ, max, MatchResult, List, true, false, Some, Err, Ok, OnOk, OnErr, IfOk, length, slice_index};
ghost use Rattle.site_model.specs.History.{changes_of, content_of};
ghost use Rattle.site_model.specs.Calls.{HasRisen, HasCause};
ghost use Rattle.commit_log.specs.declared.header.Header.{Header};
ghost use Rattle.commit_log.specs.Segment.{open_gate};
ghost use Rattle.dura_value.specs.Items.{Entry};
ghost use Rattle.log_items.specs.Plain.{entries_of};
ghost use Rattle.part_items.specs.Spelling.{spell_frame};
ghost use Rattle.hub_store.specs.Changes.{stage_at, going_at, trail_in, told_in, KeepsStore, Settles};
ghost use Rattle.hub_store.specs.OpenedAgain.{Reopens};
ghost use Rattle.hub_store.specs.Short.{reach_of};
ghost use Rattle.hub_store.specs.Sound.{IsSound};
ghost use Rattle.hub_store.specs.Ways.{WayFits, way_of, stage_of, is_tried, going_in, gate_of, due_in};

use crate::refusal::Refusal;
use crate::start::Start;
use crate::store::Store;
use crate::trail::settle_entries;
use crate::way::{Stage, Way, put_way, reached, take_way};
use commit_log::{BrokenGate, Reopened};
use log_items::Frame;
use site_model::Site;

/// What became of the frame that was under way.
#[derive(Clone, Copy, PartialEq, Eq)]
pub enum Reopening {
    /// Its gate read open: its entries are settled.
    Settled,
    /// Its gate did not read open: it is gone.
    Dropped,
}

/// Opens a log again whose gate was tried.
fn reopen_log<V: Site>(site: &mut V, way: Way) -> (Result<Reopened, BrokenGate>, Frame)
    requires { is_tried (stage_of way) ≡ true }
    ensures tells { V.tells site.new → V.tells site.old }
    ensures reopens { V.tells site.new → (file : ℕ) (h : Header) (payloads : List (List ℕ))
        → WayFits file h payloads (changes_of file (V.history site.old)) way
        → Reopens file h payloads (spell_frame (entries_of result.1)) (gate_of way)
        (V.history site.old) (V.history site.new) result.0 }
    ensures going { going_in way ≡ Some (entries_of result.1) }
    ensures due { due_in way ≡ length result.1 }
    ensures reach { MatchResult result.0 (λ found. found.log.gate + 1 ≤ reach_of way)
        (λ log. max log.gate log.next + 1 ≤ reach_of way) }
    ensures cause { HasCause (V.disk_faults site.old) (V.disk_faults site.new) result.0 }
    ensures say_faults { V.say_faults site.new ≡ V.say_faults site.old }
{
    match way {
        Way::Gated(log, frame) => (log.reopen(site), frame),
        Way::Safe(log, frame) => (log.reopen(site), frame),
        Way::BrokenGate(log, frame) => (log.reopen(site), frame),
        Way::Resting(_)
        | Way::Bodied(_, _)
        | Way::Synced(_, _)
        | Way::BrokenBody(_, _)
        | Way::Away => unreachable!(),
    }
}

impl<V: Site, N: Start> Store<V, N> {
    /// Opens a partition's log again whose gate was tried, also after a device call failed. Where the gate reads open the frame is
    /// settled, at this moment, else it is dropped. Then no frame is under way, and the store goes on.
    pub fn reopen(&mut self, part: u32) -> Result<Reopening, Refusal>
        requires sound { IsSound self.old }
        requires whole { self.old.cut ≡ false }
        requires place { part < N.origin.count }
        requires follows { (going : List Entry) → going_at self.old part ≡ Some going
            → is_tried (stage_at self.old part) ≡ true
            → N.may_follow self.old.latest (trail_in self.old) (told_in self.old) part going }
        ensures keeps { KeepsStore part self.old self.new }
        ensures sound { IsSound self.new }
        ensures ok { OnOk result (stage_at self.new part ≡ Stage.Resting) }
        ensures settled { result ≡ Ok Reopening.Settled
            → Settles (V.tells self.new.site) (length (V.history self.new.site)) part
            (going_at self.old part) (trail_in self.old) (trail_in self.new) }
        ensures dropped { result ≡ Ok Reopening.Dropped → trail_in self.new ≡ trail_in self.old }
        ensures no_trail { OnErr result (trail_in self.new ≡ trail_in self.old) }
        ensures opened { V.tells self.new.site
            → IfOk result (λ found. found ≡ Reopening.Settled
            ↔ slice_index (content_of (N.origin.logs part).file (V.history self.old.site))
            (gate_of (way_of self.old.ways.items part)) ≡ open_gate) }
        ensures frame { OnErr result (going_at self.new part ≡ going_at self.old part) }
        ensures broken { result ≡ Err Refusal.SiteFault
            → stage_at self.new part ≡ Stage.BrokenGate }
        // No frame is under way, or none whose gate was tried.
        ensures no_frame { result ≡ Err Refusal.NoFrame
            ↔ is_tried (stage_at self.old part) ≡ false }
        ensures unchanged { result ≡ Err Refusal.NoFrame → self.new ≡ self.old }
        ensures still { OnOk result (self.new.halted ≡ false) }
        ensures halts { result ≡ Err Refusal.SiteFault → self.new.halted ≡ true }
        ensures fault { result ≡ Err Refusal.SiteFault
            → HasRisen (V.disk_faults self.old.site) (V.disk_faults self.new.site) }
        ensures same { OnOk result (V.disk_faults self.new.site ≡ V.disk_faults self.old.site) }
    {
        let place = part as usize;
        if !reached(&self.ways[place]).is_tried() {
            return Err(Refusal::NoFrame);
        }
        let way = take_way(&mut self.ways, place);
        let (answer, frame) = reopen_log(&mut self.site, way);
        let found = match answer {
            Ok(found) => found,
            Err(log) => {
                put_way(&mut self.ways, place, Way::BrokenGate(log, frame));
                self.halted = true;
                return Err(Refusal::SiteFault);
            }
        };
        self.due -= frame.entries().len();
        put_way(&mut self.ways, place, Way::Resting(found.log));
        self.halted = false;
        if !found.settled {
            return Ok(Reopening::Dropped);
        }
        let at = self.site.moment();
        settle_entries(&mut self.trail, part, at, frame);
        Ok(Reopening::Settled)
    }
}
