//! Writing a frame.

ghost use Rattle.std.specs.Prelude.{◌≡◌, ◌≢◌, ◌⊎◌, ◌↔◌, IsTrue, ◌+◌, ◌≤◌, ◌<◌, ◌^◌, ℕ, List, true, false, Some, None, Err, OnOk, IfOk, length};
ghost use Rattle.site_model.specs.History.{changes_of};
ghost use Rattle.site_model.specs.Calls.{HasRisen};
ghost use Rattle.site_model.specs.Moments.{LeavesOnly};
ghost use Rattle.commit_log.specs.declared.header.Header.{Header};
ghost use Rattle.commit_log.specs.States.{IsResting, Rests, HasFrames};
ghost use Rattle.log_items.specs.Plain.{entries_of};
ghost use Rattle.part_items.specs.Spelling.{spell_frame, CanSpellFrame};
ghost use Rattle.hub_store.specs.Changes.{stage_at, going_at, trail_in, KeepsStore};
ghost use Rattle.hub_store.specs.Frames.{goes_on, GoesBehind, length_with};
ghost use Rattle.hub_store.specs.Short.{reach_of};
ghost use Rattle.hub_store.specs.Sound.{IsSound};
ghost use Rattle.hub_store.specs.Trail.{of_part};
ghost use Rattle.hub_store.specs.Ways.{WayFits, way_of, stage_of, going_in, due_in};

use crate::refusal::Unwritten;
use crate::start::Start;
use crate::store::Store;
use crate::way::{Stage, Way, due, put_way, take_way};
use commit_log::{BodyError, Resting};
use log_items::Frame;
use part_items::write_frame;
use site_model::Site;
use std::alloc::{AllocError, Global};

/// What a frame is written as.
fn payload_of(alloc: Global, frame: &Frame) -> Result<Vec<u8>, AllocError>
    requires { CanSpellFrame (entries_of frame.now) }
    ensures { IfOk result (λ v. v.items ≡ spell_frame (entries_of frame.now)) }
{
    let mut payload = Vec::new(alloc);
    write_frame(&mut payload, frame)?;
    Ok(payload)
}

/// Whether the disk failed.
fn has_failed(answer: &Result<(), Unwritten>) -> bool
    ensures { IsTrue result ↔ answer.now ≡ Err Unwritten.SiteFault }
{
    match answer {
        Err(Unwritten::SiteFault) => true,
        _ => false,
    }
}

/// Writes a frame behind the closed gate of a log.
fn body_log<V: Site>(
    alloc: Global,
    site: &mut V,
    log: Resting,
    payload: &[u8],
    part: u32,
    frame: Frame,
    limit: u64,
) -> (Way, Result<(), Unwritten>)
    requires limit { limit ≤ 2 ^ 31 }
    requires rests { V.tells site.old → Rests (changes_of log.file (V.history site.old)) log.gate }
    requires spelled { payload.now ≡ spell_frame (entries_of frame) }
    ensures tells { V.tells site.new → V.tells site.old }
    ensures during { (h : Header) (payloads : List (List ℕ))
        → IsResting (changes_of log.file (V.history site.old)) h payloads log.gate
        → LeavesOnly log.file (V.history site.old) (V.history site.new)
        (HasFrames h payloads log.gate) }
    ensures fits { (h : Header) (payloads : List (List ℕ))
        → IsResting (changes_of log.file (V.history site.old)) h payloads log.gate
        → WayFits log.file h payloads (changes_of log.file (V.history site.new)) result.0 }
    ensures going { (going_in result.0 ≡ None) ⊎ (going_in result.0 ≡ Some (entries_of frame)) }
    ensures due { due_in result.0 ≤ length frame }
    ensures short { (h : Header) (payloads : List (List ℕ))
        → IsResting (changes_of log.file (V.history site.old)) h payloads log.gate
        → (result.0 ≡ Way.Resting log) ⊎ (reach_of result.0 < limit) }
    ensures there { result.0 ≢ Way.Away }
    ensures ok { OnOk result.1 ((stage_of result.0 ≡ Stage.Bodied)
        × (going_in result.0 ≡ Some (entries_of frame))) }
    ensures full { limit ≤ log.gate + 6 + length payload.now
        → result.1 ≡ Err (Unwritten.Full part (log.gate + 6 + length payload.now) frame) }
    ensures untouched { (of n : ℕ) (back : _) → result.1 ≡ Err (Unwritten.Full of n back)
        → (back ≡ frame) × (of ≡ part) × (limit ≤ n) × (n ≡ log.gate + 6 + length payload.now)
        × (result.0 ≡ Way.Resting log) × (V.history site.new ≡ V.history site.old) }
    ensures memory { (back : _) → result.1 ≡ Err (Unwritten.Memory back)
        → (back ≡ frame) × (result.0 ≡ Way.Resting log)
        × (V.history site.new ≡ V.history site.old) }
    ensures broken { result.1 ≡ Err Unwritten.SiteFault
        → (stage_of result.0 ≡ Stage.BrokenBody) × (going_in result.0 ≡ Some (entries_of frame)) }
    ensures fault { result.1 ≡ Err Unwritten.SiteFault
        → HasRisen (V.disk_faults site.old) (V.disk_faults site.new) }
    ensures later { V.disk_faults site.old ≤ V.disk_faults site.new }
    ensures say_faults { V.say_faults site.new ≡ V.say_faults site.old }
{
    match log.body(alloc, site, payload, limit) {
        Ok(log) => (Way::Bodied(log, frame), Ok(())),
        Err(BodyError::Full { length, log }) => {
            (
                Way::Resting(log),
                Err(Unwritten::Full {
                    partition: part,
                    length,
                    frame,
                }),
            )
        }
        Err(BodyError::SiteFault(log)) => (Way::BrokenBody(log, frame), Err(Unwritten::SiteFault)),
        Err(BodyError::Memory(log)) => (Way::Resting(log), Err(Unwritten::Memory(frame))),
    }
}

impl<V: Site, N: Start> Store<V, N> {
    /// Writes a frame of a partition, which goes on its log, behind the closed gate, unless the file would come to the
    /// segment's length or more. The trail is given room for it, so that settling it wants no memory. Where nothing is written the
    /// frame comes back.
    pub fn body(&mut self, alloc: Global, part: u32, frame: Frame) -> Result<(), Unwritten>
        requires sound { IsSound self.old }
        requires going { self.old.halted ≡ false }
        requires place { part < N.origin.count }
        requires rests { stage_at self.old part ≡ Stage.Resting }
        requires behind { GoesBehind (goes_on (N.origin.logs part)
            (of_part part (trail_in self.old))) (entries_of frame) }
        ensures keeps { KeepsStore part self.old self.new }
        ensures sound { IsSound self.new }
        ensures ok { OnOk result ((stage_at self.new part ≡ Stage.Bodied)
            × (going_at self.new part ≡ Some (entries_of frame))) }
        ensures trail { trail_in self.new ≡ trail_in self.old }
        ensures full { self.old.segment ≤ length_with (way_of self.old.ways.items part)
            (entries_of frame) → (result ≡ Err (Unwritten.Memory frame))
            ⊎ (result ≡ Err (Unwritten.Full part
            (length_with (way_of self.old.ways.items part) (entries_of frame)) frame)) }
        ensures room { (of n : ℕ) (back : _) → result ≡ Err (Unwritten.Full of n back)
            → (back ≡ frame) × (of ≡ part) × (self.old.segment ≤ n)
            × (n ≡ length_with (way_of self.old.ways.items part) (entries_of frame))
            × (V.history self.new.site ≡ V.history self.old.site)
            × (way_of self.new.ways.items part ≡ way_of self.old.ways.items part) }
        ensures memory { (back : _) → result ≡ Err (Unwritten.Memory back)
            → (back ≡ frame) × (V.history self.new.site ≡ V.history self.old.site)
            × (stage_at self.new part ≡ Stage.Resting) }
        ensures broken { result ≡ Err Unwritten.SiteFault
            → (stage_at self.new part ≡ Stage.BrokenBody)
            × (going_at self.new part ≡ Some (entries_of frame)) }
        ensures halts { result ≡ Err Unwritten.SiteFault ↔ self.new.halted ≡ true }
        ensures still { OnOk result (self.new.halted ≡ false) }
        ensures fault { self.new.halted ≡ true
            → HasRisen (V.disk_faults self.old.site) (V.disk_faults self.new.site) }
    {
        let payload = match payload_of(alloc, &frame) {
            Ok(payload) => payload,
            Err(_) => return Err(Unwritten::Memory(frame)),
        };
        let Some(all_due) = self.due.checked_add(frame.entries().len()) else {
            return Err(Unwritten::Memory(frame));
        };
        match self.trail.reserve(all_due) {
            Ok(()) => {}
            Err(_) => return Err(Unwritten::Memory(frame)),
        }
        let place = part as usize;
        let Way::Resting(log) = take_way(&mut self.ways, place) else {
            unreachable!()
        };
        let (way, result) = body_log(
            alloc,
            &mut self.site,
            log,
            &payload,
            part,
            frame,
            self.segment,
        );
        let more = due(&way);
        self.due += more;
        put_way(&mut self.ways, place, way);
        self.halted = has_failed(&result);
        result
    }
}
