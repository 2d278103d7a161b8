//! A whole commit of an entry that takes nothing from other partitions and sends them nothing: from Ok on each crash leaves the entry.

ghost use Rattle.std.specs.Prelude.{◌≡◌, ◌⊎◌, ◌≤◌, ◌<◌, ◌+◌, ◌^◌, ℕ, List, [], ◌∷◌, ◌++◌, false, Some, Err, IfOk, OnOk, OnErr, length};
ghost use Rattle.std.specs.List.{All};
ghost use Rattle.commit_gate.specs.Ledgers.{log_length, after_frame};
ghost use Rattle.commit_gate.specs.Unlost.{IsFrameUnlost};
ghost use Rattle.commit_gate.specs.Views.{floors_of};
ghost use Rattle.dura_value.specs.Items.{Entry as PlainEntry};
ghost use Rattle.gated_store.specs.Commits.{NamesNone};
ghost use Rattle.gated_store.specs.Keeps.{KeepsGate};
ghost use Rattle.gated_store.specs.Kept.{IsKept};
ghost use Rattle.hub_store.specs.Changes.{stage_at, going_at, trail_in, told_in, Settles};
ghost use Rattle.hub_store.specs.Frames.{goes_on, GoesBehind, length_with};
ghost use Rattle.hub_store.specs.Trail.{of_part};
ghost use Rattle.hub_store.specs.Ways.{way_of};
ghost use Rattle.log_items.specs.Entries.{items_in};
ghost use Rattle.log_items.specs.Plain.{entry_of, entries_of};
ghost use Rattle.site_model.specs.Calls.{HasRisen};

use crate::local::Local;
use crate::refusal::GateRefusal;
use crate::store::GatedStore;
use hub_store::{BodyRefusal, Stage};
use log_items::{Entry, Frame};
use site_model::Site;
use std::alloc::{AllocError, Global};

/// Writes a frame of a partition that sends nothing, and makes it safe behind the closed gate.
fn write<V: Site, L: Local>(
    alloc: Global,
    store: &mut GatedStore<V, L>,
    part: u32,
    frame: Frame,
) -> Result<(), BodyRefusal>
    requires kept { IsKept L.origin.count L.ledgers L.readers L.may_make store.old }
    requires going { store.old.logs.halted ≡ false }
    requires place { part < L.origin.count }
    requires rests { stage_at store.old.logs part ≡ Stage.Resting }
    requires behind { GoesBehind (goes_on (L.origin.logs part)
        (of_part part (trail_in store.old.logs))) (entries_of frame) }
    requires numbers { log_length (L.ledgers part (of_part part (trail_in store.old.logs)))
        + length frame ≤ 2 ^ 62 }
    requires none { All NamesNone (items_in (entries_of frame)) }
    requires may { L.may_make store.old.logs.latest (of_part part (trail_in store.old.logs))
        (told_in store.old.logs) part (entries_of frame) }
    requires makes { L.ledgers part (of_part part (trail_in store.old.logs) ++ entries_of frame)
        ≡ after_frame (L.ledgers part (of_part part (trail_in store.old.logs)))
        (entries_of frame) [] }
    requires unlost { IsFrameUnlost
        (log_length (L.ledgers part (of_part part (trail_in store.old.logs))))
        (floors_of store.old.ledgers.items part) (entries_of frame) }
    ensures keeps { KeepsGate part store.old store.new }
    ensures kept { IsKept L.origin.count L.ledgers L.readers L.may_make store.new }
    ensures stage { OnOk result (stage_at store.new.logs part ≡ Stage.Synced) }
    ensures frame { OnOk result (going_at store.new.logs part ≡ Some (entries_of frame)) }
    ensures still { OnOk result (store.new.logs.halted ≡ false) }
    ensures trail { trail_in store.new.logs ≡ trail_in store.old.logs }
    ensures full { store.old.logs.segment ≤ length_with (way_of store.old.logs.ways.items part)
        (entries_of frame) → (result ≡ Err BodyRefusal.Memory)
        ⊎ (result ≡ Err (BodyRefusal.Full part
        (length_with (way_of store.old.logs.ways.items part) (entries_of frame)))) }
    ensures room { (of n : ℕ) → result ≡ Err (BodyRefusal.Full of n)
        → (of ≡ part) × (store.old.logs.segment ≤ n)
        × (n ≡ length_with (way_of store.old.logs.ways.items part) (entries_of frame))
        × (V.history store.new.logs.site ≡ V.history store.old.logs.site)
        × (way_of store.new.logs.ways.items part ≡ way_of store.old.logs.ways.items part) }
    ensures fault { result ≡ Err BodyRefusal.SiteFault
        → HasRisen (V.disk_faults store.old.logs.site) (V.disk_faults store.new.logs.site) }
{
    match store.body(alloc, part, frame, Vec::new(alloc)) {
        Ok(()) => {}
        Err(refused) => return Err(refused.let_go(part)),
    }
    match store.sync_body(part) {
        Ok(()) => Ok(()),
        Err(_) => Err(BodyRefusal::SiteFault),
    }
}

/// Opens the gate before a safe frame of a partition that takes nothing from others, and makes it safe too.
fn open<V: Site, L: Local>(store: &mut GatedStore<V, L>, part: u32) -> Result<(), BodyRefusal>
    requires kept { IsKept L.origin.count L.ledgers L.readers L.may_make store.old }
    requires going { store.old.logs.halted ≡ false }
    requires place { part < L.origin.count }
    requires safe { stage_at store.old.logs part ≡ Stage.Synced }
    requires none { (going : List PlainEntry) → going_at store.old.logs part ≡ Some going
        → All NamesNone (items_in going) }
    ensures keeps { KeepsGate part store.old store.new }
    ensures kept { IsKept L.origin.count L.ledgers L.readers L.may_make store.new }
    ensures stage { OnOk result (stage_at store.new.logs part ≡ Stage.Resting) }
    ensures trail { OnOk result (Settles (V.tells store.new.logs.site)
        (length (V.history store.new.logs.site)) part (going_at store.old.logs part)
        (trail_in store.old.logs) (trail_in store.new.logs)) }
    ensures no_trail { OnErr result (trail_in store.new.logs ≡ trail_in store.old.logs) }
    ensures still { OnOk result (store.new.logs.halted ≡ false) }
    ensures stops { OnErr result (result ≡ Err BodyRefusal.SiteFault) }
    ensures fault { OnErr result (HasRisen (V.disk_faults store.old.logs.site)
        (V.disk_faults store.new.logs.site)) }
{
    match store.gate(part) {
        Ok(()) => {}
        Err(GateRefusal::SiteFault) => return Err(BodyRefusal::SiteFault),
        Err(GateRefusal::NoFrame) => unreachable!(),
        Err(GateRefusal::Unmet(_)) => unreachable!(),
    }
    match store.settle(part) {
        Ok(()) => Ok(()),
        Err(_) => Err(BodyRefusal::SiteFault),
    }
}

/// A frame of one entry.
fn frame_of(alloc: Global, entry: Entry) -> Result<Frame, AllocError>
    ensures { IfOk result (λ frame. entries_of frame ≡ entry_of entry ∷ []) }
{
    let mut entries = Vec::new(alloc);
    entries.push(entry)?;
    Ok(Frame::of(entries))
}

/// Commits an entry of a partition as a frame of its own, which names no entry and sends nothing: so the gate has nothing to compare,
/// and from Ok on each crash leaves the entry.
pub fn commit<V: Site, L: Local>(
    alloc: Global,
    store: &mut GatedStore<V, L>,
    part: u32,
    entry: Entry,
) -> Result<(), BodyRefusal>
    requires kept { IsKept L.origin.count L.ledgers L.readers L.may_make store.old }
    requires going { store.old.logs.halted ≡ false }
    requires place { part < L.origin.count }
    requires rests { stage_at store.old.logs part ≡ Stage.Resting }
    requires behind { GoesBehind (goes_on (L.origin.logs part)
        (of_part part (trail_in store.old.logs))) (entry_of entry ∷ []) }
    requires numbers { log_length (L.ledgers part (of_part part (trail_in store.old.logs)))
        < 2 ^ 62 }
    requires none { All NamesNone (items_in (entry_of entry ∷ [])) }
    requires may { L.may_make store.old.logs.latest (of_part part (trail_in store.old.logs))
        (told_in store.old.logs) part (entry_of entry ∷ []) }
    requires makes { L.ledgers part (of_part part (trail_in store.old.logs) ++ entry_of entry ∷ [])
        ≡ after_frame (L.ledgers part (of_part part (trail_in store.old.logs)))
        (entry_of entry ∷ []) [] }
    requires unlost { IsFrameUnlost
        (log_length (L.ledgers part (of_part part (trail_in store.old.logs))))
        (floors_of store.old.ledgers.items part) (entry_of entry ∷ []) }
    ensures keeps { KeepsGate part store.old store.new }
    ensures kept { IsKept L.origin.count L.ledgers L.readers L.may_make store.new }
    ensures stage { OnOk result (stage_at store.new.logs part ≡ Stage.Resting) }
    ensures trail { OnOk result (of_part part (trail_in store.new.logs)
        ≡ of_part part (trail_in store.old.logs) ++ entry_of entry ∷ []) }
    ensures no_trail { OnErr result (trail_in store.new.logs ≡ trail_in store.old.logs) }
    ensures still { OnOk result (store.new.logs.halted ≡ false) }
    ensures full { store.old.logs.segment ≤ length_with (way_of store.old.logs.ways.items part)
        (entry_of entry ∷ []) → (result ≡ Err BodyRefusal.Memory)
        ⊎ (result ≡ Err (BodyRefusal.Full part
        (length_with (way_of store.old.logs.ways.items part) (entry_of entry ∷ [])))) }
    ensures room { (of n : ℕ) → result ≡ Err (BodyRefusal.Full of n)
        → (of ≡ part) × (store.old.logs.segment ≤ n)
        × (n ≡ length_with (way_of store.old.logs.ways.items part) (entry_of entry ∷ []))
        × (V.history store.new.logs.site ≡ V.history store.old.logs.site)
        × (way_of store.new.logs.ways.items part ≡ way_of store.old.logs.ways.items part) }
    ensures fault { result ≡ Err BodyRefusal.SiteFault
        → HasRisen (V.disk_faults store.old.logs.site) (V.disk_faults store.new.logs.site) }
{
    let frame = frame_of(alloc, entry)?;
    write(alloc, store, part, frame)?;
    open(store, part)
}
