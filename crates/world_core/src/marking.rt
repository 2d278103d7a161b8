//! What there was in a life is kept: packets that were sent, and what was known of the logs.

ghost use Rattle.std.specs.Prelude.{◌≡◌, ◌∷◌, [], ◌++◌, ◌<◌, length, Some, IfOk, OnOk, OnErr, slice_get};
ghost use Rattle.cell_frames.specs.Begun.{HasBegun};
ghost use Rattle.cell_frames.specs.Joined.{view_of};
ghost use Rattle.gated_store.specs.Kept.{IsKept};
ghost use Rattle.many_rules.specs.Ledgers.{ledgers, readers};
ghost use Rattle.many_rules.specs.Makes.{Makes};
ghost use Rattle.spec_tracker.specs.declared.marks.Marks.{Marks as KnownMarks};
ghost use Rattle.world_core.specs.Reopens.{IsReopened};
ghost use Rattle.world_steps.specs.Known.{AreMarksOf};

use cell_frames::Reopened;
use gated_store::GatedStore;
use log_items::Packet;
use many_rules::{ByRules, Picked};
use site_model::Site;
use spec_tracker::Marks;
use std::alloc::{AllocError, Global};
use world_steps::marks_now;

/// What is known of the logs now comes behind what was known before.
pub(crate) fn note_marks<V: Site, M: Picked>(
    alloc: Global,
    store: &mut GatedStore<V, ByRules<M>>,
    count: u32,
    marks: &mut Vec<Marks>,
) -> Result<(), AllocError>
    requires begun { HasBegun M.origin M.rules }
    requires kept { IsKept M.origin.count (ledgers M.rules) (readers M.rules) (Makes M.rules)
        store.old }
    requires count { M.rules.count ≡ count }
    ensures kept { IsKept M.origin.count (ledgers M.rules) (readers M.rules) (Makes M.rules)
        store.new }
    ensures logs { store.new.logs ≡ store.old.logs }
    ensures ledgers { store.new.ledgers ≡ store.old.ledgers }
    ensures noted { OnOk result ((now : KnownMarks) × (marks.new.items ≡ marks.old.items ++ now ∷ [])
        × AreMarksOf M.rules (view_of store.old) now) }
    ensures same { OnErr result (marks.new.items ≡ marks.old.items) }
{
    let now = marks_now(alloc, store, count)?;
    marks.push(now)?;
    Ok(())
}

/// These packets come behind those that were sent.
pub(crate) fn note_packets(sent: &mut Vec<Packet>, packets: Vec<Packet>) -> Result<(), AllocError>
    ensures { OnOk result (sent.new.items ≡ sent.old.items ++ packets.items) }
{
    let mut packets = packets;
    sent.append(&mut packets)?;
    Ok(())
}

/// What goes out by now comes behind what was sent, once a partition's log was opened again; and whether a frame was settled by it.
fn note_reopened(sent: &mut Vec<Packet>, reopened: Reopened) -> Result<bool, AllocError>
    ensures { IfOk result (IsReopened sent.old.items sent.new.items reopened) }
{
    match reopened {
        Reopened::Settled(packets) => {
            note_packets(sent, packets)?;
            Ok(true)
        }
        Reopened::Dropped => Ok(false),
    }
}

/// The same, and what is known of the logs now comes behind what was known before.
pub(crate) fn note_taken<V: Site, M: Picked>(
    alloc: Global,
    store: &mut GatedStore<V, ByRules<M>>,
    count: u32,
    sent: &mut Vec<Packet>,
    marks: &mut Vec<Marks>,
    reopened: Reopened,
) -> Result<bool, AllocError>
    requires begun { HasBegun M.origin M.rules }
    requires kept { IsKept M.origin.count (ledgers M.rules) (readers M.rules) (Makes M.rules)
        store.old }
    requires count { M.rules.count ≡ count }
    ensures kept { IsKept M.origin.count (ledgers M.rules) (readers M.rules) (Makes M.rules)
        store.new }
    ensures logs { store.new.logs ≡ store.old.logs }
    ensures ledgers { store.new.ledgers ≡ store.old.ledgers }
    ensures reopened { IfOk result (IsReopened sent.old.items sent.new.items reopened) }
    ensures noted { OnOk result ((now : KnownMarks) × (marks.new.items ≡ marks.old.items ++ now ∷ [])
        × AreMarksOf M.rules (view_of store.old) now) }
    ensures same { OnErr result (marks.new.items ≡ marks.old.items) }
{
    let settled = match note_reopened(sent, reopened) {
        Ok(settled) => settled,
        Err(error) => return Err(error),
    };
    match note_marks(alloc, store, count, marks) {
        Ok(()) => Ok(settled),
        Err(error) => Err(error),
    }
}

/// The packet that was sent at this place.
pub(crate) fn packet_at(packets: &Vec<Packet>, place: usize) -> &Packet
    requires { place < length packets.now.items }
    ensures { slice_get packets.now.items place ≡ Some result.now }
{
    &packets[place]
}

/// What was known of the logs at this place.
pub(crate) fn marks_at(all: &Vec<Marks>, place: usize) -> &Marks
    requires { place < length all.now.items }
    ensures { slice_get all.now.items place ≡ Some result.now }
{
    &all[place]
}
