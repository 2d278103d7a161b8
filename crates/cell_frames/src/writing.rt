//! A cell's frame is written.

ghost use Rattle.std.specs.Prelude.{◌≡◌, ◌≢◌, ◌<◌, ℕ, true, false, Ok, Err};
ghost use Rattle.cell_frames.specs.Begun.{HasBegun};
ghost use Rattle.cell_frames.specs.Joined.{Joined, view_of};
ghost use Rattle.cell_frames.specs.Fills.{WouldFill};
ghost use Rattle.cell_frames.specs.Writes.{Writes, IsFull, KeepsOthers};
ghost use Rattle.hub_store.specs.Ways.{way_of};
ghost use Rattle.gated_store.specs.Keeps.{KeepsGate};
ghost use Rattle.gated_store.specs.Kept.{IsKept};
ghost use Rattle.many_rules.specs.Ledgers.{ledgers, readers};
ghost use Rattle.many_rules.specs.Makes.{Makes};
ghost use Rattle.site_model.specs.Calls.{HasRisen};

use crate::seat::Seat;
use gated_store::{BodyRefused, GatedStore};
use hub_store::BodyRefusal;
use many_rules::{ByRules, Picked};
use site_model::Site;
use spec_cell::Cell;
use spec_tracker::Marks;
use std::alloc::Global;

/// Picks the first entries of a cell that may go, by these marks, and writes them as a frame behind the closed gate of the partition's
/// log. Where none may go, or a frame is out already, it answers false and nothing is done; where the frame isn't written, it comes back
/// into the cell, unless the disk failed.
pub fn write_frame<V: Site, M: Picked>(
    alloc: Global,
    store: &mut GatedStore<V, ByRules<M>>,
    cell: &mut Cell<Seat<M>>,
    part: u32,
    marks: &Marks,
) -> Result<bool, BodyRefusal>
    requires begun { HasBegun M.origin M.rules }
    requires kept { IsKept M.origin.count (ledgers M.rules) (readers M.rules) (Makes M.rules)
        store.old }
    requires still { store.old.logs.halted ≡ false }
    requires place { part < M.rules.count }
    requires going { cell.old.going ≡ true }
    requires joined { Joined M.rules (view_of store.old) part cell.old }
    ensures kept { IsKept M.origin.count (ledgers M.rules) (readers M.rules) (Makes M.rules)
        store.new }
    ensures keeps { KeepsGate part store.old store.new }
    ensures joined { Joined M.rules (view_of store.new) part cell.new }
    ensures others { KeepsOthers M.rules part (view_of store.old) (view_of store.new) }
    ensures writes { Writes M.rules part marks.now (view_of store.old) (view_of store.new) cell.old
        cell.new result }
    ensures full { (at length : ℕ) → result ≡ Err (BodyRefusal.Full at length)
        → IsFull M.rules part marks.now cell.old store.old.logs.segment
        (way_of store.old.logs.ways.items part) length }
    ensures fills { (at length : ℕ) → result ≡ Err (BodyRefusal.Full at length)
        → WouldFill M.rules store.new at length }
    ensures going { cell.new.going ≡ true }
    ensures fault { result ≡ Err BodyRefusal.SiteFault → HasRisen
        (V.disk_faults store.old.logs.site) (V.disk_faults store.new.logs.site) }
    ensures halts { result ≢ Err BodyRefusal.SiteFault → store.new.logs.halted ≡ false }
{
    if !cell.is_going() {
        return Err(BodyRefusal::Memory);
    }
    let picked = match cell.pick(alloc, marks) {
        Ok(picked) => picked,
        Err(_) => return Err(BodyRefusal::Memory),
    };
    let Some((frame, sending)) = picked else {
        return Ok(false);
    };
    match store.body(alloc, part, frame, sending) {
        Ok(()) => Ok(true),
        Err(BodyRefused::SiteFault) => Err(BodyRefusal::SiteFault),
        Err(
            BodyRefused::Full {
                length,
                frame,
                sending,
            },
        ) => {
            cell.unpick();
            frame.let_go();
            drop(sending);
            Err(BodyRefusal::Full {
                partition: part,
                length,
            })
        }
        Err(BodyRefused::Memory { frame, sending }) => {
            cell.unpick();
            frame.let_go();
            drop(sending);
            Err(BodyRefusal::Memory)
        }
    }
}
