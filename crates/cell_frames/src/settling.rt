//! A cell's frame is settled.

ghost use Rattle.std.specs.Prelude.{◌≡◌, ◌≢◌, ◌↔◌, ◌<◌, ℕ, true, false, Err, is_ok, OnOk};
ghost use Rattle.cell_frames.specs.Begun.{HasBegun};
ghost use Rattle.cell_frames.specs.Joined.{Joined, view_of};
ghost use Rattle.cell_frames.specs.Writes.{KeepsOthers};
ghost use Rattle.cell_frames.specs.Settles.{SettlesFrame};
ghost use Rattle.gated_store.specs.Keeps.{KeepsGate};
ghost use Rattle.gated_store.specs.Kept.{IsKept};
ghost use Rattle.many_rules.specs.Ledgers.{ledgers, readers};
ghost use Rattle.many_rules.specs.Makes.{Makes};
ghost use Rattle.hub_store.specs.Changes.{stage_at};
ghost use Rattle.hub_store.specs.Ways.{is_open};
ghost use Rattle.site_model.specs.Calls.{HasRisen};

use crate::seat::Seat;
use cell_steps::Mode;
use gated_store::GatedStore;
use hub_store::Refusal;
use log_items::Packet;
use many_rules::{ByRules, Picked};
use site_model::Site;
use spec_cell::Cell;
use std::alloc::Global;

/// Why no frame was settled.
#[derive(Clone, Copy, PartialEq, Eq)]
pub enum SettleRefusal {
    /// No frame of the partition has come to this call. Nothing was done.
    NoFrame,
    /// The disk failed: whether the frame is settled a reopening tells.
    SiteFault,
    /// The frame is settled, but memory ran out in the cell, which has no state any more.
    Memory,
}

/// Settles the frame of a partition behind its open gate, and moves the cell's settled state on by it. It gives what goes out by now of
/// what the frame's entries sent.
pub fn settle_frame<V: Site, M: Picked>(
    alloc: Global,
    store: &mut GatedStore<V, ByRules<M>>,
    cell: &mut Cell<Seat<M>>,
    part: u32,
    mode: Mode,
) -> Result<Vec<Packet>, SettleRefusal>
    requires begun { HasBegun M.origin M.rules }
    requires kept { IsKept M.origin.count (ledgers M.rules) (readers M.rules) (Makes M.rules)
        store.old }
    requires still { store.old.logs.halted ≡ false }
    requires place { part < M.rules.count }
    requires going { cell.old.going ≡ true }
    requires joined { Joined M.rules (view_of store.old) part cell.old }
    ensures kept { IsKept M.origin.count (ledgers M.rules) (readers M.rules) (Makes M.rules)
        store.new }
    ensures keeps { KeepsGate part store.old store.new }
    ensures joined { cell.new.going ≡ true → Joined M.rules (view_of store.new) part cell.new }
    ensures others { KeepsOthers M.rules part (view_of store.old) (view_of store.new) }
    ensures settles { SettlesFrame M.rules part mode (view_of store.old) (view_of store.new)
        cell.old cell.new result }
    ensures going { cell.new.going ≡ false → result ≡ Err SettleRefusal.Memory }
    ensures no_frame { result ≡ Err SettleRefusal.NoFrame
        ↔ is_open (stage_at store.old.logs part) ≡ false }
    ensures unchanged { result ≡ Err SettleRefusal.NoFrame
        → (store.new ≡ store.old) × (cell.new ≡ cell.old) }
    ensures fault { result ≡ Err SettleRefusal.SiteFault → HasRisen
        (V.disk_faults store.old.logs.site) (V.disk_faults store.new.logs.site) }
    ensures halts { result ≢ Err SettleRefusal.SiteFault → store.new.logs.halted ≡ false }
{
    if !cell.is_going() {
        return Err(SettleRefusal::Memory);
    }
    match store.settle(part) {
        Ok(()) => {}
        Err(Refusal::NoFrame) => return Err(SettleRefusal::NoFrame),
        Err(Refusal::SiteFault) => return Err(SettleRefusal::SiteFault),
    }
    let seat = Seat::of(part, store.settled());
    let count = cell.out();
    let (stub, packets) = cell.settled(alloc, count, mode, seat);
    stub.let_go();
    match packets {
        Ok(packets) => Ok(packets),
        Err(_) => Err(SettleRefusal::Memory),
    }
}
