//! What becomes of the frames of a cell among all cells.

ghost use Rattle.std.specs.Prelude.{◌≡◌, ◌≢◌, ◌≤◌, ◌<◌, ℕ, false, true, length, Err};
ghost use Rattle.cell_frames.specs.Begun.{HasBegun};
ghost use Rattle.cell_frames.specs.Joined.{read_by, view_of};
ghost use Rattle.cell_frames.specs.Settles.{SettlesFrame};
ghost use Rattle.cell_frames.specs.Fills.{WouldFill};
ghost use Rattle.cell_frames.specs.Writes.{Writes, IsFull};
ghost use Rattle.gated_store.specs.Keeps.{KeepsGate};
ghost use Rattle.gated_store.specs.Kept.{IsKept};
ghost use Rattle.hub_store.specs.Changes.{stage_at, trail_in, told_in};
ghost use Rattle.hub_store.specs.Ways.{is_open, way_of};
ghost use Rattle.many_rules.specs.Ledgers.{ledgers, readers};
ghost use Rattle.many_rules.specs.Makes.{Makes};
ghost use Rattle.site_model.specs.Calls.{HasRisen};
ghost use Rattle.world_steps.specs.Cells.{CellBecomes};
ghost use Rattle.world_steps.specs.Cells.{AllJoined};

use cell_frames::{Seat, SettleRefusal, settle_frame, write_frame};
use cell_steps::Mode;
use gated_store::GatedStore;
use hub_store::BodyRefusal;
use log_items::Packet;
use many_rules::{ByRules, Picked};
use site_model::Site;
use spec_cell::Cell;
use spec_tracker::Marks;
use std::alloc::Global;

/// The cell of a partition picks a frame, and it is written.
pub fn write_at<V: Site, M: Picked>(
    alloc: Global,
    store: &mut GatedStore<V, ByRules<M>>,
    cells: &mut Vec<Cell<Seat<M>>>,
    part: u32,
    marks: &Marks,
) -> Result<bool, BodyRefusal>
    requires begun { HasBegun M.origin M.rules }
    requires kept { IsKept M.origin.count (ledgers M.rules) (readers M.rules) (Makes M.rules)
        store.old }
    requires still { store.old.logs.halted ≡ false }
    requires many { length cells.old.items ≡ M.rules.count }
    requires place { part < M.rules.count }
    requires joined { AllJoined M.rules (view_of store.old) cells.old.items }
    ensures many { length cells.new.items ≡ length cells.old.items }
    ensures kept { IsKept M.origin.count (ledgers M.rules) (readers M.rules) (Makes M.rules)
        store.new }
    ensures keeps { KeepsGate part store.old store.new }
    ensures joined { AllJoined M.rules (view_of store.new) cells.new.items }
    ensures writes { CellBecomes part cells.old.items cells.new.items
        (λ c after. Writes M.rules part marks.now (view_of store.old) (view_of store.new) c after
        result) }
    ensures full { (at length : ℕ) → result ≡ Err (BodyRefusal.Full at length)
        → CellBecomes part cells.old.items cells.new.items
        (λ c after. IsFull M.rules part marks.now c store.old.logs.segment
        (way_of store.old.logs.ways.items part) length) }
    ensures fills { (at length : ℕ) → result ≡ Err (BodyRefusal.Full at length)
        → WouldFill M.rules store.new at length }
    ensures trail { trail_in store.new.logs ≡ trail_in store.old.logs }
    ensures fault { result ≡ Err BodyRefusal.SiteFault → HasRisen
        (V.disk_faults store.old.logs.site) (V.disk_faults store.new.logs.site) }
    ensures halts { result ≢ Err BodyRefusal.SiteFault → store.new.logs.halted ≡ false }
{
    let cell = &mut cells[part as usize];
    write_frame(alloc, store, cell, part, marks)
}

/// The frame of a partition's cell is settled.
pub fn settle_at<V: Site, M: Picked>(
    alloc: Global,
    store: &mut GatedStore<V, ByRules<M>>,
    cells: &mut Vec<Cell<Seat<M>>>,
    part: u32,
    mode: Mode,
) -> Result<Vec<Packet>, SettleRefusal>
    requires begun { HasBegun M.origin M.rules }
    requires kept { IsKept M.origin.count (ledgers M.rules) (readers M.rules) (Makes M.rules)
        store.old }
    requires still { store.old.logs.halted ≡ false }
    requires many { length cells.old.items ≡ M.rules.count }
    requires place { part < M.rules.count }
    requires joined { AllJoined M.rules (view_of store.old) cells.old.items }
    ensures reads { (source reader : ℕ) → read_by M.rules (view_of store.old) source reader
        ≤ read_by M.rules (view_of store.new) source reader }
    ensures many { length cells.new.items ≡ length cells.old.items }
    ensures kept { IsKept M.origin.count (ledgers M.rules) (readers M.rules) (Makes M.rules)
        store.new }
    ensures keeps { KeepsGate part store.old store.new }
    ensures joined { result ≢ Err SettleRefusal.Memory
        → AllJoined M.rules (view_of store.new) cells.new.items }
    ensures settles { CellBecomes part cells.old.items cells.new.items
        (λ c after. SettlesFrame M.rules part mode (view_of store.old) (view_of store.new) c after
        result) }
    ensures open { result ≢ Err SettleRefusal.NoFrame
        → is_open (stage_at store.old.logs part) ≡ true }
    ensures no_frame { result ≡ Err SettleRefusal.NoFrame
        → is_open (stage_at store.old.logs part) ≡ false }
    ensures unchanged { result ≡ Err SettleRefusal.NoFrame
        → (store.new ≡ store.old) × (cells.new.items ≡ cells.old.items) }
    ensures kept_trail { result ≡ Err SettleRefusal.SiteFault
        → trail_in store.new.logs ≡ trail_in store.old.logs }
    ensures told { told_in store.new.logs ≡ told_in store.old.logs }
    ensures fault { result ≡ Err SettleRefusal.SiteFault → HasRisen
        (V.disk_faults store.old.logs.site) (V.disk_faults store.new.logs.site) }
    ensures halts { result ≢ Err SettleRefusal.SiteFault → store.new.logs.halted ≡ false }
{
    let cell = &mut cells[part as usize];
    settle_frame(alloc, store, cell, part, mode)
}
