//! A node takes a partition over.

ghost use Rattle.std.specs.Prelude.{◌≡◌, ◌≢◌, ◌<◌, ℕ, true, false, Ok, Err, OnOk, IfOk, slice_index};
ghost use Rattle.commit_log.specs.Segment.{open_gate};
ghost use Rattle.hub_store.specs.Changes.{stage_at};
ghost use Rattle.hub_store.specs.Ways.{is_tried, way_of, gate_of};
ghost use Rattle.cell_frames.specs.Begun.{HasBegun};
ghost use Rattle.cell_frames.specs.Joined.{Joined, view_of};
ghost use Rattle.cell_frames.specs.Owns.{Opens, GivesUp};
ghost use Rattle.hub_store.specs.Trail.{of_part};
ghost use Rattle.commit_gate.specs.Ledgers.{log_length};
ghost use Rattle.cell_frames.specs.Writes.{KeepsOthers};
ghost use Rattle.gated_store.specs.Keeps.{KeepsGate};
ghost use Rattle.gated_store.specs.Kept.{IsKept};
ghost use Rattle.many_rules.specs.Ledgers.{ledgers, readers};
ghost use Rattle.many_rules.specs.Makes.{Makes};
ghost use Rattle.site_model.specs.Calls.{HasRisen};
ghost use Rattle.site_model.specs.History.{content_of};

use crate::seat::Seat;
use crate::settling::SettleRefusal;
use cell_steps::Mode;
use gated_store::GatedStore;
use hub_store::{Refusal, Reopening, Stage};
use log_items::Packet;
use many_rules::{ByRules, Picked};
use site_model::Site;
use spec_cell::{Cell, CellReset};
use std::alloc::{AllocError, Global};

/// What came of opening a partition's log again.
#[derive(Drop)]
pub enum Reopened {
    /// The frame that was under way is settled, and this goes out by now.
    Settled(Vec<Packet>),
    /// There was none, or it was dropped.
    Dropped,
}

/// Opens the log of a partition again, whose frame is under way: behind an open gate the frame is settled, and the cell's settled state
/// moves on by it; else it is dropped, and comes back into the cell.
pub fn reopen_cell<V: Site, M: Picked>(
    alloc: Global,
    store: &mut GatedStore<V, ByRules<M>>,
    cell: &mut Cell<Seat<M>>,
    part: u32,
    mode: Mode,
) -> Result<Reopened, SettleRefusal>
    requires begun { HasBegun M.origin M.rules }
    requires kept { IsKept M.origin.count (ledgers M.rules) (readers M.rules) (Makes M.rules)
        store.old }
    requires whole { store.old.logs.cut ≡ false }
    requires place { part < M.rules.count }
    requires going { cell.old.going ≡ true }
    requires joined { Joined M.rules (view_of store.old) part cell.old }
    ensures kept { IsKept M.origin.count (ledgers M.rules) (readers M.rules) (Makes M.rules)
        store.new }
    ensures keeps { KeepsGate part store.old store.new }
    ensures joined { cell.new.going ≡ true → Joined M.rules (view_of store.new) part cell.new }
    ensures others { KeepsOthers M.rules part (view_of store.old) (view_of store.new) }
    ensures opens { Opens M.rules part mode (view_of store.old) (view_of store.new) cell.old result
        cell.new }
    ensures going { cell.new.going ≡ false → result ≡ Err SettleRefusal.Memory }
    ensures tried { (packets : _) → result ≡ Ok (Reopened.Settled packets)
        → is_tried (stage_at store.old.logs part) ≡ true }
    ensures opened { V.tells store.new.logs.site → (packets : _)
        → result ≡ Ok (Reopened.Settled packets) → slice_index
        (content_of (M.origin.logs part).file (V.history store.old.logs.site))
        (gate_of (way_of store.old.logs.ways.items part)) ≡ open_gate }
    ensures closed { V.tells store.new.logs.site → result ≡ Ok Reopened.Dropped
        → stage_at store.old.logs part ≢ Stage.Resting → slice_index
        (content_of (M.origin.logs part).file (V.history store.old.logs.site))
        (gate_of (way_of store.old.logs.ways.items part)) ≢ open_gate }
    ensures fault { result ≡ Err SettleRefusal.SiteFault → HasRisen
        (V.disk_faults store.old.logs.site) (V.disk_faults store.new.logs.site) }
    ensures halts { result ≢ Err SettleRefusal.SiteFault → store.old.logs.halted ≡ false
        → store.new.logs.halted ≡ false }
{
    if !cell.is_going() {
        return Err(SettleRefusal::Memory);
    }
    match store.reopen(part) {
        Ok(Reopening::Settled) => {}
        Ok(Reopening::Dropped) => {
            cell.unpick();
            return Ok(Reopened::Dropped);
        }
        Err(Refusal::NoFrame) => {
            cell.unpick();
            return Ok(Reopened::Dropped);
        }
        Err(Refusal::SiteFault) => return Err(SettleRefusal::SiteFault),
    }
    let seat = Seat::of(part, store.settled());
    let count = cell.out();
    let (stub, packets) = cell.settled(alloc, count, mode, seat);
    stub.let_go();
    match packets {
        Ok(packets) => Ok(Reopened::Settled(packets)),
        Err(_) => Err(SettleRefusal::Memory),
    }
}

/// Gives up all that a cell holds, of which no frame is out, and has the store know the incarnation that begins.
pub fn reset_cell<V: Site, M: Picked>(
    alloc: Global,
    store: &mut GatedStore<V, ByRules<M>>,
    cell: &mut Cell<Seat<M>>,
    part: u32,
) -> Result<CellReset, AllocError>
    requires begun { HasBegun M.origin M.rules }
    requires kept { IsKept M.origin.count (ledgers M.rules) (readers M.rules) (Makes M.rules)
        store.old }
    requires place { part < M.rules.count }
    requires going { cell.old.going ≡ true }
    requires joined { Joined M.rules (view_of store.old) part cell.old }
    requires rests { cell.old.out ≡ 0 }
    ensures kept { IsKept M.origin.count (ledgers M.rules) (readers M.rules) (Makes M.rules)
        store.new }
    ensures joined { OnOk result (Joined M.rules (view_of store.new) part cell.new) }
    ensures others { KeepsOthers M.rules part (view_of store.old) (view_of store.new) }
    ensures gives_up { IfOk result (λ reset. GivesUp part
        (log_length (ledgers M.rules part (of_part part (view_of store.old).trail)))
        (view_of store.old) (view_of store.new) cell.old reset cell.new) }
    ensures going { OnOk result (cell.new.going ≡ true) }
    ensures logs { store.new.logs ≡ store.old.logs }
{
    if !cell.is_going() {
        return Err(AllocError);
    }
    let floor = match cell.base() {
        Some(base) => base.position(),
        None => return Err(AllocError),
    };
    match cell.reset(alloc, floor) {
        Ok(CellReset::Done) => {}
        Ok(CellReset::Spent(number)) => return Ok(CellReset::Spent(number)),
        Err(error) => return Err(error),
    }
    match store.restart(part, cell.incarnation(), floor) {
        Ok(()) => Ok(CellReset::Done),
        Err(error) => Err(error),
    }
}
