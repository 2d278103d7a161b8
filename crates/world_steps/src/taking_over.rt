//! A node takes a partition over.

ghost use Rattle.std.specs.Prelude.{◌≡◌, ◌≤◌, ◌<◌, ℕ, false, true, length};
ghost use Rattle.cell_frames.specs.Begun.{HasBegun};
ghost use Rattle.cell_frames.specs.Joined.{Joined, read_by, view_of};
ghost use Rattle.cell_frames.specs.Writes.{KeepsOthers};
ghost use Rattle.gated_store.specs.Kept.{IsKept};
ghost use Rattle.hub_store.specs.Changes.{KeepsAll};
ghost use Rattle.many_rules.specs.Ledgers.{ledgers, readers};
ghost use Rattle.many_rules.specs.Makes.{Makes};
ghost use Rattle.site_model.specs.Calls.{HasRisen};
ghost use Rattle.world_steps.specs.Cells.{CellBecomes};
ghost use Rattle.world_steps.specs.TakesOver.{IsTaken, TakenBy};
ghost use Rattle.world_steps.specs.Cells.{AllJoined};

use cell_frames::{Reopened, Seat, SettleRefusal, reopen_cell, reset_cell};
use cell_steps::Mode;
use gated_store::GatedStore;
use log_items::Packet;
use many_rules::{ByRules, Picked};
use site_model::Site;
use spec_cell::{Cell, CellReset};
use std::alloc::Global;

/// What came of taking a partition over.
#[derive(Drop)]
pub enum Taken {
    /// It is done: the log was opened again so.
    Done(Reopened),
    /// The log was, but the incarnation that would begin has this number, which is past those that there are.
    Spent(Reopened, u64),
    /// The disk failed.
    SiteFault,
    /// Memory ran out.
    Memory,
}

/// Opens the log of a partition again, settles or drops its frame, gives up all that its cell holds, and makes the node the cell's.
fn take_over<V: Site, M: Picked>(
    alloc: Global,
    store: &mut GatedStore<V, ByRules<M>>,
    cell: &mut Cell<Seat<M>>,
    part: u32,
    node: u32,
    mode: Mode,
) -> Taken
    requires begun { HasBegun M.origin M.rules }
    requires kept { IsKept M.origin.count (ledgers M.rules) (readers M.rules) (Makes M.rules)
        store.old }
    requires whole { store.old.logs.cut ≡ false }
    requires still { store.old.logs.halted ≡ false }
    requires place { part < M.rules.count }
    requires going { cell.old.going ≡ true }
    requires joined { Joined M.rules (view_of store.old) part cell.old }
    ensures reads { (source reader : ℕ) → read_by M.rules (view_of store.old) source reader
        ≤ read_by M.rules (view_of store.new) source reader }
    ensures keeps { KeepsAll store.old.logs store.new.logs }
    ensures kept { IsKept M.origin.count (ledgers M.rules) (readers M.rules) (Makes M.rules)
        store.new }
    ensures joined { IsTaken result → Joined M.rules (view_of store.new) part cell.new }
    ensures others { KeepsOthers M.rules part (view_of store.old) (view_of store.new) }
    ensures taken { TakenBy M.rules mode part node (view_of store.old) (view_of store.new) cell.old
        result cell.new }
    ensures going { IsTaken result → cell.new.going ≡ true }
    ensures halts { IsTaken result → store.new.logs.halted ≡ false }
    ensures fault { result ≡ Taken.SiteFault → HasRisen
        (V.disk_faults store.old.logs.site) (V.disk_faults store.new.logs.site) }
{
    let reopened = match reopen_cell(alloc, store, cell, part, mode) {
        Ok(reopened) => reopened,
        Err(SettleRefusal::SiteFault) => return Taken::SiteFault,
        Err(SettleRefusal::NoFrame) => unreachable!(),
        Err(SettleRefusal::Memory) => return Taken::Memory,
    };
    match reset_cell(alloc, store, cell, part) {
        Ok(CellReset::Done) => {
            cell.own(node);
            Taken::Done(reopened)
        }
        Ok(CellReset::Spent(number)) => Taken::Spent(reopened, number),
        Err(_) => Taken::Memory,
    }
}

/// The cell of a partition among all is taken over by a node.
pub fn take_over_at<V: Site, M: Picked>(
    alloc: Global,
    store: &mut GatedStore<V, ByRules<M>>,
    cells: &mut Vec<Cell<Seat<M>>>,
    part: u32,
    node: u32,
    mode: Mode,
) -> Taken
    requires begun { HasBegun M.origin M.rules }
    requires kept { IsKept M.origin.count (ledgers M.rules) (readers M.rules) (Makes M.rules)
        store.old }
    requires whole { store.old.logs.cut ≡ false }
    requires still { store.old.logs.halted ≡ false }
    requires many { length cells.old.items ≡ M.rules.count }
    requires place { part < M.rules.count }
    requires joined { AllJoined M.rules (view_of store.old) cells.old.items }
    ensures reads { (source reader : ℕ) → read_by M.rules (view_of store.old) source reader
        ≤ read_by M.rules (view_of store.new) source reader }
    ensures keeps { KeepsAll store.old.logs store.new.logs }
    ensures many { length cells.new.items ≡ length cells.old.items }
    ensures kept { IsKept M.origin.count (ledgers M.rules) (readers M.rules) (Makes M.rules)
        store.new }
    ensures joined { IsTaken result → AllJoined M.rules (view_of store.new) cells.new.items }
    ensures taken { CellBecomes part cells.old.items cells.new.items
        (λ c after. TakenBy M.rules mode part node (view_of store.old) (view_of store.new) c result
        after) }
    ensures halts { IsTaken result → store.new.logs.halted ≡ false }
    ensures fault { result ≡ Taken.SiteFault → HasRisen
        (V.disk_faults store.old.logs.site) (V.disk_faults store.new.logs.site) }
{
    let cell = &mut cells[part as usize];
    take_over(alloc, store, cell, part, node, mode)
}
