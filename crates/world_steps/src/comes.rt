//! What comes to a cell among all cells.

ghost use Rattle.std.specs.Prelude.{◌≡◌, ◌<◌, ◌≤◌, false, true, max, length, IfOk, OnOk, slice_get, ℕ};
ghost use Rattle.std.specs.List.{Contains};
ghost use Rattle.activity_table.specs.Table.{may};
ghost use Rattle.cell_frames.specs.Begun.{HasBegun};
ghost use Rattle.cell_frames.specs.Joined.{StoreView, read_by};
ghost use Rattle.dura_value.specs.Items.{took};
ghost use Rattle.dura_value.specs.Views.{id_of, message_of};
ghost use Rattle.many_rules.specs.Rules.{pairs_of, rules_at};
ghost use Rattle.run_rules.specs.Rules.{IsAsked};
ghost use Rattle.spec_cell.specs.Views.{CountsDue};
ghost use Rattle.spec_tracker.specs.declared.marks.Read.{Read};
ghost use Rattle.world_steps.specs.Cells.{CellBecomes};
ghost use Rattle.world_steps.specs.Comes.{OffersTo, ArrivesAt, RecordsAt, IsAskedFor, TrimsAt};
ghost use Rattle.world_steps.specs.Cells.{AllJoined};

use cell_frames::Seat;
use cell_waits::Ended;
use dura_value::Message;
use log_items::Packet;
use many_rules::Picked;
use spec_cell::{Arrived, Cell, Offered, Recorded};
use spec_tracker::Marks;
use std::alloc::{AllocError, Global};

/// A request comes to the cell of a partition. Where the call serves clients it is one that is asked for.
pub fn offer_at<M: Picked>(
    alloc: Global,
    cells: &mut Vec<Cell<Seat<M>>>,
    part: u32,
    request: Message,
) -> Result<Offered, AllocError>
    requires place { part < length cells.old.items }
    ensures many { length cells.new.items ≡ length cells.old.items }
    ensures offers { IfOk result (λ offered. CellBecomes part cells.old.items cells.new.items
        (OffersTo M.rules (message_of request) offered)) }
    ensures joined { (s : StoreView) → (M.rules.serves ≡ true
        → IsAsked (rules_at M.rules part) (pairs_of s.told) (took (message_of request)))
        → AllJoined M.rules s cells.old.items
        → OnOk result (AllJoined M.rules s cells.new.items) }
{
    let cell = &mut cells[part as usize];
    if !cell.is_going() {
        drop(request);
        return Err(AllocError);
    }
    cell.offer(alloc, request)
}

/// A packet comes to the cell of a partition.
pub fn arrive_at<M: Picked>(
    alloc: Global,
    cells: &mut Vec<Cell<Seat<M>>>,
    part: u32,
    packet: Packet,
) -> Result<Arrived, AllocError>
    requires place { part < length cells.old.items }
    ensures many { length cells.new.items ≡ length cells.old.items }
    ensures arrives { IfOk result (λ arrived. CellBecomes part cells.old.items cells.new.items
        (ArrivesAt M.rules packet arrived)) }
    ensures joined { (s : StoreView) → AllJoined M.rules s cells.old.items
        → OnOk result (AllJoined M.rules s cells.new.items) }
{
    let cell = &mut cells[part as usize];
    if !cell.is_going() {
        drop(packet);
        return Err(AllocError);
    }
    cell.arrive(alloc, packet)
}

/// An outcome comes to the cell of a partition. Where the call serves clients its activity was asked for by what is settled.
pub fn record_at<M: Picked>(
    alloc: Global,
    cells: &mut Vec<Cell<Seat<M>>>,
    part: u32,
    ended: Ended,
) -> Result<Recorded, AllocError>
    requires place { part < length cells.old.items }
    requires may { may ended.activity.name ended.activity.argument ended.outcome ≡ true }
    ensures many { length cells.new.items ≡ length cells.old.items }
    ensures records { IfOk result (λ recorded. CellBecomes part cells.old.items cells.new.items
        (RecordsAt M.rules ended recorded)) }
    ensures joined { (s : StoreView) → (M.rules.serves ≡ true
        → IsAskedFor M.rules part (id_of ended.id) ended.task cells.old.items) → AllJoined M.rules s cells.old.items
        → OnOk result (AllJoined M.rules s cells.new.items) }
{
    let cell = &mut cells[part as usize];
    if !cell.is_going() {
        drop(ended);
        return Err(AllocError);
    }
    cell.outcome(alloc, ended)
}

/// What was read of the streams of a partition may be let go of by its cell.
pub fn trim_at<M: Picked>(
    alloc: Global,
    cells: &mut Vec<Cell<Seat<M>>>,
    part: u32,
    marks: &Marks,
) -> Result<usize, AllocError>
    requires begun { HasBegun M.origin M.rules }
    requires place { part < length cells.old.items }
    ensures many { length cells.new.items ≡ length cells.old.items }
    ensures trims { IfOk result (λ count. CellBecomes part cells.old.items cells.new.items
        (TrimsAt M.rules marks.now count)) }
    ensures joined { (s : StoreView)
        → ((read : Read) → Contains marks.now.reads.items read
        → read.next ≤ read_by M.rules s read.source read.reader)
        → AllJoined M.rules s cells.old.items
        → OnOk result (AllJoined M.rules s cells.new.items) }
{
    let cell = &mut cells[part as usize];
    if !cell.is_going() {
        return Err(AllocError);
    }
    cell.trim(alloc, marks)
}

/// A moment is handed to the cell of a partition.
pub fn fire_at<M: Picked>(cells: &mut Vec<Cell<Seat<M>>>, part: u32, now: u64) -> usize
    requires place { part < length cells.old.items }
    ensures many { length cells.new.items ≡ length cells.old.items }
    ensures moment { CellBecomes part cells.old.items cells.new.items
        (λ c after. after ≡ record c { now = max c.now now }) }
    ensures fires { (s : StoreView) → AllJoined M.rules s cells.old.items
        → CellBecomes part cells.old.items cells.new.items
        (λ c after. (after ≡ record c { now = max c.now now })
        × CountsDue M.rules.flows M.rules.count (M.rules.begin c.number) c (max c.now now) result) }
    ensures joined { M.rules.serves ≡ false
        → (s : StoreView) → AllJoined M.rules s cells.old.items
        → AllJoined M.rules (record s { latest = max s.latest now }) cells.new.items }
{
    let cell = &mut cells[part as usize];
    cell.fire(now)
}
