//! What waits for a partition comes to it; and it makes an entry.

ghost use Rattle.std.specs.Prelude.{◌≡◌, ◌≤◌, ◌<◌, length, IfOk, OnOk};
ghost use Rattle.cell_frames.specs.Joined.{StoreView};
ghost use Rattle.node_core.specs.Stepping.{OnlyWaits, TurnsPart};
ghost use Rattle.world_steps.specs.Cells.{AllJoined};

use cell_frames::Seat;
use cell_steps::Mode;
use log_items::Packet;
use many_rules::Picked;
use part_rows::Reactions;
use part_transport::{PutRefusal, Transport};
use spec_cell::{Arrived, Cell, CellTurn};
use std::alloc::{AllocError, Global};
use world_steps::{arrive_at, turn_at};

/// As many packets as wait for a partition at the most.
const MOST_PACKETS: u32 = 256;

/// What came of a turn.
#[derive(Clone, Copy, Drop, PartialEq, Eq)]
pub enum Stepped {
    /// An entry was made at this position.
    Turned(u64),
    /// An entry isn't settled, in the mode that has one at a time.
    Held,
    /// Nothing is possible.
    Idle,
    /// The number that comes next is past those that there are.
    Spent(u64),
}

/// The packets that wait for a partition come to its cell, the first put first.
pub fn take_in<M: Picked>(
    alloc: Global,
    cells: &mut Vec<Cell<Seat<M>>>,
    transport: &mut Transport,
    part: u32,
) -> Result<(), AllocError>
    requires place { part < length cells.old.items }
    ensures many { length cells.new.items ≡ length cells.old.items }
    ensures waits { OnOk result (OnlyWaits part cells.old.items cells.new.items) }
    ensures joined { (s : StoreView) → AllJoined M.rules s cells.old.items
        → OnOk result (AllJoined M.rules s cells.new.items) }
{
    'packets: for _ in 0..MOST_PACKETS {
        let Some(packet) = transport.take(part) else {
            return Ok(());
        };
        match arrive_at(alloc, cells, part, packet)? {
            Arrived::Queued | Arrived::Repeat(_) | Arrived::Gap(_) => {}
        }
    }
    Ok(())
}

/// Packets are put on their way, one after another. Of those for which there is no room none goes: they are sent again later. It says
/// whether there was room for all.
pub fn send(transport: &mut Transport, packets: Vec<Packet>) -> Result<bool, AllocError> {
    let mut fits = true;
    'packets: for packet in packets {
        match transport.put(packet) {
            Ok(()) => {}
            Err(PutRefusal::Full(packet)) => {
                drop(packet);
                fits = false;
            }
            Err(PutRefusal::Memory(packet)) => {
                drop(packet);
                return Err(AllocError);
            }
        }
    }
    Ok(fits)
}

/// A partition makes an entry of at most so many items, if it may, and what that sends at once goes on its way. Packets that wait for it don't
/// come by that.
pub fn step_turn<M: Picked, R: Reactions>(
    alloc: Global,
    reactions: &R,
    cells: &mut Vec<Cell<Seat<M>>>,
    transport: &mut Transport,
    part: u32,
    limit: u32,
    mode: Mode,
) -> Result<(Stepped, bool), AllocError>
    requires flows { R.flows reactions.now ≡ M.rules.flows }
    requires some { 0 < limit }
    requires most { limit ≤ 64 }
    requires bound { limit ≤ M.rules.most }
    requires place { part < length cells.old.items }
    ensures many { length cells.new.items ≡ length cells.old.items }
    ensures steps { IfOk result (λ both. TurnsPart M.rules mode limit part cells.old.items
        cells.new.items both.0) }
    ensures joined { (s : StoreView) → AllJoined M.rules s cells.old.items
        → OnOk result (AllJoined M.rules s cells.new.items) }
{
    match turn_at(alloc, reactions, cells, part, limit, mode)? {
        CellTurn::Turned(position, packets) => {
            let fits = send(transport, packets)?;
            Ok((Stepped::Turned(position), fits))
        }
        CellTurn::Held => Ok((Stepped::Held, true)),
        CellTurn::Idle => Ok((Stepped::Idle, true)),
        CellTurn::Spent(number) => Ok((Stepped::Spent(number), true)),
    }
}
