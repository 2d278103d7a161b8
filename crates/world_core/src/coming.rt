//! What comes to the partitions in a life: requests, packets, outcomes, moments, and what was read of their streams.

ghost use Rattle.std.specs.Prelude.{◌≡◌, ◌<◌, ◌≤◌, ◌^◌, false, true, length, IfOk};
ghost use Rattle.activity_table.specs.Table.{may};
ghost use Rattle.cell_frames.specs.Begun.{HasBegun};
ghost use Rattle.dura_value.specs.Views.{message_of};
ghost use Rattle.gated_store.specs.Kept.{IsKept};
ghost use Rattle.many_rules.specs.Ledgers.{ledgers, readers};
ghost use Rattle.many_rules.specs.Makes.{Makes};
ghost use Rattle.world_core.specs.Happens.{HasSubmitted, HasArrived, HasRecorded, HasTrimmed, HasFired};
ghost use Rattle.world_core.specs.Unmet.{is_not_to};
ghost use Rattle.world_core.specs.World.{Stands, world};

use crate::answer::Answer;
use crate::life::Life;
use crate::marking::{marks_at, packet_at};
use cell_waits::Ended;
use dura_value::{Message, home};
use gated_store::GatedStore;
use log_items::Packet;
use many_rules::{ByRules, Picked};
use part_rows::copy_message;
use site_model::Site;
use spec_cell::{Arrived, Offered, Recorded};
use std::alloc::{AllocError, Global};
use world_steps::{arrive_at, fire_at, offer_at, record_at, trim_at};

/// A client's request comes to the partition in which the client lives.
pub(crate) fn submit<V: Site, M: Picked>(
    alloc: Global,
    store: &GatedStore<V, ByRules<M>>,
    life: &mut Life<M>,
    request: Message,
) -> Answer
    requires begun { HasBegun M.origin M.rules }
    requires silent { M.rules.serves ≡ false }
    requires stands { Stands M.rules (world store.now life.old.cells.items
        life.old.packets.items life.old.marks.items life.old.ended) }
    requires going { life.old.ended ≡ false }
    ensures stands { Stands M.rules (world store.now life.new.cells.items
        life.new.packets.items life.new.marks.items life.new.ended) }
    ensures makes { HasSubmitted M.rules (message_of request)
        (world store.now life.old.cells.items
        life.old.packets.items life.old.marks.items life.old.ended)
        (world store.now life.new.cells.items
        life.new.packets.items life.new.marks.items life.new.ended) result }
    ensures fixed { (life.new.mode ≡ life.old.mode) × (life.new.nodes ≡ life.old.nodes) }
{
    let part = home(&request.from, life.cells.len() as u32);
    match offer_at(alloc, &mut life.cells, part, request) {
        Ok(Offered::Queued) => Answer::Queued,
        Ok(Offered::Taken) => Answer::Taken,
        Ok(Offered::Kept(answer)) => Answer::Answered(answer),
        Ok(Offered::Clash) => Answer::Clash,
        Err(_) => {
            life.ended = true;
            Answer::Memory
        }
    }
}

/// The same packet, in memory of its own.
fn copy_of(packet: &Packet) -> Result<Packet, AllocError>
    ensures { IfOk result (λ copy. (copy.src ≡ packet.now.src) × (copy.dst ≡ packet.now.dst)
        × (copy.inc ≡ packet.now.inc) × (copy.pos ≡ packet.now.pos)
        × (copy.seq ≡ packet.now.seq)
        × (message_of copy.message ≡ message_of packet.now.message)) }
{
    Ok(Packet {
        src: packet.src,
        dst: packet.dst,
        inc: packet.inc,
        pos: packet.pos,
        seq: packet.seq,
        message: copy_message(&packet.message)?,
    })
}

/// A packet that was sent comes to its partition.
pub(crate) fn arrive<V: Site, M: Picked>(
    alloc: Global,
    store: &GatedStore<V, ByRules<M>>,
    life: &mut Life<M>,
    part: u32,
    packet: usize,
) -> Answer
    requires begun { HasBegun M.origin M.rules }
    requires stands { Stands M.rules (world store.now life.old.cells.items
        life.old.packets.items life.old.marks.items life.old.ended) }
    requires going { life.old.ended ≡ false }
    requires place { part < M.rules.count }
    requires there { packet < length life.old.packets.items }
    ensures stands { Stands M.rules (world store.now life.new.cells.items
        life.new.packets.items life.new.marks.items life.new.ended) }
    ensures makes { HasArrived M.rules part packet
        (world store.now life.old.cells.items
        life.old.packets.items life.old.marks.items life.old.ended)
        (world store.now life.new.cells.items
        life.new.packets.items life.new.marks.items life.new.ended) result }
    ensures fixed { (life.new.mode ≡ life.old.mode) × (life.new.nodes ≡ life.old.nodes) }
{
    let Ok(copy) = copy_of(packet_at(&life.packets, packet)) else {
        life.ended = true;
        return Answer::Memory;
    };
    match arrive_at(alloc, &mut life.cells, part, copy) {
        Ok(Arrived::Queued) => Answer::Queued,
        Ok(Arrived::Repeat(next)) => Answer::Repeat(next),
        Ok(Arrived::Gap(next)) => Answer::Gap(next),
        Err(_) => {
            life.ended = true;
            Answer::Memory
        }
    }
}

/// An activity's outcome comes, which it may give.
pub(crate) fn record<V: Site, M: Picked>(
    alloc: Global,
    store: &GatedStore<V, ByRules<M>>,
    life: &mut Life<M>,
    part: u32,
    ended: Ended,
) -> Answer
    requires begun { HasBegun M.origin M.rules }
    requires silent { M.rules.serves ≡ false }
    requires stands { Stands M.rules (world store.now life.old.cells.items
        life.old.packets.items life.old.marks.items life.old.ended) }
    requires going { life.old.ended ≡ false }
    requires place { part < M.rules.count }
    requires may { may ended.activity.name ended.activity.argument ended.outcome ≡ true }
    ensures stands { Stands M.rules (world store.now life.new.cells.items
        life.new.packets.items life.new.marks.items life.new.ended) }
    ensures makes { HasRecorded M.rules part ended
        (world store.now life.old.cells.items
        life.old.packets.items life.old.marks.items life.old.ended)
        (world store.now life.new.cells.items
        life.new.packets.items life.new.marks.items life.new.ended) result }
    ensures fixed { (life.new.mode ≡ life.old.mode) × (life.new.nodes ≡ life.old.nodes) }
{
    match record_at(alloc, &mut life.cells, part, ended) {
        Ok(Recorded::Recorded) => Answer::Recorded,
        Ok(Recorded::NotPending) => Answer::NotPending,
        Err(_) => {
            life.ended = true;
            Answer::Memory
        }
    }
}

/// What was read of a partition's streams may be let go of.
pub(crate) fn trim<V: Site, M: Picked>(
    alloc: Global,
    store: &GatedStore<V, ByRules<M>>,
    life: &mut Life<M>,
    part: u32,
    marks: usize,
) -> Answer
    requires begun { HasBegun M.origin M.rules }
    requires stands { Stands M.rules (world store.now life.old.cells.items
        life.old.packets.items life.old.marks.items life.old.ended) }
    requires going { life.old.ended ≡ false }
    requires place { part < M.rules.count }
    requires there { marks < length life.old.marks.items }
    ensures stands { Stands M.rules (world store.now life.new.cells.items
        life.new.packets.items life.new.marks.items life.new.ended) }
    ensures makes { HasTrimmed M.rules part marks
        (world store.now life.old.cells.items
        life.old.packets.items life.old.marks.items life.old.ended)
        (world store.now life.new.cells.items
        life.new.packets.items life.new.marks.items life.new.ended) result }
    ensures fixed { (life.new.mode ≡ life.old.mode) × (life.new.nodes ≡ life.old.nodes) }
{
    match trim_at(alloc, &mut life.cells, part, marks_at(&life.marks, marks)) {
        Ok(count) => Answer::Trimmed(count),
        Err(_) => {
            life.ended = true;
            Answer::Memory
        }
    }
}

/// It is this moment, or later.
pub(crate) fn fire<V: Site, M: Picked>(
    store: &mut GatedStore<V, ByRules<M>>,
    life: &mut Life<M>,
    part: u32,
    now: u64,
) -> Answer
    requires begun { HasBegun M.origin M.rules }
    requires silent { M.rules.serves ≡ false }
    requires stands { Stands M.rules (world store.old life.old.cells.items
        life.old.packets.items life.old.marks.items life.old.ended) }
    requires going { life.old.ended ≡ false }
    requires kept { IsKept M.origin.count (ledgers M.rules) (readers M.rules) (Makes M.rules)
        store.old }
    requires place { part < M.rules.count }
    ensures tells { V.tells store.new.logs.site → V.tells store.old.logs.site }
    ensures kept { IsKept M.origin.count (ledgers M.rules) (readers M.rules) (Makes M.rules)
        store.new }
    ensures stands { Stands M.rules (world store.new life.new.cells.items
        life.new.packets.items life.new.marks.items life.new.ended) }
    ensures makes { HasFired M.rules part now
        (world store.old life.old.cells.items
        life.old.packets.items life.old.marks.items life.old.ended)
        (world store.new life.new.cells.items
        life.new.packets.items life.new.marks.items life.new.ended) result }
    ensures fixed { (life.new.mode ≡ life.old.mode) × (life.new.nodes ≡ life.old.nodes) }
{
    store.raise(now);
    Answer::Due(fire_at(&mut life.cells, part, now))
}
