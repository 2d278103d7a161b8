//! What the partitions do in a life: they make entries, and commit them.

ghost use Rattle.std.specs.Prelude.{◌≡◌, ◌<◌, ◌≤◌, false, true, length};
ghost use Rattle.cell_frames.specs.Begun.{HasBegun};
ghost use Rattle.gated_store.specs.Kept.{IsKept};
ghost use Rattle.many_rules.specs.Ledgers.{ledgers, readers};
ghost use Rattle.many_rules.specs.Makes.{Makes};
ghost use Rattle.site_model.specs.Calls.{HasRisen};
ghost use Rattle.world_core.specs.Happens.{HasTurned, HasWritten, HasSynced, HasGated, HasSettledFrame, HasJudged, HasOwned};
ghost use Rattle.world_core.specs.World.{Stands, world};

use crate::answer::Answer;
use crate::life::Life;
use crate::marking::{marks_at, note_marks, note_packets, note_taken};
use cell_frames::SettleRefusal;
use gated_store::{GateRefusal, GatedStore};
use hub_store::{BodyRefusal, Refusal};
use many_rules::{ByRules, Picked};
use part_rows::Reactions;
use site_model::Site;
use spec_cell::{CellRewind, CellTurn};
use std::alloc::Global;
use world_steps::{
    Taken, judge_at, open_gate, settle_at, sync_frame, take_over_at, turn_at, write_at,
};

/// The life is over, for want of memory.
pub(crate) fn out_of_memory<M: Picked>(life: &mut Life<M>) -> Answer
    ensures over { life.new ≡ record life.old { ended = true } }
    ensures memory { result ≡ Answer.Memory }
{
    life.ended = true;
    Answer::Memory
}

/// The life is over, for a fault of the disk.
fn failed<M: Picked>(life: &mut Life<M>) -> Answer
    ensures over { life.new ≡ record life.old { ended = true } }
    ensures fault { result ≡ Answer.SiteFault }
{
    life.ended = true;
    Answer::SiteFault
}

/// A partition makes one entry more.
pub(crate) fn turn<V: Site, M: Picked, R: Reactions>(
    alloc: Global,
    reactions: &R,
    store: &GatedStore<V, ByRules<M>>,
    life: &mut Life<M>,
    part: u32,
    limit: u32,
) -> Answer
    requires begun { HasBegun M.origin M.rules }
    requires stands { Stands M.rules (world store.now life.old.cells.items
        life.old.packets.items life.old.marks.items life.old.ended) }
    requires going { life.old.ended ≡ false }
    requires flows { R.flows reactions.now ≡ M.rules.flows }
    requires place { part < M.rules.count }
    requires some { 0 < limit }
    requires most { limit ≤ 64 }
    ensures stands { Stands M.rules (world store.now life.new.cells.items
        life.new.packets.items life.new.marks.items life.new.ended) }
    ensures makes { HasTurned M.rules life.old.mode part limit
        (world store.now life.old.cells.items
        life.old.packets.items life.old.marks.items life.old.ended)
        (world store.now life.new.cells.items
        life.new.packets.items life.new.marks.items life.new.ended) result }
    ensures fixed { (life.new.mode ≡ life.old.mode) × (life.new.nodes ≡ life.old.nodes) }
{
    match turn_at(alloc, reactions, &mut life.cells, part, limit, life.mode) {
        Ok(CellTurn::Turned(position, packets)) => match note_packets(&mut life.packets, packets) {
            Ok(()) => Answer::Turned(position),
            Err(_) => out_of_memory(life),
        },
        Ok(CellTurn::Held) => Answer::Held,
        Ok(CellTurn::Idle) => Answer::Idle,
        Ok(CellTurn::Spent(number)) => Answer::Spent(number),
        Err(_) => out_of_memory(life),
    }
}

/// A frame of a partition is picked by these marks, and written.
pub(crate) fn body<V: Site, M: Picked>(
    alloc: Global,
    store: &mut GatedStore<V, ByRules<M>>,
    life: &mut Life<M>,
    part: u32,
    marks: usize,
) -> Answer
    requires begun { HasBegun M.origin M.rules }
    requires stands { Stands M.rules (world store.old life.old.cells.items
        life.old.packets.items life.old.marks.items life.old.ended) }
    requires going { life.old.ended ≡ false }
    requires kept { IsKept M.origin.count (ledgers M.rules) (readers M.rules) (Makes M.rules)
        store.old }
    requires place { part < M.rules.count }
    requires there { marks < length life.old.marks.items }
    ensures tells { V.tells store.new.logs.site → V.tells store.old.logs.site }
    ensures kept { IsKept M.origin.count (ledgers M.rules) (readers M.rules) (Makes M.rules)
        store.new }
    ensures stands { Stands M.rules (world store.new life.new.cells.items
        life.new.packets.items life.new.marks.items life.new.ended) }
    ensures makes { HasWritten M.rules part marks
        (world store.old life.old.cells.items
        life.old.packets.items life.old.marks.items life.old.ended)
        (world store.new life.new.cells.items
        life.new.packets.items life.new.marks.items life.new.ended) result }
    ensures fixed { (life.new.mode ≡ life.old.mode) × (life.new.nodes ≡ life.old.nodes) }
    ensures fault { result ≡ Answer.SiteFault → HasRisen
        (V.disk_faults store.old.logs.site) (V.disk_faults store.new.logs.site) }
{
    match write_at(
        alloc,
        store,
        &mut life.cells,
        part,
        marks_at(&life.marks, marks),
    ) {
        Ok(true) => Answer::Written,
        Ok(false) => Answer::NoneReady,
        Err(
            BodyRefusal::Full {
                partition: _,
                length,
            },
        ) => Answer::Full(length),
        Err(BodyRefusal::SiteFault) => failed(life),
        Err(BodyRefusal::Memory) => out_of_memory(life),
    }
}

/// It is made safe on the disk.
pub(crate) fn sync_body<V: Site, M: Picked>(
    store: &mut GatedStore<V, ByRules<M>>,
    life: &mut Life<M>,
    part: u32,
) -> Answer
    requires begun { HasBegun M.origin M.rules }
    requires stands { Stands M.rules (world store.old life.old.cells.items
        life.old.packets.items life.old.marks.items life.old.ended) }
    requires going { life.old.ended ≡ false }
    requires kept { IsKept M.origin.count (ledgers M.rules) (readers M.rules) (Makes M.rules)
        store.old }
    requires place { part < M.rules.count }
    ensures tells { V.tells store.new.logs.site → V.tells store.old.logs.site }
    ensures kept { IsKept M.origin.count (ledgers M.rules) (readers M.rules) (Makes M.rules)
        store.new }
    ensures stands { Stands M.rules (world store.new life.new.cells.items
        life.new.packets.items life.new.marks.items life.new.ended) }
    ensures makes { HasSynced M.rules part
        (world store.old life.old.cells.items
        life.old.packets.items life.old.marks.items life.old.ended)
        (world store.new life.new.cells.items
        life.new.packets.items life.new.marks.items life.new.ended) result }
    ensures fixed { (life.new.mode ≡ life.old.mode) × (life.new.nodes ≡ life.old.nodes) }
    ensures fault { result ≡ Answer.SiteFault → HasRisen
        (V.disk_faults store.old.logs.site) (V.disk_faults store.new.logs.site) }
{
    match sync_frame(store, part) {
        Ok(()) => Answer::Synced,
        Err(Refusal::SiteFault) => failed(life),
        Err(Refusal::NoFrame) => Answer::Unmet,
    }
}

/// Its gate is opened, if it is what it claims.
pub(crate) fn gate<V: Site, M: Picked>(
    store: &mut GatedStore<V, ByRules<M>>,
    life: &mut Life<M>,
    part: u32,
) -> Answer
    requires begun { HasBegun M.origin M.rules }
    requires stands { Stands M.rules (world store.old life.old.cells.items
        life.old.packets.items life.old.marks.items life.old.ended) }
    requires going { life.old.ended ≡ false }
    requires kept { IsKept M.origin.count (ledgers M.rules) (readers M.rules) (Makes M.rules)
        store.old }
    requires place { part < M.rules.count }
    ensures tells { V.tells store.new.logs.site → V.tells store.old.logs.site }
    ensures kept { IsKept M.origin.count (ledgers M.rules) (readers M.rules) (Makes M.rules)
        store.new }
    ensures stands { Stands M.rules (world store.new life.new.cells.items
        life.new.packets.items life.new.marks.items life.new.ended) }
    ensures makes { HasGated M.rules part
        (world store.old life.old.cells.items
        life.old.packets.items life.old.marks.items life.old.ended)
        (world store.new life.new.cells.items
        life.new.packets.items life.new.marks.items life.new.ended) result }
    ensures fixed { (life.new.mode ≡ life.old.mode) × (life.new.nodes ≡ life.old.nodes) }
    ensures fault { result ≡ Answer.SiteFault → HasRisen
        (V.disk_faults store.old.logs.site) (V.disk_faults store.new.logs.site) }
{
    match open_gate(store, part) {
        Ok(()) => Answer::Gated,
        Err(GateRefusal::Unmet(why)) => Answer::Refused(why),
        Err(GateRefusal::SiteFault) => failed(life),
        Err(GateRefusal::NoFrame) => Answer::Unmet,
    }
}

/// It is settled.
pub(crate) fn settle<V: Site, M: Picked>(
    alloc: Global,
    store: &mut GatedStore<V, ByRules<M>>,
    life: &mut Life<M>,
    part: u32,
) -> Answer
    requires begun { HasBegun M.origin M.rules }
    requires stands { Stands M.rules (world store.old life.old.cells.items
        life.old.packets.items life.old.marks.items life.old.ended) }
    requires going { life.old.ended ≡ false }
    requires kept { IsKept M.origin.count (ledgers M.rules) (readers M.rules) (Makes M.rules)
        store.old }
    requires place { part < M.rules.count }
    ensures tells { V.tells store.new.logs.site → V.tells store.old.logs.site }
    ensures kept { IsKept M.origin.count (ledgers M.rules) (readers M.rules) (Makes M.rules)
        store.new }
    ensures stands { Stands M.rules (world store.new life.new.cells.items
        life.new.packets.items life.new.marks.items life.new.ended) }
    ensures makes { HasSettledFrame M.rules life.old.mode part
        (world store.old life.old.cells.items
        life.old.packets.items life.old.marks.items life.old.ended)
        (world store.new life.new.cells.items
        life.new.packets.items life.new.marks.items life.new.ended) result }
    ensures fixed { (life.new.mode ≡ life.old.mode) × (life.new.nodes ≡ life.old.nodes) }
    ensures fault { result ≡ Answer.SiteFault → HasRisen
        (V.disk_faults store.old.logs.site) (V.disk_faults store.new.logs.site) }
{
    let packets = match settle_at(alloc, store, &mut life.cells, part, life.mode) {
        Ok(packets) => packets,
        Err(SettleRefusal::SiteFault) => return failed(life),
        Err(SettleRefusal::NoFrame) => return Answer::Unmet,
        Err(SettleRefusal::Memory) => return out_of_memory(life),
    };
    match note_packets(&mut life.packets, packets) {
        Ok(()) => {}
        Err(_) => return out_of_memory(life),
    }
    match note_marks(alloc, store, life.cells.len() as u32, &mut life.marks) {
        Ok(()) => Answer::Settled,
        Err(_) => out_of_memory(life),
    }
}

/// What a partition made of what was given up is given up too, by these marks.
pub(crate) fn judge<V: Site, M: Picked>(
    alloc: Global,
    store: &mut GatedStore<V, ByRules<M>>,
    life: &mut Life<M>,
    part: u32,
    marks: usize,
) -> Answer
    requires begun { HasBegun M.origin M.rules }
    requires stands { Stands M.rules (world store.old life.old.cells.items
        life.old.packets.items life.old.marks.items life.old.ended) }
    requires going { life.old.ended ≡ false }
    requires kept { IsKept M.origin.count (ledgers M.rules) (readers M.rules) (Makes M.rules)
        store.old }
    requires place { part < M.rules.count }
    requires there { marks < length life.old.marks.items }
    ensures tells { V.tells store.new.logs.site → V.tells store.old.logs.site }
    ensures kept { IsKept M.origin.count (ledgers M.rules) (readers M.rules) (Makes M.rules)
        store.new }
    ensures stands { Stands M.rules (world store.new life.new.cells.items
        life.new.packets.items life.new.marks.items life.new.ended) }
    ensures makes { HasJudged M.rules part marks
        (world store.old life.old.cells.items
        life.old.packets.items life.old.marks.items life.old.ended)
        (world store.new life.new.cells.items
        life.new.packets.items life.new.marks.items life.new.ended) result }
    ensures fixed { (life.new.mode ≡ life.old.mode) × (life.new.nodes ≡ life.old.nodes) }
{
    match judge_at(
        alloc,
        store,
        &mut life.cells,
        part,
        marks_at(&life.marks, marks),
    ) {
        Ok(CellRewind::Kept) => Answer::Kept,
        Ok(CellRewind::Spent(number)) => Answer::Spent(number),
        Ok(CellRewind::Rewound(floor, dep)) => {
            match note_marks(alloc, store, life.cells.len() as u32, &mut life.marks) {
                Ok(()) => Answer::Rewound(floor, dep),
                Err(_) => out_of_memory(life),
            }
        }
        Err(_) => out_of_memory(life),
    }
}

/// A node takes a partition over.
pub(crate) fn own<V: Site, M: Picked>(
    alloc: Global,
    store: &mut GatedStore<V, ByRules<M>>,
    life: &mut Life<M>,
    part: u32,
    node: u32,
) -> Answer
    requires begun { HasBegun M.origin M.rules }
    requires stands { Stands M.rules (world store.old life.old.cells.items
        life.old.packets.items life.old.marks.items life.old.ended) }
    requires going { life.old.ended ≡ false }
    requires kept { IsKept M.origin.count (ledgers M.rules) (readers M.rules) (Makes M.rules)
        store.old }
    requires place { part < M.rules.count }
    ensures tells { V.tells store.new.logs.site → V.tells store.old.logs.site }
    ensures kept { IsKept M.origin.count (ledgers M.rules) (readers M.rules) (Makes M.rules)
        store.new }
    ensures stands { Stands M.rules (world store.new life.new.cells.items
        life.new.packets.items life.new.marks.items life.new.ended) }
    ensures makes { HasOwned M.rules life.old.mode part node
        (world store.old life.old.cells.items
        life.old.packets.items life.old.marks.items life.old.ended)
        (world store.new life.new.cells.items
        life.new.packets.items life.new.marks.items life.new.ended) result }
    ensures fixed { (life.new.mode ≡ life.old.mode) × (life.new.nodes ≡ life.old.nodes) }
    ensures fault { result ≡ Answer.SiteFault → HasRisen
        (V.disk_faults store.old.logs.site) (V.disk_faults store.new.logs.site) }
{
    match take_over_at(alloc, store, &mut life.cells, part, node, life.mode) {
        Taken::Done(reopened) => {
            let count = life.cells.len() as u32;
            match note_taken(
                alloc,
                store,
                count,
                &mut life.packets,
                &mut life.marks,
                reopened,
            ) {
                Ok(true) => Answer::OwnedSettled,
                Ok(false) => Answer::OwnedDropped,
                Err(_) => out_of_memory(life),
            }
        }
        Taken::Spent(reopened, number) => {
            let count = life.cells.len() as u32;
            match note_taken(
                alloc,
                store,
                count,
                &mut life.packets,
                &mut life.marks,
                reopened,
            ) {
                Ok(_) => Answer::Spent(number),
                Err(_) => out_of_memory(life),
            }
        }
        Taken::SiteFault => failed(life),
        Taken::Memory => out_of_memory(life),
    }
}
