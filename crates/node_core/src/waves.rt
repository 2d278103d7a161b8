//! Frames of all partitions are committed together: all that may go are written, then made safe by one call, then their gates are opened,
//! which is made safe by one call again, and each is settled.

ghost use Rattle.std.specs.Prelude.{◌≡◌, ◌≤◌, ◌<◌, ◌+◌, ◌*◌, length, IfErr, OnOk};
ghost use Rattle.hub_store.specs.Changes.{KeepsAll, trail_in};
ghost use Rattle.node_core.specs.Growing.{GrowsOn};
ghost use Rattle.node_core.specs.Halts.{IsPast, IsSilent, RisesFor};
ghost use Rattle.node_core.specs.Running.{IsRunning, Keeps};

use crate::crew::Crew;
use crate::halt::Halt;
use crate::stepping::send;
use cell_frames::{Seat, SettleRefusal};
use cell_steps::Mode;
use gated_store::{GateRefusal, GatedStore};
use hub_store::{BodyRefusal, SyncRefusal};
use many_rules::{ByRules, Picked};
use part_transport::Transport;
use site_model::Site;
use spec_cell::{Cell, CellRewind};
use spec_tracker::Marks;
use std::alloc::Global;
use world_steps::{judge_at, marks_now, open_gate, settle_at, sync_frames, write_at};

/// What a partition made of entries that were given up is given up too, by these marks. It says whether something was.
fn judge_part<V: Site, M: Picked>(
    alloc: Global,
    store: &mut GatedStore<V, ByRules<M>>,
    cells: &mut Vec<Cell<Seat<M>>>,
    crew: &Crew,
    marks: &Marks,
    part: u32,
) -> Result<bool, Halt>
    requires running { IsRunning M.origin M.rules store.old cells.old.items }
    requires place { part < M.rules.count }
    ensures keeps { KeepsAll store.old.logs store.new.logs }
    ensures trail { trail_in store.new.logs ≡ trail_in store.old.logs }
    ensures kept { Keeps M.origin M.rules store.new }
    ensures running { OnOk result (IsRunning M.origin M.rules store.new cells.new.items) }
    ensures rises { IfErr result (RisesFor (V.disk_faults store.old.logs.site)
        (V.say_faults store.old.logs.site) (V.disk_faults store.new.logs.site)
        (V.say_faults store.new.logs.site)) }
    ensures past { IfErr result (IsPast M.rules store.new cells.new.items) }
    ensures silent { IfErr result IsSilent }
{
    if crew.has_stopped(part, store.turns()) {
        return Ok(false);
    }
    match judge_at(alloc, store, cells, part, marks) {
        Ok(CellRewind::Kept) => Ok(false),
        Ok(CellRewind::Rewound(_, _)) => Ok(true),
        Ok(CellRewind::Spent(number)) => Err(Halt::Spent {
            partition: part,
            number,
        }),
        Err(_) => Err(Halt::Memory),
    }
}

/// What partitions made of entries that were given up is given up too, of each partition, by these marks. It says whether something was.
pub fn judge_all<V: Site, M: Picked>(
    alloc: Global,
    store: &mut GatedStore<V, ByRules<M>>,
    cells: &mut Vec<Cell<Seat<M>>>,
    crew: &Crew,
    marks: &Marks,
) -> Result<bool, Halt>
    requires running { IsRunning M.origin M.rules store.old cells.old.items }
    ensures keeps { KeepsAll store.old.logs store.new.logs }
    ensures trail { trail_in store.new.logs ≡ trail_in store.old.logs }
    ensures kept { Keeps M.origin M.rules store.new }
    ensures running { OnOk result (IsRunning M.origin M.rules store.new cells.new.items) }
    ensures rises { IfErr result (RisesFor (V.disk_faults store.old.logs.site)
        (V.say_faults store.old.logs.site) (V.disk_faults store.new.logs.site)
        (V.say_faults store.new.logs.site)) }
    ensures past { IfErr result (IsPast M.rules store.new cells.new.items) }
    ensures silent { IfErr result IsSilent }
{
    let count = cells.len() as u32;
    let mut rewound = false;
    'parts: for part in 0..count {
        if judge_part(alloc, store, cells, crew, marks, part)? {
            rewound = true;
        }
    }
    Ok(rewound)
}

/// The frame of a partition that may go by these marks is written. It says whether one was.
fn write_part<V: Site, M: Picked>(
    alloc: Global,
    store: &mut GatedStore<V, ByRules<M>>,
    cells: &mut Vec<Cell<Seat<M>>>,
    crew: &Crew,
    marks: &Marks,
    part: u32,
) -> Result<bool, Halt>
    requires running { IsRunning M.origin M.rules store.old cells.old.items }
    requires place { part < M.rules.count }
    ensures keeps { KeepsAll store.old.logs store.new.logs }
    ensures trail { trail_in store.new.logs ≡ trail_in store.old.logs }
    ensures kept { Keeps M.origin M.rules store.new }
    ensures running { OnOk result (IsRunning M.origin M.rules store.new cells.new.items) }
    ensures rises { IfErr result (RisesFor (V.disk_faults store.old.logs.site)
        (V.say_faults store.old.logs.site) (V.disk_faults store.new.logs.site)
        (V.say_faults store.new.logs.site)) }
    ensures past { IfErr result (IsPast M.rules store.new cells.new.items) }
    ensures silent { IfErr result IsSilent }
{
    if crew.has_stopped(part, store.turns()) {
        return Ok(false);
    }
    match write_at(alloc, store, cells, part, marks) {
        Ok(wrote) => Ok(wrote),
        Err(BodyRefusal::Full { partition, length }) => Err(Halt::Full { partition, length }),
        Err(BodyRefusal::SiteFault) => Err(Halt::SiteFault),
        Err(BodyRefusal::Memory) => Err(Halt::Memory),
    }
}

/// The frames that may go by these marks are written. It says whether one was.
fn write_all<V: Site, M: Picked>(
    alloc: Global,
    store: &mut GatedStore<V, ByRules<M>>,
    cells: &mut Vec<Cell<Seat<M>>>,
    crew: &Crew,
    marks: &Marks,
) -> Result<bool, Halt>
    requires running { IsRunning M.origin M.rules store.old cells.old.items }
    ensures keeps { KeepsAll store.old.logs store.new.logs }
    ensures trail { trail_in store.new.logs ≡ trail_in store.old.logs }
    ensures kept { Keeps M.origin M.rules store.new }
    ensures running { OnOk result (IsRunning M.origin M.rules store.new cells.new.items) }
    ensures rises { IfErr result (RisesFor (V.disk_faults store.old.logs.site)
        (V.say_faults store.old.logs.site) (V.disk_faults store.new.logs.site)
        (V.say_faults store.new.logs.site)) }
    ensures past { IfErr result (IsPast M.rules store.new cells.new.items) }
    ensures silent { IfErr result IsSilent }
{
    let count = cells.len() as u32;
    let mut wrote = false;
    'parts: for part in 0..count {
        if write_part(alloc, store, cells, crew, marks, part)? {
            wrote = true;
        }
    }
    Ok(wrote)
}

/// The frames that wait are made safe, those that are written and those whose gate is.
fn sync_all<V: Site, M: Picked>(
    alloc: Global,
    store: &mut GatedStore<V, ByRules<M>>,
    _cells: &[Cell<Seat<M>>],
) -> Result<(), Halt>
    requires running { IsRunning M.origin M.rules store.old _cells.now }
    ensures keeps { KeepsAll store.old.logs store.new.logs }
    ensures trail { trail_in store.new.logs ≡ trail_in store.old.logs }
    ensures kept { Keeps M.origin M.rules store.new }
    ensures running { OnOk result (IsRunning M.origin M.rules store.new _cells.now) }
    ensures rises { IfErr result (RisesFor (V.disk_faults store.old.logs.site)
        (V.say_faults store.old.logs.site) (V.disk_faults store.new.logs.site)
        (V.say_faults store.new.logs.site)) }
    ensures past { IfErr result (IsPast M.rules store.new _cells.now) }
    ensures silent { IfErr result IsSilent }
{
    match sync_frames(alloc, store) {
        Ok(()) => Ok(()),
        Err(SyncRefusal::NoFrame) => Ok(()),
        Err(SyncRefusal::SiteFault) => Err(Halt::SiteFault),
        Err(SyncRefusal::Memory) => Err(Halt::Memory),
    }
}

/// The gate of a partition's frame that is safe is opened. A frame that isn't what it claims stays behind its gate, until its partition is
/// taken over.
fn open_part<V: Site, M: Picked>(
    store: &mut GatedStore<V, ByRules<M>>,
    _cells: &[Cell<Seat<M>>],
    crew: &Crew,
    part: u32,
) -> Result<(), Halt>
    requires running { IsRunning M.origin M.rules store.old _cells.now }
    requires place { part < M.rules.count }
    ensures keeps { KeepsAll store.old.logs store.new.logs }
    ensures trail { trail_in store.new.logs ≡ trail_in store.old.logs }
    ensures kept { Keeps M.origin M.rules store.new }
    ensures running { OnOk result (IsRunning M.origin M.rules store.new _cells.now) }
    ensures rises { IfErr result (RisesFor (V.disk_faults store.old.logs.site)
        (V.say_faults store.old.logs.site) (V.disk_faults store.new.logs.site)
        (V.say_faults store.new.logs.site)) }
    ensures past { IfErr result (IsPast M.rules store.new _cells.now) }
    ensures silent { IfErr result IsSilent }
{
    if crew.has_stopped(part, store.turns()) {
        return Ok(());
    }
    match open_gate(store, part) {
        Ok(()) => Ok(()),
        Err(GateRefusal::NoFrame) => Ok(()),
        Err(GateRefusal::Unmet(_)) => Ok(()),
        Err(GateRefusal::SiteFault) => Err(Halt::SiteFault),
    }
}

/// The gates of all frames that are safe are opened.
fn open_all<V: Site, M: Picked>(
    store: &mut GatedStore<V, ByRules<M>>,
    cells: &[Cell<Seat<M>>],
    crew: &Crew,
) -> Result<(), Halt>
    requires running { IsRunning M.origin M.rules store.old cells.now }
    ensures keeps { KeepsAll store.old.logs store.new.logs }
    ensures trail { trail_in store.new.logs ≡ trail_in store.old.logs }
    ensures kept { Keeps M.origin M.rules store.new }
    ensures running { OnOk result (IsRunning M.origin M.rules store.new cells.now) }
    ensures rises { IfErr result (RisesFor (V.disk_faults store.old.logs.site)
        (V.say_faults store.old.logs.site) (V.disk_faults store.new.logs.site)
        (V.say_faults store.new.logs.site)) }
    ensures past { IfErr result (IsPast M.rules store.new cells.now) }
    ensures silent { IfErr result IsSilent }
{
    let count = cells.len() as u32;
    'parts: for part in 0..count {
        open_part(store, cells, crew, part)?;
    }
    Ok(())
}

/// The frame of a partition whose open gate is safe is settled, and what goes out by then goes on its way. It says whether there was room
/// for all.
fn settle_part<V: Site, M: Picked>(
    alloc: Global,
    store: &mut GatedStore<V, ByRules<M>>,
    cells: &mut Vec<Cell<Seat<M>>>,
    transport: &mut Transport,
    crew: &Crew,
    mode: Mode,
    part: u32,
) -> Result<bool, Halt>
    requires running { IsRunning M.origin M.rules store.old cells.old.items }
    requires place { part < M.rules.count }
    ensures keeps { KeepsAll store.old.logs store.new.logs }
    ensures grows { GrowsOn M.rules store.old store.new }
    ensures few { length (trail_in store.new.logs) ≤ length (trail_in store.old.logs) + 64 }
    ensures kept { Keeps M.origin M.rules store.new }
    ensures running { OnOk result (IsRunning M.origin M.rules store.new cells.new.items) }
    ensures rises { IfErr result (RisesFor (V.disk_faults store.old.logs.site)
        (V.say_faults store.old.logs.site) (V.disk_faults store.new.logs.site)
        (V.say_faults store.new.logs.site)) }
    ensures past { IfErr result (IsPast M.rules store.new cells.new.items) }
    ensures silent { IfErr result IsSilent }
{
    if crew.has_stopped(part, store.turns()) {
        return Ok(true);
    }
    match settle_at(alloc, store, cells, part, mode) {
        Ok(packets) => match send(transport, packets) {
            Ok(fits) => Ok(fits),
            Err(_) => Err(Halt::Memory),
        },
        Err(SettleRefusal::NoFrame) => Ok(true),
        Err(SettleRefusal::SiteFault) => Err(Halt::SiteFault),
        Err(SettleRefusal::Memory) => Err(Halt::Memory),
    }
}

/// The frames whose open gates are safe are settled, and what goes out by then goes on its way. It says whether there was room for all.
fn settle_all<V: Site, M: Picked>(
    alloc: Global,
    store: &mut GatedStore<V, ByRules<M>>,
    cells: &mut Vec<Cell<Seat<M>>>,
    transport: &mut Transport,
    crew: &Crew,
    mode: Mode,
) -> Result<bool, Halt>
    requires running { IsRunning M.origin M.rules store.old cells.old.items }
    ensures keeps { KeepsAll store.old.logs store.new.logs }
    ensures grows { GrowsOn M.rules store.old store.new }
    ensures few { length (trail_in store.new.logs)
        ≤ length (trail_in store.old.logs) + 64 * M.rules.count }
    ensures kept { Keeps M.origin M.rules store.new }
    ensures running { OnOk result (IsRunning M.origin M.rules store.new cells.new.items) }
    ensures rises { IfErr result (RisesFor (V.disk_faults store.old.logs.site)
        (V.say_faults store.old.logs.site) (V.disk_faults store.new.logs.site)
        (V.say_faults store.new.logs.site)) }
    ensures past { IfErr result (IsPast M.rules store.new cells.new.items) }
    ensures silent { IfErr result IsSilent }
{
    let count = cells.len() as u32;
    let mut fits = true;
    'parts: for part in 0..count {
        if !settle_part(alloc, store, cells, transport, crew, mode, part)? {
            fits = false;
        }
    }
    Ok(fits)
}

/// What came of a wave.
#[derive(Clone, Copy, Drop, PartialEq, Eq)]
pub struct Wave {
    /// Whether a frame was written.
    pub wrote: bool,
    /// Whether there was room for all packets.
    pub fits: bool,
}

/// The frames that may go now are written. It says whether one was.
fn write_now<V: Site, M: Picked>(
    alloc: Global,
    store: &mut GatedStore<V, ByRules<M>>,
    cells: &mut Vec<Cell<Seat<M>>>,
    crew: &Crew,
) -> Result<bool, Halt>
    requires running { IsRunning M.origin M.rules store.old cells.old.items }
    ensures keeps { KeepsAll store.old.logs store.new.logs }
    ensures trail { trail_in store.new.logs ≡ trail_in store.old.logs }
    ensures kept { Keeps M.origin M.rules store.new }
    ensures running { OnOk result (IsRunning M.origin M.rules store.new cells.new.items) }
    ensures rises { IfErr result (RisesFor (V.disk_faults store.old.logs.site)
        (V.say_faults store.old.logs.site) (V.disk_faults store.new.logs.site)
        (V.say_faults store.new.logs.site)) }
    ensures past { IfErr result (IsPast M.rules store.new cells.new.items) }
    ensures silent { IfErr result IsSilent }
{
    let count = cells.len() as u32;
    let Ok(marks) = marks_now(alloc, store, count) else {
        return Err(Halt::Memory);
    };
    let wrote = write_all(alloc, store, cells, crew, &marks);
    drop(marks);
    wrote
}

/// The frames of all partitions that may go are committed together, in two waits for the disk: at most one of each, of at most 64 entries. Where
/// none may nothing is done.
pub fn commit_wave<V: Site, M: Picked>(
    alloc: Global,
    store: &mut GatedStore<V, ByRules<M>>,
    cells: &mut Vec<Cell<Seat<M>>>,
    transport: &mut Transport,
    crew: &Crew,
    mode: Mode,
) -> Result<Wave, Halt>
    requires running { IsRunning M.origin M.rules store.old cells.old.items }
    ensures keeps { KeepsAll store.old.logs store.new.logs }
    ensures grows { GrowsOn M.rules store.old store.new }
    ensures few { length (trail_in store.new.logs)
        ≤ length (trail_in store.old.logs) + 64 * M.rules.count }
    ensures kept { Keeps M.origin M.rules store.new }
    ensures running { OnOk result (IsRunning M.origin M.rules store.new cells.new.items) }
    ensures rises { IfErr result (RisesFor (V.disk_faults store.old.logs.site)
        (V.say_faults store.old.logs.site) (V.disk_faults store.new.logs.site)
        (V.say_faults store.new.logs.site)) }
    ensures past { IfErr result (IsPast M.rules store.new cells.new.items) }
    ensures silent { IfErr result IsSilent }
{
    if !write_now(alloc, store, cells, crew)? {
        return Ok(Wave {
            wrote: false,
            fits: true,
        });
    }
    sync_all(alloc, store, cells)?;
    open_all(store, cells, crew)?;
    sync_all(alloc, store, cells)?;
    let fits = settle_all(alloc, store, cells, transport, crew, mode)?;
    Ok(Wave { wrote: true, fits })
}
