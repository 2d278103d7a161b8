//! Nodes take partitions over.

ghost use Rattle.std.specs.Prelude.{◌≡◌, ◌≢◌, ◌≤◌, ◌<◌, ◌+◌, false, length, Err, IfErr, OnOk};
ghost use Rattle.round_steps.specs.Serving.{GoesOn, IsServing};
ghost use Rattle.hub_store.specs.Changes.{KeepsAll, trail_in};
ghost use Rattle.round_steps.specs.Labels.{AreFew, IsCounted};
ghost use Rattle.node_core.specs.Growing.{GrowsOn};
ghost use Rattle.node_core.specs.Halts.{IsPast, IsSilent, RisesFor};
ghost use Rattle.node_core.specs.Running.{IsRunning, Keeps};

use crate::course::{Course, Pace};
use crate::labels::look;
use cell_frames::{Reopened, Seat};
use cell_steps::Mode;
use gated_store::GatedStore;
use many_rules::{ByRules, Picked};
use node_core::{Halt, send};
use part_transport::Transport;
use site_model::Site;
use spec_cell::Cell;
use std::alloc::Global;
use world_steps::{Taken, take_over_at};

/// A node takes a partition over, and what goes out by then goes on its way. It says whether there was room for all.
fn own<V: Site, M: Picked>(
    alloc: Global,
    store: &mut GatedStore<V, ByRules<M>>,
    cells: &mut Vec<Cell<Seat<M>>>,
    transport: &mut Transport,
    part: u32,
    node: u32,
    mode: Mode,
) -> Result<bool, Halt>
    requires running { IsRunning M.origin M.rules store.old cells.old.items }
    requires place { part < M.rules.count }
    ensures keeps { KeepsAll store.old.logs store.new.logs }
    ensures grows { GrowsOn M.rules store.old store.new }
    ensures few { length (trail_in store.new.logs) ≤ length (trail_in store.old.logs) + 64 }
    ensures kept { Keeps M.origin M.rules store.new }
    ensures running { OnOk result (IsRunning M.origin M.rules store.new cells.new.items) }
    ensures rises { IfErr result (RisesFor (V.disk_faults store.old.logs.site)
        (V.say_faults store.old.logs.site) (V.disk_faults store.new.logs.site)
        (V.say_faults store.new.logs.site)) }
    ensures past { IfErr result (IsPast M.rules store.new cells.new.items) }
    ensures silent { IfErr result IsSilent }
{
    match take_over_at(alloc, store, cells, part, node, mode) {
        Taken::Done(Reopened::Settled(packets)) => match send(transport, packets) {
            Ok(fits) => Ok(fits),
            Err(_) => Err(Halt::Memory),
        },
        Taken::Done(Reopened::Dropped) => Ok(true),
        Taken::Spent(reopened, number) => {
            drop(reopened);
            Err(Halt::Spent {
                partition: part,
                number,
            })
        }
        Taken::SiteFault => Err(Halt::SiteFault),
        Taken::Memory => Err(Halt::Memory),
    }
}

/// A partition is taken over by this node, where fewer labels were settled than are enough. It says whether it was.
fn own_part<V: Site, M: Picked>(
    alloc: Global,
    store: &mut GatedStore<V, ByRules<M>>,
    cells: &mut Vec<Cell<Seat<M>>>,
    course: &mut Course,
    part: u32,
    node: u32,
    pace: &Pace,
) -> Result<bool, Halt>
    requires serving { IsServing M.origin M.rules store.old cells.old.items course.old.port }
    requires counted { IsCounted course.old.seen (trail_in store.old.logs) }
    requires place { part < M.rules.count }
    ensures goes { GoesOn M.rules store.old store.new }
    ensures kept { Keeps M.origin M.rules store.new }
    ensures whole { result ≢ Err Halt.SayFault → store.new.logs.cut ≡ false }
    ensures serving { OnOk result (IsServing M.origin M.rules store.new cells.new.items course.new.port) }
    ensures rises { IfErr result (RisesFor (V.disk_faults store.old.logs.site)
        (V.say_faults store.old.logs.site) (V.disk_faults store.new.logs.site)
        (V.say_faults store.new.logs.site)) }
    ensures past { IfErr result (IsPast M.rules store.new cells.new.items) }
    ensures clock { result ≢ Err Halt.ClockFault }
    ensures latest { store.new.logs.latest ≡ store.old.logs.latest }
    ensures fewer { AreFew M.rules pace.now.steps (trail_in store.old.logs)
        → AreFew M.rules pace.now.steps (trail_in store.new.logs) }
    ensures counted { OnOk result (IsCounted course.new.seen (trail_in store.new.logs)) }
{
    if pace.steps <= course.seen.labels {
        return Ok(false);
    }
    let fits = own(
        alloc,
        store,
        cells,
        &mut course.transport,
        part,
        node,
        pace.mode,
    )?;
    course.note_room(fits);
    look(store, course)?;
    Ok(true)
}

/// Each partition is taken over by the node that has it, until as many labels were settled as are enough: all that isn't settled is given up.
pub fn own_all<V: Site, M: Picked>(
    alloc: Global,
    store: &mut GatedStore<V, ByRules<M>>,
    cells: &mut Vec<Cell<Seat<M>>>,
    course: &mut Course,
    pace: &Pace,
) -> Result<(), Halt>
    requires serving { IsServing M.origin M.rules store.old cells.old.items course.old.port }
    requires counted { IsCounted course.old.seen (trail_in store.old.logs) }
    ensures goes { GoesOn M.rules store.old store.new }
    ensures kept { Keeps M.origin M.rules store.new }
    ensures whole { result ≢ Err Halt.SayFault → store.new.logs.cut ≡ false }
    ensures serving { OnOk result (IsServing M.origin M.rules store.new cells.new.items course.new.port) }
    ensures rises { IfErr result (RisesFor (V.disk_faults store.old.logs.site)
        (V.say_faults store.old.logs.site) (V.disk_faults store.new.logs.site)
        (V.say_faults store.new.logs.site)) }
    ensures past { IfErr result (IsPast M.rules store.new cells.new.items) }
    ensures clock { result ≢ Err Halt.ClockFault }
    ensures latest { store.new.logs.latest ≡ store.old.logs.latest }
    ensures fewer { AreFew M.rules pace.now.steps (trail_in store.old.logs)
        → AreFew M.rules pace.now.steps (trail_in store.new.logs) }
    ensures counted { OnOk result (IsCounted course.new.seen (trail_in store.new.logs)) }
{
    let count = cells.len() as u32;
    'parts: for part in 0..count {
        let node = course.crew.owner(part);
        own_part(alloc, store, cells, course, part, node, pace)?;
    }
    Ok(())
}

/// A partition goes to another node, where its own has stopped or the plan moves it. It says whether it went.
fn follow_part<V: Site, M: Picked>(
    alloc: Global,
    store: &mut GatedStore<V, ByRules<M>>,
    cells: &mut Vec<Cell<Seat<M>>>,
    course: &mut Course,
    part: u32,
    pace: &Pace,
) -> Result<bool, Halt>
    requires serving { IsServing M.origin M.rules store.old cells.old.items course.old.port }
    requires counted { IsCounted course.old.seen (trail_in store.old.logs) }
    requires place { part < M.rules.count }
    ensures goes { GoesOn M.rules store.old store.new }
    ensures kept { Keeps M.origin M.rules store.new }
    ensures whole { result ≢ Err Halt.SayFault → store.new.logs.cut ≡ false }
    ensures serving { OnOk result (IsServing M.origin M.rules store.new cells.new.items course.new.port) }
    ensures rises { IfErr result (RisesFor (V.disk_faults store.old.logs.site)
        (V.say_faults store.old.logs.site) (V.disk_faults store.new.logs.site)
        (V.say_faults store.new.logs.site)) }
    ensures past { IfErr result (IsPast M.rules store.new cells.new.items) }
    ensures clock { result ≢ Err Halt.ClockFault }
    ensures latest { store.new.logs.latest ≡ store.old.logs.latest }
    ensures fewer { AreFew M.rules pace.now.steps (trail_in store.old.logs)
        → AreFew M.rules pace.now.steps (trail_in store.new.logs) }
    ensures counted { OnOk result (IsCounted course.new.seen (trail_in store.new.logs)) }
{
    let Some(node) = course.crew.next_owner(part, store.turns()) else {
        return Ok(false);
    };
    if !own_part(alloc, store, cells, course, part, node, pace)? {
        return Ok(false);
    }
    course.crew.give(part, node);
    course.lacking = true;
    Ok(true)
}

/// Partitions whose node has stopped go to the next that hasn't, and those go where the plan moves them. It says whether one went.
pub fn follow_plan<V: Site, M: Picked>(
    alloc: Global,
    store: &mut GatedStore<V, ByRules<M>>,
    cells: &mut Vec<Cell<Seat<M>>>,
    course: &mut Course,
    pace: &Pace,
) -> Result<bool, Halt>
    requires serving { IsServing M.origin M.rules store.old cells.old.items course.old.port }
    requires counted { IsCounted course.old.seen (trail_in store.old.logs) }
    ensures goes { GoesOn M.rules store.old store.new }
    ensures kept { Keeps M.origin M.rules store.new }
    ensures whole { result ≢ Err Halt.SayFault → store.new.logs.cut ≡ false }
    ensures serving { OnOk result (IsServing M.origin M.rules store.new cells.new.items course.new.port) }
    ensures rises { IfErr result (RisesFor (V.disk_faults store.old.logs.site)
        (V.say_faults store.old.logs.site) (V.disk_faults store.new.logs.site)
        (V.say_faults store.new.logs.site)) }
    ensures past { IfErr result (IsPast M.rules store.new cells.new.items) }
    ensures clock { result ≢ Err Halt.ClockFault }
    ensures latest { store.new.logs.latest ≡ store.old.logs.latest }
    ensures fewer { AreFew M.rules pace.now.steps (trail_in store.old.logs)
        → AreFew M.rules pace.now.steps (trail_in store.new.logs) }
    ensures counted { OnOk result (IsCounted course.new.seen (trail_in store.new.logs)) }
{
    let count = cells.len() as u32;
    let mut went = false;
    'parts: for part in 0..count {
        if follow_part(alloc, store, cells, course, part, pace)? {
            went = true;
        }
    }
    course.crew.move_on(store.turns());
    Ok(went)
}
