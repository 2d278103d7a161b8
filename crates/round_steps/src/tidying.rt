//! What is between one round and the next: what was read of streams is let go of, what others may lack goes on its way again, and partitions follow
//! the plan.

ghost use Rattle.std.specs.Prelude.{◌≡◌, ◌≢◌, ◌≤◌, ◌<◌, false, length, Err, IfErr, OnOk};
ghost use Rattle.cell_frames.specs.Joined.{view_of};
ghost use Rattle.hub_store.specs.Changes.{trail_in};
ghost use Rattle.node_core.specs.Halts.{IsPast, RisesFor};
ghost use Rattle.node_core.specs.Running.{IsRunning, Keeps};
ghost use Rattle.round_steps.specs.Labels.{AreFew, IsCounted};
ghost use Rattle.round_steps.specs.Serving.{GoesOn, IsServing};
ghost use Rattle.world_steps.specs.Known.{AreMarksOf};

use crate::clients::serve_all;
use crate::course::{Course, Pace};
use crate::owning::follow_plan;
use cell_frames::Seat;
use cell_steps::Mode;
use dura_value::Name;
use gated_store::GatedStore;
use many_rules::{ByRules, Picked};
use node_core::{Halt, judge_all, send};
use site_model::Site;
use spec_cell::Cell;
use spec_tracker::Marks;
use std::alloc::{AllocError, Global};
use world_steps::{marks_now, resend_at, trim_at};

/// More passes of judging than there are partitions.
const MOST_PASSES: u32 = 33;

/// What was read of streams by these marks may be let go of.
fn trim_all<V: Site, M: Picked>(
    alloc: Global,
    store: &GatedStore<V, ByRules<M>>,
    cells: &mut Vec<Cell<Seat<M>>>,
    marks: &Marks,
) -> Result<(), AllocError>
    requires running { IsRunning M.origin M.rules store.now cells.old.items }
    requires marks { AreMarksOf M.rules (view_of store.now) marks.now }
    ensures running { OnOk result (IsRunning M.origin M.rules store.now cells.new.items) }
{
    let count = cells.len() as u32;
    'parts: for part in 0..count {
        trim_at(alloc, cells, part, marks)?;
    }
    Ok(())
}

/// What was read of streams by what is settled may be let go of.
fn trim_now<V: Site, M: Picked>(
    alloc: Global,
    store: &mut GatedStore<V, ByRules<M>>,
    cells: &mut Vec<Cell<Seat<M>>>,
    course: &mut Course,
) -> Result<(), Halt>
    requires serving { IsServing M.origin M.rules store.old cells.old.items course.old.port }
    ensures goes { GoesOn M.rules store.old store.new }
    ensures kept { Keeps M.origin M.rules store.new }
    ensures whole { result ≢ Err Halt.SayFault → store.new.logs.cut ≡ false }
    ensures serving { OnOk result (IsServing M.origin M.rules store.new cells.new.items course.new.port) }
    ensures rises { IfErr result (RisesFor (V.disk_faults store.old.logs.site)
        (V.say_faults store.old.logs.site) (V.disk_faults store.new.logs.site)
        (V.say_faults store.new.logs.site)) }
    ensures past { IfErr result (IsPast M.rules store.new cells.new.items) }
    ensures clock { result ≢ Err Halt.ClockFault }
    ensures latest { store.new.logs.latest ≡ store.old.logs.latest }
    ensures seen { course.new.seen ≡ course.old.seen }
    ensures trail { trail_in store.new.logs ≡ trail_in store.old.logs }
{
    let count = cells.len() as u32;
    let Ok(marks) = marks_now(alloc, store, count) else {
        return Err(Halt::Memory);
    };
    let trimmed = trim_all(alloc, store, cells, &marks);
    drop(marks);
    match trimmed {
        Ok(()) => Ok(()),
        Err(_) => Err(Halt::Memory),
    }
}

/// What is left of a partition's streams goes on its way again.
fn resend_part<M: Picked>(
    alloc: Global,
    cells: &[Cell<Seat<M>>],
    course: &mut Course,
    part: u32,
    mode: Mode,
) -> Result<(), AllocError>
    requires place { part < length cells.now }
    ensures port { course.new.port ≡ course.old.port }
    ensures seen { course.new.seen ≡ course.old.seen }
{
    let packets = resend_at(alloc, cells, part, mode)?;
    if !send(&mut course.transport, packets)? {
        course.lacking = true;
    }
    Ok(())
}

/// What others may lack goes on its way again.
fn resend_all<M: Picked>(
    alloc: Global,
    cells: &[Cell<Seat<M>>],
    course: &mut Course,
    mode: Mode,
) -> Result<(), AllocError>
    requires few { length cells.now ≤ 32 }
    ensures port { course.new.port ≡ course.old.port }
    ensures seen { course.new.seen ≡ course.old.seen }
{
    course.lacking = false;
    let count = cells.len() as u32;
    'parts: for part in 0..count {
        resend_part(alloc, cells, course, part, mode)?;
    }
    Ok(())
}

/// What was read of streams may be let go of, and what others may lack goes on its way again.
pub fn tidy<V: Site, M: Picked>(
    alloc: Global,
    store: &mut GatedStore<V, ByRules<M>>,
    cells: &mut Vec<Cell<Seat<M>>>,
    course: &mut Course,
    mode: Mode,
) -> Result<(), Halt>
    requires serving { IsServing M.origin M.rules store.old cells.old.items course.old.port }
    ensures goes { GoesOn M.rules store.old store.new }
    ensures kept { Keeps M.origin M.rules store.new }
    ensures whole { result ≢ Err Halt.SayFault → store.new.logs.cut ≡ false }
    ensures serving { OnOk result (IsServing M.origin M.rules store.new cells.new.items course.new.port) }
    ensures rises { IfErr result (RisesFor (V.disk_faults store.old.logs.site)
        (V.say_faults store.old.logs.site) (V.disk_faults store.new.logs.site)
        (V.say_faults store.new.logs.site)) }
    ensures past { IfErr result (IsPast M.rules store.new cells.new.items) }
    ensures clock { result ≢ Err Halt.ClockFault }
    ensures latest { store.new.logs.latest ≡ store.old.logs.latest }
    ensures seen { course.new.seen ≡ course.old.seen }
    ensures trail { trail_in store.new.logs ≡ trail_in store.old.logs }
{
    if cells.len() < 2 {
        return Ok(());
    }
    trim_now(alloc, store, cells, course)?;
    if !course.lacking && !course.disturbed {
        return Ok(());
    }
    match resend_all(alloc, cells, course, mode) {
        Ok(()) => Ok(()),
        Err(_) => Err(Halt::Memory),
    }
}

/// What cells made of what was given up is given up too. It says whether something was.
fn judge_now<V: Site, M: Picked>(
    alloc: Global,
    store: &mut GatedStore<V, ByRules<M>>,
    cells: &mut Vec<Cell<Seat<M>>>,
    course: &mut Course,
) -> Result<bool, Halt>
    requires serving { IsServing M.origin M.rules store.old cells.old.items course.old.port }
    ensures goes { GoesOn M.rules store.old store.new }
    ensures kept { Keeps M.origin M.rules store.new }
    ensures whole { result ≢ Err Halt.SayFault → store.new.logs.cut ≡ false }
    ensures serving { OnOk result (IsServing M.origin M.rules store.new cells.new.items course.new.port) }
    ensures rises { IfErr result (RisesFor (V.disk_faults store.old.logs.site)
        (V.say_faults store.old.logs.site) (V.disk_faults store.new.logs.site)
        (V.say_faults store.new.logs.site)) }
    ensures past { IfErr result (IsPast M.rules store.new cells.new.items) }
    ensures clock { result ≢ Err Halt.ClockFault }
    ensures latest { store.new.logs.latest ≡ store.old.logs.latest }
    ensures seen { course.new.seen ≡ course.old.seen }
    ensures trail { trail_in store.new.logs ≡ trail_in store.old.logs }
{
    let count = cells.len() as u32;
    let Ok(marks) = marks_now(alloc, store, count) else {
        return Err(Halt::Memory);
    };
    let rewound = judge_all(alloc, store, cells, &course.crew, &marks);
    drop(marks);
    rewound
}

/// What cells made of what was given up is given up too, until nothing more is.
fn settle_given_up<V: Site, M: Picked>(
    alloc: Global,
    store: &mut GatedStore<V, ByRules<M>>,
    cells: &mut Vec<Cell<Seat<M>>>,
    course: &mut Course,
) -> Result<(), Halt>
    requires serving { IsServing M.origin M.rules store.old cells.old.items course.old.port }
    ensures goes { GoesOn M.rules store.old store.new }
    ensures kept { Keeps M.origin M.rules store.new }
    ensures whole { result ≢ Err Halt.SayFault → store.new.logs.cut ≡ false }
    ensures serving { OnOk result (IsServing M.origin M.rules store.new cells.new.items course.new.port) }
    ensures rises { IfErr result (RisesFor (V.disk_faults store.old.logs.site)
        (V.say_faults store.old.logs.site) (V.disk_faults store.new.logs.site)
        (V.say_faults store.new.logs.site)) }
    ensures past { IfErr result (IsPast M.rules store.new cells.new.items) }
    ensures clock { result ≢ Err Halt.ClockFault }
    ensures latest { store.new.logs.latest ≡ store.old.logs.latest }
    ensures seen { course.new.seen ≡ course.old.seen }
    ensures trail { trail_in store.new.logs ≡ trail_in store.old.logs }
{
    'passes: for _ in 0..MOST_PASSES {
        if !judge_now(alloc, store, cells, course)? {
            return Ok(());
        }
    }
    Ok(())
}

/// Partitions follow the plan: they go where it moves them and away from nodes that stopped, and what depends on what was given up by it is
/// given up too. It says whether one went.
pub fn follow<V: Site, M: Picked>(
    alloc: Global,
    store: &mut GatedStore<V, ByRules<M>>,
    cells: &mut Vec<Cell<Seat<M>>>,
    course: &mut Course,
    clients: &[Name],
    pace: &Pace,
) -> Result<bool, Halt>
    requires serving { IsServing M.origin M.rules store.old cells.old.items course.old.port }
    requires counted { IsCounted course.old.seen (trail_in store.old.logs) }
    ensures goes { GoesOn M.rules store.old store.new }
    ensures kept { Keeps M.origin M.rules store.new }
    ensures whole { result ≢ Err Halt.SayFault → store.new.logs.cut ≡ false }
    ensures serving { OnOk result (IsServing M.origin M.rules store.new cells.new.items course.new.port) }
    ensures rises { IfErr result (RisesFor (V.disk_faults store.old.logs.site)
        (V.say_faults store.old.logs.site) (V.disk_faults store.new.logs.site)
        (V.say_faults store.new.logs.site)) }
    ensures past { IfErr result (IsPast M.rules store.new cells.new.items) }
    ensures clock { result ≢ Err Halt.ClockFault }
    ensures latest { store.new.logs.latest ≡ store.old.logs.latest }
    ensures fewer { AreFew M.rules pace.now.steps (trail_in store.old.logs)
        → AreFew M.rules pace.now.steps (trail_in store.new.logs) }
    ensures counted { OnOk result (IsCounted course.new.seen (trail_in store.new.logs)) }
{
    if !follow_plan(alloc, store, cells, course, pace)? {
        return Ok(false);
    }
    settle_given_up(alloc, store, cells, course)?;
    serve_all(alloc, store, cells, &mut course.port, clients)?;
    Ok(true)
}
