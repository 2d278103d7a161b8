//! Activities run.

ghost use Rattle.std.specs.Prelude.{◌≡◌, ◌≤◌, ◌<◌, true, length, IfOk, OnOk};
ghost use Rattle.activity_table.specs.Table.{may};
ghost use Rattle.cell_frames.specs.Begun.{HasBegun};
ghost use Rattle.cell_frames.specs.Joined.{StoreView};
ghost use Rattle.dura_value.specs.Views.{id_of};
ghost use Rattle.world_steps.specs.Cells.{AllJoined};
ghost use Rattle.world_steps.specs.Comes.{IsAskedFor};

use activity_table::{Activities, word};
use cell_frames::Seat;
use cell_waits::Ended;
use dura_value::Outcome;
use many_rules::Picked;
use node_core::Crew;
use part_rows::Activity;
use spec_cell::{Cell, Recorded, Task};
use std::alloc::{AllocError, Global};
use world_steps::{record_at, take_task_at};

/// The most tasks of a partition that run in one round.
const MOST_TASKS: u32 = 1 << 16;

/// Runs an activity.
fn run<A: Activities>(
    alloc: Global,
    acts: &A,
    activity: &Activity,
    chance: u64,
) -> Result<Outcome, AllocError>
    ensures { IfOk result (λ outcome. may activity.now.name activity.now.argument outcome ≡ true) }
{
    let Ok(name) = str::from_utf8(activity.name.as_bytes()) else {
        unreachable!()
    };
    acts.run(alloc, name, &activity.argument, chance)
}

/// A task runs, and its outcome comes to its partition.
fn run_task<M: Picked, A: Activities>(
    alloc: Global,
    acts: &A,
    cells: &mut Vec<Cell<Seat<M>>>,
    part: u32,
    task: Task,
    chance: u64,
) -> Result<(), AllocError>
    requires place { part < length cells.old.items }
    ensures many { length cells.new.items ≡ length cells.old.items }
    ensures joined { (s : StoreView)
        → IsAskedFor M.rules part (id_of task.id) task.task cells.old.items
        → AllJoined M.rules s cells.old.items → OnOk result (AllJoined M.rules s cells.new.items) }
{
    let outcome = match run(alloc, acts, &task.activity, chance) {
        Ok(outcome) => outcome,
        Err(error) => {
            drop(task);
            return Err(error);
        }
    };
    let Task { id, task, activity } = task;
    let ended = Ended {
        id,
        task,
        activity,
        outcome,
    };
    match record_at(alloc, cells, part, ended)? {
        Recorded::Recorded | Recorded::NotPending => Ok(()),
    }
}

/// The first task of a partition that is pending and isn't out runs. It says whether there was one.
fn run_next<M: Picked, A: Activities>(
    alloc: Global,
    acts: &A,
    cells: &mut Vec<Cell<Seat<M>>>,
    part: u32,
    chance: u64,
) -> Result<bool, AllocError>
    requires begun { HasBegun M.origin M.rules }
    requires place { part < length cells.old.items }
    requires inside { part < M.rules.count }
    ensures many { length cells.new.items ≡ length cells.old.items }
    ensures joined { (s : StoreView) → AllJoined M.rules s cells.old.items
        → OnOk result (AllJoined M.rules s cells.new.items) }
{
    let Some(task) = take_task_at(alloc, cells, part)? else {
        return Ok(false);
    };
    run_task(alloc, acts, cells, part, task, chance)?;
    Ok(true)
}

/// The tasks of a partition that are pending run, each once. The word of each comes of the seed, the node and how many the node ran.
fn run_tasks<M: Picked, A: Activities>(
    alloc: Global,
    acts: &A,
    cells: &mut Vec<Cell<Seat<M>>>,
    part: u32,
    seed: u32,
    node: u32,
    runs: &mut u64,
) -> Result<(), AllocError>
    requires begun { HasBegun M.origin M.rules }
    requires place { part < length cells.old.items }
    requires inside { part < M.rules.count }
    ensures many { length cells.new.items ≡ length cells.old.items }
    ensures joined { (s : StoreView) → AllJoined M.rules s cells.old.items
        → OnOk result (AllJoined M.rules s cells.new.items) }
{
    'tasks: for _ in 0..MOST_TASKS {
        let chance = word(seed as u64, node as u64, *runs);
        if !run_next(alloc, acts, cells, part, chance)? {
            return Ok(());
        }
        *runs = runs.wrapping_add(1);
    }
    Ok(())
}

/// The tasks of a partition run, unless its node has stopped by so many turns of the store.
fn run_part<M: Picked, A: Activities>(
    alloc: Global,
    acts: &A,
    cells: &mut Vec<Cell<Seat<M>>>,
    crew: &Crew,
    turns: u64,
    part: u32,
    seed: u32,
    runs: &mut Vec<u64>,
) -> Result<(), AllocError>
    requires begun { HasBegun M.origin M.rules }
    requires place { part < length cells.old.items }
    requires inside { part < M.rules.count }
    ensures many { length cells.new.items ≡ length cells.old.items }
    ensures joined { (s : StoreView) → AllJoined M.rules s cells.old.items
        → OnOk result (AllJoined M.rules s cells.new.items) }
{
    if crew.has_stopped(part, turns) {
        return Ok(());
    }
    let node = crew.owner(part);
    match runs.get_mut(node as usize) {
        Some(ran) => run_tasks(alloc, acts, cells, part, seed, node, ran),
        None => Ok(()),
    }
}

/// The tasks of all partitions run.
pub fn run_all_tasks<M: Picked, A: Activities>(
    alloc: Global,
    acts: &A,
    cells: &mut Vec<Cell<Seat<M>>>,
    crew: &Crew,
    turns: u64,
    seed: u32,
    runs: &mut Vec<u64>,
) -> Result<(), AllocError>
    requires begun { HasBegun M.origin M.rules }
    requires few { M.rules.count ≤ 32 }
    requires place { length cells.old.items ≡ M.rules.count }
    ensures many { length cells.new.items ≡ length cells.old.items }
    ensures joined { (s : StoreView) → AllJoined M.rules s cells.old.items
        → OnOk result (AllJoined M.rules s cells.new.items) }
{
    let count = cells.len() as u32;
    'parts: for part in 0..count {
        run_part(alloc, acts, cells, crew, turns, part, seed, runs)?;
    }
    Ok(())
}
