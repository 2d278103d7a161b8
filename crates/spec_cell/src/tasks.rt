//! Tasks are given out.

ghost use Rattle.std.specs.Prelude.{◌≡◌, ◌≤◌, ℕ, Bool, ◌∷◌, [], true, Some, take, length, is_ok, IfOk, OnOk};
ghost use Rattle.cell_tasks.specs.Tasks.{is_out, is_due, IsAhead};
ghost use Rattle.dura_model.specs.Partition.{Partition};
ghost use Rattle.dura_value.specs.ById.{at_number};
ghost use Rattle.dura_value.specs.Ids.{Id as PlainId};
ghost use Rattle.dura_value.specs.Views.{id_of};
ghost use Rattle.shared_maps.specs.Order.{IsFirst};
ghost use Rattle.log_items.specs.Plain.{item_of, items_of};
ghost use Rattle.part_steps.specs.States.{state_of};
ghost use Rattle.spec_cell.specs.GivesTask.{GivesTask};
ghost use Rattle.cell_steps.specs.Steps.{entries_in};
ghost use Rattle.spec_cell.specs.Tasks.{StandsAhead, Finds, Gives, without_ended, without_settled};
ghost use Rattle.spec_cell.specs.Views.{IsBase};

use crate::cell::{Cell, put};
use crate::mine::Mine;
use cell_steps::{Live, Step};
use cell_tasks::GivenOut;
use dura_value::Id;
use flow_messages::copy_id;
use log_items::Item;
use part_rows::Activity;
use part_steps::PartState;
use std::alloc::{AllocError, Global};

/// An activity that is to be run.
#[derive(Drop)]
pub struct Task {
    /// Whose it is.
    pub id: Id,
    /// The number of its task.
    pub task: u32,
    /// The activity.
    pub activity: Activity,
}

// ---- tasks that are over

/// A task whose outcome this item has isn't out any more.
fn forget_ended(alloc: Global, given: &mut GivenOut, item: &Item) -> Result<(), AllocError>
    ensures { OnOk result (is_out given.new
        ≡ without_ended (is_out given.old) (item_of item.now ∷ [])) }
{
    match item {
        Item::Done(id, task, _) => given.forget(alloc, id, *task),
        _ => Ok(()),
    }
}

/// Tasks whose outcome one of these items has aren't out any more.
fn forget_all_ended(alloc: Global, given: &mut GivenOut, items: &[Item]) -> Result<(), AllocError>
    ensures { OnOk result (is_out given.new
        ≡ without_ended (is_out given.old) (items_of items.now)) }
{
    for item in items {
        forget_ended(alloc, given, item)?;
    }
    Ok(())
}

/// Tasks whose outcome one of the first so many steps has aren't out any more.
fn forget_front(
    alloc: Global,
    given: &mut GivenOut,
    steps: &[Step],
    count: usize,
) -> Result<(), AllocError>
    requires { count ≤ length steps.now }
    ensures { OnOk result (is_out given.new
        ≡ without_settled (is_out given.old) (take count (entries_in steps.now))) }
{
    for place in 0..count {
        forget_all_ended(alloc, given, steps[place].entry.items.as_slice())?;
    }
    Ok(())
}

/// Tasks whose outcome one of the first so many steps has aren't out any more, and the next look for a task begins at the first one.
pub(crate) fn forget_settled(alloc: Global, live: Live, count: usize) -> Result<Live, AllocError>
    requires { count ≤ length live.steps.items }
    ensures base { IfOk result (λ new. new.base ≡ live.base) }
    ensures steps { IfOk result (λ new. new.steps ≡ live.steps) }
    ensures incarnation { IfOk result (λ new. new.incarnation ≡ live.incarnation) }
    ensures waits { IfOk result (λ new. new.waits ≡ live.waits) }
    ensures given { IfOk result (λ new. is_out new.given
        ≡ without_settled (is_out live.given) (take count (entries_in live.steps.items))) }
    ensures anew { IfOk result (λ new. (there : PlainId → ℕ → Bool) → IsAhead new.given there) }
{
    let mut live = live;
    match forget_front(alloc, &mut live.given, &live.steps, count) {
        Ok(()) => {
            live.given.look_anew();
            Ok(live)
        }
        Err(error) => {
            live.let_go();
            Err(error)
        }
    }
}

// ---- tasks that are to be run

/// The same activity.
fn same_activity(activity: &Activity) -> Result<Activity, AllocError>
    ensures { IfOk result (λ copy. copy ≡ activity.now) }
{
    activity.clone()
}

/// The first pending activity that wasn't given out.
fn first_due(base: &PartState, given: &GivenOut) -> Result<Option<Task>, AllocError>
    requires { StandsAhead (state_of base.now) given.now }
    ensures { IfOk result (λ found. Finds (state_of base.now) given.now found) }
{
    let Some((id, task)) = given.next(base.activities()) else {
        return Ok(None);
    };
    match base.activity(id, task) {
        Some(activity) => Ok(Some(Task {
            id: copy_id(id)?,
            task,
            activity: same_activity(activity)?,
        })),
        None => unreachable!(),
    }
}

/// A task is out from now on. Where it is the first that wasn't, the next look begins behind it.
fn put_out(alloc: Global, given: &mut GivenOut, task: &Task) -> Result<(), AllocError>
    ensures out { OnOk result (is_out given.new
        ≡ at_number (is_out given.old) (id_of task.now.id) task.now.task true) }
    ensures ahead { (there : PlainId → ℕ → Bool) → IsAhead given.old there
        → IsFirst (is_due there given.old) (id_of task.now.id) task.now.task
        → OnOk result (IsAhead given.new there) }
{
    let id = copy_id(&task.id)?;
    given.give_out(alloc, id, task.task)
}

/// This activity, the first one that wasn't given out, is from now on.
fn give_out(alloc: Global, live: Live, task: Task) -> Result<(Live, Option<Task>), AllocError>
    requires first { Finds (state_of live.base) live.given (Some task) }
    requires ahead { StandsAhead (state_of live.base) live.given }
    ensures base { IfOk result (λ both. both.0.base ≡ live.base) }
    ensures steps { IfOk result (λ both. both.0.steps ≡ live.steps) }
    ensures incarnation { IfOk result (λ both. both.0.incarnation ≡ live.incarnation) }
    ensures waits { IfOk result (λ both. both.0.waits ≡ live.waits) }
    ensures task { IfOk result (λ both. both.1 ≡ Some task) }
    ensures out { IfOk result (λ both. is_out both.0.given
        ≡ at_number (is_out live.given) (id_of task.id) task.task true) }
    ensures ahead { IfOk result (λ both. StandsAhead (state_of live.base) both.0.given) }
{
    let mut live = live;
    match put_out(alloc, &mut live.given, &task) {
        Ok(()) => Ok((live, Some(task))),
        Err(error) => {
            drop(task);
            live.let_go();
            Err(error)
        }
    }
}

/// The first pending activity that wasn't given out is, from now on.
fn give_next(alloc: Global, live: Live) -> Result<(Live, Option<Task>), AllocError>
    requires { StandsAhead (state_of live.base) live.given }
    ensures base { IfOk result (λ both. both.0.base ≡ live.base) }
    ensures steps { IfOk result (λ both. both.0.steps ≡ live.steps) }
    ensures incarnation { IfOk result (λ both. both.0.incarnation ≡ live.incarnation) }
    ensures waits { IfOk result (λ both. both.0.waits ≡ live.waits) }
    ensures gives { IfOk result (λ both. Gives (state_of live.base) live.given both.1 both.0.given) }
    ensures ahead { IfOk result (λ both. StandsAhead (state_of live.base) both.0.given) }
{
    let found = match first_due(&live.base, &live.given) {
        Ok(found) => found,
        Err(error) => {
            live.let_go();
            return Err(error);
        }
    };
    match found {
        Some(task) => give_out(alloc, live, task),
        None => Ok((live, None)),
    }
}

impl<S: Mine> Cell<S> {
    /// The first activity, by its instance and task, that is pending in the settled state and isn't out. It is out from now on, until an
    /// outcome of it is settled or entries are given up.
    pub fn next_task(&mut self, alloc: Global) -> Result<Option<Task>, AllocError>
        ensures gives { IfOk result (λ task. (base : Partition)
            × IsBase S.flows S.count (S.begin self.old.number) self.old base
            × GivesTask base self.old task self.new) }
        ensures going { self.new.going ≡ is_ok result }
    {
        let Some(live) = self.live.take() else {
            return Err(AllocError);
        };
        let (next, task) = give_next(alloc, live)?;
        put(&mut self.live, next);
        Ok(task)
    }
}
