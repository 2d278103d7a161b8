//! The tasks that were given out.

ghost use Rattle.std.specs.Prelude.{◌≡◌, ℕ, true, false, Bool, is_some, option_map, IfSome, IfNone, IfOk, OnOk, OnErr};
ghost use Rattle.dura_value.specs.ById.{at_number};
ghost use Rattle.dura_value.specs.Ids.{Id as PlainId};
ghost use Rattle.dura_value.specs.Views.{id_of};
ghost use Rattle.shared_maps.specs.Maps.{by_task};
ghost use Rattle.shared_maps.specs.Order.{IsFirst};
ghost use Rattle.cell_tasks.specs.Tasks.{is_out, none_out, last_of, is_due, AllOut, IsAhead};

use dura_value::Id;
use shared_maps::TaskMap;
use std::alloc::{AllocError, Global};

/// That a task is out.
#[derive(Clone, Copy)]
struct Out;

/// The tasks that were given out, and how far a look for the next got.
#[derive(Drop)]
pub struct GivenOut {
    tasks: TaskMap<Out>,
    /// A look begins behind this one: each task up to it that is pending is out.
    last: Option<(Id, u32)>,
}

/// A copy of an id.
fn copy_id(id: &Id) -> Result<Id, AllocError>
    ensures { IfOk result (λ copy. copy ≡ id.now) }
{
    id.clone()
}

impl GivenOut {
    /// No task was given out.
    pub fn new(alloc: Global) -> GivenOut
        ensures none { is_out result ≡ none_out }
        ensures anew { (there : PlainId → ℕ → Bool) → IsAhead result there }
    {
        GivenOut {
            tasks: TaskMap::new(alloc),
            last: None,
        }
    }

    /// Whether a task was given out.
    pub fn has(&self, id: &Id, task: u32) -> bool
        ensures { result ≡ is_out self.now (id_of id.now) task }
    {
        self.tasks.get(id, task).is_some()
    }

    /// The task that a look begins behind.
    fn last(&self) -> Option<(&Id, u32)>
        ensures { option_map (λ task. (id_of task.0.now, task.1)) result ≡ last_of self.now }
    {
        match &self.last {
            Some((id, task)) => Some((id, *task)),
            None => None,
        }
    }

    /// The first of these tasks that wasn't given out, in the order of ids, and of one id in that of its tasks.
    pub fn next<'a, V>(&self, pending: &'a TaskMap<V>) -> Option<(&'a Id, u32)>
        requires { IsAhead self.now (λ id task. is_some (by_task pending.now id task)) }
        ensures next { IfSome result (λ one.
            IsFirst (is_due (λ id task. is_some (by_task pending.now id task)) self.now)
            (id_of one.0.now) one.1) }
        ensures none { IfNone result
            (AllOut (λ id task. is_some (by_task pending.now id task)) self.now) }
    {
        let mut last = self.last();
        while let Some((id, task)) = pending.next(last) {
            if !self.has(id, task) {
                return Some((id, task));
            }
            last = Some((id, task));
        }
        None
    }

    /// A task is given out. Where it is the first that wasn't, the next look begins behind it. Without memory an Err, and nothing has
    /// changed.
    pub fn give_out(&mut self, alloc: Global, id: Id, task: u32) -> Result<(), AllocError>
        ensures out { OnOk result (is_out self.new
            ≡ at_number (is_out self.old) (id_of id) task true) }
        ensures same { OnErr result (is_out self.new ≡ is_out self.old) }
        ensures ahead { (there : PlainId → ℕ → Bool) → IsAhead self.old there
            → IsFirst (is_due there self.old) (id_of id) task → IsAhead self.new there }
    {
        let kept = copy_id(&id)?;
        self.tasks.put(alloc, kept, task, Out)?;
        self.last = Some((id, task));
        Ok(())
    }

    /// A task is no longer out, and the next look begins at the first one. Without memory an Err, and it is still out.
    pub fn forget(&mut self, alloc: Global, id: &Id, task: u32) -> Result<(), AllocError>
        ensures forgotten { OnOk result (is_out self.new
            ≡ at_number (is_out self.old) (id_of id.now) task false) }
        ensures same { OnErr result (is_out self.new ≡ is_out self.old) }
        ensures anew { (there : PlainId → ℕ → Bool) → IsAhead self.new there }
    {
        self.last = None;
        drop(self.tasks.take(alloc, id, task)?);
        Ok(())
    }

    /// The next look begins at the first task, since others may be pending than at the last one.
    pub fn look_anew(&mut self)
        ensures same { is_out self.new ≡ is_out self.old }
        ensures anew { (there : PlainId → ℕ → Bool) → IsAhead self.new there }
    {
        self.last = None;
    }

    /// No task is out any more.
    pub fn clear(&mut self, alloc: Global)
        ensures none { is_out self.new ≡ none_out }
        ensures anew { (there : PlainId → ℕ → Bool) → IsAhead self.new there }
    {
        *self = GivenOut::new(alloc);
    }

    /// Lets go of it. Where another crate drops it, the drop of each of its parts is proved there once more.
    pub fn let_go(self) {
        drop(self);
    }
}
