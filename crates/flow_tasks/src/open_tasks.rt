//! Which tasks have no result yet.

ghost use Rattle.std.specs.Prelude.{◌≡◌, ◌++◌, ◌∷◌, [], None, Some, List, length, is_some, OnOk, OnErr};
ghost use Rattle.std.specs.List.{slice_get};
ghost use Rattle.flow_syntax.specs.Machine.{Arrival, Task, task_at, with_arrival};
ghost use Rattle.flow_tasks.specs.Numbers.{numbers_in};
ghost use Rattle.flow_tasks.specs.OpenTasks.{AreThose};
ghost use Rattle.flow_tasks.specs.Views.{kind_of};

use crate::by_name::{NumbersByName, copy_name};
use crate::tasks::Kind;
use std::alloc::{AllocError, Global};
use std::collections::BTreeSet;

/// The numbers of the tasks without a result that are looked for by what they are.
#[derive(Drop)]
pub(crate) struct OpenTasks {
    /// Asks and started flows.
    pub(crate) calls: BTreeSet<usize>,
    /// Handles of events, by their names.
    pub(crate) listeners: NumbersByName,
}

impl OpenTasks {
    /// No tasks are open.
    pub(crate) fn new(alloc: Global) -> OpenTasks
        ensures { AreThose result [] }
    {
        OpenTasks {
            calls: BTreeSet::new(alloc),
            listeners: NumbersByName::new(alloc),
        }
    }

    /// A new task, which comes behind all others.
    pub(crate) fn push(&mut self, kind: &Kind, number: usize) -> Result<(), AllocError>
        ensures ok { OnOk result ((tasks : List Task) → AreThose self.old tasks
            → number ≡ length tasks
            → AreThose self.new (tasks ++ record { kind = kind_of kind.now; arrival = None }
            ∷ [])) }
        ensures err { OnErr result ((tasks : List Task) → AreThose self.old tasks
            → AreThose self.new tasks) }
    {
        match kind {
            Kind::Flow | Kind::Entity(_) => {
                self.calls.insert(number)?;
            }
            Kind::Event(name) => self.listeners.push(copy_name(name)?, number)?,
            Kind::Activity(_, _) | Kind::Timer(_) | Kind::Grant(_) => {}
        }
        Ok(())
    }

    /// The result of a task arrives.
    pub(crate) fn leave_out(&mut self, kind: &Kind, number: usize)
        ensures { (tasks : List Task) (arrival : Arrival) → AreThose self.old tasks
            → task_at tasks number ≡ Some (record { kind = kind_of kind.now; arrival = None })
            → AreThose self.new (with_arrival tasks number arrival) }
    {
        match kind {
            Kind::Flow | Kind::Entity(_) => {
                self.calls.remove(&number);
            }
            Kind::Event(name) => self.listeners.leave_out(name, number),
            Kind::Activity(_, _) | Kind::Timer(_) | Kind::Grant(_) => {}
        }
    }
}
