//! The tasks of an instance.

ghost use Rattle.std.specs.Prelude.{◌≡◌, ◌==◌, ◌<◌, ◌&&◌, IsTrue, ◌++◌, ◌∷◌, [], length, Some, None, IfOk, OnOk, OnErr, option_map};
ghost use Rattle.dura_value.specs.Views.{spot_of};
ghost use Rattle.flow_syntax.specs.Machine.{task_at, arrival_of as arrival_at, all_arrived, first_arrived, has_open_call, has_open_ask, oldest_listener, sooner};
ghost use Rattle.flow_tasks.specs.Views.{kind_of, arrival_of, task_of, tasks_of, candidate_of};
ghost use Rattle.flow_tasks.specs.Changes.{can_arrive, tasks_with};
ghost use Rattle.flow_tasks.specs.OpenTasks.{is_open_ask, passes_at};

use crate::open_tasks::OpenTasks;
use crate::sets::are_same;
use dura_value::{Name, Outcome, Spot, Spots, Value};
use std::alloc::{AllocError, Global};
use std::marker::Model;

/// What a task is.
#[derive(Drop)]
pub enum Kind {
    /// An activity with its argument.
    Activity(Name, Value),
    /// An instance that was started.
    Flow,
    /// An entity that was asked.
    Entity(Spot),
    /// A timer, and the stamp that it is due at.
    Timer(u64),
    /// The next event of a name.
    Event(Name),
    /// The grant of a set.
    Grant(Spots),
}

/// A task's result, and its place in the order in which results arrived.
#[derive(Drop)]
pub struct Arrival {
    /// The result.
    pub outcome: Outcome,
    /// How many results arrived before it.
    pub order: u64,
}

/// A task, with its result once it arrived.
#[derive(Drop)]
pub struct Task {
    /// What it is.
    pub kind: Kind,
    /// Its result.
    pub arrival: Option<Arrival>,
}

impl Task {
    /// Its result arrives.
    fn settle(&mut self, outcome: Outcome, order: u64)
        ensures { task_of self.new ≡ record (task_of self.old)
            { arrival = Some (record { outcome = outcome; order = order }) } }
    {
        self.arrival = Some(Arrival { outcome, order });
    }

    /// Whether it is an ask of this entity without a result.
    fn asks(&self, spot: &Spot) -> bool
        ensures { result ≡ is_open_ask (spot_of spot.now) (task_of self.now) }
    {
        matches!(&self.kind, Kind::Entity(other) if are_same(spot, other)) && self.arrival.is_none()
    }
}

/// The tasks of an instance by number, which a contract sees as a list.
#[derive(Drop)]
pub struct Tasks {
    tasks: Vec<Task>,
    /// Which of them have no result yet, so that nothing goes over all.
    index: OpenTasks,
}

impl Model for Tasks {
    ghost use Rattle.std.specs.Prelude.{List, ◌≡◌};
    ghost use Rattle.flow_tasks.specs.declared.tasks.Task.{Task};
    ghost use Rattle.flow_tasks.specs.OpenTasks.{AreThose};
    ghost use Rattle.flow_tasks.specs.Views.{tasks_of};

    ghost Value = { List Task };

    ghost view = { λ t. t.tasks.items };

    ghost invariant = { λ t. AreThose t.index (tasks_of t.tasks.items) };
}

impl Tasks {
    /// No tasks.
    pub fn new(alloc: Global) -> Tasks
        ensures { result ≡ [] }
    {
        Tasks {
            tasks: Vec::new(alloc),
            index: OpenTasks::new(alloc),
        }
    }

    /// How many there are, which is the number of the next one.
    pub fn len(&self) -> usize
        ensures { result ≡ length self.now }
    {
        self.tasks.len()
    }

    /// The tasks, where they lie.
    pub fn as_slice(&self) -> &[Task]
        ensures { result.now ≡ self.now }
    {
        &self.tasks
    }

    /// A new task, whose number is the next one.
    pub fn push(&mut self, kind: Kind) -> Result<(), AllocError>
        ensures ok { OnOk result (tasks_of self.new
            ≡ tasks_of self.old ++ record { kind = kind_of kind; arrival = None } ∷ []) }
        ensures err { OnErr result (self.new ≡ self.old) }
    {
        let number = self.tasks.len();
        self.tasks.push(Task {
            kind,
            arrival: None,
        })?;
        if let Err(error) = self.index.push(&self.tasks[number].kind, number) {
            drop(self.tasks.pop());
            return Err(error);
        }
        Ok(())
    }

    /// The result of a task, once it is there.
    pub fn arrival(&self, number: usize) -> Option<&Arrival>
        ensures { option_map (λ a. arrival_of a.now) result
            ≡ arrival_at (task_at (tasks_of self.now) number) }
    {
        match self.tasks.get(number) {
            Some(task) => task.arrival.as_ref(),
            None => None,
        }
    }

    /// Whether a task is there and has no result yet.
    fn can_arrive(&self, number: usize) -> bool
        ensures result { result ≡ can_arrive (task_at (tasks_of self.now) number) }
        ensures within { IsTrue result → number < length self.now }
    {
        match self.tasks.get(number) {
            Some(task) => task.arrival.is_none(),
            None => false,
        }
    }

    /// The result of a task arrives, if the task is there and has none yet.
    pub fn arrive(&mut self, number: usize, outcome: Outcome, order: u64) -> bool
        ensures arrives { result ≡ can_arrive (task_at (tasks_of self.old) number) }
        ensures tasks { tasks_of self.new ≡ tasks_with (tasks_of self.old) number
            (record { outcome = outcome; order = order }) }
    {
        let arrives = self.can_arrive(number);
        if arrives {
            self.index.leave_out(&self.tasks[number].kind, number);
            self.tasks[number].settle(outcome, order);
        }
        arrives
    }

    /// The results of these tasks, once all are there.
    pub fn all_arrived(
        &self,
        alloc: Global,
        handles: &[usize],
    ) -> Result<Option<Vec<Outcome>>, AllocError>
        ensures { IfOk result (λ outcomes. option_map (λ v. v.items) outcomes
            ≡ all_arrived (tasks_of self.now) handles.now) }
    {
        let mut outcomes = Vec::new(alloc);
        for handle in handles {
            match self.arrival(*handle) {
                Some(arrival) => outcomes.push(copy_of(&arrival.outcome)?)?,
                None => return Ok(None),
            }
        }
        Ok(Some(outcomes))
    }

    /// The place of the one of these tasks whose result came first, if one is there.
    pub fn first_arrived(&self, handles: &[usize]) -> Option<usize>
        ensures { result ≡ option_map (λ c. c.place)
            (first_arrived (tasks_of self.now) 0 handles.now) }
    {
        let mut best: Option<Candidate> = None;
        let mut left = handles.len();
        while left > 0 {
            left -= 1;
            if let Some(arrival) = self.arrival(handles[left]) {
                best = Some(sooner(left, arrival, best));
            }
        }
        match best {
            Some(best) => Some(best.place),
            None => None,
        }
    }

    /// Whether an ask or a started flow has no result yet.
    pub fn has_open_call(&self) -> bool
        ensures { result ≡ has_open_call (tasks_of self.now) }
    {
        self.index.calls.first().is_some()
    }

    /// Whether the task of a number is there, and an ask of this entity without a result.
    fn asks(&self, number: usize, spot: &Spot) -> bool
        ensures { result ≡ passes_at (is_open_ask (spot_of spot.now))
            (task_at (tasks_of self.now) number) }
    {
        match self.tasks.get(number) {
            Some(task) => task.asks(spot),
            None => false,
        }
    }

    /// Whether an ask of this entity has no result yet.
    pub fn has_open_ask(&self, spot: &Spot) -> bool
        ensures { result ≡ has_open_ask (spot_of spot.now) (tasks_of self.now) }
    {
        for number in &self.index.calls {
            if self.asks(*number, spot) {
                return true;
            }
        }
        false
    }

    /// The oldest handle of an event's name that waits.
    pub fn oldest_listener(&self, name: &Name) -> Option<usize>
        ensures { result ≡ oldest_listener name.now (tasks_of self.now) }
    {
        self.index.listeners.first(name)
    }
}

/// The place of a result, and when it came.
#[derive(Clone, Copy, Drop)]
struct Candidate {
    place: usize,
    order: u64,
}

/// Of two results with their places the one that came first, the earlier place where they came at once.
fn sooner(place: usize, arrival: &Arrival, best: Option<Candidate>) -> Candidate
    ensures { Some (candidate_of result)
        ≡ sooner place (Some (arrival_of arrival.now)) (option_map candidate_of best) }
{
    let here = Candidate {
        place,
        order: arrival.order,
    };
    match best {
        Some(best) => { if here.order <= best.order { here } else { best } }
        None => here,
    }
}

/// The same outcome once more.
#[tactic(auto, using(crate::proofs::Copies::same_outcome))]
fn copy_of(outcome: &Outcome) -> Result<Outcome, AllocError>
    ensures { IfOk result (λ copy. copy ≡ outcome.now) }
{
    outcome.clone()
}
