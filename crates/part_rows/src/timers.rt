//! The timers of a partition.

ghost use Rattle.std.specs.Prelude.{◌≡◌, ◌-◌, ◌^◌, ℕ, List, Some, None, IfOk, OnOk, IfSome, IfNone, length, min};
ghost use Rattle.dura_value.specs.Ids.{Id as PlainId};
ghost use Rattle.dura_value.specs.Views.{id_of};
ghost use Rattle.dura_value.specs.ById.{at_number, cleared};
ghost use Rattle.shared_maps.specs.Maps.{no_number};
ghost use Rattle.part_rows.specs.Timers.{timers_in, AreDue, InOrder, IsFirstDue, NoneDue, IsNext, NoTimer};

use crate::timer::Timer;
use dura_value::Id;
use flow_messages::copy_id;
use shared_maps::{NumberMap, TimeMap};
use std::alloc::{AllocError, Global};

/// The timers of a partition: at most one for each task of an instance. A contract sees when each is due. Copies share them.
///
/// After an Err, which is want of memory, a row is only dropped.
#[derive(Drop)]
pub struct TimerRow {
    stamps: NumberMap<u64>,
    order: TimeMap<Timer>,
}

impl TimerRow {
    /// A row without timers.
    pub fn new(alloc: Global) -> TimerRow
        ensures none { timers_in result ≡ no_number }
        ensures order { InOrder result }
    {
        TimerRow {
            stamps: NumberMap::new(alloc),
            order: TimeMap::new(alloc),
        }
    }

    /// When the timer of this task is due.
    pub fn get(&self, id: &Id, task: u32) -> Option<u64>
        ensures { result ≡ timers_in self.now (id_of id.now) task }
    {
        self.stamps.get(id, task).copied()
    }

    /// Sets the timer of this task, in place of the one that it has.
    pub fn put(&mut self, alloc: Global, id: Id, task: u32, due: u64) -> Result<(), AllocError>
        requires { InOrder self.old }
        ensures put { OnOk result (timers_in self.new
            ≡ at_number (timers_in self.old) (id_of id) task (Some due)) }
        ensures order { OnOk result (InOrder self.new) }
    {
        self.take(alloc, &id, task)?;
        let timer = Timer::of(due, &id, task)?;
        self.order.put(alloc, due, copy_id(&id)?, task, timer)?;
        self.stamps.put(alloc, id, task, due)?;
        Ok(())
    }

    /// Takes out the timer of this task, and says when it was due.
    pub fn take(&mut self, alloc: Global, id: &Id, task: u32) -> Result<Option<u64>, AllocError>
        requires { InOrder self.old }
        ensures due { IfOk result (λ due. due ≡ timers_in self.old (id_of id.now) task) }
        ensures taken { OnOk result (timers_in self.new
            ≡ at_number (timers_in self.old) (id_of id.now) task None) }
        ensures order { OnOk result (InOrder self.new) }
    {
        let Some(due) = self.stamps.take(alloc, id, task)? else {
            return Ok(None);
        };
        self.order.remove(alloc, due, id, task)?;
        Ok(Some(due))
    }

    /// Takes out the timers of this instance.
    pub fn drop_of(&mut self, alloc: Global, id: &Id) -> Result<(), AllocError>
        requires { InOrder self.old }
        ensures dropped { OnOk result (timers_in self.new
            ≡ cleared (timers_in self.old) (id_of id.now)) }
        ensures order { OnOk result (InOrder self.new) }
    {
        let mut from: u64 = 0;
        while let Some(task) = self.stamps.next_of(id, from) {
            self.take(alloc, id, task)?;
            from = task as u64 + 1;
        }
        Ok(())
    }

    /// The first timer that is due by now.
    pub fn due(&self, now: u64) -> Option<&Timer>
        requires { InOrder self.now }
        ensures first { IfSome result (λ timer.
            IsFirstDue (timers_in self.now) now timer.now.due (id_of timer.now.id) timer.now.task) }
        ensures none { IfNone result (NoneDue (timers_in self.now) now) }
    {
        match self.order.first() {
            Some(first) => { if first.due <= now { Some(first) } else { None } }
            None => None,
        }
    }

    /// How many timers are due by now, counted up to the greatest number that there is. It takes no memory, and a step of the order
    /// for each that is due.
    pub fn due_count(&self, now: u64) -> usize
        requires { InOrder self.now }
        ensures { (due : List (PlainId × ℕ)) × AreDue (timers_in self.now) now due
            × (result ≡ min (length due) (2 ^ 64 - 1)) }
    {
        let mut count: usize = 0;
        let mut last = None;
        while let Some((due, id, task)) = self.order.next(last) {
            if due > now {
                return count;
            }
            count = count.saturating_add(1);
            last = Some((due, id, task));
        }
        count
    }

    /// The stamp at which the first timer is due.
    pub fn next(&self) -> Option<u64>
        requires { InOrder self.now }
        ensures next { IfSome result (λ due. IsNext (timers_in self.now) due) }
        ensures none { IfNone result (NoTimer (timers_in self.now)) }
    {
        match self.order.first() {
            Some(first) => Some(first.due),
            None => None,
        }
    }

    /// The same timers, shared.
    pub fn copy(&self) -> Result<TimerRow, AllocError>
        requires { InOrder self.now }
        ensures same { IfOk result (λ copy. timers_in copy ≡ timers_in self.now) }
        ensures order { IfOk result InOrder }
    {
        let stamps = self.stamps.copy()?;
        let order = self.order.copy()?;
        Ok(TimerRow { stamps, order })
    }
}
