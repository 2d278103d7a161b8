//! What instances wait for, and what is given up.

ghost use Rattle.std.specs.Prelude.{◌≡◌, ◌∷◌, [], map, option_map, true, Some, None, IfOk, OnOk};
ghost use Rattle.dura_value.specs.Views.{id_of};
ghost use Rattle.flow_messages.specs.Views.{asked_of};
ghost use Rattle.part_rows.specs.Timers.{InOrder};
ghost use Rattle.dura_model.specs.Partition.{asked_in, given_up_in, raised_to};
ghost use Rattle.dura_value.specs.ById.{at_number, cleared};
ghost use Rattle.part_rows.specs.Views.{activity_of};
ghost use Rattle.part_rows.specs.Parts.{part_of};

use crate::parts::PartRows;
use crate::rows::Activity;
use dura_value::{Id, with};
use flow_messages::{Asked, copy_id};
use std::alloc::{AllocError, Global};

impl PartRows {
    /// An activity of an instance's task is pending.
    fn put_activity(
        &mut self,
        alloc: Global,
        id: &Id,
        task: u32,
        activity: Activity,
    ) -> Result<(), AllocError>
        ensures put { OnOk result (part_of self.new
            ≡ record (part_of self.old) {
              activities = at_number (part_of self.old).activities (id_of id.now) task
                  (Some (activity_of activity));
            }) }
        ensures timers { self.new.timers ≡ self.old.timers }
        ensures partitions { self.new.partitions ≡ self.old.partitions }
    {
        let (id, activity) = with(copy_id(id), activity)?;
        self.activities.put(alloc, id, task, activity)?;
        Ok(())
    }

    /// A pending activity of an instance's task is taken out.
    pub fn take_activity(
        &mut self,
        alloc: Global,
        id: &Id,
        task: u32,
    ) -> Result<Option<Activity>, AllocError>
        ensures activity { IfOk result (λ activity. option_map activity_of activity
            ≡ (part_of self.old).activities (id_of id.now) task) }
        ensures taken { OnOk result (part_of self.new ≡ record (part_of self.old)
            { activities = at_number (part_of self.old).activities (id_of id.now) task None }) }
        ensures timers { self.new.timers ≡ self.old.timers }
        ensures partitions { self.new.partitions ≡ self.old.partitions }
    {
        let activity = self.activities.take(alloc, id, task)?;
        Ok(activity)
    }

    /// A pending timer of an instance's task is taken out.
    pub fn take_timer(&mut self, alloc: Global, id: &Id, task: u32) -> Result<(), AllocError>
        requires { InOrder self.old.timers }
        ensures taken { OnOk result (part_of self.new
            ≡ record (part_of self.old)
            { timers = at_number (part_of self.old).timers (id_of id.now) task None }) }
        ensures order { OnOk result (InOrder self.new.timers) }
        ensures partitions { self.new.partitions ≡ self.old.partitions }
    {
        self.timers.take(alloc, id, task)?;
        Ok(())
    }

    /// No activity of an instance is pending.
    fn clear_activities(&mut self, alloc: Global, id: &Id) -> Result<(), AllocError>
        ensures cleared { OnOk result (part_of self.new ≡ record (part_of self.old)
            { activities = cleared (part_of self.old).activities (id_of id.now) }) }
        ensures timers { self.new.timers ≡ self.old.timers }
        ensures partitions { self.new.partitions ≡ self.old.partitions }
    {
        self.activities.clear(alloc, id)?;
        Ok(())
    }

    /// An activity or a timer of an instance is pending.
    fn ask(&mut self, alloc: Global, id: &Id, asked: Asked) -> Result<(), AllocError>
        requires { InOrder self.old.timers }
        ensures asked { OnOk result (part_of self.new
            ≡ asked_in (part_of self.old) (id_of id.now) (asked_of asked ∷ [])) }
        ensures order { OnOk result (InOrder self.new.timers) }
        ensures partitions { self.new.partitions ≡ self.old.partitions }
    {
        match asked {
            Asked::Activity(task, name, argument) => {
                self.put_activity(alloc, id, task, Activity { name, argument })?
            }
            Asked::Timer(task, due) => self.timers.put(alloc, copy_id(id)?, task, due)?,
        }
        Ok(())
    }

    /// What an instance asks for is pending.
    pub fn ask_all(&mut self, alloc: Global, id: &Id, asked: Vec<Asked>) -> Result<(), AllocError>
        requires { InOrder self.old.timers }
        ensures asked { OnOk result (part_of self.new
            ≡ asked_in (part_of self.old) (id_of id.now) (map asked_of asked.items)) }
        ensures order { OnOk result (InOrder self.new.timers) }
        ensures partitions { self.new.partitions ≡ self.old.partitions }
    {
        for one in asked {
            self.ask(alloc, id, one)?;
        }
        Ok(())
    }

    /// What is pending of an instance is given up.
    pub fn give_up(&mut self, alloc: Global, id: &Id) -> Result<(), AllocError>
        requires { InOrder self.old.timers }
        ensures given_up { OnOk result (part_of self.new
            ≡ given_up_in (part_of self.old) (id_of id.now) true) }
        ensures order { OnOk result (InOrder self.new.timers) }
        ensures partitions { self.new.partitions ≡ self.old.partitions }
    {
        self.clear_activities(alloc, id)?;
        self.timers.drop_of(alloc, id)?;
        Ok(())
    }

    /// Its greatest stamp is no less than this.
    pub fn raise_to(&mut self, stamp: u64)
        ensures raised { part_of self.new ≡ raised_to stamp (part_of self.old) }
        ensures timers { self.new.timers ≡ self.old.timers }
        ensures partitions { self.new.partitions ≡ self.old.partitions }
    {
        if self.stamp <= stamp {
            self.stamp = stamp;
        }
    }
}
