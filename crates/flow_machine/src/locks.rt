//! The step of a lock.

ghost use Rattle.std.specs.Prelude.{[], OnOk, map};
ghost use Rattle.dura_value.specs.Messages.{entity_at, set_of};
ghost use Rattle.dura_value.specs.Views.{spot_of, spots_of};
ghost use Rattle.flow_machine.specs.Values.{spot_in};
ghost use Rattle.flow_syntax.specs.Views.{locked_of, block_of};
ghost use Rattle.flow_syntax.specs.Machine.{having, by_rule, eval_spots, locks, may_lock, locking};
ghost use Rattle.flow_eval.specs.Gives.{EvalGives};
ghost use Rattle.flow_machine.specs.Views.{machine_of};
ghost use Rattle.flow_machine.specs.Steps.{Makes, Goes};

use crate::machine::{Machine, Todo};
use dura_value::{Spot, Spots, with};
use flow_eval::{EvalError, to_key};
use flow_messages::{Made, copy_name, copy_spots, pass_on};
use flow_syntax::{Locked, Stmt};
use flow_tasks::{Kind, Section, set_of};
use std::alloc::{AllocError, Global};

impl<'f> Machine<'f> {
    /// An entity that is to be locked.
    fn spot(&self, alloc: Global, one: &Locked) -> Result<Spot, EvalError>
        ensures { EvalGives spot_of result
            (spot_in (machine_of self.now).variables (locked_of one.now)) }
    {
        let value = self.value(alloc, &one.key)?;
        let key = to_key(alloc, &value);
        drop(value);
        let (class, key) = with(copy_name(&one.class), key?)?;
        Ok(Spot { class, key })
    }

    /// The entities that are to be locked, in the order in which they are written.
    fn spots(&self, alloc: Global, entities: &[Locked]) -> Result<Vec<Spot>, EvalError>
        ensures { EvalGives (λ v. spots_of v.items) result
            (eval_spots (machine_of self.now).variables (map locked_of entities.now)) }
    {
        let mut spots = Vec::with_capacity(alloc, entities.len())?;
        for one in entities {
            match self.spot(alloc, one) {
                Ok(spot) => spots.push(spot)?,
                Err(error) => return Err(error),
            }
        }
        Ok(spots)
    }

    /// Waits for a set of entities, and then runs the body inside of the section.
    fn lock(&mut self, made: &mut Made, set: Spots, body: &'f [Stmt]) -> Result<(), AllocError>
        ensures { OnOk result (Makes made.old made.new self.new
            (locks (machine_of self.old) (spots_of set) (block_of body.now))) }
    {
        let number = self.next_task()?;
        self.ask_for(made, number, &set)?;
        self.add_task(Kind::Grant(copy_spots(&set)?))?;
        self.section = Section::Acquiring(number, set);
        self.plan(Todo::Unlock)?;
        self.plan(Todo::Body(body))?;
        self.plan(Todo::WaitLock)
    }

    /// Sends the lock to the first entity of its set.
    fn ask_for(&self, made: &mut Made, number: u32, set: &Spots) -> Result<(), AllocError>
        ensures { OnOk result (Makes made.old made.new self.now
            (record {
              machine = machine_of self.now;
              sent = locking (machine_of self.now) number
                  (spots_of set.now) (entity_at (spots_of set.now) 0);
              asked = [];
            })) }
    {
        if set.as_slice().is_empty() {
            return Ok(());
        }
        let lock = pass_on(&self.id, &self.id, number, set, 0)?;
        made.messages.push(lock)?;
        Ok(())
    }

    pub(crate) fn step_lock(
        &mut self,
        alloc: Global,
        made: &mut Made,
        entities: &[Locked],
        body: &'f [Stmt],
    ) -> Result<(), AllocError>
        ensures { OnOk result (Goes made.old made.new self.new
            (having (machine_of self.old)
            (eval_spots (machine_of self.old).variables (map locked_of entities.now))
            (λ spots. by_rule (machine_of self.old)
            (may_lock (machine_of self.old).section (machine_of self.old).tasks)
            (locks (machine_of self.old) (set_of spots) (block_of body.now))))) }
    {
        match self.spots(alloc, entities) {
            Ok(spots) => {
                if self.section.may_lock(&self.tasks) {
                    self.lock(made, set_of(alloc, spots)?, body)
                } else {
                    self.throw_word(alloc, made, "lockrule")
                }
            }
            Err(error) => self.throw_error(alloc, made, error),
        }
    }
}
