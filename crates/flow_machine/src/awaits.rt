//! The steps of statements that wait.

ghost use Rattle.std.specs.Prelude.{◌≡◌, OnOk, IfSome, IfNone, IfOk};
ghost use Rattle.flow_syntax.specs.Syntax.{await};
ghost use Rattle.flow_syntax.specs.Views.{expression_of};
ghost use Rattle.flow_syntax.specs.Machine.{listens, awaited, arrival_of as arrival_at, task_at, statement_step, gets, arrived, kept_value, without_kept};
ghost use Rattle.flow_machine.specs.Views.{machine_of};
ghost use Rattle.flow_machine.specs.Steps.{Makes, Waits, ThrowsHandle, with_events};

use crate::machine::Machine;
use dura_value::{Name, Outcome, Value};
use flow_messages::{Made, copy_name, copy_outcome, copy_value};
use flow_syntax::Expr;
use flow_tasks::{HandleFault, Kind};
use std::alloc::{AllocError, Global};

impl<'f> Machine<'f> {
    /// The result of a task arrives. One that isn't there, or has a result, stays as it is. Results past the number that 64 bits can
    /// count are told as want of memory.
    pub fn arrive(&mut self, number: usize, outcome: Outcome) -> Result<(), AllocError>
        ensures { OnOk result (machine_of self.new ≡ arrived (machine_of self.old) number outcome) }
    {
        let Some(later) = self.arrivals.checked_add(1) else {
            drop(outcome);
            return Err(AllocError);
        };
        if self.tasks.arrive(number, outcome, self.arrivals) {
            self.arrivals = later;
        }
        Ok(())
    }

    /// Takes out the oldest event of a name that is kept.
    #[tactic(auto, using(crate::proofs::NoneKept::none_kept))]
    fn take_kept(&mut self, name: &Name) -> Option<Value>
        ensures value { result ≡ kept_value name.now (machine_of self.old).kept }
        ensures some { IfSome result (λ _. machine_of self.new
            ≡ with_events (machine_of self.old)
            (without_kept name.now (machine_of self.old).kept)) }
        ensures none { IfNone result (machine_of self.new ≡ machine_of self.old) }
    {
        self.kept.take(name)
    }

    pub(crate) fn step_event(&mut self, variable: &Name, name: &Name) -> Result<(), AllocError>
        ensures { OnOk result (machine_of self.new
            ≡ (listens (machine_of self.old) variable.now name.now).machine) }
    {
        let number = self.handle(variable)?;
        self.add_task(Kind::Event(copy_name(name)?))?;
        match self.take_kept(name) {
            Some(value) => self.arrive(number as usize, Outcome::Done(value)),
            None => Ok(()),
        }
    }

    /// Throws why a value names no task.
    pub(crate) fn throw_handle(
        &mut self,
        alloc: Global,
        made: &mut Made,
        fault: HandleFault,
    ) -> Result<(), AllocError>
        ensures { OnOk result (ThrowsHandle made.old made.new self.new (machine_of self.old)
            fault) }
    {
        match fault {
            HandleFault::Handle => self.throw_word(alloc, made, "handle"),
            HandleFault::Type => self.throw_word(alloc, made, "type"),
            HandleFault::Memory => Err(AllocError),
        }
    }

    /// A variable gets a result, or its failure is thrown.
    pub(crate) fn get(
        &mut self,
        made: &mut Made,
        variable: &Name,
        outcome: &Outcome,
    ) -> Result<(), AllocError>
        ensures { OnOk result (Makes made.old made.new self.new
            (gets (machine_of self.old) variable.now outcome.now)) }
    {
        match outcome {
            Outcome::Done(value) => self.set(variable, copy_value(value)?),
            Outcome::Failed(text) => self.throw(made, text),
        }
    }

    /// Waits for this task's result, and says whether it was there.
    pub(crate) fn await_task(
        &mut self,
        made: &mut Made,
        variable: &Name,
        number: usize,
    ) -> Result<bool, AllocError>
        ensures { IfOk result (λ went. Waits went made.old made.new self.new (machine_of self.old)
            (λ was. awaited was (machine_of self.old) variable.now
            (arrival_at (task_at (machine_of self.old).tasks number)))) }
    {
        let outcome = match self.tasks.arrival(number) {
            Some(arrival) => copy_outcome(&arrival.outcome)?,
            None => return Ok(false),
        };
        let got = self.get(made, variable, &outcome);
        drop(outcome);
        got?;
        Ok(true)
    }

    pub(crate) fn step_await(
        &mut self,
        alloc: Global,
        made: &mut Made,
        variable: &Name,
        handle: &Expr,
    ) -> Result<bool, AllocError>
        ensures { IfOk result (λ went. Waits went made.old made.new self.new (machine_of self.old)
            (λ was. statement_step was (machine_of self.old)
            (await variable.now (expression_of handle.now)))) }
    {
        match self.handle_in(alloc, handle) {
            Ok(number) => self.await_task(made, variable, number),
            Err(fault) => {
                self.throw_await(alloc, made, fault)?;
                Ok(true)
            }
        }
    }
}
