//! The steps of statements that wait for several tasks.

ghost use Rattle.std.specs.Prelude.{IfOk, OnOk, Some};
ghost use Rattle.flow_syntax.specs.Views.{expression_of};
ghost use Rattle.flow_syntax.specs.Syntax.{await_all, await_any};
ghost use Rattle.flow_syntax.specs.Machine.{statement_step, awaited_all, awaited_any, all_arrived, first_arrived};
ghost use Rattle.flow_eval.specs.Gives.{EvalGives};
ghost use Rattle.flow_machine.specs.Values.{list_given, handle_in, handles_in};
ghost use Rattle.flow_machine.specs.Awaits.{NamesTasks, ThrowsAwait};
ghost use Rattle.flow_machine.specs.Views.{machine_of};
ghost use Rattle.flow_machine.specs.Steps.{Goes, Waits};

use crate::machine::Machine;
use dura_value::{Name, Outcome, Value};
use flow_eval::{EvalError, list_of, to_scalars};
use flow_messages::{Made, all_values};
use flow_syntax::Expr;
use flow_tasks::HandleFault;
use std::alloc::{AllocError, Global};

/// The list of values.
fn list_given(alloc: Global, values: Vec<Value>) -> Result<Value, EvalError>
    ensures { EvalGives (λ value. value) result (list_given values.items) }
{
    let scalars = to_scalars(alloc, values)?;
    list_of(scalars)
}

impl<'f> Machine<'f> {
    /// A variable gets the list of the values of results, or the first failure among them is thrown.
    fn get_all(
        &mut self,
        alloc: Global,
        made: &mut Made,
        variable: &Name,
        outcomes: &[Outcome],
    ) -> Result<(), AllocError>
        ensures { OnOk result (Goes made.old made.new self.new
            (awaited_all (machine_of self.old) (machine_of self.old) variable.now
            (Some outcomes.now))) }
    {
        match all_values(alloc, outcomes)? {
            Ok(values) => match list_given(alloc, values) {
                Ok(list) => self.set(variable, list),
                Err(error) => self.throw_error(alloc, made, error),
            },
            Err(text) => self.throw(made, &text),
        }
    }

    /// Waits for the results of these tasks, and says whether they were there.
    fn await_tasks(
        &mut self,
        alloc: Global,
        made: &mut Made,
        variable: &Name,
        handles: &[usize],
    ) -> Result<bool, AllocError>
        ensures { IfOk result (λ went. Waits went made.old made.new self.new (machine_of self.old)
            (λ was. awaited_all was (machine_of self.old) variable.now
            (all_arrived (machine_of self.old).tasks handles.now))) }
    {
        match self.tasks.all_arrived(alloc, handles)? {
            Some(outcomes) => {
                self.get_all(alloc, made, variable, &outcomes)?;
                Ok(true)
            }
            None => Ok(false),
        }
    }

    /// Waits for the first result of these tasks, and says whether one was there.
    fn await_first(
        &mut self,
        alloc: Global,
        made: &mut Made,
        variable: &Name,
        handles: &[usize],
    ) -> Result<bool, AllocError>
        ensures { IfOk result (λ went. Waits went made.old made.new self.new (machine_of self.old)
            (λ was. awaited_any was (machine_of self.old) variable.now handles.now
            (first_arrived (machine_of self.old).tasks 0 handles.now))) }
    {
        if handles.is_empty() {
            self.throw_word(alloc, made, "empty")?;
            return Ok(true);
        }
        let Some(place) = self.tasks.first_arrived(handles) else {
            return Ok(false);
        };
        match i64::try_from(place) {
            Ok(place) => {
                self.set(variable, Value::Int(place))?;
                Ok(true)
            }
            Err(_) => Err(AllocError),
        }
    }

    pub(crate) fn step_all(
        &mut self,
        alloc: Global,
        made: &mut Made,
        variable: &Name,
        handles: &Expr,
    ) -> Result<bool, AllocError>
        ensures { IfOk result (λ went. Waits went made.old made.new self.new (machine_of self.old)
            (λ was. statement_step was (machine_of self.old)
            (await_all variable.now (expression_of handles.now)))) }
    {
        match self.handles_in(alloc, handles) {
            Ok(handles) => self.await_tasks(alloc, made, variable, &handles),
            Err(fault) => {
                self.throw_await(alloc, made, fault)?;
                Ok(true)
            }
        }
    }

    pub(crate) fn step_any(
        &mut self,
        alloc: Global,
        made: &mut Made,
        variable: &Name,
        handles: &Expr,
    ) -> Result<bool, AllocError>
        ensures { IfOk result (λ went. Waits went made.old made.new self.new (machine_of self.old)
            (λ was. statement_step was (machine_of self.old)
            (await_any variable.now (expression_of handles.now)))) }
    {
        match self.handles_in(alloc, handles) {
            Ok(handles) => self.await_first(alloc, made, variable, &handles),
            Err(fault) => {
                self.throw_await(alloc, made, fault)?;
                Ok(true)
            }
        }
    }

    /// The task that an expression names. Each call computes the expression anew; whether the task has a result is not looked at.
    pub fn handle_in(&self, alloc: Global, handle: &Expr) -> Result<usize, AwaitError>
        ensures { NamesTasks (λ n. n) result
            (handle_in (machine_of self.now).variables (machine_of self.now).tasks
            (expression_of handle.now)) }
    {
        let value = match self.value(alloc, handle) {
            Ok(value) => value,
            Err(error) => return Err(AwaitError::Eval(error)),
        };
        let named = self.tasks.handle(&value);
        drop(value);
        match named {
            Ok(number) => Ok(number),
            Err(fault) => Err(AwaitError::Handle(fault)),
        }
    }

    /// The tasks that an expression names. Each call computes the expression anew; whether they have results is not looked at.
    pub fn handles_in(&self, alloc: Global, handles: &Expr) -> Result<Vec<usize>, AwaitError>
        ensures { NamesTasks (λ ns. ns.items) result
            (handles_in (machine_of self.now).variables (machine_of self.now).tasks
            (expression_of handles.now)) }
    {
        let value = match self.value(alloc, handles) {
            Ok(value) => value,
            Err(error) => return Err(AwaitError::Eval(error)),
        };
        let named = self.tasks.handles(alloc, &value);
        drop(value);
        match named {
            Ok(handles) => Ok(handles),
            Err(fault) => Err(AwaitError::Handle(fault)),
        }
    }

    /// Throws why an expression names no tasks.
    pub(crate) fn throw_await(
        &mut self,
        alloc: Global,
        made: &mut Made,
        error: AwaitError,
    ) -> Result<(), AllocError>
        ensures { OnOk result (ThrowsAwait made.old made.new self.new (machine_of self.old) error) }
    {
        match error {
            AwaitError::Eval(error) => self.throw_error(alloc, made, error),
            AwaitError::Handle(fault) => self.throw_handle(alloc, made, fault),
        }
    }
}

/// Why an expression names no tasks.
#[derive(Drop)]
pub enum AwaitError {
    /// It gave no value.
    Eval(EvalError),
    /// Its value names none.
    Handle(HandleFault),
}
