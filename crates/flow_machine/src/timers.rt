//! The steps of statements that set timers and listen for events.

ghost use Rattle.std.specs.Prelude.{OnOk, ◌<◌, ◌^◌};
ghost use Rattle.flow_syntax.specs.Views.{expression_of};
ghost use Rattle.flow_syntax.specs.Machine.{having, sets_timer, is_due_in_time};
ghost use Rattle.flow_eval.specs.Gives.{EvalGives};
ghost use Rattle.flow_machine.specs.Values.{integer_in};
ghost use Rattle.flow_machine.specs.Views.{machine_of};
ghost use Rattle.flow_machine.specs.Steps.{Makes, Goes};

use crate::machine::Machine;
use dura_value::{NUMBER_LIMIT, Name};
use flow_eval::{EvalError, to_integer};
use flow_messages::{Asked, Made};
use flow_syntax::Expr;
use flow_tasks::Kind;
use std::alloc::{AllocError, Global};

impl<'f> Machine<'f> {
    fn integer(&self, alloc: Global, expression: &Expr) -> Result<i64, EvalError>
        ensures { EvalGives (λ n. n) result
            (integer_in (machine_of self.now).variables (expression_of expression.now)) }
    {
        let value = self.value(alloc, expression)?;
        let integer = to_integer(&value);
        drop(value);
        integer
    }

    /// A timer that is due at this stamp.
    fn set_due(&mut self, made: &mut Made, variable: &Name, due: u64) -> Result<(), AllocError>
        requires { due < 2 ^ 63 }
        ensures { OnOk result (Makes made.old made.new self.new
            (is_due_in_time (machine_of self.old) variable.now due)) }
    {
        let number = self.handle(variable)?;
        self.add_task(Kind::Timer(due))?;
        made.asked.push(Asked::Timer(number, due))?;
        Ok(())
    }

    /// A timer that is due after so long.
    fn set_timer(
        &mut self,
        alloc: Global,
        made: &mut Made,
        variable: &Name,
        delay: i64,
    ) -> Result<(), AllocError>
        ensures { OnOk result (Makes made.old made.new self.new
            (sets_timer (machine_of self.old) variable.now delay)) }
    {
        if delay < 0 {
            return self.throw_word(alloc, made, "range");
        }
        match self.last.checked_add(delay as u64) {
            Some(due) if due < NUMBER_LIMIT => self.set_due(made, variable, due),
            _ => self.throw_word(alloc, made, "overflow"),
        }
    }

    pub(crate) fn step_timer(
        &mut self,
        alloc: Global,
        made: &mut Made,
        variable: &Name,
        delay: &Expr,
    ) -> Result<(), AllocError>
        ensures { OnOk result (Goes made.old made.new self.new
            (having (machine_of self.old)
            (integer_in (machine_of self.old).variables (expression_of delay.now))
            (sets_timer (machine_of self.old) variable.now))) }
    {
        match self.integer(alloc, delay) {
            Ok(delay) => self.set_timer(alloc, made, variable, delay),
            Err(error) => self.throw_error(alloc, made, error),
        }
    }
}
