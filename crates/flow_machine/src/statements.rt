//! The steps of statements that compute and branch.

ghost use Rattle.std.specs.Prelude.{◌≡◌, ◌++◌, ◌∷◌, OnOk};
ghost use Rattle.flow_syntax.specs.Eval.{eval};
ghost use Rattle.flow_machine.specs.Values.{truth_in, text_in};
ghost use Rattle.flow_syntax.specs.Views.{expression_of, block_of};
ghost use Rattle.flow_syntax.specs.Syntax.{while, first_then, nothing};
ghost use Rattle.flow_syntax.specs.Machine.{having, sets, branches, loops, ended, done, throws, todo, end_try};
ghost use Rattle.flow_eval.specs.Gives.{EvalGives};
ghost use Rattle.flow_machine.specs.Views.{machine_of};
ghost use Rattle.flow_machine.specs.Steps.{Goes, with_rest};

use crate::machine::{Machine, Progress, Todo};
use dura_value::{Name, Text, Value, with};
use flow_eval::{EvalError, eval, to_text, to_truth};
use flow_messages::{Made, copy_name, copy_text};
use flow_syntax::{Expr, Stmt};
use std::alloc::{AllocError, Global};

impl<'f> Machine<'f> {
    /// What an expression gives with the machine's variables.
    pub(crate) fn value(&self, alloc: Global, expression: &Expr) -> Result<Value, EvalError>
        ensures { EvalGives (λ value. value) result
            (eval (machine_of self.now).variables (expression_of expression.now)) }
    {
        eval(alloc, expression, &self.variables)
    }

    /// Sets a variable to a value.
    pub(crate) fn set(&mut self, variable: &Name, value: Value) -> Result<(), AllocError>
        ensures { OnOk result (machine_of self.new
            ≡ (sets (machine_of self.old) variable.now value).machine) }
    {
        let (name, value) = with(copy_name(variable), value)?;
        self.variables.set(name, value)
    }

    pub(crate) fn step_let(
        &mut self,
        alloc: Global,
        made: &mut Made,
        variable: &Name,
        value: &Expr,
    ) -> Result<(), AllocError>
        ensures { OnOk result (Goes made.old made.new self.new
            (having (machine_of self.old)
            (eval (machine_of self.old).variables (expression_of value.now))
            (sets (machine_of self.old) variable.now))) }
    {
        match self.value(alloc, value) {
            Ok(value) => self.set(variable, value),
            Err(error) => self.throw_error(alloc, made, error),
        }
    }

    /// Whether a test is true.
    fn test(&self, alloc: Global, test: &Expr) -> Result<bool, EvalError>
        ensures { EvalGives (λ b. b) result
            (truth_in (machine_of self.now).variables (expression_of test.now)) }
    {
        let value = self.value(alloc, test)?;
        let truth = to_truth(&value);
        drop(value);
        truth
    }

    pub(crate) fn step_if(
        &mut self,
        alloc: Global,
        made: &mut Made,
        test: &Expr,
        yes: &'f [Stmt],
        no: &'f [Stmt],
    ) -> Result<(), AllocError>
        ensures { OnOk result (Goes made.old made.new self.new
            (having (machine_of self.old)
            (truth_in (machine_of self.old).variables (expression_of test.now))
            (λ b. branches (machine_of self.old) b (block_of yes.now) (block_of no.now)))) }
    {
        match self.test(alloc, test) {
            Ok(true) => self.plan(Todo::Body(yes)),
            Ok(false) => self.plan(Todo::Body(no)),
            Err(error) => self.throw_error(alloc, made, error),
        }
    }

    /// `one` is the statement by itself.
    pub(crate) fn step_while(
        &mut self,
        alloc: Global,
        made: &mut Made,
        test: &Expr,
        body: &'f [Stmt],
        one: &'f [Stmt],
    ) -> Result<(), AllocError>
        requires { block_of one.now ≡ first_then
            (while (expression_of test.now) (block_of body.now)) nothing }
        ensures { OnOk result (Goes made.old made.new self.new
            (having (machine_of self.old)
            (truth_in (machine_of self.old).variables (expression_of test.now))
            (λ b. loops (machine_of self.old) b (expression_of test.now) (block_of body.now)))) }
    {
        match self.test(alloc, test) {
            Ok(true) => {
                self.plan(Todo::Body(one))?;
                self.plan(Todo::Body(body))
            }
            Ok(false) => Ok(()),
            Err(error) => self.throw_error(alloc, made, error),
        }
    }

    pub(crate) fn step_try(
        &mut self,
        body: &'f [Stmt],
        variable: &'f Name,
        handler: &'f [Stmt],
    ) -> Result<(), AllocError>
        ensures { OnOk result (machine_of self.new
            ≡ with_rest (machine_of self.old)
            (todo (block_of body.now) ++ end_try variable.now (block_of handler.now)
            ∷ (machine_of self.old).rest)) }
    {
        self.plan(Todo::EndTry(variable, handler))?;
        self.plan(Todo::Body(body))
    }

    pub(crate) fn step_return(
        &mut self,
        alloc: Global,
        made: &mut Made,
        value: &Expr,
    ) -> Result<(), AllocError>
        ensures { OnOk result (Goes made.old made.new self.new
            (having (machine_of self.old)
            (eval (machine_of self.old).variables (expression_of value.now))
            (λ v. ended (machine_of self.old) (done v)))) }
    {
        match self.value(alloc, value) {
            Ok(value) => self.end(made, Progress::Done(value)),
            Err(error) => self.throw_error(alloc, made, error),
        }
    }

    /// A text that an expression gives.
    fn text(&self, alloc: Global, text: &Expr) -> Result<Text, EvalError>
        ensures { EvalGives (λ t. t) result
            (text_in (machine_of self.now).variables (expression_of text.now)) }
    {
        let value = self.value(alloc, text)?;
        let copy = match to_text(&value) {
            Ok(text) => copy_text(text),
            Err(fault) => {
                drop(value);
                return Err(fault);
            }
        };
        drop(value);
        Ok(copy?)
    }

    pub(crate) fn step_fail(
        &mut self,
        alloc: Global,
        made: &mut Made,
        text: &Expr,
    ) -> Result<(), AllocError>
        ensures { OnOk result (Goes made.old made.new self.new
            (having (machine_of self.old)
            (text_in (machine_of self.old).variables (expression_of text.now))
            (throws (machine_of self.old)))) }
    {
        match self.text(alloc, text) {
            Ok(text) => self.throw(made, &text),
            Err(error) => self.throw_error(alloc, made, error),
        }
    }
}
