//! The step of what is to run, by what it is.

ghost use Rattle.std.specs.Prelude.{◌≡◌, ◌∷◌, [], pos, length, OnOk, IfOk};
ghost use Rattle.dura_value.specs.declared.data.Scalar.TheVariants.{Int};
ghost use Rattle.flow_syntax.specs.Syntax.{await, scalar};
ghost use Rattle.flow_syntax.specs.Views.{statement_of};
ghost use Rattle.flow_syntax.specs.Machine as plain;
ghost use Rattle.flow_syntax.specs.Machine.{statement_step};
ghost use Rattle.flow_machine.specs.Views.{machine_of, todos_of};
ghost use Rattle.flow_machine.specs.Steps.{Goes, NeverWaits, Waits, todo_step};

use crate::machine::{Machine, Todo};
use dura_value::Name;
use flow_messages::Made;
use flow_syntax::Stmt;
use flow_tasks::Section;
use std::alloc::{AllocError, Global};

impl<'f> Machine<'f> {
    /// The step of a statement that never waits. `one` is the statement by itself.
    fn step_on(
        &mut self,
        alloc: Global,
        made: &mut Made,
        statement: &'f Stmt,
        one: &'f [Stmt],
    ) -> Result<(), AllocError>
        requires one { one.now ≡ statement.now ∷ [] }
        requires goes_on { NeverWaits (statement_of statement.now) }
        ensures { OnOk result ((was : plain.Machine)
            → Goes made.old made.new self.new
            (statement_step was (machine_of self.old) (statement_of statement.now))) }
    {
        match statement {
            Stmt::Let(x, value) => self.step_let(alloc, made, x, value),
            Stmt::Spawn(x, name, value) => self.step_spawn(alloc, made, x, name, value),
            Stmt::Call(x, name, value) => self.step_call(alloc, made, x, name, value),
            Stmt::Sub(x, name, key, value) => self.step_sub(alloc, made, x, name, key, value),
            Stmt::Ask(x, class, key, name, value) => {
                self.step_ask(alloc, made, x, class, key, name, value)
            }
            Stmt::Timer(x, delay) => self.step_timer(alloc, made, x, delay),
            Stmt::Event(x, name) => self.step_event(x, name),
            Stmt::Signal(class, key, name, value) => {
                self.step_signal(alloc, made, class, key, name, value)
            }
            Stmt::Lock(spots, body) => self.step_lock(alloc, made, spots, body),
            Stmt::If(test, yes, no) => self.step_if(alloc, made, test, yes, no),
            Stmt::While(test, body) => self.step_while(alloc, made, test, body, one),
            Stmt::Try(body, x, handler) => self.step_try(body, x, handler),
            Stmt::Return(value) => self.step_return(alloc, made, value),
            Stmt::Fail(text) => self.step_fail(alloc, made, text),
            Stmt::Await(_, _) => Ok(()),
            Stmt::All(_, _) => Ok(()),
            Stmt::Any(_, _) => Ok(()),
        }
    }

    /// The step of a statement, and whether it went on. `one` is the statement by itself.
    fn step_statement(
        &mut self,
        alloc: Global,
        made: &mut Made,
        statement: &'f Stmt,
        one: &'f [Stmt],
    ) -> Result<bool, AllocError>
        requires { one.now ≡ statement.now ∷ [] }
        ensures { IfOk result (λ went. Waits went made.old made.new self.new (machine_of self.old)
            (λ was. statement_step was (machine_of self.old) (statement_of statement.now))) }
    {
        match statement {
            Stmt::Await(x, handle) => self.step_await(alloc, made, x, handle),
            Stmt::All(x, handles) => self.step_all(alloc, made, x, handles),
            Stmt::Any(x, handles) => self.step_any(alloc, made, x, handles),
            _ => {
                self.step_on(alloc, made, statement, one)?;
                Ok(true)
            }
        }
    }

    /// Waits for the task of a call.
    #[tactic(auto, using(crate::proofs::Counts::tasks_counted))]
    fn step_wait(
        &mut self,
        alloc: Global,
        made: &mut Made,
        variable: &Name,
        number: u32,
    ) -> Result<bool, AllocError>
        ensures { IfOk result (λ went. Waits went made.old made.new self.new (machine_of self.old)
            (λ was. statement_step was (machine_of self.old)
            (await variable.now (scalar (Int (pos number)))))) }
    {
        let number = number as usize;
        if number < self.tasks.len() {
            return self.await_task(made, variable, number);
        }
        self.throw_word(alloc, made, "handle")?;
        Ok(true)
    }

    /// The step of what was to run before all else, and whether it went on. A body is of one statement. It was taken out before; where
    /// it waits, it is for the caller to plan it again.
    pub fn step_todo(
        &mut self,
        alloc: Global,
        made: &mut Made,
        todo: &Todo<'f>,
    ) -> Result<bool, AllocError>
        requires { length (todos_of todo.now) ≡ 1 }
        ensures { IfOk result (λ went. Waits went made.old made.new self.new (machine_of self.old)
            (λ was. todo_step was (machine_of self.old) (todos_of todo.now))) }
    {
        match todo {
            Todo::Body(body) => match body.first() {
                Some(statement) => self.step_statement(alloc, made, statement, body),
                None => Ok(false),
            },
            Todo::Await(variable, number) => self.step_wait(alloc, made, variable, *number),
            Todo::WaitLock => Ok(!matches!(self.section, Section::Acquiring(_, _))),
            Todo::Unlock => {
                self.leave(made)?;
                Ok(true)
            }
            Todo::EndTry(_, _) => Ok(true),
        }
    }
}
