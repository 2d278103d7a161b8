//! How a machine faults.

ghost use Rattle.std.specs.Prelude.{◌≡◌, ◌≤◌, length, OnOk};
ghost use Rattle.flow_syntax.specs.Machine.{throws};
ghost use Rattle.flow_syntax.specs.Views.{block_of};
ghost use Rattle.flow_machine.specs.Views.{machine_of};
ghost use Rattle.flow_machine.specs.Steps.{Makes, Throws, caught};

use crate::machine::{Machine, Progress, Todo};
use dura_value::{Name, Text, Value};
use flow_eval::EvalError;
use flow_messages::{Made, copy_text};
use flow_syntax::Stmt;
use std::alloc::{AllocError, Global};

impl<'f> Machine<'f> {
    /// The end of a try goes on with its handler, and the variable has the fault's text.
    fn catch(
        &mut self,
        variable: &Name,
        handler: &'f [Stmt],
        fault: &Text,
    ) -> Result<(), AllocError>
        ensures { OnOk result (machine_of self.new
            ≡ caught (machine_of self.old) variable.now (block_of handler.now) fault.now) }
    {
        self.set(variable, Value::Text(copy_text(fault)?))?;
        self.plan(Todo::Body(handler))
    }

    /// A fault drops what is still to run up to and with the end of the nearest try, whose handler goes on; an end of a section
    /// that it passes is kept to. With no try the instance fails.
    pub(crate) fn throw(&mut self, made: &mut Made, fault: &Text) -> Result<(), AllocError>
        ensures { OnOk result (Makes made.old made.new self.new
            (throws (machine_of self.old) fault.now)) }
    {
        while let Some(todo) = self.rest.pop() {
            match todo {
                Todo::EndTry(variable, handler) => return self.catch(variable, handler, fault),
                Todo::Unlock => self.leave(made)?,
                _ => {}
            }
        }
        self.end(made, Progress::Failed(copy_text(fault)?))
    }

    /// Throws a fault by its text.
    pub(crate) fn throw_word(
        &mut self,
        alloc: Global,
        made: &mut Made,
        word: &str,
    ) -> Result<(), AllocError>
        requires { length word.now ≤ 4096 }
        ensures { OnOk result (Makes made.old made.new self.new
            (throws (machine_of self.old) word.now)) }
    {
        match Text::read(alloc, word.as_bytes()) {
            Ok(text) => self.throw(made, &text),
            // a short word is a text
            Err(_) => Err(AllocError),
        }
    }

    /// Throws the fault of an expression.
    pub(crate) fn throw_error(
        &mut self,
        alloc: Global,
        made: &mut Made,
        error: EvalError,
    ) -> Result<(), AllocError>
        ensures { OnOk result (Throws made.old made.new self.new (machine_of self.old) error) }
    {
        match error {
            EvalError::Thrown(fault) => self.throw_word(alloc, made, fault.as_str()),
            EvalError::Memory => Err(AllocError),
        }
    }
}
