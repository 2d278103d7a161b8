//! Whether a machine would take another step.

ghost use Rattle.std.specs.Prelude.{◌≤◌, length, pos, IfOk, OnOk};
ghost use Rattle.flow_syntax.specs.Views.{expression_of, statement_of};
ghost use Rattle.dura_value.specs.declared.data.Scalar.TheVariants.{Int};
ghost use Rattle.flow_syntax.specs.Syntax.{scalar};
ghost use Rattle.flow_syntax.specs.Machine.{statement_step, running_step, next_of, ended, failed};
ghost use Rattle.flow_machine.specs.Views.{machine_of, todos_of};
ghost use Rattle.flow_machine.specs.Steps.{Makes, todo_step};
ghost use Rattle.flow_replay.specs.Moving.{Blocks, AwaitBlocks, AllBlocks, AnyBlocks, stopped};

use crate::going::take_next;
use dura_value::{Text, Value};
use flow_eval::EvalError;
use flow_machine::{AwaitError, Machine, Progress, Todo};
use flow_messages::Made;
use flow_syntax::{Expr, Stmt};
use flow_tasks::{HandleFault, Section};
use std::alloc::{AllocError, Global};

/// Whether the wait for the task that an expression names blocks.
fn await_blocks(machine: &Machine<'_>, alloc: Global, handle: &Expr) -> Result<bool, AllocError>
    ensures { IfOk result (λ blocks.
        AwaitBlocks blocks (machine_of machine.now) (expression_of handle.now)) }
{
    match machine.handle_in(alloc, handle) {
        Ok(number) => Ok(machine.tasks.arrival(number).is_none()),
        Err(AwaitError::Eval(EvalError::Memory)) => Err(AllocError),
        Err(AwaitError::Handle(HandleFault::Memory)) => Err(AllocError),
        Err(_) => Ok(false),
    }
}

/// Whether the wait for all tasks that an expression names blocks.
fn all_blocks(machine: &Machine<'_>, alloc: Global, handles: &Expr) -> Result<bool, AllocError>
    ensures { IfOk result (λ blocks.
        AllBlocks blocks (machine_of machine.now) (expression_of handles.now)) }
{
    match machine.handles_in(alloc, handles) {
        Ok(numbers) => Ok(machine.tasks.all_arrived(alloc, &numbers)?.is_none()),
        Err(AwaitError::Eval(EvalError::Memory)) => Err(AllocError),
        Err(AwaitError::Handle(HandleFault::Memory)) => Err(AllocError),
        Err(_) => Ok(false),
    }
}

/// Whether the wait for one of the tasks that an expression names blocks.
fn any_blocks(machine: &Machine<'_>, alloc: Global, handles: &Expr) -> Result<bool, AllocError>
    ensures { IfOk result (λ blocks.
        AnyBlocks blocks (machine_of machine.now) (expression_of handles.now)) }
{
    match machine.handles_in(alloc, handles) {
        Ok(numbers) => {
            Ok(!numbers.is_empty() && machine.tasks.first_arrived(&numbers).is_none())
        }
        Err(AwaitError::Eval(EvalError::Memory)) => Err(AllocError),
        Err(AwaitError::Handle(HandleFault::Memory)) => Err(AllocError),
        Err(_) => Ok(false),
    }
}

/// Whether a statement blocks.
pub(crate) fn blocks(
    machine: &Machine<'_>,
    alloc: Global,
    statement: &Stmt,
) -> Result<bool, AllocError>
    ensures { IfOk result (λ blocks.
        Blocks blocks (λ was. statement_step was (machine_of machine.now)
        (statement_of statement.now))) }
{
    match statement {
        Stmt::Await(_, handle) => await_blocks(machine, alloc, handle),
        Stmt::All(_, handles) => all_blocks(machine, alloc, handles),
        Stmt::Any(_, handles) => any_blocks(machine, alloc, handles),
        _ => Ok(false),
    }
}

/// Whether what is to run blocks. A body is of one statement.
fn todo_blocks<'f>(
    machine: &Machine<'f>,
    alloc: Global,
    todo: &Todo<'f>,
) -> Result<bool, AllocError>
    ensures { IfOk result (λ blocks.
        Blocks blocks (λ was. todo_step was (machine_of machine.now) (todos_of todo.now))) }
{
    match todo {
        Todo::Body(body) => match body.first() {
            Some(statement) => blocks(machine, alloc, statement),
            None => Ok(true),
        },
        Todo::Await(_, number) => Ok(call_blocks(machine, *number as usize)),
        Todo::WaitLock => Ok(matches!(machine.section, Section::Acquiring(_, _))),
        _ => Ok(false),
    }
}

/// Whether the wait of a call for its task blocks.
#[tactic(auto, using(flow_machine::proofs::Counts::tasks_counted))]
fn call_blocks(machine: &Machine<'_>, number: usize) -> bool
    ensures { AwaitBlocks result (machine_of machine.now) (scalar (Int (pos number))) }
{
    number < machine.tasks.len() && machine.tasks.arrival(number).is_none()
}

/// It ends as failed with a word.
pub(crate) fn fail(
    machine: &mut Machine<'_>,
    alloc: Global,
    made: &mut Made,
    word: &str,
) -> Result<(), AllocError>
    requires { length word.now ≤ 4096 }
    ensures { OnOk result (Makes made.old made.new machine.new
        (ended (machine_of machine.old) (failed word.now))) }
{
    match Text::read(alloc, word.as_bytes()) {
        Ok(text) => machine.end(made, Progress::Failed(text)),
        // a short word is a text
        Err(_) => Err(AllocError),
    }
}

/// What a machine that runs comes to where it has taken all its steps.
fn stop_running(machine: &mut Machine<'_>, alloc: Global, made: &mut Made) -> Result<(), AllocError>
    ensures { OnOk result (Makes made.old made.new machine.new
        (stopped (machine_of machine.old)
        (running_step (machine_of machine.old) (machine_of machine.old).rest))) }
{
    let Some(todo) = take_next(machine)? else {
        return machine.end(made, Progress::Done(Value::Null));
    };
    let stays = todo_blocks(machine, alloc, &todo)?;
    machine.plan(todo)?;
    if stays {
        Ok(())
    } else {
        fail(machine, alloc, made, "budget")
    }
}

/// What a machine comes to that has taken all its steps.
pub(crate) fn stop(
    machine: &mut Machine<'_>,
    alloc: Global,
    made: &mut Made,
) -> Result<(), AllocError>
    ensures { OnOk result (Makes made.old made.new machine.new
        (stopped (machine_of machine.old) (next_of (machine_of machine.old)))) }
{
    match machine.progress {
        Progress::Running => stop_running(machine, alloc, made),
        _ => Ok(()),
    }
}
