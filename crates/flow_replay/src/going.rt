//! Step after step, until a machine blocks or ends.

ghost use Rattle.std.specs.Prelude.{length, ◌<◌, IfSome, OnOk, IfOk};
ghost use Rattle.flow_syntax.specs.Machine.{running_step, next_of, go, most_steps};
ghost use Rattle.flow_machine.specs.Views.{machine_of};
ghost use Rattle.flow_machine.specs.Steps.{Makes, Moves};
ghost use Rattle.flow_replay.specs.Moving.{Pops, Splits, Takes};

use crate::blocked::stop;
use dura_value::Value;
use flow_machine::{Machine, Progress, Todo};
use flow_messages::Made;
use flow_syntax::Stmt;
use std::alloc::{AllocError, Global};

/// Takes out what is before all else.
#[tactic(auto, using(flow_machine::proofs::Thrown::rest_last))]
fn pop<'f>(machine: &mut Machine<'f>) -> Option<Todo<'f>>
    ensures pops { Pops (machine_of machine.old) (machine_of machine.new) result }
    ensures shorter { IfSome result (λ _. length machine.new.rest.items
        < length machine.old.rest.items) }
{
    machine.rest.pop()
}

/// The first statement of a body by itself; the others are next.
#[tactic(auto, using(crate::proofs::Taken::is_split, crate::proofs::Taken::is_one, crate::proofs::Taken::is_alone))]
fn split<'f>(machine: &mut Machine<'f>, body: &'f [Stmt]) -> Result<&'f [Stmt], AllocError>
    requires { 0 < length body.now }
    ensures { IfOk result (λ first. Splits (machine_of machine.old) (machine_of machine.new)
        body.now first.now) }
{
    if body.len() == 1 {
        return Ok(body);
    }
    machine.plan(Todo::Body(&body[1..]))?;
    Ok(&body[..1])
}

/// Takes out what is next to run. Of a body it is the first statement by itself.
pub(crate) fn take_next<'f>(machine: &mut Machine<'f>) -> Result<Option<Todo<'f>>, AllocError>
    ensures { IfOk result (λ next. Takes (machine_of machine.old) (machine_of machine.new) next) }
{
    while let Some(todo) = pop(machine) {
        match todo {
            Todo::Body(body) => {
                if !body.is_empty() {
                    return Ok(Some(Todo::Body(split(machine, body)?)));
                }
            }
            other => return Ok(Some(other)),
        }
    }
    Ok(None)
}

/// The step of a machine that runs, and whether it went on. With nothing to run it is done.
fn step_running(
    machine: &mut Machine<'_>,
    alloc: Global,
    made: &mut Made,
) -> Result<bool, AllocError>
    ensures { IfOk result (λ went. Moves went made.old made.new machine.new
        (running_step (machine_of machine.old) (machine_of machine.old).rest)) }
{
    let Some(todo) = take_next(machine)? else {
        machine.end(made, Progress::Done(Value::Null))?;
        return Ok(false);
    };
    let went = machine.step_todo(alloc, made, &todo)?;
    if !went {
        machine.plan(todo)?;
    }
    Ok(went)
}

/// One step, and whether it went on.
fn step(machine: &mut Machine<'_>, alloc: Global, made: &mut Made) -> Result<bool, AllocError>
    ensures { IfOk result (λ went. Moves went made.old made.new machine.new
        (next_of (machine_of machine.old))) }
{
    match machine.progress {
        Progress::Running => step_running(machine, alloc, made),
        _ => Ok(false),
    }
}

/// Steps until it blocks or ends. One that would take more than it may ends as failed.
pub(crate) fn go(
    machine: &mut Machine<'_>,
    alloc: Global,
    made: &mut Made,
) -> Result<(), AllocError>
    ensures { OnOk result (Makes made.old made.new machine.new
        (go most_steps (machine_of machine.old))) }
{
    for _ in 0..STEPS_LIMIT {
        let went = step(machine, alloc, made)?;
        if !went {
            return Ok(());
        }
    }
    stop(machine, alloc, made)
}

/// The most steps from one event to the next.
const STEPS_LIMIT: u32 = 10_000;
