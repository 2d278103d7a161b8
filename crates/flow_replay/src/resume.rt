//! What an event makes of a machine.

ghost use Rattle.std.specs.Prelude.{◌≡◌, [], true, OnOk, IfOk};
ghost use Rattle.dura_value.specs.Names.{is_name};
ghost use Rattle.dura_value.specs.Views.{answer_of};
ghost use Rattle.flow_syntax.specs.Machine.{sets, with_answer, outcome_of, heard, oldest_listener, granted_in, recorded, granted_late, goes_on, begins, resumed_by, resume};
ghost use Rattle.flow_messages.specs.Views.{event_of};
ghost use Rattle.flow_machine.specs.Views.{machine_of};
ghost use Rattle.flow_machine.specs.Steps.{Makes};
ghost use Rattle.flow_replay.specs.Resuming.{Resumes, begun};
ghost use Rattle.flow_syntax.specs.Views.{block_of};

use crate::blocked::fail;
use crate::going::go;
use dura_value::{Answer, Name, Outcome, Value, with};
use flow_eval::Variables;
use flow_machine::{Machine, Progress, Todo, put};
use flow_messages::{
    Event, Made, copy_id, copy_name, copy_reply, copy_spots, copy_text, copy_value,
};
use flow_syntax::Stmt;
use flow_tasks::Section;
use std::alloc::{AllocError, Global};

/// The most events of one instance.
const EVENTS_LIMIT: u32 = 10_000;

/// The result of a task arrives, where the answer is one.
fn answer(machine: &mut Machine<'_>, task: u32, answer: &Answer) -> Result<(), AllocError>
    ensures { OnOk result (machine_of machine.new
        ≡ with_answer (machine_of machine.old) task (outcome_of (answer_of answer.now))) }
{
    match answer {
        Answer::Done(value) => machine.arrive(task as usize, Outcome::Done(copy_value(value)?)),
        Answer::Failed(text) => machine.arrive(task as usize, Outcome::Failed(copy_text(text)?)),
        _ => Ok(()),
    }
}

/// An event reaches the oldest handle of its name that waits, or is kept.
fn hear(machine: &mut Machine<'_>, name: &Name, value: &Value) -> Result<(), AllocError>
    ensures { OnOk result (machine_of machine.new
        ≡ heard (machine_of machine.old) name.now value.now
        (oldest_listener name.now (machine_of machine.old).tasks)) }
{
    match machine.tasks.oldest_listener(name) {
        Some(number) => machine.arrive(number, Outcome::Done(copy_value(value)?)),
        None => machine.kept.push(copy_name(name)?, copy_value(value)?),
    }
}

/// A grant reaches the one task that waits for it, and the section begins.
fn grant(machine: &mut Machine<'_>, task: u32) -> Result<(), AllocError>
    ensures { OnOk result (machine_of machine.new
        ≡ granted_in (machine_of machine.old) task (machine_of machine.old).section) }
{
    let set = match &machine.section {
        Section::Acquiring(waited, set) if *waited == task => copy_spots(set)?,
        _ => return Ok(()),
    };
    machine.arrive(task as usize, Outcome::Done(Value::Null))?;
    machine.section = Section::Inside(set);
    Ok(())
}

/// What an event changes in a machine that runs.
fn record(machine: &mut Machine<'_>, event: &Event) -> Result<(), AllocError>
    ensures { OnOk result (machine_of machine.new
        ≡ recorded (machine_of machine.old) (event_of event.now)) }
{
    match event {
        Event::Started(_, _, _) => Ok(()),
        Event::Resulted(task, told) => answer(machine, *task, told),
        Event::Raised(name, value) => hear(machine, name, value),
        Event::Fired(task) => machine.arrive(*task as usize, Outcome::Done(Value::Null)),
        Event::Granted(task) => grant(machine, *task),
    }
}

/// A grant that reaches a machine at its end: it leaves the section at once.
fn grant_late(machine: &mut Machine<'_>, made: &mut Made, event: &Event) -> Result<(), AllocError>
    ensures { OnOk result (Makes made.old made.new machine.new
        (granted_late (machine_of machine.old) (event_of event.now))) }
{
    if let Event::Granted(task) = event {
        grant(machine, *task)?;
        machine.leave(made)?;
    }
    Ok(())
}

/// It goes on from an event, unless that is one too many.
fn go_on(machine: &mut Machine<'_>, alloc: Global, made: &mut Made) -> Result<(), AllocError>
    ensures { OnOk result (Makes made.old made.new machine.new (goes_on (machine_of machine.old))) }
{
    if machine.events < EVENTS_LIMIT {
        machine.events += 1;
        go(machine, alloc, made)
    } else {
        fail(machine, alloc, made, "history")
    }
}

/// Its first statements are those of a body, and it has no variable yet.
pub(crate) fn run_body<'f>(
    machine: &mut Machine<'f>,
    alloc: Global,
    body: &'f [Stmt],
) -> Result<(), AllocError>
    ensures { OnOk result (machine_of machine.new
        ≡ begun (machine_of machine.old) [] (block_of body.now)) }
{
    put(&mut machine.variables, Variables::new(alloc));
    machine.rest.clear();
    put(&mut machine.progress, Progress::Running);
    machine.plan(Todo::Body(body))
}

/// A variable of this name gets a copy of a value.
pub(crate) fn give(
    machine: &mut Machine<'_>,
    alloc: Global,
    name: &[u8],
    value: &Value,
) -> Result<(), AllocError>
    requires { is_name name.now ≡ true }
    ensures { OnOk result (machine_of machine.new
        ≡ (sets (machine_of machine.old) name.now value.now).machine) }
{
    let name = Name::of(alloc, name)?;
    let (value, name) = with(copy_value(value), name)?;
    machine.variables.set(name, value)
}

/// It begins with its argument, where its flow is known.
fn begin(
    machine: &mut Machine<'_>,
    alloc: Global,
    made: &mut Made,
    event: &Event,
) -> Result<(), AllocError>
    ensures { OnOk result (Makes made.old made.new machine.new
        (begins (machine_of machine.old) (event_of event.now) (machine_of machine.old).body)) }
{
    let Event::Started(sender, argument, reply) = event else {
        return fail(machine, alloc, made, "unknown");
    };
    put(&mut machine.starter, copy_id(sender)?);
    machine.reply = copy_reply(reply);
    match machine.body {
        Some(body) => {
            run_body(machine, alloc, body)?;
            give(machine, alloc, b"arg", argument)?;
            go_on(machine, alloc, made)
        }
        None => fail(machine, alloc, made, "unknown"),
    }
}

/// An event at its last stamp, and what it makes of it.
fn take(
    machine: &mut Machine<'_>,
    alloc: Global,
    made: &mut Made,
    event: &Event,
) -> Result<(), AllocError>
    ensures { OnOk result (Makes made.old made.new machine.new
        (resumed_by (machine_of machine.old) (event_of event.now)
        (machine_of machine.old).progress)) }
{
    match machine.progress {
        Progress::Unborn => begin(machine, alloc, made, event),
        Progress::Running => {
            record(machine, event)?;
            go_on(machine, alloc, made)
        }
        _ => grant_late(machine, made, event),
    }
}

/// An event at this stamp, and what the machine makes of it.
pub fn advance(
    machine: &mut Machine<'_>,
    alloc: Global,
    event: &Event,
    stamp: u64,
) -> Result<Made, AllocError>
    ensures { IfOk result (λ made. Resumes made machine.new
        (resume (machine_of machine.old) (event_of event.now) stamp)) }
{
    let mut made = Made::new(alloc);
    machine.last = stamp;
    take(machine, alloc, &mut made, event)?;
    Ok(made)
}
