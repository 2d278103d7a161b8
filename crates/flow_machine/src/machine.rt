//! The machine of an instance.

ghost use Rattle.std.specs.Prelude.{◌≡◌, ◌++◌, IfOk, OnOk, option_map};
ghost use Rattle.dura_value.specs.Views.{id_of};
ghost use Rattle.flow_syntax.specs.Machine.{new_machine};
ghost use Rattle.flow_machine.specs.Views.{machine_of, body_of, todos_of};
ghost use Rattle.flow_machine.specs.Steps.{with_rest};

use dura_value::{Id, Name, Reply, Text, Value};
use flow_eval::Variables;
use flow_messages::copy_id;
use flow_syntax::Stmt;
use flow_tasks::{KeptEvents, Section, Tasks};
use std::alloc::{AllocError, Global};

/// Something that is still to run. The statements are those of the flow, which is lent.
#[derive(Clone, Copy)]
pub enum Todo<'f> {
    /// These statements, the first of which is next.
    Body(&'f [Stmt]),
    /// The wait of a call for its task, whose result sets the variable.
    Await(&'f Name, u32),
    /// The wait for a lock's grant.
    WaitLock,
    /// The end of a section's body.
    Unlock,
    /// The end of a body whose fault sets the variable and goes on with the handler.
    EndTry(&'f Name, &'f [Stmt]),
}

/// How far an instance has come.
#[derive(Drop)]
pub enum Progress {
    /// It hasn't begun.
    Unborn,
    /// It runs.
    Running,
    /// It has ended with a value.
    Done(Value),
    /// It has failed with a text.
    Failed(Text),
}

/// An instance of a flow.
#[derive(Drop)]
pub struct Machine<'f> {
    /// Its id.
    pub id: Id,
    /// Its flow's body, where the flow is known.
    pub body: Option<&'f [Stmt]>,
    /// Who started it.
    pub starter: Id,
    /// How the starter is answered.
    pub reply: Reply,
    /// Its variables.
    pub variables: Variables,
    /// What is still to run; the last comes first.
    pub rest: Vec<Todo<'f>>,
    /// Its tasks by number.
    pub tasks: Tasks,
    /// How many results arrived.
    pub arrivals: u64,
    /// The events that no handle waited for yet.
    pub kept: KeptEvents,
    /// Its section.
    pub section: Section,
    /// Its last stamp.
    pub last: u64,
    /// How many events it had.
    pub events: u32,
    /// How far it has come.
    pub progress: Progress,
}

impl<'f> Machine<'f> {
    /// The machine of an instance before its first event.
    pub fn new(alloc: Global, id: &Id, body: Option<&'f [Stmt]>) -> Result<Machine<'f>, AllocError>
        ensures { IfOk result (λ m. machine_of m
            ≡ new_machine (id_of id.now) (option_map body_of body.entry)) }
    {
        Ok(Machine {
            id: copy_id(id)?,
            body,
            starter: copy_id(id)?,
            reply: Reply::None,
            variables: Variables::new(alloc),
            rest: Vec::new(alloc),
            tasks: Tasks::new(alloc),
            arrivals: 0,
            kept: KeptEvents::new(alloc),
            section: Section::Outside,
            last: 0,
            events: 0,
            progress: Progress::Unborn,
        })
    }

    /// This is to run before all else. How much else is to run makes no difference in time.
    #[tactic(auto, using(crate::proofs::Thrown::rest_last))]
    pub fn plan(&mut self, todo: Todo<'f>) -> Result<(), AllocError>
        ensures { OnOk result (machine_of self.new
            ≡ with_rest (machine_of self.old) (todos_of todo.entry ++ (machine_of self.old).rest)) }
    {
        self.rest.push(todo)?;
        Ok(())
    }
}

/// Puts a value into a place. An assignment would do the same; but it lets what was there go part by part where it stands, each of
/// which is to be proved there, and here it is one call.
pub fn put<T: Drop>(place: &mut T, value: T)
    ensures { place.new ≡ value }
{
    *place = value;
}
