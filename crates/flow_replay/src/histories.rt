//! The machine that a history makes.

ghost use Rattle.std.specs.Prelude.{◌≡◌, IfOk, map, option_map};
ghost use Rattle.dura_value.specs.Views.{id_of};
ghost use Rattle.flow_syntax.specs.Machine.{new_machine, replayed};
ghost use Rattle.flow_messages.specs.Views.{past_of};
ghost use Rattle.flow_machine.specs.Views.{machine_of, body_of};

use crate::resume::advance;
use dura_value::Id;
use flow_machine::Machine;
use flow_messages::Past;
use flow_syntax::Stmt;
use std::alloc::{AllocError, Global};

/// The machine of an instance whose flow has this body, where it is known, after the events of a history.
pub fn replay<'f>(
    alloc: Global,
    id: &Id,
    body: Option<&'f [Stmt]>,
    history: &[&Past],
) -> Result<Machine<'f>, AllocError>
    ensures { IfOk result (λ m. machine_of m
        ≡ replayed (new_machine (id_of id.now) (option_map body_of body.entry))
        (map past_of (map (λ past. past.now) history.now))) }
{
    let mut machine = Machine::new(alloc, id, body)?;
    for past in history {
        let past: &Past = past;
        match advance(&mut machine, alloc, &past.event, past.stamp) {
            Ok(made) => drop(made),
            Err(fault) => {
                drop(machine);
                return Err(fault);
            }
        }
    }
    Ok(machine)
}
