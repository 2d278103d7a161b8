//! One line of a table.

ghost use Rattle.std.specs.Prelude.{◌≡◌, ◌<◌, ◌≤◌, ◌++◌, ℕ, Some, Err, length, IfOk, IfErr, OnOk};
ghost use Rattle.dura_value.specs.Views.{id_of, answer_of};
ghost use Rattle.site_model.specs.History.{changes_of, tape};
ghost use Rattle.site_model.specs.Calls.{HasRisen};
ghost use Rattle.state_lines.specs.Steps.{SaysPart};
ghost use Rattle.state_lines.specs.Table.{table_line};

use crate::error::ShowError;
use client_port::write_answer;
use dura_value::{Answer, Id};
use site_model::Site;
use std::alloc::{AllocError, Global};

/// The line of an id, with its line feed.
fn table_line(alloc: Global, id: &Id, answer: &Answer) -> Result<Vec<u8>, AllocError>
    ensures line { IfOk result (λ line. line.items
        ≡ table_line (id_of id.now) (Some (answer_of answer.now))) }
    ensures there { IfOk result (λ line. 0 < length line.items) }
{
    let mut line = Vec::new(alloc);
    id.write(&mut line)?;
    line.push(b' ')?;
    write_answer(alloc, &mut line, answer)?;
    line.push(b'\n')?;
    Ok(line)
}

/// Says the line of an id.
#[tactic(auto, using(crate::proofs::OnTape::said_whole, crate::proofs::OnTape::said_part, crate::proofs::OnTape::nothing_said, site_model::proofs::Tape::says_no_file))]
pub(crate) fn say_line<V: Site>(
    alloc: Global,
    site: &mut V,
    id: &Id,
    answer: &Answer,
) -> Result<(), ShowError>
    ensures tells { V.tells site.new → V.tells site.old }
    ensures said { OnOk result (tape (V.history site.new)
        ≡ tape (V.history site.old) ++ table_line (id_of id.now) (Some (answer_of answer.now))) }
    ensures part { IfErr result (λ error.
        SaysPart (table_line (id_of id.now) (Some (answer_of answer.now))) error
        (tape (V.history site.old)) (tape (V.history site.new))) }
    ensures files { (file : ℕ) → changes_of file (V.history site.new)
        ≡ changes_of file (V.history site.old) }
    ensures fault { result ≡ Err ShowError.SayFault
        → HasRisen (V.say_faults site.old) (V.say_faults site.new) }
    ensures later { V.say_faults site.old ≤ V.say_faults site.new }
    ensures disk_faults { V.disk_faults site.new ≡ V.disk_faults site.old }
{
    let line = table_line(alloc, id, answer)?;
    match site.say(&line) {
        Ok(()) => Ok(()),
        Err(_) => Err(ShowError::SayFault),
    }
}
