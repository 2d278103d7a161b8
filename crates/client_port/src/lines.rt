//! The line of an answer.

ghost use Rattle.std.specs.Prelude.{◌≡◌, ◌++◌, ◌<◌, length, IfOk, OnOk};
ghost use Rattle.dura_value.specs.Views.{answer_of};
ghost use Rattle.client_port.specs.Lines.{answer_text, line_of};

use crate::json::{quoted_text, value_text};
use dura_value::{Answer, Name};
use std::alloc::{AllocError, Global};

/// Appends an answer as it is said: `done` or `failed` and what it came to, `value` and a value, or the word for it.
pub fn write_answer(alloc: Global, out: &mut Vec<u8>, answer: &Answer) -> Result<(), AllocError>
    ensures { OnOk result (out.new.items ≡ out.old.items ++ answer_text (answer_of answer.now)) }
{
    match answer {
        Answer::Done(value) => {
            out.extend_from_slice("done ".as_bytes())?;
            out.extend_from_slice(&value_text(alloc, value)?)
        }
        Answer::Failed(text) => {
            out.extend_from_slice("failed ".as_bytes())?;
            out.extend_from_slice(&quoted_text(alloc, text)?)
        }
        Answer::Started => out.extend_from_slice("started".as_bytes()),
        Answer::Exists => out.extend_from_slice("exists".as_bytes()),
        Answer::Unknown => out.extend_from_slice("unknown".as_bytes()),
        Answer::Raised => out.extend_from_slice("raised".as_bytes()),
        Answer::Ended => out.extend_from_slice("ended".as_bytes()),
        Answer::None => out.extend_from_slice("none".as_bytes()),
        Answer::Running => out.extend_from_slice("running".as_bytes()),
        Answer::Value(value) => {
            out.extend_from_slice("value ".as_bytes())?;
            out.extend_from_slice(&value_text(alloc, value)?)
        }
    }
}

/// The line that says the answer to a client's request, with its line feed.
pub fn answer_line(
    alloc: Global,
    client: &Name,
    number: u32,
    answer: &Answer,
) -> Result<Vec<u8>, AllocError>
    ensures line { IfOk result (λ line. line.items
        ≡ line_of client.now number (answer_of answer.now)) }
    ensures there { IfOk result (λ line. 0 < length line.items) }
{
    let mut line = Vec::from_slice(alloc, client.as_bytes())?;
    line.push(b' ')?;
    let digits = number.to_string(alloc)?;
    line.extend_from_slice(digits.as_bytes())?;
    line.push(b' ')?;
    write_answer(alloc, &mut line, answer)?;
    line.push(b'\n')?;
    Ok(line)
}
