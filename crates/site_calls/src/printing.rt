// A line on standard output, call by call.
ghost use Rattle.site_model.specs.Calls.{Says};
ghost use Rattle.site_calls.specs.Events.{Unseen, replay};
ghost use Rattle.site_calls.specs.Failures.{FailsByCall, is_say_failure};
ghost use Rattle.site_calls.specs.Known.{Knows};
ghost use Rattle.site_calls.specs.Runs.{StaysHonest};

use crate::Calls;
use crate::again::print_some;
use crate::known::Known;
use std::io;

/// Prints a whole line.
pub(crate) fn print_line<C: Calls>(calls: &mut C, known: &mut Known, line: &[u8]) -> io::Result<()>
    ensures tells { StaysHonest (C.events calls.old) (C.events calls.new) }
    ensures known { (unseen : Unseen) → Knows known.old (replay unseen (C.events calls.old))
        → Knows known.new (replay unseen (C.events calls.new)) }
    ensures done { (unseen : Unseen) → Says line.now (replay unseen (C.events calls.old)).steps
        (replay unseen (C.events calls.new)).steps result }
    ensures failure { FailsByCall is_say_failure (C.events calls.old) (C.events calls.new) result }
{
    let mut done = 0;
    while done < line.len() {
        let count = print_some(calls, done, line)?;
        known.count_steps(count as u64);
        done += count;
    }
    Ok(())
}
