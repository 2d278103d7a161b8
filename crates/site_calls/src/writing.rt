// A write, call by call.
ghost use Rattle.std.specs.Prelude.{◌≡◌, ◌≤◌, length, true};
ghost use Rattle.site_model.specs.Calls.{Writes};
ghost use Rattle.site_calls.specs.Events.{Unseen, replay};
ghost use Rattle.site_calls.specs.Failures.{FailsByCall, is_disk_failure};
ghost use Rattle.site_calls.specs.Known.{Knows};
ghost use Rattle.site_calls.specs.Runs.{StaysHonest, WritesOnce};

use crate::Calls;
use crate::again::{find_file, write_some};
use crate::known::Known;
use std::io;

/// Writes to a file, which is made where it isn't there.
pub(crate) fn write_file<C: Calls>(
    calls: &mut C,
    known: &mut Known,
    file: u32,
    at: u64,
    bytes: &[u8],
) -> io::Result<()>
    ensures tells { StaysHonest (C.events calls.old) (C.events calls.new) }
    ensures known { (unseen : Unseen) → Knows known.old (replay unseen (C.events calls.old))
        → Knows known.new (replay unseen (C.events calls.new)) }
    ensures done { (unseen : Unseen) → Writes file at bytes.now
        (replay unseen (C.events calls.old)).steps (replay unseen (C.events calls.new)).steps
        result }
    ensures failure { FailsByCall is_disk_failure (C.events calls.old) (C.events calls.new) result }
{
    find_or_make(calls, known, file)?;
    known.count_steps(1);
    write_on(calls, file, at, bytes)
}

/// Makes a file where it isn't there.
fn find_or_make<C: Calls>(calls: &mut C, known: &mut Known, file: u32) -> io::Result<()>
    ensures tells { StaysHonest (C.events calls.old) (C.events calls.new) }
    ensures known { (unseen : Unseen) → Knows known.old (replay unseen (C.events calls.old))
        → Knows known.new (replay unseen (C.events calls.new)) }
    ensures same { (unseen : Unseen) → (replay unseen (C.events calls.new)).steps
        ≡ (replay unseen (C.events calls.old)).steps }
    ensures failure { FailsByCall is_disk_failure (C.events calls.old) (C.events calls.new) result }
{
    if !find_file(calls, file)? {
        calls.make(file)?;
        known.is_loose = true;
    }
    Ok(())
}

/// Begins a write, and goes on until all bytes are written.
fn write_on<C: Calls>(calls: &mut C, file: u32, at: u64, bytes: &[u8]) -> io::Result<()>
    ensures tells { StaysHonest (C.events calls.old) (C.events calls.new) }
    ensures done { (unseen : Unseen) → WritesOnce file at bytes.now
        (replay unseen (C.events calls.old)) (replay unseen (C.events calls.new)) result }
    ensures failure { FailsByCall is_disk_failure (C.events calls.old) (C.events calls.new) result }
{
    calls.begin_write(file, at, bytes.len());
    let mut done = 0;
    while done < bytes.len() {
        let count = write_some(calls, file, at, done, bytes)?;
        done += count;
    }
    Ok(())
}
