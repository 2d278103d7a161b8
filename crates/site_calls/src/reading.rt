// What a file holds, call by call.
ghost use Rattle.std.specs.Prelude.{◌≡◌, ◌≤◌, length, IfOk};
ghost use Rattle.site_model.specs.History.{content_of};
ghost use Rattle.site_model.specs.Calls.{Reads};
ghost use Rattle.site_calls.specs.Events.{Unseen, replay, IsHonest};
ghost use Rattle.site_calls.specs.Failures.{FailsByCall, is_disk_failure};
ghost use Rattle.site_calls.specs.Runs.{StaysHonest, StandsStill};

use crate::Calls;
use crate::again::{find_file, measure_file, read_some};
use std::io;

/// How many bytes a file has.
pub(crate) fn length_of<C: Calls>(calls: &mut C, file: u32) -> io::Result<u64>
    ensures tells { StaysHonest (C.events calls.old) (C.events calls.new) }
    ensures still { StandsStill (C.events calls.old) (C.events calls.new) }
    ensures value { (unseen : Unseen) → IsHonest unseen (C.events calls.new)
        → IfOk result (λ size. size
        ≡ length (content_of file (replay unseen (C.events calls.old)).steps)) }
    ensures failure { FailsByCall is_disk_failure (C.events calls.old) (C.events calls.new) result }
{
    if find_file(calls, file)? {
        measure_file(calls, file)
    } else {
        Ok(0)
    }
}

/// Reads from a file, and says how many bytes.
pub(crate) fn read_file<C: Calls>(
    calls: &mut C,
    file: u32,
    at: u64,
    out: &mut [u8],
) -> io::Result<usize>
    ensures tells { StaysHonest (C.events calls.old) (C.events calls.new) }
    ensures still { StandsStill (C.events calls.old) (C.events calls.new) }
    ensures count { IfOk result (λ count. count ≤ length out.old) }
    ensures value { (unseen : Unseen) → IsHonest unseen (C.events calls.new)
        → IfOk result (Reads (content_of file (replay unseen (C.events calls.old)).steps) at out.old
        out.new) }
    ensures failure { FailsByCall is_disk_failure (C.events calls.old) (C.events calls.new) result }
{
    if find_file(calls, file)? {
        read_on(calls, file, at, out)
    } else {
        Ok(0)
    }
}

/// Reads until the buffer is full or the file ends.
fn read_on<C: Calls>(calls: &mut C, file: u32, at: u64, out: &mut [u8]) -> io::Result<usize>
    ensures tells { StaysHonest (C.events calls.old) (C.events calls.new) }
    ensures still { StandsStill (C.events calls.old) (C.events calls.new) }
    ensures count { IfOk result (λ count. count ≤ length out.old) }
    ensures value { (unseen : Unseen) → IsHonest unseen (C.events calls.new)
        → IfOk result (Reads (content_of file (replay unseen (C.events calls.old)).steps) at out.old
        out.new) }
    ensures failure { FailsByCall is_disk_failure (C.events calls.old) (C.events calls.new) result }
{
    let mut done = 0;
    while done < out.len() {
        let count = read_some(calls, file, at, done, out)?;
        if count == 0 {
            return Ok(done);
        }
        done += count;
    }
    Ok(done)
}
