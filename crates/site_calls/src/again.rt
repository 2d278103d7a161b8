// Calls that are made again as often as a signal cuts them off.
ghost use Rattle.std.specs.Prelude.{◌≡◌, ◌+◌, ◌<◌, ◌≤◌, length, take, drop, false, IfOk, OnOk, MatchResult};
ghost use Rattle.site_calls.specs.Events.{Unseen, Standing, found, measured, got, printed, replay};
ghost use Rattle.site_calls.specs.Failures.{FailsByCall, is_disk_failure, is_say_failure};
ghost use Rattle.site_calls.specs.Runs.{StaysHonest, StandsStill, IsNoted, IsWriting};

use crate::Calls;
use std::io;
use std::io::ErrorKind;

/// Whether a signal cut a call off.
fn is_cut_off<T>(answer: &io::Result<T>) -> bool
    ensures { OnOk answer.now (result ≡ false) }
{
    match answer {
        Ok(_) => false,
        Err(error) => error.kind() == ErrorKind::Interrupted,
    }
}

/// Looks whether a file is there.
pub(crate) fn find_file<C: Calls>(calls: &mut C, file: u32) -> io::Result<bool>
    ensures tells { StaysHonest (C.events calls.old) (C.events calls.new) }
    ensures noted { MatchResult result (λ is_there.
        IsNoted (found file is_there) (C.events calls.old) (C.events calls.new))
        (λ _. StandsStill (C.events calls.old) (C.events calls.new)) }
    ensures failure { FailsByCall is_disk_failure (C.events calls.old) (C.events calls.new) result }
{
    let mut answer = calls.find(file);
    for _ in 0..u64::MAX {
        if !is_cut_off(&answer) {
            return answer;
        }
        answer = calls.find(file);
    }
    answer
}

/// How many bytes a file has that was found or made.
pub(crate) fn measure_file<C: Calls>(calls: &mut C, file: u32) -> io::Result<u64>
    ensures tells { StaysHonest (C.events calls.old) (C.events calls.new) }
    ensures noted { MatchResult result (λ size.
        IsNoted (measured file size) (C.events calls.old) (C.events calls.new))
        (λ _. StandsStill (C.events calls.old) (C.events calls.new)) }
    ensures failure { FailsByCall is_disk_failure (C.events calls.old) (C.events calls.new) result }
{
    let mut answer = calls.measure(file);
    for _ in 0..u64::MAX {
        if !is_cut_off(&answer) {
            return answer;
        }
        answer = calls.measure(file);
    }
    answer
}

/// Goes on with a read of `out.len()` bytes from offset `at` on, of which `done` have come.
pub(crate) fn read_some<C: Calls>(
    calls: &mut C,
    file: u32,
    at: u64,
    done: usize,
    out: &mut [u8],
) -> io::Result<usize>
    requires { done < length out.old }
    ensures tells { StaysHonest (C.events calls.old) (C.events calls.new) }
    ensures front { take done out.new ≡ take done out.old }
    ensures count { IfOk result (λ count. done + count ≤ length out.old) }
    ensures noted { MatchResult result (λ count.
        IsNoted (got file at (length out.old) count (take (done + count) out.new))
        (C.events calls.old) (C.events calls.new))
        (λ _. StandsStill (C.events calls.old) (C.events calls.new)) }
    ensures failure { FailsByCall is_disk_failure (C.events calls.old) (C.events calls.new) result }
{
    let mut answer = calls.read_some(file, at, done, out);
    for _ in 0..u64::MAX {
        if !is_cut_off(&answer) {
            return answer;
        }
        answer = calls.read_some(file, at, done, out);
    }
    answer
}

/// Goes on with the write that began, of which `done` bytes are written.
pub(crate) fn write_some<C: Calls>(
    calls: &mut C,
    file: u32,
    at: u64,
    done: usize,
    bytes: &[u8],
) -> io::Result<usize>
    requires { done < length bytes.now }
    ensures tells { StaysHonest (C.events calls.old) (C.events calls.new) }
    ensures some { IfOk result (λ count. 0 < count) }
    ensures count { IfOk result (λ count. done + count ≤ length bytes.now) }
    ensures writing { (unseen : Unseen) (start : Standing)
        → IsWriting file at bytes.now done start (replay unseen (C.events calls.old))
        → MatchResult result (λ count.
        IsWriting file at bytes.now (done + count) start (replay unseen (C.events calls.new)))
        (λ _. IsWriting file at bytes.now done start (replay unseen (C.events calls.new))) }
    ensures failure { FailsByCall is_disk_failure (C.events calls.old) (C.events calls.new) result }
{
    let mut answer = calls.write_some(file, at, done, bytes);
    for _ in 0..u64::MAX {
        if !is_cut_off(&answer) {
            return answer;
        }
        answer = calls.write_some(file, at, done, bytes);
    }
    answer
}

/// Goes on printing a line, of which `done` bytes are printed.
pub(crate) fn print_some<C: Calls>(calls: &mut C, done: usize, line: &[u8]) -> io::Result<usize>
    requires { done < length line.now }
    ensures tells { StaysHonest (C.events calls.old) (C.events calls.new) }
    ensures some { IfOk result (λ count. 0 < count) }
    ensures count { IfOk result (λ count. done + count ≤ length line.now) }
    ensures noted { MatchResult result (λ count.
        IsNoted (printed (take count (drop done line.now))) (C.events calls.old)
        (C.events calls.new)) (λ _. StandsStill (C.events calls.old) (C.events calls.new)) }
    ensures failure { FailsByCall is_say_failure (C.events calls.old) (C.events calls.new) result }
{
    let mut answer = calls.print_some(done, line);
    for _ in 0..u64::MAX {
        if !is_cut_off(&answer) {
            return answer;
        }
        answer = calls.print_some(done, line);
    }
    answer
}
