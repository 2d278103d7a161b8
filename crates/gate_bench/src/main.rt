//! Settles entries in a ledger, or tests a frame against one, to be timed and weighed from outside. The words say what, and how much:
//! `gate_bench settle 100000 8` settles so many frames of one entry with 8 items, `gate_bench test 1000 100 50` tests a frame of 1,000
//! items that name a settled entry, beside 100 floors, 50 times. With no words a little of each is done. It ends with `ok`.
//!
//! - `settling` is the one, `testing` the other.
#![tactic(auto)]

mod settling;
mod testing;

use settling::settle_frames;
use std::alloc::Global;
use std::env::{self, Args};
use std::process::ExitCode;
use testing::test_often;

/// The number that the next word is, or this where it lacks.
fn next_number(words: &mut Args, otherwise: u32) -> Option<u32> {
    match words.next() {
        Some(word) => word.parse::<u32>().ok(),
        None => Some(otherwise),
    }
}

fn do_settle(alloc: Global, words: &mut Args) -> bool {
    let (Some(frames), Some(items)) = (next_number(words, 10), next_number(words, 1)) else {
        return false;
    };
    settle_frames(alloc, frames, items).is_ok()
}

fn do_test(alloc: Global, words: &mut Args) -> bool {
    let (Some(items), Some(floors), Some(times)) = (
        next_number(words, 10),
        next_number(words, 10),
        next_number(words, 1),
    ) else {
        return false;
    };
    test_often(alloc, items, floors, times).is_ok()
}

/// Does what the words say, of which the program's name is the first.
fn do_words(alloc: Global, words: &mut Args) -> bool {
    drop(words.next());
    match words.next() {
        Some(kind) => match kind.as_str() {
            "settle" => do_settle(alloc, words),
            "test" => do_test(alloc, words),
            _ => false,
        },
        None => do_settle(alloc, words) && do_test(alloc, words),
    }
}

fn main(rt: HostRuntime) -> ExitCode {
    let is_done = match env::args(&rt) {
        Ok(mut words) => do_words(rt.alloc(), &mut words),
        Err(_) => false,
    };
    if is_done && println!(rt; "ok").is_ok() {
        ExitCode::SUCCESS
    } else {
        ExitCode::FAILURE
    }
}
