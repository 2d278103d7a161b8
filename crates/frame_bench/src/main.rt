//! Writes and reads one large frame, as bytes and as JSON, to be timed from outside. The words say what, how often, and how long the
//! texts are: `frame_bench read 100 24`. With no words each is done once. It ends with `ok`.
//!
//! - `frame` makes the frame, `texts` the same as JSON.
#![tactic(auto)]

ghost use Rattle.log_items.specs.Plain.{entries_of};
ghost use Rattle.part_items.specs.Spelling.{CanSpellFrame};

mod frame;
mod texts;

use commit_log::Payload;
use frame::make_frame;
use log_items::Frame;
use part_items::{FrameReader, Next, write_frame};
use serde_json::Value;
use std::alloc::Global;
use std::env::{self, Args};
use std::process::ExitCode;
use texts::make_json;

// Each function that does something says whether it went well.

fn written(alloc: Global, frame: &Frame) -> Option<Vec<u8>>
    requires { CanSpellFrame (entries_of frame.now) }
{
    let mut bytes = Vec::new(alloc);
    if write_frame(&mut bytes, frame).is_ok() {
        Some(bytes)
    } else {
        None
    }
}

fn write_often(alloc: Global, frame: &Frame, times: u32) -> bool
    requires { CanSpellFrame (entries_of frame.now) }
{
    for _ in 0..times {
        if written(alloc, frame).is_none() {
            return false;
        }
    }
    true
}

fn do_write(alloc: Global, times: u32, long: &str) -> bool {
    match make_frame(alloc, long.as_bytes()) {
        Ok(frame) => {
            let is_done = write_often(alloc, &frame, times);
            frame.let_go();
            is_done
        }
        Err(_) => false,
    }
}

fn frame_bytes(alloc: Global, long: &str) -> Option<Vec<u8>> {
    match make_frame(alloc, long.as_bytes()) {
        Ok(frame) => {
            let bytes = written(alloc, &frame);
            frame.let_go();
            bytes
        }
        Err(_) => None,
    }
}

/// The frame is read as a log is: copied from what was read ahead, and then entry by entry, of which each is let go of before the next.
fn read_once(alloc: Global, bytes: &[u8]) -> bool {
    let first = Next {
        position: 0,
        incarnation: 0,
    };
    let Ok(payload) = Payload::copy_of(alloc, bytes) else {
        return false;
    };
    let Ok(mut frame) = FrameReader::begin(first, payload) else {
        return false;
    };
    for _ in 0..64 {
        match frame.next(alloc) {
            Ok(Some(entry)) => entry.let_go(),
            _ => return false,
        }
    }
    matches!(frame.next(alloc), Ok(None))
}

fn read_often(alloc: Global, bytes: &[u8], times: u32) -> bool {
    for _ in 0..times {
        if !read_once(alloc, bytes) {
            return false;
        }
    }
    true
}

fn do_read(alloc: Global, times: u32, long: &str) -> bool {
    match frame_bytes(alloc, long) {
        Some(bytes) => read_often(alloc, &bytes, times),
        None => false,
    }
}

fn json_value(alloc: Global, long: &str) -> Option<Value> {
    match make_json(alloc, long) {
        Some(text) => Value::from_str(alloc, text.as_str()).ok(),
        None => None,
    }
}

fn json_write_often(alloc: Global, value: &Value, times: u32) -> bool {
    for _ in 0..times {
        if value.to_string(alloc).is_err() {
            return false;
        }
    }
    true
}

fn do_json_write(alloc: Global, times: u32, long: &str) -> bool {
    match json_value(alloc, long) {
        Some(value) => json_write_often(alloc, &value, times),
        None => false,
    }
}

fn json_read_often(alloc: Global, text: &str, times: u32) -> bool {
    for _ in 0..times {
        if Value::from_str(alloc, text).is_err() {
            return false;
        }
    }
    true
}

fn do_json_read(alloc: Global, times: u32, long: &str) -> bool {
    match make_json(alloc, long) {
        Some(text) => json_read_often(alloc, text.as_str(), times),
        None => false,
    }
}

fn do_all(alloc: Global, times: u32, long: &str) -> bool {
    do_write(alloc, times, long)
        && do_read(alloc, times, long)
        && do_json_write(alloc, times, long)
        && do_json_read(alloc, times, long)
}

fn do_kind(alloc: Global, kind: &str, times: u32, long: &str) -> bool {
    match kind {
        "make" => do_write(alloc, 0, long),
        "write" => do_write(alloc, times, long),
        "read" => do_read(alloc, times, long),
        "json-write" => do_json_write(alloc, times, long),
        "json-read" => do_json_read(alloc, times, long),
        "all" => do_all(alloc, times, long),
        _ => false,
    }
}

/// The number that the next word is, or that there is where it lacks.
fn next_number(words: &mut Args, otherwise: u32) -> Option<u32> {
    match words.next() {
        Some(word) => word.parse::<u32>().ok(),
        None => Some(otherwise),
    }
}

/// Does this as the words behind it say.
fn do_next(alloc: Global, kind: &str, words: &mut Args) -> bool {
    let (Some(times), Some(size)) = (next_number(words, 1), next_number(words, 24)) else {
        return false;
    };
    match "a".repeat(alloc, size as usize) {
        Ok(long) => do_kind(alloc, kind, times, long.as_str()),
        Err(_) => false,
    }
}

/// Does what the words say, of which the program's name is the first.
fn do_words(alloc: Global, words: &mut Args) -> bool {
    drop(words.next());
    match words.next() {
        Some(kind) => do_next(alloc, kind.as_str(), words),
        None => do_next(alloc, "all", words),
    }
}

fn main(rt: HostRuntime) -> ExitCode {
    let is_done = match env::args(&rt) {
        Ok(mut words) => do_words(rt.alloc(), &mut words),
        Err(_) => false,
    };
    if is_done && println!(rt; "ok").is_ok() {
        ExitCode::SUCCESS
    } else {
        ExitCode::FAILURE
    }
}
