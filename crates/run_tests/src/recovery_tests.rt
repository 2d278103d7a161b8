//! Bytes in the two log files, and what is recovered of them.

use crate::frame_tests::EXAMPLE;
use dura_value::{Id, Name};
use flow_steps::Machines;
use flow_syntax::Flows;
use recover_core::{Opened, RecoverError, recover};
use site_memory::{Kind, MemorySite};
use std::alloc::Global;
use std::process::Abort;

/// The digest of the flows file.
const DIGEST: u64 = 7;

/// The header of partition 0 of 1, of flows with digest 7, from position 0 on.
const HEADER: [u8; 33] = [
    0xC3, 0x4E, 0x45, 0x54, 0x48, 0x4C, 0x4F, 0x47, 0x01, // open, NETHLOG 1
    0x00, 0x00, 0x00, 0x00, // partition
    0x00, 0x00, 0x00, 0x01, // partitions
    0x00, 0x00, 0x00, 0x00, 0x00, 0x00, 0x00, 0x07, // digest
    0x00, 0x00, 0x00, 0x00, 0x00, 0x00, 0x00, 0x00, // base
];

/// The gate before the example frame, and its length.
const FRAME: [u8; 5] = [0xC3, 0x00, 0x00, 0x00, 0x26];

/// A word and the number behind it, with a sign between them.
fn numbered<'a>(rt: &impl Abort, text: &'a str, sign: char) -> (&'a str, usize) {
    let (word, number) = text.split_once(sign).expect(rt, "a number");
    (word, number.parse().expect(rt, "a number"))
}

/// These bytes, where the text has words as `9=1` with the byte 1 at place 9.
fn add(rt: &impl Abort, bytes: &mut Vec<u8>, part: &[u8], text: &str) {
    let start = bytes.len();
    bytes.extend_from_slice(part).expect(rt, "memory");
    for word in text.split(' ').skip(1) {
        let (at, byte) = numbered(rt, word, '=');
        let at: usize = at.parse().expect(rt, "a place");
        *bytes.get_mut(start.saturating_add(at)).expect(rt, "a byte") = u8::try_from(byte).expect(
            rt, "a byte",
        );
    }
}

/// The example frame with the gate before it. Places are those of the frame.
fn add_entry(rt: &impl Abort, bytes: &mut Vec<u8>, text: &str) {
    bytes.extend_from_slice(&FRAME).expect(rt, "memory");
    add(rt, bytes, &EXAMPLE, text);
}

/// One byte more, or only so many.
fn add_or_cut(rt: &impl Abort, bytes: &mut Vec<u8>, text: &str) {
    let (word, number) = numbered(rt, text, ' ');
    if word == "cut" {
        bytes.truncate(number);
    } else {
        let byte = u8::try_from(number).expect(rt, "a byte");
        bytes.push(byte).expect(rt, "memory");
    }
}

/// A part of a file by its name.
fn add_part(rt: &impl Abort, bytes: &mut Vec<u8>, text: &str) {
    if text.starts_with("header") {
        add(rt, bytes, &HEADER, text);
    } else if text.starts_with("entry") {
        add_entry(rt, bytes, text);
    } else if text != "empty" {
        add_or_cut(rt, bytes, text);
    }
}

/// The bytes of these parts.
fn file_of(rt: &impl Abort, alloc: Global, parts: &str) -> Vec<u8> {
    let mut bytes = Vec::new(alloc);
    for part in parts.split(", ") {
        add_part(rt, &mut bytes, part);
    }
    bytes
}

/// A site whose log files have these parts, where the device call with this number fails.
fn site_of(rt: &impl Abort, alloc: Global, first: &str, second: &str, fails: u64) -> MemorySite {
    let fails = vec![in alloc; (Kind::Device, fails)].expect(rt, "memory");
    let mut site = MemorySite::new(alloc, 1000, 40, fails).expect(rt, "memory");
    let first = file_of(rt, alloc, first);
    site.prepare(16, 0, &first).expect(rt, "room");
    drop(first);
    let second = file_of(rt, alloc, second);
    site.prepare(17, 0, &second).expect(rt, "room");
    drop(second);
    site
}

/// The file and the gate of the log, the incarnation that begins, and whether client a's requests 1 and 2 were taken. No log is in file 0.
fn state_text(rt: &impl Abort, alloc: Global, opened: Opened) -> String {
    let client = Id::Client(Name::of(alloc, b"a").expect(rt, "memory"));
    let state = opened.states.first().expect(rt, "a state");
    let first = state.has_taken(&client, 1);
    let second = state.has_taken(&client, 2);
    drop(client);
    let life = opened.lives.first().expect(rt, "a log");
    let incarnation = life.incarnation;
    let (file, gate) = match &life.log {
        Some(log) => (log.file, log.gate),
        None => (0, 0),
    };
    assert!(rt; life.log.is_some() == (file != 0));
    drop(opened);
    format!(in alloc;
        "log {file} to {gate}, incarnation {incarnation}, taken {first} {second}"
    ).expect(rt, "memory")
}

/// What was recovered, or why nothing was.
fn told(rt: &impl Abort, alloc: Global, found: Result<Opened, RecoverError>) -> String {
    match found {
        Ok(opened) => state_text(rt, alloc, opened),
        Err(error) => error.to_string(alloc).expect(rt, "memory"),
    }
}

/// What is recovered of these files. Nothing is written.
fn recovered_of(rt: &impl Abort, alloc: Global, mut site: MemorySite) -> String {
    let flows = Flows::new(alloc);
    let result = recover(alloc, &mut site, &Machines::of(&flows), DIGEST, 1);
    drop(flows);
    assert!(rt; site.calls(Kind::Write) == 0);
    drop(site);
    told(rt, alloc, result)
}

/// A line has the two files and what is recovered, where the device call with this number fails.
fn check_at(rt: &impl Abort, alloc: Global, line: &str, fails: u64) {
    let (first, rest) = line.split_once(" | ").expect(rt, "a file");
    let (second, wanted) = rest.split_once(" | ").expect(rt, "two files");
    let found = recovered_of(rt, alloc, site_of(rt, alloc, first, second, fails));
    assert!(rt; found.as_str() == wanted, "{found}, and not {line}");
    drop(found);
}

/// The number of a call that isn't made.
const NO_CALL: u64 = 1000;

/// Each line has the two files and what is recovered.
fn check(rt: &impl Abort, alloc: Global, lines: &str) {
    for line in lines.lines() {
        check_at(rt, alloc, line, NO_CALL);
    }
}

const NOTHING_YET: &str = "empty | empty | log 0 to 0, incarnation 0, taken false false
byte 0, byte 1, byte 2 | byte 195 | log 0 to 0, incarnation 0, taken false false";

const ONE_ENTRY: &str =
    "header, entry, byte 0 | empty | log 16 to 76, incarnation 1, taken true false
byte 0 | header, entry, byte 0 | log 17 to 76, incarnation 1, taken true false";

const LIFE_BEHIND_THE_LAST: &str =
    "header, entry, entry 9=1 17=5 37=2, byte 0 | empty | log 16 to 119, incarnation 6, taken true true";

/// The same request once more; bytes that are wrong behind it, which come first; the last incarnation, behind which none is left for a run.
const LAST_ENTRIES: &str =
    "header, entry, entry 9=1, byte 0 | empty | partition 0 has an illegal entry at position 1
header, entry, entry 9=1, entry, byte 0 | empty | file 16 is damaged at offset 126
header, entry 10=63 11=255 12=255 13=255 14=255 15=255 16=255 17=255, byte 0 | empty | log 16 to 76, incarnation 4611686018427387904, taken true false";

const OTHER_LOGS: &str =
    "header 16=2, entry, byte 0 | empty | the log is of 2 partitions, and 1 are asked for
empty | header 24=8, entry, byte 0 | the log is of flows with digest 8, and these have 7
header, entry, byte 0 | header, entry, byte 0 | file 17 is damaged at offset 25
header 32=1, entry 9=1, byte 0 | empty | file 16 is damaged at offset 25
header, entry, byte 0 | header 32=1, entry 9=1, byte 0 | file 17 is damaged at offset 25
header 32=1, entry 9=1, byte 0 | header, entry, byte 0 | file 16 is damaged at offset 25";

const CUT_SHORT: &str = "header, entry, byte 0, cut 20 | empty | file 16 is damaged at offset 17
header, entry, byte 0, cut 33 | empty | file 16 is damaged at offset 33
header, entry, byte 0, cut 35 | empty | file 16 is damaged at offset 34
header, entry, byte 0, cut 60 | empty | file 16 is damaged at offset 34
header, entry, byte 0, cut 76 | empty | file 16 is damaged at offset 34";

#[test]
fn log_files(rt: HostRuntime) {
    let alloc = rt.alloc();
    check(&rt, alloc, NOTHING_YET);
    check(&rt, alloc, ONE_ENTRY);
    check(&rt, alloc, LIFE_BEHIND_THE_LAST);
    check(&rt, alloc, LAST_ENTRIES);
    check(&rt, alloc, OTHER_LOGS);
    check(&rt, alloc, CUT_SHORT);
}

#[test]
fn the_disk_fails(rt: HostRuntime) {
    let alloc = rt.alloc();
    for call in 0..7 {
        check_at(
            &rt,
            alloc,
            "header, entry, byte 0 | empty | the disk failed",
            call,
        );
    }
    check_at(
        &rt,
        alloc,
        "header, entry, byte 0 | empty | log 16 to 76, incarnation 1, taken true false",
        7,
    );
}
