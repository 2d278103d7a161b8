//! Logs that are longer than what one read fetches, by a line for each length of the first frame's payload. Behind it stands the frame of
//! `NEXT`. A read fetches 2^20 bytes, the first time from 33 on. So with a payload of 2^20 - 5 bytes the next gate stands behind them, and
//! with one byte less it is the last of them.

use crate::readings::{THREE_FRAMES, read_as, site_of};
use crate::texts::{numbered, same, text_of};
use site_memory::Kind;
use std::alloc::Global;
use std::process::Abort;

/// Room for the logs here.
const ROOM: u64 = 1 << 21;

/// The number of no device call.
const NEVER: u64 = 1000;

/// The frame of `NEXT`, and the gate behind it.
const BEHIND: [u8; 9] = [0xC3, 0x00, 0x00, 0x00, 0x03, 0xC3, 0x00, 0xC3, 0x00];

/// A log with a frame of so many bytes, of which those that are close differ, and that of `NEXT` behind it.
fn log_with(rt: &impl Abort, alloc: Global, payload_len: u32) -> Vec<u8> {
    let mut bytes = Vec::from_slice(alloc, &THREE_FRAMES[..34]).expect(rt, "memory");
    let len = payload_len.to_be_bytes();
    bytes.extend_from_slice(&len).expect(rt, "memory");
    for place in 0..payload_len {
        bytes.push((place % 251) as u8).expect(rt, "memory");
    }
    bytes.extend_from_slice(&BEHIND).expect(rt, "memory");
    bytes
}

/// How many of a log's last bytes are left out, and the device call that fails, counted from 0.
fn trouble_of(rt: &impl Abort, words: &str) -> (usize, u64) {
    let (kind, number) = numbered(rt, words);
    match kind {
        "without" => (number as usize, NEVER),
        "fault at call" => (0, number),
        _ => panic!(rt; "no such trouble"),
    }
}

/// Reads such a log, and checks what it is read as and by how many reads.
fn check_log(rt: &impl Abort, alloc: Global, line: &str) {
    let (case, wanted) = line.split_once(": ").expect(rt, "a reading");
    let (payload, trouble) = case.split_once(", ").unwrap_or((case, "without 0"));
    let payload_len = u32::try_from(numbered(rt, payload).1).expect(rt, "a length");
    let (left_out, call) = trouble_of(rt, trouble);
    let mut bytes = log_with(rt, alloc, payload_len);
    bytes.truncate(bytes.len().saturating_sub(left_out));
    let mut site = site_of(rt, alloc, (ROOM, call), Some(&bytes));
    let reading = text_of(rt, alloc, read_as(alloc, &mut site, 1, &bytes));
    let reads = site.calls(Kind::Read);
    let found = format!(in alloc; "{reading}; reads {reads}").expect(rt, "memory");
    same(rt, line, &found, wanted);
}

/// The first read is of the header. One from a gate on fetches 2^20 bytes, or a whole frame where that is longer, or what is left.
const WHOLE: &str = "payload of 1048562: 2 frames, gate at 1048608; reads 2
payload of 1048563: 2 frames, gate at 1048609; reads 3
payload of 1048565: 2 frames, gate at 1048611; reads 3
payload of 1048568: 2 frames, gate at 1048614; reads 3
payload of 1048570: 2 frames, gate at 1048616; reads 3
payload of 1048572: 2 frames, gate at 1048618; reads 4";

#[test]
fn logs_in_pieces(rt: HostRuntime) {
    for line in WHOLE.lines() {
        check_log(&rt, rt.alloc(), line);
    }
}

/// A frame that doesn't fit into the file is refused before more is read. Calls 0 to 2 open the log.
const BROKEN: &str = "payload of 1048565, without 1: damaged at 1048604; reads 2
payload of 1048568, without 1: damaged at 1048607; reads 3
payload of 1048570, without 8: damaged at 1048609; reads 2
payload of 1500000, without 10: damaged at 34; reads 2
payload of 1048570, fault at call 4: fault behind 1 frame; reads 3
payload of 1500000, fault at call 4: fault behind no frame; reads 3";

#[test]
fn broken_logs_in_pieces(rt: HostRuntime) {
    for line in BROKEN.lines() {
        check_log(&rt, rt.alloc(), line);
    }
}
