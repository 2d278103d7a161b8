//! A frame as it is, cut short, with a byte changed, and as a log's next one. The answers of the tables were made by
//! tools/frame-table, which reads by the grammar of docs/FORMAT.md and shares no code with the crates.

use commit_log::Payload;
use dura_value::ReadError;
use log_items::Frame;
use part_items::{FrameReader, Next, read_frame};
use std::alloc::Global;
use std::process::Abort;

/// Client a's request 1, which starts Sum/x with null, as the one item of the first entry, of incarnation 0.
pub(crate) const EXAMPLE: [u8; 38] = [
    0x00, 0x01, // one entry
    0x00, 0x00, 0x00, 0x00, 0x00, 0x00, 0x00, 0x00, // its position
    0x00, 0x00, 0x00, 0x00, 0x00, 0x00, 0x00, 0x00, // its incarnation
    0x00, 0x01, // one item
    0x20, // a message that was taken
    0x03, 0x01, 0x61, // from the client a
    0x01, 0x03, 0x53, 0x75, 0x6D, 0x01, 0x78, // to Sum/x
    0x10, 0x00, // start with null
    0x02, 0x00, 0x00, 0x00, 0x01, // and answer request 1
];

/// Where the fault is of each front, from the empty one on. The whole has none.
const FRONTS: [usize; 38] = [
    0, 0, 2, 2, 2, 2, 2, 2, 2, 2, 10, 10, 10, 10, 10, 10, 10, 10, 18, 18, 20, 21, 22, 23, 24, 25,
    26, 26, 26, 29, 30, 31, 32, 33, 34, 34, 34, 34,
];

/// Where the fault is with a byte changed to 0, to 255, to one more and with its highest bit turned; none where it is a frame.
const CHANGED: [[Option<usize>; 4]; 38] = [
    [None, Some(0), Some(0), Some(0)], // 0: 00
    [Some(0), Some(0), Some(38), Some(0)], // 1: 01
    [None, Some(2), None, Some(2)], // 2: 00
    [None, None, None, None], // 3: 00
    [None, None, None, None], // 4: 00
    [None, None, None, None], // 5: 00
    [None, None, None, None], // 6: 00
    [None, None, None, None], // 7: 00
    [None, None, None, None], // 8: 00
    [None, None, None, None], // 9: 00
    [None, Some(10), None, Some(10)], // 10: 00
    [None, None, None, None], // 11: 00
    [None, None, None, None], // 12: 00
    [None, None, None, None], // 13: 00
    [None, None, None, None], // 14: 00
    [None, None, None, None], // 15: 00
    [None, None, None, None], // 16: 00
    [None, None, None, None], // 17: 00
    [None, Some(18), Some(18), Some(18)], // 18: 00
    [Some(18), Some(18), Some(38), Some(18)], // 19: 01
    [Some(20), Some(20), Some(33), Some(20)], // 20: 20
    [Some(21), Some(21), Some(21), Some(21)], // 21: 03
    [Some(22), Some(22), Some(23), Some(22)], // 22: 01
    [Some(23), Some(23), None, Some(23)], // 23: 61
    [Some(24), Some(24), None, Some(24)], // 24: 01
    [Some(25), Some(25), Some(26), Some(25)], // 25: 03
    [Some(26), Some(26), None, Some(26)], // 26: 53
    [Some(26), Some(26), None, Some(26)], // 27: 75
    [Some(26), Some(26), None, Some(26)], // 28: 6D
    [Some(29), Some(29), Some(30), Some(29)], // 29: 01
    [Some(30), Some(30), None, Some(30)], // 30: 78
    [Some(31), Some(31), Some(32), Some(31)], // 31: 10
    [None, Some(32), None, Some(32)], // 32: 00
    [Some(34), Some(33), Some(33), Some(33)], // 33: 02
    [None, None, None, None], // 34: 00
    [None, None, None, None], // 35: 00
    [None, None, None, None], // 36: 00
    [Some(34), None, None, None], // 37: 01
];

/// Where this fault is.
fn offset_of(rt: &impl Abort, error: ReadError) -> usize {
    match error {
        ReadError::Bad { offset } => offset,
        ReadError::Memory => panic!(rt; "memory"),
    }
}

/// Where the fault is, or none of a frame.
fn fault_in(rt: &impl Abort, read: Result<Frame, ReadError>) -> Option<usize> {
    match read {
        Ok(frame) => {
            frame.let_go();
            None
        }
        Err(error) => Some(offset_of(rt, error)),
    }
}

/// Where the fault is of a log's next frame, or none of one that is read to its end.
fn next_fault_in(rt: &impl Abort, alloc: Global, next: Next, bytes: &[u8]) -> Option<usize> {
    let payload = Payload::copy_of(alloc, bytes).expect(rt, "memory");
    let mut frame = match FrameReader::begin(next, payload) {
        Ok(frame) => frame,
        Err(error) => return Some(offset_of(rt, error)),
    };
    for _ in 0..65 {
        match frame.next(alloc) {
            Ok(Some(entry)) => entry.let_go(),
            Ok(None) => return None,
            Err(error) => return Some(offset_of(rt, error)),
        }
    }
    panic!(rt; "more than 64 entries")
}

/// These bytes are a frame, or have a fault there.
fn check(rt: &impl Abort, alloc: Global, bytes: &[u8], fault: Option<usize>) {
    assert!(rt; fault_in(rt, read_frame(alloc, bytes)) == fault);
}

#[test]
fn fronts(rt: HostRuntime) {
    for (size, fault) in FRONTS.iter().enumerate() {
        assert!(rt; size < EXAMPLE.len());
        check(&rt, rt.alloc(), &EXAMPLE[..size], Some(*fault));
    }
    check(&rt, rt.alloc(), &EXAMPLE, None);
}

/// The example with the byte at this place changed.
fn check_changed(rt: &impl Abort, alloc: Global, at: usize, byte: u8, fault: Option<usize>) {
    let mut bytes = EXAMPLE;
    assert!(rt; at < bytes.len());
    bytes[at] = byte;
    check(rt, alloc, &bytes, fault);
}

#[test]
fn changed_bytes(rt: HostRuntime) {
    let alloc = rt.alloc();
    for (at, faults) in CHANGED.iter().enumerate() {
        assert!(rt; at < EXAMPLE.len());
        let byte = EXAMPLE[at];
        check_changed(&rt, alloc, at, 0, faults[0]);
        check_changed(&rt, alloc, at, 255, faults[1]);
        check_changed(&rt, alloc, at, byte.wrapping_add(1), faults[2]);
        check_changed(&rt, alloc, at, byte ^ 0x80, faults[3]);
    }
}

/// The example as the next frame of a log that goes on at this place, in this incarnation.
fn check_next(
    rt: &impl Abort,
    alloc: Global,
    position: u64,
    incarnation: u64,
    fault: Option<usize>,
) {
    let next = Next {
        position,
        incarnation,
    };
    assert!(rt; next_fault_in(rt, alloc, next, &EXAMPLE) == fault);
}

#[test]
fn next_frames(rt: HostRuntime) {
    let alloc = rt.alloc();
    check_next(&rt, alloc, 0, 0, None);
    check_next(&rt, alloc, 1, 0, Some(2));
    check_next(&rt, alloc, 0, 1, Some(10));
    let first = Next {
        position: 0,
        incarnation: 0,
    };
    for (size, fault) in FRONTS.iter().enumerate() {
        assert!(rt; size < EXAMPLE.len());
        assert!(rt; next_fault_in(&rt, alloc, first, &EXAMPLE[..size]) == Some(*fault));
    }
}
