//! What files are read as, by a line for each offset or range of offsets, and for each change of the example.

use crate::readings::{
    NO_TROUBLE, ONE_FRAME, THREE_FRAMES, Trouble, changed, read_as, site_of, trouble_of,
};
use crate::texts::{numbered, same, text_of};
use site_memory::Kind;
use std::alloc::Global;
use std::process::Abort;

/// Whether an offset is in a range, which is of one, as `byte 33`, or goes from one to another, as `bytes 34 to 37`.
fn is_in(rt: &impl Abort, offset: u64, range: &str) -> bool {
    let (words, last) = numbered(rt, range);
    let first = match words.strip_suffix(" to") {
        Some(front) => numbered(rt, front).1,
        None => last,
    };
    first <= offset && offset <= last
}

/// What the line of the range that has this offset says.
fn line_at<'a>(rt: &impl Abort, lines: &'a str, offset: u64) -> &'a str {
    for line in lines.lines() {
        let (range, wanted) = line.split_once(": ").expect(rt, "a range");
        if is_in(rt, offset, range) {
            return wanted;
        }
    }
    panic!(rt; "no line has {offset}")
}

/// These bytes are read as the line of this offset says.
fn check_offset(
    rt: &impl Abort,
    alloc: Global,
    what: &'static str,
    offset: usize,
    bytes: &[u8],
    lines: &str,
) {
    let offset = offset as u64;
    let case = text_of(rt, alloc, (what, Some(offset)));
    let mut site = site_of(rt, alloc, NO_TROUBLE, Some(bytes));
    let found = text_of(rt, alloc, read_as(alloc, &mut site, 1, bytes));
    same(rt, &case, &found, line_at(rt, lines, offset));
}

/// What three frames are read as where the file has this length.
const FRONTS: &str = "lengths 0 to 1: fresh
length 2: damaged at 2
length 3: damaged at 3
length 4: damaged at 4
length 5: damaged at 5
length 6: damaged at 6
length 7: damaged at 7
length 8: damaged at 8
lengths 9 to 12: damaged at 9
lengths 13 to 16: damaged at 13
lengths 17 to 24: damaged at 17
lengths 25 to 32: damaged at 25
length 33: damaged at 33
lengths 34 to 76: damaged at 34
lengths 77 to 84: damaged at 77
lengths 85 to 89: damaged at 85";

/// What they are read as where the byte at this offset is turned over. Those from 9 to 12 are the partition, which is another's then.
const FLIPS: &str = "byte 0: fresh
byte 1: damaged at 1
byte 2: damaged at 2
byte 3: damaged at 3
byte 4: damaged at 4
byte 5: damaged at 5
byte 6: damaged at 6
byte 7: damaged at 7
byte 8: damaged at 8
bytes 9 to 12: damaged at 9
bytes 13 to 24: 3 frames, gate at 89
byte 25: damaged at 25
bytes 26 to 32: 3 frames, gate at 89
byte 33: no frame, gate at 33
bytes 34 to 37: damaged at 34
bytes 38 to 75: 3 frames, gate at 89
byte 76: 1 frame, gate at 76
bytes 77 to 80: damaged at 77
bytes 81 to 83: 3 frames, gate at 89
byte 84: 2 frames, gate at 84
bytes 85 to 88: damaged at 85
byte 89: 3 frames, gate at 89";

/// What the example's one frame is read as then.
const FLIPS_OF_ONE: &str = "byte 0: fresh
byte 1: damaged at 1
byte 2: damaged at 2
byte 3: damaged at 3
byte 4: damaged at 4
byte 5: damaged at 5
byte 6: damaged at 6
byte 7: damaged at 7
byte 8: damaged at 8
bytes 9 to 12: damaged at 9
bytes 13 to 24: 1 frame, gate at 76
byte 25: damaged at 25
bytes 26 to 32: 1 frame, gate at 76
byte 33: no frame, gate at 33
bytes 34 to 37: damaged at 34
bytes 38 to 76: 1 frame, gate at 76";

#[test]
fn each_prefix_and_each_byte(rt: HostRuntime) {
    let alloc = rt.alloc();
    for offset in 0..90usize {
        let mut bytes = THREE_FRAMES;
        check_offset(&rt, alloc, "length", offset, &bytes[..offset], FRONTS);
        bytes[offset] = !bytes[offset];
        check_offset(&rt, alloc, "byte", offset, &bytes, FLIPS);
    }
}

#[test]
fn each_byte_of_one_frame(rt: HostRuntime) {
    for offset in 0..77usize {
        let mut bytes = ONE_FRAME;
        bytes[offset] = !bytes[offset];
        check_offset(
            &rt,
            rt.alloc(),
            "byte of one frame",
            offset,
            &bytes,
            FLIPS_OF_ONE,
        );
    }
}

/// These bytes are read so where this device call fails, with so many syncs and reads.
fn check_calls(
    rt: &impl Abort,
    alloc: Global,
    case: &str,
    bytes: &[u8],
    trouble: Trouble,
    wanted: &str,
) {
    let mut site = site_of(rt, alloc, trouble, Some(bytes));
    let reading = text_of(rt, alloc, read_as(alloc, &mut site, 1, bytes));
    let syncs = site.calls(Kind::Sync);
    let reads = site.calls(Kind::Read);
    let found = format!(in alloc; "{reading}; syncs {syncs}, reads {reads}").expect(rt, "memory");
    same(rt, case, &found, wanted);
}

/// The example with four other bytes at an offset, what it is read as, and the syncs and reads that this takes. A sync, a length and a
/// read open a log, and one read more gives all that stands behind its header. A length that doesn't fit into the file is refused when
/// its gate is read, and nothing is read behind it.
const READINGS: &str = "C34E4554 at 0: 1 frame, gate at 76; syncs 1, reads 2
004E4554 at 0: fresh; syncs 1, reads 1
174E4554 at 0: fresh; syncs 1, reads 1
00000000 at 33: no frame, gate at 33; syncs 1, reads 2
000001C3 at 73: damaged at 77; syncs 1, reads 2
80000000 at 25: damaged at 25; syncs 1, reads 1
00000025 at 34: 1 frame, gate at 75; syncs 1, reads 2
00000027 at 34: damaged at 34; syncs 1, reads 2
00000000 at 34: 1 frame, gate at 38; syncs 1, reads 2
7F000026 at 34: damaged at 34; syncs 1, reads 2
7FFFFFFF at 34: damaged at 34; syncs 1, reads 2
FFFFFFFF at 34: damaged at 34; syncs 1, reads 2
C34E4554 at 0, fault at call 0: not opened; syncs 1, reads 0
C34E4554 at 0, fault at call 1: not opened; syncs 1, reads 0
C34E4554 at 0, fault at call 2: not opened; syncs 1, reads 1
C34E4554 at 0, fault at call 3: fault behind no frame; syncs 1, reads 2
C34E4554 at 0, fault at call 4: 1 frame, gate at 76; syncs 1, reads 2";

/// Plays a line of changed bytes.
fn check_reading(rt: &impl Abort, alloc: Global, line: &str) {
    let (case, wanted) = line.split_once(": ").expect(rt, "a reading");
    let (change, trouble) = match case.split_once(", ") {
        Some((change, trouble)) => (change, trouble_of(rt, trouble)),
        None => (case, NO_TROUBLE),
    };
    let (put, at) = numbered(rt, change);
    let put = put.strip_suffix(" at").expect(rt, "bytes");
    let put = u32::from_str_radix(put, 16).expect(rt, "bytes");
    check_calls(rt, alloc, case, &changed(at, put), trouble, wanted);
}

#[test]
fn readings(rt: HostRuntime) {
    let alloc = rt.alloc();
    let three = "3 frames, gate at 89; syncs 1, reads 2";
    check_calls(&rt, alloc, "three frames", &THREE_FRAMES, NO_TROUBLE, three);
    for line in READINGS.lines() {
        check_reading(&rt, alloc, line);
    }
}
