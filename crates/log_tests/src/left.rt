//! What the calls of a transcript leave.

use crate::stores::{FILE, HEADER, LINE};
use crate::texts::numbered;
use commit_log::{Next, open_log};
use hub_store::{Ended, Settled};
use site_memory::MemorySite;
use site_model::Site;
use std::alloc::Global;
use std::process::Abort;

/// An empty segment of partition 0 of 1, whose flows file holds `{}`, up to its gate.
const EMPTY: [u8; 33] = [
    0xC3, // the format's gate
    0x4E, 0x45, 0x54, 0x48, 0x4C, 0x4F, 0x47, // NETHLOG
    0x01, // the version
    0x00, 0x00, 0x00, 0x00, // the partition
    0x00, 0x00, 0x00, 0x01, // the partitions
    0x08, 0xF4, 0x4B, 0x07, 0xB5, 0x90, 0x1A, 0x25, // the digest
    0x00, 0x00, 0x00, 0x00, 0x00, 0x00, 0x00, 0x00, // the base position
];

/// The frame of the entry at position 0, from the gate before it on.
const FRAME: [u8; 54] = [
    0xC3, // the gate
    0x00, 0x00, 0x00, 0x31, // the payload's length
    0x00, 0x01, // one entry
    0x00, 0x00, 0x00, 0x00, 0x00, 0x00, 0x00, 0x00, // its position
    0x00, 0x00, 0x00, 0x00, 0x00, 0x00, 0x00, 0x00, // its incarnation
    0x00, 0x01, // one item
    0x25, // a stream is let go
    0x00, 0x00, 0x00, 0x02, // to partition 2
    0x00, 0x00, 0x00, 0x00, 0x00, 0x00, 0x00, 0x05, // before this number
    0x00, 0x00, 0x00, 0x00, 0x00, 0x00, 0x00, 0x03, // the incarnation of the entry that has the one before
    0x00, 0x00, 0x00, 0x00, 0x00, 0x00, 0x00, 0x04, // its position
];

/// Where the last byte of its position stands in it.
const POSITION: usize = 14;

/// A frame like `FRAME`, of the entry at this position.
fn frame_of(position: u8) -> [u8; 54] {
    let mut frame = FRAME;
    frame[POSITION] = position;
    frame
}

/// How many frames the file holds, which are of the entries from position 0 on.
fn frames_in(rt: &impl Abort, alloc: Global, site: &MemorySite) -> u64 {
    let content = site.content(alloc, FILE).expect(rt, "memory");
    let frames = content.len().saturating_sub(EMPTY.len()) / FRAME.len();
    let mut wanted = Vec::from_slice(alloc, &EMPTY).expect(rt, "memory");
    for position in 0..u8::try_from(frames).expect(rt, "few") {
        let frame = frame_of(position);
        wanted.extend_from_slice(&frame).expect(rt, "memory");
    }
    wanted.push(0).expect(rt, "memory");
    assert!(rt; content == wanted);
    frames as u64
}

/// How many frames are read back, which are of the entries from position 0 on.
fn frames_read(rt: &impl Abort, alloc: Global, site: &mut MemorySite) -> u64 {
    let log = open_log(site, FILE, 0).expect(rt, "a log");
    let header = log.header;
    let mut reader = log.frames(alloc);
    for position in 0..9u8 {
        match reader.next(alloc, site).expect(rt, "a frame") {
            Next::Frame(payload, behind) => {
                assert!(rt; payload.as_bytes() == &frame_of(position)[5..]);
                reader = behind;
            }
            Next::End(log) => {
                assert!(rt; header == HEADER && log.gate == 33 + 54 * u64::from(position));
                return u64::from(position);
            }
        }
    }
    panic!(rt; "more frames")
}

/// How many lines were said: the one that can be.
fn lines_said(rt: &impl Abort, alloc: Global, site: &MemorySite) -> u64 {
    let tape = site.tape(alloc).expect(rt, "memory");
    assert!(rt; tape.as_slice() == LINE);
    1
}

/// When the entry at this position was settled, once, in its incarnation.
fn settled_at(rt: &impl Abort, rows: &[Settled], position: usize) -> u64 {
    let row = rows.get(position).expect(rt, "an entry that was settled");
    assert!(rt;
        row.partition == 0
            && row.position == position as u64
            && row.incarnation == 0
            && row.items.as_slice().len() == 1
    );
    row.at
}

/// The number that a line with this word is to have.
fn found_of(
    rt: &impl Abort,
    alloc: Global,
    site: &mut MemorySite,
    rows: &[Settled],
    word: &str,
) -> u64 {
    match word {
        "settled" => rows.len() as u64,
        "first at" => settled_at(rt, rows, 0),
        "second at" => settled_at(rt, rows, 1),
        "disk faults" => site.disk_faults(),
        "say faults" => site.say_faults(),
        "moment" => site.moment(),
        "frames" => frames_in(rt, alloc, site),
        "frames read" => frames_read(rt, alloc, site),
        "lines" => lines_said(rt, alloc, site),
        _ => panic!(rt; "no such word"),
    }
}

/// What each line says is so.
pub(crate) fn check_left(rt: &impl Abort, alloc: Global, ended: Ended<MemorySite>, lines: &str) {
    let Ended { mut site, trail } = ended;
    for line in lines.lines() {
        let (word, number) = numbered(rt, line);
        let found = found_of(rt, alloc, &mut site, trail.as_slice(), word);
        assert!(rt; found == number, "{line}, and not {found}");
    }
    drop(site);
    drop(trail);
}
