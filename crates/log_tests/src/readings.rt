//! Segments, and what they are read as.

use crate::texts::{Told, numbered};
use commit_log::{FrameError, Header, LogReader, Next, OpenError, open_log};
use site_memory::{Kind, MemorySite};
use std::alloc::Global;
use std::process::Abort;

/// The segment with the example's frame, which is client a's request 1: it starts Sum/x with null.
pub(crate) const ONE_FRAME: [u8; 77] = [
    0xC3, // the format's gate
    0x4E, 0x45, 0x54, 0x48, 0x4C, 0x4F, 0x47, // NETHLOG
    0x01, // the version
    0x00, 0x00, 0x00, 0x00, // the partition
    0x00, 0x00, 0x00, 0x01, // the partitions
    0x08, 0xF4, 0x4B, 0x07, 0xB5, 0x90, 0x1A, 0x25, // the digest, of the flows file `{}`
    0x00, 0x00, 0x00, 0x00, 0x00, 0x00, 0x00, 0x00, // the base position
    0xC3, // the first gate
    0x00, 0x00, 0x00, 0x26, // the payload's length
    0x00, 0x01, // the payload: one entry
    0x00, 0x00, 0x00, 0x00, 0x00, 0x00, 0x00, 0x00, // its position
    0x00, 0x00, 0x00, 0x00, 0x00, 0x00, 0x00, 0x00, // its incarnation
    0x00, 0x01, // one item
    0x20, // a message
    0x03, 0x01, 0x61, // from the client a
    0x01, 0x03, 0x53, 0x75, 0x6D, 0x01, 0x78, // to Sum/x
    0x10, 0x00, // start with null
    0x02, 0x00, 0x00, 0x00, 0x01, // and answer request 1
    0x00, // the next gate
];

/// The example with four other bytes at this offset.
pub(crate) fn changed(at: u64, put: u32) -> [u8; 77] {
    let mut bytes = ONE_FRAME;
    let at = at.min(73) as usize;
    bytes[at..at + 4].copy_from_slice(&put.to_be_bytes());
    bytes
}

/// The segment with the example's frame, with `NEXT`, and with an empty payload.
pub(crate) const THREE_FRAMES: [u8; 90] = [
    0xC3, 0x4E, 0x45, 0x54, 0x48, 0x4C, 0x4F, 0x47, 0x01, 0x00, 0x00, 0x00, 0x00, 0x00, 0x00, 0x00,
    0x01, 0x08, 0xF4, 0x4B, 0x07, 0xB5, 0x90, 0x1A, 0x25, 0x00, 0x00, 0x00, 0x00, 0x00, 0x00, 0x00,
    0x00, // the header
    0xC3, 0x00, 0x00, 0x00, 0x26, 0x00, 0x01, 0x00, 0x00, 0x00, 0x00, 0x00, 0x00, 0x00, 0x00, 0x00,
    0x00, 0x00, 0x00, 0x00, 0x00, 0x00, 0x00, 0x00, 0x01, 0x20, 0x03, 0x01, 0x61, 0x01, 0x03, 0x53,
    0x75, 0x6D, 0x01, 0x78, 0x10, 0x00, 0x02, 0x00, 0x00, 0x00, 0x01, // the example's frame
    0xC3, 0x00, 0x00, 0x00, 0x03, 0xC3, 0x00, 0xC3, // that of `NEXT`
    0xC3, 0x00, 0x00, 0x00, 0x00, // an empty one
    0x00, // the last gate
];

/// The payload of the example's frame.
pub(crate) const PAYLOAD: [u8; 38] = [
    0x00, 0x01, 0x00, 0x00, 0x00, 0x00, 0x00, 0x00, 0x00, 0x00, 0x00, 0x00, 0x00, 0x00, 0x00, 0x00,
    0x00, 0x00, 0x00, 0x01, 0x20, 0x03, 0x01, 0x61, 0x01, 0x03, 0x53, 0x75, 0x6D, 0x01, 0x78, 0x10,
    0x00, 0x02, 0x00, 0x00, 0x00, 0x01,
];

/// The payload of a second frame.
pub(crate) const NEXT: [u8; 3] = [0xC3, 0x00, 0xC3];

/// The room of a site, and the device call that fails, counted from 0.
pub(crate) type Trouble = (u64, u64);

/// Room for more bytes than these tests write.
const ROOM: u64 = 1000;

/// The number of no device call.
const NEVER: u64 = 1000;

pub(crate) const NO_TROUBLE: Trouble = (ROOM, NEVER);

/// What trouble these words tell of.
pub(crate) fn trouble_of(rt: &impl Abort, words: &str) -> Trouble {
    let (kind, number) = numbered(rt, words);
    match kind {
        "room for" => (number, NEVER),
        "fault at call" => (ROOM, number),
        _ => panic!(rt; "no such trouble"),
    }
}

/// An answer that doesn't belong here, and a header or a frame that doesn't stand so in the file.
const OTHER: Told = ("something else", None);

/// A site with this trouble, whose file 1 holds these bytes if it is made.
pub(crate) fn site_of(
    rt: &impl Abort,
    alloc: Global,
    trouble: Trouble,
    bytes: Option<&[u8]>,
) -> MemorySite {
    let (room, call) = trouble;
    let fails = vec![in alloc; (Kind::Device, call)].expect(rt, "memory");
    let mut site = MemorySite::new(alloc, room, 40, fails).expect(rt, "memory");
    if let Some(bytes) = bytes {
        site.prepare(1, 0, bytes).expect(rt, "room");
    }
    site
}

/// The number that these bytes spell.
fn number(bytes: &[u8]) -> u64 {
    let mut number = 0u64;
    for byte in bytes {
        number = number << 8 | *byte as u64;
    }
    number
}

/// Whether these bytes begin with the header.
fn has_header(bytes: &[u8], header: Header) -> bool {
    bytes.len() >= 33
        && bytes.starts_with(b"\xC3NETHLOG\x01")
        && number(&bytes[9..17]) == (header.partition as u64) << 32 | header.partitions as u64
        && number(&bytes[17..25]) == header.digest
        && number(&bytes[25..33]) == header.base
}

/// Whether an open gate stands here, and behind it a frame with this payload.
fn has_frame(bytes: &[u8], gate: u64, payload: &[u8]) -> bool {
    let rest = bytes.get(gate as usize..).unwrap_or(&[]);
    rest.len() >= 5
        && number(&rest[..5]) == (payload.len() as u64).wrapping_add(0xC3_0000_0000)
        && rest[5..].starts_with(payload)
}

/// What a log with so many frames is read as, in front of where its closed gate stands.
fn log_of(frames: u64) -> &'static str {
    match frames {
        0 => "no frame, gate at",
        1 => "1 frame, gate at",
        2 => "2 frames, gate at",
        3 => "3 frames, gate at",
        _ => "more frames, gate at",
    }
}

/// What is read where a device call fails behind so many frames.
fn fault_behind(frames: u64) -> &'static str {
    match frames {
        0 => "fault behind no frame",
        1 => "fault behind 1 frame",
        _ => "fault behind more frames",
    }
}

/// The reader behind the next frame, or what the file of these bytes is read as, where so many frames stand before.
fn step(
    alloc: Global,
    site: &mut MemorySite,
    reader: LogReader,
    bytes: &[u8],
    frames: u64,
) -> Result<LogReader, Told> {
    let file = reader.file;
    let gate = reader.gate;
    match reader.next(alloc, site) {
        Ok(Next::Frame(payload, next)) => {
            if has_frame(bytes, gate, payload.as_bytes()) {
                Ok(next)
            } else {
                Err(OTHER)
            }
        }
        Ok(Next::End(log)) => {
            if log.file == file {
                Err((log_of(frames), Some(log.gate)))
            } else {
                Err(OTHER)
            }
        }
        Err(FrameError::Damaged { offset }) => Err(("damaged at", Some(offset))),
        Err(FrameError::SiteFault) => Err((fault_behind(frames), None)),
        Err(FrameError::Memory) => Err(OTHER),
    }
}

/// What this file, of these bytes, is read as by partition 0.
pub(crate) fn read_as(alloc: Global, site: &mut MemorySite, file: u32, bytes: &[u8]) -> Told {
    let log = match open_log(site, file, 0) {
        Ok(log) => log,
        Err(OpenError::Fresh) => return ("fresh", None),
        Err(OpenError::Damaged { offset }) => return ("damaged at", Some(offset)),
        Err(OpenError::SiteFault) => return ("not opened", None),
    };
    if log.file != file || !has_header(bytes, log.header) {
        return OTHER;
    }
    let mut reader = log.frames(alloc);
    for frames in 0..9u64 {
        match step(alloc, site, reader, bytes, frames) {
            Ok(next) => reader = next,
            Err(told) => return told,
        }
    }
    OTHER
}
