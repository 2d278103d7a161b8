// Reading the bytes of a log, in memory.
ghost use Rattle.std.specs.Prelude.{◌≡◌, ◌+◌, ◌++◌, ◌<◌, ◌^◌, Err, IfOk, OnErr, length};
ghost use Rattle.std.specs.Int.{w32, w64, to_be_bytes};
ghost use Rattle.commit_log.specs.Segment.{header_bytes, constant_at, number_at, FitsHeader};
ghost use Rattle.commit_log.specs.Frames.{header_for};
ghost use Rattle.commit_log.specs.Fronts.{FrontGives, SaysGate, SaysHeader};

use crate::frame::OPEN_GATE;
use crate::header::Header;
use crate::reader::{FrameError, OpenError};

/// Where the first gate of a segment stands.
pub(crate) const FIRST_GATE: u64 = 33;

/// The base positions that no header has.
const BASE_LIMIT: u64 = 1 << 63;

/// The name of the format, and its version.
const SIGNATURE: [u8; 8] = *b"NETHLOG\x01";

// Each step of reading gives what it read and the bytes behind it, or the offset of the first byte that is wrong or
// missing.

fn u32_at(at: u64, bytes: &[u8]) -> Result<(u32, &[u8]), u64>
    ensures gives { FrontGives (λ x. (x.0, x.1.now)) result (number_at w32 at bytes.now) }
    ensures spelled { IfOk result (λ x. bytes.now ≡ to_be_bytes w32 x.0 ++ x.1.now) }
    ensures short { OnErr result (length bytes.now < 4) }
{
    if bytes.len() < 4 {
        return Err(at);
    }
    let (front, rest) = bytes.split_at(4);
    let number = u32::from_be_bytes([front[0], front[1], front[2], front[3]]);
    Ok((number, rest))
}

fn u64_at(at: u64, bytes: &[u8]) -> Result<(u64, &[u8]), u64>
    ensures gives { FrontGives (λ x. (x.0, x.1.now)) result (number_at w64 at bytes.now) }
    ensures spelled { IfOk result (λ x. bytes.now ≡ to_be_bytes w64 x.0 ++ x.1.now) }
{
    if bytes.len() < 8 {
        return Err(at);
    }
    let (front, rest) = bytes.split_at(8);
    let number = u64::from_be_bytes([
        front[0], front[1], front[2], front[3], front[4], front[5], front[6], front[7],
    ]);
    Ok((number, rest))
}

fn read_constant<'a>(wanted: &[u8], at: u64, bytes: &'a [u8]) -> Result<&'a [u8], u64>
    requires { at + length wanted.now < 2 ^ 64 }
    ensures gives { FrontGives (λ x. x.now) result (constant_at wanted.now at bytes.now) }
    ensures spelled { IfOk result (λ x. bytes.now ≡ wanted.now ++ x.now) }
{
    let mut at = at;
    let mut rest = bytes;
    for byte in wanted {
        match rest.split_first() {
            Some((first, after)) => {
                if *first != *byte {
                    return Err(at);
                }
                rest = after;
            }
            None => return Err(at),
        }
        at += 1;
    }
    Ok(rest)
}

/// The header of this partition's log.
#[tactic(auto, unfolding(crate::specs::Segment::header_at))]
fn read_header(partition: u32, bytes: &[u8]) -> Result<(Header, &[u8]), u64>
    ensures gives { FrontGives (λ x. (x.0, x.1.now)) result (header_for partition bytes.now) }
    ensures spelled { IfOk result (λ x. bytes.now ≡ header_bytes x.0 ++ x.1.now) }
    ensures fits { IfOk result (λ x. FitsHeader x.0) }
{
    let rest = read_constant(&SIGNATURE, 1, bytes)?;
    let (found, rest) = u32_at(9, rest)?;
    if found != partition {
        return Err(9);
    }
    let (partitions, rest) = u32_at(13, rest)?;
    let (digest, rest) = u64_at(17, rest)?;
    let (base, rest) = u64_at(25, rest)?;
    if base >= BASE_LIMIT {
        return Err(25);
    }
    let header = Header {
        partition,
        partitions,
        digest,
        base,
    };
    Ok((header, rest))
}

/// What the front of a file says: the bytes up to the first gate, or all where there are fewer.
pub(crate) fn parse_front(partition: u32, front: &[u8]) -> Result<Header, OpenError>
    ensures says { SaysHeader partition front.now result }
    ensures no_fault { result ≡ Err OpenError.SiteFault → ⊥ }
{
    match front {
        [OPEN_GATE, behind @ ..] => {
            if behind.is_empty() {
                return Err(OpenError::Fresh);
            }
            match read_header(partition, behind) {
                Ok((header, _)) => Ok(header),
                Err(offset) => Err(OpenError::Damaged { offset }),
            }
        }
        _ => Err(OpenError::Fresh),
    }
}

/// The length of the payload behind a gate, or None where it is closed, by the gate's byte and the four behind it.
#[tactic(auto, unfolding(crate::specs::Segment::frame_at))]
pub(crate) fn parse_gate(gate: u64, front: &[u8]) -> Result<Option<u32>, FrameError>
    requires { gate + 1 < 2 ^ 31 }
    ensures says { SaysGate gate front.now result }
    ensures no_fault { result ≡ Err FrameError.SiteFault → ⊥ }
{
    let (byte, behind) = match front.split_first() {
        Some((byte, behind)) => (*byte, behind),
        None => return Err(FrameError::Damaged { offset: gate }),
    };
    if byte != OPEN_GATE {
        return Ok(None);
    }
    match u32_at(gate + 1, behind) {
        Ok((payload_len, _)) => Ok(Some(payload_len)),
        Err(offset) => Err(FrameError::Damaged { offset }),
    }
}
