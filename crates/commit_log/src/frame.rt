// A frame in memory, as one write puts it on the disk.
ghost use Rattle.std.specs.Prelude.{◌≡◌, ◌<◌, ◌^◌, ◌++◌, [], ◌∷◌, length, IfOk};
ghost use Rattle.commit_log.specs.Segment.{framed};

use std::alloc::{AllocError, Global};

/// The byte of an open gate.
pub(crate) const OPEN_GATE: u8 = 0xC3;

/// The byte that a closed gate is written as.
pub(crate) const CLOSED_GATE: u8 = 0;

/// The length, the payload, and a closed gate.
pub(crate) fn behind_gate(alloc: Global, payload: &[u8]) -> Result<Vec<u8>, AllocError>
    requires { length payload.now < 2 ^ 31 }
    ensures { IfOk result (λ v. v.items ≡ framed payload.now ++ 0 ∷ []) }
{
    let mut bytes = Vec::with_capacity(alloc, payload.len() + 5)?;
    let size = payload.len() as u32;
    bytes.extend_from_slice(&size.to_be_bytes())?;
    bytes.extend_from_slice(payload)?;
    bytes.push(CLOSED_GATE)?;
    Ok(bytes)
}
