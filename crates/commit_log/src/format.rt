// Making a new segment.
ghost use Rattle.std.specs.Prelude.{◌≡◌, ◌⊎◌, ◌≤◌, ◌<◌, ◌^◌, ◌++◌, [], ◌∷◌, ℕ, length, OnOk, IfOk};
ghost use Rattle.site_model.specs.History.{changes_of, content_of, IsKept};
ghost use Rattle.site_model.specs.Calls.{HasCause};
ghost use Rattle.site_model.specs.Moments.{LeavesOnly};
ghost use Rattle.commit_log.specs.declared.header.Header.{Header};
ghost use Rattle.commit_log.specs.Segment.{fresh, reading_of, header_bytes, FitsHeader};
ghost use Rattle.commit_log.specs.States.{IsResting, IsClosing, IsClosed, IsClosedContent, IsHeaded, IsOpening, IsFormatting};
ghost use Rattle.commit_log.specs.Outcomes.{RestsAs};
ghost use Rattle.commit_log.specs.Writing.{WritesSafely};

use crate::frame::{CLOSED_GATE, OPEN_GATE};
use crate::header::Header;
use crate::parse::FIRST_GATE;
use crate::states::Resting;
use site_model::{Failed, Site};

/// The header behind the format's gate, and the first gate, closed.
fn behind_format_gate(header: Header) -> [u8; 33]
    ensures bytes { result ≡ header_bytes header ++ 0 ∷ [] }
    ensures fits { header.base < 2 ^ 63 → FitsHeader header }
{
    let p = header.partition.to_be_bytes();
    let n = header.partitions.to_be_bytes();
    let d = header.digest.to_be_bytes();
    let b = header.base.to_be_bytes();
    [
        b'N',
        b'E',
        b'T',
        b'H',
        b'L',
        b'O',
        b'G',
        1,
        p[0],
        p[1],
        p[2],
        p[3],
        n[0],
        n[1],
        n[2],
        n[3],
        d[0],
        d[1],
        d[2],
        d[3],
        d[4],
        d[5],
        d[6],
        d[7],
        b[0],
        b[1],
        b[2],
        b[3],
        b[4],
        b[5],
        b[6],
        b[7],
        CLOSED_GATE,
    ]
}

/// A write, made safe by a sync.
fn write_safely<V: Site>(site: &mut V, file: u32, at: u64, bytes: &[u8]) -> Result<(), Failed>
    requires { V.tells site.old → at ≤ length (content_of file (V.history site.old)) }
    ensures tells { V.tells site.new → V.tells site.old }
    ensures done { WritesSafely file at bytes.now (V.history site.old) (V.history site.new) result }
    ensures cause { HasCause (V.disk_faults site.old) (V.disk_faults site.new) result }
    ensures say_faults { V.say_faults site.new ≡ V.say_faults site.old }
{
    match site.write(file, at, bytes) {
        Ok(()) => site.sync(file),
        Err(failed) => Err(failed),
    }
}

/// Whether the first of at least two bytes isn't open.
fn is_closed<V: Site>(site: &mut V, file: u32) -> Result<bool, Failed>
    ensures tells { V.tells site.new → V.tells site.old }
    ensures value { V.tells site.new → IfOk result
        (IsClosedContent (content_of file (V.history site.old))) }
    ensures unchanged { V.history site.new ≡ V.history site.old }
    ensures cause { HasCause (V.disk_faults site.old) (V.disk_faults site.new) result }
    ensures say_faults { V.say_faults site.new ≡ V.say_faults site.old }
{
    let length = match site.length(file) {
        Ok(length) => length,
        Err(failed) => return Err(failed),
    };
    if length <= 1 {
        return Ok(false);
    }
    let mut byte = [OPEN_GATE];
    match site.read(file, 0, &mut byte) {
        Ok(count) => Ok(count == 1 && byte[0] != OPEN_GATE),
        Err(failed) => Err(failed),
    }
}

/// Closes the first byte where it isn't closed and stable already, and syncs. Where it is, it isn't written: of a byte
/// that is written again a crash could make an open gate, before whatever stands behind it.
fn close<V: Site>(site: &mut V, file: u32) -> Result<(), Failed>
    ensures tells { V.tells site.new → V.tells site.old }
    ensures during { V.tells site.new → IsKept (changes_of file (V.history site.old))
        → LeavesOnly file (V.history site.old) (V.history site.new)
        (IsClosing (content_of file (V.history site.old))) }
    ensures ok { V.tells site.new → IsKept (changes_of file (V.history site.old))
        → OnOk result (IsClosed (changes_of file (V.history site.new))) }
    ensures long { V.tells site.new → OnOk result
        (1 ≤ length (content_of file (V.history site.new))) }
    ensures cause { HasCause (V.disk_faults site.old) (V.disk_faults site.new) result }
    ensures say_faults { V.say_faults site.new ≡ V.say_faults site.old }
{
    match is_closed(site, file) {
        Ok(true) => site.sync(file),
        Ok(false) => write_safely(site, file, 0, &[CLOSED_GATE]),
        Err(failed) => Err(failed),
    }
}

/// Writes the header behind a closed first byte.
fn write_header<V: Site>(site: &mut V, file: u32, header: Header) -> Result<(), Failed>
    requires long { V.tells site.old → 1 ≤ length (content_of file (V.history site.old)) }
    requires base { header.base < 2 ^ 63 }
    ensures tells { V.tells site.new → V.tells site.old }
    ensures during { IsClosed (changes_of file (V.history site.old))
        → LeavesOnly file (V.history site.old) (V.history site.new)
        (λ image. reading_of image ≡ fresh) }
    ensures ok { IsClosed (changes_of file (V.history site.old))
        → OnOk result (IsHeaded (changes_of file (V.history site.new)) header) }
    ensures cause { HasCause (V.disk_faults site.old) (V.disk_faults site.new) result }
    ensures say_faults { V.say_faults site.new ≡ V.say_faults site.old }
{
    let bytes = behind_format_gate(header);
    write_safely(site, file, 1, &bytes)
}

/// Opens the first byte before a whole header.
fn open<V: Site>(site: &mut V, file: u32) -> Result<(), Failed>
    ensures tells { V.tells site.new → V.tells site.old }
    ensures during { (h : Header) → IsHeaded (changes_of file (V.history site.old)) h
        → LeavesOnly file (V.history site.old) (V.history site.new) (IsOpening h) }
    ensures ok { (h : Header) → IsHeaded (changes_of file (V.history site.old)) h
        → OnOk result (IsResting (changes_of file (V.history site.new)) h [] FIRST_GATE) }
    ensures cause { HasCause (V.disk_faults site.old) (V.disk_faults site.new) result }
    ensures say_faults { V.say_faults site.new ≡ V.say_faults site.old }
{
    write_safely(site, file, 0, &[OPEN_GATE])
}

impl Resting {
    /// Makes a segment with this header and no frame in a file that has no write since its last sync. What the file
    /// held counts no more from the moment on at which its first byte is closed.
    pub fn format<V: Site>(site: &mut V, file: u32, header: Header) -> Result<Resting, Failed>
        requires { header.base < 2 ^ 63 }
        ensures tells { V.tells site.new → V.tells site.old }
        ensures during { V.tells site.new → IsKept (changes_of file (V.history site.old))
            → LeavesOnly file (V.history site.old) (V.history site.new)
            (IsFormatting (content_of file (V.history site.old)) header) }
        ensures ok { V.tells site.new → IsKept (changes_of file (V.history site.old))
            → IfOk result (RestsAs (V.history site.new) header []) }
        ensures place { IfOk result (λ log. (log.file ≡ file) × (log.gate ≡ FIRST_GATE)) }
        ensures cause { HasCause (V.disk_faults site.old) (V.disk_faults site.new) result }
        ensures say_faults { V.say_faults site.new ≡ V.say_faults site.old }
    {
        close(site, file)?;
        write_header(site, file, header)?;
        open(site, file)?;
        Ok(Resting {
            file,
            gate: FIRST_GATE,
        })
    }
}
