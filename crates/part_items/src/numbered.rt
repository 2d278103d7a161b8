//! A log's next frame from bytes, entry by entry: they are numbered on from those before.

ghost use Rattle.std.specs.Prelude.{◌≡◌, ◌<◌, ◌≤◌, [], None, Err, IfOk, OnErr, length};
ghost use Rattle.dura_value.specs.Limits.{number_limit};
ghost use Rattle.dura_codec.specs.Fields.{Takes, fault_in};
ghost use Rattle.log_items.specs.Plain.{entry_of};
ghost use Rattle.part_items.specs.Numbered.{next_of, behind, position_at, incarnation_at, next_entry_at};
ghost use Rattle.part_items.specs.Grammar.{members_at};
ghost use Rattle.part_items.specs.Coming.{TakesFrom, Begins, ReadsNext};

use crate::reading::{at_offset, take_entry_items, take_members};
use commit_log::Payload;
use dura_codec::{FieldError, take_count};
use dura_value::ReadError;
use log_items::Entry;
use std::alloc::Global;
use std::marker::Model;

/// Where a log goes on.
#[derive(Clone, Copy, PartialEq, Eq)]
pub struct Next {
    /// The position of its next entry.
    pub position: u64,
    /// The incarnation of the partition that no entry from there on is before.
    pub incarnation: u64,
}

/// Where a log goes on behind this entry.
fn next_behind(entry: &Entry) -> Next
    requires { entry.now.position < number_limit }
    ensures { next_of result ≡ behind (entry_of entry.now) }
{
    Next {
        position: entry.position + 1,
        incarnation: entry.incarnation,
    }
}

/// the position of the next entry.
#[tactic(auto, unfolding(crate::specs::Numbered::position_at))]
fn take_position(next: Next, bytes: &[u8]) -> Result<(u64, &[u8]), FieldError>
    ensures { Takes (λ n. n) result (position_at (next_of next) bytes.now) }
{
    let (position, rest) = take_count(bytes)?;
    if position != next.position {
        return Err(FieldError::Bad { left: bytes.len() });
    }
    Ok((position, rest))
}

/// The incarnation of the next entry.
#[tactic(auto, unfolding(crate::specs::Numbered::incarnation_at))]
fn take_incarnation(next: Next, bytes: &[u8]) -> Result<(u64, &[u8]), FieldError>
    ensures { Takes (λ n. n) result (incarnation_at (next_of next) bytes.now) }
{
    let (incarnation, rest) = take_count(bytes)?;
    if incarnation < next.incarnation {
        return Err(FieldError::Bad { left: bytes.len() });
    }
    Ok((incarnation, rest))
}

/// The next entry.
#[tactic(auto, unfolding(crate::specs::Numbered::next_entry_at))]
fn take_next_entry(alloc: Global, next: Next, bytes: &[u8]) -> Result<(Entry, &[u8]), FieldError>
    ensures { Takes entry_of result (next_entry_at (next_of next) bytes.now) }
{
    let (position, rest) = take_position(next, bytes)?;
    let (incarnation, rest) = take_incarnation(next, rest)?;
    let (items, rest) = take_entry_items(alloc, rest)?;
    let entry = Entry {
        position,
        incarnation,
        items,
    };
    Ok((entry, rest))
}

/// No entry, where nothing is left of these bytes.
fn nothing_left(rest: &[u8], bytes: &[u8]) -> Result<Option<Entry>, ReadError>
    ensures none { IfOk result (λ entry. (entry ≡ None) × (rest.now ≡ [])) }
    ensures fault { OnErr result ((0 < length rest.now)
        × (result ≡ Err (fault_in bytes.now (FieldError.Bad (length rest.now))))) }
{
    if rest.is_empty() {
        return Ok(None);
    }
    Err(at_offset(FieldError::Bad { left: rest.len() }, bytes))
}

/// How many entries a frame has, by its first bytes, and the offset behind these.
fn members_in(bytes: &[u8]) -> Result<(u16, usize), ReadError>
    ensures { TakesFrom (λ n. n) members_at bytes.now 0 result }
{
    match take_members(bytes) {
        Ok((count, rest)) => Ok((count, bytes.len() - rest.len())),
        Err(error) => Err(at_offset(error, bytes)),
    }
}

/// The next entry, which stands at this offset, and the offset behind it.
fn next_entry_in(
    alloc: Global,
    next: Next,
    bytes: &[u8],
    at: usize,
) -> Result<(Entry, usize), ReadError>
    requires { at ≤ length bytes.now }
    ensures { TakesFrom entry_of (next_entry_at (next_of next)) bytes.now at result }
{
    match take_next_entry(alloc, next, &bytes[at..]) {
        Ok((entry, behind)) => Ok((entry, bytes.len() - behind.len())),
        Err(error) => Err(at_offset(error, bytes)),
    }
}

/// A log's next frame, whose entries are read one after another: memory is the payload and one entry. A contract sees what is still
/// to come.
#[derive(Drop)]
pub struct FrameReader {
    payload: Payload,
    at: usize,
    next: Next,
    left: u16,
}

impl Model for FrameReader {
    ghost use Rattle.std.specs.Prelude.{◌≤◌, length, drop};
    ghost use Rattle.part_items.specs.Numbered.{next_of};
    ghost use Rattle.part_items.specs.Coming.{Coming, to_come};

    ghost Value = { Coming };

    ghost view = { λ r. record {
      next = next_of r.next;
      left = r.left;
      entries = to_come
          (next_of r.next) r.left r.payload (drop r.at r.payload);
    } };

    ghost invariant = { λ r. r.at ≤ length r.payload };
}

impl FrameReader {
    /// Before the entries of the next frame of a log, which this payload is, all of it: they are numbered from this position on,
    /// and of no incarnation before this one.
    pub fn begin(next: Next, payload: Payload) -> Result<FrameReader, ReadError>
        ensures { Begins (next_of next) payload result }
    {
        match members_in(payload.as_bytes()) {
            Ok((left, at)) => Ok(FrameReader {
                payload,
                at,
                next,
                left,
            }),
            Err(error) => Err(error),
        }
    }

    /// Where the log goes on behind the entries so far.
    pub fn place(&self) -> Next
        ensures { next_of result ≡ self.now.next }
    {
        self.next
    }

    /// The next entry, or none behind the last, where the bytes have to end. A fault is told when its entry is read: those before
    /// it were given.
    pub fn next(&mut self, alloc: Global) -> Result<Option<Entry>, ReadError>
        ensures { ReadsNext self.old self.new result }
    {
        let bytes = self.payload.as_bytes();
        if self.left == 0 {
            return nothing_left(&bytes[self.at..], bytes);
        }
        match next_entry_in(alloc, self.next, bytes, self.at) {
            Ok((entry, behind)) => {
                self.next = next_behind(&entry);
                self.left -= 1;
                self.at = behind;
                Ok(Some(entry))
            }
            Err(error) => Err(error),
        }
    }
}
