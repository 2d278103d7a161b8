// The record of what was kept, with the room that is left for more.
ghost use Rattle.std.specs.Prelude.{◌≡◌, true, ◌⊎◌, ◌+◌, ◌<◌, ◌≤◌, ℕ, List, [], ◌∷◌, length, IfOk, OnOk, OnErr, vec_len, vec_capacity};
ghost use Rattle.std.proofs.Props.{props};
ghost use Rattle.site_model.specs.History.{Step, on, wrote, synced, changes_of, content_of, writes_inside, saying, AllInside};
ghost use Rattle.site_memory.specs.Record.{history_of};

use crate::Kept;
use site_model::Failed;
use std::alloc::{AllocError, Global};

#[derive(Drop)]
pub(crate) struct Record {
    pub(crate) kept: Vec<Kept>,
    // Room for so many more bytes and so many more calls.
    pub(crate) bytes: u64,
    pub(crate) calls: u64,
    ghost room: { vec_len kept + bytes + calls ≤ vec_capacity kept },
    ghost inside: { (file : ℕ) → writes_inside (changes_of file (history_of kept.items)) ≡ true } by { Prim.hlevel props },
}

impl Record {
    pub(crate) fn new(alloc: Global, bytes: u64, calls: u64) -> Result<Record, AllocError>
        ensures history { IfOk result (λ made. history_of made.kept.items ≡ []) }
        ensures bytes { IfOk result (λ made. made.bytes ≡ bytes) }
        ensures calls { IfOk result (λ made. made.calls ≡ calls) }
    {
        let Some(room) = bytes.checked_add(calls) else {
            return Err(AllocError);
        };
        let kept = Vec::with_capacity(alloc, room as usize)?;
        Ok(Record { kept, bytes, calls })
    }

    /// The record of these entries, with as much room behind them.
    pub(crate) fn behind(mut kept: Vec<Kept>, bytes: u64, calls: u64) -> Result<Record, AllocError>
        requires { AllInside (history_of kept.items) }
        ensures history { IfOk result (λ made. history_of made.kept.items ≡ history_of kept.items) }
        ensures bytes { IfOk result (λ made. made.bytes ≡ bytes) }
        ensures calls { IfOk result (λ made. made.calls ≡ calls) }
    {
        let Some(room) = bytes.checked_add(calls) else {
            return Err(AllocError);
        };
        kept.reserve(room as usize)?;
        Ok(Record { kept, bytes, calls })
    }

    /// Err only without room.
    pub(crate) fn write(&mut self, file: u32, at: u64, bytes: &[u8]) -> Result<(), Failed>
        requires { at ≤ length (content_of file (history_of self.old.kept.items)) }
        ensures kept { OnOk result (history_of self.new.kept.items
            ≡ on file (wrote at (length bytes.now) bytes.now) ∷ history_of self.old.kept.items) }
        ensures either { (history_of self.new.kept.items
            ≡ on file (wrote at (length bytes.now) bytes.now) ∷ history_of self.old.kept.items)
            ⊎ (history_of self.new.kept.items ≡ history_of self.old.kept.items) }
        ensures room { OnOk result ((self.new.bytes + length bytes.now ≡ self.old.bytes)
            × (self.new.calls + 1 ≡ self.old.calls)) }
        ensures unchanged { OnErr result (self.new ≡ self.old) }
        ensures no_room { OnErr result ((self.old.bytes < length bytes.now)
            ⊎ (self.old.calls ≡ 0)) }
    {
        if self.bytes < bytes.len() as u64 || self.calls == 0 {
            return Err(Failed);
        }
        keep_write(&mut self.kept, file, at, bytes);
        self.bytes -= bytes.len() as u64;
        self.calls -= 1;
        Ok(())
    }

    /// Writes and syncs, or Err without room for both.
    pub(crate) fn prepare(&mut self, file: u32, at: u64, bytes: &[u8]) -> Result<(), Failed>
        requires { at ≤ length (content_of file (history_of self.old.kept.items)) }
        ensures kept { OnOk result (history_of self.new.kept.items
            ≡ on file synced ∷ on file (wrote at (length bytes.now) bytes.now)
            ∷ history_of self.old.kept.items) }
        ensures room { OnOk result ((self.new.bytes + length bytes.now ≡ self.old.bytes)
            × (self.new.calls + 2 ≡ self.old.calls)) }
        ensures unchanged { OnErr result (self.new ≡ self.old) }
        ensures no_room { OnErr result ((self.old.bytes < length bytes.now)
            ⊎ (self.old.calls < 2)) }
    {
        if self.calls < 2 {
            return Err(Failed);
        }
        match self.write(file, at, bytes) {
            Ok(()) => self.sync_with_room(file),
            Err(failed) => return Err(failed),
        }
        Ok(())
    }

    /// Err only without room.
    pub(crate) fn sync(&mut self, file: u32) -> Result<(), Failed>
        ensures kept { OnOk result (history_of self.new.kept.items
            ≡ on file synced ∷ history_of self.old.kept.items) }
        ensures room { OnOk result ((self.new.bytes ≡ self.old.bytes)
            × (self.new.calls + 1 ≡ self.old.calls)) }
        ensures unchanged { OnErr result (self.new ≡ self.old) }
        ensures no_room { OnErr result (self.old.calls ≡ 0) }
    {
        if self.calls == 0 {
            return Err(Failed);
        }
        self.sync_with_room(file);
        Ok(())
    }

    fn sync_with_room(&mut self, file: u32)
        requires { 0 < self.old.calls }
        ensures kept { history_of self.new.kept.items
            ≡ on file synced ∷ history_of self.old.kept.items }
        ensures bytes { self.new.bytes ≡ self.old.bytes }
        ensures calls { self.new.calls + 1 ≡ self.old.calls }
    {
        self.kept.push_reserved(Kept::Synced { file });
        self.calls -= 1;
    }

    /// Err only without room.
    pub(crate) fn say(&mut self, line: &[u8]) -> Result<(), Failed>
        ensures kept { OnOk result (history_of self.new.kept.items
            ≡ saying line.now (history_of self.old.kept.items)) }
        ensures room { OnOk result ((self.new.bytes + length line.now ≡ self.old.bytes)
            × (self.new.calls + 1 ≡ self.old.calls)) }
        ensures unchanged { OnErr result (self.new ≡ self.old) }
        ensures no_room { OnErr result ((self.old.bytes < length line.now) ⊎ (self.old.calls ≡ 0)) }
    {
        if self.bytes < line.len() as u64 || self.calls == 0 {
            return Err(Failed);
        }
        keep_line(&mut self.kept, line);
        self.bytes -= line.len() as u64;
        self.calls -= 1;
        Ok(())
    }
}

pub(crate) fn keep_write(kept: &mut Vec<Kept>, file: u32, at: u64, bytes: &[u8])
    requires { vec_len kept.old + length bytes.now + 1 ≤ vec_capacity kept.old }
    ensures history { history_of kept.new.items
        ≡ on file (wrote at (length bytes.now) bytes.now) ∷ history_of kept.old.items }
    ensures len { vec_len kept.new ≡ vec_len kept.old + length bytes.now + 1 }
    ensures capacity { vec_capacity kept.new ≡ vec_capacity kept.old }
{
    kept.push_reserved(Kept::Wrote {
        file,
        at,
        size: bytes.len() as u64,
    });
    for byte in bytes {
        kept.push_reserved(Kept::Byte(*byte));
    }
}

pub(crate) fn keep_line(kept: &mut Vec<Kept>, line: &[u8])
    requires { vec_len kept.old + length line.now ≤ vec_capacity kept.old }
    ensures history { history_of kept.new.items ≡ saying line.now (history_of kept.old.items) }
    ensures len { vec_len kept.new ≡ vec_len kept.old + length line.now }
    ensures capacity { vec_capacity kept.new ≡ vec_capacity kept.old }
{
    for byte in line {
        kept.push_reserved(Kept::Said(*byte));
    }
}
