// What a whole record says: how many steps, the tape, the content of a file.
ghost use Rattle.std.specs.Prelude.{◌≡◌, ◌==◌, if◌then◌else◌, ◌+◌, ◌≤◌, List, length, IfOk, OnOk};
ghost use Rattle.site_model.specs.History.{Step, changes_of, content_of, tape};
ghost use Rattle.site_memory.specs.Record.{history_of, next};

use crate::Kept;
use crate::replay::replay;
use std::alloc::{AllocError, Global};

pub(crate) fn count_steps(kept: &[Kept]) -> u64
    ensures { result ≡ length (history_of kept.now) }
{
    let mut steps = 0;
    for entry in kept {
        steps += steps_in(*entry);
    }
    steps
}

pub(crate) fn steps_in(entry: Kept) -> u64
    ensures steps { (steps : List Step) → length (next entry steps) ≡ length steps + result }
    ensures bound { result ≤ 1 }
{
    match entry {
        Kept::Byte(_) => 0,
        Kept::Wrote { .. } => 1,
        Kept::Synced { .. } => 1,
        Kept::Said(_) => 1,
    }
}

// How many changes of the file the entries are.
pub(crate) fn count_changes(kept: &[Kept], file: u32) -> u64
    ensures { result ≡ length (changes_of file (history_of kept.now)) }
{
    let mut changes = 0;
    for entry in kept {
        changes += changes_in(*entry, file);
    }
    changes
}

fn changes_in(entry: Kept, file: u32) -> u64
    ensures changes { (steps : List Step) → length (changes_of file (next entry steps))
        ≡ length (changes_of file steps) + result }
    ensures bound { result ≤ 1 }
{
    match entry {
        Kept::Wrote { file: other, .. } => one_if_same(file, other),
        Kept::Synced { file: other } => one_if_same(file, other),
        Kept::Byte(_) => 0,
        Kept::Said(_) => 0,
    }
}

fn one_if_same(file: u32, other: u32) -> u64
    ensures { result ≡ (if file == other then 1 else 0) }
{
    if file == other { 1 } else { 0 }
}

pub(crate) fn tape_in(alloc: Global, kept: &[Kept]) -> Result<Vec<u8>, AllocError>
    ensures { IfOk result (λ bytes. bytes.items ≡ tape (history_of kept.now)) }
{
    let mut bytes = Vec::new(alloc);
    for entry in kept {
        push_said(&mut bytes, *entry)?;
    }
    Ok(bytes)
}

fn push_said(bytes: &mut Vec<u8>, entry: Kept) -> Result<(), AllocError>
    ensures { OnOk result ((steps : List Step) → bytes.old.items ≡ tape steps
        → bytes.new.items ≡ tape (next entry steps)) }
{
    match entry {
        Kept::Said(byte) => {
            bytes.push(byte)?;
            Ok(())
        }
        Kept::Byte(_) => Ok(()),
        Kept::Wrote { .. } => Ok(()),
        Kept::Synced { .. } => Ok(()),
    }
}

pub(crate) fn content_in(alloc: Global, kept: &[Kept], file: u32) -> Result<Vec<u8>, AllocError>
    ensures { IfOk result (λ bytes. bytes.items ≡ content_of file (history_of kept.now)) }
{
    let length = replay(kept, file, 0, &mut []);
    let mut bytes = vec![in alloc; 0u8; length as usize]?;
    replay(kept, file, 0, &mut bytes);
    Ok(bytes)
}
