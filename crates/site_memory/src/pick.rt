// What a crash leaves of one file.
ghost use Rattle.std.specs.Prelude.{◌≡◌, ◌⊎◌, ◌≤◌, ◌<◌, ℕ, length, IfOk, OnOk, slice_index};
ghost use Rattle.site_model.specs.History.{changes_of};
ghost use Rattle.site_memory.specs.Picked.{filled, after_write, torn, picked};
ghost use Rattle.site_memory.specs.Record.{history_of, next};

use crate::Kept;
use crate::walks::content_in;
use std::alloc::{AllocError, Global};

/// Which of the images that a crash may leave. They differ in the ranges that were written and not synced.
#[derive(Clone, Copy, PartialEq, Eq)]
pub enum Pick {
    /// The old bytes and the old length.
    Stable,
    /// What was written.
    All,
    /// This byte throughout, and the new length.
    Torn(u8),
}

/// What the pick leaves of one file.
pub(crate) fn picked_in(
    alloc: Global,
    kept: &[Kept],
    file: u32,
    pick: Pick,
) -> Result<Vec<u8>, AllocError>
    ensures { IfOk result (λ bytes. bytes.items
        ≡ picked pick (changes_of file (history_of kept.now))) }
{
    match pick {
        Pick::All => {
            let bytes = content_in(alloc, kept, file)?;
            Ok(bytes)
        }
        Pick::Stable => {
            let bytes = torn_in(alloc, kept, file, None)?;
            Ok(bytes)
        }
        Pick::Torn(byte) => {
            let bytes = torn_in(alloc, kept, file, Some(byte))?;
            Ok(bytes)
        }
    }
}

fn torn_in(alloc: Global, kept: &[Kept], file: u32, fill: Option<u8>) -> Result<Vec<u8>, AllocError>
    ensures { IfOk result (λ bytes. bytes.items
        ≡ torn fill (changes_of file (history_of kept.now))) }
{
    let mut image = Vec::new(alloc);
    for (i, entry) in kept.iter().enumerate() {
        leave(alloc, &mut image, &kept[..i], *entry, file, fill)?;
    }
    Ok(image)
}

// The same after one more entry.
fn leave(
    alloc: Global,
    image: &mut Vec<u8>,
    before: &[Kept],
    entry: Kept,
    file: u32,
    fill: Option<u8>,
) -> Result<(), AllocError>
    ensures { OnOk result (image.old.items ≡ torn fill (changes_of file (history_of before.now))
        → image.new.items ≡ torn fill (changes_of file (next entry (history_of before.now)))) }
{
    match entry {
        Kept::Wrote {
            file: other,
            at,
            size,
        } => {
            if other != file {
                return Ok(());
            }
            tear(image, at, size, fill)?;
            Ok(())
        }
        Kept::Synced { file: other } => {
            if other != file {
                return Ok(());
            }
            *image = content_in(alloc, before, file)?;
            Ok(())
        }
        Kept::Byte(_) => Ok(()),
        Kept::Said(_) => Ok(()),
    }
}

// The range that was written, with its bytes filled, or as it was.
fn tear(image: &mut Vec<u8>, at: u64, size: u64, fill: Option<u8>) -> Result<(), AllocError>
    ensures { OnOk result (image.new.items ≡ after_write fill at size image.old.items) }
{
    let Some(byte) = fill else {
        return Ok(());
    };
    let Some(end) = at.checked_add(size) else {
        return Err(AllocError);
    };
    fill_range(image, at, end, byte)?;
    Ok(())
}

fn fill_range(image: &mut Vec<u8>, at: u64, end: u64, byte: u8) -> Result<(), AllocError>
    requires { at ≤ end }
    ensures { OnOk result (image.new.items ≡ filled byte at end image.old.items) }
{
    overwrite(image, at, end, byte);
    if end <= image.len() as u64 {
        return Ok(());
    }
    image.resize(end as usize, byte)?;
    Ok(())
}

fn overwrite(image: &mut [u8], at: u64, end: u64, byte: u8)
    ensures inside { (k : ℕ) → at ≤ k → k < end → k < length image.old
        → slice_index image.new k ≡ byte }
    ensures outside { (k : ℕ) → (k < at) ⊎ (end ≤ k)
        → slice_index image.new k ≡ slice_index image.old k }
{
    for (i, place) in image.iter_mut().enumerate() {
        if at <= i as u64 && (i as u64) < end {
            *place = byte;
        }
    }
}
