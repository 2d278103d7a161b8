// The start of a site from what a crash leaves of another.
ghost use Rattle.std.specs.Prelude.{◌≡◌, ◌≤◌, ◌∷◌, ℕ, List, length, take, IfOk, OnOk};
ghost use Rattle.site_model.specs.History.{Step, Change, IsImage, IsKept, on, wrote, synced, changes_of, content_of, back_to, saying, tape, AllInside};
ghost use Rattle.site_memory.specs.Picked.{picked};
ghost use Rattle.site_memory.specs.Record.{history_of, next};
ghost use Rattle.site_memory.specs.Start.{IsStart};

use crate::pick::picked_in;
use crate::record::{keep_line, keep_write};
use crate::walks::{count_changes, steps_in, tape_in};
use crate::{Kept, Pick};
use std::alloc::{AllocError, Global};

/// The record of a site that starts from such an image of these entries, and from their tape.
pub(crate) fn image_of(alloc: Global, kept: &[Kept], pick: Pick) -> Result<Vec<Kept>, AllocError>
    requires { AllInside (history_of kept.now) }
    ensures picked { IfOk result (λ made. (file : ℕ)
        → content_of file (history_of made.items)
        ≡ picked pick (changes_of file (history_of kept.now))) }
    ensures image { IfOk result (λ made.
        IsImage (history_of kept.now) (λ file. content_of file (history_of made.items))) }
    ensures kept { IfOk result (λ made. (file : ℕ)
        → IsKept (changes_of file (history_of made.items))) }
    ensures tape { IfOk result (λ made. tape (history_of made.items) ≡ tape (history_of kept.now)) }
    ensures inside { IfOk result (λ made. AllInside (history_of made.items)) }
{
    let mut made = files_of(alloc, kept, pick)?;
    add_tape(alloc, &mut made, kept)?;
    Ok(made)
}

fn add_tape(alloc: Global, made: &mut Vec<Kept>, kept: &[Kept]) -> Result<(), AllocError>
    ensures { OnOk result (history_of made.new.items
        ≡ saying (tape (history_of kept.now)) (history_of made.old.items)) }
{
    let line = tape_in(alloc, kept)?;
    made.reserve(line.len())?;
    keep_line(made, &line);
    Ok(())
}

// A record of the files alone, each with one image.
fn files_of(alloc: Global, kept: &[Kept], pick: Pick) -> Result<Vec<Kept>, AllocError>
    ensures { IfOk result (λ made. IsStart pick (history_of kept.now) (history_of kept.now)
        (history_of made.items)) }
{
    let mut made = Vec::new(alloc);
    for entry in kept {
        add_changed(alloc, &mut made, kept, *entry, pick)?;
    }
    Ok(made)
}

// Adds the file that this entry changes.
fn add_changed(
    alloc: Global,
    made: &mut Vec<Kept>,
    kept: &[Kept],
    entry: Kept,
    pick: Pick,
) -> Result<(), AllocError>
    ensures { OnOk result ((walked : List Step)
        → IsStart pick (history_of kept.now) walked (history_of made.old.items)
        → IsStart pick (history_of kept.now) (next entry walked) (history_of made.new.items)) }
{
    match entry {
        Kept::Wrote { file, .. } => {
            add_once(alloc, made, kept, file, pick)?;
            Ok(())
        }
        Kept::Synced { file } => {
            add_once(alloc, made, kept, file, pick)?;
            Ok(())
        }
        Kept::Byte(_) => Ok(()),
        Kept::Said(_) => Ok(()),
    }
}

// Adds a file that isn't there yet.
fn add_once(
    alloc: Global,
    made: &mut Vec<Kept>,
    kept: &[Kept],
    file: u32,
    pick: Pick,
) -> Result<(), AllocError>
    ensures { OnOk result ((walked : List Step) (change : Change)
        → IsStart pick (history_of kept.now) walked (history_of made.old.items)
        → IsStart pick (history_of kept.now) (on file change ∷ walked)
        (history_of made.new.items)) }
{
    if count_changes(made, file) > 0 {
        return Ok(());
    }
    let bytes = picked_in(alloc, kept, file, pick)?;
    add_file(made, file, &bytes)?;
    Ok(())
}

fn add_file(made: &mut Vec<Kept>, file: u32, bytes: &[u8]) -> Result<(), AllocError>
    ensures { OnOk result (history_of made.new.items
        ≡ on file synced ∷ on file (wrote 0 (length bytes.now) bytes.now)
        ∷ history_of made.old.items) }
{
    let Some(room) = bytes.len().checked_add(1) else {
        return Err(AllocError);
    };
    made.reserve(room)?;
    keep_write(made, file, 0, bytes);
    made.push(Kept::Synced { file })?;
    Ok(())
}

/// Where the entries of this moment end.
pub(crate) fn cut(kept: &[Kept], moment: u64) -> usize
    ensures within { result ≤ length kept.now }
    ensures history { history_of (take result kept.now) ≡ back_to moment (history_of kept.now) }
{
    let mut steps = 0;
    for (i, entry) in kept.iter().enumerate() {
        let more = steps_in(*entry);
        if more == 1 && steps == moment {
            return i;
        }
        steps += more;
    }
    kept.len()
}
