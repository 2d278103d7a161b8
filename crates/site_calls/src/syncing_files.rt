// A sync of several files: the names first, and then all files at once.
ghost use Rattle.std.specs.Prelude.{◌≡◌, false};
ghost use Rattle.site_model.specs.Calls.{SyncsAll};
ghost use Rattle.site_calls.specs.Events.{Unseen, replay};
ghost use Rattle.site_calls.specs.Failures.{FailsByCall, is_disk_failure};
ghost use Rattle.site_calls.specs.Known.{Knows};
ghost use Rattle.site_calls.specs.Runs.{StaysHonest, StandsStill};

use crate::Calls;
use crate::again::find_file;
use crate::fault::{Fault, FaultPlace};
use crate::known::Known;
use crate::syncing::{secure_names, sync_file};

/// Makes safe what several files hold, by one wait where all are there and no sync has failed.
pub(crate) fn sync_files<C: Calls>(
    calls: &mut C,
    known: &mut Known,
    files: &[u32],
) -> Result<(), Fault>
    requires { (unseen : Unseen) × Knows known.old (replay unseen (C.events calls.old)) }
    ensures tells { StaysHonest (C.events calls.old) (C.events calls.new) }
    ensures known { (unseen : Unseen) → Knows known.old (replay unseen (C.events calls.old))
        → Knows known.new (replay unseen (C.events calls.new)) }
    ensures done { (unseen : Unseen) → Knows known.old (replay unseen (C.events calls.old))
        → SyncsAll files.now (replay unseen (C.events calls.old)).steps
        (replay unseen (C.events calls.new)).steps result }
    ensures failure { FailsByCall is_disk_failure (C.events calls.old) (C.events calls.new) result }
{
    if files.len() < 2 || known.is_broken {
        return sync_in_turn(calls, known, files);
    }
    match are_there(calls, files) {
        Ok(true) => sync_at_once(calls, known, files),
        Ok(false) => sync_in_turn(calls, known, files),
        Err(fault) => Err(fault),
    }
}

/// Whether all these files are there.
fn are_there<C: Calls>(calls: &mut C, files: &[u32]) -> Result<bool, Fault>
    ensures tells { StaysHonest (C.events calls.old) (C.events calls.new) }
    ensures still { StandsStill (C.events calls.old) (C.events calls.new) }
    ensures failure { FailsByCall is_disk_failure (C.events calls.old) (C.events calls.new) result }
{
    for file in files {
        match find_file(calls, *file) {
            Ok(true) => {}
            Ok(false) => return Ok(false),
            Err(error) => {
                return Err(Fault {
                    place: FaultPlace::File(*file),
                    error,
                });
            }
        }
    }
    Ok(true)
}

/// Makes the files safe one after another.
fn sync_in_turn<C: Calls>(calls: &mut C, known: &mut Known, files: &[u32]) -> Result<(), Fault>
    requires { (unseen : Unseen) × Knows known.old (replay unseen (C.events calls.old)) }
    ensures tells { StaysHonest (C.events calls.old) (C.events calls.new) }
    ensures known { (unseen : Unseen) → Knows known.old (replay unseen (C.events calls.old))
        → Knows known.new (replay unseen (C.events calls.new)) }
    ensures done { (unseen : Unseen) → Knows known.old (replay unseen (C.events calls.old))
        → SyncsAll files.now (replay unseen (C.events calls.old)).steps
        (replay unseen (C.events calls.new)).steps result }
    ensures failure { FailsByCall is_disk_failure (C.events calls.old) (C.events calls.new) result }
{
    for file in files {
        match sync_file(calls, known, *file) {
            Ok(()) => {}
            Err(fault) => return Err(fault),
        }
    }
    Ok(())
}

/// Makes safe files that are there, by one wait.
fn sync_at_once<C: Calls>(calls: &mut C, known: &mut Known, files: &[u32]) -> Result<(), Fault>
    requires unbroken { known.old.is_broken ≡ false }
    ensures tells { StaysHonest (C.events calls.old) (C.events calls.new) }
    ensures known { (unseen : Unseen) → Knows known.old (replay unseen (C.events calls.old))
        → Knows known.new (replay unseen (C.events calls.new)) }
    ensures done { (unseen : Unseen) → Knows known.old (replay unseen (C.events calls.old))
        → SyncsAll files.now (replay unseen (C.events calls.old)).steps
        (replay unseen (C.events calls.new)).steps result }
    ensures failure { FailsByCall is_disk_failure (C.events calls.old) (C.events calls.new) result }
{
    secure_names(calls, known)?;
    flush_all(calls, known, files)
}

fn flush_all<C: Calls>(calls: &mut C, known: &mut Known, files: &[u32]) -> Result<(), Fault>
    requires named { known.old.is_loose ≡ false }
    requires unbroken { known.old.is_broken ≡ false }
    ensures tells { StaysHonest (C.events calls.old) (C.events calls.new) }
    ensures known { (unseen : Unseen) → Knows known.old (replay unseen (C.events calls.old))
        → Knows known.new (replay unseen (C.events calls.new)) }
    ensures done { (unseen : Unseen) → Knows known.old (replay unseen (C.events calls.old))
        → SyncsAll files.now (replay unseen (C.events calls.old)).steps
        (replay unseen (C.events calls.new)).steps result }
    ensures failure { FailsByCall is_disk_failure (C.events calls.old) (C.events calls.new) result }
{
    match calls.flush_files(files) {
        Ok(()) => {
            known.count_steps(files.len() as u64);
            Ok(())
        }
        Err((file, error)) => Err(known.broken_by(FaultPlace::File(file), error)),
    }
}
