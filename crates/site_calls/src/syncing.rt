// A sync: the names first, and then the file.
ghost use Rattle.std.specs.Prelude.{◌≡◌, false, OnOk};
ghost use Rattle.site_model.specs.Calls.{Syncs};
ghost use Rattle.site_calls.specs.Events.{Unseen, replay};
ghost use Rattle.site_calls.specs.Failures.{FailsByCall, is_disk_failure};
ghost use Rattle.site_calls.specs.Known.{Knows};
ghost use Rattle.site_calls.specs.Runs.{StaysHonest};

use crate::Calls;
use crate::again::find_file;
use crate::fault::{Fault, FaultPlace};
use crate::known::Known;
use std::io;

/// Makes safe what a file holds. One that isn't there is safe as it is.
pub(crate) fn sync_file<C: Calls>(calls: &mut C, known: &mut Known, file: u32) -> Result<(), Fault>
    requires { (unseen : Unseen) × Knows known.old (replay unseen (C.events calls.old)) }
    ensures tells { StaysHonest (C.events calls.old) (C.events calls.new) }
    ensures known { (unseen : Unseen) → Knows known.old (replay unseen (C.events calls.old))
        → Knows known.new (replay unseen (C.events calls.new)) }
    ensures done { (unseen : Unseen) → Knows known.old (replay unseen (C.events calls.old))
        → Syncs file (replay unseen (C.events calls.old)).steps
        (replay unseen (C.events calls.new)).steps result }
    ensures failure { FailsByCall is_disk_failure (C.events calls.old) (C.events calls.new) result }
{
    match find_file(calls, file) {
        Ok(true) => make_safe(calls, known, file),
        Ok(false) => {
            calls.pass_over(file);
            known.count_steps(1);
            Ok(())
        }
        Err(error) => Err(Fault {
            place: FaultPlace::File(file),
            error,
        }),
    }
}

/// Makes safe what a file holds that is there. After a sync that failed the system may take what is lost for safe, so
/// no later one is believed.
fn make_safe<C: Calls>(calls: &mut C, known: &mut Known, file: u32) -> Result<(), Fault>
    requires { (unseen : Unseen) × Knows known.old (replay unseen (C.events calls.old)) }
    ensures tells { StaysHonest (C.events calls.old) (C.events calls.new) }
    ensures known { (unseen : Unseen) → Knows known.old (replay unseen (C.events calls.old))
        → Knows known.new (replay unseen (C.events calls.new)) }
    ensures done { (unseen : Unseen) → Knows known.old (replay unseen (C.events calls.old))
        → Syncs file (replay unseen (C.events calls.old)).steps
        (replay unseen (C.events calls.new)).steps result }
    ensures failure { FailsByCall is_disk_failure (C.events calls.old) (C.events calls.new) result }
{
    if known.is_broken {
        calls.give_up(file);
        return Err(Fault {
            place: FaultPlace::File(file),
            error: io::Error::other("an earlier sync failed"),
        });
    }
    secure_names(calls, known)?;
    flush_file(calls, known, file)
}

/// Makes the names safe where one is loose.
pub(crate) fn secure_names<C: Calls>(calls: &mut C, known: &mut Known) -> Result<(), Fault>
    ensures tells { StaysHonest (C.events calls.old) (C.events calls.new) }
    ensures known { (unseen : Unseen) → Knows known.old (replay unseen (C.events calls.old))
        → Knows known.new (replay unseen (C.events calls.new)) }
    ensures same { (unseen : Unseen) → (replay unseen (C.events calls.new)).steps
        ≡ (replay unseen (C.events calls.old)).steps }
    ensures safe { OnOk result (known.new ≡ record known.old { is_loose = false }) }
    ensures failure { FailsByCall is_disk_failure (C.events calls.old) (C.events calls.new) result }
{
    if !known.is_loose {
        return Ok(());
    }
    match calls.flush_names() {
        Ok(()) => {
            known.is_loose = false;
            Ok(())
        }
        Err(error) => Err(known.broken_by(FaultPlace::Names, error)),
    }
}

fn flush_file<C: Calls>(calls: &mut C, known: &mut Known, file: u32) -> Result<(), Fault>
    requires named { known.old.is_loose ≡ false }
    requires unbroken { known.old.is_broken ≡ false }
    ensures tells { StaysHonest (C.events calls.old) (C.events calls.new) }
    ensures known { (unseen : Unseen) → Knows known.old (replay unseen (C.events calls.old))
        → Knows known.new (replay unseen (C.events calls.new)) }
    ensures done { (unseen : Unseen) → Knows known.old (replay unseen (C.events calls.old))
        → Syncs file (replay unseen (C.events calls.old)).steps
        (replay unseen (C.events calls.new)).steps result }
    ensures failure { FailsByCall is_disk_failure (C.events calls.old) (C.events calls.new) result }
{
    match calls.flush(file) {
        Ok(()) => {
            known.count_steps(1);
            Ok(())
        }
        Err(error) => Err(known.broken_by(FaultPlace::File(file), error)),
    }
}
