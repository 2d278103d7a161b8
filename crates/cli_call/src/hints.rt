// What a person is told on standard error: the cause, and behind it more, on lines that begin with two blanks.
ghost use Rattle.std.specs.Prelude.{◌≡◌, ◌++◌, codes, string_bytes, IfOk, OnOk};
ghost use Rattle.site_calls.specs.Reasons.{reason_text};
ghost use Rattle.cli_call.specs.Hints.{hint, further_text, failure_text, absent_text, usage_text, ending_text};

use crate::findings::{Absent, Failure, Findings};
use run_causes::Cause;
use site_calls::Reason;
use std::alloc::{AllocError, Global};

/// All that is told of an end. Nothing is told of one that is done.
pub fn ending(alloc: Global, cause: &Cause, found: &Findings) -> Result<Vec<u8>, AllocError>
    ensures { IfOk result (λ text. text.items ≡ ending_text cause.now found.now) }
{
    let mut text = Vec::new(alloc);
    if cause.status() == 0 {
        return Ok(text);
    }
    text.extend_from_slice(b"netherite: ")?;
    text.extend_from_slice(&cause.line(alloc)?)?;
    text.push(b'\n')?;
    write_further(alloc, &mut text, cause, found)?;
    Ok(text)
}

// Appends the lines behind the first.
fn write_further(
    alloc: Global,
    out: &mut Vec<u8>,
    cause: &Cause,
    found: &Findings,
) -> Result<(), AllocError>
    ensures { OnOk result (out.new.items ≡ out.old.items ++ further_text cause.now found.now) }
{
    let directory = found.directory.as_str();
    match cause {
        Cause::Usage => out.extend_from_slice(usage_lines(found.is_foreign).as_bytes()),
        Cause::BadFlows { .. } | Cause::BadRequests { .. } | Cause::BadPlan { .. } => {
            write_absent(alloc, out, directory, found.absent)
        }
        Cause::SiteFault | Cause::SayFault => match &found.failure {
            Some(failure) => write_failure(alloc, out, directory, failure),
            None => Ok(()),
        },
        Cause::Damaged { .. } => {
            let why = " is no log that a run of these files could have left";
            write_hint(out, found.log.as_str(), why, "", "")
        }
        Cause::OtherFlows { .. } => {
            let why = "flows.json isn't the one that the log was begun with";
            write_hint(out, why, "", "", "")
        }
        _ => Ok(()),
    }
}

// Appends a line of four parts.
fn write_hint(out: &mut Vec<u8>, a: &str, b: &str, c: &str, d: &str) -> Result<(), AllocError>
    ensures { OnOk result (out.new.items
        ≡ out.old.items ++ hint (a.now ++ b.now ++ c.now ++ d.now)) }
{
    out.extend_from_slice(b"  ")?;
    out.extend_from_slice(a.as_bytes())?;
    out.extend_from_slice(b.as_bytes())?;
    out.extend_from_slice(c.as_bytes())?;
    out.extend_from_slice(d.as_bytes())?;
    out.push(b'\n')?;
    Ok(())
}

// Which words are understood.
fn usage_lines(is_foreign: bool) -> &'static str
    ensures { result.now ≡ usage_text is_foreign }
{
    if is_foreign {
        "  netherite DIRECTORY run [--batch N] [--steps N] [--segment BYTES]
  netherite DIRECTORY show [--partitions N]
  a word isn't UTF-8; a directory of such a name is called . from within
"
    } else {
        "  netherite DIRECTORY run [--batch N] [--steps N] [--segment BYTES]
  netherite DIRECTORY show [--partitions N]
"
    }
}

// Appends that an input isn't there, or that nothing is.
fn write_absent(
    alloc: Global,
    out: &mut Vec<u8>,
    directory: &str,
    absent: Absent,
) -> Result<(), AllocError>
    ensures { OnOk result (out.new.items ≡ out.old.items ++ absent_text directory.now absent) }
{
    match absent {
        Absent::Nothing => Ok(()),
        Absent::Input(name) => {
            let name = name.to_string(alloc)?;
            write_hint(out, name.as_str(), " isn't there", "", "")
        }
        Absent::Directory => write_hint(out, "the directory ", directory, " isn't there", ""),
    }
}

// Appends what failed, and why.
fn write_failure(
    alloc: Global,
    out: &mut Vec<u8>,
    directory: &str,
    failure: &Failure,
) -> Result<(), AllocError>
    ensures { OnOk result (out.new.items
        ≡ out.old.items ++ failure_text directory.now failure.now) }
{
    let place = failure.place.as_str();
    let error = failure.error.as_str();
    match failure.reason {
        None => write_hint(out, place, ": ", error, ""),
        Some(Reason::NullDevice) => write_hint(
            out,
            "the null device can't be opened: ",
            error,
            "",
            "",
        ),
        Some(Reason::Directory) => write_hint(out, "the directory ", directory, ": ", error),
        Some(Reason::Locked) => write_hint(
            out,
            "another run holds the directory ",
            directory,
            "",
            "",
        ),
        Some(Reason::HeldFile) => write_reason(alloc, out, place, Reason::HeldFile),
        Some(Reason::NotRegular) => write_reason(alloc, out, place, Reason::NotRegular),
        Some(Reason::SameAs(name)) => write_reason(alloc, out, place, Reason::SameAs(name)),
    }
}

fn write_reason(
    alloc: Global,
    out: &mut Vec<u8>,
    place: &str,
    reason: Reason,
) -> Result<(), AllocError>
    ensures { OnOk result (out.new.items
        ≡ out.old.items ++ hint (place.now ++ codes ": " ++ reason_text reason)) }
{
    let reason = reason.to_string(alloc)?;
    write_hint(out, place, ": ", reason.as_str(), "")
}
