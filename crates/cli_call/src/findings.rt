// What is found beside the cause of an end.
ghost use Rattle.std.specs.Prelude.{◌≡◌, string_bytes, false, IfOk, None, Some};
ghost use Rattle.cli_call.specs.Findings.{IsPlaceName, IsFailureOf, input_of, names_log};

use run_causes::Cause;
use site_calls::{Fault, FaultPlace, FileName, Reason};
use std::alloc::{AllocError, Global};
use std::fs;
use std::io::ErrorKind;

/// What isn't there.
#[derive(Clone, Copy, PartialEq, Eq)]
pub enum Absent {
    /// Nothing is missing.
    Nothing,
    /// An input.
    Input(FileName),
    /// The directory.
    Directory,
}

/// What failed, and why.
#[derive(Drop)]
pub struct Failure {
    /// Where, by name.
    pub place: String,
    /// The system's error.
    pub error: String,
    /// Why, where the error doesn't tell it.
    pub reason: Option<Reason>,
}

/// What is told of an end beside its cause.
#[derive(Drop)]
pub struct Findings {
    /// The directory, as the call names it.
    pub directory: String,
    /// What the cause asks for and isn't there.
    pub absent: Absent,
    /// What failed last.
    pub failure: Option<Failure>,
    /// The name of the log that the cause names.
    pub log: String,
    /// Whether a word isn't UTF-8.
    pub is_foreign: bool,
}

// The name of a place.
fn place_name(alloc: Global, place: FaultPlace) -> Result<String, AllocError>
    ensures { IfOk result (λ name. IsPlaceName place (string_bytes name)) }
{
    match place {
        FaultPlace::File(number) => match FileName::from_number(number) {
            Some(name) => format!(in alloc; "{name}"),
            None => format!(in alloc; "file {number}"),
        },
        FaultPlace::Names => String::from_str(alloc, "the names of the directory"),
        FaultPlace::Output => String::from_str(alloc, "standard output"),
    }
}

impl Findings {
    /// Nothing was found.
    pub fn nothing(alloc: Global, is_foreign: bool) -> Findings
        ensures foreign { result.is_foreign ≡ is_foreign }
        ensures failure { result.failure ≡ None }
        ensures absent { result.absent ≡ Absent.Nothing }
    {
        Findings {
            directory: String::new(alloc),
            absent: Absent::Nothing,
            failure: None,
            log: String::new(alloc),
            is_foreign,
        }
    }
}

/// What is found beside this cause of a call on this directory, where this failed last, and why.
pub fn look(
    rt: &HostRuntime,
    directory: &str,
    cause: &Cause,
    fault: Option<Fault>,
    reason: Option<Reason>,
) -> Result<Findings, AllocError>
    ensures directory { IfOk result (λ found. string_bytes found.directory ≡ directory.now) }
    ensures absent { IfOk result (λ found. (name : FileName) → found.absent ≡ Absent.Input name
        → input_of cause.now ≡ Some name) }
    ensures failure { IfOk result (λ found. IsFailureOf fault reason found.failure) }
    ensures log { IfOk result (λ found. names_log cause.now (string_bytes found.log)) }
    ensures foreign { IfOk result (λ found. found.is_foreign ≡ false) }
{
    let alloc = rt.alloc();
    Ok(Findings {
        directory: String::from_str(alloc, directory)?,
        absent: look_for(rt, directory, input_named(cause)),
        failure: failure_of(alloc, fault, reason)?,
        log: log_named(alloc, cause)?,
        is_foreign: false,
    })
}

// The input that a cause names.
fn input_named(cause: &Cause) -> Option<FileName>
    ensures { result ≡ input_of cause.now }
{
    match cause {
        Cause::BadFlows { .. } => Some(FileName::Flows),
        Cause::BadRequests { .. } => Some(FileName::Requests),
        Cause::BadPlan { .. } => Some(FileName::Plan),
        _ => None,
    }
}

// The name of the log that a cause names, or none.
fn log_named(alloc: Global, cause: &Cause) -> Result<String, AllocError>
    ensures { IfOk result (λ name. names_log cause.now (string_bytes name)) }
{
    match cause {
        Cause::Damaged { file, .. } => place_name(alloc, FaultPlace::File(*file)),
        _ => Ok(String::new(alloc)),
    }
}

// Whether the input isn't there, or nothing is.
fn look_for(rt: &HostRuntime, directory: &str, input: Option<FileName>) -> Absent
    ensures { (name : FileName) → result ≡ Absent.Input name → input ≡ Some name }
{
    let Some(name) = input else {
        return Absent::Nothing;
    };
    if is_absent(rt, directory) {
        return Absent::Directory;
    }
    match format!(in rt.alloc(); "{directory}/{name}") {
        Ok(path) if is_absent(rt, path.as_str()) => Absent::Input(name),
        _ => Absent::Nothing,
    }
}

// Whether there is nothing at a path, looked up again after a signal.
fn is_absent(rt: &HostRuntime, path: &str) -> bool {
    for _ in 0..u64::MAX {
        match fs::exists(rt, path) {
            Ok(is_there) => return !is_there,
            Err(error) if error.kind() == ErrorKind::Interrupted => {}
            Err(_) => return false,
        }
    }
    false
}

fn failure_of(
    alloc: Global,
    fault: Option<Fault>,
    reason: Option<Reason>,
) -> Result<Option<Failure>, AllocError>
    ensures { IfOk result (IsFailureOf fault reason) }
{
    let Some(Fault { place, error }) = fault else {
        return Ok(None);
    };
    Ok(Some(Failure {
        place: place_name(alloc, place)?,
        error: error.to_string(alloc)?,
        reason,
    }))
}
