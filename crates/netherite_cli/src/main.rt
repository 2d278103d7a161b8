//! The command `netherite`: the real outside that it hands to the engine, and how it ends.
#![tactic(auto)]

ghost use Rattle.std.specs.Prelude.{◌≡◌, ◌⊎◌, [], IfOk, IfErr, MatchResult, None, Ok};
ghost use Rattle.std.specs.Process.{exit_status};
ghost use Rattle.cli_call.specs.Call.{cause_of};
ghost use Rattle.command_words.specs.Command.{call_in};
ghost use Rattle.run_causes.specs.Causes.{status_of};
ghost use Rattle.site_host.specs.Host.{events_of};

use activity_table::Table;
use cli_call::{Call, CallError, Findings, call_from, ending, look};
use engine_run::run_recorded;
use run_causes::Cause;
use site_calls::{CalledSite, Fault, Reason, Start, Unknown};
use site_host::{Helpers, Host, WallClock};
use std::alloc::AllocError;
use std::env;
use std::process::ExitCode;
use std::sync::Wait;
use std::thread::Threads;

/// How many threads make files safe beside the main one. A run over partitions makes all their logs safe at once.
const HELPERS: u32 = 7;

// A call that was made, and how it ended.
#[derive(Drop)]
struct Ran {
    call: Call,
    cause: Cause,
    // what failed last, and why
    fault: Option<Fault>,
    reason: Option<Reason>,
}

fn main(rt: HostRuntime) -> ExitCode {
    serve(rt, rt, Unknown)
}

// Runs the command on the real outside. No code can read `start`, so this is proved whatever the files held.
fn serve<T, S: Start + Send>(threads: T, rt: HostRuntime, start: S) -> ExitCode
where
    T: Threads + Wait + Sync + Send + Copy + Drop + 'static,
{
    let given = call_from(rt.alloc(), env::args(&rt));
    conclude(&rt, run_call(threads, rt, given, start))
}

// Runs a call, if there is one: its words, on its directory.
fn run_call<T, S: Start + Send>(
    threads: T,
    rt: HostRuntime,
    given: Result<Call, CallError>,
    start: S,
) -> Result<Ran, CallError>
where
    T: Threads + Wait + Sync + Send + Copy + Drop + 'static,
    ensures call { IfOk result (λ ran. given ≡ Ok ran.call) }
    ensures usage { IfOk result (λ ran. call_in ran.call.words.items ≡ None
        → (ran.cause ≡ Cause.Usage) ⊎ (ran.cause ≡ Cause.Memory)) }
    ensures only_usage { IfOk result (λ ran. ran.cause ≡ Cause.Usage
        → call_in ran.call.words.items ≡ None) }
    ensures refused { IfErr result (λ error.
        MatchResult given (λ _. error ≡ CallError.Memory) (λ why. error ≡ why)) }
{
    let call = match given {
        Ok(call) => call,
        Err(error) => return Err(error),
    };
    let Ok(host) = open_host(threads, rt, call.directory.as_str()) else {
        return Err(CallError::Memory);
    };
    let site = CalledSite::new(host, start);
    let clock = WallClock::new(rt);
    let ended = run_recorded(&threads, rt.alloc(), &call.words, site, clock, &Table);
    let fault = ended.site.fault();
    let reason = ended.site.calls().reason();
    Ok(Ran {
        call,
        cause: ended.cause,
        fault,
        reason,
    })
}

// The real directory, and the threads that help to make its files safe.
fn open_host<T>(
    threads: T,
    rt: HostRuntime,
    directory: &str,
) -> Result<Host<HostRuntime, Helpers<T>>, AllocError>
where
    T: Threads + Wait + Copy + Send + Drop + 'static,
    ensures { IfOk result (λ host. events_of host ≡ []) }
{
    let helpers = Helpers::start(threads, rt.alloc(), HELPERS)?;
    Host::open(rt, rt.alloc(), directory, helpers)
}

// Ends as a call did, or for why there was none.
fn conclude(rt: &HostRuntime, ran: Result<Ran, CallError>) -> ExitCode
    ensures { MatchResult ran (λ ran. exit_status result ≡ status_of ran.cause)
        (λ error. exit_status result ≡ status_of (cause_of error)) }
{
    match ran {
        Ok(ran) => finish(rt, &ran),
        Err(error) => refuse(rt, error),
    }
}

// Ends where there is no call.
fn refuse(rt: &HostRuntime, error: CallError) -> ExitCode
    ensures { exit_status result ≡ status_of (cause_of error) }
{
    let found = Findings::nothing(rt.alloc(), error == CallError::NotUtf8);
    end(rt, &error.cause(), &found)
}

// Ends as a call did. Where memory is out, less is told.
fn finish(rt: &HostRuntime, ran: &Ran) -> ExitCode
    ensures { exit_status result ≡ status_of ran.now.cause }
{
    let directory = ran.call.directory.as_str();
    match look(rt, directory, &ran.cause, ran.fault, ran.reason) {
        Ok(found) => end(rt, &ran.cause, &found),
        Err(_) => end(rt, &ran.cause, &Findings::nothing(rt.alloc(), false)),
    }
}

// Ends with the cause's status. What is told goes to standard error; where that is closed, the status alone tells it.
fn end(rt: &HostRuntime, cause: &Cause, found: &Findings) -> ExitCode
    ensures { exit_status result ≡ status_of cause.now }
{
    if let Ok(text) = ending(rt.alloc(), cause, found) {
        tell(rt, &text);
    }
    ExitCode::from(cause.status())
}

fn tell(rt: &HostRuntime, text: &[u8]) {
    if let Ok(text) = str::from_utf8(text) {
        let _ = eprint!(rt; "{text}");
    }
}
