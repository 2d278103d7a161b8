//! The causes, by what the layers below answer.

ghost use Rattle.std.specs.Prelude.{◌≡◌, IfOk};
ghost use Rattle.cluster_run.specs.Causes.{EndsFor, IsRestCause, IsRestOrMemory, WentBy, cause_of_halt, cause_of_open, cause_of_recovery};

use client_order::first_unsaid;
use client_port::Port;
use dura_value::Name;
use engine_rounds::{Came, End};
use node_core::Halt;
use open_logs::OpenError;
use recover_core::RecoverError;
use run_causes::Cause;
use std::alloc::{AllocError, Global};

/// Why nothing was recovered.
pub fn cause_of_recovery(error: RecoverError) -> Cause
    ensures { result ≡ cause_of_recovery error }
{
    match error {
        RecoverError::Damaged { file, offset } => Cause::Damaged { file, offset },
        RecoverError::OtherShape { found, asked } => Cause::OtherShape { found, asked },
        RecoverError::OtherFlows { found, given } => Cause::OtherFlows { found, given },
        RecoverError::Illegal {
            partition,
            position,
        } => Cause::Illegal {
            partition,
            position,
        },
        RecoverError::Unclosed {
            partition,
            position,
            src,
            seq,
        } => Cause::Unclosed {
            partition,
            position,
            src,
            seq,
        },
        RecoverError::SiteFault => Cause::SiteFault,
        RecoverError::Memory => Cause::Memory,
    }
}

/// Why no logs were opened.
fn cause_of_open(error: OpenError) -> Cause
    ensures { result ≡ cause_of_open error }
{
    match error {
        OpenError::Refused(error) => cause_of_recovery(error),
        OpenError::Spent { partition, number } => Cause::Spent { partition, number },
        OpenError::Clash { client, number } => Cause::Clash { client, number },
    }
}

/// Why a call goes on no more.
fn cause_of_halt(halt: Halt) -> Cause
    ensures { result ≡ cause_of_halt halt }
{
    match halt {
        Halt::Full { partition, length } => Cause::Full { partition, length },
        Halt::Spent { partition, number } => Cause::Spent { partition, number },
        Halt::SiteFault => Cause::SiteFault,
        Halt::SayFault => Cause::SayFault,
        Halt::ClockFault => Cause::ClockFault,
        Halt::Memory => Cause::Memory,
    }
}

/// Why a run ends where nothing is possible any more.
pub fn rest_cause(port: &Port, clients: &[Name]) -> Result<Cause, AllocError>
    ensures { IfOk result (IsRestCause port.now clients.now) }
{
    match first_unsaid(port, clients) {
        Some((client, number)) => Ok(Cause::Waiting {
            client: client.clone()?,
            number,
        }),
        None => Ok(Cause::Done),
    }
}

/// Why a run ends where nothing is possible any more, by what its port has said.
fn cause_at_rest(alloc: Global, port: &Port) -> Cause
    ensures { IsRestOrMemory port.now result }
{
    let Ok(clients) = port.clients(alloc) else {
        return Cause::Memory;
    };
    match rest_cause(port, &clients) {
        Ok(cause) => cause,
        Err(_) => Cause::Memory,
    }
}

/// Why rounds ended, by what the port has said.
fn cause_of_end(alloc: Global, end: End, port: Option<Port>) -> Cause
    ensures { EndsFor end port result }
{
    match (end, port) {
        (End::Long(labels), _) => Cause::Long { labels },
        (End::Rest, Some(port)) => cause_at_rest(alloc, &port),
        (End::Rest, None) => Cause::Memory,
    }
}

/// Why a call ended, by how it came to its end and by what its port has said.
pub(crate) fn cause_of(alloc: Global, came: Came, port: Option<Port>) -> Cause
    ensures { WentBy came port result }
{
    match came {
        Came::Refused(error) => cause_of_open(error),
        Came::Halted(halt) => cause_of_halt(halt),
        Came::Ended(end) => cause_of_end(alloc, end, port),
    }
}
