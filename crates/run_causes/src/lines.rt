//! The lines of causes.

ghost use Rattle.std.specs.Prelude.{◌≡◌, ◌++◌, ◌∷◌, IfOk, OnOk, true};
ghost use Rattle.run_causes.specs.Causes.{status_of, is_damage, line_of, numbered, flows_text, plan_text};

use crate::cause::{Cause, FlowsFault, PlanPlace};
use crate::digits::write_hex;
use dura_value::Name;
use std::alloc::{AllocError, Global};

/// Appends a word.
fn write_word(out: &mut Vec<u8>, word: &str) -> Result<(), AllocError>
    ensures { OnOk result (out.new.items ≡ out.old.items ++ word.now) }
{
    out.extend_from_slice(word.as_bytes())
}

/// Appends a blank and a number.
fn write_number(alloc: Global, out: &mut Vec<u8>, number: u64) -> Result<(), AllocError>
    ensures { OnOk result (out.new.items ≡ out.old.items ++ numbered number) }
{
    out.push(b' ')?;
    let digits = number.to_string(alloc)?;
    out.extend_from_slice(digits.as_bytes())
}

/// Appends a client and a number, each behind a blank.
fn write_pair(
    alloc: Global,
    out: &mut Vec<u8>,
    client: &Name,
    number: u32,
) -> Result<(), AllocError>
    ensures { OnOk result (out.new.items ≡ out.old.items ++ 32 ∷ client.now ++ numbered number) }
{
    out.push(b' ')?;
    out.extend_from_slice(client.as_bytes())?;
    write_number(alloc, out, number as u64)
}

fn write_flows(alloc: Global, out: &mut Vec<u8>, fault: &FlowsFault) -> Result<(), AllocError>
    ensures { OnOk result (out.new.items ≡ out.old.items ++ flows_text fault.now) }
{
    match fault {
        FlowsFault::NotJson => write_word(out, "not json"),
        FlowsFault::BadShape { path } => {
            write_word(out, "shape ")?;
            out.extend_from_slice(&path.text(alloc)?)
        }
        FlowsFault::UnknownName { path } => {
            write_word(out, "name ")?;
            out.extend_from_slice(&path.text(alloc)?)
        }
    }
}

fn write_plan(alloc: Global, out: &mut Vec<u8>, place: PlanPlace) -> Result<(), AllocError>
    ensures { OnOk result (out.new.items ≡ out.old.items ++ plan_text place) }
{
    match place {
        PlanPlace::Whole => write_word(out, "whole"),
        PlanPlace::Move(index) => {
            write_word(out, "move")?;
            write_number(alloc, out, index)
        }
        PlanPlace::Stop(index) => {
            write_word(out, "stop")?;
            write_number(alloc, out, index)
        }
    }
}

/// Appends two numbers, each behind a blank.
fn write_two(alloc: Global, out: &mut Vec<u8>, a: u64, b: u64) -> Result<(), AllocError>
    ensures { OnOk result (out.new.items ≡ out.old.items ++ numbered a ++ numbered b) }
{
    write_number(alloc, out, a)?;
    write_number(alloc, out, b)
}

/// Appends the line of an input that is refused.
fn write_refusal(alloc: Global, out: &mut Vec<u8>, cause: &Cause) -> Result<(), AllocError>
    requires { status_of cause.now ≡ 2 }
    ensures { OnOk result (out.new.items ≡ out.old.items ++ line_of cause.now) }
{
    match cause {
        Cause::BadFlows { fault } => {
            write_word(out, "flows ")?;
            write_flows(alloc, out, fault)
        }
        Cause::BadRequests { line } => {
            write_word(out, "requests line")?;
            write_number(alloc, out, *line)
        }
        Cause::Clash { client, number } => {
            write_word(out, "clash")?;
            write_pair(alloc, out, client, *number)
        }
        Cause::BadPlan { place } => {
            write_word(out, "plan ")?;
            write_plan(alloc, out, *place)
        }
        Cause::TooLong { file } => {
            write_word(out, "too long")?;
            write_number(alloc, out, *file as u64)
        }
        _ => Ok(()),
    }
}

/// Appends the line of files that stand for no run.
fn write_damage(alloc: Global, out: &mut Vec<u8>, cause: &Cause) -> Result<(), AllocError>
    requires { is_damage cause.now ≡ true }
    ensures { OnOk result (out.new.items ≡ out.old.items ++ line_of cause.now) }
{
    match cause {
        Cause::Damaged { file, offset } => {
            write_word(out, "damaged")?;
            write_two(alloc, out, *file as u64, *offset)
        }
        Cause::Illegal {
            partition,
            position,
        } => {
            write_word(out, "illegal")?;
            write_two(alloc, out, *partition as u64, *position)
        }
        Cause::Unclosed {
            partition,
            position,
            src,
            seq,
        } => {
            write_word(out, "unclosed")?;
            write_two(alloc, out, *partition as u64, *position)?;
            write_two(alloc, out, *src as u64, *seq)
        }
        Cause::OtherShape { found, asked } => {
            write_word(out, "partitions")?;
            write_two(alloc, out, *found as u64, *asked as u64)?;
            Ok(())
        }
        Cause::OtherFlows { found, given } => {
            write_word(out, "digest ")?;
            write_hex(out, *found)?;
            write_word(out, " ")?;
            write_hex(out, *given)?;
            Ok(())
        }
        _ => Ok(()),
    }
}

/// Appends the line of any cause.
fn write_line(alloc: Global, out: &mut Vec<u8>, cause: &Cause) -> Result<(), AllocError>
    ensures { OnOk result (out.new.items ≡ out.old.items ++ line_of cause.now) }
{
    match cause {
        Cause::Done => Ok(()),
        Cause::Usage => write_word(out, "usage"),
        Cause::Waiting { client, number } => {
            write_word(out, "waiting")?;
            write_pair(alloc, out, client, *number)
        }
        Cause::Long { labels } => {
            write_word(out, "long")?;
            write_number(alloc, out, *labels)
        }
        Cause::SiteFault => write_word(out, "site fault"),
        Cause::SayFault => write_word(out, "say fault"),
        Cause::ClockFault => write_word(out, "clock fault"),
        Cause::Memory => write_word(out, "memory"),
        Cause::Full { partition, length } => {
            write_word(out, "full")?;
            write_two(alloc, out, *partition as u64, *length)
        }
        Cause::Spent { partition, number } => {
            write_word(out, "spent")?;
            write_two(alloc, out, *partition as u64, *number)
        }
        Cause::Damaged { .. }
        | Cause::Illegal { .. }
        | Cause::Unclosed { .. }
        | Cause::OtherShape { .. }
        | Cause::OtherFlows { .. } => write_damage(alloc, out, cause),
        _ => write_refusal(alloc, out, cause),
    }
}

impl Cause {
    /// Its line on standard error, behind the program's name; nothing of a run that is done.
    pub fn line(&self, alloc: Global) -> Result<Vec<u8>, AllocError>
        ensures { IfOk result (λ line. line.items ≡ line_of self.now) }
    {
        let mut line = Vec::new(alloc);
        write_line(alloc, &mut line, self)?;
        Ok(line)
    }
}
