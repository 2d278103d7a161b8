//! What others see of the two partitions at the beginning: nothing.

ghost use Rattle.std.specs.Prelude.{◌≡◌, ◌∷◌, [], IfOk, map};
ghost use Rattle.dura_value.specs.Views.{identity_of};
ghost use Rattle.commit_gate.specs.Views.{nobody, no_box, box_of, whole_box};
ghost use Rattle.crossing_tests.specs.Standing.{AreNone, IsEmpty, AreEmpty};

use crate::frames::SENDER;
use commit_gate::{Ledger, Past, Stream};
use dura_value::Identity;
use std::alloc::{AllocError, Global};
use std::collections::VecDeque;
use std::process::Abort;

/// Nothing is left of a stream.
fn no_stream(alloc: Global) -> Stream
    ensures settled { box_of result ≡ no_box }
    ensures whole { whole_box result ≡ no_box }
{
    Stream::of(0, VecDeque::new(alloc))
}

/// Nothing is left of the streams to both.
fn no_streams(alloc: Global) -> Result<Vec<Stream>, AllocError>
    ensures { IfOk result (λ v. AreNone v.items) }
{
    Ok(vec![in alloc; no_stream(alloc), no_stream(alloc)]?)
}

/// Nobody has taken in anything of either: the first entry of partition 0 stands for that.
fn nobodies(alloc: Global) -> Result<Vec<Identity>, AllocError>
    ensures { IfOk result (λ v. map identity_of v.items ≡ nobody ∷ nobody ∷ []) }
{
    Ok(vec![in alloc; SENDER, SENDER]?)
}

/// Nothing was taken in.
fn nothing(alloc: Global) -> Result<Vec<u64>, AllocError>
    ensures { IfOk result (λ v. v.items ≡ 0 ∷ 0 ∷ []) }
{
    Ok(vec![in alloc; 0, 0]?)
}

/// What others see of an empty partition.
fn empty(alloc: Global) -> Result<Ledger, AllocError>
    ensures { IfOk result IsEmpty }
{
    let past = Past::none(alloc);
    let floors = Vec::new(alloc);
    let nexts = nothing(alloc)?;
    let readers = nobodies(alloc)?;
    let boxes = no_streams(alloc)?;
    Ok(Ledger::recovered(alloc, past, floors, nexts, readers, boxes))
}

/// What others see of both of them.
pub(crate) fn both(rt: &impl Abort, alloc: Global) -> Vec<Ledger>
    ensures { AreEmpty result.items }
{
    let first = empty(alloc).expect(rt, "memory");
    let second = empty(alloc).expect(rt, "memory");
    vec![in alloc; first, second].expect(rt, "memory")
}
