//! What is left of a partition's streams, as others see it.

ghost use Rattle.std.specs.Prelude.{◌≡◌, map, IfOk};
ghost use Rattle.std.specs.List.{range_with_len};
ghost use Rattle.commit_gate.specs.Views.{box_of, whole_box};
ghost use Rattle.part_steps.specs.States.{state_of};

use commit_gate::Stream;
use dura_value::Posted;
use part_rows::copy_message;
use part_steps::PartState;
use std::alloc::{AllocError, Global};
use std::collections::VecDeque;

/// The same message of the same entry.
fn copy_posted(posted: &Posted) -> Result<Posted, AllocError>
    ensures { IfOk result (λ copy. copy ≡ posted.now) }
{
    Ok(Posted {
        entry: posted.entry,
        message: copy_message(&posted.message)?,
    })
}

/// What is left of the stream to a partition.
fn stream_to(alloc: Global, state: &PartState, target: u32) -> Result<Stream, AllocError>
    ensures settled { IfOk result (λ stream. box_of stream ≡ (state_of state.now).outboxes target) }
    ensures whole { IfOk result (λ stream. whole_box stream ≡ box_of stream) }
{
    let mut messages = VecDeque::new(alloc);
    while let Some(posted) = state.left(target, messages.len() as u64) {
        messages.push_back(copy_posted(posted)?)?;
    }
    Ok(Stream::of(state.first_left(target), messages))
}

/// What is left of the streams to so many partitions.
pub(crate) fn streams_of(
    alloc: Global,
    state: &PartState,
    count: u32,
) -> Result<Vec<Stream>, AllocError>
    ensures settled { IfOk result (λ v.
        map box_of v.items ≡ map (state_of state.now).outboxes (range_with_len 0 count)) }
    ensures whole { IfOk result (λ v. map whole_box v.items ≡ map box_of v.items) }
{
    let mut streams = Vec::with_capacity(alloc, count as usize)?;
    for target in 0..count {
        streams.push(stream_to(alloc, state, target)?)?;
    }
    Ok(streams)
}
