//! Where a stream ends, and its message under a number.

ghost use Rattle.std.specs.Prelude.{◌≡◌, ◌≤◌, ◌-◌, ◌+◌, option_map, IfOk};
ghost use Rattle.std.specs.List.{slice_get};
ghost use Rattle.cell_packets.specs.Packets.{ends_of, end_of};
ghost use Rattle.dura_value.specs.Views.{posted_of};
ghost use Rattle.part_rows.specs.Views.{outboxes_of};

use dura_value::Posted;
use part_rows::Outboxes;
use std::alloc::AllocError;

/// The number behind this one. Past 2^64 there is none: no memory has so many messages.
pub(crate) fn number_behind(number: u64, count: u64) -> Result<u64, AllocError>
    ensures { IfOk result (λ behind. behind ≡ number + count) }
{
    match number.checked_add(count) {
        Some(behind) => Ok(behind),
        None => Err(AllocError),
    }
}

/// The number behind the last message of the stream to a partition.
fn box_end(boxes: &Outboxes, target: u32) -> Result<u64, AllocError>
    ensures { IfOk result (λ end. end ≡ end_of (outboxes_of boxes.now target)) }
{
    number_behind(boxes.first(target), boxes.left_len(target) as u64)
}

/// The number behind the last message of the stream to a partition, and 0 where there are no streams.
pub(crate) fn stream_end(before: Option<&Outboxes>, target: u32) -> Result<u64, AllocError>
    ensures { IfOk result (λ end. end
        ≡ ends_of (option_map (λ boxes. outboxes_of boxes.now) before.entry) target) }
{
    match before {
        Some(boxes) => box_end(boxes, target),
        None => Ok(0),
    }
}

/// The message of the stream to a partition under a number, if the stream has it. What is left begins no later.
pub(crate) fn posted_at(boxes: &Outboxes, target: u32, number: u64) -> Option<&Posted>
    requires { (outboxes_of boxes.now target).first ≤ number }
    ensures { option_map (λ posted. posted_of posted.now) result
        ≡ slice_get (outboxes_of boxes.now target).messages
        (number - (outboxes_of boxes.now target).first) }
{
    boxes.left(target, number - boxes.first(target))
}
