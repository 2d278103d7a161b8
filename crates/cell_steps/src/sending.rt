//! What goes out to other partitions.

ghost use Rattle.std.specs.Prelude.{◌≡◌, Some, map, IfOk};
ghost use Rattle.cell_packets.specs.Packets.{packet_of, all_sent_from, ends_of};
ghost use Rattle.commit_gate.specs.Views.{all_sent};
ghost use Rattle.part_steps.specs.States.{IsSound, state_of, count_of};
ghost use Rattle.cell_steps.specs.Sent.{sent_between, sent_by, SendsAtOnce, SendsLater, SendsAgain};

use crate::mode::Mode;
use cell_packets::{packets_beyond, sending_beyond};
use commit_gate::Sending;
use log_items::Packet;
use part_steps::PartState;
use std::alloc::{AllocError, Global};

/// What the streams of a state have beyond where those of an earlier one ended.
fn packets_between(
    alloc: Global,
    before: &PartState,
    after: &PartState,
) -> Result<Vec<Packet>, AllocError>
    requires before { IsSound before.now }
    requires after { IsSound after.now }
    ensures { IfOk result (λ packets. map packet_of packets.items
        ≡ sent_between (count_of after.now) (state_of before.now) (state_of after.now)) }
{
    packets_beyond(
        alloc,
        after.number(),
        after.partitions(),
        Some(before.outboxes()),
        after.outboxes(),
    )
}

/// All that the streams of a state have.
fn all_packets(alloc: Global, state: &PartState) -> Result<Vec<Packet>, AllocError>
    requires { IsSound state.now }
    ensures { IfOk result (λ packets. map packet_of packets.items
        ≡ sent_by (count_of state.now) (state_of state.now)) }
{
    packets_beyond(
        alloc,
        state.number(),
        state.partitions(),
        None,
        state.outboxes(),
    )
}

/// What an entry sends that makes one state of the other, where it goes out at once.
pub fn packets_at_once(
    alloc: Global,
    mode: Mode,
    before: &PartState,
    after: &PartState,
) -> Result<Vec<Packet>, AllocError>
    requires before { IsSound before.now }
    requires after { IsSound after.now }
    ensures { IfOk result (λ packets. SendsAtOnce mode (count_of after.now) (state_of before.now)
        (state_of after.now) packets.items) }
{
    match mode {
        Mode::Global => packets_between(alloc, before, after),
        Mode::None | Mode::Local => Ok(Vec::new(alloc)),
    }
}

/// What entries send that make one settled state of the other, where it didn't go out at once.
pub fn packets_later(
    alloc: Global,
    mode: Mode,
    before: &PartState,
    after: &PartState,
) -> Result<Vec<Packet>, AllocError>
    requires before { IsSound before.now }
    requires after { IsSound after.now }
    ensures { IfOk result (λ packets. SendsLater mode (count_of after.now) (state_of before.now)
        (state_of after.now) packets.items) }
{
    match mode {
        Mode::Global => Ok(Vec::new(alloc)),
        Mode::None | Mode::Local => packets_between(alloc, before, after),
    }
}

/// All that the streams have of the state that packets go out of.
pub fn packets_again(
    alloc: Global,
    mode: Mode,
    base: &PartState,
    ahead: &PartState,
) -> Result<Vec<Packet>, AllocError>
    requires base { IsSound base.now }
    requires ahead { IsSound ahead.now }
    requires same { count_of ahead.now ≡ count_of base.now }
    ensures { IfOk result (λ packets. SendsAgain mode (count_of base.now) (state_of base.now)
        (state_of ahead.now) packets.items) }
{
    match mode {
        Mode::Global => all_packets(alloc, ahead),
        Mode::None | Mode::Local => all_packets(alloc, base),
    }
}

/// What a frame sends that makes one state of the other.
pub fn sending_between(
    alloc: Global,
    before: &PartState,
    after: &PartState,
) -> Result<Vec<Sending>, AllocError>
    requires before { IsSound before.now }
    requires after { IsSound after.now }
    ensures { IfOk result (λ sending. all_sent sending.items ≡ all_sent_from (count_of after.now)
        (ends_of (Some (state_of before.now).outboxes)) (state_of after.now).outboxes) }
{
    sending_beyond(
        alloc,
        after.partitions(),
        before.outboxes(),
        after.outboxes(),
    )
}
