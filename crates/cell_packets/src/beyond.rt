//! What streams have beyond where earlier ones ended.

ghost use Rattle.std.specs.Prelude.{◌≡◌, ◌++◌, map, option_map, Some, IfOk, OnOk};
ghost use Rattle.cell_packets.specs.Packets.{packet_of, packet_with, packets_from, all_packets, sent_from, all_sent_from, ends_of};
ghost use Rattle.commit_gate.specs.Views.{all_sent};
ghost use Rattle.dura_value.specs.Views.{posted_of};
ghost use Rattle.part_rows.specs.Views.{AreSentBy, outboxes_of};

use crate::streams::{number_behind, posted_at, stream_end};
use commit_gate::Sending;
use dura_value::{Posted, with};
use log_items::Packet;
use part_rows::{Outboxes, copy_message, copy_posted};
use std::alloc::{AllocError, Global};

/// The message with this number of the stream from a partition to another, on its way.
fn packet_to(source: u32, target: u32, number: u64, posted: &Posted) -> Result<Packet, AllocError>
    requires { posted.now.entry.partition ≡ source }
    ensures { IfOk result (λ packet. packet_of packet
        ≡ packet_with source target (number, posted_of posted.now)) }
{
    Ok(Packet {
        src: source,
        dst: target,
        inc: posted.entry.incarnation,
        pos: posted.entry.position,
        seq: number,
        message: copy_message(&posted.message)?,
    })
}

/// The messages of the stream to a partition from a number on come behind the packets.
fn add_packets(
    packets: &mut Vec<Packet>,
    source: u32,
    boxes: &Outboxes,
    target: u32,
    from: u64,
) -> Result<(), AllocError>
    requires { AreSentBy source (outboxes_of boxes.now) }
    ensures { OnOk result (map packet_of packets.new.items ≡ map packet_of packets.old.items
        ++ packets_from source target from (outboxes_of boxes.now target)) }
{
    let mut number = boxes.first(target).max(from);
    while let Some(posted) = posted_at(boxes, target, number) {
        packets.push(packet_to(source, target, number, posted)?)?;
        number = number_behind(number, 1)?;
    }
    Ok(())
}

/// The messages of the stream to a partition from a number on come behind what is sent.
fn add_sending(
    sending: &mut Vec<Sending>,
    boxes: &Outboxes,
    target: u32,
    from: u64,
) -> Result<(), AllocError>
    ensures { OnOk result (all_sent sending.new.items ≡ all_sent sending.old.items
        ++ sent_from target from (outboxes_of boxes.now target)) }
{
    let mut number = boxes.first(target).max(from);
    while let Some(posted) = posted_at(boxes, target, number) {
        sending.push(Sending {
            to: target,
            posted: copy_posted(posted)?,
        })?;
        number = number_behind(number, 1)?;
    }
    Ok(())
}

/// The messages that streams have beyond where earlier ones ended, or all where there are none: as packets from this partition to the
/// others, of which there are so many in all. An Err is want of memory, and where a stream's end is past 2^64.
pub fn packets_beyond(
    alloc: Global,
    number: u32,
    count: u32,
    before: Option<&Outboxes>,
    after: &Outboxes,
) -> Result<Vec<Packet>, AllocError>
    requires { AreSentBy number (outboxes_of after.now) }
    ensures { IfOk result (λ packets. map packet_of packets.items
        ≡ all_packets count number
        (ends_of (option_map (λ boxes. outboxes_of boxes.now) before.entry))
        (outboxes_of after.now)) }
{
    let mut packets = Vec::new(alloc);
    for target in 0..count {
        let from = stream_end(before, target)?;
        add_packets(&mut packets, number, after, target, from)?;
    }
    Ok(packets)
}

/// The same as what a frame sends: the messages that streams have beyond where earlier ones ended. An Err is want of memory, and where a
/// stream's end is past 2^64.
pub fn sending_beyond(
    alloc: Global,
    count: u32,
    before: &Outboxes,
    after: &Outboxes,
) -> Result<Vec<Sending>, AllocError>
    ensures { IfOk result (λ sending. all_sent sending.items
        ≡ all_sent_from count (ends_of (Some (outboxes_of before.now)))
        (outboxes_of after.now)) }
{
    let mut sending = Vec::new(alloc);
    for target in 0..count {
        let from = stream_end(Some(before), target)?;
        add_sending(&mut sending, after, target, from)?;
    }
    Ok(sending)
}
