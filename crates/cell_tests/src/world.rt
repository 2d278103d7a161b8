//! Four cells, and what they sent one another.

ghost use Rattle.std.specs.Prelude.{◌≡◌};

use crate::calls::TestCell;
use crate::said::said;
use crate::seat::{Named, leave, new_cell};
use log_items::Packet;
use part_rows::copy_message;
use std::alloc::Global;
use std::process::Abort;

/// The cells of partitions 0 to 3, and every packet that one of them sent.
pub(crate) struct World<N: Named> {
    pub(crate) cells: [TestCell<N>; 4],
    pub(crate) sent: Vec<Packet>,
}

/// Four new cells, and no packet.
pub(crate) fn new_world<N: Named>(alloc: Global) -> World<N>
    requires count { 4 ≡ N.count }
{
    World {
        cells: [
            new_cell(alloc, 4, 0),
            new_cell(alloc, 4, 1),
            new_cell(alloc, 4, 2),
            new_cell(alloc, 4, 3),
        ],
        sent: Vec::new(alloc),
    }
}

/// The test is over.
pub(crate) fn leave_world<N: Named>(world: World<N>) {
    let World { cells, sent } = world;
    let [zero, one, two, three] = cells;
    leave(zero);
    leave(one);
    leave(two);
    leave(three);
    drop(sent);
}

/// The same packet.
fn copied(rt: &impl Abort, packet: &Packet) -> Packet {
    Packet {
        src: packet.src,
        dst: packet.dst,
        inc: packet.inc,
        pos: packet.pos,
        seq: packet.seq,
        message: copy_message(&packet.message).expect(rt, "memory"),
    }
}

/// A copy of the packet of a stream with this number, the one that was sent last.
pub(crate) fn last_sent(
    rt: &impl Abort,
    sent: &[Packet],
    source: u32,
    target: u32,
    number: u64,
) -> Packet {
    let mut last = None;
    for packet in sent {
        if packet.src == source && packet.dst == target && packet.seq == number {
            last = Some(packet);
        }
    }
    copied(rt, last.expect(rt, "a packet"))
}

/// The packets come behind those that were sent. A text goes on with where each goes to and what it says.
pub(crate) fn send(
    rt: &impl Abort,
    alloc: Global,
    sent: &mut Vec<Packet>,
    packets: Vec<Packet>,
    told: String,
) -> String {
    let mut told = told;
    for packet in packets {
        let words = said(rt, alloc, &packet);
        told = format!(in alloc; "{told}, to {}: {words}", packet.dst).expect(rt, "memory");
        drop(words);
        sent.push(packet).expect(rt, "memory");
    }
    told
}
