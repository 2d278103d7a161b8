//! Copies of packets.

ghost use Rattle.std.specs.Prelude.{◌≡◌, IfOk};

use log_items::Packet;
use part_rows::copy_message;
use std::alloc::AllocError;

/// The same packet, in memory of its own.
pub(crate) fn copy_of(packet: &Packet) -> Result<Packet, AllocError>
    ensures { IfOk result (λ copy. copy ≡ packet.now) }
{
    Ok(Packet {
        src: packet.src,
        dst: packet.dst,
        inc: packet.inc,
        pos: packet.pos,
        seq: packet.seq,
        message: copy_message(&packet.message)?,
    })
}

/// Lets go of it. Where another function drops it, the drop of each of its parts is proved there once more.
pub(crate) fn let_go(packet: Packet) {
    drop(packet);
}
