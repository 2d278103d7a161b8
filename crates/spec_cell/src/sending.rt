//! What goes out to other partitions, again.

ghost use Rattle.std.specs.Prelude.{IfOk};
ghost use Rattle.spec_cell.specs.Sends.{Resends};

use crate::cell::Cell;
use crate::mine::Mine;
use cell_steps::{Mode, packets_again};
use log_items::Packet;
use std::alloc::{AllocError, Global};

impl<S: Mine> Cell<S> {
    /// All that goes out, once more: what the streams have of the state that packets go out of, which is the state ahead where entries
    /// run ahead everywhere, and else the settled one.
    pub fn resend(&self, alloc: Global, mode: Mode) -> Result<Vec<Packet>, AllocError>
        ensures { IfOk result (λ packets. Resends S.flows S.count (S.begin self.entry.now.number)
            mode self.entry.now packets.items) }
    {
        match &self.live {
            Some(live) => packets_again(alloc, mode, &live.base, live.ahead()),
            None => Err(AllocError),
        }
    }
}
