//! The packets on their way to one partition.

ghost use Rattle.std.specs.Prelude.{◌≡◌, ◌+◌, ◌<◌, ◌≤◌, ◌++◌, ◌↔◌, length, drop, slice_get, IfErr, IfOk, OnErr, OnOk};
ghost use Rattle.std.specs.Option.{option_to_list};
ghost use Rattle.std.specs.VecDeque.{deque_capacity, deque_len};
ghost use Rattle.part_transport.specs.Fates.{fate_of};
ghost use Rattle.part_transport.specs.Lanes.{empty_lane, next_number, put_on};
ghost use Rattle.part_transport.specs.Refusals.{packet_in};
ghost use Rattle.part_transport.specs.declared.disturb.Fate.TheVariants.{Twice};

use crate::disturb::{Brought, Disturb};
use crate::transport::PutRefusal;
use log_items::Packet;
use std::alloc::{AllocError, Global};
use std::collections::VecDeque;
use std::marker::Model;
use std::mem::replace;

/// So many packets have room in a queue.
const LIMIT: usize = 256;

/// The packets on their way to one partition. A contract sees the queue, how many were put, and what is held.
#[derive(Drop)]
pub(crate) struct Lane {
    queue: VecDeque<Packet>,
    puts: u64,
    held: Option<Packet>,
}

impl Model for Lane {
    ghost use Rattle.std.specs.Prelude.{◌≤◌, length};
    ghost use Rattle.std.specs.VecDeque.{deque_capacity};
    ghost use Rattle.log_items.specs.declared.items.Packet.{Packet};
    ghost use Rattle.part_transport.specs.Lanes.{Lane, limit};

    ghost Value = { Lane Packet };

    ghost view = { λ a. record { queue = a.queue.items; puts = a.puts; held = a.held } };

    ghost invariant = { λ a. (limit ≤ deque_capacity a.queue) × (length a.queue.items ≤ limit) };
}

/// This comes behind the queue, where it is anything. There is room.
fn push_some(queue: &mut VecDeque<Packet>, packet: Option<Packet>)
    requires { length queue.old.items + length (option_to_list packet) ≤ deque_capacity queue.old }
    ensures items { queue.new.items ≡ queue.old.items ++ option_to_list packet }
    ensures room { deque_capacity queue.new ≡ deque_capacity queue.old }
{
    if let Some(packet) = packet {
        queue.push_back_reserved(packet);
    }
}

impl Lane {
    /// No packet is on its way.
    pub(crate) fn new(alloc: Global) -> Result<Lane, AllocError>
        ensures { IfOk result (λ lane. lane ≡ empty_lane) }
    {
        Ok(Lane {
            queue: VecDeque::with_capacity(alloc, LIMIT)?,
            puts: 0,
            held: None,
        })
    }

    /// How many packets can be taken.
    pub(crate) fn waiting(&self) -> usize
        ensures { result ≡ length self.now.queue }
    {
        self.queue.len()
    }

    /// A packet is put, and what comes of that goes behind the queue, where it has room. An Err gives the packet back, and nothing has
    /// changed.
    pub(crate) fn put(&mut self, disturb: Disturb, packet: Packet) -> Result<(), PutRefusal>
        ensures put { OnOk result (put_on disturb packet self.old ≡ Ok self.new) }
        ensures full { (result ≡ Err (PutRefusal.Full packet))
            ↔ (put_on disturb packet self.old ≡ Err packet) }
        ensures back { IfErr result (λ refusal. packet_in refusal ≡ packet) }
        ensures same { OnErr result (self.new ≡ self.old) }
        ensures memory { result ≡ Err (PutRefusal.Memory packet)
            → fate_of disturb (next_number self.old.puts) ≡ Twice }
    {
        let number = self.puts.saturating_add(1);
        let fate = disturb.fate(number);
        let count = fate.count() + usize::from(self.held.is_some());
        if LIMIT - self.queue.len() < count {
            return Err(PutRefusal::Full(packet));
        }
        let Brought {
            first,
            second,
            held,
        } = match fate.brings(packet) {
            Ok(brought) => brought,
            Err(packet) => return Err(PutRefusal::Memory(packet)),
        };
        self.puts = number;
        push_some(&mut self.queue, first);
        push_some(&mut self.queue, second);
        push_some(&mut self.queue, replace(&mut self.held, held));
        Ok(())
    }

    /// Takes the oldest packet.
    pub(crate) fn take(&mut self) -> Option<Packet>
        ensures first { result ≡ slice_get self.old.queue 0 }
        ensures rest { self.new ≡ record self.old { queue = drop 1 self.old.queue } }
    {
        self.queue.pop_front()
    }
}
