//! The packets on their way.

ghost use Rattle.std.specs.Prelude.{◌≡◌, ◌↔◌, IfErr, IfOk, OnErr, OnOk};
ghost use Rattle.part_transport.specs.Lanes.{empty_lanes, next_fate, put_in, take_in, waiting_in};
ghost use Rattle.part_transport.specs.Refusals.{packet_in};
ghost use Rattle.part_transport.specs.declared.disturb.Fate.TheVariants.{Twice};

use crate::copies::let_go;
use crate::disturb::Disturb;
use crate::lane::Lane;
use log_items::Packet;
use std::alloc::{AllocError, Global};
use std::marker::Model;

/// Why a packet was not put. It is given back.
#[derive(Drop)]
pub enum PutRefusal {
    /// The queue has no room for what would come.
    Full(Packet),
    /// There is no memory for its second copy.
    Memory(Packet),
}

/// The packets on their way, for each partition that they go to a queue of at most 256. A contract sees a lane for each partition, and what
/// disturbs the packets.
#[derive(Drop)]
pub struct Transport {
    lanes: Vec<Lane>,
    disturb: Disturb,
}

impl Model for Transport {
    ghost use Rattle.part_transport.specs.Lanes.{Transit};

    ghost Value = { Transit };

    ghost view = { λ a. record { disturb = a.disturb; lanes = a.lanes.items } };
}

impl Transport {
    /// No packet is on its way to any of so many partitions. There is room for all that queues take in, so that later only a second copy of a
    /// packet wants memory.
    pub fn new(alloc: Global, partitions: u32, disturb: Disturb) -> Result<Transport, AllocError>
        ensures { IfOk result (λ transport. transport
            ≡ record { disturb = disturb; lanes = empty_lanes partitions }) }
    {
        let mut lanes = Vec::new(alloc);
        for _ in 0..partitions {
            lanes.push(Lane::new(alloc)?)?;
        }
        Ok(Transport { lanes, disturb })
    }

    /// A packet is put for the partition that it goes to, and what comes of that goes behind the partition's queue. One for no partition is
    /// let go of. An Err gives the packet back, and nothing has changed: it is `Full` exactly where the queue would have more than 256
    /// packets, and `Memory` only where the packet is to come twice.
    pub fn put(&mut self, packet: Packet) -> Result<(), PutRefusal>
        ensures put { OnOk result (put_in self.old.disturb packet self.old.lanes
            ≡ Ok self.new.lanes) }
        ensures full { (result ≡ Err (PutRefusal.Full packet))
            ↔ (put_in self.old.disturb packet self.old.lanes ≡ Err packet) }
        ensures back { IfErr result (λ refusal. packet_in refusal ≡ packet) }
        ensures same { OnErr result (self.new.lanes ≡ self.old.lanes) }
        ensures memory { result ≡ Err (PutRefusal.Memory packet)
            → next_fate self.old.disturb self.old.lanes packet.dst ≡ Twice }
        ensures disturb { self.new.disturb ≡ self.old.disturb }
    {
        let disturb = self.disturb;
        match self.lanes.get_mut(packet.dst as usize) {
            Some(lane) => lane.put(disturb, packet),
            None => {
                let_go(packet);
                Ok(())
            }
        }
    }

    /// Takes the oldest packet for a partition: None where there is none, and where there is no such partition.
    pub fn take(&mut self, partition: u32) -> Option<Packet>
        ensures taken { take_in partition self.old.lanes ≡ (result, self.new.lanes) }
        ensures disturb { self.new.disturb ≡ self.old.disturb }
    {
        match self.lanes.get_mut(partition as usize) {
            Some(lane) => lane.take(),
            None => None,
        }
    }

    /// How many packets for a partition can be taken.
    pub fn waiting(&self, partition: u32) -> usize
        ensures { result ≡ waiting_in partition self.now.lanes }
    {
        match self.lanes.get(partition as usize) {
            Some(lane) => lane.waiting(),
            None => 0,
        }
    }
}
