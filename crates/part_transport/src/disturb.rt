//! What a test does to packets on their way.

ghost use Rattle.std.specs.Prelude.{◌≡◌, ◌≤◌, IfOk, IfErr, OnErr, length};
ghost use Rattle.log_items.specs.declared.items.Packet.{Packet};
ghost use Rattle.part_transport.specs.Fates.{falls_on, fate_of, brings, brought_of};
ghost use Rattle.part_transport.specs.declared.disturb.Fate.TheVariants.{Twice};

use crate::copies::{copy_of, let_go};
use log_items::Packet;

/// What a test does to packets on their way. The packets that are put for a partition have numbers from 1 on, and each field is a period:
/// it falls on the packets whose number is a multiple of it, and 0 falls on none. Where several fall on one packet the first of these
/// counts: `drop`, `hold`, `twice`. Numbers end at 2^64 - 1, which all later packets have.
#[derive(Clone, Copy)]
pub struct Disturb {
    /// A packet comes two times in a row.
    pub twice: u32,
    /// It doesn't come.
    pub drop: u32,
    /// It comes behind what the next packet for the partition brings.
    pub hold: u32,
}

/// What happens to a packet that is put.
#[derive(Clone, Copy)]
pub enum Fate {
    /// It doesn't come.
    Dropped,
    /// It is held until the next one.
    Held,
    /// It comes.
    Once,
    /// It comes two times.
    Twice,
}

/// What a packet brings.
pub(crate) struct Brought {
    /// It comes at once, where it comes at all.
    pub(crate) first: Option<Packet>,
    /// Its copy comes behind it.
    pub(crate) second: Option<Packet>,
    /// It is held until the next one.
    pub(crate) held: Option<Packet>,
}

/// Whether a period falls on a number.
fn falls_on(period: u32, number: u64) -> bool
    ensures { result ≡ falls_on period number }
{
    period > 0 && number % u64::from(period) == 0
}

impl Disturb {
    /// What happens to the packet with this number.
    pub(crate) fn fate(self, number: u64) -> Fate
        ensures { result ≡ fate_of self number }
    {
        if falls_on(self.drop, number) {
            Fate::Dropped
        } else if falls_on(self.hold, number) {
            Fate::Held
        } else if falls_on(self.twice, number) {
            Fate::Twice
        } else {
            Fate::Once
        }
    }
}

impl Fate {
    /// How often a packet comes at once.
    pub(crate) fn count(self) -> usize
        ensures count { (packet : Packet) → result ≡ length (brings self packet).0 }
        ensures most { result ≤ 2 }
    {
        match self {
            Fate::Dropped | Fate::Held => 0,
            Fate::Once => 1,
            Fate::Twice => 2,
        }
    }

    /// What a packet brings. Without memory for a copy the packet is given back.
    pub(crate) fn brings(self, packet: Packet) -> Result<Brought, Packet>
        ensures brought { IfOk result (λ brought. brought_of brought ≡ brings self packet) }
        ensures back { IfErr result (λ back. back ≡ packet) }
        ensures copies { OnErr result (self ≡ Twice) }
    {
        match self {
            Fate::Dropped => {
                let_go(packet);
                Ok(Brought {
                    first: None,
                    second: None,
                    held: None,
                })
            }
            Fate::Held => Ok(Brought {
                first: None,
                second: None,
                held: Some(packet),
            }),
            Fate::Once => Ok(Brought {
                first: Some(packet),
                second: None,
                held: None,
            }),
            Fate::Twice => match copy_of(&packet) {
                Ok(copy) => Ok(Brought {
                    first: Some(packet),
                    second: Some(copy),
                    held: None,
                }),
                Err(_) => Err(packet),
            },
        }
    }
}
