//! Who sends and receives messages: instances of flows, entities of classes, and clients.

ghost use Rattle.std.specs.Prelude.{◌≡◌, ◌<◌, ◌++◌, OnOk};
ghost use Rattle.dura_value.specs.Ids.{written, home};
ghost use Rattle.dura_value.specs.Views.{id_of};

use crate::digest::{BASIS, goes_on};
use crate::names::{Key, Name};
use std::alloc::AllocError;

/// Who sends or receives a message. In order the clients come first, then the entities, then the instances of flows, each by
/// name and then by key: that is the order of the written forms.
#[derive(Clone, Drop, PartialEq, Eq, PartialOrd, Ord)]
pub enum Id {
    /// The client `#name`.
    Client(Name),
    /// The entity `@Class/key`.
    Entity(Name, Key),
    /// The orchestration `Flow/key`.
    Flow(Name, Key),
}

/// The marks of the written forms.
pub(crate) const OF_CLIENT: u8 = b'#';

pub(crate) const OF_ENTITY: u8 = b'@';

pub(crate) const BETWEEN: u8 = b'/';

/// The partition that the id lives in, of so many.
#[tactic(auto, using(crate::proofs::Homes::joined))]
pub fn home(id: &Id, partitions: u32) -> u32
    requires { 0 < partitions }
    ensures { result ≡ home partitions (id_of id.now) }
{
    let digest = match id {
        Id::Client(name) => goes_on(goes_on(BASIS, &[OF_CLIENT]), name.as_bytes()),
        Id::Entity(class, key) => {
            let class = goes_on(goes_on(BASIS, &[OF_ENTITY]), class.as_bytes());
            goes_on(goes_on(class, &[BETWEEN]), key.as_bytes())
        }
        Id::Flow(flow, key) => {
            let flow = goes_on(BASIS, flow.as_bytes());
            goes_on(goes_on(flow, &[BETWEEN]), key.as_bytes())
        }
    };
    (digest % partitions as u64) as u32
}

impl Id {
    /// Appends `Flow/key`, `@Class/key` or `#name`.
    pub fn write(&self, out: &mut Vec<u8>) -> Result<(), AllocError>
        ensures { OnOk result (out.new.items ≡ out.old.items ++ written (id_of self.now)) }
    {
        match self {
            Id::Client(name) => {
                out.push(OF_CLIENT)?;
                out.extend_from_slice(name.as_bytes())
            }
            Id::Entity(class, key) => {
                out.push(OF_ENTITY)?;
                out.extend_from_slice(class.as_bytes())?;
                out.push(BETWEEN)?;
                out.extend_from_slice(key.as_bytes())
            }
            Id::Flow(flow, key) => {
                out.extend_from_slice(flow.as_bytes())?;
                out.push(BETWEEN)?;
                out.extend_from_slice(key.as_bytes())
            }
        }
    }
}
