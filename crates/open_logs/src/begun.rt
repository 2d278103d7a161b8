//! What a life begins with.

use commit_gate::Past;
use commit_log::Resting;
use part_steps::PartState;

/// What a life goes on with, of each partition in their order.
#[derive(Drop)]
pub struct Begun {
    /// The states that the logs' entries make.
    pub states: Vec<PartState>,
    /// The logs at rest.
    pub logs: Vec<Resting>,
    /// The incarnations of the entries.
    pub pasts: Vec<Past>,
    /// The incarnations that begin.
    pub incarnations: Vec<u64>,
}
