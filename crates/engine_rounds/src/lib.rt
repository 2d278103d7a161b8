//! A call that serves clients over many partitions, round after round.
//!
//! - `serving`: from what the files keep to the end of the call ([`serve`]). `driving`: round after round, until nothing is possible any more.
//! - `pumping`: where a round added nothing, what is possible is done without the packets on their way ([`pump`]).
//! - `specs/Served`: what such a call leaves. `specs/Ends`: why its rounds end. `specs/Adding`: what pumping adds.
#![tactic(auto)]

mod driving;
mod pumping;
mod serving;

pub use driving::End;
pub use pumping::{Pumped, pump};
pub use serving::{Came, Served, Shape, serve};
