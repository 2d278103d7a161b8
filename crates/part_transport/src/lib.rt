//! The packets on their way between partitions: for each partition that they go to a queue in a plain list of bounded length, oldest
//! first. A test can have packets dropped, held back behind the next one, or come twice.
//!
//! - `transport`: what is on its way (`Transport`); `lane`: of that what goes to one partition.
//! - `disturb`: what a test does to packets (`Disturb`), and what comes of one; `copies`: copies of packets.
//! - `histories`: what was put and what came, over any puts and takes; `examples`: packets that are disturbed.
//! - `specs/Lanes` is what these are, and `specs/Histories` what happened.
#![tactic(auto)]

mod copies;
mod disturb;
mod examples;
mod histories;
mod lane;
mod transport;

pub use disturb::Disturb;
pub use histories::{only_what_was_put, undisturbed_in_order};
pub use transport::{PutRefusal, Transport};
