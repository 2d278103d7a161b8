//! Entries that a partition makes ahead of its log, each with the state after it.
//!
//! - `step`: an entry that isn't settled, with the state after it. `live`: the settled state, the steps behind it, and what waits.
//! - `filling`: an entry as far as it is filled, with `waiting`, what waits; `round`: which side of a turn is first; `turning`: one entry more.
//! - `mode`: how far entries may run ahead; `sending`: what they send to other partitions.
//! - `depending`: what they depend on, and whether that was given up.
#![tactic(auto)]

mod depending;
mod filling;
mod live;
mod mode;
mod round;
mod sending;
mod step;
mod turning;
mod waiting;

pub use depending::{first_lost, last_made};
pub use live::Live;
pub use mode::Mode;
pub use round::Round;
pub use sending::{packets_again, packets_later, sending_between};
pub use step::Step;
pub use turning::{NUMBER_LIMIT, Turned, turn};
pub use waiting::is_pending;
