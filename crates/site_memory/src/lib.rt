//! The outside in memory, for tests: a [`MemorySite`] whose files and tape are data, and a [`TickClock`] that moves
//! when it is told to. Both fail where a test lists it.
#![tactic(auto)]

mod faults;
mod image;
mod kept;
mod memory;
mod pick;
mod plan;
mod record;
mod replay;
mod tick;
mod walks;

pub use kept::Kept;
pub use memory::MemorySite;
pub use pick::Pick;
pub use plan::Kind;
pub use tick::TickClock;
