//! What an instance of a flow waits for: its tasks, its section and the events that are kept for it.
//!
//! - `tasks`: activities, started flows, asked entities, timers, events and grants, each with its result once it arrived.
//! - `handles`: values that name tasks.
//! - `sections`: the section that an instance is in, and what may be done there.
//! - `sets`: the set of entities that a lock goes through, each once, in order of class and key.
//! - `raised`: events that no handle waited for yet.
//! - `open_tasks`: which tasks have no result yet, and `by_name`: numbers by names, so that nothing goes over all.
//! - `specs/Views`: the plain data that these stand for.
#![tactic(auto)]

mod by_name;
mod handles;
mod open_tasks;
mod raised;
mod sections;
mod sets;
mod tasks;

pub use handles::HandleFault;
pub use raised::{KeptEvents, Raised};
pub use sections::Section;
pub use sets::{are_same, is_among, set_of};
pub use tasks::{Arrival, Kind, Task, Tasks};
