//! What an event makes of the machine of an instance, and the machine that a history makes.
//!
//! - `going`: step after step, until it blocks or ends. `blocked`: whether there is a further step.
//! - `resume`: what it makes of an event. `histories`: the machine of a history.
//! - `entities`: what a message makes of an entity.
#![tactic(auto)]

mod blocked;
mod entities;
mod going;
mod histories;
mod resume;

pub use entities::deliver;
pub use histories::replay;
pub use resume::advance;
