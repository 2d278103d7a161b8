//! What a partition knows: its clients' requests and their answers, its instances and entities with what they wait for, the
//! messages on their way here, and the streams from and to other partitions.
//!
//! - `rows`: an instance as it is kept, a pending activity.
//! - `parts`: all that a partition knows, and what is posted. `holders`, `pending`, `requests`, `incoming`: what changes it.
//! - `queue`: the messages to receivers here. `copies`: copies of messages.
//! - `timers`: the timers of instances, of which `timer` is one, and which of them is due first.
//! - `reactions`: what instances and entities make of what reaches them, as a trait; who implements it runs their machines.
//! - `streams`: what came in from other partitions, and what goes out to them.
//! - `specs/Views`: the plain data that these stand for.
#![tactic(auto)]

mod copies;
mod holders;
mod incoming;
mod parts;
mod pending;
mod queue;
mod reactions;
mod requests;
mod rows;
mod streams;
mod timer;
mod timers;

pub use copies::{copy_answer, copy_message};
pub use parts::PartRows;
pub use queue::Queue;
pub use reactions::{Reaction, Reactions};
pub use requests::number_in;
pub use rows::{Activity, Row, Waiting};
pub use streams::{Inbox, Inboxes, Outbox, Outboxes, copy_posted};
pub use timer::Timer;
pub use timers::TimerRow;
