//! What instances and entities make of what reaches them, by the machines of their flows. An instance is kept by its history, and a
//! delivery to one replays it.
//!
//! - `machines`: what reaches them, as the state of a partition asks for it (`Machines`).
//! - `instance`: an instance, and what a delivery or an event made of it. `deliveries`: a message to an instance.
//! - `absent`, `present`: each kind of message to an instance that isn't there, or is. `events`: which messages are events of an
//!   instance's history. `ends`: what follows an event, with the answers at an end. `answers`: the messages that answer who asked.
//! - `entities`: an entity as it is kept, or as its class begins.
//! - `specs/Views`: the plain data that these stand for.
#![tactic(auto)]

mod absent;
mod answers;
mod deliveries;
mod ends;
mod entities;
mod events;
mod instance;
mod machines;
mod present;

pub use machines::Machines;
