//! What clients may send next, and the line of an answer to them.
//!
//! - `queues` has each client's requests, and `laws` says that a queue has just these.
//! - `port` is what is due, and moves a client on by one. It keeps no line: who says an answer has it.
//! - `lines` makes the line of an answer, the one place where this is done, and `json` the JSON of the values in it.
#![tactic(auto)]

mod json;
mod laws;
mod lines;
mod port;
mod queues;

pub use lines::{answer_line, write_answer};
pub use port::Port;
