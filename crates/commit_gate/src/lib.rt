//! What the gate of a store tests before it is opened: each claim of a frame is held against what is settled.
//!
//! - `ledger`: what others see of a partition (`Ledger`), in `specs/Ledgers` as plain data; `streams` is what is left of its streams,
//!   `past` the incarnations of its entries, `recovered` how it begins, `keeping` how it goes on with a frame, and `room` that
//!   this takes no memory once there is room.
//! - `test`: the test of a frame (`test_frame`), by `specs/Met` and `specs/Refused`; `unmet` is why one is refused.
//! - `marks`: what is settled of all partitions, as others are told.
//! - `laws`: a frame that is met stays so, and what is sent joins before or after what is let go.
//! - `specs/Local` is what a frame's own partition knows of it, `specs/Unlost` that nothing settled was given up.
#![tactic(auto)]

mod keeping;
mod laws;
mod ledger;
mod marks;
mod past;
mod recovered;
mod room;
mod streams;
mod test;
mod unmet;

pub use ledger::{Ledger, Sending, Stream};
pub use marks::marks_of;
pub use past::Past;
pub use test::test_frame;
pub use unmet::Unmet;
