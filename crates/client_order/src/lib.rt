//! Which of many requests comes first, by its client's name and then by its number: the first under whose client and number another was taken,
//! and the first whose answer wasn't said.
//!
//! - `order` compares two ([`comes_no_later`]); `clashes` looks at what was taken ([`first_clash`]), and `unsaid` at what a port has said
//!   ([`first_unsaid`]).
#![tactic(auto)]

mod clashes;
mod order;
mod unsaid;

pub use clashes::first_clash;
pub use order::comes_no_later;
pub use unsaid::first_unsaid;
