//! What stands between the program and who calls it: the words that it was called with (`call`), and what a person is told of its end
//! (`hints`), with what is found beside its cause (`findings`).
#![tactic(auto)]

mod call;
mod findings;
mod hints;

pub use call::{Call, CallError, call_from, call_of};
pub use findings::{Absent, Failure, Findings, look};
pub use hints::ending;
