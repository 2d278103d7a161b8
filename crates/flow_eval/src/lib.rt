//! What expressions give: `eval`, with the variables that it reads and the faults that it throws.
//!
//! - `specs/Gives`: when what was answered is what `flow_syntax`'s definitions give.
#![tactic(auto)]

mod comparisons;
mod expressions;
mod fault;
mod integers;
mod kinds;
mod lists;
mod operations;
mod texts;
mod variables;

pub use expressions::{eval, to_scalars};
pub use fault::{EvalError, Fault};
pub use kinds::{to_integer, to_key, to_list, to_scalar, to_text, to_truth, truth, value_of};
pub use lists::list_of;
pub use operations::{apply_binary, apply_unary};
pub use variables::Variables;
