//! What the JSON of a flows file has in it: values, names and expressions, or where there are none.
//!
//! - `faults` is where a part gave nothing, `values` reads values and names, and `expressions` expressions.
#![tactic(auto)]

mod expressions;
mod faults;
mod values;

pub use expressions::{expression_at, expression_in, is_word};
pub use faults::{PartError, Path, Step, under};
pub use values::{misshapen, name_at, name_in, value_in};
