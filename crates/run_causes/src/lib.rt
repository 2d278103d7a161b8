//! Why a run ends: its exit status, and its line on standard error. `specs/Causes` has both.
//!
//! - `cause`: the causes and their statuses.
//! - `lines`: their lines.
//! - `digits`: a digest in hexadecimal digits.
#![tactic(auto)]

mod cause;
mod digits;
mod lines;

pub use cause::{Cause, FlowsFault, PlanPlace};
