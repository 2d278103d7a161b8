//! The input files of a run: the flows, the requests and the plan, or the first reason why they are refused.
//!
//! - `files` reads a file that isn't too long.
//! - `flows` reads the flows, `plan` the plan, and `input` all three files.
//! - `specs/Refusal` says why files are refused, and `specs/Input` what a call answers.
//! - `examples` is what these say of single files (`specs/Examples`).
#![tactic(auto)]

mod examples;
mod files;
mod flows;
mod input;
mod plan;

pub use flows::{FlowFile, read_flow_file};
pub use input::{Input, read_input};
