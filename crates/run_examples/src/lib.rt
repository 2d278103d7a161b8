//! Definitions that clauses of the state and of the call cite, from both sides: for each an example that has it, and one that hasn't.
//! They are said of the definitions alone: the functions do nothing.
//!
//! - `state_examples`: definitions of a partition's state (`part_steps`).
//! - `recovery_examples`: those of what is recovered (`recover_core`).
//! - `call_examples`: those of the call (`engine_run`, `cluster_run`); `refusal_examples`: what its files held, and why they are refused;
//!   `going_examples`: what stands on files that a run of one partition leaves; `life_examples`: calls one after another;
//!   `clock_examples`: what goes by a clock; `saying_examples`: what a call says; `show_examples`: what a call shows;
//!   `promise_examples`: the list of all that it promises.
#![tactic(auto)]

mod call_examples;
mod clock_examples;
mod going_examples;
mod life_examples;
mod promise_examples;
mod recovery_examples;
mod refusal_examples;
mod saying_examples;
mod show_examples;
mod state_examples;
