//! Tests of cells that are run, as transcripts: texts with a line for each call of a cell, and what it answers. A line that fails is told
//! by its text.
//!
//! - `seat` is the seat of a cell that a test begins, and `calls` are the calls of a line. `cell_tests` are the transcripts.
//! - `stream_tests` has many packets of many streams come in no order.
//! - `world` has four cells and what they sent one another, `said` what that says, and `world_calls` their calls. `draw_tests` are the
//!   transcripts.
//! - `settle_tests` has a cell settle what it made, and `task_tests` give out what is to be run then.
#![tactic(auto)]

#[cfg(test)]
mod calls;
#[cfg(test)]
mod cell_tests;
#[cfg(test)]
mod draw_tests;
#[cfg(test)]
mod said;
#[cfg(test)]
mod seat;
#[cfg(test)]
mod settle_tests;
#[cfg(test)]
mod stream_tests;
#[cfg(test)]
mod task_tests;
#[cfg(test)]
mod world;
#[cfg(test)]
mod world_calls;
