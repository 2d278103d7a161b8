//! What files stand for, and what a call of one partition may commit and say, as definitions alone.
//!
//! - `specs/Rules`: which entries may follow those that are settled, and which lines may be said.
//! - `specs/Stands`: the run that the files of the one partition stand for; `standing` are laws and examples of it.
//! - `laws` are laws of the rules, and `examples` what they say of single entries and lines (`specs/Examples`).
#![tactic(auto)]

mod examples;
mod field_examples;
mod laws;
mod standing;
