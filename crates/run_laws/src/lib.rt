//! What a crash leaves at each moment of a call: the run that the files stand for, and the answers that were said; and what holds of
//! every legal run. Definitions and laws of them alone.
//!
//! - `specs/Begins`: where a call of one partition begins, and what it may commit and say.
//! - `specs/Leaves`: the run that a crash leaves, and the answers that were said.
//! - `laws` is the law of moments and what becomes of requests (`specs/Requests`), and `examples` what the definitions say of single calls (`specs/Examples`).
//! - `sections` are the laws of sections, for all flows: no two overlap, who waits for an entity holds only smaller ones, nobody waits
//!   in a circle, and an entity with a holder has a cause (`specs/Causes`). `worlds` are worlds made by hand in which they fail.
#![tactic(auto)]

mod examples;
mod laws;
mod sections;
mod worlds;
