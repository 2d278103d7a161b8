//! Laws of what was settled behind a store whose gate compares, and of what cells let go of once it was read. They are said of the
//! definitions alone: the functions do nothing.
//!
//! - `specs/HaveMade`: the states that what was settled makes of what was recovered.
//! - `laws`: what was settled makes such states, and no partition has read past where a stream ends.
#![tactic(auto)]

mod laws;
