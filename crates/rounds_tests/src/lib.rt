//! Trials.
#![tactic(auto)]

#[cfg(test)]
mod trials;
