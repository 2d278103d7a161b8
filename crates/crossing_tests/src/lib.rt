//! Tests of the store of many partitions, call by call: a frame of partition 0 sends a message, and one of partition 1 takes it in. The
//! device calls of both are made in each order, each of them fails in turn, and behind each the images of a crash are read back.
//!
//! - `frames` are the two frames, `ledgers` what others see of the two partitions at the beginning, and `case` by what a call begins.
//! - `calls` makes a call of the store, and `play` makes the calls of a run one after another.
//! - `orders` are the orders of the calls, `rules` what each call of a run comes to by the rules alone, and `images` what a crash leaves.
//! - `crossing_tests` holds one against the other.
#![tactic(auto)]

#[cfg(test)]
mod calls;
#[cfg(test)]
mod case;
#[cfg(test)]
mod crossing_tests;
#[cfg(test)]
mod frames;
#[cfg(test)]
mod images;
#[cfg(test)]
mod ledgers;
#[cfg(test)]
mod orders;
#[cfg(test)]
mod play;
#[cfg(test)]
mod rules;
