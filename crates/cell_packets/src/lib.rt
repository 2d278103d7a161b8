//! The messages that the streams of a partition have beyond where earlier ones ended.
//!
//! - `beyond`: as packets to other partitions, and as what a frame sends.
//! - `streams`: where a stream ends, and its message under a number.
//! - `specs/Packets`: what these are.
#![tactic(auto)]

mod beyond;
mod streams;

pub use beyond::{packets_beyond, sending_beyond};
