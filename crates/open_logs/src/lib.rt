//! Opening the logs of many partitions: what a life of a store begins with, from one opening of its files to the next crash.
//!
//! - `opening` recovers all partitions and opens their logs ([`open_logs`]); `formatting` opens the logs one after another, and makes one
//!   for each partition that has none. `begun` is what a life begins with ([`Begun`]), and `error` says why it doesn't ([`OpenError`]).
//! - `specs/Begun`: what is known of it whatever the disk tells; a run made it, and where the disk tells its entries are those that the files
//!   keep (`proofs/KeptRun`: so the files keep that run). `specs/Opened`: where the life begins by each run whose entries the files kept.
//!   `specs/Moments`: what a crash leaves meanwhile. `specs/Spent`: why nothing is opened.
//! - `specs/Picks`: the origin that a call picks for the life, and `proofs/Picked`: it is one, and each of its logs goes on where the state
//!   does.
#![tactic(auto)]

mod begun;
mod error;
mod formatting;
mod opening;

pub use begun::Begun;
pub use error::OpenError;
pub use opening::open_logs;
