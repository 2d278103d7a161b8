//! Cells and a store whose gate compares: what a cell makes ahead of its log is written, settled, given up and taken over, each by calls
//! that are one of the cell and one of the store; and laws that join the clauses of the one to those of the other.
//!
//! - `specs/Joined`: what a cell and the store know of one partition between calls (`Joined`). `specs/Begun`: what is known of where the
//!   call begins, whatever the disk tells. `specs/Writes`: what the store asks of a frame.
//! - `seat`: what stands in a cell for its place in the store. `writing`: a frame is picked and written; `settling`: it is settled;
//!   `judging`: what depends on a lost entry is given up; `owning`: a partition's log is opened again, and all that its cell holds is
//!   given up.
//! - `specs/Ours`: what the rules of a call ask of the entries that a cell holds. `specs/LetGo`: how far entries let go of streams, and
//!   `specs/TrimsRead`: only of what was read.
//! - `laws`: the frame that a cell picks may be made by its own partition, what it says that this sends is what its entries do, and what a
//!   turn makes is the call's.
//! - `arriving`: what comes to a cell, and what it gives up, leaves it the call's. `trims`: it lets go of no more than was read.
//! - `logs`: a frame is written and read again where its log goes on, and what it sends goes to partitions that there are.
//! - `lost`: no incarnation gave up an entry of a picked frame (`specs/Unlost`).
//! - `alone`: what a cell does without the store, what comes to it, and what the store says leave it joined to it.
#![tactic(auto)]

mod alone;
mod arriving;
mod judging;
mod laws;
mod logs;
mod lost;
mod owning;
mod seat;
mod settling;
mod trims;
mod writing;

pub use judging::judge_cell;
pub use owning::{Reopened, reopen_cell, reset_cell};
pub use seat::Seat;
pub use settling::{SettleRefusal, settle_frame};
pub use writing::write_frame;
