//! One step of one partition among all, by the calls of its cell and of the store: each keeps the store, and keeps all cells joined to it.
//! A life of the world and an engine that runs are lists of these steps.
//!
//! - `comes`: a request, a packet, an outcome, a moment comes, and what was read may be let go of. `turning`: an entry is made. `tasks`: a
//!   task is given out that runs. `sending`: what others may lack is sent again.
//! - `frames`: a frame is written, and settled. `gates`: it is made safe, and its gate is opened. `given_up`: what depends on a lost entry is
//!   given up. `taking_over`: a node takes a partition over.
//! - `saying`: an answer is said. `known`: what is known of cells and of the logs.
//! - `specs/Cells`: one cell becomes another, and all are joined to the store. `specs/Known`: what is known of the logs.
#![tactic(auto)]

mod comes;
mod frames;
mod gates;
mod given_up;
mod known;
mod saying;
mod sending;
mod taking_over;
mod tasks;
mod turning;

pub use comes::{arrive_at, fire_at, offer_at, record_at, trim_at};
pub use frames::{settle_at, write_at};
pub use gates::{open_gate, sync_frame, sync_frames};
pub use given_up::judge_at;
pub use known::{look_at, marks_now};
pub use saying::say_answer;
pub use sending::resend_at;
pub use taking_over::{Taken, take_over_at};
pub use tasks::take_task_at;
pub use turning::turn_at;
