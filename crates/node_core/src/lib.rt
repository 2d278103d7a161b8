//! The turns of nodes.
#![tactic(auto)]

mod crew;
mod halt;
mod stepping;
mod stops;
mod waves;

pub use crew::Crew;
pub use halt::Halt;
pub use stepping::{Stepped, send, step_turn, take_in};
pub use stops::has_stopped;
pub use waves::{Wave, commit_wave, judge_all};
