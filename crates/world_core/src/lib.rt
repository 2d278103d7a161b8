//! The world in a life: for every list of events, whatever comes again or late, what each makes of the cells and the store.
#![tactic(auto)]

mod answer;
mod coming;
mod event;
mod happening;
mod life;
mod marking;
mod meeting;
mod outcomes;
mod saying;
mod working;

pub use answer::Answer;
pub use event::Event;
pub use happening::happen;
pub use life::Life;
