//! What is done in a life.

use world_core::Event;

/// What is done in a life.
#[derive(Drop)]
pub enum Deed {
    /// An event happens.
    Happen(Event),
    /// All cells are judged, until nothing more is given up.
    JudgeAll,
}
