//! Which side of a turn is first.

ghost use Rattle.std.specs.Prelude.{◌≡◌};
ghost use Rattle.cell_steps.specs.Possible.{next_round};

/// Which side of a turn is first, and has half of the room. Rounds come in this order and begin anew, so that nothing that is possible is
/// put off for ever by what goes on and on.
#[derive(Clone, Copy)]
pub enum Round {
    /// What waits.
    Waits,
    /// Timers that are due, then deliveries.
    Timers,
    /// What waits, once more.
    WaitsAgain,
    /// Deliveries, then timers.
    Deliveries,
}

impl Round {
    /// The round behind this one.
    pub fn next(self) -> Round
        ensures { result ≡ next_round self }
    {
        match self {
            Round::Waits => Round::Timers,
            Round::Timers => Round::WaitsAgain,
            Round::WaitsAgain => Round::Deliveries,
            Round::Deliveries => Round::Waits,
        }
    }
}
