// What a thread of a pool does.
ghost use Rattle.std.specs.Prelude.{◌≡◌, true, ℕ, Bool, OnOk};

use std::io;

/// A task, which is known by its number.
pub trait Task: Send + Drop {
    /// Whether the task with a number was done in a round: the round, and then the number. Nothing tells it but `run`.
    ghost is_done: { ℕ → ℕ → Bool };

    /// The task's number.
    ghost number_of: { Self → ℕ };

    /// The task's number.
    fn number(&self) -> u32
        ensures { result ≡ number_of self.now };

    /// Does the task, in this round.
    fn run(&self, round: u64) -> io::Result<()>
        ensures { OnOk result (is_done round (number_of self.now) ≡ true) };
}
