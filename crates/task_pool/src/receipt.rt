// That a task was done.
ghost use Rattle.std.specs.Prelude.{◌≡◌, true, All, OnOk, IsTrue};

use crate::Task;
use std::io;
use std::io::ErrorKind;
use std::marker::PhantomData;

/// One for each task that was done. Whoever has it knows so, whichever thread did it.
#[derive(Drop)]
pub(crate) struct Receipt<T: Task> {
    round: u64,
    number: u32,
    task: PhantomData<T>,
    ghost is_done: { T.is_done round number ≡ true },
}

impl<T: Task> Receipt<T> {
    /// Does the task. An error comes with the task's number.
    pub(crate) fn of(task: &T, round: u64) -> Result<Receipt<T>, (u32, io::Error)> {
        match task.run(round) {
            Ok(()) => Ok(Receipt {
                round,
                number: task.number(),
                task: PhantomData,
            }),
            Err(error) => Err((task.number(), error)),
        }
    }

    /// Whether it is for this task and this round.
    fn shows(&self, round: u64, number: u32) -> bool
        ensures { IsTrue result → T.is_done round number ≡ true }
    {
        self.round == round && self.number == number
    }
}

/// Whether there is a receipt of this round for each task; else the number of one for which there is none. Each task that
/// was done has one, unless memory ran out.
pub(crate) fn all_among<T: Task>(
    receipts: &[Receipt<T>],
    round: u64,
    numbers: &[u32],
) -> Result<(), (u32, io::Error)>
    ensures { OnOk result (All (λ number. T.is_done round number ≡ true) numbers.now) }
{
    for number in numbers {
        if !is_among(receipts, round, *number) {
            return Err((*number, io::Error::from(ErrorKind::OutOfMemory)));
        }
    }
    Ok(())
}

fn is_among<T: Task>(receipts: &[Receipt<T>], round: u64, number: u32) -> bool
    ensures { IsTrue result → T.is_done round number ≡ true }
{
    for receipt in receipts {
        if receipt.shows(round, number) {
            return true;
        }
    }
    false
}
