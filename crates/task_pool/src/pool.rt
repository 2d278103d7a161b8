// The threads, and what they share.
ghost use Rattle.std.specs.Prelude.{◌≡◌, true, ℕ, All, OnOk};

use crate::Task;
use crate::receipt::{Receipt, all_among};
use std::alloc::{AllocError, Global};
use std::io;
use std::sync::{Condvar, Mutex, Wait};

// What the threads share under a lock. Each task of a round is put up, taken, done and answered for.
#[derive(Drop)]
struct Board<T: Task> {
    round: u64,
    // the tasks that no thread has taken yet
    todo: Vec<T>,
    // how many were put up and aren't answered for
    open: usize,
    done: Vec<Receipt<T>>,
    // one that couldn't be done, with why
    failed: Option<(u32, io::Error)>,
    // no thread is to wait any more
    is_closed: bool,
}

/// Threads that wait for tasks, and a caller who gives them some.
///
/// A round ends before the next one begins: one thread at a time calls `run`, and each time with another round.
#[derive(Drop)]
pub struct Pool<T: Task> {
    board: Mutex<Board<T>>,
    // a task was put up, or the pool was closed
    posted: Condvar,
    // every task is answered for
    settled: Condvar,
}

impl<T: Task> Pool<T> {
    /// A pool in which no thread waits yet. It takes its memory here, for so many tasks at once.
    pub fn new(alloc: Global, most: usize) -> Result<Pool<T>, AllocError> {
        Ok(Pool {
            board: Mutex::new(Board {
                round: 0,
                todo: Vec::with_capacity(alloc, most)?,
                open: 0,
                done: Vec::with_capacity(alloc, most)?,
                failed: None,
                is_closed: false,
            }),
            posted: Condvar::new(),
            settled: Condvar::new(),
        })
    }

    /// Has the tasks with these numbers done, some at once, and works with the others until all are. Says whether each
    /// was done in this round; else the number of one that wasn't, with why.
    pub fn run<R: Wait, F: Fn(u32) -> io::Result<T>>(
        &self,
        rt: &R,
        round: u64,
        numbers: &[u32],
        task: F,
    ) -> Result<(), (u32, io::Error)>
        requires { (number : ℕ) → F.pre task number }
        ensures { OnOk result (All (λ number. T.is_done round number ≡ true) numbers.now) }
    {
        self.begin(rt, round);
        for number in numbers {
            let posted = match task(*number) {
                Ok(task) => self.post(rt, task),
                Err(error) => Err(error),
            };
            if let Err(error) = posted {
                self.finish(rt, round, &[])?;
                return Err((*number, error));
            }
        }
        self.finish(rt, round, numbers)
    }

    /// Does tasks as they are put up, until the pool is closed. A thread that helps calls it.
    pub fn serve<R: Wait>(&self, rt: &R) {
        for _ in rt.forever() {
            if !self.work(rt) && self.rest(rt) {
                break;
            }
        }
    }

    /// Lets each thread that helps go, once it has done what it took.
    pub fn close<R: Wait>(&self, rt: &R) {
        self.board.lock(rt).is_closed = true;
        self.posted.notify_all();
    }

    // Begins a round. Nothing is put up before: a thread notes the round with the task that it takes.
    fn begin<R: Wait>(&self, rt: &R, round: u64) {
        let mut board = self.board.lock(rt);
        board.round = round;
        board.done.clear();
        board.failed = None;
    }

    // Puts up a task, which whichever thread takes it does.
    fn post<R: Wait>(&self, rt: &R, task: T) -> io::Result<()> {
        let mut board = self.board.lock(rt);
        board.todo.push(task)?;
        board.open = board.open.saturating_add(1);
        self.posted.notify_one();
        Ok(())
    }

    // Works with the others until every task is answered for, and says whether those with these numbers were done.
    fn finish<R: Wait>(&self, rt: &R, round: u64, numbers: &[u32]) -> Result<(), (u32, io::Error)>
        ensures { OnOk result (All (λ number. T.is_done round number ≡ true) numbers.now) }
    {
        for _ in 0..u64::MAX {
            if !self.work(rt) {
                break;
            }
        }
        let guard = self.board.lock(rt);
        let mut board = self.settled.wait_while(rt, guard, |board| board.open > 0);
        if let Some(failed) = board.failed.take() {
            return Err(failed);
        }
        all_among(&board.done, round, numbers)
    }

    // Waits until a task is put up, and says whether the pool was closed in place of that.
    fn rest<R: Wait>(&self, rt: &R) -> bool {
        let guard = self.board.lock(rt);
        let board = self.posted.wait_while(rt, guard, |board| {
            board.todo.is_empty() && !board.is_closed
        });
        board.todo.is_empty()
    }

    // Takes a task and does it, if there is one.
    fn work<R: Wait>(&self, rt: &R) -> bool {
        let Some((task, round)) = self.take(rt) else {
            return false;
        };
        let answer = Receipt::of(&task, round);
        drop(task);
        self.answer(rt, answer);
        true
    }

    fn take<R: Wait>(&self, rt: &R) -> Option<(T, u64)> {
        let mut board = self.board.lock(rt);
        let round = board.round;
        board.todo.pop().map(|task| (task, round))
    }

    // Answers for a task that was taken. Where memory runs out its receipt is lost, and the round fails.
    fn answer<R: Wait>(&self, rt: &R, answer: Result<Receipt<T>, (u32, io::Error)>) {
        let mut board = self.board.lock(rt);
        match answer {
            Ok(receipt) => {
                let _ = board.done.push(receipt);
            }
            Err(failed) => board.failed = Some(failed),
        }
        board.open = board.open.saturating_sub(1);
        if board.open == 0 {
            self.settled.notify_all();
        }
    }
}
