// Who makes several files safe at once.
ghost use Rattle.std.specs.Prelude.{◌≡◌, true, ℕ, All, OnOk};
ghost use Rattle.site_host.specs.Flush.{is_safe};

use crate::directory::FILES_LIMIT;
use crate::flush::Flush;
use std::alloc::{AllocError, Global};
use std::sync::{Arc, Wait};
use std::thread::Threads;
use std::{io, thread};
use task_pool::Pool;

/// How many threads help where there are many files. With more a disk was no faster.
pub const HELPERS: u32 = 7;

/// Makes several files safe.
pub trait FlushMany {
    /// Makes the files with these numbers safe, each of which the closure gives, and waits for all. Where one failed it gives
    /// its number, with why. Each call has another round.
    fn flush_many<F: Fn(u32) -> io::Result<Flush>>(
        &self,
        round: u64,
        numbers: &[u32],
        to_flush: F,
    ) -> Result<(), (u32, io::Error)>
        requires { (number : ℕ) → F.pre to_flush number }
        ensures { OnOk result (All (λ number. is_safe round number ≡ true) numbers.now) };
}

/// Threads that make files safe, several at once.
#[derive(Drop)]
pub struct Helpers<W> {
    rt: W,
    pool: Arc<Pool<Flush>>,
}

impl<W> Helpers<W> {
    /// So many threads, which wait for work from here on, until the program ends. With none, or where the system makes
    /// none, the one that asks does all. The memory for all files is taken here.
    pub fn start(rt: W, alloc: Global, count: u32) -> Result<Helpers<W>, AllocError>
    where
        W: Threads + Wait + Copy + Send + Drop + 'static,
    {
        let pool: Arc<Pool<Flush>> = Arc::new(alloc, Pool::new(alloc, FILES_LIMIT)?)?;
        for _ in 0..count {
            let shared = Arc::try_clone(&pool)?;
            let _ = thread::spawn(&rt, move || shared.serve(&rt));
        }
        Ok(Helpers { rt, pool })
    }
}

impl<W: Wait> FlushMany for Helpers<W> {
    fn flush_many<F: Fn(u32) -> io::Result<Flush>>(
        &self,
        round: u64,
        numbers: &[u32],
        to_flush: F,
    ) -> Result<(), (u32, io::Error)> {
        self.pool.run(&self.rt, round, numbers, to_flush)
    }
}
