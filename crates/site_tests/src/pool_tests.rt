// What no clause says of a pool of threads: that each task gets through and is done once, that a failure is told, and that
// no thread waits for ever, whoever is first.
use std::alloc::Global;
use std::io::ErrorKind;
use std::sync::atomic::{AtomicU64, Ordering};
use std::sync::{Arc, Wait};
use std::{io, thread};
use task_pool::{Pool, Task};

/// The number of a task that fails, and of one that can't be made.
const FAILS: u32 = 3;

const UNMADE: u32 = 4;

/// A task that adds its number to what is done.
#[derive(Drop)]
struct Add {
    number: u32,
    done: Arc<AtomicU64>,
}

impl Task for Add {
    ghost use Rattle.std.specs.Prelude.{true};

    ghost is_done = { λ _ _. true };

    ghost number_of = { λ add. add.number };

    fn number(&self) -> u32 {
        self.number
    }

    fn run(&self, _round: u64) -> io::Result<()> {
        if self.number == FAILS {
            return Err(io::Error::from(ErrorKind::Other));
        }
        self.done.fetch_add(self.number as u64, Ordering::SeqCst);
        Ok(())
    }
}

fn make_add(done: &Arc<AtomicU64>, number: u32) -> io::Result<Add> {
    if number == UNMADE {
        return Err(io::Error::from(ErrorKind::NotFound));
    }
    let done = Arc::try_clone(done)?;
    Ok(Add { number, done })
}

/// Does these tasks in a round, and gives which failed, if one did, and what is added up now.
fn run<R: Wait>(
    rt: &R,
    pool: &Pool<Add>,
    done: &Arc<AtomicU64>,
    round: u64,
    numbers: &[u32],
) -> (u32, u64) {
    let failed = match pool.run(rt, round, numbers, |number| make_add(done, number)) {
        Ok(()) => 0,
        Err((number, _)) => number,
    };
    (failed, done.load(Ordering::SeqCst))
}

/// Rounds that end as they should, with as many threads that help as there are.
fn check_rounds<R: Wait>(rt: &R, pool: &Pool<Add>, alloc: Global) -> bool {
    let Ok(done) = Arc::new(alloc, AtomicU64::new(0)) else {
        return false;
    };
    run(rt, pool, &done, 1, &[]) == (0, 0)
        && run(rt, pool, &done, 2, &[1]) == (0, 1)
        && run(rt, pool, &done, 3, &[10, 20, 30, 40, 50, 60, 70, 80]) == (0, 361)
        && run(rt, pool, &done, 4, &[100, FAILS, 200]) == (FAILS, 661)
        && run(rt, pool, &done, 5, &[1, 2, UNMADE, 5]) == (UNMADE, 664)
        && run(rt, pool, &done, 6, &[6, 6, 6]) == (0, 682)
}

/// Many short rounds, each of which has to be whole before the next one begins.
fn check_load<R: Wait>(rt: &R, pool: &Pool<Add>, alloc: Global) -> bool {
    let Ok(done) = Arc::new(alloc, AtomicU64::new(0)) else {
        return false;
    };
    let numbers = [11, 12, 13, 14, 15, 16, 17, 18];
    let mut sum = 0u64;
    for round in 0..4000u64 {
        let count = (round % 9) as usize;
        for number in &numbers[..count] {
            sum = sum.wrapping_add(*number as u64);
        }
        if run(rt, pool, &done, round, &numbers[..count]) != (0, sum) {
            return false;
        }
    }
    true
}

#[test]
fn a_pool_without_threads(rt: HostRuntime) {
    let alloc = rt.alloc();
    let pool = Pool::new(alloc, 8).expect(&rt, "memory");
    assert!(rt; check_rounds(&rt, &pool, alloc));
    assert!(rt; check_load(&rt, &pool, alloc));
}

#[test]
fn a_pool_with_threads(rt: HostRuntime) {
    let alloc = rt.alloc();
    let pool: Arc<Pool<Add>> = Arc::new(alloc, Pool::new(alloc, 8).expect(&rt, "memory")).expect(
        &rt, "memory",
    );
    let mut threads = Vec::new(alloc);
    for _ in 0..7 {
        let shared = Arc::try_clone(&pool).expect(&rt, "an owner more");
        let helper = thread::spawn(&rt, move || shared.serve(&rt))
            .ok()
            .expect(&rt, "a thread");
        threads.push(helper).expect(&rt, "memory");
    }
    assert!(rt; check_rounds(&rt, &pool, alloc));
    assert!(rt; check_load(&rt, &pool, alloc));
    pool.close(&rt);
    for helper in threads {
        helper.join(&rt);
    }
}
