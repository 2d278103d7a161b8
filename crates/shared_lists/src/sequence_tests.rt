//! What no clause says of a sequence: that it stays balanced, and that its calls succeed; and that a copy stays.

use crate::SharedSequence;
use std::alloc::Global;
use std::process::Abort;

/// The numbers from 0 on, so many.
fn numbers(rt: &impl Abort, alloc: Global, count: u64) -> SharedSequence<u64> {
    let mut sequence = SharedSequence::new();
    for number in 0..count {
        sequence.push(alloc, number).expect(rt, "memory");
    }
    sequence
}

/// The number at a place is taken out.
fn taken(rt: &impl Abort, alloc: Global, sequence: &mut SharedSequence<u64>, place: usize) -> u64 {
    assert!(rt; place < sequence.len());
    let taken = sequence.remove(alloc, place).expect(rt, "a number");
    *taken.get()
}

/// The sequence has these numbers and no more.
fn check(rt: &impl Abort, sequence: &SharedSequence<u64>, wanted: &[u64]) {
    assert!(rt; sequence.len() == wanted.len());
    for (place, number) in wanted.iter().enumerate() {
        assert!(rt; sequence.get(place) == Some(number), "at {place}");
    }
    assert!(rt; sequence.get(wanted.len()).is_none());
}

#[test]
fn pushes_stay_balanced(rt: HostRuntime) {
    let alloc = rt.alloc();
    let mut sequence = numbers(&rt, alloc, 10_000);
    assert!(rt; sequence.len() == 10_000);
    assert!(rt; sequence.height() <= 20);
    assert!(rt; sequence.get(6_789) == Some(&6_789));
    for number in 0..9_000 {
        assert!(rt; taken(&rt, alloc, &mut sequence, 0) == number);
    }
    assert!(rt; sequence.len() == 1_000);
    assert!(rt; sequence.height() <= 15);
    assert!(rt; sequence.get(789) == Some(&9_789));
    drop(sequence);
}

#[test]
fn items_leave_anywhere(rt: HostRuntime) {
    let alloc = rt.alloc();
    let mut sequence = numbers(&rt, alloc, 10);
    assert!(rt; taken(&rt, alloc, &mut sequence, 0) == 0);
    assert!(rt; taken(&rt, alloc, &mut sequence, 8) == 9);
    assert!(rt; taken(&rt, alloc, &mut sequence, 3) == 4);
    assert!(rt; taken(&rt, alloc, &mut sequence, 4) == 6);
    check(&rt, &sequence, &[1, 2, 3, 5, 7, 8]);
    drop(sequence);
}

#[test]
fn a_copy_stays(rt: HostRuntime) {
    let alloc = rt.alloc();
    let mut sequence = numbers(&rt, alloc, 6);
    let copy = sequence.copy().expect(&rt, "memory");
    assert!(rt; taken(&rt, alloc, &mut sequence, 2) == 2);
    sequence.push(alloc, 77).expect(&rt, "memory");
    assert!(rt; taken(&rt, alloc, &mut sequence, 0) == 0);
    check(&rt, &copy, &[0, 1, 2, 3, 4, 5]);
    check(&rt, &sequence, &[1, 3, 4, 5, 77]);
    drop(copy);
    check(&rt, &sequence, &[1, 3, 4, 5, 77]);
    drop(sequence);
}
