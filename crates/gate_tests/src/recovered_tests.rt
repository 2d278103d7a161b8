//! Frames of partition 0, and what the test before its gate says of each where partition 1 was recovered.

ghost use Rattle.commit_gate.specs.Unlost.{AreUnlost, IsUnlost};
ghost use Rattle.commit_gate.specs.Views.{ledger_of as shown_by, floors_in};
ghost use Rattle.std.specs.Prelude.{◌≡◌};
ghost use Rattle.part_steps.specs.States.{IsSound, count_of};

use crate::gate_tests::check_line;
use crate::ledgers::{both, past_of, reader};
use crate::states::{fresh, went_on};
use commit_gate::Ledger;
use part_steps::PartState;
use state_ledgers::ledger_of;
use std::alloc::Global;
use std::process::Abort;

/// What others see of partition 1, whose entries are of these incarnations.
fn ledger(rt: &impl Abort, alloc: Global, state: PartState, incarnations: &[u64]) -> Ledger
    requires sound { IsSound state }
    requires among { count_of state ≡ 2 }
    ensures { IsUnlost (shown_by result) (floors_in result) }
{
    let past = past_of(rt, alloc, incarnations);
    let ledger = ledger_of(alloc, &state, 2, past).expect(rt, "memory");
    state.let_go();
    ledger
}

/// Of partition 0 nothing is settled, and of partition 1 this was recovered.
fn recovered(rt: &impl Abort, alloc: Global, state: PartState, incarnations: &[u64]) -> Vec<Ledger>
    requires sound { IsSound state }
    requires among { count_of state ≡ 2 }
    ensures { AreUnlost result.items }
{
    both(
        rt,
        alloc,
        reader(rt, alloc),
        ledger(rt, alloc, state, incarnations),
    )
}

/// What a line says is so.
fn check_recovered(rt: &impl Abort, alloc: Global, line: &str) {
    let ledgers = recovered(rt, alloc, went_on(rt, alloc), &[0, 0, 0, 2, 2, 2]);
    check_line(rt, alloc, ledgers.as_slice(), line);
}

/// What a line says is so where nothing happened.
fn check_fresh(rt: &impl Abort, alloc: Global, line: &str) {
    let ledgers = recovered(rt, alloc, fresh(alloc), &[]);
    check_line(rt, alloc, ledgers.as_slice(), line);
}

/// The one message that is left keeps its number and its entry.
const LEFT: &str = "got 1/2/3 3 four: passes
got 1/2/3 0 four: 1/2/3 is another
got 1/2/3 2 four: 1/2/3 is another
got 1/2/3 4 four: 1/2/3 is another
got 1/2/3 3 three: 1/2/3 is another
got 1/0/3 3 four: 1/0/3 is another
got 1/2/4 3 four: 1/2/4 is another";

/// What was let go is in no stream any more.
const GONE: &str = "got 1/0/0 0 one: 1/0/0 is another
got 1/0/2 2 three: 1/0/2 is another
got 1/0/2 3 three: 1/0/2 is another";

/// A stream to it is let go as far as it was taken in, by the entry that did.
const TAKEN_IN: &str = "trim 1/2/5 1: passes
trim 1/2/5 0: passes
trim 1/0/0 1: passes
trim 1/2/5 2: 1/2/5 is another
trim 1/0/5 1: 1/0/5 is another
trim 1/2/6 1: 1/2/6 isn't settled of 6";

/// Where nothing happened there is nothing to take in, and nothing is known.
const FRESH: &str = "got 1/0/0 0 one: 1/0/0 isn't settled of 0
trim 1/0/0 0: 1/0/0 isn't settled of 0
trim 1/0/0 1: 1/0/0 isn't settled of 0";

#[test]
fn a_message_that_is_left(rt: HostRuntime) {
    let alloc = rt.alloc();
    for line in LEFT.lines() {
        check_recovered(&rt, alloc, line);
    }
}

#[test]
fn messages_that_were_let_go(rt: HostRuntime) {
    let alloc = rt.alloc();
    for line in GONE.lines() {
        check_recovered(&rt, alloc, line);
    }
}

#[test]
fn streams_that_were_taken_in(rt: HostRuntime) {
    let alloc = rt.alloc();
    for line in TAKEN_IN.lines() {
        check_recovered(&rt, alloc, line);
    }
}

#[test]
fn a_partition_where_nothing_happened(rt: HostRuntime) {
    let alloc = rt.alloc();
    for line in FRESH.lines() {
        check_fresh(&rt, alloc, line);
    }
}
