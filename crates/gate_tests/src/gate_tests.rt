//! Frames of partition 0, and what the test before its gate says of each by what is settled.

ghost use Rattle.commit_gate.specs.Unlost.{AreUnlost};

use crate::frames::frame_in;
use crate::ledgers::settled;
use commit_gate::{Ledger, Unmet, test_frame};
use dura_value::Identity;
use std::alloc::Global;
use std::process::Abort;

/// An entry as the lines have it.
fn name(rt: &impl Abort, alloc: Global, dep: Identity) -> String {
    let Identity {
        partition,
        incarnation,
        position,
    } = dep;
    format!(in alloc; "{partition}/{incarnation}/{position}").expect(rt, "memory")
}

/// What the test says.
fn told(rt: &impl Abort, alloc: Global, found: Result<(), Unmet>) -> String {
    match found {
        Ok(()) => String::from_str(alloc, "passes"),
        Err(Unmet::Lost { dep, floor }) => {
            let dep = name(rt, alloc, dep);
            format!(in alloc; "{dep} was given up from {floor} on")
        }
        Err(Unmet::NotReady { dep, have }) => {
            let dep = name(rt, alloc, dep);
            format!(in alloc; "{dep} isn't settled of {have}")
        }
        Err(Unmet::Differs { dep }) => {
            let dep = name(rt, alloc, dep);
            format!(in alloc; "{dep} is another")
        }
    }
    .expect(rt, "memory")
}

/// What a line says is so, where this is settled.
pub(crate) fn check_line(rt: &impl Abort, alloc: Global, ledgers: &[Ledger], line: &str)
    requires { AreUnlost ledgers.now }
{
    let (items, wanted) = line.split_once(": ").expect(rt, "what it comes to");
    let frame = frame_in(rt, alloc, items);
    let found = told(rt, alloc, test_frame(ledgers, 0, &frame));
    assert!(rt; found.as_str() == wanted, "not so: {line}, but {found}");
}

fn check_settled(rt: &impl Abort, alloc: Global, line: &str) {
    let ledgers = settled(rt, alloc);
    check_line(rt, alloc, ledgers.as_slice(), line);
}

/// What each line says is so.
fn check(rt: &impl Abort, alloc: Global, lines: &str) {
    for line in lines.lines() {
        check_settled(rt, alloc, line);
    }
}

/// The message under a number is the one that its stream has there, by the entry that sent it, whatever a packet said.
const MESSAGES: &str = "got 1/0/1 5 one: passes
got 1/2/2 6 two: passes
got 1/0/1 5 one, got 1/2/2 6 two: passes
got 1/0/1 5 two: 1/0/1 is another
got 1/0/1 6 one: 1/0/1 is another
got 1/0/1 6 two: 1/0/1 is another
got 1/0/1 4 one: 1/0/1 is another
got 1/0/1 7 one: 1/0/1 is another
got 1/0/0 5 one: 1/0/0 is another
got 1/2/2 5 one: 1/2/2 is another
got 1/0/1 5 one, got 1/2/2 6 one: 1/2/2 is another";

/// An entry is one by its incarnation too.
const IDENTITIES: &str = "got 1/1/1 5 one: 1/1/1 is another
got 1/3/1 5 one: 1/3/1 is another
got 1/3/2 6 two: 1/3/2 is another
got 1/0/2 6 two: 1/0/2 was given up from 2 on
got 1/1/2 6 two: 1/1/2 was given up from 2 on
got 1/1/9 6 two: 1/1/9 was given up from 2 on
got 1/2/3 7 one: 1/2/3 isn't settled of 3
got 1/2/9 7 one: 1/2/9 isn't settled of 3
got 0/0/0 0 one: 0/0/0 isn't settled of 0
got 2/0/0 0 one: 2/0/0 isn't settled of 0";

/// A stream is let go as far as it was read by what is settled.
const LET_GO: &str = "trim 1/0/0 4: passes
trim 1/2/2 4: passes
trim 1/0/0 0: passes
trim 1/0/0 5: 1/0/0 is another
trim 1/1/0 4: 1/1/0 is another
trim 1/0/2 4: 1/0/2 was given up from 2 on
trim 1/2/3 4: 1/2/3 isn't settled of 3
trim 2/0/0 0: 2/0/0 isn't settled of 0
trim 1/0/0 4, got 1/0/1 5 two: 1/0/1 is another";

#[test]
fn frames_at_the_gate(rt: HostRuntime) {
    let alloc = rt.alloc();
    check(&rt, alloc, MESSAGES);
    check(&rt, alloc, IDENTITIES);
    check(&rt, alloc, LET_GO);
}
