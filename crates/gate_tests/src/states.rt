//! The state of partition 1 of two, as entries make it.

ghost use Rattle.std.specs.Prelude.{◌≡◌};
ghost use Rattle.part_steps.specs.States.{IsSound, count_of};

use crate::frames::{message_of, request_of};
use dura_value::{Answer, Id, Message, Name};
use flow_messages::{Entity, Event};
use log_items::Item;
use part_rows::{Reaction, Reactions, Row};
use part_steps::{PartState, Verdict};
use std::alloc::{AllocError, Global};
use std::process::Abort;

/// No flows and no classes: what reaches an instance or an entity finds no memory.
struct NoFlows;

impl Reactions for NoFlows {
    ghost use Rattle.std.specs.Prelude.{[]};

    ghost flows = { λ it. record { flows = []; classes = [] } };

    fn react(
        &self,
        _alloc: Global,
        _row: Option<&Row>,
        _message: &Message,
        _stamp: u64,
    ) -> Result<Reaction, AllocError> {
        Err(AllocError)
    }

    fn go_on(
        &self,
        _alloc: Global,
        _id: &Id,
        _row: &Row,
        _event: Event,
        _stamp: u64,
    ) -> Result<Reaction, AllocError> {
        Err(AllocError)
    }

    fn deliver(
        &self,
        _alloc: Global,
        _class: &Name,
        _kept: Option<Entity>,
        _message: &Message,
        _stamp: u64,
    ) -> Result<(Entity, Vec<Message>), AllocError> {
        Err(AllocError)
    }

    fn has_class(&self, _class: &Name) -> bool {
        false
    }

    fn standing(&self, _alloc: Global, _id: &Id, _row: &Row) -> Result<Answer, AllocError> {
        Err(AllocError)
    }
}

/// An entry of this incarnation with one item comes behind those that made the state.
fn with_entry(
    rt: &impl Abort,
    alloc: Global,
    state: PartState,
    incarnation: u64,
    item: Item,
) -> PartState
    requires sound { IsSound state }
    requires among { count_of state ≡ 2 }
    ensures sound { IsSound result }
    ensures among { count_of result ≡ 2 }
{
    if incarnation < state.incarnation() || state.position() > 99 {
        panic!(rt; "no entry that may follow");
    }
    let entered = state.enter(incarnation);
    match entered.apply(alloc, &NoFlows, &item).expect(rt, "memory") {
        Verdict::Accepted(next, outputs) => {
            outputs.let_go();
            next
        }
        Verdict::Refused(_) => panic!(rt; "no item that is accepted"),
    }
}

/// The state of partition 1 of two where nothing happened.
pub(crate) fn fresh(alloc: Global) -> PartState
    ensures sound { IsSound result }
    ensures among { count_of result ≡ 2 }
{
    PartState::new(alloc, 2, 1)
}

/// Four messages went to partition 0: those with the numbers 0 to 2 by entries of incarnation 0, and number 3, which is `four`, by one of
/// incarnation 2. Then all before that were let go, and one message of partition 0 was taken in.
pub(crate) fn went_on(rt: &impl Abort, alloc: Global) -> PartState
    ensures sound { IsSound result }
    ensures among { count_of result ≡ 2 }
{
    let mut state = fresh(alloc);
    for (number, text) in [(2, "one"), (3, "two"), (4, "three")] {
        let request = request_of(rt, alloc, b"#a", b"Flow/x", number, text);
        state = with_entry(rt, alloc, state, 0, Item::Took(request));
    }
    let last = message_of(rt, alloc, "four");
    let state = with_entry(rt, alloc, state, 2, Item::Took(last));
    let state = with_entry(rt, alloc, state, 2, Item::Trim(0, 3, 0, 0));
    let other = request_of(rt, alloc, b"#b", b"Flow/y", 1, "five");
    with_entry(rt, alloc, state, 2, Item::Got(0, 0, 1, 0, other))
}
