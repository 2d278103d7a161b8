//! What is settled of two partitions.

ghost use Rattle.std.specs.Prelude.{◌≡◌, [], ◌∷◌};
ghost use Rattle.commit_gate.specs.Unlost.{AreUnlost, IsUnlost};
ghost use Rattle.commit_gate.specs.Views.{ledger_of, floors_in, box_of, whole_box};

use crate::frames::message_of;
use commit_gate::{Ledger, Past, Stream};
use dura_value::{Floor, Identity, Posted};
use std::alloc::Global;
use std::collections::VecDeque;
use std::process::Abort;

/// Of partition 0 nothing is settled.
pub(crate) fn reader(rt: &impl Abort, alloc: Global) -> Ledger
    ensures { IsUnlost (ledger_of result) (floors_in result) }
{
    Ledger::recovered(
        alloc,
        Past::none(alloc),
        Vec::new(alloc),
        Vec::new(alloc),
        Vec::new(alloc),
        Vec::new(alloc),
    )
}

/// The stream from partition 1 to partition 0: message 5 is `one`, by the entry at position 1, and message 6 is `two`, by the one at 2.
fn stream(rt: &impl Abort, alloc: Global) -> Stream
    ensures { whole_box result ≡ box_of result }
{
    let mut messages = VecDeque::new(alloc);
    for (incarnation, position, text) in [(0, 1, "one"), (2, 2, "two")] {
        let entry = Identity {
            partition: 1,
            incarnation,
            position,
        };
        let message = message_of(rt, alloc, text);
        messages
            .push_back(Posted { entry, message })
            .expect(rt, "memory");
    }
    Stream::of(5, messages)
}

/// Entries of these incarnations, one after another.
pub(crate) fn past_of(rt: &impl Abort, alloc: Global, incarnations: &[u64]) -> Past
    ensures { result ≡ incarnations.now }
{
    let mut past = Past::none(alloc);
    for incarnation in incarnations {
        past.push(*incarnation).expect(rt, "memory");
    }
    past
}

/// Of partition 1 the entries at 0 and 1 are of incarnation 0, and the one at 2 of incarnation 2, which gave up what earlier ones made from
/// there on. It took in the stream from partition 0 before message 4.
fn sender(rt: &impl Abort, alloc: Global) -> Ledger
    ensures { IsUnlost (ledger_of result) (floors_in result) }
{
    let floor = Floor {
        partition: 1,
        incarnation: 2,
        from: 2,
    };
    let reader = Identity {
        partition: 1,
        incarnation: 0,
        position: 0,
    };
    let past = past_of(rt, alloc, &[0, 0, 2]);
    let floors = vec![in alloc; floor].expect(rt, "memory");
    let nexts = vec![in alloc; 4].expect(rt, "memory");
    let readers = vec![in alloc; reader].expect(rt, "memory");
    let boxes = vec![in alloc; stream(rt, alloc)].expect(rt, "memory");
    Ledger::recovered(alloc, past, floors, nexts, readers, boxes)
}

pub(crate) fn both(rt: &impl Abort, alloc: Global, first: Ledger, second: Ledger) -> Vec<Ledger>
    ensures { result.items ≡ first ∷ second ∷ [] }
{
    vec![in alloc; first, second].expect(rt, "memory")
}

/// What is settled of both of them.
pub(crate) fn settled(rt: &impl Abort, alloc: Global) -> Vec<Ledger>
    ensures { AreUnlost result.items }
{
    both(rt, alloc, reader(rt, alloc), sender(rt, alloc))
}
