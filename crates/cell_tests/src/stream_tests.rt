//! Many packets of 31 streams, in no order and with repeats.

ghost use Rattle.std.specs.Prelude.{◌≡◌};
ghost use Rattle.flow_syntax.specs.Views.{flows_of};

use crate::calls::{TestCell, packet_of, turn};
use crate::seat::{Named, leave, new_cell};
use flow_syntax::Flows;
use spec_cell::{Arrived, CellTurn, Mode};
use std::alloc::Global;
use std::marker::Brand;
use std::process::Abort;

/// How many packets wait in the end.
const ALL: u32 = 10_000;

/// More packets than come until then.
const MOST: u32 = 100_000;

/// The number of the next packet of each stream, by its partition; partition 0 has none.
type Nexts = [u64; 32];

/// The next number by chance.
fn chance(seed: u64) -> u64 {
    seed.wrapping_mul(6_364_136_223_846_793_005)
        .wrapping_add(1_442_695_040_888_963_407)
}

/// A packet comes, and the answer is what the numbers say. Whether it waits now.
fn arrives<N: Named>(
    rt: &impl Abort,
    alloc: Global,
    cell: &mut TestCell<N>,
    nexts: &mut Nexts,
    source: u32,
    number: u64,
) -> bool {
    let packet = packet_of(rt, alloc, source, number);
    let next = nexts.get_mut(source as usize).expect(rt, "a stream");
    match cell.arrive(alloc, packet).expect(rt, "memory") {
        Arrived::Queued => {
            assert!(rt; number == *next);
            *next = next.saturating_add(1);
            true
        }
        Arrived::Repeat(after) => {
            assert!(rt; after == *next && number < after);
            false
        }
        Arrived::Gap(after) => {
            assert!(rt; after == *next && number > after);
            false
        }
    }
}

/// The next packet by chance: that of a stream which is next, or one right before or behind it.
fn packet_by(rt: &impl Abort, nexts: &Nexts, seed: u64) -> (u32, u64) {
    let source = ((seed >> 33) % 31 + 1) as u32;
    let next = *nexts.get(source as usize).expect(rt, "a stream");
    let number = next.saturating_add((seed >> 48) % 4).saturating_sub(1);
    (source, number)
}

/// Packets come until so many wait. What was a gap comes again later, as the next one of its stream.
fn arrive_all<N: Named>(rt: &impl Abort, alloc: Global, cell: &mut TestCell<N>, nexts: &mut Nexts) {
    let mut seed = 1;
    let mut waiting = 0;
    for _ in 0..MOST {
        if waiting == ALL {
            break;
        }
        seed = chance(seed);
        let (source, number) = packet_by(rt, nexts, seed);
        if arrives(rt, alloc, cell, nexts, source, number) {
            waiting = u32::saturating_add(waiting, 1);
        }
    }
    assert!(rt; waiting == ALL);
}

/// Turns until nothing is possible. How many entries they made, one behind another.
fn turn_all<N: Named>(rt: &impl Abort, alloc: Global, flows: &Flows, cell: &mut TestCell<N>) -> u64
    requires { flows_of flows.now ≡ N.flows }
{
    for made in 0..u64::from(ALL) {
        match turn(rt, alloc, flows, cell, Mode::Local) {
            CellTurn::Turned(position, packets) => {
                assert!(rt; packets.is_empty());
                drop(packets);
                assert!(rt; position == made);
            }
            CellTurn::Idle => return made,
            CellTurn::Held | CellTurn::Spent(_) => panic!(rt; "no such turn"),
        }
    }
    panic!(rt; "too many turns")
}

/// The first packet of each stream comes again, and the next one has the number that is the stream's count.
fn repeat_first<N: Named>(
    rt: &impl Abort,
    alloc: Global,
    cell: &mut TestCell<N>,
    nexts: &mut Nexts,
) {
    for source in 1..32 {
        assert!(rt; !arrives(rt, alloc, cell, nexts, source, 0));
    }
}

/// All packets come to a new cell, which takes them by as many entries as it needs: each is taken in and delivered, and an entry has 64
/// items. Then it knows each stream as far as it was taken. The caller picks its flows.
fn streams_named<N: Named, A: Abort>(rt: &A, alloc: Global, flows: &Flows)
    requires flows { flows_of flows.now ≡ N.flows }
    requires count { 32 ≡ N.count }
{
    let mut cell = new_cell::<N>(alloc, 32, 0);
    let mut nexts = [0; 32];
    arrive_all(rt, alloc, &mut cell, &mut nexts);
    repeat_first(rt, alloc, &mut cell, &mut nexts);
    let made = turn_all(rt, alloc, flows, &mut cell);
    assert!(rt; made == u64::from(2 * ALL).div_ceil(64));
    repeat_first(rt, alloc, &mut cell, &mut nexts);
    leave(cell);
}

fn streams_of(rt: &impl Abort, alloc: Global) {
    let flows = Flows::new(alloc);
    streams_named::<Brand, _>(rt, alloc, &flows);
    drop(flows);
}

#[test]
fn many_packets_of_many_streams(rt: HostRuntime) {
    streams_of(&rt, rt.alloc());
}
