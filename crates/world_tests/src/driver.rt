//! Lists of deeds by chance.

ghost use Rattle.std.specs.Prelude.{◌<◌, ◌≤◌};

use crate::chance::Chance;
use crate::script::deed_of;
use std::alloc::Global;
use std::process::Abort;
use world_core::Event;
use world_lives::Deed;

/// What clients ask.
const REQUESTS: [&str; 5] = [
    "submit a 1 start Sum/x",
    "submit a 2 wait Sum/x",
    "submit b 1 start Draw/x",
    "submit b 2 wait Draw/x",
    "submit b 3 query @Account/A",
];

/// What is said of it.
const SAYS: [&str; 5] = ["say a 1", "say a 2", "say b 1", "say b 2", "say b 3"];

/// One more event.
fn add(rt: &impl Abort, deeds: &mut Vec<Deed>, event: Event) {
    add_deed(rt, deeds, Deed::Happen(event));
}

/// One more deed.
fn add_deed(rt: &impl Abort, deeds: &mut Vec<Deed>, deed: Deed) {
    deeds.push(deed).expect(rt, "memory");
}

/// One of these lines' events.
fn add_one_of(
    rt: &impl Abort,
    alloc: Global,
    chance: &mut Chance,
    deeds: &mut Vec<Deed>,
    lines: &[&str; 5],
) {
    let place = chance.below(5) as usize;
    add_deed(rt, deeds, deed_of(rt, alloc, lines[place]));
}

/// A packet comes to the partition that it goes to, whichever that is.
fn add_arrival(rt: &impl Abort, chance: &mut Chance, deeds: &mut Vec<Deed>, count: u32) {
    let packet = chance.below(24) as usize;
    for partition in 0..count {
        add(rt, deeds, Event::Arrive { partition, packet });
    }
}

/// A frame comes as far as chance has it.
fn add_commit(rt: &impl Abort, chance: &mut Chance, deeds: &mut Vec<Deed>, partition: u32) {
    let ago = (chance.below(4) / 3) as usize;
    let far = chance.below(6);
    add(rt, deeds, Event::Body { partition, ago });
    if far > 0 {
        add(rt, deeds, Event::SyncBody { partition });
    }
    if far > 1 {
        add(rt, deeds, Event::Gate { partition });
    }
    if far > 2 {
        add(rt, deeds, Event::Settle { partition });
    }
}

/// An outcome comes to the partition in which its instance lives, whichever that is.
fn add_outcome(
    rt: &impl Abort,
    alloc: Global,
    chance: &mut Chance,
    deeds: &mut Vec<Deed>,
    count: u32,
) {
    let words = match chance.below(3) {
        0 => "Sum/x add 5",
        1 => "Draw/x draw 11",
        _ => "Draw/x draw 12",
    };
    for partition in 0..count {
        let line = format!(in alloc; "outcome {partition} {words}").expect(rt, "memory");
        add_deed(rt, deeds, deed_of(rt, alloc, &line));
        drop(line);
    }
}

/// A node stops, and the other takes a partition over.
fn add_stop(rt: &impl Abort, chance: &mut Chance, deeds: &mut Vec<Deed>, partition: u32) {
    let node = chance.below(2) as u32;
    add(rt, deeds, Event::Stop { node });
    add(
        rt,
        deeds,
        Event::Own {
            partition,
            node: 1 - node,
        },
    );
}

/// Something else of a partition.
fn add_other(rt: &impl Abort, chance: &mut Chance, deeds: &mut Vec<Deed>, partition: u32) {
    let ago = chance.below(3) as usize;
    let event = match chance.below(8) {
        7 => return add_stop(rt, chance, deeds, partition),
        6 => return add_deed(rt, deeds, Deed::JudgeAll),
        0 => Event::Judge { partition, ago },
        1 => Event::Judge { partition, ago: 0 },
        2 => Event::Trim { partition, ago },
        3 => Event::Own {
            partition,
            node: ago as u32,
        },
        4 => Event::Fire { partition, now: 1 },
        _ => Event::Image,
    };
    add(rt, deeds, event);
}

/// One or some more events.
fn add_some(rt: &impl Abort, alloc: Global, chance: &mut Chance, deeds: &mut Vec<Deed>, count: u32)
    requires { 0 < count }
{
    let partition = chance.below(count as u64) as u32;
    match chance.below(16) {
        0 | 1 => add_one_of(rt, alloc, chance, deeds, &REQUESTS),
        2 => add_one_of(rt, alloc, chance, deeds, &SAYS),
        3 | 4 | 5 | 6 => add_arrival(rt, chance, deeds, count),
        7 | 8 | 9 => add(
            rt,
            deeds,
            Event::Turn {
                partition,
                limit: 16,
            },
        ),
        10 | 11 | 12 => add_commit(rt, chance, deeds, partition),
        13 | 14 => add_outcome(rt, alloc, chance, deeds, count),
        _ => add_other(rt, chance, deeds, partition),
    }
}

/// So many times some deeds by chance, of so many partitions.
pub(crate) fn deeds_by(
    rt: &impl Abort,
    alloc: Global,
    chance: &mut Chance,
    count: u32,
    times: u32,
) -> Vec<Deed>
    requires { 0 < count }
{
    let mut deeds = Vec::new(alloc);
    for _ in 0..times {
        add_some(rt, alloc, chance, &mut deeds, count);
    }
    deeds
}
