//! The calls of four cells, by their lines.

ghost use Rattle.std.specs.Prelude.{◌≡◌};
ghost use Rattle.flow_syntax.specs.Views.{flows_of};

use crate::calls::{
    TestCell, arrive, ended_of, id_of, mode_of, number_of, offer, record, reset, rewind, small_of,
    turn,
};
use crate::said::said;
use crate::seat::Named;
use crate::world::{World, last_sent, send};
use dura_value::{Name, Value};
use flow_syntax::Flows;
use log_items::Packet;
use part_rows::Activity;
use spec_cell::CellTurn;
use spec_tracker::{Marks, Read};
use std::alloc::Global;
use std::process::Abort;
use std::str::FromStr;

/// The packet of a stream with this number comes, which it says first.
fn deliver<N: Named>(
    rt: &impl Abort,
    alloc: Global,
    cell: &mut TestCell<N>,
    sent: &[Packet],
    place: u32,
    words: &str,
) -> String {
    let (source, number) = words.split_once(' ').expect(rt, "a number");
    let packet = last_sent(rt, sent, small_of(rt, source), place, number_of(rt, number));
    let words = said(rt, alloc, &packet);
    let arrived = arrive(rt, alloc, cell, packet);
    let told = format!(in alloc; "{words}, {arrived}").expect(rt, "memory");
    drop(words);
    drop(arrived);
    told
}

/// The activity of `Draw/x` comes to this number.
fn draw<N: Named>(
    rt: &impl Abort,
    alloc: Global,
    cell: &mut TestCell<N>,
    number: &str,
) -> &'static str {
    let activity = Activity {
        name: Name::of(alloc, b"draw").expect(rt, "memory"),
        argument: Value::Null,
    };
    let id = id_of(rt, alloc, "Draw/x");
    let ended = ended_of(rt, alloc, id, 0, activity, number_of(rt, number));
    record(rt, alloc, cell, ended)
}

/// One entry more, and its packets are sent.
fn turn_and_send<N: Named>(
    rt: &impl Abort,
    alloc: Global,
    flows: &Flows,
    cell: &mut TestCell<N>,
    sent: &mut Vec<Packet>,
    mode: &str,
) -> String
    requires { flows_of flows.now ≡ N.flows }
{
    match turn(rt, alloc, flows, cell, mode_of(mode)) {
        CellTurn::Turned(position, packets) => {
            let told = format!(in alloc; "entry {position}").expect(rt, "memory");
            return send(rt, alloc, sent, packets, told);
        }
        CellTurn::Held => String::from_str(alloc, "held"),
        CellTurn::Idle => String::from_str(alloc, "idle"),
        CellTurn::Spent(number) => format!(in alloc; "spent {number}"),
    }
    .expect(rt, "memory")
}

/// All that goes out is sent once more.
fn resend<N: Named>(
    rt: &impl Abort,
    alloc: Global,
    cell: &TestCell<N>,
    sent: &mut Vec<Packet>,
    mode: &str,
) -> String {
    let packets = cell.resend(alloc, mode_of(mode)).expect(rt, "memory");
    let told = format!(in alloc; "{} sent", packets.len()).expect(rt, "memory");
    send(rt, alloc, sent, packets, told)
}

/// A partition has taken in the stream from another up to a number, by its first entry.
fn read_of(rt: &impl Abort, words: &str) -> Read {
    let (reader, rest) = words.split_once(' ').expect(rt, "a stream");
    let (source, next) = rest.split_once(' ').expect(rt, "a number");
    Read {
        reader: small_of(rt, reader),
        source: small_of(rt, source),
        next: number_of(rt, next),
        inc: 0,
        pos: 0,
    }
}

/// What is known where partitions have taken in these streams.
fn reads_of(rt: &impl Abort, alloc: Global, words: &str) -> Marks {
    let mut reads = Vec::new(alloc);
    for read in words.split(", ") {
        reads.push(read_of(rt, read)).expect(rt, "memory");
    }
    Marks {
        lengths: Vec::new(alloc),
        floors: Vec::new(alloc),
        reads,
    }
}

/// What was read is let go of.
fn trim<N: Named>(rt: &impl Abort, alloc: Global, cell: &mut TestCell<N>, words: &str) -> String {
    let marks = reads_of(rt, alloc, words);
    let count = cell.trim(alloc, &marks).expect(rt, "memory");
    drop(marks);
    format!(in alloc; "{count} trimmed").expect(rt, "memory")
}

/// What a call of the cell of a partition answers.
fn told<N: Named>(
    rt: &impl Abort,
    alloc: Global,
    flows: &Flows,
    world: &mut World<N>,
    place: u32,
    call: &str,
) -> String
    requires { flows_of flows.now ≡ N.flows }
{
    let World { cells, sent } = world;
    let cell = cells.get_mut(place as usize).expect(rt, "a partition");
    let (kind, words) = call.split_once(' ').expect(rt, "words");
    let answer = match kind {
        "packet" => return deliver(rt, alloc, cell, sent, place, words),
        "turn" => return turn_and_send(rt, alloc, flows, cell, sent, words),
        "resend" => return resend(rt, alloc, cell, sent, words),
        "rewind" => return rewind(rt, alloc, cell, words),
        "trim" => return trim(rt, alloc, cell, words),
        "offer" => offer(rt, alloc, cell, "#a", words),
        "outcome" => draw(rt, alloc, cell, words),
        "reset" => reset(rt, alloc, cell, words),
        _ => panic!(rt; "no such call"),
    };
    String::from_str(alloc, answer).expect(rt, "memory")
}

/// A call answers what its line says: its partition, the call and the answer.
pub(crate) fn check_line<N: Named>(
    rt: &impl Abort,
    alloc: Global,
    flows: &Flows,
    world: &mut World<N>,
    line: &str,
)
    requires { flows_of flows.now ≡ N.flows }
{
    let (place, rest) = line.split_once(' ').expect(rt, "a partition");
    let (call, wanted) = rest.split_once(": ").expect(rt, "what it answers");
    let found = told(rt, alloc, flows, world, small_of(rt, place), call);
    assert!(rt; found.as_str() == wanted, "not so: {line}, but {found}");
    drop(found);
}
