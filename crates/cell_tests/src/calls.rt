//! The calls of a cell, by their lines.

ghost use Rattle.std.specs.Prelude.{◌≡◌, true};
ghost use Rattle.activity_table.specs.Table.{may};
ghost use Rattle.flow_syntax.specs.Views.{flows_of};

use crate::seat::{Named, TestSeat};
use activity_table::{Activities, Table};
use cell_waits::Ended;
use dura_value::{Answer, Body, Floor, Id, Message, Name, Reply, Scalar, Scalars, Value};
use flow_steps::Machines;
use flow_syntax::Flows;
use log_items::Packet;
use part_rows::Activity;
use spec_cell::{Arrived, Cell, CellReset, CellRewind, CellTurn, Mode, Offered, Recorded};
use spec_tracker::{Dep, Marks};
use std::alloc::Global;
use std::process::Abort;
use std::str::FromStr;

/// A cell of a test.
pub(crate) type TestCell<N> = Cell<TestSeat<N>>;

/// The id that is written so.
pub(crate) fn id_of(rt: &impl Abort, alloc: Global, text: &str) -> Id {
    Id::read(alloc, text.as_bytes()).expect(rt, "an id")
}

/// The number that is written so.
pub(crate) fn number_of(rt: &impl Abort, text: &str) -> u64 {
    text.parse().expect(rt, "a number")
}

/// The same of a partition, a request or a task.
pub(crate) fn small_of(rt: &impl Abort, text: &str) -> u32 {
    text.parse().expect(rt, "a number")
}

/// The mode of this name.
pub(crate) fn mode_of(text: &str) -> Mode {
    match text {
        "none" => Mode::None,
        "local" => Mode::Local,
        _ => Mode::Global,
    }
}

/// The packet with this number of the stream from a partition. An answer that nobody waits for goes to a client of partition 0, which has
/// the same number among 2 and among 32.
pub(crate) fn packet_of(rt: &impl Abort, alloc: Global, source: u32, number: u64) -> Packet {
    let message = Message {
        from: id_of(rt, alloc, "Flow/x"),
        to: id_of(rt, alloc, "#c16"),
        body: Body::Result(Reply::Request(1), Answer::Raised),
    };
    Packet {
        src: source,
        dst: 0,
        inc: 0,
        pos: number,
        seq: number,
        message,
    }
}

/// A packet comes.
pub(crate) fn arrive<N: Named>(
    rt: &impl Abort,
    alloc: Global,
    cell: &mut TestCell<N>,
    packet: Packet,
) -> String {
    match cell.arrive(alloc, packet).expect(rt, "memory") {
        Arrived::Queued => String::from_str(alloc, "queued"),
        Arrived::Repeat(next) => format!(in alloc; "repeat, next is {next}"),
        Arrived::Gap(next) => format!(in alloc; "gap, next is {next}"),
    }
    .expect(rt, "memory")
}

fn arrive_by<N: Named>(
    rt: &impl Abort,
    alloc: Global,
    cell: &mut TestCell<N>,
    words: &str,
) -> String {
    let (source, number) = words.split_once(' ').expect(rt, "a number");
    let packet = packet_of(rt, alloc, small_of(rt, source), number_of(rt, number));
    arrive(rt, alloc, cell, packet)
}

/// What a request with this number asks of an id: an instance is started, and an entity is queried.
fn asked_of(id: &Id, number: u32) -> Body {
    match id {
        Id::Flow(_, _) => Body::Start(Value::Null, Reply::Request(number)),
        Id::Client(_) | Id::Entity(_, _) => Body::Query(number),
    }
}

/// A request of a client comes, with its number and whom it asks.
pub(crate) fn offer<N: Named>(
    rt: &impl Abort,
    alloc: Global,
    cell: &mut TestCell<N>,
    client: &str,
    words: &str,
) -> &'static str {
    let (number, asked) = words.split_once(' ').expect(rt, "an id");
    let to = id_of(rt, alloc, asked);
    let body = asked_of(&to, small_of(rt, number));
    let message = Message {
        from: id_of(rt, alloc, client),
        to,
        body,
    };
    match cell.offer(alloc, message).expect(rt, "memory") {
        Offered::Queued => "queued",
        Offered::Taken => "taken",
        Offered::Clash => "clash",
        Offered::Kept(answer) => {
            drop(answer);
            "kept"
        }
    }
}

/// What an activity comes to by this word.
pub(crate) fn ended_of(
    rt: &impl Abort,
    alloc: Global,
    id: Id,
    task: u32,
    activity: Activity,
    word: u64,
) -> Ended
    ensures { may result.activity.name result.activity.argument result.outcome ≡ true }
{
    let name = str::from_utf8(activity.name.as_bytes()).expect(rt, "a text");
    let outcome = Table
        .run(alloc, name, &activity.argument, word)
        .expect(rt, "memory");
    Ended {
        id,
        task,
        activity,
        outcome,
    }
}

/// The activity of the flow `Sum`.
fn sum_of(rt: &impl Abort, alloc: Global) -> Activity {
    let parts = Scalars::pair(alloc, Scalar::Int(2), Scalar::Int(3)).expect(rt, "memory");
    Activity {
        name: Name::of(alloc, b"add").expect(rt, "memory"),
        argument: Value::List(parts),
    }
}

/// An outcome comes.
pub(crate) fn record<N: Named>(
    rt: &impl Abort,
    alloc: Global,
    cell: &mut TestCell<N>,
    ended: Ended,
) -> &'static str
    requires { may ended.activity.name ended.activity.argument ended.outcome ≡ true }
{
    match cell.outcome(alloc, ended).expect(rt, "memory") {
        Recorded::Recorded => "recorded",
        Recorded::NotPending => "not pending",
    }
}

fn outcome<N: Named>(
    rt: &impl Abort,
    alloc: Global,
    cell: &mut TestCell<N>,
    words: &str,
) -> &'static str {
    let (instance, task) = words.split_once(' ').expect(rt, "a task");
    let id = id_of(rt, alloc, instance);
    let ended = ended_of(rt, alloc, id, small_of(rt, task), sum_of(rt, alloc), 0);
    record(rt, alloc, cell, ended)
}

/// One entry more, of up to 64 items.
pub(crate) fn turn<N: Named>(
    rt: &impl Abort,
    alloc: Global,
    flows: &Flows,
    cell: &mut TestCell<N>,
    mode: Mode,
) -> CellTurn
    requires { flows_of flows.now ≡ N.flows }
{
    let machines = Machines::of(flows);
    cell.turn(alloc, &machines, 64, mode).expect(rt, "memory")
}

fn turn_by<N: Named>(
    rt: &impl Abort,
    alloc: Global,
    flows: &Flows,
    cell: &mut TestCell<N>,
    mode: &str,
) -> String
    requires { flows_of flows.now ≡ N.flows }
{
    match turn(rt, alloc, flows, cell, mode_of(mode)) {
        CellTurn::Turned(position, packets) => {
            drop(packets);
            format!(in alloc; "entry {position}")
        }
        CellTurn::Held => String::from_str(alloc, "held"),
        CellTurn::Idle => String::from_str(alloc, "idle"),
        CellTurn::Spent(number) => format!(in alloc; "spent {number}"),
    }
    .expect(rt, "memory")
}

/// A partition gave up all from a position on, as incarnation 1 of it began.
fn floor_of(rt: &impl Abort, words: &str) -> Floor {
    let (partition, from) = words.split_once(' ').expect(rt, "a position");
    Floor {
        partition: small_of(rt, partition),
        incarnation: 1,
        from: number_of(rt, from),
    }
}

/// What is known where partitions gave up all from these positions on.
fn marks_of(rt: &impl Abort, alloc: Global, words: &str) -> Marks {
    let mut floors = Vec::new(alloc);
    for floor in words.split(", ") {
        floors.push(floor_of(rt, floor)).expect(rt, "memory");
    }
    Marks {
        lengths: Vec::new(alloc),
        floors,
        reads: Vec::new(alloc),
    }
}

/// The entries that depend on what was given up are given up.
pub(crate) fn rewind<N: Named>(
    rt: &impl Abort,
    alloc: Global,
    cell: &mut TestCell<N>,
    words: &str,
) -> String {
    let marks = marks_of(rt, alloc, words);
    let rewound = cell.rewind(alloc, &marks).expect(rt, "memory");
    drop(marks);
    match rewound {
        CellRewind::Kept => String::from_str(alloc, "kept"),
        CellRewind::Rewound(floor, dep) => {
            let Dep { src, inc, pos, .. } = dep;
            format!(in alloc; "from {floor} on for {src}/{inc}/{pos}")
        }
        CellRewind::Spent(number) => format!(in alloc; "spent {number}"),
    }
    .expect(rt, "memory")
}

/// All entries from a position on are given up.
pub(crate) fn reset<N: Named>(
    rt: &impl Abort,
    alloc: Global,
    cell: &mut TestCell<N>,
    floor: &str,
) -> &'static str {
    match cell.reset(alloc, number_of(rt, floor)).expect(rt, "memory") {
        CellReset::Done => "done",
        CellReset::Spent(_) => "spent",
    }
}

/// A moment is handed in.
fn fire<N: Named>(rt: &impl Abort, alloc: Global, cell: &mut TestCell<N>, now: &str) -> String {
    let count = cell.fire(number_of(rt, now));
    format!(in alloc; "{count} due").expect(rt, "memory")
}

/// What a call answers.
fn told<N: Named>(
    rt: &impl Abort,
    alloc: Global,
    flows: &Flows,
    cell: &mut TestCell<N>,
    call: &str,
) -> String
    requires { flows_of flows.now ≡ N.flows }
{
    let (kind, words) = call.split_once(' ').expect(rt, "words");
    let answer = match kind {
        "packet" => return arrive_by(rt, alloc, cell, words),
        "turn" => return turn_by(rt, alloc, flows, cell, words),
        "rewind" => return rewind(rt, alloc, cell, words),
        "fire" => return fire(rt, alloc, cell, words),
        "offer" => offer(rt, alloc, cell, "#b", words),
        "outcome" => outcome(rt, alloc, cell, words),
        "reset" => reset(rt, alloc, cell, words),
        _ => panic!(rt; "no such call"),
    };
    String::from_str(alloc, answer).expect(rt, "memory")
}

/// A call answers what its line says.
pub(crate) fn check_line<N: Named>(
    rt: &impl Abort,
    alloc: Global,
    flows: &Flows,
    cell: &mut TestCell<N>,
    line: &str,
)
    requires { flows_of flows.now ≡ N.flows }
{
    let (call, wanted) = line.split_once(": ").expect(rt, "what it answers");
    let found = told(rt, alloc, flows, cell, call);
    assert!(rt; found.as_str() == wanted, "not so: {line}, but {found}");
    drop(found);
}
