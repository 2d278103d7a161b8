//! Deeds, and what they come to, by their lines.

use cell_waits::Ended;
use dura_value::{
    Answer as Reply, Body, Id, Message, Name, Outcome, Reply as ReplyTo, Scalar, Scalars, Value,
    is_name,
};
use part_rows::Activity;
use std::alloc::Global;
use std::process::Abort;
use std::str::FromStr;
use world_core::{Answer, Event};
use world_lives::Deed;

/// The number that is written so.
fn number_of(rt: &impl Abort, text: &str) -> u64 {
    text.parse().expect(rt, "a number")
}

/// The same of a partition, a request or a task.
fn small_of(rt: &impl Abort, text: &str) -> u32 {
    text.parse().expect(rt, "a number")
}

/// The same of a place, or of how many changes ago.
fn place_of(rt: &impl Abort, text: &str) -> usize {
    text.parse().expect(rt, "a number")
}

/// The id that is written so.
fn id_of(rt: &impl Abort, alloc: Global, text: &str) -> Id {
    Id::read(alloc, text.as_bytes()).expect(rt, "an id")
}

/// The name that is written so.
fn name_of(rt: &impl Abort, alloc: Global, text: &str) -> Name {
    assert!(rt; is_name(text.as_bytes()));
    Name::of(alloc, text.as_bytes()).expect(rt, "a name")
}

/// The first word, and the rest.
fn parted<'a>(rt: &impl Abort, text: &'a str) -> (&'a str, &'a str) {
    text.split_once(' ').expect(rt, "a further word")
}

/// The request of a line: `a 1 start Sum/x`.
fn request_of(rt: &impl Abort, alloc: Global, words: &str) -> Message {
    let (client, rest) = parted(rt, words);
    let (number, rest) = parted(rt, rest);
    let (kind, asked) = parted(rt, rest);
    let number = small_of(rt, number);
    let body = match kind {
        "start" => Body::Start(Value::Null, ReplyTo::Request(number)),
        "wait" => Body::Wait(number),
        _ => Body::Query(number),
    };
    Message {
        from: Id::Client(name_of(rt, alloc, client)),
        to: id_of(rt, alloc, asked),
        body,
    }
}

/// The sum of two and three, as an argument.
fn two_and_three(rt: &impl Abort, alloc: Global) -> Value {
    let parts = vec![in alloc; Scalar::Int(2), Scalar::Int(3)].expect(rt, "memory");
    Value::List(Scalars::of(parts))
}

/// The outcome of a line: `Draw/x draw 11`, of the instance's first task.
fn ended_of(rt: &impl Abort, alloc: Global, words: &str) -> Ended {
    let (id, rest) = parted(rt, words);
    let (activity, number) = parted(rt, rest);
    let argument = match activity {
        "add" => two_and_three(rt, alloc),
        _ => Value::Null,
    };
    let signed = i64::try_from(number_of(rt, number)).expect(rt, "a small number");
    Ended {
        id: id_of(rt, alloc, id),
        task: 0,
        activity: Activity {
            name: name_of(rt, alloc, activity),
            argument,
        },
        outcome: Outcome::Done(Value::Int(signed)),
    }
}

/// The event of a line whose first word says which, and the others of what.
fn event_by(rt: &impl Abort, alloc: Global, kind: &str, words: &str) -> Event {
    match kind {
        "submit" => Event::Submit {
            request: request_of(rt, alloc, words),
        },
        "sync" => Event::SyncBody {
            partition: small_of(rt, words),
        },
        "gate" => Event::Gate {
            partition: small_of(rt, words),
        },
        "settle" => Event::Settle {
            partition: small_of(rt, words),
        },
        "stop" => Event::Stop {
            node: small_of(rt, words),
        },
        "say" => {
            let (client, number) = parted(rt, words);
            Event::Say {
                client: name_of(rt, alloc, client),
                number: small_of(rt, number),
            }
        }
        "outcome" => {
            let (partition, rest) = parted(rt, words);
            Event::Outcome {
                partition: small_of(rt, partition),
                ended: ended_of(rt, alloc, rest),
            }
        }
        _ => event_at(rt, kind, words),
    }
}

/// The same of one with a partition and a number.
fn event_at(rt: &impl Abort, kind: &str, words: &str) -> Event {
    let (partition, number) = parted(rt, words);
    let partition = small_of(rt, partition);
    match kind {
        "arrive" => Event::Arrive {
            partition,
            packet: place_of(rt, number),
        },
        "turn" => Event::Turn {
            partition,
            limit: small_of(rt, number),
        },
        "body" => Event::Body {
            partition,
            ago: place_of(rt, number),
        },
        "judge" => Event::Judge {
            partition,
            ago: place_of(rt, number),
        },
        "fire" => Event::Fire {
            partition,
            now: number_of(rt, number),
        },
        "trim" => Event::Trim {
            partition,
            ago: place_of(rt, number),
        },
        _ => Event::Own {
            partition,
            node: small_of(rt, number),
        },
    }
}

/// The event of a line.
fn event_of(rt: &impl Abort, alloc: Global, line: &str) -> Event {
    match line {
        "image" => Event::Image,
        _ => {
            let (kind, words) = parted(rt, line);
            event_by(rt, alloc, kind, words)
        }
    }
}

/// The deed of a line.
pub(crate) fn deed_of(rt: &impl Abort, alloc: Global, line: &str) -> Deed {
    match line {
        "judge all" => Deed::JudgeAll,
        _ => Deed::Happen(event_of(rt, alloc, line)),
    }
}

/// The words of an answer without a number.
fn plain(answer: &Answer) -> &'static str {
    match answer {
        Answer::Unmet => "unmet",
        Answer::Memory => "memory",
        Answer::SiteFault => "site fault",
        Answer::SayFault => "say fault",
        Answer::Queued => "queued",
        Answer::Taken => "taken",
        Answer::Answered(_) => "answered",
        Answer::Clash => "clash",
        Answer::Held => "held",
        Answer::Idle => "idle",
        Answer::Written => "written",
        Answer::NoneReady => "none ready",
        Answer::Synced => "synced",
        Answer::Gated => "open",
        Answer::Refused(_) => "refused",
        Answer::Settled => "settled",
        Answer::Kept => "kept",
        Answer::Recorded => "recorded",
        Answer::NotPending => "not pending",
        Answer::OwnedSettled => "settled and owned",
        Answer::OwnedDropped => "owned",
        Answer::Said => "said",
        Answer::NotAnswered => "not answered",
        _ => "seen",
    }
}

/// What an answer says.
pub(crate) fn told(rt: &impl Abort, alloc: Global, answer: &Answer) -> String {
    match answer {
        Answer::Repeat(next) => format!(in alloc; "repeat, next is {next}"),
        Answer::Gap(next) => format!(in alloc; "gap, next is {next}"),
        Answer::Turned(position) => format!(in alloc; "entry {position}"),
        Answer::Spent(number) => format!(in alloc; "spent {number}"),
        Answer::Full(length) => format!(in alloc; "full {length}"),
        Answer::Rewound(floor, dep) => {
            format!(in alloc; "from {floor} on for {}/{}/{}", dep.src, dep.inc, dep.pos)
        }
        Answer::Due(count) => format!(in alloc; "{count} due"),
        Answer::Trimmed(count) => format!(in alloc; "{count} trimmed"),
        other => String::from_str(alloc, plain(other)),
    }
    .expect(rt, "memory")
}
