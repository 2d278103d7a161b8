//! What messages say, in words.

use dura_value::{Answer, Body, Name, Value};
use log_items::Packet;
use std::alloc::Global;
use std::process::Abort;
use std::str::FromStr;

fn word(rt: &impl Abort, alloc: Global, text: &str) -> String {
    String::from_str(alloc, text).expect(rt, "memory")
}

/// A word with a number behind it.
fn with_number(rt: &impl Abort, alloc: Global, text: &str, value: &Value) -> String {
    let Value::Int(number) = value else {
        panic!(rt; "no number");
    };
    format!(in alloc; "{text} {number}").expect(rt, "memory")
}

fn name_of<'a>(rt: &impl Abort, name: &'a Name) -> &'a str {
    str::from_utf8(name.as_bytes()).expect(rt, "a text")
}

fn answer_said(rt: &impl Abort, alloc: Global, answer: &Answer) -> String {
    match answer {
        Answer::Started => word(rt, alloc, "started"),
        Answer::Value(value) => with_number(rt, alloc, "value", value),
        _ => panic!(rt; "no such answer"),
    }
}

/// What a packet says, with the numbers that it carries.
pub(crate) fn said(rt: &impl Abort, alloc: Global, packet: &Packet) -> String {
    match &packet.message.body {
        Body::Start(_, _) => word(rt, alloc, "start"),
        Body::Query(_) => word(rt, alloc, "query"),
        Body::Op(name, argument, _) => with_number(rt, alloc, name_of(rt, name), argument),
        Body::Result(_, answer) => answer_said(rt, alloc, answer),
        _ => panic!(rt; "no such message"),
    }
}
