//! Public calls that the program does without, where memory is ample: a call that always answered that there is none would meet
//! its contract too.

use client_port::{Port, answer_line};
use dura_value::{Answer, Body, Id, Key, Message, Name, Value};
use flow_syntax::{Class, Flows};
use log_items::Packet;
use move_plan::{Move, Stop, read_plan};
use part_transport::{Disturb, Transport};
use request_reader::read_requests;
use std::alloc::Global;
use std::process::Abort;

const PLAN: &[u8] =
    b"{\"moves\":[{\"turn\":20,\"partition\":0,\"node\":1}],\"stops\":[{\"turn\":30,\"node\":0}]}";

const REQUESTS: &[u8] = b"{\"client\":\"a\",\"n\":1,\"query\":\"Sum/x\"}\n";

fn name(rt: &impl Abort, alloc: Global, text: &str) -> Name {
    Name::read(alloc, text.as_bytes()).expect(rt, "a name")
}

/// A client's first request is due, and what it is told is a line. Then nothing is due.
#[test]
fn ports(rt: HostRuntime) {
    let alloc = rt.alloc();
    let requests = read_requests(alloc, REQUESTS).expect(&rt, "requests");
    let mut port = Port::new(alloc, requests).expect(&rt, "memory");
    let due = port.due(alloc).expect(&rt, "memory");
    assert!(rt; due.len() == 1 && due[0].number == 1);
    drop(due);
    let client = name(&rt, alloc, "a");
    let answer = Answer::None;
    let line = answer_line(alloc, &client, 1, &answer).expect(&rt, "memory");
    assert!(rt; line.as_slice() == b"a 1 none\n".as_slice());
    drop(line);
    drop(answer);
    port.said(&client);
    drop(client);
    let due = port.due(alloc).expect(&rt, "memory");
    assert!(rt; due.is_empty());
    drop(due);
    drop(port);
}

/// A file that is made by hand is checked.
#[test]
fn files(rt: HostRuntime) {
    let alloc = rt.alloc();
    let mut class = Class::new(alloc, Value::Null);
    class
        .add_operation(name(&rt, alloc, "op"), Vec::new(alloc))
        .expect(&rt, "memory");
    let mut file = Flows::new(alloc);
    file.add_class(name(&rt, alloc, "C"), class)
        .expect(&rt, "memory");
    file.add_flow(name(&rt, alloc, "F"), Vec::new(alloc))
        .expect(&rt, "memory");
    assert!(rt; file.check().is_ok());
    drop(file);
}

#[test]
fn keys(rt: HostRuntime) {
    let key = Key::read(rt.alloc(), b"1.x-y_z").expect(&rt, "a key");
    assert!(rt; key.as_bytes() == b"1.x-y_z".as_slice());
    drop(key);
}

/// A plan with a move and a stop is read.
#[test]
fn plans(rt: HostRuntime) {
    let plan = read_plan(rt.alloc(), PLAN, 4, 2).expect(&rt, "a plan");
    assert!(rt; plan.moves.len() == 1 && plan.stops.len() == 1);
    let to_node = Move {
        turn: 20,
        partition: 0,
        node: 1,
    };
    assert!(rt; plan.moves[0] == to_node);
    assert!(rt; plan.stops[0] == Stop { turn: 30, node: 0 });
    drop(plan);
}

/// A packet that is put comes two times, if it is to, and no more.
#[test]
fn packets(rt: HostRuntime) {
    let alloc = rt.alloc();
    let doubled = Disturb {
        twice: 1,
        drop: 0,
        hold: 0,
    };
    let mut transport = Transport::new(alloc, 2, doubled).expect(&rt, "memory");
    let message = Message {
        from: Id::Client(name(&rt, alloc, "a")),
        to: Id::Client(name(&rt, alloc, "b")),
        body: Body::Query(1),
    };
    let put = transport.put(Packet {
        src: 0,
        dst: 1,
        inc: 0,
        pos: 0,
        seq: 7,
        message,
    });
    assert!(rt; put.is_ok());
    drop(put);
    for _ in 0..2 {
        let packet = transport.take(1).expect(&rt, "a packet");
        assert!(rt; packet.seq == 7);
        drop(packet);
    }
    assert!(rt; transport.waiting(1) == 0 && transport.waiting(0) == 0);
    drop(transport);
}
