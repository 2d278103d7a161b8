//! Trials.

use activity_table::Table;
use cell_steps::Mode;
use engine_rounds::{Came, End, Served, Shape, serve};
use flow_reader::read_flows;
use flow_steps::Machines;
use move_plan::read_plan;
use node_core::Crew;
use part_transport::Disturb;
use request_reader::read_requests;
use round_steps::Pace;
use site_memory::{MemorySite, TickClock};
use std::alloc::Global;
use std::process::Abort;

const SUM_FLOWS: &str =
    r#"{"flows":{"Sum":[["call","s","add",{"list":[2,3]}],["return",{"v":"s"}]]}}"#;

const SUM_REQUESTS: &str =
    "{\"client\":\"a\",\"n\":1,\"start\":\"Sum/x\"}\n{\"client\":\"a\",\"n\":2,\"wait\":\"Sum/x\"}\n";

const SUM_LINES: &str = "a 1 started\na 2 done 5\n";

const TRANSFER_FLOWS: &str =
    r#"{"classes":{"Account":{"init":100,"ops":{"put":[["let","self",{"do":["add",{"v":"self"},{"v":"arg"}]}]],"take":[["let","self",{"do":["sub",{"v":"self"},{"v":"arg"}]}]]}}},"flows":{"Transfer":[["let","from",{"do":["at",{"v":"arg"},0]}],["let","to",{"do":["at",{"v":"arg"},1]}],["let","amount",{"do":["at",{"v":"arg"},2]}],["lock",[["Account",{"v":"from"}],["Account",{"v":"to"}]],[["ask","taken","Account",{"v":"from"},"take",{"v":"amount"}],["await","rest",{"v":"taken"}],["ask","given","Account",{"v":"to"},"put",{"v":"amount"}],["await","sum",{"v":"given"}]]]]}}"#;

const TRANSFER_REQUESTS: &str =
    "{\"client\":\"a\",\"n\":1,\"start\":\"Transfer/t\",\"arg\":[\"A\",\"B\",30]}\n{\"client\":\"a\",\"n\":2,\"start\":\"Transfer/u\",\"arg\":[\"B\",\"A\",20]}\n{\"client\":\"a\",\"n\":3,\"wait\":\"Transfer/t\"}\n{\"client\":\"a\",\"n\":4,\"wait\":\"Transfer/u\"}\n{\"client\":\"a\",\"n\":5,\"query\":\"@Account/A\"}\n{\"client\":\"a\",\"n\":6,\"query\":\"@Account/B\"}\n";

const TRANSFER_LINES: &str =
    "a 1 started\na 2 started\na 3 done null\na 4 done null\na 5 value 90\na 6 value 110\n";

const NAP_FLOWS: &str =
    r#"{"flows":{"Nap":[["timer","h",10],["await","h",{"v":"h"}],["return","up"]]}}"#;

const NAP_REQUESTS: &str =
    "{\"client\":\"a\",\"n\":1,\"start\":\"Nap/x\"}\n{\"client\":\"a\",\"n\":2,\"wait\":\"Nap/x\"}\n";

const NAP_LINES: &str = "a 1 started\na 2 done \"up\"\n";

const GATE: Case = Case {
    flows: r#"{"flows":{"Gate":[["event","h","go"],["await","v",{"v":"h"}],["return",{"v":"v"}]]}}"#,
    requests: "{\"client\":\"a\",\"n\":1,\"start\":\"Gate/x\"}\n{\"client\":\"a\",\"n\":2,\"wait\":\"Gate/x\"}\n",
    lines: "a 1 started\n",
};

struct Case {
    flows: &'static str,
    requests: &'static str,
    lines: &'static str,
}

const CASES: [Case; 3] = [
    Case {
        flows: SUM_FLOWS,
        requests: SUM_REQUESTS,
        lines: SUM_LINES,
    },
    Case {
        flows: TRANSFER_FLOWS,
        requests: TRANSFER_REQUESTS,
        lines: TRANSFER_LINES,
    },
    Case {
        flows: NAP_FLOWS,
        requests: NAP_REQUESTS,
        lines: NAP_LINES,
    },
];

/// Serves the requests of a case from fresh files.
fn serve_case(
    rt: &impl Abort,
    alloc: Global,
    case: &Case,
    partitions: u32,
    nodes: u32,
    pace: Pace,
    disturb: Disturb,
    plan: &str,
) -> Served<MemorySite, TickClock> {
    assert!(rt; 0 < partitions && partitions <= 32);
    assert!(rt; 0 < pace.batch && pace.batch <= 64);
    let flows = read_flows(alloc, case.flows.as_bytes()).expect(rt, "flows");
    let requests = read_requests(alloc, case.requests.as_bytes()).expect(rt, "requests");
    let site = MemorySite::new(alloc, 200_000, 10_000, Vec::new(alloc)).expect(rt, "memory");
    let clock = TickClock::new(0, Vec::new(alloc));
    let plan = read_plan(alloc, plan.as_bytes(), partitions, nodes).expect(rt, "plan");
    let shape = Shape {
        count: partitions,
        nodes,
        digest: 7,
        segment: 1 << 31,
        pace,
        disturb,
        plan,
    };
    let machines = Machines::of(&flows);
    serve(alloc, site, &machines, &Table, clock, requests, shape)
}

/// So fast, with no end before nothing is possible any more.
fn pace_of(mode: Mode, batch: u32) -> Pace {
    Pace {
        mode,
        batch,
        steps: 1 << 20,
        seed: 0,
    }
}

fn end_served(served: Served<MemorySite, TickClock>) {
    let Served {
        site,
        clock,
        trail,
        came,
        port,
    } = served;
    drop(clock);
    drop(trail);
    drop(came);
    drop(port);
    drop(site);
}

fn run_case(
    rt: &impl Abort,
    alloc: Global,
    case: &Case,
    partitions: u32,
    nodes: u32,
    mode: Mode,
    batch: u32,
    disturb: Disturb,
    plan: &str,
) {
    let served = serve_case(
        rt,
        alloc,
        case,
        partitions,
        nodes,
        pace_of(mode, batch),
        disturb,
        plan,
    );
    let tape = served.site.tape(alloc).expect(rt, "memory");
    assert!(rt; tape.as_slice() == case.lines.as_bytes());
    assert!(rt; matches!(served.came, Came::Ended(End::Rest)));
    drop(tape);
    end_served(served);
}

const PLAIN: Disturb = Disturb {
    twice: 0,
    drop: 0,
    hold: 0,
};

#[test]
fn all_shapes(rt: HostRuntime) {
    let alloc = rt.alloc();
    for case in &CASES {
        for partitions in [1, 2, 3, 4, 32] {
            for nodes in [1, 3] {
                for mode in [Mode::None, Mode::Local, Mode::Global] {
                    run_case(&rt, alloc, case, partitions, nodes, mode, 16, PLAIN, "{}");
                }
            }
        }
    }
}

#[test]
fn disturbed(rt: HostRuntime) {
    let alloc = rt.alloc();
    let all = [
        Disturb {
            twice: 1,
            drop: 0,
            hold: 3,
        },
        Disturb {
            twice: 1,
            drop: 1,
            hold: 3,
        },
        Disturb {
            twice: 0,
            drop: 3,
            hold: 2,
        },
        Disturb {
            twice: 2,
            drop: 5,
            hold: 0,
        },
    ];
    for disturb in &all {
        for case in &CASES {
            for partitions in [2, 4] {
                for mode in [Mode::None, Mode::Local, Mode::Global] {
                    run_case(&rt, alloc, case, partitions, 2, mode, 2, *disturb, "{}");
                }
            }
        }
    }
}

#[test]
fn planned(rt: HostRuntime) {
    let alloc = rt.alloc();
    let plans = [
        r#"{"moves":[{"turn":20,"partition":0,"node":1}],"stops":[{"turn":30,"node":0}]}"#,
        r#"{"moves":[{"turn":3,"partition":1,"node":0}],"stops":[{"turn":5,"node":1}]}"#,
        r#"{"stops":[{"turn":12,"node":0}]}"#,
        r#"{"stops":[{"turn":13,"node":0}]}"#,
        r#"{"stops":[{"turn":14,"node":0}]}"#,
        r#"{"stops":[{"turn":15,"node":0}]}"#,
        r#"{"stops":[{"turn":16,"node":0}]}"#,
        r#"{"stops":[{"turn":17,"node":0}]}"#,
        r#"{"stops":[{"turn":18,"node":0}]}"#,
    ];
    for plan in &plans {
        for case in &CASES {
            for partitions in [2, 4] {
                for mode in [Mode::None, Mode::Local, Mode::Global] {
                    run_case(&rt, alloc, case, partitions, 2, mode, 1, PLAIN, plan);
                }
            }
        }
    }
}

/// What nobody raises is waited for: nothing is possible any more, and the request without an answer is due.
#[test]
fn waiting(rt: HostRuntime) {
    let alloc = rt.alloc();
    for partitions in [1, 3, 32] {
        for mode in [Mode::None, Mode::Local, Mode::Global] {
            run_case(&rt, alloc, &GATE, partitions, 2, mode, 16, PLAIN, "{}");
        }
    }
}

/// No round begins once there are as many labels as there may be, and it is told how many there are.
#[test]
fn limited(rt: HostRuntime) {
    let alloc = rt.alloc();
    for partitions in [1, 3, 32] {
        for mode in [Mode::None, Mode::Local, Mode::Global] {
            let mut pace = pace_of(mode, 1);
            pace.steps = 3;
            let served = serve_case(&rt, alloc, &CASES[0], partitions, 2, pace, PLAIN, "{}");
            let labels = match served.came {
                Came::Ended(End::Long(labels)) => labels,
                _ => 0,
            };
            assert!(rt; labels >= 3);
            end_served(served);
        }
    }
}

/// Partitions take over by the plan what so many turns of the store brought.
fn follow(crew: &mut Crew, turns: u64) {
    for part in 0..4 {
        if let Some(node) = crew.next_owner(part, turns) {
            crew.give(part, node);
        }
    }
    crew.move_on(turns);
}

/// How many of four partitions the first node has.
fn count_on_first(crew: &Crew) -> u32 {
    let mut found = 0u32;
    for part in 0..4 {
        if crew.owner(part) == 0 {
            found = found.saturating_add(1);
        }
    }
    found
}

/// A plan that moves a partition at turn 20 and stops the first node at turn 30: from there on each partition is on the other node.
#[test]
fn on_the_node_that_is_left(rt: HostRuntime) {
    let alloc = rt.alloc();
    let plan = r#"{"moves":[{"turn":20,"partition":0,"node":1}],"stops":[{"turn":30,"node":0}]}"#;
    let plan = read_plan(alloc, plan.as_bytes(), 4, 2).expect(&rt, "plan");
    let mut crew = Crew::new(alloc, 4, 2, plan).expect(&rt, "memory");
    for (turns, left) in [
        (0, 2),
        (19, 2),
        (20, 1),
        (29, 1),
        (30, 0),
        (31, 0),
        (1000, 0),
    ] {
        follow(&mut crew, turns);
        assert!(rt; count_on_first(&crew) == left);
    }
}
