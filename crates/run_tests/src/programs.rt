//! The programs that are run, and runs of them.

use activity_table::Table;
use dura_value::Text;
use engine_run::{Ended, run_alone};
use site_memory::{Kind, MemorySite, TickClock};
use std::alloc::Global;
use std::process::Abort;

/// A run on a site in memory.
pub(crate) type Run = Ended<MemorySite, TickClock>;

/// A program: its files, and all that is said of it.
#[derive(Clone, Copy)]
pub(crate) struct Program {
    pub(crate) flows: &'static str,
    pub(crate) requests: &'static str,
    pub(crate) lines: &'static str,
}

/// An activity adds two numbers.
pub(crate) const SUM: Program = Program {
    flows: r#"{"flows":{"Sum":[["call","s","add",{"list":[2,3]}],["return",{"v":"s"}]]}}"#,
    requests: "{\"client\":\"a\",\"n\":1,\"start\":\"Sum/x\"}\n{\"client\":\"a\",\"n\":2,\"wait\":\"Sum/x\"}\n",
    lines: "a 1 started\na 2 done 5\n",
};

/// Two transfers between the same accounts, in sections that want them in different orders.
pub(crate) const TRANSFERS: Program = Program {
    flows: r#"{"classes":{"Account":{"init":100,"ops":{"put":[["let","self",{"do":["add",{"v":"self"},{"v":"arg"}]}]],"take":[["let","self",{"do":["sub",{"v":"self"},{"v":"arg"}]}]]}}},"flows":{"Transfer":[["let","from",{"do":["at",{"v":"arg"},0]}],["let","to",{"do":["at",{"v":"arg"},1]}],["let","amount",{"do":["at",{"v":"arg"},2]}],["lock",[["Account",{"v":"from"}],["Account",{"v":"to"}]],[["ask","taken","Account",{"v":"from"},"take",{"v":"amount"}],["await","rest",{"v":"taken"}],["ask","given","Account",{"v":"to"},"put",{"v":"amount"}],["await","sum",{"v":"given"}]]]]}}"#,
    requests: "{\"client\":\"a\",\"n\":1,\"start\":\"Transfer/t\",\"arg\":[\"A\",\"B\",30]}\n{\"client\":\"a\",\"n\":2,\"start\":\"Transfer/u\",\"arg\":[\"B\",\"A\",20]}\n{\"client\":\"a\",\"n\":3,\"wait\":\"Transfer/t\"}\n{\"client\":\"a\",\"n\":4,\"wait\":\"Transfer/u\"}\n{\"client\":\"a\",\"n\":5,\"query\":\"@Account/A\"}\n{\"client\":\"a\",\"n\":6,\"query\":\"@Account/B\"}\n",
    lines: "a 1 started\na 2 started\na 3 done null\na 4 done null\na 5 value 90\na 6 value 110\n",
};

/// A timer.
pub(crate) const NAP: Program = Program {
    flows: r#"{"flows":{"Nap":[["timer","h",10],["await","h",{"v":"h"}],["return","up"]]}}"#,
    requests: "{\"client\":\"a\",\"n\":1,\"start\":\"Nap/x\"}\n{\"client\":\"a\",\"n\":2,\"wait\":\"Nap/x\"}\n",
    lines: "a 1 started\na 2 done \"up\"\n",
};

pub(crate) const PROGRAMS: [Program; 3] = [SUM, TRANSFERS, NAP];

/// A program's files and no more, on a site where these calls fail.
pub(crate) fn site_of(
    rt: &impl Abort,
    alloc: Global,
    program: Program,
    fails: &[(Kind, u64)],
) -> MemorySite {
    let fails = fails.to_vec(alloc).expect(rt, "memory");
    let mut site = MemorySite::new(alloc, 20_000, 1_000, fails).expect(rt, "memory");
    site.prepare(0, 0, program.flows.as_bytes())
        .expect(rt, "room");
    site.prepare(1, 0, program.requests.as_bytes())
        .expect(rt, "room");
    site
}

/// The words of a call.
fn texts(rt: &impl Abort, alloc: Global, words: &[&str]) -> Vec<Text> {
    let mut texts = Vec::new(alloc);
    for word in words {
        let text = Text::read(alloc, word.as_bytes()).expect(rt, "a text");
        texts.push(text).expect(rt, "memory");
    }
    texts
}

/// A run of these words by a clock.
fn run_with(
    rt: &impl Abort,
    alloc: Global,
    words: &[&str],
    site: MemorySite,
    clock: TickClock,
) -> Run {
    let words = texts(rt, alloc, words);
    let ended = run_alone(alloc, &words, site, clock, &Table);
    drop(words);
    ended
}

/// A run of these words, where the calls of the clock with these numbers fail.
pub(crate) fn run_words(
    rt: &impl Abort,
    alloc: Global,
    words: &[&str],
    site: MemorySite,
    fails: Vec<u64>,
) -> Run {
    run_with(rt, alloc, words, site, TickClock::new(0, fails))
}

/// A run from this stamp on.
pub(crate) fn run_from(rt: &impl Abort, alloc: Global, site: MemorySite, stamp: u32) -> Run {
    let clock = TickClock::new(u64::from(stamp), Vec::new(alloc));
    run_with(rt, alloc, &["run", "--partitions", "1"], site, clock)
}

/// A run with so many items in an entry at the most.
pub(crate) fn run_by(rt: &impl Abort, alloc: Global, site: MemorySite, batch: &str) -> Run {
    run_words(
        rt,
        alloc,
        &["run", "--partitions", "1", "--batch", batch],
        site,
        Vec::new(alloc),
    )
}

/// A run.
pub(crate) fn run_on(rt: &impl Abort, alloc: Global, site: MemorySite) -> Run {
    run_words(
        rt,
        alloc,
        &["run", "--partitions", "1"],
        site,
        Vec::new(alloc),
    )
}

/// The site that a run left.
pub(crate) fn site_left(ended: Run) -> MemorySite {
    let Run {
        cause,
        trail,
        site,
        clock,
        ..
    } = ended;
    drop(cause);
    drop(trail);
    drop(clock);
    site
}

/// It ended so.
pub(crate) fn check_end(rt: &impl Abort, ended: &Run, status: u8) {
    assert!(rt; ended.status == status);
}

/// Just this stands on the tape.
pub(crate) fn check_tape(rt: &impl Abort, alloc: Global, site: &MemorySite, lines: &[u8]) {
    let tape = site.tape(alloc).expect(rt, "memory");
    assert!(rt; tape.as_slice() == lines);
    drop(tape);
}

/// The log on a site is this.
pub(crate) fn check_kept(rt: &impl Abort, alloc: Global, site: &MemorySite, log: &[u8]) {
    let kept = site.content(alloc, 16).expect(rt, "memory");
    assert!(rt; kept.as_slice() == log);
    drop(kept);
}

/// What stands on the tape of a site, with all lines behind it.
pub(crate) fn tape_and_lines(
    rt: &impl Abort,
    alloc: Global,
    program: Program,
    site: &MemorySite,
) -> Vec<u8> {
    let mut tape = site.tape(alloc).expect(rt, "memory");
    tape.extend_from_slice(program.lines.as_bytes())
        .expect(rt, "memory");
    tape
}

/// The next run on what a run left says all lines behind what stood there.
pub(crate) fn check_next(rt: &impl Abort, alloc: Global, program: Program, site: MemorySite) {
    let wanted = tape_and_lines(rt, alloc, program, &site);
    let next = run_on(rt, alloc, site);
    check_end(rt, &next, 0);
    check_tape(rt, alloc, &next.site, &wanted);
    drop(next);
    drop(wanted);
}
