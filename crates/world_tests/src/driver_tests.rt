//! Lives through deeds by chance: each ends in a crash at some moment of it, which leaves some image, and the next begins on it. No life
//! is refused, no picked frame is refused at its gate, and what is said are answers that the flows may give, the same each time.

ghost use Rattle.std.specs.Prelude.{◌≤◌, ◌<◌};

use crate::chance::Chance;
use crate::driver::deeds_by;
use crate::lives::{lived, new_site};
use cell_steps::Mode;
use site_memory::{MemorySite, Pick};
use site_model::Site;
use std::alloc::Global;
use std::process::Abort;
use world_core::Answer;
use world_lives::Lived;

/// What a crash leaves, by chance.
fn pick_of(chance: &mut Chance) -> Pick {
    match chance.below(4) {
        0 => Pick::Stable,
        1 => Pick::All,
        2 => Pick::Torn(0xC3),
        _ => Pick::Torn(0x17),
    }
}

/// How far partitions run ahead, by chance.
fn mode_of(chance: &mut Chance) -> Mode {
    match chance.below(4) {
        0 => Mode::None,
        1 => Mode::Local,
        _ => Mode::Global,
    }
}

/// Whether an answer may be said under this client and number.
fn may_be_said(line: &str) -> bool {
    matches!(
        line,
        "a 1 started"
            | "a 2 done 5"
            | "a 2 none"
            | "b 1 started"
            | "b 2 done 11"
            | "b 2 done 12"
            | "b 2 none"
            | "b 3 value 100"
            | "b 3 value 11"
            | "b 3 value 12"
    )
}

/// How many different lines begin so.
fn kinds(text: &str, one: &str, other: &str) -> usize {
    let first = text.lines().any(|line| line == one);
    let second = text.lines().any(|line| line == other);
    first as usize + second as usize
}

/// What was said from this place of the tape on is what may be.
fn check_lines(rt: &impl Abort, tape: &[u8], from: usize) {
    let said = tape.get(from..).expect(rt, "what was there stays");
    let text = str::from_utf8(said).expect(rt, "a text");
    for line in text.lines() {
        assert!(rt; may_be_said(line), "{line}");
    }
}

/// How much was said by now.
fn said_by(rt: &impl Abort, alloc: Global, site: &MemorySite) -> usize {
    let tape = site.tape(alloc).expect(rt, "memory");
    let length = tape.len();
    drop(tape);
    length
}

/// What was said from this place of the tape on is what may be, and the word that was drawn is one.
fn check_tape(rt: &impl Abort, alloc: Global, site: &MemorySite, from: usize) {
    let tape = site.tape(alloc).expect(rt, "memory");
    check_lines(rt, &tape, from);
    let text = str::from_utf8(&tape).expect(rt, "a text");
    assert!(rt; kinds(text, "b 2 done 11", "b 2 done 12") < 2);
    assert!(rt; kinds(text, "b 3 value 11", "b 3 value 12") < 2);
    assert!(rt; kinds(text, "b 2 done 11", "b 3 value 12") < 2);
    assert!(rt; kinds(text, "b 2 done 12", "b 3 value 11") < 2);
    drop(tape);
}

/// One life by chance, on this site.
fn one_life(
    rt: &impl Abort,
    alloc: Global,
    chance: &mut Chance,
    site: MemorySite,
    count: u32,
    mode: Mode,
    times: u32,
) -> MemorySite
    requires some { 0 < count }
    requires few { count ≤ 32 }
{
    let deeds = deeds_by(rt, alloc, chance, count, times);
    let Lived {
        site,
        trail,
        answers,
        refused,
    } = lived(rt, alloc, site, count, mode, deeds);
    assert!(rt; refused.is_none());
    for answer in &answers {
        assert!(rt; !matches!(answer, Answer::Refused(_)));
    }
    drop(answers);
    drop(trail);
    drop(refused);
    site
}

/// Lives one after another, each behind a crash at some moment of the one before.
fn lives_by(rt: &impl Abort, alloc: Global, seed: u64) {
    let mut chance = Chance::of(seed);
    let count = 1 + chance.below(4) as u32;
    let mode = mode_of(&mut chance);
    let mut site = new_site(rt, alloc);
    for _ in 0..4 {
        let from = said_by(rt, alloc, &site);
        let begun = site.moment();
        let times = 40 + chance.below(60) as u32;
        site = one_life(rt, alloc, &mut chance, site, count, mode, times);
        check_tape(rt, alloc, &site, from);
        let moments = site.moment().saturating_sub(begun).saturating_add(1);
        let moment = begun.saturating_add(chance.below(moments));
        let crashed = site
            .image(alloc, moment, pick_of(&mut chance))
            .expect(rt, "memory");
        drop(site);
        site = crashed;
    }
    drop(site);
}

#[test]
fn lives_by_chance(rt: HostRuntime) {
    for seed in 0..200 {
        lives_by(&rt, rt.alloc(), seed);
    }
}

/// Another life goes on from what a crash at this moment leaves.
fn goes_on(
    rt: &impl Abort,
    alloc: Global,
    chance: &mut Chance,
    site: &MemorySite,
    moment: u64,
    count: u32,
    mode: Mode,
)
    requires some { 0 < count }
    requires few { count ≤ 32 }
{
    let picks = [Pick::Stable, Pick::All, Pick::Torn(0xC3), Pick::Torn(0x17)];
    for pick in picks {
        let crashed = site.image(alloc, moment, pick).expect(rt, "memory");
        let from = said_by(rt, alloc, &crashed);
        let after = one_life(rt, alloc, chance, crashed, count, mode, 12);
        check_tape(rt, alloc, &after, from);
        drop(after);
    }
}

#[test]
fn a_crash_at_each_moment(rt: HostRuntime) {
    for seed in 200..206 {
        let mut chance = Chance::of(seed);
        let count = 1 + chance.below(4) as u32;
        let mode = mode_of(&mut chance);
        let empty = new_site(&rt, rt.alloc());
        let site = one_life(&rt, rt.alloc(), &mut chance, empty, count, mode, 60);
        for moment in 0..site.moment().saturating_add(1) {
            goes_on(&rt, rt.alloc(), &mut chance, &site, moment, count, mode);
        }
        drop(site);
    }
}
