//! Lives through a text's deeds.

ghost use Rattle.std.specs.Prelude.{◌≡◌, ◌<◌, ◌≤◌};

use crate::script::{deed_of, told};
use cell_steps::Mode;
use flow_reader::read_flows;
use flow_steps::Machines;
use site_memory::MemorySite;
use std::alloc::Global;
use std::process::Abort;
use world_core::Answer;
use world_lives::{Deed, Lived, Shape, live};

/// A sum, a word that is drawn and set, and an instance that starts one that starts one.
const FLOWS: &[u8] = br#"{
"classes":{"Account":{"init":100,"ops":{"set":[["let","self",{"v":"arg"}]]}}},
"flows":{"Sum":[["call","s","add",{"list":[2,3]}],["return",{"v":"s"}]],
"Draw":[["call","w","draw",null],["signal","Account","A","set",{"v":"w"}],["return",{"v":"w"}]],
"F":[["sub","h","G","a",null],["return",1]],
"G":[["sub","h","H","c",null],["return",1]],
"H":[["return",1]]}}"#;

/// A new site with room for whole lives.
pub(crate) fn new_site(rt: &impl Abort, alloc: Global) -> MemorySite {
    MemorySite::new(alloc, 1 << 20, 1 << 12, Vec::new(alloc)).expect(rt, "memory")
}

/// So many partitions, in this mode, and two nodes.
pub(crate) fn shape_of(count: u32, mode: Mode) -> Shape
    ensures { result ≡ record { digest = 7; count = count; nodes = 2; mode = mode; segment = 1048576 } }
{
    Shape {
        digest: 7,
        count,
        nodes: 2,
        mode,
        segment: 1 << 20,
    }
}

/// Lives through these deeds.
pub(crate) fn lived(
    rt: &impl Abort,
    alloc: Global,
    site: MemorySite,
    count: u32,
    mode: Mode,
    deeds: Vec<Deed>,
) -> Lived<MemorySite> {
    assert!(rt; 0 < count && count <= 32);
    let flows = read_flows(alloc, FLOWS).expect(rt, "flows");
    let lived = live(
        alloc,
        site,
        &Machines::of(&flows),
        shape_of(count, mode),
        deeds,
    );
    drop(flows);
    lived
}

/// The deeds of a text, of whose lines each has one, and behind a colon what it comes to.
fn deeds_of(rt: &impl Abort, alloc: Global, text: &str) -> Vec<Deed> {
    let mut deeds = Vec::new(alloc);
    for line in text.lines() {
        let (deed, _) = line.split_once(": ").expect(rt, "an answer");
        deeds.push(deed_of(rt, alloc, deed)).expect(rt, "memory");
    }
    deeds
}

/// An answer is the one of its line.
fn check_line(rt: &impl Abort, alloc: Global, line: &str, answer: &Answer) {
    let (_, words) = line.split_once(": ").expect(rt, "an answer");
    let found = told(rt, alloc, answer);
    assert!(rt; found.as_str() == words, "{line}, and not {found}");
    drop(found);
}

/// Lives through a text's deeds, which come to what it says. It gives the site, and how many entries were settled.
pub(crate) fn played(
    rt: &impl Abort,
    alloc: Global,
    site: MemorySite,
    count: u32,
    mode: Mode,
    text: &str,
) -> (MemorySite, usize) {
    let deeds = deeds_of(rt, alloc, text);
    let Lived {
        site,
        trail,
        answers,
        refused,
    } = lived(rt, alloc, site, count, mode, deeds);
    assert!(rt; refused.is_none());
    for (line, answer) in text.lines().zip(&answers) {
        check_line(rt, alloc, line, answer);
    }
    let settled = trail.as_slice().len();
    drop(answers);
    drop(trail);
    drop(refused);
    (site, settled)
}
