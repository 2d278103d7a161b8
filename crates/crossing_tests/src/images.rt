//! What crashes leave of the two logs.

ghost use Rattle.std.specs.Prelude.{◌<◌};

use crate::calls::{file_of, header_of};
use crate::rules::{BEGIN, Frame, Run, check};
use commit_log::{LogReader, Next, Payload, open_log};
use dura_value::Message;
use log_items::{Entry, Item};
use part_items::FrameReader;
use site_memory::{MemorySite, Pick};
use site_model::Site;
use std::alloc::Global;
use std::process::Abort;

/// Of what isn't safe nothing, all of it, or another byte throughout: one that no gate has, or an open gate.
const PICKS: [Pick; 4] = [Pick::Stable, Pick::All, Pick::Torn(0x17), Pick::Torn(0xC3)];

/// For each pick whether the frame of a partition is there.
type Left = [bool; 4];

/// Both messages: the one that partition 0 took, and the one that partition 1 takes in.
#[derive(Drop)]
pub(crate) struct Messages {
    pub(crate) first: Message,
    pub(crate) second: Message,
}

impl Messages {
    /// That of a partition.
    pub(crate) fn of(&self, part: u32) -> &Message {
        if part == 0 { &self.first } else { &self.second }
    }
}

/// Whether the items are those of the partition's frame, with this message.
fn are_its(items: &[Item], part: u32, wanted: &Message) -> bool {
    match items {
        [Item::Took(message)] => part == 0 && *message == *wanted,
        [Item::Got(0, 0, 0, 0, message)] => part == 1 && *message == *wanted,
        _ => false,
    }
}

/// Whether it is the entry of the partition's frame, with this message.
pub(crate) fn is_its(
    position: u64,
    incarnation: u64,
    items: &[Item],
    part: u32,
    wanted: &Message,
) -> bool {
    position == 0 && incarnation == 0 && are_its(items, part, wanted)
}

/// The one entry of a payload.
fn entry_in(rt: &impl Abort, alloc: Global, payload: Payload) -> Entry {
    let first = part_items::Next {
        position: 0,
        incarnation: 0,
    };
    let mut reader = FrameReader::begin(first, payload).expect(rt, "a frame");
    let entry = reader.next(alloc).expect(rt, "entries");
    let none = reader.next(alloc).expect(rt, "an end");
    assert!(rt; none.is_none());
    entry.expect(rt, "an entry")
}

/// No frame stands behind.
fn check_end(rt: &impl Abort, alloc: Global, site: &mut MemorySite, reader: LogReader) {
    match reader.next(alloc, site) {
        Ok(Next::End(_)) => {}
        _ => panic!(rt; "more than a frame"),
    }
}

/// Whether a log holds its partition's frame. If not, it holds none.
fn holds(rt: &impl Abort, alloc: Global, site: &mut MemorySite, part: u32, wanted: &Message) -> bool
    requires { part < 2 }
{
    let log = open_log(site, file_of(part), part).expect(rt, "a log");
    assert!(rt; log.header == header_of(part));
    match log.frames(alloc).next(alloc, site).expect(rt, "a gate") {
        Next::End(_) => false,
        Next::Frame(payload, behind) => {
            let entry = entry_in(rt, alloc, payload);
            let items = entry.items.as_slice();
            assert!(rt; is_its(entry.position, entry.incarnation, items, part, wanted));
            check_end(rt, alloc, site, behind);
            true
        }
    }
}

/// What a crash at this moment leaves of both logs, for each pick.
fn left_at(
    rt: &impl Abort,
    alloc: Global,
    site: &MemorySite,
    moment: u64,
    messages: &Messages,
) -> (Left, Left) {
    let mut first = [false; 4];
    let mut second = [false; 4];
    for (place, pick) in PICKS.iter().enumerate() {
        let mut image = site.image(alloc, moment, *pick).expect(rt, "memory");
        first[place] = holds(rt, alloc, &mut image, 0, &messages.first);
        second[place] = holds(rt, alloc, &mut image, 1, &messages.second);
    }
    (first, second)
}

/// Whether this is by then.
fn is_by(at: Option<u64>, moment: u64) -> bool {
    match at {
        Some(at) => at <= moment,
        None => false,
    }
}

/// What a crash at a moment leaves of a frame by the rules: all of it once its open gate is safe. Before, nothing but where its gate was
/// written: then it is there where that write is, and where it is torn to an open gate.
fn left_by(frame: Frame, moment: u64) -> Left {
    if is_by(frame.safe, moment) {
        [true; 4]
    } else if is_by(frame.gated, moment) {
        [false, true, false, true]
    } else {
        [false; 4]
    }
}

/// Partition 1's frame is in an image of its log only where partition 0's is in each of its own.
fn is_founded(first: Left, second: Left) -> bool {
    second == [false; 4] || first == [true; 4]
}

/// What a crash leaves at this moment is what it is to leave.
fn check_moment(
    rt: &impl Abort,
    alloc: Global,
    site: &MemorySite,
    moment: u64,
    run: &Run,
    messages: &Messages,
) {
    let (first, second) = left_at(rt, alloc, site, moment, messages);
    check(rt, run.plan, first == left_by(run.first, moment));
    check(rt, run.plan, second == left_by(run.second, moment));
    check(rt, run.plan, is_founded(first, second));
}

/// Checks what a crash leaves at each moment of a run, and says how many images that are.
pub(crate) fn check_images(
    rt: &impl Abort,
    alloc: Global,
    site: &MemorySite,
    run: &Run,
    messages: &Messages,
) -> u64 {
    let mut images = 0u64;
    for moment in BEGIN..=site.moment() {
        check_moment(rt, alloc, site, moment, run, messages);
        images = images.saturating_add(4);
    }
    images
}
