//! What the calls of a run come to, by the rules alone.
//!
//! A frame is written, made safe, its gate is opened, and that is made safe: each is one device call, and a moment. The gate of
//! partition 1's frame opens only where partition 0's is settled, and only where the frame takes in what that sent. A write that fails
//! stands, and a sync that fails does nothing. Where a log is opened again, a frame whose gate was never tried is dropped, by a sync, and
//! one whose gate was tried is settled: the log is made safe, and the gate reads open.
//!
//! Where files are made safe together, one call takes the place of each sync: it syncs the file of each frame that waits for that, in the
//! partitions' order, a device call and a moment each. A frame whose open gate is safe is then settled without a device call. Where one
//! of the syncs fails, all that waited failed, also what was synced before it.

use crate::calls::{Call, Told};
use crate::orders::Order;
use std::alloc::Global;
use std::process::Abort;

/// How far the frame of a partition is.
#[derive(Clone, Copy, PartialEq, Eq)]
enum Stage {
    /// There is none.
    None,
    /// It is written.
    Written,
    /// It is safe.
    Safe,
    /// Its gate is open.
    Open,
    /// And that is safe, together with other files.
    OpenSafe,
    /// It is settled.
    Settled,
    /// A call before its gate failed.
    BadBody,
    /// One behind that failed.
    BadGate,
}

/// A frame: how far it is, and at which moments its gate was written and it was settled.
#[derive(Clone, Copy)]
pub(crate) struct Frame {
    stage: Stage,
    /// The moment at which its gate was first written open, if it was.
    pub(crate) gated: Option<u64>,
    /// The moment at which the open gate was made safe, if it was.
    pub(crate) safe: Option<u64>,
    /// The moment at which it was settled, if it is.
    pub(crate) settled: Option<u64>,
}

/// A call of a run, and what it is to give.
#[derive(Clone, Copy)]
pub(crate) struct Made {
    /// The partition.
    pub(crate) part: u32,
    /// The call.
    pub(crate) call: Call,
    /// What it is to give.
    pub(crate) told: Told,
}

/// What is done where a call failed.
#[derive(Clone, Copy, PartialEq, Eq)]
pub(crate) enum Behind {
    /// Nothing: the run is over.
    Nothing,
    /// The log of the call's frame is opened again.
    Own,
    /// And then the other log.
    Both,
    /// The other log, and then that of the call's frame.
    OtherFirst,
}

/// What a run does.
#[derive(Clone, Copy)]
pub(crate) struct Plan {
    /// The order of its calls.
    pub(crate) order: Order,
    /// The request that partition 1's frame takes in. The first was sent.
    pub(crate) number: u32,
    /// The device call that fails, counted from 0, if one does.
    pub(crate) fails: u64,
    /// What is done then.
    pub(crate) behind: Behind,
    /// Whether files are made safe together.
    pub(crate) together: bool,
}

/// This is so in a run. All checks of a run come here, and tell which it is.
pub(crate) fn check(rt: &impl Abort, plan: Plan, holds: bool) {
    let Plan {
        order: [a, b, c, d, e, f, g, h],
        number,
        fails,
        behind: _,
        together,
    } = plan;
    assert!(rt;
        holds,
        "order {a}{b}{c}{d}{e}{f}{g}{h}, request {number}, fault at {fails}, together {together}"
    );
}

/// A run by the rules.
#[derive(Drop)]
pub(crate) struct Run {
    /// What it does.
    pub(crate) plan: Plan,
    /// How many device calls there were.
    calls: u64,
    /// Whether it is over before its end.
    over: bool,
    /// The moment.
    pub(crate) moment: u64,
    /// The frames of the partitions.
    pub(crate) first: Frame,
    pub(crate) second: Frame,
    /// The calls.
    pub(crate) made: Vec<Made>,
}

const NO_FRAME: Frame = Frame {
    stage: Stage::None,
    gated: None,
    safe: None,
    settled: None,
};

/// The moment at which both logs are new, six steps each.
pub(crate) const BEGIN: u64 = 12;

impl Run {
    /// Before its first call.
    fn begin(alloc: Global, plan: Plan) -> Run {
        Run {
            plan,
            calls: 0,
            over: false,
            moment: BEGIN,
            first: NO_FRAME,
            second: NO_FRAME,
            made: Vec::new(alloc),
        }
    }

    /// The frame of a partition.
    pub(crate) fn frame(&self, part: u32) -> Frame {
        if part == 0 { self.first } else { self.second }
    }

    fn put(&mut self, part: u32, frame: Frame) {
        if part == 0 {
            self.first = frame;
        } else {
            self.second = frame;
        }
    }

    fn put_stage(&mut self, part: u32, stage: Stage) {
        let mut frame = self.frame(part);
        frame.stage = stage;
        self.put(part, frame);
    }

    /// Counts a device call, and says whether it fails.
    fn fails(&mut self) -> bool {
        let number = self.calls;
        self.calls = number.saturating_add(1);
        number == self.plan.fails
    }

    /// A moment more.
    fn step(&mut self) -> u64 {
        self.moment = self.moment.saturating_add(1);
        self.moment
    }

    fn write(&mut self, part: u32) -> Told {
        let fails = self.fails();
        self.step();
        if fails {
            self.put_stage(part, Stage::BadBody);
            return Told::Fault;
        }
        self.put_stage(part, Stage::Written);
        Told::Done
    }

    fn sync(&mut self, part: u32) -> Told {
        if self.frame(part).stage != Stage::Written {
            return Told::NoFrame;
        }
        if self.fails() {
            self.put_stage(part, Stage::BadBody);
            return Told::Fault;
        }
        self.step();
        self.put_stage(part, Stage::Safe);
        Told::Done
    }

    /// Why the gate of a safe frame stays closed, if it does.
    fn unmet(&self, part: u32) -> Option<Told> {
        if part == 0 {
            return None;
        }
        if self.first.stage != Stage::Settled {
            return Some(Told::NotReady);
        }
        if self.plan.number != 1 {
            return Some(Told::Differs);
        }
        None
    }

    fn gate(&mut self, part: u32) -> Told {
        let mut frame = self.frame(part);
        if frame.stage != Stage::Safe {
            return Told::NoFrame;
        }
        if let Some(told) = self.unmet(part) {
            return told;
        }
        let fails = self.fails();
        frame.gated = Some(self.step());
        frame.stage = if fails { Stage::BadGate } else { Stage::Open };
        self.put(part, frame);
        if fails { Told::Fault } else { Told::Done }
    }

    /// It is settled, by a sync.
    fn settles(&mut self, part: u32) {
        let now = self.step();
        self.settled_at(part, now);
    }

    fn settled_at(&mut self, part: u32, now: u64) {
        let mut frame = self.frame(part);
        if frame.safe.is_none() {
            frame.safe = Some(now);
        }
        frame.settled = Some(now);
        frame.stage = Stage::Settled;
        self.put(part, frame);
    }

    fn settle(&mut self, part: u32) -> Told {
        if self.frame(part).stage == Stage::OpenSafe {
            self.settled_at(part, self.moment);
            return Told::Done;
        }
        if self.frame(part).stage != Stage::Open {
            return Told::NoFrame;
        }
        if self.fails() {
            self.put_stage(part, Stage::BadGate);
            return Told::Fault;
        }
        self.settles(part);
        Told::Done
    }

    /// Whether a frame waits for a sync.
    fn waits(&self, part: u32) -> bool {
        matches!(self.frame(part).stage, Stage::Written | Stage::Open)
    }

    /// The file of a frame is synced, if it waits for that, or the sync fails.
    fn sync_one(&mut self, part: u32) -> bool {
        if !self.waits(part) {
            return true;
        }
        if self.fails() {
            return false;
        }
        let mut frame = self.frame(part);
        let now = self.step();
        if frame.stage == Stage::Open {
            frame.safe = Some(now);
        }
        self.put(part, frame);
        true
    }

    /// A frame behind the call that made all safe, or failed.
    fn lead_on(&mut self, part: u32, went: bool) {
        match self.frame(part).stage {
            Stage::Written if went => self.put_stage(part, Stage::Safe),
            Stage::Written => self.put_stage(part, Stage::BadBody),
            Stage::Open if went => self.put_stage(part, Stage::OpenSafe),
            Stage::Open => self.put_stage(part, Stage::BadGate),
            _ => {}
        }
    }

    fn sync_all(&mut self) -> Told {
        if !self.waits(0) && !self.waits(1) {
            return Told::NoFrame;
        }
        let went = self.sync_one(0) && self.sync_one(1);
        self.lead_on(0, went);
        self.lead_on(1, went);
        if went { Told::Done } else { Told::Fault }
    }

    /// At most one call fails, and it comes before.
    fn reopen(&mut self, part: u32) -> Told {
        match self.frame(part).stage {
            Stage::None | Stage::Settled => Told::NoFrame,
            Stage::Open | Stage::OpenSafe | Stage::BadGate => {
                self.settles(part);
                Told::Settled
            }
            Stage::Written | Stage::Safe | Stage::BadBody => {
                self.step();
                self.put_stage(part, Stage::None);
                Told::Dropped
            }
        }
    }

    fn come_to(&mut self, part: u32, call: Call) -> Told {
        match call {
            Call::Write => self.write(part),
            Call::Sync => self.sync(part),
            Call::Gate => self.gate(part),
            Call::Settle => self.settle(part),
            Call::Reopen => self.reopen(part),
            Call::SyncAll => self.sync_all(),
        }
    }

    /// A call more.
    fn make(&mut self, rt: &impl Abort, part: u32, call: Call) -> Told {
        let told = self.come_to(part, call);
        let made = Made { part, call, told };
        self.made.push(made).expect(rt, "memory");
        told
    }

    /// Goes on behind a call that failed.
    fn go_behind(&mut self, rt: &impl Abort, part: u32) {
        match self.plan.behind {
            Behind::Nothing => self.over = true,
            Behind::Own => {
                self.make(rt, part, Call::Reopen);
            }
            Behind::Both => {
                self.make(rt, part, Call::Reopen);
                self.make(rt, other(part), Call::Reopen);
            }
            Behind::OtherFirst => {
                self.make(rt, other(part), Call::Reopen);
                self.make(rt, part, Call::Reopen);
            }
        }
    }

    /// A call more, and what is done behind it where it fails.
    fn go(&mut self, rt: &impl Abort, part: u32, call: Call) -> Told {
        let told = self.make(rt, part, call);
        if told == Told::Fault {
            self.go_behind(rt, part);
        }
        told
    }

    /// Where files are made safe together, the call that does it takes the place of a sync, or comes before the frame is settled.
    fn go_on(&mut self, rt: &impl Abort, part: u32, call: Call) -> Told {
        let stage = self.frame(part).stage;
        if self.plan.together && call == Call::Sync && stage == Stage::Written {
            return self.go(rt, part, Call::SyncAll);
        }
        if self.plan.together && call == Call::Settle && stage == Stage::Open {
            let told = self.go(rt, part, Call::SyncAll);
            if told != Told::Done {
                return told;
            }
        }
        self.go(rt, part, call)
    }

    /// The calls in their order.
    fn go_in_order(&mut self, rt: &impl Abort) {
        let mut counts = (0, 0);
        for part in self.plan.order {
            if self.over {
                return;
            }
            let (next, behind) = next_call(counts, part);
            counts = behind;
            self.go_on(rt, part, next);
        }
    }

    /// What is left to do of the frame of a partition.
    fn left(&self, part: u32) -> Option<Call> {
        match self.frame(part).stage {
            Stage::None => Some(Call::Write),
            Stage::Written => Some(Call::Sync),
            Stage::Safe => Some(Call::Gate),
            Stage::Open | Stage::OpenSafe => Some(Call::Settle),
            Stage::BadBody | Stage::BadGate | Stage::Settled => None,
        }
    }

    /// Goes on with it until it is settled, or its gate stays closed.
    fn finish(&mut self, rt: &impl Abort, part: u32) {
        for _ in 0..9 {
            if self.over {
                return;
            }
            let Some(call) = self.left(part) else {
                return;
            };
            if self.go_on(rt, part, call) == Told::Differs {
                return;
            }
        }
    }
}

/// The other of the two partitions.
fn other(part: u32) -> u32 {
    if part == 0 { 1 } else { 0 }
}

/// The call behind so many.
fn call_behind(count: u32) -> Call {
    match count {
        0 => Call::Write,
        1 => Call::Sync,
        2 => Call::Gate,
        _ => Call::Settle,
    }
}

/// A partition's next call, behind so many of each, and how many they are then.
fn next_call(counts: (u32, u32), part: u32) -> (Call, (u32, u32)) {
    let (first, second) = counts;
    if part == 0 {
        return (call_behind(first), (first.saturating_add(1), second));
    }
    (call_behind(second), (first, second.saturating_add(1)))
}

/// A run by the rules: the calls in their order, and then what is left to do of the first frame, and of the second.
pub(crate) fn run_by(rt: &impl Abort, alloc: Global, plan: Plan) -> Run {
    let mut run = Run::begin(alloc, plan);
    run.go_in_order(rt);
    run.finish(rt, 0);
    run.finish(rt, 1);
    run
}
