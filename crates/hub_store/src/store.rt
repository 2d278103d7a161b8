//! The store.

ghost use Rattle.std.specs.Prelude.{◌≤◌, ◌^◌};

use crate::start::Start;
use crate::trail::{Said, Settled};
use crate::way::Way;
use site_model::Site;
use std::marker::PhantomData;

/// What owns the files and the tape while a call commits and says.
pub struct Store<V: Site, N: Start> {
    /// The files and the tape.
    pub(crate) site: V,
    /// How far the frame of each partition has come.
    pub(crate) ways: Vec<Way>,
    /// What was settled.
    pub(crate) trail: Vec<Settled>,
    /// How many entries are in the frames under way: the trail has room for them.
    pub(crate) due: usize,
    /// Which requests' answers were said.
    pub(crate) told: Vec<Said>,
    /// The length that no log reaches.
    pub(crate) segment: u64,
    /// The greatest moment that was handed in: no entry that is committed is of a later one.
    pub(crate) latest: u64,
    /// Whether a device call failed.
    pub(crate) halted: bool,
    /// Whether saying a line failed: then a front of it may stand at the end of the tape.
    pub(crate) cut: bool,
    /// Where the call began.
    pub(crate) start: PhantomData<N>,
    ghost short: { segment ≤ 2 ^ 31 },
}
