//! The calls of a run, made one after another.

ghost use Rattle.std.specs.Prelude.{◌≡◌, ◌<◌, ◌+◌, ◌∷◌, [], List, Option, None, Bool};
ghost use Rattle.site_model.specs.History.{changes_of};
ghost use Rattle.site_model.specs.Moments.{OnlyFile};
ghost use Rattle.commit_log.specs.Outcomes.{RestsAs};
ghost use Rattle.hub_store.specs.Opened.{HasBegun};
ghost use Rattle.site_memory.specs.Memory.{memory_history};
ghost use Rattle.crossing_tests.specs.Crossing.{header, origin_with};
ghost use Rattle.crossing_tests.specs.Standing.{Stands};

use crate::calls::{Place, Two, begun, file_of, header_of, make};
use crate::case::Named;
use crate::rules::{Made, Plan, check};
use commit_log::Resting;
use hub_store::Ended;
use site_memory::{Kind, MemorySite};
use std::alloc::Global;
use std::marker::Brand;
use std::process::Abort;

/// Makes these calls, which give what they are to give.
fn make_all<M: Named>(
    rt: &impl Abort,
    alloc: Global,
    store: &mut Two<M>,
    plan: Plan,
    calls: &[Made],
)
    requires { Stands store.old (None ∷ None ∷ []) }
    ensures { (places : List (Option Bool)) × Stands store.new places }
{
    let mut places = [None, None];
    for made in calls {
        let Made { part, call, told } = *made;
        assert!(rt; part < 2);
        let found = make(rt, alloc, store, &mut places, part, call, plan.number);
        check(rt, plan, found == told);
    }
}

/// Makes them on a store over new segments. The caller picks by what it begins.
fn play_named<M: Named, A: Abort>(
    rt: &A,
    alloc: Global,
    site: MemorySite,
    first: Resting,
    second: Resting,
    plan: Plan,
    calls: &[Made],
) -> Ended<MemorySite>
    requires { HasBegun (origin_with M.steps) (memory_history site) (first ∷ second ∷ []) }
{
    let mut store: Two<M> = begun(rt, alloc, site, first, second);
    make_all(rt, alloc, &mut store, plan, calls);
    store.end()
}

/// A new segment of a partition.
fn formatted(rt: &impl Abort, site: &mut MemorySite, part: u32) -> Resting
    requires place { part < 2 }
    requires new { changes_of (16 + part) (memory_history site.old) ≡ [] }
    ensures file { result.file ≡ 16 + part }
    ensures rests { RestsAs (memory_history site.new) (header part) [] result }
    ensures only { OnlyFile (16 + part) (memory_history site.old) (memory_history site.new) }
{
    Resting::format(site, file_of(part), header_of(part)).expect(rt, "room")
}

/// How many device calls both segments take.
const FORMATTING: u64 = 14;

/// Makes a run's calls on a new site, whose device call fails that is to fail.
pub(crate) fn play(
    rt: &impl Abort,
    alloc: Global,
    plan: Plan,
    calls: &[Made],
) -> Ended<MemorySite> {
    let fails = vec![in alloc; (Kind::Device, plan.fails.saturating_add(FORMATTING))];
    let fails = fails.expect(rt, "memory");
    let mut site = MemorySite::new(alloc, 1000, 40, fails).expect(rt, "memory");
    let first = formatted(rt, &mut site, 0);
    let second = formatted(rt, &mut site, 1);
    assert!(rt; site.calls(Kind::Device) == FORMATTING);
    play_named::<Brand, _>(rt, alloc, site, first, second, plan, calls)
}
