//! The plan.

ghost use Rattle.std.specs.Prelude.{◌≡◌, ◌≤◌, Err, IfOk, IfErr};
ghost use Rattle.move_plan.specs.Plans.{plan_of, FitsRun};
ghost use Rattle.run_inputs.specs.Input.{IsInputCause, PlanRead, ReadsPlan};
ghost use Rattle.run_inputs.specs.Refusal.{plan_place};
ghost use Rattle.site_model.specs.Calls.{HasRisen};
ghost use Rattle.site_model.specs.History.{content_of};

use crate::files::read_file;
use move_plan::{Place, Plan, PlanError, read_plan};
use run_causes::{Cause, PlanPlace};
use site_model::Site;
use std::alloc::Global;

/// The number of the plan.
const PLAN: u32 = 2;

/// A place of a plan as a cause has it.
fn plan_place(place: Place) -> PlanPlace
    ensures { result ≡ plan_place place }
{
    match place {
        Place::Whole => PlanPlace::Whole,
        Place::Move(number) => PlanPlace::Move(number as u64),
        Place::Stop(number) => PlanPlace::Stop(number as u64),
    }
}

/// The plan of a file's bytes: where there are none, nothing moves, and nothing stops.
fn plan_of_file(alloc: Global, bytes: &[u8], partitions: u32, nodes: u32) -> Result<Plan, Cause>
    ensures read { PlanRead partitions nodes bytes.now result }
    ensures fits { IfOk result (λ plan. FitsRun partitions nodes (plan_of plan)) }
{
    if bytes.is_empty() {
        return Ok(Plan {
            moves: Vec::new(alloc),
            stops: Vec::new(alloc),
        });
    }
    match read_plan(alloc, bytes, partitions, nodes) {
        Ok(plan) => Ok(plan),
        Err(PlanError::BadPlan(place)) => Err(Cause::BadPlan {
            place: plan_place(place),
        }),
        Err(PlanError::Memory) => Err(Cause::Memory),
    }
}

/// The plan of file 2.
pub(crate) fn read_plan_file<V: Site>(
    alloc: Global,
    site: &mut V,
    partitions: u32,
    nodes: u32,
) -> Result<Plan, Cause>
    ensures tells { V.tells site.new → V.tells site.old }
    ensures reads { V.tells site.new → ReadsPlan partitions nodes
        (content_of PLAN (V.history site.old)) result }
    ensures fits { IfOk result (λ plan. FitsRun partitions nodes (plan_of plan)) }
    ensures input_cause { IfErr result IsInputCause }
    ensures unchanged { V.history site.new ≡ V.history site.old }
    ensures later { V.disk_faults site.old ≤ V.disk_faults site.new }
    ensures fault { result ≡ Err Cause.SiteFault
        → HasRisen (V.disk_faults site.old) (V.disk_faults site.new) }
    ensures say_faults { V.say_faults site.new ≡ V.say_faults site.old }
{
    let bytes = read_file(alloc, site, PLAN)?;
    plan_of_file(alloc, &bytes, partitions, nodes)
}
