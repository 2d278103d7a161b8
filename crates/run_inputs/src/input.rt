//! The three input files.

ghost use Rattle.std.specs.Prelude.{◌≡◌, ◌≤◌, ◌<◌, ◌^◌, length, Err, IfOk, IfErr};
ghost use Rattle.move_plan.specs.Plans.{plan_of, FitsRun};
ghost use Rattle.run_inputs.specs.Input.{IsInputCause, RequestsRead, ReadsRequestFile, ReadsRest, ReadsInput};
ghost use Rattle.site_model.specs.Calls.{HasRisen};
ghost use Rattle.site_model.specs.History.{content_of};

use crate::files::read_file;
use crate::flows::{FlowFile, read_flow_file};
use crate::plan::read_plan_file;
use dura_value::Request;
use move_plan::Plan;
use request_reader::{RequestsError, read_requests};
use run_causes::Cause;
use site_model::Site;
use std::alloc::Global;

/// The number of the requests file.
const REQUESTS: u32 = 1;

/// What the input files ask for.
#[derive(Drop)]
pub struct Input {
    /// The flows, and the digest of their file.
    pub file: FlowFile,
    /// The requests, in the order of their lines.
    pub requests: Vec<Request>,
    /// The partitions that move, and the nodes that stop.
    pub plan: Plan,
}

/// The requests of a file's bytes.
fn requests_of(alloc: Global, bytes: &[u8]) -> Result<Vec<Request>, Cause>
    requires { length bytes.now < 2 ^ 63 }
    ensures { RequestsRead bytes.now result }
{
    match read_requests(alloc, bytes) {
        Ok(requests) => Ok(requests),
        Err(RequestsError::BadLine { line }) => Err(Cause::BadRequests { line }),
        Err(RequestsError::Clash { client, number }) => Err(Cause::Clash { client, number }),
        Err(RequestsError::Memory) => Err(Cause::Memory),
    }
}

/// The requests of file 1.
fn read_request_file<V: Site>(alloc: Global, site: &mut V) -> Result<Vec<Request>, Cause>
    ensures tells { V.tells site.new → V.tells site.old }
    ensures reads { V.tells site.new → ReadsRequestFile (content_of REQUESTS (V.history site.old))
        result }
    ensures input_cause { IfErr result IsInputCause }
    ensures unchanged { V.history site.new ≡ V.history site.old }
    ensures later { V.disk_faults site.old ≤ V.disk_faults site.new }
    ensures fault { result ≡ Err Cause.SiteFault
        → HasRisen (V.disk_faults site.old) (V.disk_faults site.new) }
    ensures say_faults { V.say_faults site.new ≡ V.say_faults site.old }
{
    let bytes = read_file(alloc, site, REQUESTS)?;
    requests_of(alloc, &bytes)
}

/// The requests of file 1, and the plan of file 2.
fn read_rest<V: Site>(
    alloc: Global,
    site: &mut V,
    partitions: u32,
    nodes: u32,
) -> Result<(Vec<Request>, Plan), Cause>
    ensures tells { V.tells site.new → V.tells site.old }
    ensures reads { V.tells site.new → ReadsRest partitions nodes
        (λ file. content_of file (V.history site.old)) result }
    ensures fits { IfOk result (λ rest. FitsRun partitions nodes (plan_of rest.1)) }
    ensures input_cause { IfErr result IsInputCause }
    ensures unchanged { V.history site.new ≡ V.history site.old }
    ensures later { V.disk_faults site.old ≤ V.disk_faults site.new }
    ensures fault { result ≡ Err Cause.SiteFault
        → HasRisen (V.disk_faults site.old) (V.disk_faults site.new) }
    ensures say_faults { V.say_faults site.new ≡ V.say_faults site.old }
{
    let requests = read_request_file(alloc, site)?;
    let plan = read_plan_file(alloc, site, partitions, nodes)?;
    Ok((requests, plan))
}

/// Reads files 0, 1 and 2 in this order, each one's length first. The plan is of a run of so many partitions and nodes.
pub fn read_input<V: Site>(
    alloc: Global,
    site: &mut V,
    partitions: u32,
    nodes: u32,
) -> Result<Input, Cause>
    ensures tells { V.tells site.new → V.tells site.old }
    ensures reads { V.tells site.new → ReadsInput partitions nodes
        (λ file. content_of file (V.history site.old)) result }
    ensures fits { IfOk result (λ input. FitsRun partitions nodes (plan_of input.plan)) }
    ensures input_cause { IfErr result IsInputCause }
    ensures unchanged { V.history site.new ≡ V.history site.old }
    ensures later { V.disk_faults site.old ≤ V.disk_faults site.new }
    ensures fault { result ≡ Err Cause.SiteFault
        → HasRisen (V.disk_faults site.old) (V.disk_faults site.new) }
    ensures say_faults { V.say_faults site.new ≡ V.say_faults site.old }
{
    let file = read_flow_file(alloc, site)?;
    let (requests, plan) = read_rest(alloc, site, partitions, nodes)?;
    Ok(Input {
        file,
        requests,
        plan,
    })
}
