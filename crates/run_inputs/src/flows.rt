//! The flows file.

ghost use Rattle.std.specs.Prelude.{◌≡◌, ◌≤◌, Err, IfErr};
ghost use Rattle.run_inputs.specs.Input.{IsFlowsCause, FlowsRead, ReadsFlowFile};
ghost use Rattle.site_model.specs.Calls.{HasRisen};
ghost use Rattle.site_model.specs.History.{content_of};

use crate::files::read_file;
use dura_value::fnv1a_64;
use flow_reader::{FlowsError, read_flows};
use flow_syntax::Flows;
use run_causes::{Cause, FlowsFault};
use site_model::Site;
use std::alloc::Global;

/// The number of the flows file.
const FLOWS: u32 = 0;

/// What the flows file holds.
#[derive(Drop)]
pub struct FlowFile {
    /// Its flows and classes.
    pub flows: Flows,
    /// The digest of its bytes.
    pub digest: u64,
}

/// What the bytes of the flows file hold.
fn flow_file_of(alloc: Global, bytes: &[u8]) -> Result<FlowFile, Cause>
    ensures { FlowsRead bytes.now result }
{
    let fault = match read_flows(alloc, bytes) {
        Ok(flows) => return Ok(FlowFile {
            flows,
            digest: fnv1a_64(bytes),
        }),
        Err(FlowsError::NotJson) => FlowsFault::NotJson,
        Err(FlowsError::BadShape { path }) => FlowsFault::BadShape { path },
        Err(FlowsError::UnknownName { path }) => FlowsFault::UnknownName { path },
        Err(FlowsError::Memory) => return Err(Cause::Memory),
    };
    Err(Cause::BadFlows { fault })
}

/// Reads file 0, its length first.
pub fn read_flow_file<V: Site>(alloc: Global, site: &mut V) -> Result<FlowFile, Cause>
    ensures tells { V.tells site.new → V.tells site.old }
    ensures reads { V.tells site.new → ReadsFlowFile (λ file. content_of file (V.history site.old))
        result }
    ensures flows_cause { IfErr result IsFlowsCause }
    ensures unchanged { V.history site.new ≡ V.history site.old }
    ensures later { V.disk_faults site.old ≤ V.disk_faults site.new }
    ensures fault { result ≡ Err Cause.SiteFault
        → HasRisen (V.disk_faults site.old) (V.disk_faults site.new) }
    ensures say_faults { V.say_faults site.new ≡ V.say_faults site.old }
{
    let bytes = read_file(alloc, site, FLOWS)?;
    flow_file_of(alloc, &bytes)
}
