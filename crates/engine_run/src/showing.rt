//! Showing what the logs keep.

ghost use Rattle.std.specs.Prelude.{◌≡◌, ◌≤◌, ◌<◌, ℕ, Err, OnOk, IfOk, IfErr};
ghost use Rattle.engine_run.specs.Showing.{IsLogCause, RefusesAs, ShowsAs, WritesNothing};
ghost use Rattle.flow_syntax.specs.Views.{flows_of};
ghost use Rattle.log_files.specs.Fronts.{AreSyncs, synced_to};
ghost use Rattle.recover_core.specs.Recovering.{AllRest, AreOpened, CanGoOn};
ghost use Rattle.site_model.specs.Calls.{HasRisen};
ghost use Rattle.site_model.specs.History.{content_of, tape};

use cluster_run::cause_of_recovery;
use flow_steps::Machines;
use flow_syntax::Flows;
use recover_core::{Opened, recover};
use run_causes::Cause;
use run_inputs::{FlowFile, read_flow_file};
use site_model::Site;
use state_lines::{ShowError, say_table};
use std::alloc::Global;

/// What the log files of so many partitions stand for.
fn recover_all<V: Site>(
    alloc: Global,
    site: &mut V,
    flows: &Flows,
    digest: u64,
    count: u32,
) -> Result<Opened, Cause>
    requires some { 0 < count }
    requires few { count ≤ 32 }
    ensures tells { V.tells site.new → V.tells site.old }
    ensures opens { V.tells site.new → IfOk result (AreOpened (flows_of flows.now) count digest
        (λ file. content_of file (V.history site.old))) }
    ensures refuses { V.tells site.new → IfErr result (RefusesAs (flows_of flows.now) count digest
        (λ file. content_of file (V.history site.old))) }
    ensures begins { IfOk result (CanGoOn count) }
    ensures early { IfErr result IsLogCause }
    ensures syncs { AreSyncs count (V.history site.old) (V.history site.new) }
    ensures synced { OnOk result (V.history site.new ≡ synced_to count (V.history site.old)) }
    ensures rests { V.tells site.new → IfOk result
        (λ opened. AllRest (V.history site.new) count digest
        (λ file. content_of file (V.history site.old)) opened.lives.items) }
    ensures fault { result ≡ Err Cause.SiteFault
        → HasRisen (V.disk_faults site.old) (V.disk_faults site.new) }
    ensures later { V.disk_faults site.old ≤ V.disk_faults site.new }
    ensures say_faults { V.say_faults site.new ≡ V.say_faults site.old }
{
    let machines = Machines::of(flows);
    match recover(alloc, site, &machines, digest, count) {
        Ok(opened) => Ok(opened),
        Err(error) => Err(cause_of_recovery(error)),
    }
}

/// Reads the flows, recovers what the logs of so many partitions keep, and says the table of it.
pub(crate) fn show<V: Site>(alloc: Global, site: &mut V, count: u32) -> Cause
    requires some { 0 < count }
    requires few { count ≤ 32 }
    ensures tells { V.tells site.new → V.tells site.old }
    ensures shows { V.tells site.new → ShowsAs (λ file. content_of file (V.history site.old)) count
        (tape (V.history site.old)) (tape (V.history site.new)) result }
    ensures nothing { WritesNothing count (V.history site.old) (V.history site.new) }
    ensures fault { result ≡ Cause.SiteFault
        → HasRisen (V.disk_faults site.old) (V.disk_faults site.new) }
    ensures say_fault { result ≡ Cause.SayFault
        → HasRisen (V.say_faults site.old) (V.say_faults site.new) }
    ensures no_clock { result ≡ Cause.ClockFault → ⊥ }
    ensures no_usage { result ≡ Cause.Usage → ⊥ }
    ensures later { V.disk_faults site.old ≤ V.disk_faults site.new }
    ensures say_later { V.say_faults site.old ≤ V.say_faults site.new }
{
    let FlowFile { flows, digest } = match read_flow_file(alloc, site) {
        Ok(file) => file,
        Err(cause) => return cause,
    };
    let opened = match recover_all(alloc, site, &flows, digest, count) {
        Ok(opened) => opened,
        Err(cause) => return cause,
    };
    let machines = Machines::of(&flows);
    match say_table(alloc, site, &machines, &opened.states) {
        Ok(()) => Cause::Done,
        Err(ShowError::SayFault) => Cause::SayFault,
        Err(ShowError::Memory) => Cause::Memory,
    }
}
