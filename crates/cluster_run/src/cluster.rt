//! A run over many partitions.

ghost use Rattle.std.specs.Prelude.{◌≡◌, ◌≢◌, ◌⊎◌, ◌≤◌, ◌<◌, ◌^◌, []};
ghost use Rattle.cluster_run.specs.Asked.{Asks, job_of};
ghost use Rattle.cluster_run.specs.Causes.{IsRefusal};
ghost use Rattle.cluster_run.specs.Comes.{AreUnfit, ComesTo, KeepsFiles, LeavesLogs, NotOpened, WasServed};
ghost use Rattle.cluster_run.specs.Complete.{AreFit, IsSound, NoneRose};
ghost use Rattle.cluster_run.specs.Faults.{FaultsRise, faults_of};
ghost use Rattle.engine_rounds.specs.Heard.{heard_of};
ghost use Rattle.open_logs.specs.Spent.{AreRefused};
ghost use Rattle.run_causes.specs.Causes.{status_of};
ghost use Rattle.site_model.specs.History.{content_of};

use crate::causes::cause_of;
use crate::ended::{Ended, end_with};
use activity_table::Activities;
use cell_steps::Mode;
use command_words::{RunMode, RunOptions};
use engine_rounds::{Served, Shape, serve};
use flow_steps::Machines;
use hub_store::Trail;
use move_plan::Plan;
use part_transport::Disturb;
use round_steps::Pace;
use run_causes::Cause;
use run_inputs::{FlowFile, Input, read_input};
use site_model::{Clock, Site};
use std::alloc::Global;

/// How far entries run ahead of their log.
fn mode_of(mode: RunMode) -> Mode {
    match mode {
        RunMode::None => Mode::None,
        RunMode::Local => Mode::Local,
        RunMode::Global => Mode::Global,
    }
}

/// How a run with these options goes on, by its plan and over flows of this digest.
fn shape_of(options: RunOptions, digest: u64, plan: Plan) -> Shape
    ensures count { result.count ≡ options.partitions }
    ensures digest { result.digest ≡ digest }
    ensures segment { result.segment ≡ options.segment }
    ensures batch { result.pace.batch ≡ options.batch }
    ensures steps { result.pace.steps ≡ options.steps }
{
    Shape {
        count: options.partitions,
        nodes: options.nodes,
        digest,
        segment: options.segment,
        pace: Pace {
            mode: mode_of(options.mode),
            batch: options.batch,
            steps: options.steps as u64,
            seed: options.seed,
        },
        disturb: Disturb {
            twice: options.twice,
            drop: options.drop,
            hold: options.hold,
        },
        plan,
    }
}

/// Serves the clients of the input files that were read.
fn run_input<V: Site, C: Clock, A: Activities>(
    alloc: Global,
    site: V,
    clock: C,
    acts: &A,
    input: Input,
    options: RunOptions,
) -> Ended<V, C>
    requires some { 0 < options.partitions }
    requires few { options.partitions ≤ 32 }
    requires batch { 0 < options.batch }
    requires most { options.batch ≤ 64 }
    requires short { options.segment ≤ 2 ^ 31 }
    ensures tells { V.tells result.site → V.tells site }
    ensures status { result.status ≡ status_of result.cause }
    ensures no_usage { result.cause ≢ Cause.Usage }
    ensures comes { V.tells result.site
        → Asks options.partitions options.nodes (λ file. content_of file (V.history site)) (job_of input)
        → NotOpened options (λ file. content_of file (V.history site)) (V.history site)
        (V.history result.site) result.trail result.cause
        ⊎ WasServed options (λ file. content_of file (V.history site))
        (heard_of (C.given clock) (C.given result.clock) (C.latest result.clock))
        (V.tells result.site) (V.history site) (V.history result.site) result.trail result.cause }
    ensures clean { V.tells result.site → AreRefused (job_of input).flows options.partitions
        (job_of input).digest (λ file. content_of file (V.history site)) (job_of input).requests
        → LeavesLogs options.partitions (V.history site) (V.history result.site) result.trail }
    ensures nothing { IsRefusal result.cause → result.trail ≡ [] }
    ensures untouched { KeepsFiles options.partitions (V.history site) (V.history result.site)
        result.cause }
    ensures faults { FaultsRise result.cause
        (faults_of (V.disk_faults site) (V.say_faults site) (C.clock_faults clock))
        (faults_of (V.disk_faults result.site) (V.say_faults result.site)
        (C.clock_faults result.clock)) }
{
    let Input {
        file: FlowFile { flows, digest },
        requests,
        plan,
    } = input;
    let machines = Machines::of(&flows);
    let shape = shape_of(options, digest, plan);
    let Served {
        site,
        clock,
        trail,
        came,
        port,
    } = serve(alloc, site, &machines, acts, clock, requests, shape);
    let cause = cause_of(alloc, came, port);
    end_with(cause, trail, site, clock)
}

/// Runs the requests that the site's files hold over as many partitions and nodes as the options say, by the plan of file 2: reads files 0, 1 and
/// 2, recovers what the logs keep, opens them, and serves clients until nothing is possible any more or as many labels were settled as may be.
pub fn run_cluster<V: Site, C: Clock, A: Activities>(
    alloc: Global,
    mut site: V,
    clock: C,
    acts: &A,
    options: RunOptions,
) -> Ended<V, C>
    requires some { 0 < options.partitions }
    requires few { options.partitions ≤ 32 }
    requires batch { 0 < options.batch }
    requires most { options.batch ≤ 64 }
    requires short { options.segment ≤ 2 ^ 31 }
    ensures tells { V.tells result.site → V.tells site }
    ensures status { result.status ≡ status_of result.cause }
    ensures no_usage { result.cause ≢ Cause.Usage }
    ensures comes { V.tells result.site
        → ComesTo options (λ file. content_of file (V.history site))
        (heard_of (C.given clock) (C.given result.clock) (C.latest result.clock))
        (V.tells result.site) (V.history site) (V.history result.site) result.trail result.cause }
    ensures unfit { V.tells result.site
        → AreUnfit options (λ file. content_of file (V.history site))
        → LeavesLogs options.partitions (V.history site) (V.history result.site) result.trail }
    ensures nothing { IsRefusal result.cause → result.trail ≡ [] }
    ensures untouched { KeepsFiles options.partitions (V.history site) (V.history result.site)
        result.cause }
    ensures faults { FaultsRise result.cause
        (faults_of (V.disk_faults site) (V.say_faults site) (C.clock_faults clock))
        (faults_of (V.disk_faults result.site) (V.say_faults result.site)
        (C.clock_faults result.clock)) }
    ensures complete { V.tells result.site
        → AreFit options (λ file. content_of file (V.history site))
        → NoneRose (faults_of (V.disk_faults site) (V.say_faults site) (C.clock_faults clock))
        (faults_of (V.disk_faults result.site) (V.say_faults result.site)
        (C.clock_faults result.clock)) → IsSound result.cause }
{
    match read_input(alloc, &mut site, options.partitions, options.nodes) {
        Ok(input) => run_input(alloc, site, clock, acts, input, options),
        Err(cause) => end_with(cause, Trail::none(alloc), site, clock),
    }
}
