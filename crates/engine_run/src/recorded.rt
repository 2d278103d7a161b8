//! The top call over calls of the system that are recorded.

ghost use Rattle.std.specs.Prelude.{◌≡◌, ◌⊎◌, ◌<◌, [], None};
ghost use Rattle.command_words.specs.Command.{call_in};
ghost use Rattle.engine_rounds.specs.Heard.{heard_of};
ghost use Rattle.engine_run.specs.Complete.{EndsSoundly};
ghost use Rattle.cluster_run.specs.Faults.{faults_of, FaultsRise};
ghost use Rattle.engine_run.specs.Promises.{Promises};
ghost use Rattle.engine_run.specs.Recorded.{steps_before, steps_after};
ghost use Rattle.run_causes.specs.Causes.{status_of};
ghost use Rattle.site_calls.specs.Events.{Tells};
ghost use Rattle.site_calls.specs.Failures.{disk_failures, say_failures};
ghost use Rattle.site_calls.specs.Site.{calls_of, disk_faults_of, say_faults_of};
ghost use Rattle.site_model.specs.History.{content_of};

use crate::call::run;
use activity_table::Activities;
use cluster_run::Ended;
use dura_value::Text;
use run_causes::Cause;
use site_calls::{CalledSite, Calls, Start};
use site_model::Clock;
use std::alloc::Global;
use std::sync::Wait;
use std::thread::Threads;

/// [`run`] over recorded calls of the system, which is what the program makes. All that it promises of files and of
/// standard output rests on one premise, `Tells`: each answer in the record is that of files which held at the start
/// what they held, and which nobody else wrote. `S` names what they held; since no code can read it, all of this is
/// proved whatever they held.
pub fn run_recorded<
    R: Threads + Wait + Sync,
    C: Calls + Send,
    S: Start + Send,
    K: Clock + Send,
    A: Activities + Sync,
>(
    rt: &R,
    alloc: Global,
    words: &[Text],
    site: CalledSite<C, S>,
    clock: K,
    acts: &A,
) -> Ended<CalledSite<C, S>, K>
    requires { C.events (calls_of site) ≡ [] }
    ensures status { result.status ≡ status_of result.cause }

    // The words alone decide on a usage fault, and then nothing happens.
    ensures usage { call_in words.now ≡ None
        → (result.cause ≡ Cause.Usage) ⊎ (result.cause ≡ Cause.Memory) }
    ensures only_usage { result.cause ≡ Cause.Usage → call_in words.now ≡ None }

    // All else, by what the words ask for: what every crash of a run leaves, what it answers and said, and what refusals leave.
    ensures promises { Promises words.now (Tells S.unseen (C.events (calls_of result.site)))
        (steps_before S.unseen) (steps_after S.unseen (C.events (calls_of result.site)))
        (heard_of (K.given clock) (K.given result.clock) (K.latest result.clock)) result.trail
        result.cause }

    // A fault has its cause: the count of its kind rose, and the record has a call of the system that failed.
    ensures faults { FaultsRise result.cause
        (faults_of (disk_faults_of site) (say_faults_of site) (K.clock_faults clock))
        (faults_of (disk_faults_of result.site) (say_faults_of result.site)
        (K.clock_faults result.clock)) }
    ensures fault_call { result.cause ≡ Cause.SiteFault
        → 0 < disk_failures (C.events (calls_of result.site)) }
    ensures say_fault_call { result.cause ≡ Cause.SayFault
        → 0 < say_failures (C.events (calls_of result.site)) }

    // Where the files are fit and nothing outside failed, it ends for a cause that lies with neither.
    ensures complete { EndsSoundly words.now (Tells S.unseen (C.events (calls_of result.site)))
        (λ file. content_of file (steps_before S.unseen))
        (faults_of (disk_faults_of site) (say_faults_of site) (K.clock_faults clock))
        (faults_of (disk_faults_of result.site) (say_faults_of result.site)
        (K.clock_faults result.clock)) result.cause }
{
    run(rt, alloc, words, site, clock, acts)
}
