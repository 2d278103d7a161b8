//! The top call.

ghost use Rattle.std.specs.Prelude.{◌≡◌, ◌⊎◌, None};
ghost use Rattle.cluster_run.specs.Faults.{faults_of, FaultsRise};
ghost use Rattle.command_words.specs.Command.{call_in};
ghost use Rattle.engine_rounds.specs.Heard.{heard_of};
ghost use Rattle.engine_run.specs.Complete.{EndsSoundly};
ghost use Rattle.engine_run.specs.Promises.{Promises};
ghost use Rattle.run_causes.specs.Causes.{status_of};
ghost use Rattle.site_model.specs.History.{content_of};

use crate::showing::show;
use activity_table::Activities;
use cluster_run::{Ended, end_with, run_cluster};
use command_words::{Call, WordsError, read_words};
use dura_value::Text;
use hub_store::Trail;
use run_causes::Cause;
use site_model::{Clock, Site};
use std::alloc::Global;
use std::sync::Wait;
use std::thread::Threads;

/// [`run`] without threads. It returns for every input, once each wait of the clock does.
pub fn run_alone<V: Site, C: Clock, A: Activities>(
    alloc: Global,
    words: &[Text],
    mut site: V,
    clock: C,
    acts: &A,
) -> Ended<V, C>
    ensures tells { V.tells result.site → V.tells site }
    ensures status { result.status ≡ status_of result.cause }

    // The words alone decide on a usage fault, and then nothing happens.
    ensures usage { call_in words.now ≡ None
        → (result.cause ≡ Cause.Usage) ⊎ (result.cause ≡ Cause.Memory) }
    ensures only_usage { result.cause ≡ Cause.Usage → call_in words.now ≡ None }

    // All else, by what the words ask for: what every crash of a run leaves, what it answers and said, and what refusals leave.
    ensures promises { Promises words.now (V.tells result.site) (V.history site)
        (V.history result.site)
        (heard_of (C.given clock) (C.given result.clock) (C.latest result.clock)) result.trail
        result.cause }

    // A fault has its cause.
    ensures faults { FaultsRise result.cause
        (faults_of (V.disk_faults site) (V.say_faults site) (C.clock_faults clock))
        (faults_of (V.disk_faults result.site) (V.say_faults result.site)
        (C.clock_faults result.clock)) }

    // Where the files are fit and nothing outside failed, it ends for a cause that lies with neither.
    ensures complete { EndsSoundly words.now (V.tells result.site)
        (λ file. content_of file (V.history site))
        (faults_of (V.disk_faults site) (V.say_faults site) (C.clock_faults clock))
        (faults_of (V.disk_faults result.site) (V.say_faults result.site)
        (C.clock_faults result.clock)) result.cause }
{
    match read_words(alloc, words) {
        Ok(Call::Run(options)) => run_cluster(alloc, site, clock, acts, options),
        Ok(Call::Show(partitions)) => {
            let cause = show(alloc, &mut site, partitions);
            end_with(cause, Trail::none(alloc), site, clock)
        }
        Err(WordsError::Usage) => end_with(Cause::Usage, Trail::none(alloc), site, clock),
        Err(WordsError::Memory) => end_with(Cause::Memory, Trail::none(alloc), site, clock),
    }
}

/// Runs the requests that the site's files hold, or shows what is there, as the words say.
///
/// `run` reads files 0, 1 and 2 (the flows, the requests and the plan), recovers what the logs keep, and goes on over as many partitions and
/// nodes as the words say, by the plan: it says each answer once what it answers is committed, until nothing is possible any more
/// or as many labels were settled as may be. `show` reads file 0, recovers, and says a line for each entity and each instance. `rt` may start
/// and join threads; until there are any it isn't used.
///
/// A refusal is the first of these: the words, then files 0, 1 and 2 in this order, each one's length before its bytes, then the
/// logs, then a request under whose client and number another was taken.
pub fn run<R: Threads + Wait + Sync, V: Site + Send, C: Clock + Send, A: Activities + Sync>(
    rt: &R,
    alloc: Global,
    words: &[Text],
    site: V,
    clock: C,
    acts: &A,
) -> Ended<V, C>
    ensures tells { V.tells result.site → V.tells site }
    ensures status { result.status ≡ status_of result.cause }

    // The words alone decide on a usage fault, and then nothing happens.
    ensures usage { call_in words.now ≡ None
        → (result.cause ≡ Cause.Usage) ⊎ (result.cause ≡ Cause.Memory) }
    ensures only_usage { result.cause ≡ Cause.Usage → call_in words.now ≡ None }

    // All else, by what the words ask for: what every crash of a run leaves, what it answers and said, and what refusals leave.
    ensures promises { Promises words.now (V.tells result.site) (V.history site)
        (V.history result.site)
        (heard_of (C.given clock) (C.given result.clock) (C.latest result.clock)) result.trail
        result.cause }

    // A fault has its cause.
    ensures faults { FaultsRise result.cause
        (faults_of (V.disk_faults site) (V.say_faults site) (C.clock_faults clock))
        (faults_of (V.disk_faults result.site) (V.say_faults result.site)
        (C.clock_faults result.clock)) }

    // Where the files are fit and nothing outside failed, it ends for a cause that lies with neither.
    ensures complete { EndsSoundly words.now (V.tells result.site)
        (λ file. content_of file (V.history site))
        (faults_of (V.disk_faults site) (V.say_faults site) (C.clock_faults clock))
        (faults_of (V.disk_faults result.site) (V.say_faults result.site)
        (C.clock_faults result.clock)) result.cause }
{
    let _ = rt;
    run_alone(alloc, words, site, clock, acts)
}
