//! The logs of all partitions are opened, one after another.

ghost use Rattle.std.specs.Prelude.{◌≡◌, ◌≤◌, ◌<◌, ◌++◌, ◌∷◌, [], ℕ, List, length, Err, OnOk, OnErr, IfOk, IfErr};
ghost use Rattle.dura_value.specs.Items.{Entry};
ghost use Rattle.open_logs.specs.Moments.{KeepsAll};
ghost use Rattle.open_logs.specs.Ready.{AllReady, OpensLog, HasOpened, AreOfLives};
ghost use Rattle.recover_core.specs.Rounds.{IsOutside};
ghost use Rattle.site_model.specs.Calls.{HasRisen};
ghost use Rattle.site_model.specs.Moments.{Always};

use commit_gate::Past;
use commit_log::{Header, Resting};
use log_files::first_file;
use recover_core::{Life, RecoverError};
use site_model::{Failed, Site};
use std::alloc::{AllocError, Global};

/// What is ready of the first partitions, in their order.
#[derive(Drop)]
pub(crate) struct Ready {
    /// The logs at rest.
    pub logs: Vec<Resting>,
    /// The incarnations of the entries.
    pub pasts: Vec<Past>,
    /// The incarnations that begin.
    pub incarnations: Vec<u64>,
}

impl Ready {
    /// What is ready of no partition.
    fn none(alloc: Global) -> Ready
        ensures logs { result.logs.items ≡ [] }
        ensures pasts { result.pasts.items ≡ [] }
        ensures incarnations { result.incarnations.items ≡ [] }
    {
        Ready {
            logs: Vec::new(alloc),
            pasts: Vec::new(alloc),
            incarnations: Vec::new(alloc),
        }
    }

    /// One more partition is ready. Where memory runs out, what there is is of no use.
    fn push(&mut self, log: Resting, past: Past, incarnation: u64) -> Result<(), AllocError>
        ensures logs { OnOk result (self.new.logs.items ≡ self.old.logs.items ++ log ∷ []) }
        ensures pasts { OnOk result (self.new.pasts.items ≡ self.old.pasts.items ++ past ∷ []) }
        ensures incarnations { OnOk result (self.new.incarnations.items
            ≡ self.old.incarnations.items ++ incarnation ∷ []) }
    {
        if self.logs.push(log).is_err() {
            return Err(AllocError);
        }
        if self.pasts.push(past).is_err() {
            return Err(AllocError);
        }
        if self.incarnations.push(incarnation).is_err() {
            return Err(AllocError);
        }
        Ok(())
    }
}

/// The log that was found, or a new one in its partition's first file.
fn open_log<V: Site>(
    site: &mut V,
    found: Option<Resting>,
    partition: u32,
    count: u32,
    digest: u64,
) -> Result<Resting, Failed>
    requires few { partition < 32 }
    ensures tells { V.tells site.new → V.tells site.old }
    ensures opens { V.tells site.new
        → OpensLog count digest partition (V.history site.old) (V.history site.new) found result }
    ensures fault { OnErr result (HasRisen (V.disk_faults site.old) (V.disk_faults site.new)) }
    ensures later { V.disk_faults site.old ≤ V.disk_faults site.new }
    ensures say_faults { V.say_faults site.new ≡ V.say_faults site.old }
{
    let header = Header {
        partition,
        partitions: count,
        digest,
        base: 0,
    };
    match found {
        Some(log) => Ok(log),
        None => Resting::format(site, first_file(partition), header),
    }
}

/// Opens the log of each partition, or makes one where there is none, one partition after another.
pub(crate) fn open_each<V: Site>(
    alloc: Global,
    site: &mut V,
    lives: Vec<Life>,
    digest: u64,
    count: u32,
) -> Result<Ready, RecoverError>
    requires many { length lives.items ≡ count }
    requires few { count ≤ 32 }
    ensures tells { V.tells site.new → V.tells site.old }
    ensures lives { IfOk result (AreOfLives lives.items) }
    ensures opened { V.tells site.new → (logs : ℕ → List Entry)
        → AllReady count digest logs (V.history site.old) lives.items
        → IfOk result (λ ready. HasOpened count digest logs (V.history site.old)
        (V.history site.new) ready.logs.items) }
    ensures during { V.tells site.new → (logs : ℕ → List Entry)
        → AllReady count digest logs (V.history site.old) lives.items
        → Always (KeepsAll count digest logs (V.history site.old)) (V.history site.old)
        (V.history site.new) }
    ensures stops { IfErr result IsOutside }
    ensures fault { result ≡ Err RecoverError.SiteFault
        → HasRisen (V.disk_faults site.old) (V.disk_faults site.new) }
    ensures later { V.disk_faults site.old ≤ V.disk_faults site.new }
    ensures say_faults { V.say_faults site.new ≡ V.say_faults site.old }
{
    let mut ready = Ready::none(alloc);
    let mut partition: u32 = 0;
    'lives: for life in lives {
        let Life {
            log,
            incarnation,
            past,
        } = life;
        let Ok(log) = open_log(site, log, partition, count, digest) else {
            return Err(RecoverError::SiteFault);
        };
        if ready.push(log, past, incarnation).is_err() {
            return Err(RecoverError::Memory);
        }
        partition += 1;
    }
    Ok(ready)
}
