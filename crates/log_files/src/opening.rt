//! The log files of all partitions are opened.

ghost use Rattle.std.specs.Prelude.{◌≡◌, ◌≤◌, ◌<◌, ◌⊎◌, ◌∷◌, ℕ, Err, OnOk, IfOk, OnErr, length};
ghost use Rattle.site_model.specs.History.{on, synced, content_of};
ghost use Rattle.site_model.specs.Calls.{HasRisen};
ghost use Rattle.part_items.specs.Logs.{first_log, second_log};
ghost use Rattle.log_files.specs.Fronts.{IsFront, AreFronts, synced_to, AreSyncs};
ghost use Rattle.log_files.specs.Checked.{AllOpen};

use crate::error::FilesError;
use commit_log::{OpenError, OpenedLog, open_log};
use site_model::Site;
use std::alloc::Global;

/// What stands at the front of a log file.
#[derive(Clone, Copy)]
pub enum LogFile {
    /// No log yet.
    Fresh,
    /// No log of this partition: the byte at this offset is wrong or missing.
    Damaged(u64),
    /// A log of this partition.
    Log(OpenedLog),
}

/// What stands at the fronts of a partition's two log files.
#[derive(Clone, Copy)]
pub struct LogFiles {
    /// The file with the even number.
    pub first: LogFile,
    /// The one behind it.
    pub second: LogFile,
}

/// The number of a partition's first log file.
pub fn first_file(partition: u32) -> u32
    requires { partition < 32 }
    ensures { result ≡ first_log partition }
{
    16 + 4 * partition
}

/// The number of a partition's second log file.
pub fn second_file(partition: u32) -> u32
    requires { partition < 32 }
    ensures { result ≡ second_log partition }
{
    17 + 4 * partition
}

/// Syncs a log file of a partition, and reads its front.
fn open_file<V: Site>(site: &mut V, file: u32, partition: u32) -> Result<LogFile, FilesError>
    ensures tells { V.tells site.new → V.tells site.old }
    ensures front { V.tells site.new → IfOk result
        (IsFront partition (content_of file (V.history site.old)) file) }
    ensures syncs { (V.history site.new ≡ on file synced ∷ V.history site.old)
        ⊎ (V.history site.new ≡ V.history site.old) }
    ensures synced { OnOk result (V.history site.new ≡ on file synced ∷ V.history site.old) }
    ensures stops { OnErr result (result ≡ Err FilesError.SiteFault) }
    ensures fault { result ≡ Err FilesError.SiteFault
        → HasRisen (V.disk_faults site.old) (V.disk_faults site.new) }
    ensures later { V.disk_faults site.old ≤ V.disk_faults site.new }
    ensures say_faults { V.say_faults site.new ≡ V.say_faults site.old }
{
    match open_log(site, file, partition) {
        Ok(log) => Ok(LogFile::Log(log)),
        Err(OpenError::Fresh) => Ok(LogFile::Fresh),
        Err(OpenError::Damaged { offset }) => Ok(LogFile::Damaged(offset)),
        Err(OpenError::SiteFault) => Err(FilesError::SiteFault),
    }
}

/// Syncs both log files of a partition, and reads their fronts, one after the other.
#[tactic(auto, using(site_model::proofs::Faults::risen_later))]
fn open_both<V: Site>(site: &mut V, partition: u32) -> Result<LogFiles, FilesError>
    requires { partition < 32 }
    ensures tells { V.tells site.new → V.tells site.old }
    ensures fronts { V.tells site.new → IfOk result
        (AreFronts (λ file. content_of file (V.history site.old)) partition) }
    ensures syncs { (V.history site.new ≡ V.history site.old)
        ⊎ ((V.history site.new ≡ on (first_log partition) synced ∷ V.history site.old)
        ⊎ (V.history site.new ≡ on (second_log partition) synced ∷ on (first_log partition) synced
        ∷ V.history site.old)) }
    ensures synced { OnOk result (V.history site.new ≡ on (second_log partition) synced
        ∷ on (first_log partition) synced ∷ V.history site.old) }
    ensures stops { OnErr result (result ≡ Err FilesError.SiteFault) }
    ensures fault { result ≡ Err FilesError.SiteFault
        → HasRisen (V.disk_faults site.old) (V.disk_faults site.new) }
    ensures later { V.disk_faults site.old ≤ V.disk_faults site.new }
    ensures say_faults { V.say_faults site.new ≡ V.say_faults site.old }
{
    let first = open_file(site, first_file(partition), partition)?;
    let second = open_file(site, second_file(partition), partition)?;
    Ok(LogFiles { first, second })
}

/// Syncs the log files of so many partitions, in the order of their numbers, and reads their fronts. Nothing is written.
pub fn open_files<V: Site>(
    alloc: Global,
    site: &mut V,
    count: u32,
) -> Result<Vec<LogFiles>, FilesError>
    requires { count ≤ 32 }
    ensures tells { V.tells site.new → V.tells site.old }
    ensures open { V.tells site.new → IfOk result
        (λ files. AllOpen (V.history site.new) files.items) }
    ensures contents { (file : ℕ) → content_of file (V.history site.new)
        ≡ content_of file (V.history site.old) }
    ensures many { IfOk result (λ files. length files.items ≡ count) }
    ensures syncs { AreSyncs count (V.history site.old) (V.history site.new) }
    ensures synced { OnOk result (V.history site.new ≡ synced_to count (V.history site.old)) }
    ensures stops { OnErr result ((result ≡ Err FilesError.SiteFault)
        ⊎ (result ≡ Err FilesError.Memory)) }
    ensures fault { result ≡ Err FilesError.SiteFault
        → HasRisen (V.disk_faults site.old) (V.disk_faults site.new) }
    ensures later { V.disk_faults site.old ≤ V.disk_faults site.new }
    ensures say_faults { V.say_faults site.new ≡ V.say_faults site.old }
{
    let mut files = Vec::new(alloc);
    'partitions: for partition in 0..count {
        let both = open_both(site, partition)?;
        if files.push(both).is_err() {
            return Err(FilesError::Memory);
        }
    }
    Ok(files)
}
