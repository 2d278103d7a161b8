//! Which log a partition has, by the fronts of its two files.

ghost use Rattle.std.specs.Prelude.{◌≡◌, ℕ, List, Err, OnOk, OnErr, IfOk, IfErr};
ghost use Rattle.dura_value.specs.Items.{Entry};
ghost use Rattle.part_items.specs.Logs.{fault_of};
ghost use Rattle.log_files.specs.Fitting.{plain, log_of, kept_as, kept_behind, FitsFile, Ties, FitsFiles, tied_fault, RefusesFiles, Chooses, IsChosen};
ghost use Rattle.log_files.specs.Checked.{AreOpen};
ghost use Rattle.site_model.specs.History.{Step};

use crate::asked::Asked;
use crate::error::FilesError;
use crate::opening::{LogFile, LogFiles, first_file, second_file};
use commit_log::OpenedLog;

/// Where the base position of a log stands.
const BASE: u64 = 25;

/// The log of a file, if it has one. A file is refused that is damaged, of another number of partitions or of other flows, in this order.
#[tactic(auto, using(crate::proofs::Fits::shape_fault, crate::proofs::Fits::flows_fault))]
pub(crate) fn fit(asked: Asked, file: u32, found: LogFile) -> Result<Option<OpenedLog>, FilesError>
    ensures log { IfOk result (λ log. log ≡ log_of found) }
    ensures fits { OnOk result (FitsFile (plain asked) found) }
    ensures unfit { OnErr result (FitsFile (plain asked) found → ⊥) }
    ensures refused { (entries : List Entry) (gate : ℕ) → IfErr result (λ error.
        RefusesFiles (plain asked) error (fault_of (plain asked) file
        (kept_behind entries gate found))) }
    ensures no_fault { result ≡ Err FilesError.SiteFault → ⊥ }
    ensures no_want { result ≡ Err FilesError.Memory → ⊥ }
{
    let log = match found {
        LogFile::Fresh => return Ok(None),
        LogFile::Damaged(offset) => return Err(FilesError::Damaged { file, offset }),
        LogFile::Log(log) => log,
    };
    if log.header.partitions != asked.count {
        return Err(FilesError::OtherShape {
            found: log.header.partitions,
            asked: asked.count,
        });
    }
    if log.header.digest != asked.digest {
        return Err(FilesError::OtherFlows {
            found: log.header.digest,
            given: asked.digest,
        });
    }
    Ok(Some(log))
}

/// A log, if it begins at position 0: there is no checkpoint to begin behind.
fn from_first_entry(file: u32, log: OpenedLog) -> Result<OpenedLog, FilesError>
    ensures found { IfOk result (λ same. (same ≡ log) × (log.header.base ≡ 0)) }
    ensures late { OnErr result ((result ≡ Err (FilesError.Damaged file 25))
        × (log.header.base ≡ 0 → ⊥)) }
{
    if log.header.base == 0 {
        Ok(log)
    } else {
        Err(FilesError::Damaged { file, offset: BASE })
    }
}

/// The log of two files that each suit, if one of them has it. They are refused where both have one, and where one has a log that begins
/// behind position 0.
#[tactic(auto, using(crate::proofs::Fits::same_tied, crate::proofs::Fits::second_late, crate::proofs::Fits::first_late, crate::proofs::Fits::one_late, crate::proofs::Fits::other_late))]
pub(crate) fn tie(
    asked: Asked,
    first: Option<OpenedLog>,
    second: Option<OpenedLog>,
) -> Result<Option<OpenedLog>, FilesError>
    ensures chooses { IfOk result (Chooses first second) }
    ensures ties { OnOk result (Ties first second) }
    ensures untied { OnErr result (Ties first second → ⊥) }
    ensures refused { (entries more : List Entry) (gate end : ℕ) → IfErr result (λ error.
        RefusesFiles (plain asked) error (tied_fault asked.partition
        (kept_as entries gate first) (kept_as more end second))) }
    ensures no_fault { result ≡ Err FilesError.SiteFault → ⊥ }
    ensures no_want { result ≡ Err FilesError.Memory → ⊥ }
{
    let first_file = first_file(asked.partition);
    let second_file = second_file(asked.partition);
    match (first, second) {
        (None, None) => Ok(None),
        (Some(log), None) => Ok(Some(from_first_entry(first_file, log)?)),
        (None, Some(log)) => Ok(Some(from_first_entry(second_file, log)?)),
        (Some(log), Some(other)) => {
            let file = if log.header.base == other.header.base || log.header.base == 0 {
                second_file
            } else {
                first_file
            };
            Err(FilesError::Damaged { file, offset: BASE })
        }
    }
}

/// The log that a partition has by the fronts of its files, if they aren't refused by these.
pub fn choose(asked: Asked, both: LogFiles) -> Result<Option<OpenedLog>, FilesError>
    ensures chosen { (steps : List Step) → AreOpen steps asked.partition both
        → IfOk result (IsChosen (plain asked) steps) }
    ensures chooses { IfOk result (Chooses (log_of both.first) (log_of both.second)) }
    ensures fits { OnOk result (FitsFiles (plain asked) both) }
    ensures unfit { OnErr result (FitsFiles (plain asked) both → ⊥) }
    ensures no_fault { result ≡ Err FilesError.SiteFault → ⊥ }
    ensures no_want { result ≡ Err FilesError.Memory → ⊥ }
{
    let first = fit(asked, first_file(asked.partition), both.first)?;
    let second = fit(asked, second_file(asked.partition), both.second)?;
    tie(asked, first, second)
}
