//! Log files are read to their ends, to find the first that is refused.

ghost use Rattle.std.specs.Prelude.{◌≡◌, ◌≤◌, ℕ, Err, OnOk, IfOk, length};
ghost use Rattle.site_model.specs.History.{content_of};
ghost use Rattle.site_model.specs.Calls.{HasRisen};
ghost use Rattle.log_files.specs.Entries.{IsOpenedLog};
ghost use Rattle.log_files.specs.Checked.{IsReadWhole, IsOpen, AreOpen, AllOpen, IsChecked, Suits, SaysLogs, SaysAll, FitAll};
ghost use Rattle.log_files.specs.Fitting.{plain, log_of, FitsFile, FitsFiles};

use crate::asked::Asked;
use crate::choosing::{fit, tie};
use crate::error::FilesError;
use crate::opening::{LogFile, LogFiles, first_file, second_file};
use crate::reader::{Ahead, EntryReader};
use commit_log::{FrameError, OpenedLog};
use site_model::Site;
use std::alloc::Global;

/// Reads all entries of a log that was opened, and lets go of each.
fn read_all<V: Site>(alloc: Global, site: &mut V, log: OpenedLog) -> Result<(), FrameError>
    ensures tells { V.tells site.new → V.tells site.old }
    ensures reads { V.tells site.new → IsOpenedLog (V.history site.old) log
        → IsReadWhole (V.history site.old) log result }
    ensures unchanged { V.history site.new ≡ V.history site.old }
    ensures fault { result ≡ Err FrameError.SiteFault
        → HasRisen (V.disk_faults site.old) (V.disk_faults site.new) }
    ensures later { V.disk_faults site.old ≤ V.disk_faults site.new }
    ensures say_faults { V.say_faults site.new ≡ V.say_faults site.old }
{
    let mut reader = EntryReader::begin(alloc, log);
    'entries: loop {
        match reader.next(alloc, site)? {
            Ahead::Entry(entry, behind) => {
                entry.let_go();
                reader = behind;
            }
            Ahead::End(_) => return Ok(()),
        }
    }
}

/// Reads a file that was opened to its end, if there is a log in it.
fn read_file<V: Site>(
    alloc: Global,
    site: &mut V,
    file: u32,
    found: LogFile,
) -> Result<(), FilesError>
    ensures tells { V.tells site.new → V.tells site.old }
    ensures reads { V.tells site.new → (partition : ℕ)
        → IsOpen (V.history site.old) partition file found
        → IsChecked (V.history site.old) partition file found result }
    ensures unchanged { V.history site.new ≡ V.history site.old }
    ensures fault { result ≡ Err FilesError.SiteFault
        → HasRisen (V.disk_faults site.old) (V.disk_faults site.new) }
    ensures later { V.disk_faults site.old ≤ V.disk_faults site.new }
    ensures say_faults { V.say_faults site.new ≡ V.say_faults site.old }
{
    let LogFile::Log(log) = found else {
        return Ok(());
    };
    match read_all(alloc, site, log) {
        Ok(()) => Ok(()),
        Err(FrameError::Damaged { offset }) => Err(FilesError::Damaged { file, offset }),
        Err(FrameError::SiteFault) => Err(FilesError::SiteFault),
        Err(FrameError::Memory) => Err(FilesError::Memory),
    }
}

/// The log of a file, if there is one, which was read to its end. A file is refused for its bytes first, then for its number of partitions,
/// then for its flows.
fn check_file<V: Site>(
    alloc: Global,
    site: &mut V,
    asked: Asked,
    file: u32,
    found: LogFile,
) -> Result<Option<OpenedLog>, FilesError>
    ensures tells { V.tells site.new → V.tells site.old }
    ensures suits { V.tells site.new → IsOpen (V.history site.old) asked.partition file found
        → Suits (plain asked) (V.history site.old) file result }
    ensures log { IfOk result (λ log. log ≡ log_of found) }
    ensures fits { OnOk result (FitsFile (plain asked) found) }
    ensures unchanged { V.history site.new ≡ V.history site.old }
    ensures fault { result ≡ Err FilesError.SiteFault
        → HasRisen (V.disk_faults site.old) (V.disk_faults site.new) }
    ensures later { V.disk_faults site.old ≤ V.disk_faults site.new }
    ensures say_faults { V.say_faults site.new ≡ V.say_faults site.old }
{
    read_file(alloc, site, file, found)?;
    fit(asked, file, found)
}

/// Reads the log of a partition to its end. Of each file the bytes are looked at first, then of how many partitions and of which flows it is;
/// then whether both can stand.
#[tactic(auto, using(site_model::proofs::Faults::risen_later))]
fn check_both<V: Site>(
    alloc: Global,
    site: &mut V,
    asked: Asked,
    both: LogFiles,
) -> Result<(), FilesError>
    ensures tells { V.tells site.new → V.tells site.old }
    ensures says { V.tells site.new → AreOpen (V.history site.old) asked.partition both
        → SaysLogs (plain asked) (λ file. content_of file (V.history site.old)) result }
    ensures fits { OnOk result (FitsFiles (plain asked) both) }
    ensures unchanged { V.history site.new ≡ V.history site.old }
    ensures fault { result ≡ Err FilesError.SiteFault
        → HasRisen (V.disk_faults site.old) (V.disk_faults site.new) }
    ensures later { V.disk_faults site.old ≤ V.disk_faults site.new }
    ensures say_faults { V.say_faults site.new ≡ V.say_faults site.old }
{
    let first = check_file(alloc, site, asked, first_file(asked.partition), both.first)?;
    let second = check_file(
        alloc,
        site,
        asked,
        second_file(asked.partition),
        both.second,
    )?;
    match tie(asked, first, second) {
        Ok(_) => Ok(()),
        Err(error) => Err(error),
    }
}

/// Reads all log files that were opened to their ends, partition by partition, and names the first fault in them.
#[tactic(auto, using(site_model::proofs::Faults::risen_later))]
pub fn check_files<V: Site>(
    alloc: Global,
    site: &mut V,
    digest: u64,
    fronts: &[LogFiles],
) -> Result<(), FilesError>
    requires { length fronts.now ≤ 32 }
    ensures tells { V.tells site.new → V.tells site.old }
    ensures says { V.tells site.new → AllOpen (V.history site.old) fronts.now
        → SaysAll (length fronts.now) digest (λ file. content_of file (V.history site.old))
        result }
    ensures fits { OnOk result (FitAll (length fronts.now) digest fronts.now) }
    ensures unchanged { V.history site.new ≡ V.history site.old }
    ensures fault { result ≡ Err FilesError.SiteFault
        → HasRisen (V.disk_faults site.old) (V.disk_faults site.new) }
    ensures later { V.disk_faults site.old ≤ V.disk_faults site.new }
    ensures say_faults { V.say_faults site.new ≡ V.say_faults site.old }
{
    'partitions: for place in 0..fronts.len() {
        let asked = Asked {
            partition: place as u32,
            count: fronts.len() as u32,
            digest,
        };
        check_both(alloc, site, asked, fronts[place])?;
    }
    Ok(())
}
