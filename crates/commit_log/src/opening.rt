// Opening a log.
ghost use Rattle.std.specs.Prelude.{◌≡◌, ◌≤◌, ◌∷◌, ℕ, List, Err, OnOk, IfOk, ◌⊎◌, length};
ghost use Rattle.site_model.specs.History.{on, synced, changes_of, content_of, Leaves};
ghost use Rattle.site_model.specs.Calls.{HasRisen, HasCause, Syncs};
ghost use Rattle.site_model.specs.Moments.{LeavesOnly};
ghost use Rattle.commit_log.specs.Fronts.{SaysHeader};
ghost use Rattle.commit_log.specs.Segment.{first_gate};
ghost use Rattle.commit_log.specs.Reading.{Opens, IsAhead};

use crate::ahead::Ahead;
use crate::header::Header;
use crate::parse::{FIRST_GATE, parse_front};
use crate::reader::{LogReader, OpenError, OpenedLog};
use site_model::{Failed, Site};
use std::alloc::Global;

/// Syncs a file, and says how long it is.
fn synced_length<V: Site>(site: &mut V, file: u32) -> Result<u64, Failed>
    ensures tells { V.tells site.new → V.tells site.old }
    ensures either { Syncs file (V.history site.old) (V.history site.new) result }
    ensures value { V.tells site.new → IfOk result
        (λ n. n ≡ length (content_of file (V.history site.old))) }
    ensures cause { HasCause (V.disk_faults site.old) (V.disk_faults site.new) result }
    ensures say_faults { V.say_faults site.new ≡ V.say_faults site.old }
{
    site.sync(file)?;
    site.length(file)
}

/// The header that stands in the front of a file, by one read.
fn read_front<V: Site>(site: &mut V, file: u32, partition: u32) -> Result<Header, OpenError>
    ensures tells { V.tells site.new → V.tells site.old }
    ensures says { V.tells site.new → SaysHeader partition (content_of file (V.history site.old))
        result }
    ensures unchanged { V.history site.new ≡ V.history site.old }
    ensures fault { result ≡ Err OpenError.SiteFault
        → HasRisen (V.disk_faults site.old) (V.disk_faults site.new) }
    ensures later { V.disk_faults site.old ≤ V.disk_faults site.new }
    ensures say_faults { V.say_faults site.new ≡ V.say_faults site.old }
{
    let mut front = [0; FIRST_GATE as usize];
    match site.read(file, 0, &mut front) {
        Ok(count) => parse_front(partition, &front[..count]),
        Err(_) => Err(OpenError::SiteFault),
    }
}

/// Opens the log of this partition: syncs the file, measures it, and reads its header.
pub fn open_log<V: Site>(site: &mut V, file: u32, partition: u32) -> Result<OpenedLog, OpenError>
    ensures tells { V.tells site.new → V.tells site.old }
    // A crash leaves what it could have left before.
    ensures during { V.tells site.new → LeavesOnly file (V.history site.old) (V.history site.new)
        (Leaves (changes_of file (V.history site.old))) }
    ensures opens { V.tells site.new → Opens partition (content_of file (V.history site.old))
        result }
    ensures syncs { (V.history site.new ≡ on file synced ∷ V.history site.old)
        ⊎ (V.history site.new ≡ V.history site.old) }
    ensures synced { OnOk result (V.history site.new ≡ on file synced ∷ V.history site.old) }
    ensures synced_fresh { result ≡ Err OpenError.Fresh
        → V.history site.new ≡ on file synced ∷ V.history site.old }
    ensures synced_damaged { (offset : ℕ) → result ≡ Err (OpenError.Damaged offset)
        → V.history site.new ≡ on file synced ∷ V.history site.old }
    ensures place { IfOk result (λ opened. opened.file ≡ file) }
    ensures fault { result ≡ Err OpenError.SiteFault
        → HasRisen (V.disk_faults site.old) (V.disk_faults site.new) }
    ensures later { V.disk_faults site.old ≤ V.disk_faults site.new }
    ensures say_faults { V.say_faults site.new ≡ V.say_faults site.old }
{
    let size = match synced_length(site, file) {
        Ok(size) => size,
        Err(_) => return Err(OpenError::SiteFault),
    };
    let header = read_front(site, file, partition)?;
    Ok(OpenedLog { file, header, size })
}

impl OpenedLog {
    /// The log before its first frame. Nothing is read yet, and no memory taken.
    pub fn frames(self, alloc: Global) -> LogReader
        ensures place { (result.file ≡ self.file) × (result.header ≡ self.header)
            × (result.gate ≡ first_gate) × (result.size ≡ self.size) }
        ensures ahead { (content : List ℕ) → length content ≡ self.size → IsAhead content result }
    {
        let OpenedLog { file, header, size } = self;
        LogReader {
            file,
            header,
            gate: FIRST_GATE,
            size,
            ahead: Ahead::none(alloc),
        }
    }
}
