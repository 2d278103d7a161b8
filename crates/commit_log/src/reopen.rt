// Opening a log again whose gate was tried.
ghost use Rattle.std.specs.Prelude.{◌≡◌, ◌==◌, ℕ, List, false, IfOk, IfErr, MatchBool, slice_index};
ghost use Rattle.site_model.specs.History.{changes_of, content_of, Leaves};
ghost use Rattle.site_model.specs.Calls.{HasCause, Syncs};
ghost use Rattle.site_model.specs.Moments.{LeavesOnly};
ghost use Rattle.commit_log.specs.declared.header.Header.{Header};
ghost use Rattle.commit_log.specs.Segment.{open_gate};
ghost use Rattle.commit_log.specs.States.{IsGated, IsBrokenGate};
ghost use Rattle.commit_log.specs.Outcomes.{AfterReopen};

use crate::frame::{CLOSED_GATE, OPEN_GATE};
use crate::states::{BrokenGate, Gated, Reopened, Resting};
use site_model::{Failed, Site};

/// Syncs a file, and says whether a gate in it reads open.
fn synced_gate<V: Site>(site: &mut V, file: u32, gate: u64) -> Result<bool, Failed>
    ensures tells { V.tells site.new → V.tells site.old }
    ensures either { Syncs file (V.history site.old) (V.history site.new) result }
    ensures opened { V.tells site.new → IfOk result
        (λ is_open. is_open ≡ (slice_index (content_of file (V.history site.old)) gate ==
        open_gate)) }
    ensures cause { HasCause (V.disk_faults site.old) (V.disk_faults site.new) result }
    ensures say_faults { V.say_faults site.new ≡ V.say_faults site.old }
{
    if let Err(failed) = site.sync(file) {
        return Err(failed);
    }
    let mut byte = [CLOSED_GATE];
    match site.read(file, gate, &mut byte) {
        Ok(count) => Ok(count == 1 && byte[0] == OPEN_GATE),
        Err(failed) => Err(failed),
    }
}

impl BrokenGate {
    /// Syncs the file and reads the gate. Where it reads open, the log rests behind the frame, else before it.
    pub fn reopen<V: Site>(self, site: &mut V) -> Result<Reopened, BrokenGate>
        ensures tells { V.tells site.new → V.tells site.old }
        // A crash leaves what it could have left before.
        ensures during { V.tells site.new → LeavesOnly self.file (V.history site.old)
            (V.history site.new) (Leaves (changes_of self.file (V.history site.old))) }
        ensures after { V.tells site.new → (h : Header) (payloads : List (List ℕ))
            (payload : List ℕ) → IsBrokenGate (changes_of self.file (V.history site.old)) h payloads
            payload self.gate self.next
            → AfterReopen (V.history site.new) h payloads payload result }
        ensures opened { V.tells site.new → IfOk result
            (λ found. found.settled
            ≡ (slice_index (content_of self.file (V.history site.old)) self.gate == open_gate)) }
        ensures place { IfOk result (λ found. (found.log.file ≡ self.file)
            × MatchBool found.settled (found.log.gate ≡ self.next) (found.log.gate ≡ self.gate)) }
        ensures broken { IfErr result (λ log. (log.file ≡ self.file) × (log.gate ≡ self.gate)
            × (log.next ≡ self.next)) }
        ensures syncs { Syncs self.file (V.history site.old) (V.history site.new) result }
        ensures cause { HasCause (V.disk_faults site.old) (V.disk_faults site.new) result }
        ensures say_faults { V.say_faults site.new ≡ V.say_faults site.old }
    {
        let BrokenGate { file, gate, next } = self;
        match synced_gate(site, file, gate) {
            Ok(true) => Ok(Reopened {
                log: Resting { file, gate: next },
                settled: true,
            }),
            Ok(false) => Ok(Reopened {
                log: Resting { file, gate },
                settled: false,
            }),
            Err(_) => Err(BrokenGate { file, gate, next }),
        }
    }
}

impl Gated {
    /// Opens the log again before its gate was synced. Where the gate reads open the frame is settled, else dropped.
    pub fn reopen<V: Site>(self, site: &mut V) -> Result<Reopened, BrokenGate>
        ensures tells { V.tells site.new → V.tells site.old }
        ensures during { V.tells site.new → LeavesOnly self.file (V.history site.old)
            (V.history site.new) (Leaves (changes_of self.file (V.history site.old))) }
        ensures after { V.tells site.new → (h : Header) (payloads : List (List ℕ))
            (payload : List ℕ) → IsGated (changes_of self.file (V.history site.old)) h payloads
            payload self.gate self.next
            → AfterReopen (V.history site.new) h payloads payload result }
        ensures opened { V.tells site.new → IfOk result
            (λ found. found.settled
            ≡ (slice_index (content_of self.file (V.history site.old)) self.gate == open_gate)) }
        ensures place { IfOk result (λ found. (found.log.file ≡ self.file)
            × MatchBool found.settled (found.log.gate ≡ self.next) (found.log.gate ≡ self.gate)) }
        ensures broken { IfErr result (λ log. (log.file ≡ self.file) × (log.gate ≡ self.gate)
            × (log.next ≡ self.next)) }
        ensures syncs { Syncs self.file (V.history site.old) (V.history site.new) result }
        ensures cause { HasCause (V.disk_faults site.old) (V.disk_faults site.new) result }
        ensures say_faults { V.say_faults site.new ≡ V.say_faults site.old }
    {
        let Gated { file, gate, next } = self;
        BrokenGate { file, gate, next }.reopen(site)
    }
}
