// Dropping a frame whose gate was never tried.
ghost use Rattle.std.specs.Prelude.{◌≡◌, ℕ, List, OnOk, IfOk, IfErr, ◌∷◌};
ghost use Rattle.site_model.specs.History.{on, synced, changes_of, Leaves};
ghost use Rattle.site_model.specs.Calls.{HasCause, Syncs};
ghost use Rattle.site_model.specs.Moments.{LeavesOnly};
ghost use Rattle.commit_log.specs.declared.header.Header.{Header};
ghost use Rattle.commit_log.specs.States.{IsBodied, IsSynced, IsBrokenBody};
ghost use Rattle.commit_log.specs.Outcomes.{AfterDrop};

use crate::states::{Bodied, BrokenBody, Resting, Synced};
use site_model::Site;

impl BrokenBody {
    /// Drops the frame: syncs the file and reads nothing, since no gate was tried. The log rests before the frame.
    pub fn drop_frame<V: Site>(self, site: &mut V) -> Result<Resting, BrokenBody>
        ensures tells { V.tells site.new → V.tells site.old }
        // A crash leaves what it could have left before.
        ensures during { V.tells site.new → LeavesOnly self.file (V.history site.old)
            (V.history site.new) (Leaves (changes_of self.file (V.history site.old))) }
        ensures after { (h : Header) (payloads : List (List ℕ))
            → IsBrokenBody (changes_of self.file (V.history site.old)) h payloads self.gate
            → AfterDrop (V.history site.new) h payloads result }
        ensures place { IfOk result (λ log. (log.file ≡ self.file) × (log.gate ≡ self.gate)) }
        ensures broken { IfErr result (λ log. (log.file ≡ self.file) × (log.gate ≡ self.gate)
            × (log.next ≡ self.next)) }
        ensures syncs { Syncs self.file (V.history site.old) (V.history site.new) result }
        ensures synced { OnOk result (V.history site.new
            ≡ on self.file synced ∷ V.history site.old) }
        ensures cause { HasCause (V.disk_faults site.old) (V.disk_faults site.new) result }
        ensures say_faults { V.say_faults site.new ≡ V.say_faults site.old }
    {
        match site.sync(self.file) {
            Ok(()) => {
                let BrokenBody {
                    file,
                    gate,
                    next: _,
                } = self;
                Ok(Resting { file, gate })
            }
            Err(_) => Err(self),
        }
    }
}

impl Bodied {
    /// Drops the frame, which is written and not yet safe.
    pub fn drop_frame<V: Site>(self, site: &mut V) -> Result<Resting, BrokenBody>
        ensures tells { V.tells site.new → V.tells site.old }
        ensures during { V.tells site.new → LeavesOnly self.file (V.history site.old)
            (V.history site.new) (Leaves (changes_of self.file (V.history site.old))) }
        ensures after { (h : Header) (payloads : List (List ℕ)) (payload : List ℕ)
            → IsBodied (changes_of self.file (V.history site.old)) h payloads payload self.gate
            self.next → AfterDrop (V.history site.new) h payloads result }
        ensures place { IfOk result (λ log. (log.file ≡ self.file) × (log.gate ≡ self.gate)) }
        ensures broken { IfErr result (λ log. (log.file ≡ self.file) × (log.gate ≡ self.gate)
            × (log.next ≡ self.next)) }
        ensures syncs { Syncs self.file (V.history site.old) (V.history site.new) result }
        ensures synced { OnOk result (V.history site.new
            ≡ on self.file synced ∷ V.history site.old) }
        ensures cause { HasCause (V.disk_faults site.old) (V.disk_faults site.new) result }
        ensures say_faults { V.say_faults site.new ≡ V.say_faults site.old }
    {
        let Bodied { file, gate, next } = self;
        BrokenBody { file, gate, next }.drop_frame(site)
    }
}

impl Synced {
    /// Drops the frame, which is safe behind its closed gate.
    pub fn drop_frame<V: Site>(self, site: &mut V) -> Result<Resting, BrokenBody>
        ensures tells { V.tells site.new → V.tells site.old }
        ensures during { V.tells site.new → LeavesOnly self.file (V.history site.old)
            (V.history site.new) (Leaves (changes_of self.file (V.history site.old))) }
        ensures after { (h : Header) (payloads : List (List ℕ)) (payload : List ℕ)
            → IsSynced (changes_of self.file (V.history site.old)) h payloads payload self.gate
            self.next → AfterDrop (V.history site.new) h payloads result }
        ensures place { IfOk result (λ log. (log.file ≡ self.file) × (log.gate ≡ self.gate)) }
        ensures broken { IfErr result (λ log. (log.file ≡ self.file) × (log.gate ≡ self.gate)
            × (log.next ≡ self.next)) }
        ensures syncs { Syncs self.file (V.history site.old) (V.history site.new) result }
        ensures synced { OnOk result (V.history site.new
            ≡ on self.file synced ∷ V.history site.old) }
        ensures cause { HasCause (V.disk_faults site.old) (V.disk_faults site.new) result }
        ensures say_faults { V.say_faults site.new ≡ V.say_faults site.old }
    {
        let Synced { file, gate, next } = self;
        BrokenBody { file, gate, next }.drop_frame(site)
    }
}
