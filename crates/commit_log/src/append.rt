// Appending a payload, call by call.
ghost use Rattle.std.specs.Prelude.{◌≡◌, ◌+◌, ◌≤◌, ◌<◌, ◌^◌, ◌++◌, [], ◌∷◌, ℕ, List, length, OnOk, IfOk, IfErr, Err};
ghost use Rattle.site_model.specs.History.{on, wrote, synced, changes_of};
ghost use Rattle.site_model.specs.Calls.{HasRisen, HasCause, Writes, Syncs};
ghost use Rattle.site_model.specs.Moments.{LeavesOnly};
ghost use Rattle.commit_log.specs.declared.header.Header.{Header};
ghost use Rattle.commit_log.specs.Segment.{framed, open_gate};
ghost use Rattle.commit_log.specs.States.{IsResting, IsBodied, IsSynced, IsGated, Rests, IsSyncedThere, HasFrames, HasFramesOrOneMore};
ghost use Rattle.commit_log.specs.Outcomes.{AfterBody, AfterSync, AfterGate, AfterSettle};

use crate::frame::{OPEN_GATE, behind_gate};
use crate::states::{Bodied, BodyError, BrokenBody, BrokenGate, Gated, Resting, Synced};
use site_model::Site;
use std::alloc::Global;

impl Resting {
    /// Writes a frame with this payload behind the closed gate, unless the file would come to `limit` bytes or more.
    pub fn body<V: Site>(
        self,
        alloc: Global,
        site: &mut V,
        payload: &[u8],
        limit: u64,
    ) -> Result<Bodied, BodyError>
        requires limit { limit ≤ 2 ^ 31 }
        requires rests { V.tells site.old → Rests (changes_of self.file (V.history site.old))
            self.gate }

        ensures tells { V.tells site.new → V.tells site.old }
        ensures during { (h : Header) (payloads : List (List ℕ))
            → IsResting (changes_of self.file (V.history site.old)) h payloads self.gate
            → LeavesOnly self.file (V.history site.old) (V.history site.new)
            (HasFrames h payloads self.gate) }
        ensures after { (h : Header) (payloads : List (List ℕ))
            → IsResting (changes_of self.file (V.history site.old)) h payloads self.gate
            → AfterBody (V.history site.new) h payloads payload.now result }
        ensures wrote { OnOk result (V.history site.new
            ≡ on self.file (wrote (self.gate + 1) (length payload.now + 5)
            (framed payload.now ++ 0 ∷ [])) ∷ V.history site.old) }
        ensures place { IfOk result (λ log. (log.file ≡ self.file) × (log.gate ≡ self.gate)
            × (log.next ≡ self.gate + 5 + length payload.now)) }

        // Full exactly where the new length is at least the limit.
        ensures full { limit ≤ self.gate + 6 + length payload.now
            → result ≡ Err (BodyError.Full (self.gate + 6 + length payload.now) self) }
        ensures room { (n : ℕ) (log : _) → result ≡ Err (BodyError.Full n log)
            → limit ≤ self.gate + 6 + length payload.now }
        ensures untouched { (log : _) → result ≡ Err (BodyError.Memory log)
            → (log ≡ self) × (V.history site.new ≡ V.history site.old) }
        ensures untouched_full { (n : ℕ) (log : _) → result ≡ Err (BodyError.Full n log)
            → V.history site.new ≡ V.history site.old }
        ensures broken { (log : _) → result ≡ Err (BodyError.SiteFault log)
            → (log.file ≡ self.file) × (log.gate ≡ self.gate)
            × (log.next ≡ self.gate + 5 + length payload.now)
            × HasRisen (V.disk_faults site.old) (V.disk_faults site.new) }
        ensures later { V.disk_faults site.old ≤ V.disk_faults site.new }
        ensures say_faults { V.say_faults site.new ≡ V.say_faults site.old }
    {
        let length = self.gate + payload.len() as u64 + 6;
        if length >= limit {
            return Err(BodyError::Full { length, log: self });
        }
        let bytes = match behind_gate(alloc, payload) {
            Ok(bytes) => bytes,
            Err(_) => return Err(BodyError::Memory(self)),
        };
        let Resting { file, gate } = self;
        let next = length - 1;
        match site.write(file, gate + 1, &bytes) {
            Ok(()) => Ok(Bodied { file, gate, next }),
            Err(_) => Err(BodyError::SiteFault(BrokenBody { file, gate, next })),
        }
    }
}

impl Bodied {
    /// Makes the frame safe on the disk.
    pub fn sync_body<V: Site>(self, site: &mut V) -> Result<Synced, BrokenBody>
        ensures tells { V.tells site.new → V.tells site.old }
        ensures during { (h : Header) (payloads : List (List ℕ)) (payload : List ℕ)
            → IsBodied (changes_of self.file (V.history site.old)) h payloads payload self.gate
            self.next → LeavesOnly self.file (V.history site.old) (V.history site.new)
            (HasFrames h payloads self.gate) }
        ensures after { (h : Header) (payloads : List (List ℕ)) (payload : List ℕ)
            → IsBodied (changes_of self.file (V.history site.old)) h payloads payload self.gate
            self.next → AfterSync (V.history site.new) h payloads payload result }
        ensures synced { OnOk result (V.history site.new
            ≡ on self.file synced ∷ V.history site.old) }
        ensures place { IfOk result (λ log. (log.file ≡ self.file) × (log.gate ≡ self.gate)
            × (log.next ≡ self.next)) }
        ensures broken { IfErr result (λ log. (log.file ≡ self.file) × (log.gate ≡ self.gate)
            × (log.next ≡ self.next)) }
        ensures cause { HasCause (V.disk_faults site.old) (V.disk_faults site.new) result }
        ensures say_faults { V.say_faults site.new ≡ V.say_faults site.old }
    {
        match site.sync(self.file) {
            Ok(()) => Ok(self.synced()),
            Err(_) => Err(self.failed()),
        }
    }
}

impl Synced {
    /// Opens the gate before the frame.
    pub fn gate<V: Site>(self, site: &mut V) -> Result<Gated, BrokenGate>
        requires { V.tells site.old → IsSyncedThere (changes_of self.file (V.history site.old))
            self.gate self.next }

        ensures tells { V.tells site.new → V.tells site.old }
        ensures during { (h : Header) (payloads : List (List ℕ)) (payload : List ℕ)
            → IsSynced (changes_of self.file (V.history site.old)) h payloads payload self.gate
            self.next → LeavesOnly self.file (V.history site.old) (V.history site.new)
            (HasFramesOrOneMore h payloads payload self.gate self.next) }
        ensures after { (h : Header) (payloads : List (List ℕ)) (payload : List ℕ)
            → IsSynced (changes_of self.file (V.history site.old)) h payloads payload self.gate
            self.next → AfterGate (V.history site.new) h payloads payload result }
        ensures writes { Writes self.file self.gate (open_gate ∷ []) (V.history site.old)
            (V.history site.new) result }
        ensures opened { OnOk result (V.history site.new
            ≡ on self.file (wrote self.gate 1 (open_gate ∷ [])) ∷ V.history site.old) }
        ensures place { IfOk result (λ log. (log.file ≡ self.file) × (log.gate ≡ self.gate)
            × (log.next ≡ self.next)) }
        ensures broken { IfErr result (λ log. (log.file ≡ self.file) × (log.gate ≡ self.gate)
            × (log.next ≡ self.next)) }
        ensures cause { HasCause (V.disk_faults site.old) (V.disk_faults site.new) result }
        ensures say_faults { V.say_faults site.new ≡ V.say_faults site.old }
    {
        let Synced { file, gate, next } = self;
        match site.write(file, gate, &[OPEN_GATE]) {
            Ok(()) => Ok(Gated { file, gate, next }),
            Err(_) => Err(BrokenGate { file, gate, next }),
        }
    }
}

impl Gated {
    /// Makes the open gate safe on the disk. From then on each crash leaves the frame.
    pub fn settle<V: Site>(self, site: &mut V) -> Result<Resting, BrokenGate>
        ensures tells { V.tells site.new → V.tells site.old }
        ensures during { (h : Header) (payloads : List (List ℕ)) (payload : List ℕ)
            → IsGated (changes_of self.file (V.history site.old)) h payloads payload self.gate
            self.next → LeavesOnly self.file (V.history site.old) (V.history site.new)
            (HasFramesOrOneMore h payloads payload self.gate self.next) }
        ensures after { (h : Header) (payloads : List (List ℕ)) (payload : List ℕ)
            → IsGated (changes_of self.file (V.history site.old)) h payloads payload self.gate
            self.next → AfterSettle (V.history site.new) h payloads payload result }
        ensures syncs { Syncs self.file (V.history site.old) (V.history site.new) result }
        ensures synced { OnOk result (V.history site.new
            ≡ on self.file synced ∷ V.history site.old) }
        ensures place { IfOk result (λ log. (log.file ≡ self.file) × (log.gate ≡ self.next)) }
        ensures broken { IfErr result (λ log. (log.file ≡ self.file) × (log.gate ≡ self.gate)
            × (log.next ≡ self.next)) }
        ensures cause { HasCause (V.disk_faults site.old) (V.disk_faults site.new) result }
        ensures say_faults { V.say_faults site.new ≡ V.say_faults site.old }
    {
        match site.sync(self.file) {
            Ok(()) => Ok(self.settled()),
            Err(_) => Err(self.failed()),
        }
    }
}
