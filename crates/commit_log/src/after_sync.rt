// What the sync of its file makes of a log, whoever asked for it: the call on one log, or one that makes several files safe.
ghost use Rattle.std.specs.Prelude.{◌≡◌, ◌++◌, [], ◌∷◌, ℕ, List};
ghost use Rattle.site_model.specs.History.{Change, synced, Leaves};
ghost use Rattle.commit_log.specs.declared.header.Header.{Header};
ghost use Rattle.commit_log.specs.States.{IsResting, IsBodied, IsSynced, IsGated, IsBrokenBody, IsBrokenGate, HasFrames};

use crate::states::{Bodied, BrokenBody, BrokenGate, Gated, Resting, Synced};

impl Bodied {
    /// The log once its file was synced. No crash leaves the frame.
    pub fn synced(self) -> Synced
        ensures place { (result.file ≡ self.file) × (result.gate ≡ self.gate)
            × (result.next ≡ self.next) }
        ensures during { (h : Header) (payloads : List (List ℕ)) (payload : List ℕ)
            (changes : List Change) → IsBodied changes h payloads payload self.gate self.next
            → (image : List ℕ) → Leaves (synced ∷ changes) image
            → HasFrames h payloads self.gate image }
        ensures after { (h : Header) (payloads : List (List ℕ)) (payload : List ℕ)
            (changes : List Change) → IsBodied changes h payloads payload self.gate self.next
            → IsSynced (synced ∷ changes) h payloads payload result.gate result.next }
    {
        let Bodied { file, gate, next } = self;
        Synced { file, gate, next }
    }

    /// The log once a sync of its file failed, which then happened or didn't.
    pub fn failed(self) -> BrokenBody
        ensures place { (result.file ≡ self.file) × (result.gate ≡ self.gate)
            × (result.next ≡ self.next) }
        ensures after { (h : Header) (payloads : List (List ℕ)) (payload : List ℕ)
            (changes : List Change) → IsBodied changes h payloads payload self.gate self.next
            → IsBrokenBody changes h payloads result.gate
            × IsBrokenBody (synced ∷ changes) h payloads result.gate }
    {
        let Bodied { file, gate, next } = self;
        BrokenBody { file, gate, next }
    }
}

impl Gated {
    /// The log once its file was synced: at rest behind the frame.
    pub fn settled(self) -> Resting
        ensures place { (result.file ≡ self.file) × (result.gate ≡ self.next) }
        ensures after { (h : Header) (payloads : List (List ℕ)) (payload : List ℕ)
            (changes : List Change) → IsGated changes h payloads payload self.gate self.next
            → IsResting (synced ∷ changes) h (payloads ++ payload ∷ []) result.gate }
    {
        let Gated {
            file,
            gate: _,
            next,
        } = self;
        Resting { file, gate: next }
    }

    /// The log once a sync of its file failed, which then happened or didn't.
    pub fn failed(self) -> BrokenGate
        ensures place { (result.file ≡ self.file) × (result.gate ≡ self.gate)
            × (result.next ≡ self.next) }
        ensures after { (h : Header) (payloads : List (List ℕ)) (payload : List ℕ)
            (changes : List Change) → IsGated changes h payloads payload self.gate self.next
            → IsBrokenGate changes h payloads payload result.gate result.next
            × IsBrokenGate (synced ∷ changes) h payloads payload result.gate result.next }
    {
        let Gated { file, gate, next } = self;
        BrokenGate { file, gate, next }
    }
}
