//! Examples of the definitions. They are said of the definitions alone: the functions do nothing.

ghost use Rattle.std.specs.Prelude.{◌≡◌, ◌≢◌, ◌<◌, ◌++◌, ◌∷◌, [], true, false, None, Some};
ghost use Rattle.hub_store.specs.Changes.{told_in, KeepsStore, KeepsAll, Settles, HasHalted};
ghost use Rattle.hub_store.specs.Examples.{frame, settled_in, settled_when, request, answer, speaking, spoken, other_file, IsTold, Stand, StandWith, StandAlways, log_written, gate_opened, gate_synced, LogStands, GateWritten};
ghost use Rattle.hub_store.specs.Waiting.{waits, stage_behind};
ghost use Rattle.hub_store.specs.Ways.{way_of};

use crate::start::Start;
use crate::store::Store;
use crate::way::Stage;
use site_model::Site;

/// A frame of partition 0 may be told and no other, and the answer behind it and not before.
pub fn answers_told()
    ensures frame { IsTold (settled_in 0 0) [] [] }
    ensures other_frame { IsTold (settled_in 1 0) [] [] → ⊥ }
    ensures behind { IsTold (settled_when 0) (request ∷ []) answer }
    ensures before { IsTold [] (request ∷ []) answer → ⊥ }
{}

/// So it stands on the tape behind its commit, and not before; nor may a file change that is no log.
pub fn tapes_stand()
    ensures behind { StandWith spoken (settled_when 0) (request ∷ []) [] }
    ensures before { StandWith spoken [] (request ∷ []) [] → ⊥ }
    ensures half { Stand speaking (settled_when 0) }
    ensures half_before { Stand speaking [] → ⊥ }
    ensures other_file { Stand other_file (settled_when 0) → ⊥ }
{}

/// It stands at each moment where the entry was settled first. Where it was settled last it stands at the end alone.
pub fn moments_stand()
    ensures first { StandAlways spoken (settled_when 0) }
    ensures last { StandAlways spoken (settled_when 2) → ⊥ }
    ensures end { Stand spoken (settled_when 2) }
{}

/// A log without entries stands where nothing is settled, and not where an entry is; nor where a crash leaves its gate open with
/// no frame behind it.
pub fn logs_stand()
    ensures empty { LogStands log_written [] }
    ensures settled { LogStands log_written (settled_when 0) → ⊥ }
    ensures no_frame { LogStands gate_opened [] → ⊥ }
{}

/// The gate's byte was written last, also where syncs came behind it, and not where the whole log was.
pub fn gates_written()
    ensures opened { GateWritten gate_opened }
    ensures synced { GateWritten gate_synced }
    ensures log { GateWritten log_written → ⊥ }
{}

/// A frame of one entry is settled: at this moment and no other, in its partition and no other, and only where it is under way.
pub fn frames_settled()
    ensures now { Settles (Unit {0}) 5 0 (Some frame) [] (settled_when 5) }
    ensures earlier { Settles (Unit {0}) 5 0 (Some frame) [] (settled_when 4) → ⊥ }
    ensures elsewhere { Settles (Unit {0}) 5 1 (Some frame) [] (settled_when 5) → ⊥ }
    ensures no_frame { Settles (Unit {0}) 5 0 None [] (settled_when 5) → ⊥ }
    ensures none { Settles (Unit {0}) 5 0 (Some frame) [] [] → ⊥ }
{}

/// A fault is counted where a call failed, and there alone.
pub fn faults_counted()
    ensures failed { HasHalted 3 4 true }
    ensures went { HasHalted 3 3 false }
    ensures uncounted { HasHalted 3 3 true → ⊥ }
    ensures passed_over { HasHalted 3 4 false → ⊥ }
    ensures forgotten { HasHalted 3 2 true → ⊥ }
{}

/// Of two stores.
pub fn frames_moved<V: Site, N: Start>(old: &Store<V, N>, new: &Store<V, N>)
    ensures none { KeepsStore 0 old.now old.now }
    ensures said { told_in new.now ≡ told_in old.now ++ request ∷ [] → KeepsStore 0 old.now new.now
        → ⊥ }
    ensures another { way_of new.now.ways.items 1 ≢ way_of old.now.ways.items 1
        → KeepsStore 0 old.now new.now → ⊥ }
    ensures untold { V.tells new.now.site → (V.tells old.now.site → ⊥)
        → KeepsStore 0 old.now new.now → ⊥ }
    ensures segment { new.now.segment ≢ old.now.segment → KeepsStore 0 old.now new.now → ⊥ }
    ensures latest { new.now.latest ≢ old.now.latest → KeepsStore 0 old.now new.now → ⊥ }
    ensures cut { new.now.cut ≢ old.now.cut → KeepsStore 0 old.now new.now → ⊥ }
    ensures forgotten { V.disk_faults new.now.site < V.disk_faults old.now.site
        → KeepsStore 0 old.now new.now → ⊥ }
    ensures unsaid { V.say_faults new.now.site ≢ V.say_faults old.now.site
        → KeepsStore 0 old.now new.now → ⊥ }
{}

/// And of what a call on all frames keeps.
pub fn frames_led<V: Site, N: Start>(old: &Store<V, N>, new: &Store<V, N>)
    ensures none { KeepsAll old.now old.now }
    ensures said { told_in new.now ≡ told_in old.now ++ request ∷ [] → KeepsAll old.now new.now
        → ⊥ }
    ensures untold { V.tells new.now.site → (V.tells old.now.site → ⊥) → KeepsAll old.now new.now
        → ⊥ }
    ensures segment { new.now.segment ≢ old.now.segment → KeepsAll old.now new.now → ⊥ }
    ensures latest { new.now.latest ≢ old.now.latest → KeepsAll old.now new.now → ⊥ }
    ensures cut { new.now.cut ≢ old.now.cut → KeepsAll old.now new.now → ⊥ }
    ensures forgotten { V.disk_faults new.now.site < V.disk_faults old.now.site
        → KeepsAll old.now new.now → ⊥ }
    ensures unsaid { V.say_faults new.now.site ≢ V.say_faults old.now.site
        → KeepsAll old.now new.now → ⊥ }
{}

/// A frame waits for a sync behind its body and behind its gate, and the sync brings it one stage on; where that failed the frame is broken
/// by whether its gate was tried.
pub fn stages_behind()
    ensures body { (waits Stage.Bodied ≡ true) × (stage_behind true Stage.Bodied ≡ Stage.Synced) }
    ensures gate { (waits Stage.Gated ≡ true) × (stage_behind true Stage.Gated ≡ Stage.Safe) }
    ensures failed { (stage_behind false Stage.Bodied ≡ Stage.BrokenBody)
        × (stage_behind false Stage.Gated ≡ Stage.BrokenGate) }
    ensures safe { (waits Stage.Synced ≡ false) × (stage_behind true Stage.Synced ≡ Stage.Synced) }
    ensures broken { (waits Stage.BrokenBody ≡ false)
        × (stage_behind false Stage.BrokenBody ≡ Stage.BrokenBody) }
{}
