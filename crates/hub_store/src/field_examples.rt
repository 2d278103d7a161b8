//! Examples of the facts that a moment has: in each all hold, or all but one. They are said of the definitions alone: the functions
//! do nothing.

ghost use Rattle.std.specs.Prelude.{[], ◌∷◌};
ghost use Rattle.part_items.specs.Examples.{empty_log, taking, taking_log};
ghost use Rattle.hub_store.specs.Examples.{settled_when, request, answer, speaking, IsTold, Stand, StandWith};
ghost use Rattle.hub_store.specs.Short.{IsShort};
ghost use Rattle.hub_store.specs.FieldExamples.{wrong_byte, IsNext, TakingFollows, NoneFollows, frame_opened, body_written, other_byte, HasNext, WroteBehind};

/// Where nothing was settled and nobody was answered no line is there.
pub fn nothing_told()
    ensures silent { IsTold [] [] [] }
    ensures line { IsTold [] [] answer → ⊥ }
{}

/// What was answered is on the tape.
pub fn tapes_with()
    ensures nothing { StandWith [] (settled_when 0) [] [] }
    ensures unsaid { StandWith [] (settled_when 0) (request ∷ []) [] → ⊥ }
{}

/// A part of a line is of the next one, by a byte that was just said; it is no other part, and none where the line may not be said.
pub fn parts_next()
    ensures half { IsNext (settled_when 0) speaking (65 ∷ []) }
    ensures silent { IsNext (settled_when 0) [] (65 ∷ []) → ⊥ }
    ensures before { IsNext [] speaking (65 ∷ []) → ⊥ }
    ensures other { IsNext (settled_when 0) speaking (66 ∷ []) → ⊥ }
{}

/// A part that isn't of the next line doesn't stand.
pub fn parts_stand()
    ensures half { Stand speaking (settled_when 0) }
    ensures other { Stand wrong_byte (settled_when 0) → ⊥ }
{}

/// An image has one frame more that may follow, once its gate was written, and where it has it.
pub fn frames_next()
    ensures opened { HasNext TakingFollows frame_opened taking_log }
    ensures follows { HasNext NoneFollows frame_opened taking_log → ⊥ }
    ensures closed { HasNext TakingFollows body_written taking_log → ⊥ }
    ensures without { HasNext TakingFollows frame_opened empty_log → ⊥ }
{}

/// It is the gate that was written, and the one behind what is settled.
pub fn gates_last()
    ensures opened { WroteBehind [] frame_opened }
    ensures body { WroteBehind [] body_written → ⊥ }
    ensures elsewhere { WroteBehind [] other_byte → ⊥ }
    ensures unsettled { WroteBehind (taking 0 ∷ []) frame_opened → ⊥ }
{}

/// A log whose gate stands at 33 is 34 bytes long, which isn't below 34. Where nothing was settled it is no matter.
pub fn logs_end_below()
    ensures below { IsShort 35 (taking 0 ∷ []) empty_log }
    ensures at { IsShort 34 (taking 0 ∷ []) empty_log → ⊥ }
    ensures untouched { IsShort 0 [] empty_log }
{}
