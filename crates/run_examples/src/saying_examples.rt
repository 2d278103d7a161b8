//! Examples of what a call says, and of what is said of its end.

ghost use Rattle.std.specs.Prelude.{◌<◌, ℕ, ◌^◌, [], ◌∷◌, None, Some};
ghost use Rattle.engine_rounds.specs.declared.driving.End.TheVariants as ends;
ghost use Rattle.engine_rounds.specs.declared.serving.Came.TheVariants as cames;
ghost use Rattle.engine_rounds.specs.declared.serving.Came.{Came as HowItCame};
ghost use Rattle.node_core.specs.declared.halt.Halt.TheVariants as halts;
ghost use Rattle.run_examples.specs.Saying.{HaltsWith, SaysOfMany};
ghost use Rattle.site_model.specs.History.{said};

/// A call of no clients, where one label is enough, has settled a frame of 64 labels, and says nothing. Not more labels; it has a port, and
/// doesn't say a byte; its log isn't full; something is possible still; and it tells just so many labels.
pub fn calls_say_on()
    ensures all { SaysOfMany [] 64 (cames.Ended (ends.Long 64)) (Some []) }
    ensures few { SaysOfMany [] 65 (cames.Ended (ends.Long 65)) (Some []) → ⊥ }
    ensures port { (came : HowItCame) → SaysOfMany [] 64 came None → ⊥ }
    ensures says { SaysOfMany (said 97 ∷ []) 64 (cames.Ended (ends.Long 64)) (Some []) → ⊥ }
    ensures full { SaysOfMany [] 64 (cames.Halted (halts.Full 0 0)) (Some []) → ⊥ }
    ensures over { SaysOfMany [] 64 (cames.Ended ends.Rest) (Some []) → ⊥ }
    ensures counted { SaysOfMany [] 64 (cames.Ended (ends.Long 63)) (Some []) → ⊥ }
{}

/// A partition's numbers are used up at the last one that there is, and not before; and a log is full where it would be as long as the segment, or
/// longer.
pub fn calls_halt()
    ensures spent { HaltsWith (halts.Spent 0 (2 ^ 62)) }
    ensures not_spent { (number : ℕ) → number < 2 ^ 62 → HaltsWith (halts.Spent 0 number) → ⊥ }
    ensures not_full { (length : ℕ) → length < 4096 → HaltsWith (halts.Full 0 length) → ⊥ }
{}
