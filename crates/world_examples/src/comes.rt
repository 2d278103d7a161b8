//! What comes of events, of judging all cells and of deeds, and what doesn't. The functions do nothing.

ghost use Rattle.std.specs.Prelude.{◌≡◌, ℕ, Ok, Err, [], ◌∷◌};
ghost use Rattle.cell_steps.specs.declared.mode.Mode.{Mode};
ghost use Rattle.many_rules.specs.Rules.{Rules};
ghost use Rattle.world_core.specs.Happens.{Happens};
ghost use Rattle.world_core.specs.declared.answer.Answer.TheVariants as answers;
ghost use Rattle.world_core.specs.declared.event.Event.TheVariants as events;
ghost use Rattle.world_examples.specs.Worlds.{empty, over};
ghost use Rattle.world_judges.specs.Judging.{JudgesAll};
ghost use Rattle.world_lives.specs.Lives.{Lives};
ghost use Rattle.world_lives.specs.declared.deed.Deed.TheVariants as deeds;

/// A look at a world that goes on is seen, and changes nothing. It isn't Unmet, nor does it end the life; and behind the end it isn't seen.
pub fn what_a_look_comes_to()
    ensures seen { (rules : Rules) (mode : Mode)
        → Happens rules mode 1 empty events.Image answers.Seen empty }
    ensures unmet { (rules : Rules) (mode : Mode)
        → Happens rules mode 1 empty events.Image answers.Unmet empty → ⊥ }
    ensures ends { (rules : Rules) (mode : Mode)
        → Happens rules mode 1 empty events.Image answers.Seen over → ⊥ }
    ensures behind { (rules : Rules) (mode : Mode)
        → Happens rules mode 1 over events.Image answers.Unmet over }
    ensures late { (rules : Rules) (mode : Mode)
        → Happens rules mode 1 over events.Image answers.Seen over → ⊥ }
    ensures memory { (rules : Rules) (mode : Mode)
        → Happens rules mode 1 over events.Image answers.Memory over → ⊥ }
{}

/// A world in which the life is over isn't judged to the end, and one that goes on is no life of answers that weren't given.
pub fn what_is_not_done()
    ensures judged { (rules : Rules) (mode : Mode)
        → JudgesAll rules mode 1 over (Err answers.Kept) over → ⊥ }
    ensures unanswered { (rules : Rules) (mode : Mode)
        → Lives rules mode 1 empty (deeds.Happen events.Image ∷ []) [] empty → ⊥ }
    ensures another { (rules : Rules) (mode : Mode)
        → Lives rules mode 1 empty [] (answers.Seen ∷ []) empty → ⊥ }
{}
