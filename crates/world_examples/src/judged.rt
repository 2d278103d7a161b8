//! What judging all cells comes to. The functions do nothing.

ghost use Rattle.std.specs.Prelude.{◌≡◌, ℕ, true, false, [], ◌∷◌, Ok, Err, Bool};
ghost use Rattle.cell_steps.specs.declared.mode.Mode.{Mode};
ghost use Rattle.spec_tracker.specs.declared.marks.Marks.{Marks};
ghost use Rattle.world_core.specs.World.{WorldView};
ghost use Rattle.world_steps.specs.Known.{AreMarksOf};
ghost use Rattle.world_core.specs.declared.answer.Answer.{Answer};
ghost use Rattle.world_core.specs.declared.answer.Answer.TheVariants as answers;
ghost use Rattle.world_examples.specs.Courses.{alone, begun};
ghost use Rattle.world_examples.specs.Worlds.{over};
ghost use Rattle.world_judges.specs.Judging.{Pass, JudgesAll};
ghost use Rattle.world_laws.specs.Lives.{IsWell};

/// The cell of a new world is judged by what is known of the logs, and nothing of it is given up. Where there are no partitions any world
/// is judged, and no cell stands in the way.
pub fn judging_goes_through()
    ensures new { (mode : Mode) (nodes : ℕ) (marks : Marks)
        → AreMarksOf alone (begun (marks ∷ [])).store marks
        → JudgesAll alone mode nodes (begun (marks ∷ [])) (Ok tt) (begun (marks ∷ [])) }
    ensures none { (mode : Mode) (nodes : ℕ) (w : WorldView)
        → JudgesAll (record alone { count = 0 }) mode nodes w (Ok tt) w }
    ensures able { (mode : Mode) (nodes : ℕ) (w new : WorldView) (answer : Answer)
        → JudgesAll (record alone { count = 0 }) mode nodes w (Err answer) new → ⊥ }
{}

/// Where the life is over, or nothing is known of the logs, the cell can't be judged, since that is Unmet, and not want of memory; and all
/// cells aren't judged. What can't be judged leaves a world that is well, as one without cells isn't, and isn't told as what a judged cell
/// comes to.
pub fn judging_is_unmet()
    ensures over { (mode : Mode) (nodes : ℕ) (w new : WorldView) → w.ended ≡ true
        → JudgesAll alone mode nodes w (Ok tt) new → ⊥ }
    ensures behind { (mode : Mode) (nodes : ℕ) (w : WorldView) → w.ended ≡ true → IsWell alone w
        → JudgesAll alone mode nodes w (Err answers.Unmet) w }
    ensures ill { (mode : Mode) (nodes : ℕ)
        → JudgesAll alone mode nodes over (Err answers.Unmet) over → ⊥ }
    ensures memory { (mode : Mode) (nodes : ℕ) (w new : WorldView) → w.ended ≡ true
        → JudgesAll alone mode nodes w (Err answers.Memory) new → ⊥ }
    ensures well { (mode : Mode) (nodes : ℕ) (w new : WorldView) (answer : Answer)
        → JudgesAll alone mode nodes w (Err answer) new → IsWell alone new }
    ensures judged { (mode : Mode) (nodes : ℕ) (w new : WorldView)
        → JudgesAll alone mode nodes w (Err answers.Kept) new → ⊥ }
    ensures unknown { (mode : Mode) (nodes : ℕ)
        → JudgesAll alone mode nodes (begun []) (Err answers.Unmet) (begun []) }
    ensures unknown_yet { (mode : Mode) (nodes : ℕ) (new : WorldView)
        → JudgesAll alone mode nodes (begun []) (Ok tt) new → ⊥ }
{}

/// A pass of no cells changes nothing, and gives nothing up. One of a new world's cell gives nothing up, since nothing is there to give up;
/// and there is none of two cells, since there is no second partition.
pub fn passes_are_whole()
    ensures nothing { (mode : Mode) (nodes : ℕ) (w : WorldView)
        → Pass alone mode nodes w 0 true w }
    ensures same { (mode : Mode) (nodes : ℕ) (kept : Bool) (w new : WorldView)
        → Pass alone mode nodes w 0 kept new → (kept ≡ true) × (new ≡ w) }
    ensures one { (mode : Mode) (nodes : ℕ) (marks : Marks)
        → AreMarksOf alone (begun (marks ∷ [])).store marks
        → Pass alone mode nodes (begun (marks ∷ [])) 1 true (begun (marks ∷ [])) }
    ensures given_up { (mode : Mode) (nodes : ℕ) (marks : Marks) (new : WorldView)
        → Pass alone mode nodes (begun (marks ∷ [])) 1 false new → ⊥ }
    ensures past { (mode : Mode) (nodes : ℕ) (kept : Bool) (w new : WorldView)
        → Pass alone mode nodes w 2 kept new → ⊥ }
{}
