//! What makes a life of one partition: one that has all facts, and, of each fact that can be lacked alone but one, a life that lacks just
//! this. The functions do nothing.

ghost use Rattle.std.specs.Prelude.{◌≡◌, ℕ, List, [], ◌∷◌};
ghost use Rattle.cell_steps.specs.declared.mode.Mode.{Mode};
ghost use Rattle.hub_store.specs.Trail.{Said};
ghost use Rattle.log_items.specs.declared.items.Packet.{Packet};
ghost use Rattle.site_model.specs.History.{Step, said};
ghost use Rattle.spec_tracker.specs.declared.marks.Marks.{Marks};
ghost use Rattle.world_steps.specs.Known.{AreMarksOf};
ghost use Rattle.world_examples.specs.Courses.{Course, Fact, Holds, KnowsNothing, LacksJust, alone, begun, still, was_over, had_settled, had_said, had_sent, had_failed, knew_nothing, unasked, told_settled, said_more};
ghost use Rattle.world_lives.specs.Lives.{WasLived};

/// Where nothing is settled, given up or read, that is what is known of the log of one partition; so it is where requests were answered, and
/// where an entry was settled of a partition that isn't there. It isn't known of an entry that it is settled.
pub fn what_is_known_first()
    ensures known { (marks : Marks) → KnowsNothing marks
        → AreMarksOf alone (begun (marks ∷ [])).store marks }
    ensures settled { (steps : List Step) (marks : Marks) → KnowsNothing marks
        → AreMarksOf alone (had_settled steps marks).first.store marks }
    ensures said { (one : Said) (steps : List Step) (marks : Marks) → KnowsNothing marks
        → AreMarksOf alone (had_said one steps marks).first.store marks }
    ensures more { (marks : Marks) → marks.lengths.items ≡ 1 ∷ []
        → AreMarksOf alone (begun (marks ∷ [])).store marks → ⊥ }
{}

/// A life in which nothing was done has all facts. Where the site doesn't tell it has them with a byte more on the tape too. And to have all
/// facts is to have been lived.
pub fn a_life_has_all_facts()
    ensures held { (mode : Mode) (nodes : ℕ) (steps : List Step) (marks : Marks)
        → AreMarksOf alone (begun (marks ∷ [])).store marks → (fact : Fact)
        → Holds mode nodes (still steps marks) fact }
    ensures lived { (mode : Mode) (nodes : ℕ) (steps : List Step) (marks : Marks)
        → AreMarksOf alone (begun (marks ∷ [])).store marks
        → WasLived alone mode nodes (Unit {0}) steps steps [] [] [] }
    ensures untold { (mode : Mode) (nodes : ℕ) (steps : List Step) (marks : Marks)
        → AreMarksOf alone (begun (marks ∷ [])).store marks
        → WasLived alone mode nodes ⊥ steps (said 66 ∷ steps) [] [] [] }
    ensures all { (mode : Mode) (nodes : ℕ) (course : Course)
        → ((fact : Fact) → Holds mode nodes course fact)
        → WasLived alone mode nodes (Unit {0}) course.before course.now course.done course.came
        course.trail }
    ensures each { (mode : Mode) (nodes : ℕ) (course : Course)
        → (was : WasLived alone mode nodes (Unit {0}) course.before course.now course.done
        course.came course.trail) → (fact : Fact)
        → Holds mode nodes (record course { first = was.first; last = was.last }) fact }
{}

/// Each of these facts can be lacked alone. That entries stand behind all that they depend on (`causal`) has no example here: it would take
/// a life that settles an entry, and this goes through its gate, where it must pass.
pub fn facts_lacked_alone()
    ensures going { (mode : Mode) (nodes : ℕ) (steps : List Step) (marks : Marks)
        → AreMarksOf alone (was_over steps marks).first.store marks
        → LacksJust mode nodes (was_over steps marks) Fact.going }
    ensures unsettled { (mode : Mode) (nodes : ℕ) (steps : List Step) (marks : Marks)
        → AreMarksOf alone (had_settled steps marks).first.store marks
        → LacksJust mode nodes (had_settled steps marks) Fact.unsettled }
    ensures silent { (mode : Mode) (nodes : ℕ) (one : Said) (steps : List Step) (marks : Marks)
        → AreMarksOf alone (had_said one steps marks).first.store marks
        → LacksJust mode nodes (had_said one steps marks) Fact.silent }
    ensures new { (mode : Mode) (nodes : ℕ) (packet : Packet) (steps : List Step) (marks : Marks)
        → AreMarksOf alone (had_sent packet steps marks).first.store marks
        → LacksJust mode nodes (had_sent packet steps marks) Fact.new }
    ensures well { (mode : Mode) (nodes : ℕ) (steps : List Step) (marks : Marks)
        → AreMarksOf alone (had_failed steps marks).first.store marks
        → LacksJust mode nodes (had_failed steps marks) Fact.well }
    ensures current { (mode : Mode) (nodes : ℕ) (steps : List Step)
        → LacksJust mode nodes (knew_nothing steps) Fact.current }
    ensures lives { (mode : Mode) (nodes : ℕ) (steps : List Step) (marks : Marks)
        → AreMarksOf alone (unasked steps marks).first.store marks
        → LacksJust mode nodes (unasked steps marks) Fact.lives }
    ensures settled { (mode : Mode) (nodes : ℕ) (steps : List Step) (marks : Marks)
        → AreMarksOf alone (told_settled steps marks).first.store marks
        → LacksJust mode nodes (told_settled steps marks) Fact.settled }
    ensures said { (mode : Mode) (nodes : ℕ) (steps : List Step) (marks : Marks)
        → AreMarksOf alone (said_more steps marks).first.store marks
        → LacksJust mode nodes (said_more steps marks) Fact.said }
{}

/// That no gate refuses can't be lacked alone: it follows where the first world is well and new.
pub fn no_refusal_follows()
    ensures { (mode : Mode) (nodes : ℕ) (course : Course) → Holds mode nodes course Fact.well
        → Holds mode nodes course Fact.new → Holds mode nodes course Fact.lives
        → Holds mode nodes course Fact.passed }
{}
