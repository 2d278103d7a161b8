//! Laws. The functions do nothing.

ghost use Rattle.std.specs.Prelude.{◌≡◌, ◌<◌, ◌++◌, ℕ, List, false, Some};
ghost use Rattle.std.specs.List.{Contains, slice_get};
ghost use Rattle.cell_steps.specs.declared.mode.Mode.{Mode};
ghost use Rattle.commit_gate.specs.Refused.{RefusesFirst};
ghost use Rattle.commit_gate.specs.declared.unmet.Unmet.{Unmet};
ghost use Rattle.dura_value.specs.Items.{Entry};
ghost use Rattle.gated_store.specs.Follows.{ledgers_at};
ghost use Rattle.log_items.specs.Entries.{items_in};
ghost use Rattle.many_rules.specs.Ledgers.{ledgers};
ghost use Rattle.many_rules.specs.Rules.{Rules};
ghost use Rattle.world_core.specs.Happens.{Happens};
ghost use Rattle.spec_cell.specs.Views.{CellView};
ghost use Rattle.spec_tracker.specs.declared.marks.Marks.{Marks};
ghost use Rattle.world_core.specs.World.{WorldView, Stands};
ghost use Rattle.world_steps.specs.Known.{AreMarksOf};
ghost use Rattle.world_core.specs.declared.answer.Answer.{Answer};
ghost use Rattle.world_core.specs.declared.answer.Answer.TheVariants as answers;
ghost use Rattle.world_core.specs.declared.event.Event.{Event};
ghost use Rattle.world_core.specs.declared.event.Event.TheVariants as events;
ghost use Rattle.world_laws.specs.Depends.{IsJudged, HoldsNothingLost};
ghost use Rattle.world_laws.specs.Lives.{IsNewLife, IsCurrent, IsWell, GoesOn};
ghost use Rattle.world_laws.specs.Made.{MadeEntry, AreMade, IsGrounded};

/// What is picked passes: while a life goes on, nothing of a frame under way would be refused at its gate.
pub fn picked_frames_pass()
    ensures { (rules : Rules) (made : List MadeEntry) (w : WorldView) (partition : ℕ)
        (going : List Entry) (why : Unmet) → w.ended ≡ false → Stands rules w
        → IsGrounded rules w → AreMade rules made w → partition < rules.count
        → w.store.going partition ≡ Some going
        → RefusesFirst (ledgers_at (ledgers rules) w.store.trail) w.store.floors partition
        (items_in going) why → ⊥ }
{}

/// So no gate ever refuses.
pub fn no_gate_refuses()
    ensures { (rules : Rules) (mode : Mode) (nodes : ℕ) (made : List MadeEntry)
        (old new : WorldView) (partition : ℕ) (why : Unmet) → old.ended ≡ false
        → Stands rules old → IsGrounded rules old → AreMade rules made old
        → Happens rules mode nodes old (events.Gate partition) (answers.Refused why) new → ⊥ }
{}

/// Whatever happens, while the life goes on, all entries that were made so far are known still, and maybe more.
pub fn made_entries_go_on()
    ensures { (rules : Rules) (mode : Mode) (nodes : ℕ) (made : List MadeEntry)
        (old new : WorldView) (event : Event) (answer : Answer) → old.ended ≡ false
        → new.ended ≡ false → Stands rules old → Stands rules new → IsGrounded rules old
        → IsGrounded rules new → AreMade rules made old
        → Happens rules mode nodes old event answer new
        → (more : List MadeEntry) × AreMade rules (made ++ more) new }
{}

/// In every life, whatever packets came again or late, and whatever was given up, no gate refused.
pub fn no_life_refuses()
    ensures { (rules : Rules) (mode : Mode) (nodes : ℕ) (first last : WorldView)
        (came : List Answer) (why : Unmet) → IsWell rules first → IsNewLife rules first
        → GoesOn rules mode nodes first came last → Contains came (answers.Refused why) → ⊥ }
{}

/// Once each cell was judged by what is known of the logs, and nothing was given up by that, no entry that a cell holds depends on one that
/// was given up, through any number of entries between.
pub fn judged_cells_hold_nothing_lost()
    ensures { (rules : Rules) (made : List MadeEntry) (w : WorldView) (marks : Marks)
        → w.ended ≡ false → Stands rules w → IsGrounded rules w → AreMade rules made w
        → AreMarksOf rules w.store marks
        → ((partition : ℕ) (c : CellView) → slice_get w.cells partition ≡ Some c
        → IsJudged rules marks c) → HoldsNothingLost rules made w }
{}

/// Whatever happens, while the life goes on, what is known of the logs last is as they are.
pub fn what_is_known_stays_current()
    ensures { (rules : Rules) (mode : Mode) (nodes : ℕ) (old new : WorldView) (event : Event)
        (answer : Answer) → old.ended ≡ false → new.ended ≡ false → IsCurrent rules old
        → Happens rules mode nodes old event answer new → IsCurrent rules new }
{}
