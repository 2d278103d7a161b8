//! The tables.

ghost use Rattle.std.specs.Prelude.{◌≡◌, [], ◌∷◌, ◌++◌, None, Ok, Err};
ghost use Rattle.dura_codec.specs.Grammar.{value_at, id_at, reply_at, answer_at, body_at, message_at};
ghost use Rattle.dura_codec.specs.Spelling.{spell_value, spell_id, spell_reply, spell_answer, spell_body, spell_message};
ghost use Rattle.part_items.specs.Grammar.{item_at, frame_at, frame_in};
ghost use Rattle.part_items.specs.Spelling.{spell_item, spell_frame};
ghost use Rattle.worked_rows.specs.Spellings.{Reads, Spells, Faults};
ghost use Rattle.worked_rows.specs.Values.{value_rows, value_faults};
ghost use Rattle.worked_rows.specs.Ids.{id_rows, id_faults, reply_rows, reply_faults};
ghost use Rattle.worked_rows.specs.Messages.{answer_rows, answer_faults, body_rows, body_faults, message_rows, message_faults};
ghost use Rattle.worked_rows.specs.Items.{item_rows, item_faults};
ghost use Rattle.worked_rows.specs.Frames.{example_bytes, example_entries, frame_faults};
ghost use Rattle.worked_rows.specs.Numbered.{next_rows, next_faults, NextReads, NextFaults, two_bytes, first_entry, second_entry, two_to_come, broken_to_come, broken_behind, one_to_come, none_to_come, too_many};
ghost use Rattle.dura_value.specs.declared.faults.ReadError.TheVariants as places;
ghost use Rattle.part_items.specs.Coming.{Begins, IsFirst, ReadsNext};

/// Values of each kind.
pub fn values()
    ensures read { Reads value_at value_rows }
    ensures spelled { Spells spell_value value_rows }
    ensures faults { Faults value_at value_faults }
{}

/// Ids of each kind.
pub fn ids()
    ensures read { Reads id_at id_rows }
    ensures spelled { Spells spell_id id_rows }
    ensures faults { Faults id_at id_faults }
{}

/// Who is answered.
pub fn replies()
    ensures read { Reads reply_at reply_rows }
    ensures spelled { Spells spell_reply reply_rows }
    ensures faults { Faults reply_at reply_faults }
{}

/// Answers of each kind.
pub fn answers()
    ensures read { Reads answer_at answer_rows }
    ensures spelled { Spells spell_answer answer_rows }
    ensures faults { Faults answer_at answer_faults }
{}

/// Bodies of each kind.
pub fn bodies()
    ensures read { Reads body_at body_rows }
    ensures spelled { Spells spell_body body_rows }
    ensures faults { Faults body_at body_faults }
{}

/// How messages are spelled.
pub fn messages()
    ensures read { Reads message_at message_rows }
    ensures spelled { Spells spell_message message_rows }
    ensures faults { Faults message_at message_faults }
{}

/// Items of each kind.
pub fn items()
    ensures read { Reads item_at item_rows }
    ensures spelled { Spells spell_item item_rows }
    ensures faults { Faults item_at item_faults }
{}

/// The frame of one item.
pub fn frames()
    ensures read { frame_in example_bytes ≡ Ok example_entries }
    ensures spelled { spell_frame example_entries ≡ example_bytes }
    ensures faults { Faults frame_at frame_faults }
{}

/// The next frames of a log.
pub fn next_frames()
    ensures read { NextReads next_rows }
    ensures faults { NextFaults next_faults }
{}

/// What is read of a frame's entries one after another: both are to come, the first of them is the next one, behind the last there
/// is none, and a fault behind them is told there.
pub fn next_entries()
    ensures begun { Begins two_to_come.next two_bytes (Ok two_to_come) }
    ensures not_left_out { Begins two_to_come.next two_bytes (Ok one_to_come) → ⊥ }
    ensures not_so_many { Begins two_to_come.next two_bytes (Ok too_many) → ⊥ }
    ensures followed { Begins two_to_come.next (two_bytes ++ 0 ∷ []) (Ok broken_to_come) }
    ensures first { IsFirst two_to_come first_entry one_to_come }
    ensures before_a_fault { IsFirst broken_to_come first_entry broken_behind }
    ensures not_second { IsFirst two_to_come second_entry one_to_come → ⊥ }
    ensures not_both { IsFirst two_to_come first_entry none_to_come → ⊥ }
    ensures end { ReadsNext none_to_come none_to_come (Ok None) }
    ensures not_the_end { ReadsNext one_to_come one_to_come (Ok None) → ⊥ }
    ensures fault { ReadsNext broken_behind broken_behind (Err (places.Bad 62)) }
    ensures no_other_fault { ReadsNext broken_behind broken_behind (Err (places.Bad 61)) → ⊥ }
{}
