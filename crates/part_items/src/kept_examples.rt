//! Examples of what logs keep. They are said of the definitions alone: the functions do nothing.

ghost use Rattle.part_items.specs.Examples.{AreLogs, AreAsked, good_logs, damaged_logs, other_logs, frame_logs};

/// Logs without entries.
pub fn empty_logs()
    ensures good { AreLogs good_logs }
    ensures damaged { AreLogs damaged_logs }
    ensures other { AreAsked other_logs }
{}

/// Logs with an entry.
pub fn logs_of_one_entry()
    ensures { AreLogs frame_logs }
{}
