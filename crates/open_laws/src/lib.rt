//! Laws of why logs aren't opened. They are said of the definitions alone: the functions do nothing.
//!
//! - `specs/Standing`: log files that stand for a run in which nothing clashes with requests, and what opening them may still meet.
//! - `laws`: such files aren't refused, and files that keep entries which were accepted in some order are such files.
#![tactic(auto)]

mod laws;
