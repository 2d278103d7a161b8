//! Laws of calls over partitions, one after another. They are said of the definitions alone: the functions do nothing.
//!
//! - `specs/Joined`: what files keep, what one life is (a call that opened logs and went on, or opened them at most), and lives one after
//!   another, each begun on what a crash at any moment left of the one before.
//! - `laws`: what a crash leaves of the last stands for one run, which has all that any of them settled, and by which all of them spoke; and
//!   where lives may begin.
#![tactic(auto)]

mod laws;
