//! Worked examples of the failure-free machine, of its bytes and of what users write, as theorems by computation; and laws of ids. Each
//! is a function that does nothing, whose contract is the example or the law.
//!
//! - `runs` are whole runs, with what each answers, how all stand after it, and a neighbour that isn't legal; and tables of
//!   expressions and statements.
//! - `by_hand` are worlds, entries and floors that have a definition, and some that haven't.
//! - `deliveries` are messages of each kind to receivers of each kind.
//! - `tables` are tables of what instances look at (tasks, sections, sets, kept events), of histories, of activities, and of files
//!   that are checked.
//! - `waiting` is a quiet world.
//! - `homes` has digests, ids with their homes, and texts that are no ids.
//! - `spellings` has tables of bytes with what they stand for, and of bytes that can't be read with the offset of the fault.
//! - `flow_files` has rows of flows files, `readings` of request files, of words and of what clients are told.
#![tactic(auto)]

mod by_hand;
mod deliveries;
mod flow_files;
mod homes;
mod readings;
mod runs;
mod spellings;
mod tables;
mod waiting;
