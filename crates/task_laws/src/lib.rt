//! Laws of the tasks that instances have in a partition's state, and of the activities that are pending there. They are said of the
//! definitions alone: the functions do nothing.
//!
//! - `specs/Asked`: how many tasks an instance has, and that an outcome is of an activity that was asked for.
//! - `laws`: behind items and entries no instance has fewer tasks, no activity is pending again whose task was there, and what is pending was
//!   asked for.
#![tactic(auto)]

mod laws;
