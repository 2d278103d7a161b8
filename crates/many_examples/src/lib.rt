//! Examples of entries of many partitions, as theorems by computation: runs that others wrote down, split over partitions by home
//! (`splits`); and what is accepted of two and three partitions, and why entries are left (`pairs`); what has each of the facts about
//! entries and files that the laws cite, and what hasn't (`placing_examples`); and the same of what a call of two partitions may commit and
//! say, where it begins, and what a crash leaves of it (`rules_examples`), and of what a store whose gate compares asks of it
//! (`makes_examples`).
#![tactic(auto)]

mod makes_examples;
mod pairs;
mod placing_examples;
mod rules_examples;
mod splits;
