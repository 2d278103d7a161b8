//! What others see of a partition that was recovered: the ledger with which a store of many partitions begins.
//!
//! - `ledger`: the ledger of a state (`ledger_of`). `streams`: copies of what is left of its streams.
//! - `specs/Ledger`: what it shows (`IsLedgerOf`).
//! - `laws`: such a ledger fits what a store whose gate compares asks for when it begins.
#![tactic(auto)]

mod laws;
mod ledger;
mod streams;

pub use ledger::ledger_of;
