//! The ledger of one node in memory.
#![tactic(auto)]

mod bringing;
mod held;
mod holding;
mod ledger;
mod parts;
mod waiting;

pub use ledger::MemoryLedger;
