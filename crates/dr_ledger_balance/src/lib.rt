//! The balance of a ledger: what the first lines of its journal made, and how many they were, as a
//! text.
//!
//! `put_balance` writes one: a line for each instance, arrival, kept uid and row, in the order of
//! their keys, how many lines of the journal made them, and the SHA-256 of all that. `read_balance`
//! reads it again, and refuses each other text by name (`BalanceFault`). A text is of one balance
//! (`laws`). `trees_of` makes trees of what was read, for a history that goes on from it.
#![tactic(auto)]

mod balance;
mod fault;
mod fields;
mod item;
pub mod laws;
mod lists;
mod orders;
mod pieces;
mod progress;
mod reading;
mod sealing;
mod spelled;
mod trees;
mod writing;

pub use balance::Balance;
pub use fault::BalanceFault;
pub use reading::read_balance;
pub use trees::{BalanceTrees, trees_of};
pub use writing::put_balance;
