//! Lines that have left a ledger's tables, each with its chain, in a file of text beside them.
//!
//! The chain of a line is the SHA-256 of the chain of the line before it and of the line itself.
//! How far the lines go is a seal, which the tables keep: how many they are, the chain of the last,
//! the number of its file, and where it ends there. What lies behind that place counts for nothing.
#![tactic(auto)]

mod appending;
mod ending;
mod entries;
mod fault;
pub mod figures;
mod file;
mod fitting;
mod in_tables;
pub mod laws;
mod piece;
mod reading;
mod scanning;
mod seal;

pub use appending::append_to;
pub use fault::SealFault;
pub use file::{LineFile, UnfitFile};
pub use fitting::fit;
pub use in_tables::{read_seal, seal_bytes};
pub use scanning::{read_lines, scan};
pub use seal::{FULL, LONGEST, Seal};
