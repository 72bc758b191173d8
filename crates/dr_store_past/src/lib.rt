//! The past of a ledger whose journal is sealed: lines that have left its tables, as texts in a
//! file beside them.
//!
//! A past goes as far as its seal says, which the tables keep. What is written behind it becomes
//! the past's once the tables have the seal of it. Which lines a past has is known to no code: a
//! ghost of the type says them, and what is proved holds as far as the file shows just these.
#![tactic(auto)]

mod fault;
mod files;
pub mod laws;
mod lines;
mod none;
mod opening;
mod past;
mod places;
mod reading;
mod sealed;
mod writing;

pub use fault::{PastFault, PastFileFault};
pub use files::PastFiles;
pub use lines::PastLine;
pub use none::NoPast;
pub use past::LedgerPast;
pub use sealed::SealedFiles;
