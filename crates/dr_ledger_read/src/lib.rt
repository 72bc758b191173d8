//! Sealed lines read again from their texts (`put_sealed` of `dr_ledger_text`).
//!
//! `read_sealed` reads each text that is written of a line, and no other. All of the text is looked
//! at before any memory is taken, so that want of memory is answered only of the text of a line.
#![tactic(auto)]

mod digest;
mod item;
mod kind;
pub mod laws;
mod line;
mod members;
mod names;
mod numbers;
mod outcome;
mod pieces;
mod places;
mod quoted;
mod reading;
mod sealed;

pub use reading::{SealedLine, read_sealed};
