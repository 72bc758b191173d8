//! The moments that stand beside the lines of a journal: those at which they were written, where
//! these were told.
//!
//! What is known of a query stands under its end: that the disk has returned what was written so
//! far (`Asked` of `dr_store_reads`).
#![tactic(auto)]

mod moments;

pub use moments::all_moments;
