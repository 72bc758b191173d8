//! The whole tables of a ledger, each as a list whose keys rise, and what is tested of tables that
//! were found.
//!
//! What is known of a query stands under its end: that the disk has returned what was written so
//! far (`Asked` of `dr_store_reads`).
#![tactic(auto)]

pub mod laws;
pub mod listing;
mod rowids;

pub use listing::{
    JournalRow, all_arrivals, all_kept, all_keys, all_notes, all_prints, all_rows, all_targets,
};
pub use rowids::{
    next_number, test_arrival_rowids, test_counts, test_item_rowids, test_print_rowids,
    test_queue_rowids,
};
