//! The words of the program by which a node works with its ledger, over any ledgers, files and
//! network.
//!
//! - `work_files` does what is asked of a node: `list`, `requeue` (both of `dr_word_list`), `send`
//!   or `serve`.
//! - `send_files`: a Part 10 file enters at a node, each hop with a due row is visited once, and
//!   the node's report is printed.
//! - `serve_files`: a node serves associations at its address and sends what is due; after so many
//!   connections its report is printed.
//! - `System` is what these are given.
#![tactic(auto)]

mod running;
mod submitting;
mod surrounding;
mod working;

pub use surrounding::System;
pub use working::work_files;
