//! The report of a node: what the book of its ledger has, as lines of text, which words, a running
//! node and the simulator print.
#![tactic(auto)]

pub mod laws;
mod lines;
mod report;

pub use lines::{put_cause, put_moment, put_name, put_report};
pub use report::{report_of, report_text};
