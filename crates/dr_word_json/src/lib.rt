//! Answers of words about plans as JSON: `run_as_json`.
//!
//! A word prints lines, each of parts between tabs. As JSON they are one document: a list of the
//! lines, each a list of its parts, which are texts.
#![tactic(auto)]

mod document;
pub mod laws;
mod run;

pub use run::run_as_json;
