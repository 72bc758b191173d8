//! A plan as its text writes it: the tables and fields that TOML shows, each of its own form, while
//! names, transfer syntaxes and lengths are still as they were written. From format 2
//! on a station may be named by what it begins with, and in format 3 a modality too.
#![tactic(auto)]

pub mod fault;
pub mod fields;
pub mod fits;
pub mod form;
pub mod forms;
pub mod laws;
pub mod listening;
pub mod tables;
mod text;
pub mod values;
mod words;

pub use fault::TextFault;
pub use text::read_text;
pub use words::{AcceptText, FlowText, NodeText, PlanText};
