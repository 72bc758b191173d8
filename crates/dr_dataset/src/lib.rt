//! Data sets in both syntaxes (PS3.5 section 7): four of their attributes, read in one pass, at
//! once or piece by piece; and where the data set of a Part 10 file starts (PS3.10 section 7.1).
//!
//! `scan::attributes` reads a whole data set, `Scan` one that is still heard, and `file::part10`
//! finds the one of a file. They share one step, `scanner::Scanner::step`: a tag, letters and a
//! length, or an end.
#![tactic(auto)]

mod caught;
mod fault;
pub mod file;
mod found;
mod frame;
mod header;
mod hearing;
pub mod laws;
pub mod scan;
mod scanner;
mod stack;
mod token;
mod values;
mod whole;

pub use fault::{DataFault, FileFault};
pub use hearing::Scan;
pub use values::{Attributes, Part10};
