//! Lines of a journal as text: each is an object of JSON on one line.
//!
//! `begin_line` writes a line with its number, for whoever puts an end to it, and `put_sealed` the
//! text under which a line is sealed. Such a text is of one line, with one number and one moment,
//! and no byte of it ends a line (`laws`).
#![tactic(auto)]

pub mod laws;
mod line;
mod members;

pub use line::{begin_line, put_sealed};
pub use members::{put_flag, put_named, put_number, put_said, put_word};
