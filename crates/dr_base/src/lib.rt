//! Values and definitions that every crate with a text or a grammar shares: byte texts and lists
//! that contracts see as plain lists, and texts that are made of parts, one after the other.
#![tactic(auto)]

pub mod fields;
pub mod heap;
pub mod laws;
pub mod padding;
pub mod same;
mod seq;
pub mod syntax;
mod text;
pub mod uid;

pub use seq::Seq;
pub use syntax::Syntax;
pub use text::{Octets, Text};
