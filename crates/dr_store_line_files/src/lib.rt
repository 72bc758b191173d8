//! Lines in several files, one behind another: where a file is full, they go on in the next one.
//!
//! Which line is in which file follows from the lines alone, as their seals say. Each file but the
//! last one ends with its last line.
#![tactic(auto)]

mod following;
pub mod laws;
mod place;
mod several;

pub use following::read_next;
pub use place::place_of;
pub use several::put_lines;
