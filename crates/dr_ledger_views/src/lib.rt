//! What is asked of a ledger without a list of all that it has: counts, the first moment at which a
//! row is due, rows and lines of the journal in pages, who brought an instance, and where it is
//! from.
//!
//! What is shown of the book is said in `specs/Views.antt`, and of its lines by their numbers in
//! `specs/Numbers.antt`. The trait `Views` stands over `Moments`, and that over `LetsGo`. In a list
//! whose keys rise, what is of a key is found by a search (`table`).
#![tactic(auto)]

pub mod laws;
pub mod listed;
pub mod listing;
mod moments;
mod stage;
pub mod table;
mod views;

pub use moments::{Moments, Origin};
pub use stage::{HopTally, Stage};
pub use views::{Views, last_behind, tally};
