//! A ledger that tells how long its calls take. Under a lock that is held for one call and no
//! longer, as a shared desk's, that is how long the lock is held.
//!
//! `Timed` is a ledger itself: it has the book, the data sets and the site of the ledger that it
//! calls, and answers what that one does. It tells that ledger the moment of each call by which a
//! line may come. What a `Meter` counts is claimed by no contract.
#![tactic(auto)]

mod meter;
mod timed;

pub use meter::{Meter, Timing};
pub use timed::Timed;
