//! Data sets in one file, each in an extent of its own, which no later call and no crash changes.
//!
//! A data set is written once, at a place that no extent in use covers, and synced before its
//! extent is in use. What is read is tested by the digest of its piece before a byte goes out.
#![tactic(auto)]

mod bodies;
mod extent;
mod fault;
mod fitting;
pub mod laws;
mod order;
mod place;
mod sums;

pub use bodies::Bodies;
pub use extent::Extent;
pub use fault::BodyFault;
pub use fitting::fit;
pub use sums::{PIECE, sums_of};
