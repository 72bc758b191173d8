//! The calls of a ledger in tables that write, each as one transaction.
#![tactic(auto)]

mod arriving;
mod bodies;
mod dropping;
mod first;
mod forgetting;
pub mod laws;
mod moving;
mod sealing;
mod writing;

pub use arriving::Repeating;
pub use dropping::Dropping;
pub use first::{Arriving, Taking};
pub use forgetting::Forgetting;
pub use moving::{Requeuing, Settling};
pub use sealing::seal;
pub use writing::{TableChange, write};
