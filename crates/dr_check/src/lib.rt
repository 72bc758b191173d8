//! The checker: whether a plan is sound, with its certificate or a fault that shows itself.
#![tactic(auto)]

mod all;
mod checker;
mod fault;
pub mod laws;
mod search;
mod verdict;

pub use all::all_faults;
pub use fault::Fault;
pub use verdict::{CheckFault, Verdict, check};
