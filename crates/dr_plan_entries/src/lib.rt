//! The places where instances enter a plan, cell by cell, in the order in which the checker visits
//! them: by node, class, transfer syntax, modality and station, each as it is printed.
#![tactic(auto)]

mod fields;
pub mod laws;
mod narrow;
mod rows;
mod sweep;
mod visit;

pub use sweep::visit_entries;
pub use visit::EntryVisitor;
