//! The plan of a network of nodes, as it is once it has been read: what each node sends, keeps and
//! accepts, and the walks of instances through it.
#![tactic(auto)]

pub mod copies;
mod entering;
pub mod laws;
mod listed;
pub mod listens;
pub mod literals;
mod names;
pub mod plan;
mod same;
pub mod sending;

pub use listed::Listed;
pub use listens::Listens;
pub use names::names_of;
pub use plan::{Flow, Format, Node, Plan, Values};
