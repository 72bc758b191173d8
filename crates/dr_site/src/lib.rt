//! Sites: what one node knows of a sealed plan.
#![tactic(auto)]

pub mod laws;
mod rows;
pub mod site;

pub use site::{Site, SiteFault};
