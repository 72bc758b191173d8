//! Where an instance goes that enters at a site of a sealed plan: over which hops, with which
//! presentation contexts, and which nodes keep it; and what the word `route` of the program
//! `dr_router` prints of it.
#![tactic(auto)]

mod contexts;
pub mod laws;
mod pairs;
mod print;
mod reaching;
mod routes;
mod stages;
mod tracing;
mod walking;

pub use reaching::{Reach, reach_of};
pub use routes::route_text;
