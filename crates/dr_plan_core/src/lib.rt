//! The plan that a text writes as it stands: in formats 1 and 2 the text's plan, in format 3 that
//! of a text that was expanded. Exactly that plan, or its first fault.
#![tactic(auto)]

mod fault;
pub mod laws;
mod limits;
mod names;
mod read;
mod routes;
mod syntaxes;
mod typed;

pub use fault::PlanFault;
pub use names::is_reserved;
pub use read::read_core;
pub use syntaxes::is_syntax;
