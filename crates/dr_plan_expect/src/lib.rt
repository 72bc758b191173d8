//! What is expected of a plan, as a text in TOML writes it: which instances, where they enter,
//! which nodes have to keep them, and to which nodes they must never come.
#![tactic(auto)]

mod fault;
mod line;
mod read;
mod tables;
mod words;

pub use fault::ExpectFault;
pub use read::read_expectations;
pub use words::Expectation;
