//! Whether a site's own journals match: the lines of each node's journal are told to a history,
//! what they say of instances between nodes is noted, and the notes are compared.
#![tactic(auto)]

pub mod audit;
mod comparing;
mod fault;
mod hop;
mod place;
mod reading;
mod replay;
mod standing;
mod trail;

pub use replay::{count_past, tell_past};
