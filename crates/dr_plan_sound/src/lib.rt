//! Sound plans and their certificates, as values and as definitions: which plan is sound, how far a
//! place of a walk may still go, and what a certificate of a plan holds.
#![tactic(auto)]

pub mod certificate;
pub mod copies;
pub mod laws;
mod same;

pub use certificate::{Certificate, Hop, Line, Stop};
