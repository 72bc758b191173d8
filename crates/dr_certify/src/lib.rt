//! The certificate of a plan, which `check` prints of a sound one; and what the program of the
//! first certificate prints of a text, which reads plans of formats 1 and 2 alone.
#![tactic(auto)]

mod certificate;
mod input;
pub mod laws;

pub use certificate::{Refusal, certify, print_certificate};
pub use input::read_input;
