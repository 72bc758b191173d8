//! Why a plan isn't sound, in sentences.
#![tactic(auto)]

pub mod laws;
mod remedy;
mod sender;
mod wording;

pub use remedy::Remedy;
pub use sender::Sender;
pub use wording::describe;
