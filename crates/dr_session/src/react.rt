//! What an end does at an event: one function a reaction.
mod acceptor;
mod leaving;
mod requestor;
mod turning;

pub use leaving::{act_once, one, quiet};
pub use requestor::next_id;
pub use turning::take_turn;
