//! What a change of plan means: of all keys, and wherever they enter, which nodes keep them by the
//! one sealed plan and not by the other.
#![tactic(auto)]

mod change;
mod comparing;
mod entries;
mod going;
pub mod laws;
mod parts;
mod print;

pub use change::{RouteChange, has_lost};
pub use going::changes;
pub use print::changes_text;
