//! The commands of the program `dr_router`: to check a plan, which prints its certificate or what
//! is wrong with it; to expand one, which prints the text that is read for it; and to verify a
//! certificate for a plan.
#![tactic(auto)]

mod all;
mod answer;
mod expand;
pub mod laws;
mod print;
mod run;
mod system;
mod verify;

pub use run::{run_asked, tell_failure, tell_unread_words};
pub use system::{Disk, given_words};
