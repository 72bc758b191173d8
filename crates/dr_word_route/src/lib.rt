//! The words of the program `dr_router` that ask about a plan with its certificate: `route`,
//! `graph`, `lint`, `expect` and `diff`. And all words for plans: `check` and `verify`
//! (`dr_word_check`), and these.
#![tactic(auto)]

mod asking;
mod differing;
mod expecting;
mod keys;
mod reply;
mod replying;
mod run;

pub use asking::tell_refusal;
pub use run::{run_asked, run_plan_words};
