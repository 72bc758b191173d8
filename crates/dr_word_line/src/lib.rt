//! The words of the command line of `dr_router`, and what they ask for.
//!
//! Words of a plain form are read as `specs/Words.antt` says. Options, help, and what the program
//! doesn't know are clap's, of which no contract speaks.
#![tactic(auto)]

mod choices;
mod command_line;
mod ledgers;
mod matched;
mod node_words;
mod option;
mod parts;
mod plan_words;
mod plans;
mod reading;
mod running;
mod serve_options;
mod words;

pub use reading::read_words;
pub use words::{
    Controlled, Duty, Errand, KeyWords, NextPlan, PlanChange, Question, RunningNode, RunningNodes,
    Serving, SiteFiles, Task, VERSION, Verbosity, Waits,
};
