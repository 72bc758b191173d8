//! The word `echo` of the program `dr_router`: one node of a plan asks another for an association
//! and for an echo (C-ECHO, PS3.7 9.1.5), over any network; what comes of it is printed.
#![tactic(auto)]

mod echoing;
mod outcome;
mod print;

pub use echoing::{EchoNodes, echo_files};
