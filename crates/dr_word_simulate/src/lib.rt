//! The word `simulate` of the program `dr_router`: it plays a script in a world of a sealed plan's
//! nodes, with the plans that the script names, and prints what each has then. And all words that
//! need no network: those for plans (`dr_word_check`) and this one.
#![tactic(auto)]

mod orders;
mod outcome;
mod run;
mod simulate;
mod telling;

pub use run::run_offline;
