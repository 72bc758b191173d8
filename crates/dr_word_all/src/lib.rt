//! The run of the whole program `dr_router`: the words that need no network (`dr_word_simulate`),
//! `echo`, and those of a node that works with its ledger (`dr_word_serve`).
#![tactic(auto)]

mod run;

pub use run::run_words;
