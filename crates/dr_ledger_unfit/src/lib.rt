//! All rows of a ledger that a next plan doesn't go on with: `unfit_rows`.
//!
//! `Ledger::unfit` shows the first of them. Who rehearses a change of the plan wants all.
#![tactic(auto)]

pub mod laws;
mod picking;
mod telling;
mod unfit;

pub use unfit::unfit_rows;
