//! The word `adopt --dry-run`: what an adoption of a next plan would come to, while no node runs.
//!
//! - `rehearse_files`: both plans are read and sealed; each node's ledger is opened where it is
//!   there, looked into and closed again. All rows are told with which the next plan doesn't go on.
//!
//! Nothing is changed: no ledger is made, none is brought over from a form from before, and none
//! adopts. `Finds` is what opens ledgers so.
#![tactic(auto)]

mod finds;
mod looking;
mod rehearsing;
mod telling;

pub use finds::{Finds, LedgerFound};
pub use looking::LedgerLook;
pub use rehearsing::rehearse_files;
