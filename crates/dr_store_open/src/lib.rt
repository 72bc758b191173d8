//! The files of a ledger in tables: its tables are made, or found and compared with what the
//! journal's lines make.
//!
//! What is claimed stands under a call's end: that the disk has returned what was written so far.
#![tactic(auto)]

mod alike;
mod asking;
mod beside;
mod bodies;
pub mod data;
mod fault;
mod files;
pub mod finding;
pub mod laws;
mod ledger;
mod lines;
mod listed;
pub mod making;
mod older;
pub mod opening;
mod owner;
mod renewing;
mod sheets;
mod shelving;
mod testing;

pub use data::{DataPlace, Keeping, OpenedLedger};
pub use dr_store_data::{DataFile, DataFileFault, DataMark};
pub use fault::OpeningFault;
pub use files::{close_files, open_files, open_path};
pub use ledger::{ledger_of, ledger_on};
pub use opening::{find_ledger, on, open};
