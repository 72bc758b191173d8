//! Backups of the ledger of a node that runs.
//!
//! A ledger is two files, its database and the log beside it, and so is a copy. What both hold
//! while no call of the ledger is under way is what a power failure would leave then, of which the
//! ledger's contracts speak. What is read of them here, and what is written, is claimed by no
//! contract.
//!
//! - `LedgerCopy`: the copy while it is made, in files beside its own names, which it takes when it
//!   is whole and nothing is there. Whoever makes it says when calls wait.
//! - `Backups`: a file system in which ledgers are copied; `begin_copy` tests first that the ledger
//!   has no file of data sets, which isn't copied, and that the names are free (`dr_run_report`).
//! - `BackupFault`: why there is no copy.
#![tactic(auto)]

mod beginning;
mod copy;
mod fault;
mod pair;

pub use beginning::{Backups, SystemBackups, begin_copy};
pub use copy::LedgerCopy;
pub use fault::BackupFault;
