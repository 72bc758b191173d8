//! The word `audit`: the ledgers of all nodes of a plan are read, while no node runs, and their
//! journals are compared.
//!
//! - `audit_files`: the plan is read and sealed; each node's ledger is opened and read; and only
//!   where the journals are histories and match (`dr_world_audit`), it is printed that all holds.
//!
//! Nothing is changed. All ledgers stay open from the first look to the verdict, so that no node
//! can begin to run in between.
#![tactic(auto)]

mod audited;
mod auditing;
pub mod counting;
pub mod figuring;
pub mod naming;
pub mod placing;
pub mod printing;
mod reading;

pub use audited::Audited;
pub use auditing::{audit_files, tell_audit, tell_verdict};
