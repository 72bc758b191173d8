//! The queries of a ledger in tables by key, each with what it shows of them.
//!
//! What is known of a query stands under its end: that the disk has returned what was written so
//! far. A query outside a transaction commits nothing, and a crash leaves after it only what it
//! could leave before (`Asked`).
#![tactic(auto)]

mod finding;
pub mod queries;
pub mod reading;

pub use finding::{
    Owner, Print, Stored, find_arrival, find_item, find_job, find_kept, find_key, find_next,
    find_owner, find_print, find_row, has_open, is_open_elsewhere,
};
pub use queries::{ask, fault_of};
