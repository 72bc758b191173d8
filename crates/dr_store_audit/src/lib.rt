//! Whether what stands in a file's tables is a ledger's of a site: tests of the tables and of the
//! lists that they show, each with what it says of the ledger. No database is called here.
#![tactic(auto)]

mod agreeing;
mod begun;
mod fault;
pub mod goals;
pub mod laws;
pub mod lines;
pub mod needs;
mod older;
mod schema;
pub mod stock;
mod telling;

pub use agreeing::{TableLists, agree};
pub use begun::Begun;
pub use fault::FindingFault;
pub use older::{Lacks, lacking};
pub use schema::is_ours;
