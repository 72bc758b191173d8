//! Named files, and what a node is named by.
//!
//! - `Files` reads and replaces files by their paths; `read_file` says by a `Failure` which one
//!   wasn't read.
//! - `NodeFiles`: the paths of a node's plan, certificate and ledger, and the node's name.
#![tactic(auto)]

mod files;
mod node;

pub use files::{Failure, Files, read_file};
pub use node::NodeFiles;
