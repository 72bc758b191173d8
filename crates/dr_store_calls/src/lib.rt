//! Calls of a ledger in tables over a connection, each in terms of the ledger's book
//! (`specs/Calling.antt`).
//!
//! Each call that writes reads what it has to know, and then is one transaction, whose commit is
//! its last call of the database. What is claimed stands under a call's end: that the disk has
//! returned what was written so far, and that the store is open.
#![tactic(auto)]

mod adopting;
pub mod adoption_laws;
mod arriving;
mod bringing;
mod dropping;
mod forgetting;
mod knowing;
pub mod laws;
mod letting_go;
mod needs;
mod owning;
pub mod past_laws;
mod plan;
mod receiving;
pub mod seal_laws;
mod sealing;
mod settling;
mod shelving;
mod writing;

pub use adopting::adopt;
pub use bringing::NextLine;
pub use forgetting::{forget, is_over};
pub use knowing::{Known, know};
pub use letting_go::{RowAt, give_up, settle};
pub use owning::{is_mark, is_seal_text, mark_behind, mark_for, plan_cell};
pub use sealing::seal;
pub use settling::requeue;
pub use shelving::{arrive, shelf_fault};
