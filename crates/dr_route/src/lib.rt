//! Keys of instances, the rules of a node, and the cells of a plan.
//!
//! A rule reads four things: from whom an instance came, and its class, modality and station. What
//! all rules of a node say of a key is `routing::targets`; the keys that no rule of a plan tells
//! apart are a cell.
#![tactic(auto)]

pub mod accept;
pub mod cell;
pub mod copies;
pub mod key;
pub mod laws;
pub mod names;
pub mod routing;
pub mod rule;
mod same;
mod search;

pub use accept::{AcceptRow, Callers, accepts};
pub use cell::{Cell, Field, FieldValues, Literals, OwnedCell, OwnedField, cell_of, field_of};
pub use key::Key;
pub use rule::{FieldPattern, Pattern, Rule, Targets, holds, is_local};
