//! Where in a plan's text its fault is: in which table, at which key.
//!
//! - `field_in`: a place at which the text's tables show that a field is missing, unknown or
//!   ill-formed. The place is right; that one is found in each text with the fault is tested.
//! - `short_field_in` and `stranger_in`: the same for a text of format 3, and a word in one that
//!   nobody defines; `excess_in`: the table with which one stands for too much.
#![tactic(auto)]

mod excess;
mod explaining;
mod field_place;
mod fields;
pub mod first;
mod flaw;
mod flaws;
mod keys;
pub mod laws;
mod limits;
mod listening;
mod names;
mod nodes;
mod own;
mod place;
pub mod print;
mod rows;
mod short_fields;
mod short_place;
mod short_tables;
mod strangers;
mod syntaxes;
mod tables;
mod wording;

pub use explaining::explain;
pub use field_place::{FieldPlace, NodePart};
pub use flaw::{Flaw, Wrong};
pub use flaws::NameFlaw;
pub use limits::LimitPlace;
pub use names::{FlowName, NamePlace, NodeName, RuleName};
pub use own::OwnPlace;
pub use place::Place;
pub use strangers::{Stranger, WordKey};
pub use syntaxes::SyntaxPlace;
pub use wording::describe;
