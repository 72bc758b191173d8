//! Plans of format 3: classes and transfer syntaxes by their names, sets of classes, groups of
//! nodes, and lists where format 2 has one value. What such a text stands for is a text of format 3
//! without any of these, in one spelling.
#![tactic(auto)]

pub mod amount;
mod classes;
pub mod expand;
pub mod fault;
pub mod fields;
mod find;
mod known;
pub mod laws;
pub mod lookup;
pub mod meant;
mod named;
mod pieces;
pub mod short;
mod spell;
mod syntaxes;
pub mod tables;
mod usual;
pub mod words;
pub mod yields;

pub use fault::{ExpandFault, WordFault};
pub use short::{AnyWords, Definition, ShortFlow, ShortNode, ShortPlan, ShortRow, ShortRule};
