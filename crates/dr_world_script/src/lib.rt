//! What is told to the simulator: the steps of a world of nodes, changes of their plan and what
//! other makers' products write and do, and scripts of these as text.
#![tactic(auto)]

mod act;
mod fault;
mod fields;
mod foreign;
pub mod laws;
mod reading;
mod script;
mod step;

pub use act::Act;
pub use fault::ScriptFault;
pub use foreign::Foreign;
pub use script::{line_of, read_script};
pub use step::{Side, Step};
