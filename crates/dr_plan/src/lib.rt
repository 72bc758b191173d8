//! The plan of a network, read from its text: exactly the plan that the text writes, or its first
//! fault. A text of format 3 is expanded before.
#![tactic(auto)]

pub mod laws;
mod read;

pub use dr_plan_core::PlanFault;
pub use dr_plan_model::literals::literals;
pub use dr_plan_model::{Flow, Format, Node, Plan, Values};
pub use read::{core_of, read_plan};
