//! What the words `graph` and `lint` of the program `dr_router` print of a sealed plan: the network
//! as a graph, and what is sound and still looks wrong.
#![tactic(auto)]

mod edges;
mod flows;
mod graph;
mod lint;
mod uses;

pub use graph::graph_text;
pub use lint::lint_text;
