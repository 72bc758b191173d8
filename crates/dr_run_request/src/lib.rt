//! What a request of a node's control connection asks for, and whether it may.
//!
//! - `admit`: the route of a request, or why it is refused. An act needs POST and the token;
//!   nothing is answered to a host that isn't allowed. What is said of acts is in `laws`.
//!   A browser acts by the forms of the node's own page alone (`Browser`).
//! - `order_of`: what the node is told to do. `wanted_of`: which rows are asked for. `instance_of`:
//!   of which instance. `copy_of`: where the ledger is to be copied to.
#![tactic(auto)]

mod admission;
mod browser;
mod form;
pub mod laws;
mod lines;
mod order;
mod route;
mod token;
mod wanted;

pub use admission::{Access, Refused, admit};
pub use browser::Browser;
pub use lines::{LinesWanted, lines_wanted_of};
pub use order::{Order, order_of};
pub use route::Route;
pub use wanted::{
    FormFault, RowName, Wanted, copy_of, instance_of, is_of_page, reason_of, row_of, wanted_of,
};
