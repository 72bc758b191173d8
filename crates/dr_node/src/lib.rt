//! One node: the ends of its links over its one ledger. Each call is what one end does at the
//! ledger, or a call on the ledger; the ledger itself is never handed out, so that it stays of its
//! site.
#![tactic(auto)]

mod event;
mod fault;
pub mod laws;
mod links;
mod node;

pub use event::LinkEvent;
pub use fault::NodeFault;
pub use links::LinkSide;
pub use node::Node;
