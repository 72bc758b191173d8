//! Negotiation of an association (PS3.8 section 7.1 and annex B): what is proposed for a hop, what
//! a request is answered, what a caller concludes from the answer, and fragments within the limit
//! that was agreed on.
#![tactic(auto)]

pub mod acceptor;
pub mod agreed;
pub mod answering;
mod choosing;
pub mod concluding;
pub mod fault;
pub mod figures;
pub mod fragment;
pub mod laws;
mod proposing;

pub use agreed::{Agreed, Pair};
pub use answering::{Answer, Policy};
pub use concluding::conclude;
pub use fault::NegoFault;
pub use fragment::{FragmentKind, put_fragments};
pub use proposing::{propose, propose_echo};
