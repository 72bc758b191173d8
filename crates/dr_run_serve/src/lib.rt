//! A node that runs: it serves associations and sends what is due, over any ledger and any network.
//!
//! - `serve`: workers serve the associations that others ask for, on a desk that threads share. A
//!   thread for each hop sends: it sleeps until a row is due or until a worker has made one, visits
//!   the hop, and leaves it alone for a while where that failed. One more tells of the node.
//! - `visit_each`: each hop with a due row is visited once, in order.
//! - `events`: what is logged of associations, instances and visits. `Monitor`: a log that may want
//!   reports of what the node has too.
//!
//! A node that is asked to (`StopSign`) ends in order: what is under way has 10 s.
//!
//! Where there is a `ControlPort`, those who ask over it are answered by `dr_run_control`, 16 at a
//! time; who takes an answer has 30 s for it. A copy of the ledger is made there, too (`copying`).
//!
//! A node whose store is shut (`shutting`) ends: its log says so once, no more connections are
//! accepted, and those that are served end.
//!
//! A visit is one association for each hop (`dr_session::deliver`). Where there is no connection,
//! or the association came to nothing, the first due row is settled as broken, so that it is due
//! later, and each visit gets on.
//!
//! That a thread runs, sleeps or is woken in time is claimed by no contract; a node that runs on
//! loopback shows it.
#![tactic(auto)]

mod ages;
mod asked;
mod caller;
mod calling;
mod control;
mod copying;
mod ends;
mod events;
mod intake;
mod keeper;
pub mod laws;
mod live;
mod monitor;
mod open;
mod past;
mod reporting;
mod rest;
mod resting;
mod sender;
mod sending;
mod serving;
mod shutting;
mod signal;
mod stop;
mod sweep;
mod sweeper;
mod tallied;
mod visit;
mod watch;

pub use control::ControlPort;
pub use live::Means;
pub use monitor::{FileMonitor, Monitor};
pub use sending::visit_each;
pub use serving::{ServeFault, serve};
pub use stop::{ControlPlace, Ending, StopSign, Terms};
pub use tallied::{OwnPort, Tallied};
