//! Workers that serve connections on a shared desk.
//!
//! `workers` starts threads, as they are needed, that take connections from a channel until it is
//! closed and empty, serve each with a session (`dr_session::receive`) over the shared desk, and
//! give back their passes. A `Door` counts the associations that are open, and lets 256 in. A
//! `Room` counts what all of them hold in memory of data sets. Of each response that is sent the
//! gate is told the status (`said`).
#![tactic(auto)]

mod ahead;
mod asked;
mod bounds;
mod connection;
mod counts;
mod door;
mod gate;
mod gated;
pub mod laws;
mod port;
mod room;
mod said;
mod serving;
mod share;
mod staff;

pub use connection::Connection;
pub use door::Door;
pub use gate::{Gate, Point, Tally};
pub use serving::{WorkersFault, workers};
