//! Associations over TCP: a network, as the program is lent one, and the system's sockets as one.
//!
//! A `Network` connects to an address and listens at one; what it gives are links
//! (`dr_session::Link`), so that tests can hand in links and listeners of their own. `Sockets` is
//! the network of the system, and `Socket` one end of a connection:
//!
//! - What is sent is sent at once (TCP_NODELAY), each write of an association's end in one call of
//!   the system where that takes all of it. Each PDU has 60 s until the system has taken it.
//! - A connect is given up after 10 s.
//! - A late mark comes once a second, also while bytes come, so that a peer that sends a byte now
//!   and then is late all the same. The end itself decides what is late (30 s for the first
//!   request, 60 s for an answer). The moment at which a socket counts a connection as open is the
//!   one at which it was accepted; a worker that takes it later counts from then
//!   (`dr_desk_workers`).
//! - A message that has begun has to bring 64 kB in each 30 s, or its end. Between two messages 600
//!   s may be silent. Else the end hears silence (`Heard::Idle`), at which it aborts, so that no
//!   peer holds a node's workers for ever.
//! - These times are its `Limits`. A `Cut` ends all links: each end hears silence once, then a
//!   fault.
//! - Each failure of a read or a write is counted, and only then a fault is answered.
//!
//! `SystemClock` tells moments since 1970, and never goes back while the program runs.
#![tactic(auto)]

mod clock;
mod limits;
mod network;
mod pacing;
mod quiet;
mod socket;
mod sockets;
mod window;
mod writing;

pub use clock::SystemClock;
pub use limits::{Cut, Limits};
pub use network::{Listening, Network};
pub use sockets::Sockets;
