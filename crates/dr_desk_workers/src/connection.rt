//! Connections that wait for a worker.
use dr_session::{Clock, Link};

/// A transport connection that was accepted, with the number of its session and the clock that the
/// session goes by.
#[derive(Drop)]
pub struct Connection<K: Link + Drop, C: Clock + Drop> {
    pub session: u64,
    pub link: K,
    pub clock: C,
}
