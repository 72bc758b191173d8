//! How long a link waits for its peer.
ghost use Rattle.std.specs.Prelude.{◌≡◌};

use std::sync::atomic::{AtomicBool, Ordering};

/// Limits of a link, in milliseconds: for a connect; for the system to take a PDU that is written;
/// for 64 kB of a message that has begun, or its end; and for silence between two messages.
#[derive(Clone, Copy, PartialEq, Eq)]
pub struct Limits {
    pub connect: u64,
    pub write: u64,
    pub message: u64,
    pub idle: u64,
}

impl Limits {
    /// Those that hold where nothing else is asked for: 10, 60, 30 and 600 seconds.
    pub fn usual() -> Limits
        ensures { result ≡ record {
          connect = 10000;
          write = 60000;
          message = 30000;
          idle = 600000;
        } }
    {
        Limits {
            connect: 10_000,
            write: 60_000,
            message: 30_000,
            idle: 600_000,
        }
    }
}

/// Whether all links are cut: then each end hears silence once, at which it aborts, and then a
/// fault, within a second where it waits; and no write waits any more.
#[derive(Drop)]
pub struct Cut {
    is_done: AtomicBool,
}

impl Cut {
    /// They aren't.
    pub fn new() -> Cut {
        Cut {
            is_done: AtomicBool::new(false),
        }
    }

    /// From now on they are.
    pub fn make(&self) {
        self.is_done.store(true, Ordering::SeqCst);
    }

    /// Whether they are.
    pub(crate) fn is_made(&self) -> bool {
        self.is_done.load(Ordering::SeqCst)
    }
}
