//! How long the calls of a ledger took.
use std::sync::atomic::{AtomicU64, Ordering};
use std::time::Clock;

/// How many calls were made, how long all of them took together, and how long the longest did
/// (microseconds).
#[derive(Clone, Copy, PartialEq, Eq)]
pub struct Timing {
    pub calls: u64,
    pub total: u64,
    pub longest: u64,
}

/// Counts calls that follow one another, while anybody reads.
#[derive(Drop)]
pub struct Meter {
    calls: AtomicU64,
    total: AtomicU64,
    longest: AtomicU64,
}

impl Meter {
    /// No call was made.
    pub fn new() -> Meter {
        Meter {
            calls: AtomicU64::new(0),
            total: AtomicU64::new(0),
            longest: AtomicU64::new(0),
        }
    }

    /// What was counted.
    pub fn read(&self) -> Timing {
        Timing {
            calls: self.calls.load(Ordering::SeqCst),
            total: self.total.load(Ordering::SeqCst),
            longest: self.longest.load(Ordering::SeqCst),
        }
    }

    /// Counts a call that took so many microseconds.
    pub(crate) fn note(&self, microseconds: u64) {
        self.calls.fetch_add(1, Ordering::SeqCst);
        self.total.fetch_add(microseconds, Ordering::SeqCst);
        if self.longest.load(Ordering::SeqCst) < microseconds {
            self.longest.store(microseconds, Ordering::SeqCst);
        }
    }
}

/// What the system's steady clock tells, in microseconds; 0 where it tells nothing.
pub(crate) fn moment<R: Clock>(rt: &R) -> u64 {
    match rt.monotonic() {
        Ok(time) => u64::try_from(time.as_micros()).unwrap_or(0),
        Err(_) => 0,
    }
}
