//! What is counted of a session while it is served.
use crate::gate::Tally;
use std::cell::Cell;

/// The arrivals that the desk answered in the session of this number, taken or refused, and those
/// of them whose reply isn't sent yet.
#[derive(Drop)]
pub struct SessionCounts {
    pub session: u64,
    unanswered: Cell<u64>,
    accepted: Cell<u64>,
    refused: Cell<u64>,
}

impl SessionCounts {
    /// Nothing was answered yet.
    pub fn new(session: u64) -> SessionCounts {
        SessionCounts {
            session,
            unanswered: Cell::new(0),
            accepted: Cell::new(0),
            refused: Cell::new(0),
        }
    }

    /// Counts an arrival that the desk answered.
    pub fn note(&self, accepted: bool) {
        add_one(&self.unanswered);
        if accepted {
            add_one(&self.accepted);
        } else {
            add_one(&self.refused);
        }
    }

    /// How many were answered since this was asked last.
    pub fn take_unanswered(&self) -> u64 {
        self.unanswered.replace(0)
    }

    /// What came of a session that was so many milliseconds long.
    pub fn tally(&self, milliseconds: u64) -> Tally {
        Tally {
            accepted: self.accepted.get(),
            refused: self.refused.get(),
            milliseconds,
        }
    }
}

/// Adds one; 2^64 - 1 stays.
fn add_one(count: &Cell<u64>) {
    count.set(count.get().saturating_add(1));
}
