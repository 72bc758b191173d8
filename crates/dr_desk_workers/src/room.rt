//! What all associations may hold in memory of data sets, together.
ghost use Rattle.std.specs.Prelude.{◌≡◌, ◌≤◌, ◌<◌, ◌+◌, ◌-◌, MatchBool};

use std::sync::{Condvar, Mutex, Wait};
use std::time::{Clock, Duration};

/// How many bytes are taken of those that may be.
#[derive(Drop)]
pub struct Budget {
    limit: u64,
    taken: u64,
    ghost within: { taken ≤ limit },
}

impl Budget {
    /// None of so many bytes is taken.
    pub fn new(limit: u64) -> Budget
        ensures { (result.limit ≡ limit) × (result.taken ≡ 0) }
    {
        Budget { limit, taken: 0 }
    }

    /// Whether so many bytes more can be taken.
    pub fn holds(&self, bytes: u64) -> bool
        ensures { MatchBool result (self.now.taken + bytes ≤ self.now.limit)
            (self.now.limit < self.now.taken + bytes) }
    {
        if bytes > self.limit - self.taken {
            return false;
        }
        true
    }

    /// Takes so many bytes more, if they can be; says whether it did.
    pub fn take(&mut self, bytes: u64) -> bool
        ensures taken { MatchBool result (self.new.taken ≡ self.old.taken + bytes)
            ((self.old.limit < self.old.taken + bytes) × (self.new.taken ≡ self.old.taken)) }
        ensures limit { self.new.limit ≡ self.old.limit }
    {
        if !self.holds(bytes) {
            return false;
        }
        self.taken += bytes;
        true
    }

    /// So many bytes are free again.
    pub fn give_back(&mut self, bytes: u64)
        ensures taken { self.new.taken ≡ self.old.taken - bytes }
        ensures limit { self.new.limit ≡ self.old.limit }
    {
        self.taken = self.taken.saturating_sub(bytes);
    }
}

/// A budget under a lock, for which an association may wait.
#[derive(Drop)]
pub struct Room {
    budget: Mutex<Budget>,
    changed: Condvar,
}

impl Room {
    /// Room for so many bytes.
    pub fn new(bytes: u64) -> Room {
        Room {
            budget: Mutex::new(Budget::new(bytes)),
            changed: Condvar::new(),
        }
    }

    /// Takes so many bytes more; where they aren't free, it waits for so many milliseconds. Says
    /// whether it did.
    pub fn take<R: Wait + Clock>(&self, rt: &R, bytes: u64, milliseconds: u64) -> bool {
        let held = self.budget.lock(rt);
        let (mut held, _) = self.changed.wait_timeout_while(
            rt,
            held,
            Duration::from_millis(milliseconds),
            |budget| !budget.holds(bytes),
        );
        held.take(bytes)
    }

    /// So many bytes are free again.
    pub fn give_back<R: Wait>(&self, rt: &R, bytes: u64) {
        if bytes == 0 {
            return;
        }
        self.budget.lock(rt).give_back(bytes);
        self.changed.notify_all();
    }
}
