//! Who of those that serve waits for a connection: one more begins where none of them does.
ghost use Rattle.std.specs.Prelude.{◌≡◌, ◌+◌, ◌-◌, ◌↔◌, ◌<◌, ◌^◌, IsTrue, false, true};

use std::sync::{Condvar, Mutex, Wait};

/// How many workers wait for a connection, and whether none comes any more.
#[derive(Drop)]
pub struct Idle {
    count: usize,
    over: bool,
}

impl Idle {
    /// No worker has begun.
    pub fn new() -> Idle
        ensures { (result.count ≡ 0) × (result.over ≡ false) }
    {
        Idle {
            count: 0,
            over: false,
        }
    }

    /// Whether no worker waits, and a connection may come.
    fn is_wanting(&self) -> bool
        ensures { IsTrue result ↔ ((self.now.count ≡ 0) × (self.now.over ≡ false)) }
    {
        self.count == 0 && !self.over
    }

    /// One more waits; 2^64 - 1 stays.
    fn add(&mut self)
        ensures { (self.old.count + 1 < 2 ^ 64 → self.new.count ≡ self.old.count + 1)
            × (self.new.over ≡ self.old.over) }
    {
        self.count = self.count.saturating_add(1);
    }

    /// One of them has a connection.
    fn take(&mut self)
        ensures { (self.new.count ≡ self.old.count - 1) × (self.new.over ≡ self.old.over) }
    {
        self.count = self.count.saturating_sub(1);
    }

    /// No connection comes any more.
    fn end(&mut self)
        ensures { (self.new.count ≡ self.old.count) × (self.new.over ≡ true) }
    {
        self.over = true;
    }
}

/// The workers of a node, as far as they wait.
#[derive(Drop)]
pub struct Staff {
    idle: Mutex<Idle>,
    changed: Condvar,
}

impl Staff {
    /// No worker has begun.
    pub fn new() -> Staff {
        Staff {
            idle: Mutex::new(Idle::new()),
            changed: Condvar::new(),
        }
    }

    /// Waits until no worker waits, and counts one that begins; or until no connection comes any
    /// more. Whether one begins.
    pub fn admit<R: Wait>(&self, rt: &R) -> bool {
        let held = self.idle.lock(rt);
        let mut held = self
            .changed
            .wait_while(rt, held, |idle| idle.count > 0 && !idle.over);
        if !held.is_wanting() {
            return false;
        }
        held.add();
        true
    }

    /// A worker has a connection.
    pub fn take<R: Wait>(&self, rt: &R) {
        self.idle.lock(rt).take();
        self.changed.notify_all();
    }

    /// It waits again.
    pub fn give_back<R: Wait>(&self, rt: &R) {
        self.idle.lock(rt).add();
    }

    /// No connection comes any more.
    pub fn end<R: Wait>(&self, rt: &R) {
        self.idle.lock(rt).end();
        self.changed.notify_all();
    }
}
