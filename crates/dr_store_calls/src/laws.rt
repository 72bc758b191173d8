//! What a crash leaves.
ghost use Rattle.std.specs.Prelude.{◌≡◌, IsTrue};
ghost use Rattle.sqlite.specs.Held.{state};
ghost use Rattle.sqlite.specs.Tree.{Trees};

use sqlite::{Alter, Connection};

/// While the store is open, a crash leaves what was committed, and nothing else. So after a call
/// that was accepted, whose store stays open, it leaves the book after the call.
pub fn a_crash_leaves_the_commit<S: Alter>(_conn: &Connection<S>)
    ensures { IsTrue (state S.Store _conn.now).is_open
        → (db : Trees)
        → (state S.Store _conn.now).may_leave db
        → db ≡ (state S.Store _conn.now).committed.trees }
{}
