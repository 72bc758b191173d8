//! Instances that come.
ghost use Rattle.std.specs.Prelude.{◌≡◌, ◌≤◌, ◌^◌};
ghost use Rattle.sqlite.specs.Held.{state};
ghost use Rattle.dr_store_writes.specs.Effects.{GoesOn, StatementStep};
ghost use Rattle.dr_store_changes.specs.Changes.{AddsRows, AddsTargets, HasNeither, HasRows};
ghost use Rattle.dr_store_changes.specs.Changes.{KeepsOne, NotesArrival, Renews, Stores};

use crate::writing::TableChange;
use dr_base::Text;
use dr_ledger::{Instance, Progress};
use dr_store_writes::{
    add_arrival, add_arrived, add_item, add_kept, add_print, add_row, add_target, set_row,
};
use sqlite::{Alter, Error, Transaction};

/// Stores an instance that isn't there, by line `n`, with its data set, or with none where it isn't
/// needed; `whole` is 1 where it is there, and else 0.
pub fn store<'x, S: Alter>(
    tx: &mut Transaction<'_, S>,
    n: u64,
    item: &'x Instance,
    body: &'x [u8],
    whole: u64,
) -> Result<(), Error>
    requires number { n ≤ 2 ^ 62 }
    requires size { item.now.size ≤ 2 ^ 62 }
    requires whole { whole ≤ 2 ^ 62 }
    ensures same_reference { tx.new.conn.ghost_name ≡ tx.old.conn.ghost_name }
    ensures step { StatementStep result (state S.Store tx.old.conn.now)
        (state S.Store tx.new.conn.now)
        (HasNeither item.now.uid (state S.Store tx.old.conn.now).now.trees
        → GoesOn (state S.Store tx.old.conn.now) (state S.Store tx.new.conn.now)
        × Stores item.now body.now whole (state S.Store tx.old.conn.now).now.trees
        (state S.Store tx.new.conn.now).now.trees) }
{
    add_item(tx, n, &item.uid, &item.key, body)?;
    add_print(tx, &item.uid, item.size, &item.digest, whole)?;
    Ok(())
}

/// An instance waits, untried, for each of these destinations.
pub fn add_rows<'x, S: Alter>(
    tx: &mut Transaction<'_, S>,
    uid: &'x Text,
    dests: &'x [Text],
) -> Result<(), Error>
    ensures same_reference { tx.new.conn.ghost_name ≡ tx.old.conn.ghost_name }
    ensures step { StatementStep result (state S.Store tx.old.conn.now)
        (state S.Store tx.new.conn.now)
        (Unit {0}
        → GoesOn (state S.Store tx.old.conn.now) (state S.Store tx.new.conn.now)
        × AddsRows uid.now dests.now (state S.Store tx.old.conn.now).now.trees
        (state S.Store tx.new.conn.now).now.trees) }
{
    for dest in dests {
        add_row(tx, uid, dest)?;
    }
    Ok(())
}

/// An instance waits anew, untried, for each of these destinations, to which it has a row.
pub fn renew_rows<'x, S: Alter>(
    tx: &mut Transaction<'_, S>,
    uid: &'x Text,
    dests: &'x [Text],
) -> Result<(), Error>
    ensures same_reference { tx.new.conn.ghost_name ≡ tx.old.conn.ghost_name }
    ensures step { StatementStep result (state S.Store tx.old.conn.now)
        (state S.Store tx.new.conn.now)
        (HasRows uid.now dests.now (state S.Store tx.old.conn.now).now.trees
        → GoesOn (state S.Store tx.old.conn.now) (state S.Store tx.new.conn.now)
        × Renews uid.now dests.now (state S.Store tx.old.conn.now).now.trees
        (state S.Store tx.new.conn.now).now.trees) }
{
    for dest in dests {
        set_row(tx, uid, dest, Progress::Waiting { tries: 0, due: 0 })?;
    }
    Ok(())
}

/// Notes who brought an instance.
pub fn note_arrival<'x, S: Alter>(
    tx: &mut Transaction<'_, S>,
    caller: &'x Text,
    uid: &'x Text,
) -> Result<(), Error>
    ensures same_reference { tx.new.conn.ghost_name ≡ tx.old.conn.ghost_name }
    ensures step { StatementStep result (state S.Store tx.old.conn.now)
        (state S.Store tx.new.conn.now)
        (GoesOn (state S.Store tx.old.conn.now) (state S.Store tx.new.conn.now)
        × NotesArrival (caller.now, uid.now) (state S.Store tx.old.conn.now).now.trees
        (state S.Store tx.new.conn.now).now.trees) }
{
    add_arrival(tx, caller, uid)?;
    Ok(())
}

/// Keeps an instance.
pub fn keep<'x, S: Alter>(tx: &mut Transaction<'_, S>, uid: &'x Text) -> Result<(), Error>
    ensures same_reference { tx.new.conn.ghost_name ≡ tx.old.conn.ghost_name }
    ensures step { StatementStep result (state S.Store tx.old.conn.now)
        (state S.Store tx.new.conn.now)
        (GoesOn (state S.Store tx.old.conn.now) (state S.Store tx.new.conn.now)
        × KeepsOne uid.now (state S.Store tx.old.conn.now).now.trees
        (state S.Store tx.new.conn.now).now.trees) }
{
    add_kept(tx, uid)?;
    Ok(())
}

/// Line `n`, a first arrival, goes on to each of these; `-` stands for keeping.
pub fn add_targets<'x, S: Alter>(
    tx: &mut Transaction<'_, S>,
    n: u64,
    names: &'x [Text],
) -> Result<(), Error>
    requires { n ≤ 2 ^ 62 }
    ensures same_reference { tx.new.conn.ghost_name ≡ tx.old.conn.ghost_name }
    ensures step { StatementStep result (state S.Store tx.old.conn.now)
        (state S.Store tx.new.conn.now)
        (Unit {0}
        → GoesOn (state S.Store tx.old.conn.now) (state S.Store tx.new.conn.now)
        × AddsTargets n names.now (state S.Store tx.old.conn.now).now.trees
        (state S.Store tx.new.conn.now).now.trees) }
{
    for name in names {
        add_target(tx, n, name)?;
    }
    Ok(())
}

/// A repeat: a caller brings an instance that it brought before.
#[derive(Drop)]
pub struct Repeating<'x> {
    pub caller: &'x Text,
    pub item: &'x Instance,
    /// The moment (milliseconds), if it is known.
    pub moment: Option<u64>,
    ghost size: { item.now.size ≤ 2 ^ 62 },
}

impl TableChange for Repeating<'_> {
    ghost use Rattle.dr_store_writes.specs.Effects.{arrived_line};
    ghost use Rattle.dr_store_changes.specs.Changes.{AddsOnlyLine};

    ghost asks = { λ s db. Unit {0} };

    ghost makes = { λ s n. AddsOnlyLine (arrived_line n s.moment 1 s.caller.now s.item.now) };

    fn run<S: Alter>(&self, tx: &mut Transaction<'_, S>, n: u64) -> Result<(), Error> {
        add_arrived(tx, n, self.moment, 1, self.caller, self.item)?;
        Ok(())
    }
}
