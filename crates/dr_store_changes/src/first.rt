//! First arrivals, each with all that it makes of the tables.
ghost use Rattle.std.specs.Prelude.{◌≡◌, ◌≤◌, ◌^◌};
ghost use Rattle.sqlite.specs.Held.{state};
ghost use Rattle.dr_store_writes.specs.Effects.{GoesOn, StatementStep, arrived_line};
ghost use Rattle.dr_store_changes.specs.Bringing.{AsksToTake, KeepsIf, TakesInItem, Then};
ghost use Rattle.dr_store_changes.specs.Changes.{AddsOnlyLine, AddsRows, AddsTargets, HasRows};
ghost use Rattle.dr_store_changes.specs.Changes.{NotesArrival, Renews};

use crate::arriving::{add_rows, add_targets, keep, note_arrival, renew_rows, store};
use crate::bodies::take_back;
use crate::writing::TableChange;
use dr_base::Text;
use dr_ledger::Instance;
use dr_store_writes::add_arrived;
use sqlite::{Alter, Error, Transaction};

/// What a first arrival does with the instance and its data set.
#[derive(Clone, Copy, PartialEq, Eq)]
pub enum Taking {
    /// The instance wasn't there: it is stored with its data set.
    New,
    /// The instance wasn't there: it is stored without its data set, which isn't needed.
    Bare,
    /// The instance is there: its data set, which was let go, comes again.
    Again,
    /// The instance is there, and nothing of it changes.
    Nothing,
}

/// Takes the instance in by line `n`, and its data set.
fn take<'x, S: Alter>(
    tx: &mut Transaction<'_, S>,
    n: u64,
    item: &'x Instance,
    body: &'x [u8],
    taking: Taking,
) -> Result<(), Error>
    requires number { n ≤ 2 ^ 62 }
    requires size { item.now.size ≤ 2 ^ 62 }
    ensures same_reference { tx.new.conn.ghost_name ≡ tx.old.conn.ghost_name }
    ensures step { StatementStep result (state S.Store tx.old.conn.now)
        (state S.Store tx.new.conn.now)
        (AsksToTake taking item.now.uid (state S.Store tx.old.conn.now).now.trees
        → GoesOn (state S.Store tx.old.conn.now) (state S.Store tx.new.conn.now)
        × TakesInItem taking item.now body.now (state S.Store tx.old.conn.now).now.trees
        (state S.Store tx.new.conn.now).now.trees) }
{
    match taking {
        Taking::New => store(tx, n, item, body, 1),
        Taking::Bare => store(tx, n, item, &[], 0),
        Taking::Again => take_back(tx, &item.uid, body),
        Taking::Nothing => Ok(()),
    }
}

/// The same, and who brought it.
fn take_from<'x, S: Alter>(
    tx: &mut Transaction<'_, S>,
    n: u64,
    caller: &'x Text,
    item: &'x Instance,
    body: &'x [u8],
    taking: Taking,
) -> Result<(), Error>
    requires number { n ≤ 2 ^ 62 }
    requires size { item.now.size ≤ 2 ^ 62 }
    ensures same_reference { tx.new.conn.ghost_name ≡ tx.old.conn.ghost_name }
    ensures step { StatementStep result (state S.Store tx.old.conn.now)
        (state S.Store tx.new.conn.now)
        (AsksToTake taking item.now.uid (state S.Store tx.old.conn.now).now.trees
        → GoesOn (state S.Store tx.old.conn.now) (state S.Store tx.new.conn.now)
        × Then (TakesInItem taking item.now body.now) (NotesArrival (caller.now, item.now.uid))
        (state S.Store tx.old.conn.now).now.trees (state S.Store tx.new.conn.now).now.trees) }
{
    take(tx, n, item, body, taking)?;
    note_arrival(tx, caller, &item.uid)?;
    Ok(())
}

/// Keeps an instance, if it is to be kept.
fn keep_if<'x, S: Alter>(
    tx: &mut Transaction<'_, S>,
    uid: &'x Text,
    keeps: bool,
) -> Result<(), Error>
    ensures same_reference { tx.new.conn.ghost_name ≡ tx.old.conn.ghost_name }
    ensures step { StatementStep result (state S.Store tx.old.conn.now)
        (state S.Store tx.new.conn.now)
        (GoesOn (state S.Store tx.old.conn.now) (state S.Store tx.new.conn.now)
        × KeepsIf uid.now keeps (state S.Store tx.old.conn.now).now.trees
        (state S.Store tx.new.conn.now).now.trees) }
{
    if keeps {
        return keep(tx, uid);
    }
    Ok(())
}

/// An instance waits anew for the destinations of `again`, whose rows were dropped, and from now on
/// for these others.
fn wait_for<'x, S: Alter>(
    tx: &mut Transaction<'_, S>,
    uid: &'x Text,
    again: &'x [Text],
    dests: &'x [Text],
) -> Result<(), Error>
    ensures same_reference { tx.new.conn.ghost_name ≡ tx.old.conn.ghost_name }
    ensures step { StatementStep result (state S.Store tx.old.conn.now)
        (state S.Store tx.new.conn.now)
        (HasRows uid.now again.now (state S.Store tx.old.conn.now).now.trees
        → GoesOn (state S.Store tx.old.conn.now) (state S.Store tx.new.conn.now)
        × Then (Renews uid.now again.now) (AddsRows uid.now dests.now)
        (state S.Store tx.old.conn.now).now.trees (state S.Store tx.new.conn.now).now.trees) }
{
    renew_rows(tx, uid, again)?;
    add_rows(tx, uid, dests)?;
    Ok(())
}

/// The same, and it is kept if it is to be.
fn queue<'x, S: Alter>(
    tx: &mut Transaction<'_, S>,
    uid: &'x Text,
    again: &'x [Text],
    dests: &'x [Text],
    keeps: bool,
) -> Result<(), Error>
    ensures same_reference { tx.new.conn.ghost_name ≡ tx.old.conn.ghost_name }
    ensures step { StatementStep result (state S.Store tx.old.conn.now)
        (state S.Store tx.new.conn.now)
        (HasRows uid.now again.now (state S.Store tx.old.conn.now).now.trees
        → GoesOn (state S.Store tx.old.conn.now) (state S.Store tx.new.conn.now)
        × Then (Then (Renews uid.now again.now) (AddsRows uid.now dests.now))
        (KeepsIf uid.now keeps) (state S.Store tx.old.conn.now).now.trees
        (state S.Store tx.new.conn.now).now.trees) }
{
    wait_for(tx, uid, again, dests)?;
    keep_if(tx, uid, keeps)?;
    Ok(())
}

/// Adds the line of a first arrival.
fn add_line<'x, S: Alter>(
    tx: &mut Transaction<'_, S>,
    n: u64,
    moment: Option<u64>,
    caller: &'x Text,
    item: &'x Instance,
) -> Result<(), Error>
    requires n { n ≤ 2 ^ 62 }
    requires size { item.now.size ≤ 2 ^ 62 }
    ensures same_reference { tx.new.conn.ghost_name ≡ tx.old.conn.ghost_name }
    ensures step { StatementStep result (state S.Store tx.old.conn.now)
        (state S.Store tx.new.conn.now)
        (Unit {0}
        → GoesOn (state S.Store tx.old.conn.now) (state S.Store tx.new.conn.now)
        × AddsOnlyLine (arrived_line n moment 0 caller.now item.now)
        (state S.Store tx.old.conn.now).now.trees (state S.Store tx.new.conn.now).now.trees) }
{
    add_arrived(tx, n, moment, 0, caller, item)?;
    Ok(())
}

/// The same, and where it goes on to.
fn write_line<'x, S: Alter>(
    tx: &mut Transaction<'_, S>,
    n: u64,
    moment: Option<u64>,
    caller: &'x Text,
    item: &'x Instance,
    names: &'x [Text],
) -> Result<(), Error>
    requires n { n ≤ 2 ^ 62 }
    requires size { item.now.size ≤ 2 ^ 62 }
    ensures same_reference { tx.new.conn.ghost_name ≡ tx.old.conn.ghost_name }
    ensures step { StatementStep result (state S.Store tx.old.conn.now)
        (state S.Store tx.new.conn.now)
        (Unit {0}
        → GoesOn (state S.Store tx.old.conn.now) (state S.Store tx.new.conn.now)
        × Then (AddsOnlyLine (arrived_line n moment 0 caller.now item.now))
        (AddsTargets n names.now) (state S.Store tx.old.conn.now).now.trees
        (state S.Store tx.new.conn.now).now.trees) }
{
    add_line(tx, n, moment, caller, item)?;
    add_targets(tx, n, names)?;
    Ok(())
}

/// A first arrival: a caller brings an instance that it hasn't brought before.
#[derive(Drop)]
pub struct Arriving<'x> {
    pub caller: &'x Text,
    pub item: &'x Instance,
    pub body: &'x [u8],
    /// What is done with the instance and its data set.
    pub taking: Taking,
    /// The destinations for which it waits anew: those of its targets for which its row was
    /// dropped.
    pub again: &'x [Text],
    /// The destinations for which it waits from now on: those of its targets to which it has no
    /// row.
    pub dests: &'x [Text],
    /// Whether it is kept from now on.
    pub keeps: bool,
    /// Where its line goes on to, `-` standing for keeping.
    pub names: &'x [Text],
    /// The moment (milliseconds), if it is known.
    pub moment: Option<u64>,
    ghost size: { item.now.size ≤ 2 ^ 62 },
}

impl Arriving<'_> {
    /// All but its line.
    fn fill<S: Alter>(&self, tx: &mut Transaction<'_, S>, n: u64) -> Result<(), Error>
        requires { n ≤ 2 ^ 62 }
        ensures same_reference { tx.new.conn.ghost_name ≡ tx.old.conn.ghost_name }
        ensures step { StatementStep result (state S.Store tx.old.conn.now)
            (state S.Store tx.new.conn.now)
            (AsksToTake self.now.taking self.now.item.now.uid
            (state S.Store tx.old.conn.now).now.trees
            × HasRows self.now.item.now.uid self.now.again.now
            (state S.Store tx.old.conn.now).now.trees
            → GoesOn (state S.Store tx.old.conn.now) (state S.Store tx.new.conn.now)
            × Then
            (Then (TakesInItem self.now.taking self.now.item.now self.now.body.now)
            (NotesArrival (self.now.caller.now, self.now.item.now.uid)))
            (Then
            (Then (Renews self.now.item.now.uid self.now.again.now)
            (AddsRows self.now.item.now.uid self.now.dests.now))
            (KeepsIf self.now.item.now.uid self.now.keeps))
            (state S.Store tx.old.conn.now).now.trees (state S.Store tx.new.conn.now).now.trees) }
    {
        take_from(tx, n, self.caller, self.item, self.body, self.taking)?;
        queue(tx, &self.item.uid, self.again, self.dests, self.keeps)?;
        Ok(())
    }
}

impl TableChange for Arriving<'_> {
    ghost use Rattle.dr_store_changes.specs.Bringing.{AsksToTake, Brings};
    ghost use Rattle.dr_store_changes.specs.Changes.{HasRows};

    ghost asks = { λ s db.
        AsksToTake s.taking s.item.now.uid db × HasRows s.item.now.uid s.again.now db };

    ghost makes = { λ s n. Brings s.taking s.caller.now s.item.now s.body.now s.again.now
        s.dests.now s.keeps s.names.now n s.moment };

    fn run<S: Alter>(&self, tx: &mut Transaction<'_, S>, n: u64) -> Result<(), Error> {
        self.fill(tx, n)?;
        write_line(tx, n, self.moment, self.caller, self.item, self.names)?;
        Ok(())
    }
}
