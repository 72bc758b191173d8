//! Rows that a person gives up.
ghost use Rattle.std.specs.Prelude.{◌≡◌, ◌≤◌, ◌^◌, true};
ghost use Rattle.sqlite.specs.Held.{state};
ghost use Rattle.dr_ledger.specs.declared.item.Progress.TheVariants.{Dropped};
ghost use Rattle.dr_store_writes.specs.Effects.{HasRow, StatementStep, dropped_line};
ghost use Rattle.dr_store_changes.specs.Changes.{AsksForRow, GivenUp, GivesUp, Moved};
ghost use Rattle.dr_store_changes.specs.Writing.{IsMade};

use crate::bodies::let_go;
use crate::writing::TableChange;
use dr_base::Text;
use dr_ledger::Progress;
use dr_store_writes::{add_dropped, drop_arrivals_of, set_row};
use sqlite::{Alter, Error, Transaction};

/// Drops a row, and adds the line of its dropping.
fn drop_row<'x, S: Alter>(
    tx: &mut Transaction<'_, S>,
    n: u64,
    uid: &'x Text,
    dest: &'x Text,
    now: u64,
) -> Result<(), Error>
    requires moment { now ≤ 2 ^ 62 }
    requires number { n ≤ 2 ^ 62 }
    ensures same_reference { tx.new.conn.ghost_name ≡ tx.old.conn.ghost_name }
    ensures step { StatementStep result (state S.Store tx.old.conn.now)
        (state S.Store tx.new.conn.now)
        (HasRow (uid.now, dest.now) (state S.Store tx.old.conn.now).now.trees
        → Moved (uid.now, dest.now) Dropped (dropped_line n uid.now dest.now now)
        (state S.Store tx.old.conn.now) (state S.Store tx.new.conn.now)) }
{
    set_row(tx, uid, dest, Progress::Dropped)?;
    add_dropped(tx, n, uid, dest, now)?;
    Ok(())
}

/// The same, and the arrivals of its instance leave, whoever brought it.
fn give_up<'x, S: Alter>(
    tx: &mut Transaction<'_, S>,
    n: u64,
    uid: &'x Text,
    dest: &'x Text,
    now: u64,
) -> Result<(), Error>
    requires moment { now ≤ 2 ^ 62 }
    requires number { n ≤ 2 ^ 62 }
    ensures same_reference { tx.new.conn.ghost_name ≡ tx.old.conn.ghost_name }
    ensures step { StatementStep result (state S.Store tx.old.conn.now)
        (state S.Store tx.new.conn.now)
        (HasRow (uid.now, dest.now) (state S.Store tx.old.conn.now).now.trees
        → GivenUp uid.now dest.now now n (state S.Store tx.old.conn.now)
        (state S.Store tx.new.conn.now)) }
{
    drop_row(tx, n, uid, dest, now)?;
    drop_arrivals_of(tx, uid)?;
    Ok(())
}

/// The same, where the row's instance is needed no more: its data set goes.
fn give_up_and_let_go<'x, S: Alter>(
    tx: &mut Transaction<'_, S>,
    n: u64,
    uid: &'x Text,
    dest: &'x Text,
    now: u64,
) -> Result<(), Error>
    requires moment { now ≤ 2 ^ 62 }
    requires number { n ≤ 2 ^ 62 }
    ensures same_reference { tx.new.conn.ghost_name ≡ tx.old.conn.ghost_name }
    ensures step { StatementStep result (state S.Store tx.old.conn.now)
        (state S.Store tx.new.conn.now)
        (AsksForRow (uid.now, dest.now) (state S.Store tx.old.conn.now).now.trees
        → IsMade n (GivesUp uid.now dest.now now n true) (state S.Store tx.old.conn.now)
        (state S.Store tx.new.conn.now)) }
{
    give_up(tx, n, uid, dest, now)?;
    let_go(tx, uid)?;
    Ok(())
}

/// A dropping: a person gives up an instance that is held for a destination.
#[derive(Drop)]
pub struct Dropping<'x> {
    pub uid: &'x Text,
    pub dest: &'x Text,
    /// The moment (milliseconds).
    pub now: u64,
    /// Whether its data set is needed no more, and goes.
    pub lets_go: bool,
    ghost moment: { now ≤ 2 ^ 62 },
}

impl TableChange for Dropping<'_> {
    ghost use Rattle.dr_store_changes.specs.Changes.{AsksForRow, GivesUp};

    ghost asks = { λ s. AsksForRow (s.uid.now, s.dest.now) };

    ghost makes = { λ s n. GivesUp s.uid.now s.dest.now s.now n s.lets_go };

    fn run<S: Alter>(&self, tx: &mut Transaction<'_, S>, n: u64) -> Result<(), Error> {
        if self.lets_go {
            return give_up_and_let_go(tx, n, self.uid, self.dest, self.now);
        }
        give_up(tx, n, self.uid, self.dest, self.now)
    }
}
