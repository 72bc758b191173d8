//! Rows that move on: settlings and requeuings.
ghost use Rattle.std.specs.Prelude.{◌≡◌, ◌≤◌, ◌+◌, ◌^◌, true, false};
ghost use Rattle.sqlite.specs.Held.{state};
ghost use Rattle.dr_store_schema.specs.Cells.{due_of};
ghost use Rattle.dr_store_writes.specs.Effects.{HasRow, StatementStep, requeued_line, settled_line};
ghost use Rattle.dr_store_changes.specs.Changes.{AsksForRow, Moved, MovesOn};
ghost use Rattle.dr_store_changes.specs.Writing.{IsMade};

use crate::bodies::let_go;
use crate::writing::TableChange;
use dr_base::Text;
use dr_ledger::{Outcome, Progress};
use dr_store_writes::{add_requeued, add_settled, set_row};
use sqlite::{Alter, Error, Transaction};

/// Moves a row on, and adds the line of its settling.
fn settle<'x, S: Alter>(
    tx: &mut Transaction<'_, S>,
    n: u64,
    uid: &'x Text,
    dest: &'x Text,
    to: Progress,
    outcome: Outcome,
    now: u64,
) -> Result<(), Error>
    requires due { due_of to ≤ 2 ^ 62 + 300000 }
    requires moment { now ≤ 2 ^ 62 }
    requires number { n ≤ 2 ^ 62 }
    ensures same_reference { tx.new.conn.ghost_name ≡ tx.old.conn.ghost_name }
    ensures step { StatementStep result (state S.Store tx.old.conn.now)
        (state S.Store tx.new.conn.now)
        (HasRow (uid.now, dest.now) (state S.Store tx.old.conn.now).now.trees
        → Moved (uid.now, dest.now) to (settled_line n uid.now dest.now outcome now)
        (state S.Store tx.old.conn.now) (state S.Store tx.new.conn.now)) }
{
    set_row(tx, uid, dest, to)?;
    add_settled(tx, n, uid, dest, outcome, now)?;
    Ok(())
}

/// The same, where the row's instance is needed no more: its data set goes.
fn settle_and_let_go<'x, S: Alter>(
    tx: &mut Transaction<'_, S>,
    n: u64,
    uid: &'x Text,
    dest: &'x Text,
    to: Progress,
    outcome: Outcome,
    now: u64,
) -> Result<(), Error>
    requires due { due_of to ≤ 2 ^ 62 + 300000 }
    requires moment { now ≤ 2 ^ 62 }
    requires number { n ≤ 2 ^ 62 }
    ensures same_reference { tx.new.conn.ghost_name ≡ tx.old.conn.ghost_name }
    ensures step { StatementStep result (state S.Store tx.old.conn.now)
        (state S.Store tx.new.conn.now)
        (AsksForRow (uid.now, dest.now) (state S.Store tx.old.conn.now).now.trees
        → IsMade n
        (MovesOn (uid.now, dest.now) to (settled_line n uid.now dest.now outcome now) true)
        (state S.Store tx.old.conn.now) (state S.Store tx.new.conn.now)) }
{
    settle(tx, n, uid, dest, to, outcome, now)?;
    let_go(tx, uid)?;
    Ok(())
}

/// Moves a row on, and adds the line of its requeuing.
fn requeue<'x, S: Alter>(
    tx: &mut Transaction<'_, S>,
    n: u64,
    moment: Option<u64>,
    uid: &'x Text,
    dest: &'x Text,
    to: Progress,
) -> Result<(), Error>
    requires due { due_of to ≤ 2 ^ 62 + 300000 }
    requires number { n ≤ 2 ^ 62 }
    ensures same_reference { tx.new.conn.ghost_name ≡ tx.old.conn.ghost_name }
    ensures step { StatementStep result (state S.Store tx.old.conn.now)
        (state S.Store tx.new.conn.now)
        (HasRow (uid.now, dest.now) (state S.Store tx.old.conn.now).now.trees
        → Moved (uid.now, dest.now) to (requeued_line n moment uid.now dest.now)
        (state S.Store tx.old.conn.now) (state S.Store tx.new.conn.now)) }
{
    set_row(tx, uid, dest, to)?;
    add_requeued(tx, n, moment, uid, dest)?;
    Ok(())
}

/// A settling: what came of a try to send an instance.
#[derive(Drop)]
pub struct Settling<'x> {
    pub uid: &'x Text,
    pub dest: &'x Text,
    /// How far the instance is then on its way to the destination.
    pub to: Progress,
    pub outcome: Outcome,
    /// The moment (milliseconds).
    pub now: u64,
    /// Whether its data set is needed no more, and goes.
    pub lets_go: bool,
    ghost due: { due_of to ≤ 2 ^ 62 + 300000 },
    ghost moment: { now ≤ 2 ^ 62 },
}

impl TableChange for Settling<'_> {
    ghost use Rattle.dr_store_writes.specs.Effects.{settled_line};
    ghost use Rattle.dr_store_changes.specs.Changes.{AsksForRow, MovesOn};

    ghost asks = { λ s. AsksForRow (s.uid.now, s.dest.now) };

    ghost makes = { λ s n. MovesOn (s.uid.now, s.dest.now) s.to
        (settled_line n s.uid.now s.dest.now s.outcome s.now) s.lets_go };

    fn run<S: Alter>(&self, tx: &mut Transaction<'_, S>, n: u64) -> Result<(), Error> {
        if self.lets_go {
            return settle_and_let_go(tx, n, self.uid, self.dest, self.to, self.outcome, self.now);
        }
        settle(tx, n, self.uid, self.dest, self.to, self.outcome, self.now)
    }
}

/// A requeuing: an instance that was held waits again.
#[derive(Drop)]
pub struct Requeuing<'x> {
    pub uid: &'x Text,
    pub dest: &'x Text,
    /// How far it is then on its way to the destination.
    pub to: Progress,
    /// The moment (milliseconds), if it is known.
    pub moment: Option<u64>,
    ghost due: { due_of to ≤ 2 ^ 62 + 300000 },
}

impl TableChange for Requeuing<'_> {
    ghost use Rattle.std.specs.Prelude.{false};
    ghost use Rattle.dr_store_writes.specs.Effects.{requeued_line};
    ghost use Rattle.dr_store_changes.specs.Changes.{AsksForRow, MovesOn};

    ghost asks = { λ s. AsksForRow (s.uid.now, s.dest.now) };

    ghost makes = { λ s n. MovesOn (s.uid.now, s.dest.now) s.to
        (requeued_line n s.moment s.uid.now s.dest.now) false };

    fn run<S: Alter>(&self, tx: &mut Transaction<'_, S>, n: u64) -> Result<(), Error> {
        requeue(tx, n, self.moment, self.uid, self.dest, self.to)
    }
}
