//! Rows that change.
ghost use Rattle.std.specs.Prelude.{◌≡◌, ◌≤◌, ◌+◌, ◌^◌};
ghost use Rattle.sqlite.specs.Held.{state};
ghost use Rattle.dr_store_schema.specs.Cells.{due_of};
ghost use Rattle.dr_store_writes.specs.Effects.{HasItem, HasPrint, HasRow, HasSite, SetsBody};
ghost use Rattle.dr_store_writes.specs.Effects.{SetsPlan, SetsRow, SetsWhole, StatementStep};

use crate::cells::{due_cell, number_cell, state_cell, tries_cell, why_cell};
use crate::running::run;
use dr_base::Text;
use dr_ledger::Progress;
use sqlite::types::ValueRef;
use sqlite::{Alter, Error, Transaction};

/// The row of an instance and a destination moves on.
pub fn set_row<'x, S: Alter>(
    tx: &mut Transaction<'_, S>,
    uid: &'x Text,
    dest: &'x Text,
    to: Progress,
) -> Result<usize, Error>
    requires { due_of to ≤ 2 ^ 62 + 300000 }
    ensures same_reference { tx.new.conn.ghost_name ≡ tx.old.conn.ghost_name }
    ensures step { StatementStep result (state S.Store tx.old.conn.now)
        (state S.Store tx.new.conn.now)
        (HasRow (uid.now, dest.now) (state S.Store tx.old.conn.now).now.trees
        → SetsRow (uid.now, dest.now) to (state S.Store tx.old.conn.now)
        (state S.Store tx.new.conn.now)) }
{
    run(
        tx,
        "UPDATE queue SET state = ?3, tries = ?4, due = ?5, cause = ?6 WHERE uid = ?1 AND dest = ?2",
        &[
            ValueRef::Text(uid.as_bytes()),
            ValueRef::Text(dest.as_bytes()),
            state_cell(to),
            tries_cell(to),
            due_cell(to),
            why_cell(to),
        ],
    )
}

/// An item has this data set, or none where it is let go; what is known of the item stays.
pub fn set_body<'x, S: Alter>(
    tx: &mut Transaction<'_, S>,
    uid: &'x Text,
    body: &'x [u8],
) -> Result<usize, Error>
    ensures same_reference { tx.new.conn.ghost_name ≡ tx.old.conn.ghost_name }
    ensures step { StatementStep result (state S.Store tx.old.conn.now)
        (state S.Store tx.new.conn.now)
        (HasItem uid.now (state S.Store tx.old.conn.now).now.trees
        → SetsBody uid.now body.now (state S.Store tx.old.conn.now)
        (state S.Store tx.new.conn.now)) }
{
    run(
        tx,
        "UPDATE item SET body = ?2 WHERE uid = ?1",
        &[ValueRef::Text(uid.as_bytes()), ValueRef::Blob(body)],
    )
}

/// Whether the data set of an item is there: 1, or 0 where it was let go.
pub fn set_whole<'x, S: Alter>(
    tx: &mut Transaction<'_, S>,
    uid: &'x Text,
    whole: u64,
) -> Result<usize, Error>
    requires { whole ≤ 2 ^ 62 }
    ensures same_reference { tx.new.conn.ghost_name ≡ tx.old.conn.ghost_name }
    ensures step { StatementStep result (state S.Store tx.old.conn.now)
        (state S.Store tx.new.conn.now)
        (HasPrint uid.now (state S.Store tx.old.conn.now).now.trees
        → SetsWhole uid.now whole (state S.Store tx.old.conn.now) (state S.Store tx.new.conn.now)) }
{
    run(
        tx,
        "UPDATE print SET whole = ?2 WHERE uid = ?1",
        &[ValueRef::Text(uid.as_bytes()), number_cell(whole)],
    )
}

/// The plan in force is another, for the same node.
pub fn set_plan<'x, S: Alter>(tx: &mut Transaction<'_, S>, plan: &'x [u8]) -> Result<usize, Error>
    ensures same_reference { tx.new.conn.ghost_name ≡ tx.old.conn.ghost_name }
    ensures step { StatementStep result (state S.Store tx.old.conn.now)
        (state S.Store tx.new.conn.now)
        (HasSite (state S.Store tx.old.conn.now).now.trees
        → SetsPlan plan.now (state S.Store tx.old.conn.now) (state S.Store tx.new.conn.now)) }
{
    run(
        tx,
        "UPDATE site SET plan = ?1 WHERE id = 1",
        &[ValueRef::Blob(plan)],
    )
}
