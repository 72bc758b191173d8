//! Rows that leave, at an adoption, at a forgetting, at a dropping and at a sealing.
ghost use Rattle.std.specs.Prelude.{◌≡◌};
ghost use Rattle.sqlite.specs.Held.{state};
ghost use Rattle.dr_store_writes.specs.Effects.{DropsAll, DropsArrivals, DropsOf, DropsOver};
ghost use Rattle.dr_store_writes.specs.Effects.{StatementStep};

use crate::running::run;
use dr_base::Text;
use sqlite::types::ValueRef;
use sqlite::{Alter, Error, Transaction};

/// All arrivals leave, and nothing else.
pub fn drop_arrivals<S: Alter>(tx: &mut Transaction<'_, S>) -> Result<usize, Error>
    ensures same_reference { tx.new.conn.ghost_name ≡ tx.old.conn.ghost_name }
    ensures step { StatementStep result (state S.Store tx.old.conn.now)
        (state S.Store tx.new.conn.now)
        (DropsArrivals (state S.Store tx.old.conn.now) (state S.Store tx.new.conn.now)) }
{
    run(tx, "DELETE FROM arrival", &[])
}

/// The rows that are over leave, those that are done or dropped, and nothing else.
pub fn drop_over<S: Alter>(tx: &mut Transaction<'_, S>) -> Result<usize, Error>
    ensures same_reference { tx.new.conn.ghost_name ≡ tx.old.conn.ghost_name }
    ensures step { StatementStep result (state S.Store tx.old.conn.now)
        (state S.Store tx.new.conn.now)
        (DropsOver (state S.Store tx.old.conn.now) (state S.Store tx.new.conn.now)) }
{
    run(tx, "DELETE FROM queue WHERE state >= 2", &[])
}

/// The arrivals of an instance leave, whoever brought it.
pub fn drop_arrivals_of<'x, S: Alter>(
    tx: &mut Transaction<'_, S>,
    uid: &'x Text,
) -> Result<usize, Error>
    ensures same_reference { tx.new.conn.ghost_name ≡ tx.old.conn.ghost_name }
    ensures step { StatementStep result (state S.Store tx.old.conn.now)
        (state S.Store tx.new.conn.now)
        (DropsOf 5 2 uid.now (state S.Store tx.old.conn.now) (state S.Store tx.new.conn.now)) }
{
    run(
        tx,
        "DELETE FROM arrival WHERE uid = ?1",
        &[ValueRef::Text(uid.as_bytes())],
    )
}

/// The rows of an instance leave, to whatever destination.
pub fn drop_rows_of<'x, S: Alter>(
    tx: &mut Transaction<'_, S>,
    uid: &'x Text,
) -> Result<usize, Error>
    ensures same_reference { tx.new.conn.ghost_name ≡ tx.old.conn.ghost_name }
    ensures step { StatementStep result (state S.Store tx.old.conn.now)
        (state S.Store tx.new.conn.now)
        (DropsOf 9 1 uid.now (state S.Store tx.old.conn.now) (state S.Store tx.new.conn.now)) }
{
    run(
        tx,
        "DELETE FROM queue WHERE uid = ?1",
        &[ValueRef::Text(uid.as_bytes())],
    )
}

/// The length and the SHA-256 of an instance leave.
pub fn drop_print<'x, S: Alter>(tx: &mut Transaction<'_, S>, uid: &'x Text) -> Result<usize, Error>
    ensures same_reference { tx.new.conn.ghost_name ≡ tx.old.conn.ghost_name }
    ensures step { StatementStep result (state S.Store tx.old.conn.now)
        (state S.Store tx.new.conn.now)
        (DropsOf 3 1 uid.now (state S.Store tx.old.conn.now) (state S.Store tx.new.conn.now)) }
{
    run(
        tx,
        "DELETE FROM print WHERE uid = ?1",
        &[ValueRef::Text(uid.as_bytes())],
    )
}

/// An instance itself leaves, where nothing refers to it any more.
pub fn drop_item<'x, S: Alter>(tx: &mut Transaction<'_, S>, uid: &'x Text) -> Result<usize, Error>
    ensures same_reference { tx.new.conn.ghost_name ≡ tx.old.conn.ghost_name }
    ensures step { StatementStep result (state S.Store tx.old.conn.now)
        (state S.Store tx.new.conn.now)
        (DropsOf 1 1 uid.now (state S.Store tx.old.conn.now) (state S.Store tx.new.conn.now)) }
{
    run(
        tx,
        "DELETE FROM item WHERE uid = ?1",
        &[ValueRef::Text(uid.as_bytes())],
    )
}

/// Where first arrivals go on to leaves, of all lines. It goes before them, since it refers to
/// them.
pub fn drop_targets<S: Alter>(tx: &mut Transaction<'_, S>) -> Result<usize, Error>
    ensures same_reference { tx.new.conn.ghost_name ≡ tx.old.conn.ghost_name }
    ensures step { StatementStep result (state S.Store tx.old.conn.now)
        (state S.Store tx.new.conn.now)
        (DropsAll 12 (state S.Store tx.old.conn.now) (state S.Store tx.new.conn.now)) }
{
    run(tx, "DELETE FROM target", &[])
}

/// All lines leave, where nothing refers to them any more.
pub fn drop_lines<S: Alter>(tx: &mut Transaction<'_, S>) -> Result<usize, Error>
    ensures same_reference { tx.new.conn.ghost_name ≡ tx.old.conn.ghost_name }
    ensures step { StatementStep result (state S.Store tx.old.conn.now)
        (state S.Store tx.new.conn.now)
        (DropsAll 11 (state S.Store tx.old.conn.now) (state S.Store tx.new.conn.now)) }
{
    run(tx, "DELETE FROM journal", &[])
}
