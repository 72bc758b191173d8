//! Lines that leave the tables.
ghost use Rattle.std.specs.Prelude.{◌≡◌, ℕ, false};
ghost use Rattle.sqlite.specs.Held.{state};
ghost use Rattle.dr_store_writes.specs.Effects.{GoesOn, HasSite, StatementStep};
ghost use Rattle.dr_store_changes.specs.Sealing.{CanBeSealed, SealsLines};
ghost use Rattle.dr_store_changes.specs.Writing.{Transacted};

use dr_store_writes::{drop_lines, drop_targets, set_plan};
use sqlite::{Alter, Connection, Error, Transaction};

/// Takes all lines out, what refers to them first, and sets what site has for the plan in force.
fn take_lines_out<'x, S: Alter>(tx: &mut Transaction<'_, S>, plan: &'x [u8]) -> Result<(), Error>
    ensures same_reference { tx.new.conn.ghost_name ≡ tx.old.conn.ghost_name }
    ensures step { StatementStep result (state S.Store tx.old.conn.now)
        (state S.Store tx.new.conn.now)
        (CanBeSealed (state S.Store tx.old.conn.now).now.trees
        → GoesOn (state S.Store tx.old.conn.now) (state S.Store tx.new.conn.now)
        × SealsLines plan.now (state S.Store tx.old.conn.now).now.trees
        (state S.Store tx.new.conn.now).now.trees) }
{
    drop_targets(tx)?;
    drop_lines(tx)?;
    set_plan(tx, plan)?;
    Ok(())
}

/// Takes all lines out of the tables, and sets what site has for the plan in force, as one
/// transaction, whose commit is its last call of the database. The next line's number stays.
pub fn seal<S: Alter>(conn: &mut Connection<S>, plan: &[u8]) -> Result<(), Error>
    requires idle { conn.old.in_transaction ≡ false }
    ensures idle { conn.new.in_transaction ≡ false }
    ensures sealed { (n : ℕ) → Transacted n n HasSite (SealsLines plan.now) result
        (state S.Store conn.old) (state S.Store conn.new) }
{
    let mut tx = conn.transaction();
    take_lines_out(&mut tx, plan)?;
    tx.commit()
}
