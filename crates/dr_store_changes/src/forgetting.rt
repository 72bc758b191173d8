//! Instances that are forgotten.
ghost use Rattle.std.specs.Prelude.{◌≡◌};
ghost use Rattle.sqlite.specs.Held.{state};
ghost use Rattle.dr_store_writes.specs.Effects.{GoesOn, StatementStep};
ghost use Rattle.dr_store_changes.specs.Bringing.{Then};
ghost use Rattle.dr_store_changes.specs.Changes.{DropsMoves, DropsStock};

use crate::writing::TableChange;
use dr_base::Text;
use dr_store_writes::{add_forgotten, drop_arrivals_of, drop_item, drop_print, drop_rows_of};
use sqlite::{Alter, Error, Transaction};

/// Drops the arrivals and the rows of an instance.
fn drop_moves<'x, S: Alter>(tx: &mut Transaction<'_, S>, uid: &'x Text) -> Result<(), Error>
    ensures same_reference { tx.new.conn.ghost_name ≡ tx.old.conn.ghost_name }
    ensures step { StatementStep result (state S.Store tx.old.conn.now)
        (state S.Store tx.new.conn.now)
        (Unit {0}
        → GoesOn (state S.Store tx.old.conn.now) (state S.Store tx.new.conn.now)
        × DropsMoves uid.now (state S.Store tx.old.conn.now).now.trees
        (state S.Store tx.new.conn.now).now.trees) }
{
    drop_rows_of(tx, uid)?;
    drop_arrivals_of(tx, uid)?;
    Ok(())
}

/// Drops the print of an instance, and the instance itself.
fn drop_stock<'x, S: Alter>(tx: &mut Transaction<'_, S>, uid: &'x Text) -> Result<(), Error>
    ensures same_reference { tx.new.conn.ghost_name ≡ tx.old.conn.ghost_name }
    ensures step { StatementStep result (state S.Store tx.old.conn.now)
        (state S.Store tx.new.conn.now)
        (Unit {0}
        → GoesOn (state S.Store tx.old.conn.now) (state S.Store tx.new.conn.now)
        × DropsStock uid.now (state S.Store tx.old.conn.now).now.trees
        (state S.Store tx.new.conn.now).now.trees) }
{
    drop_print(tx, uid)?;
    drop_item(tx, uid)?;
    Ok(())
}

/// Drops all that speaks of an instance; what refers to it goes first.
fn drop_all<'x, S: Alter>(tx: &mut Transaction<'_, S>, uid: &'x Text) -> Result<(), Error>
    ensures same_reference { tx.new.conn.ghost_name ≡ tx.old.conn.ghost_name }
    ensures step { StatementStep result (state S.Store tx.old.conn.now)
        (state S.Store tx.new.conn.now)
        (Unit {0}
        → GoesOn (state S.Store tx.old.conn.now) (state S.Store tx.new.conn.now)
        × Then (DropsMoves uid.now) (DropsStock uid.now) (state S.Store tx.old.conn.now).now.trees
        (state S.Store tx.new.conn.now).now.trees) }
{
    drop_moves(tx, uid)?;
    drop_stock(tx, uid)?;
    Ok(())
}

/// A forgetting: an instance leaves that is sent on everywhere, and that the node doesn't keep.
#[derive(Drop)]
pub struct Forgetting<'x> {
    pub uid: &'x Text,
    /// The moment (milliseconds), if it is known.
    pub moment: Option<u64>,
}

impl TableChange for Forgetting<'_> {
    ghost use Rattle.dr_store_changes.specs.Changes.{TakesOut};

    ghost asks = { λ s db. Unit {0} };

    ghost makes = { λ s n. TakesOut s.uid.now n s.moment };

    fn run<S: Alter>(&self, tx: &mut Transaction<'_, S>, n: u64) -> Result<(), Error> {
        drop_all(tx, self.uid)?;
        add_forgotten(tx, n, self.moment, self.uid)?;
        Ok(())
    }
}
