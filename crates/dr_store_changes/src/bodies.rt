//! Data sets that are let go, and that come again.
ghost use Rattle.std.specs.Prelude.{◌≡◌};
ghost use Rattle.sqlite.specs.Held.{state};
ghost use Rattle.dr_store_writes.specs.Effects.{GoesOn, StatementStep};
ghost use Rattle.dr_store_changes.specs.Changes.{HasBoth, LetsGo, TakesBack};

use dr_base::Text;
use dr_store_writes::{set_body, set_whole};
use sqlite::{Alter, Error, Transaction};

/// Lets the data set of an item go; what is known of the item stays.
pub fn let_go<'x, S: Alter>(tx: &mut Transaction<'_, S>, uid: &'x Text) -> Result<(), Error>
    ensures same_reference { tx.new.conn.ghost_name ≡ tx.old.conn.ghost_name }
    ensures step { StatementStep result (state S.Store tx.old.conn.now)
        (state S.Store tx.new.conn.now)
        (HasBoth uid.now (state S.Store tx.old.conn.now).now.trees
        → GoesOn (state S.Store tx.old.conn.now) (state S.Store tx.new.conn.now)
        × LetsGo uid.now (state S.Store tx.old.conn.now).now.trees
        (state S.Store tx.new.conn.now).now.trees) }
{
    set_body(tx, uid, &[])?;
    set_whole(tx, uid, 0)?;
    Ok(())
}

/// Takes the data set of an item back, which was let go.
pub fn take_back<'x, S: Alter>(
    tx: &mut Transaction<'_, S>,
    uid: &'x Text,
    body: &'x [u8],
) -> Result<(), Error>
    ensures same_reference { tx.new.conn.ghost_name ≡ tx.old.conn.ghost_name }
    ensures step { StatementStep result (state S.Store tx.old.conn.now)
        (state S.Store tx.new.conn.now)
        (HasBoth uid.now (state S.Store tx.old.conn.now).now.trees
        → GoesOn (state S.Store tx.old.conn.now) (state S.Store tx.new.conn.now)
        × TakesBack uid.now body.now (state S.Store tx.old.conn.now).now.trees
        (state S.Store tx.new.conn.now).now.trees) }
{
    set_body(tx, uid, body)?;
    set_whole(tx, uid, 1)?;
    Ok(())
}
