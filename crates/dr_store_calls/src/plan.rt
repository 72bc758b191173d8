//! The change of the plan in force.
ghost use Rattle.std.specs.Prelude.{◌≡◌, ◌≤◌, ◌^◌};
ghost use Rattle.sqlite.specs.Held.{state};
ghost use Rattle.dr_store_writes.specs.Effects.{GoesOn, HasSite, StatementStep};
ghost use Rattle.dr_store_calls.specs.Adoptions.{Clears, NotesPlan};

use dr_store_changes::TableChange;
use dr_store_writes::{add_adopted, drop_arrivals, drop_over, set_plan};
use sqlite::{Alter, Error, Transaction};

/// Lets arrivals go, and the rows that are over.
fn clear<S: Alter>(tx: &mut Transaction<'_, S>) -> Result<(), Error>
    ensures same_reference { tx.new.conn.ghost_name ≡ tx.old.conn.ghost_name }
    ensures step { StatementStep result (state S.Store tx.old.conn.now)
        (state S.Store tx.new.conn.now)
        (Unit {0}
        → GoesOn (state S.Store tx.old.conn.now) (state S.Store tx.new.conn.now)
        × Clears (state S.Store tx.old.conn.now).now.trees
        (state S.Store tx.new.conn.now).now.trees) }
{
    drop_arrivals(tx)?;
    drop_over(tx)?;
    Ok(())
}

/// Sets what site has for the plan in force, and adds the line of its adoption.
fn note_plan<'x, S: Alter>(
    tx: &mut Transaction<'_, S>,
    n: u64,
    moment: Option<u64>,
    plan: &'x [u8],
) -> Result<(), Error>
    requires { n ≤ 2 ^ 62 }
    ensures same_reference { tx.new.conn.ghost_name ≡ tx.old.conn.ghost_name }
    ensures step { StatementStep result (state S.Store tx.old.conn.now)
        (state S.Store tx.new.conn.now)
        (HasSite (state S.Store tx.old.conn.now).now.trees
        → GoesOn (state S.Store tx.old.conn.now) (state S.Store tx.new.conn.now)
        × NotesPlan plan.now n moment (state S.Store tx.old.conn.now).now.trees
        (state S.Store tx.new.conn.now).now.trees) }
{
    set_plan(tx, plan)?;
    add_adopted(tx, n, moment)?;
    Ok(())
}

/// The plan that is in force from now on.
#[derive(Drop)]
pub struct NewPlan<'x> {
    /// What site has for it: its SHA-256, and behind it the mark and the seal.
    pub cell: &'x [u8],
    /// The moment (milliseconds), if it is known.
    pub moment: Option<u64>,
}

impl TableChange for NewPlan<'_> {
    ghost use Rattle.dr_store_writes.specs.Effects.{HasSite};
    ghost use Rattle.dr_store_calls.specs.Adoptions.{AdoptsPlan};

    ghost asks = { λ s. HasSite };

    ghost makes = { λ s n. AdoptsPlan s.cell.now n s.moment };

    fn run<S: Alter>(&self, tx: &mut Transaction<'_, S>, n: u64) -> Result<(), Error> {
        clear(tx)?;
        note_plan(tx, n, self.moment, self.cell)?;
        Ok(())
    }
}
