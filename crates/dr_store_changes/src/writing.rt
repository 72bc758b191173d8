//! One transaction.
ghost use Rattle.std.specs.Prelude.{◌≡◌, ◌≤◌, ◌^◌, ℕ, false};
ghost use Rattle.sqlite.specs.Held.{state};
ghost use Rattle.sqlite.specs.Tree.{Trees};
ghost use Rattle.dr_store_writes.specs.Effects.{StatementStep};
ghost use Rattle.dr_store_changes.specs.Writing.{IsMade, Written};

use sqlite::{Alter, Connection, Error, Transaction};

/// What a call makes of the tables, statement by statement.
pub trait TableChange {
    // What the tables have to show before.
    ghost asks: { Self → Trees → Type 0 };

    // What it makes of the tables, where its line has this number.
    ghost makes: { Self → ℕ → Trees → Trees → Type 0 };

    /// Runs its statements, that of its line among them.
    fn run<S: Alter>(&self, tx: &mut Transaction<'_, S>, n: u64) -> Result<(), Error>
        requires { n ≤ 2 ^ 62 }
        ensures same_reference { tx.new.conn.ghost_name ≡ tx.old.conn.ghost_name }
        ensures step { StatementStep result (state S.Store tx.old.conn.now)
            (state S.Store tx.new.conn.now)
            (asks self.now (state S.Store tx.old.conn.now).now.trees
            → IsMade n (makes self.now n) (state S.Store tx.old.conn.now)
            (state S.Store tx.new.conn.now)) };
}

/// Makes a change as one transaction, whose commit is its last call of the database.
pub fn write<C: TableChange, S: Alter>(
    conn: &mut Connection<S>,
    n: u64,
    change: &C,
) -> Result<(), Error>
    requires idle { conn.old.in_transaction ≡ false }
    requires number { n ≤ 2 ^ 62 }
    ensures idle { conn.new.in_transaction ≡ false }
    ensures written { Written n (C.asks change.now) (C.makes change.now n) result
        (state S.Store conn.old) (state S.Store conn.new) }
{
    let mut tx = conn.transaction();
    change.run(&mut tx, n)?;
    tx.commit()
}
