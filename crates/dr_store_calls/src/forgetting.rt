//! Forgettings, and whether an instance is over.
ghost use Rattle.std.specs.Prelude.{◌≡◌, ◌≤◌, ◌↔◌, ◌^◌, ℕ, IsTrue, OnOk, Ok, true, false};
ghost use Rattle.sqlite.specs.Held.{state};
ghost use Rattle.dr_site.specs.Parts.{Part};
ghost use Rattle.dr_ledger.specs.Bodies.{OnlyLetsGo};
ghost use Rattle.dr_ledger.specs.Replies.{Forgets, IsOver};
ghost use Rattle.dr_store_reads.specs.Queries.{HasOpen};
ghost use Rattle.dr_store_schema.specs.Books.{bodies_of, book_of};
ghost use Rattle.dr_store_calls.specs.Calling.{Called, Looked, Nothing, advanced};
ghost use Rattle.dr_store_calls.specs.Needs.{IsKeptIn};

use crate::writing::written;
use dr_base::Text;
use dr_ledger::LedgerFault;
use dr_store_changes::Forgetting;
use dr_store_reads::{find_kept, find_key, has_open};
use sqlite::{Alter, Connection};
use std::alloc::Global;

/// Whether no row of an instance is open, where it isn't kept.
fn is_done_unless_kept<'x, S: Alter>(
    conn: &mut Connection<S>,
    uid: &'x Text,
    kept: bool,
) -> Result<bool, LedgerFault>
    ensures looked { (n : ℕ) (part : Part)
        → Looked n part result (state S.Store conn.old) (state S.Store conn.new)
        (λ base done. IsTrue done ↔ ((kept ≡ false) × (HasOpen base uid.now → ⊥))) }
    ensures idle { conn.old.in_transaction ≡ false → conn.new.in_transaction ≡ false }
{
    if kept {
        return Ok(false);
    }
    match has_open(conn, uid) {
        Ok(undone) => Ok(!undone),
        Err(fault) => Err(fault),
    }
}

/// Whether an instance isn't kept, and no row of it is open.
fn is_past<'x, S: Alter>(conn: &mut Connection<S>, uid: &'x Text) -> Result<bool, LedgerFault>
    ensures looked { (n : ℕ) (part : Part)
        → Looked n part result (state S.Store conn.old) (state S.Store conn.new)
        (λ base past.
        IsTrue past ↔ ((IsKeptIn base uid.now → ⊥) × (HasOpen base uid.now → ⊥))) }
    ensures idle { conn.old.in_transaction ≡ false → conn.new.in_transaction ≡ false }
{
    match find_kept(conn, uid) {
        Ok(kept) => is_done_unless_kept(conn, uid, kept),
        Err(fault) => Err(fault),
    }
}

/// The same of an instance that is there; one that isn't there isn't over.
fn is_past_if<'x, S: Alter>(
    conn: &mut Connection<S>,
    uid: &'x Text,
    there: bool,
) -> Result<bool, LedgerFault>
    ensures looked { (n : ℕ) (part : Part)
        → Looked n part result (state S.Store conn.old) (state S.Store conn.new)
        (λ base past. IsTrue past
        ↔ ((there ≡ true)
        × (IsKeptIn base uid.now → ⊥)
        × (HasOpen base uid.now → ⊥))) }
    ensures idle { conn.old.in_transaction ≡ false → conn.new.in_transaction ≡ false }
{
    if there {
        return is_past(conn, uid);
    }
    Ok(false)
}

/// Whether an instance is over: it is there, isn't kept, and each row of it is done or dropped.
pub fn is_over<'x, S: Alter>(
    conn: &mut Connection<S>,
    alloc: Global,
    uid: &'x Text,
) -> Result<bool, LedgerFault>
    ensures looked { (n : ℕ) (part : Part)
        → Looked n part result (state S.Store conn.old) (state S.Store conn.new)
        (λ base over. IsTrue over ↔ IsOver (book_of base) uid.now) }
    ensures idle { conn.old.in_transaction ≡ false → conn.new.in_transaction ≡ false }
{
    match find_key(conn, alloc, uid) {
        Ok(key) => is_past_if(conn, uid, key.is_some()),
        Err(fault) => Err(fault),
    }
}

/// Forgets an instance, if it is over.
fn forget_if<'x, S: Alter>(
    conn: &mut Connection<S>,
    n: u64,
    moment: Option<u64>,
    uid: &'x Text,
    over: bool,
) -> Result<(), LedgerFault>
    requires idle { conn.old.in_transaction ≡ false }
    ensures called { (part : Part)
        → Called n (advanced result n) part result (state S.Store conn.old) (state S.Store conn.new)
        (λ base. IsTrue over ↔ IsOver (book_of base) uid.now)
        (λ base db. Forgets uid.now (book_of base) result (book_of db)
        × OnlyLetsGo (bodies_of base) (bodies_of db))
        (λ base db. Forgets uid.now (book_of base) (Ok tt) (book_of db)
        × OnlyLetsGo (bodies_of base) (bodies_of db)) }
    ensures number { OnOk result (n ≤ 2 ^ 62) }
    ensures idle { conn.new.in_transaction ≡ false }
{
    if over {
        let change = Forgetting { uid, moment };
        return written(conn, n, &change);
    }
    Err(LedgerFault::NotOver)
}

/// Forgets an instance that is over: it leaves with its arrivals and its rows. Its data set was let
/// go before.
///
/// Errors: NotOver, Store and Memory.
pub fn forget<'x, S: Alter>(
    conn: &mut Connection<S>,
    alloc: Global,
    n: u64,
    moment: Option<u64>,
    uid: &'x Text,
) -> Result<(), LedgerFault>
    requires idle { conn.old.in_transaction ≡ false }
    ensures called { (part : Part)
        → Called n (advanced result n) part result (state S.Store conn.old) (state S.Store conn.new)
        Nothing
        (λ base db. Forgets uid.now (book_of base) result (book_of db)
        × OnlyLetsGo (bodies_of base) (bodies_of db))
        (λ base db. Forgets uid.now (book_of base) (Ok tt) (book_of db)
        × OnlyLetsGo (bodies_of base) (bodies_of db)) }
    ensures number { OnOk result (n ≤ 2 ^ 62) }
    ensures idle { conn.new.in_transaction ≡ false }
{
    match is_over(conn, alloc, uid) {
        Ok(over) => forget_if(conn, n, moment, uid, over),
        Err(fault) => Err(fault),
    }
}
