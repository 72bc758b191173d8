//! Droppings.
ghost use Rattle.std.specs.Prelude.{◌≡◌, ◌≤◌, ◌^◌, OnOk, Ok, Some, false};
ghost use Rattle.std.specs.FinMap as map;
ghost use Rattle.sqlite.specs.Held.{state};
ghost use Rattle.dr_site.specs.Parts.{Part};
ghost use Rattle.dr_ledger.specs.Bodies.{OnlyLetsGo};
ghost use Rattle.dr_ledger.specs.Replies.{Drops};
ghost use Rattle.dr_store_schema.specs.Books.{bodies_of, book_of, rows_of};
ghost use Rattle.dr_store_calls.specs.Calling.{Called, Nothing, advanced};
ghost use Rattle.dr_store_calls.specs.LettingGo.{GoesWith, plain};

use crate::needs::is_needed;
use crate::writing::{tells, written};
use dr_base::Text;
use dr_ledger::{Cause, LedgerFault, Progress};
use dr_store_changes::Dropping;
use dr_store_reads::find_row;
use sqlite::{Alter, Connection};

/// Drops a held row, and tells whether its data set went.
fn drop_row<'x, S: Alter>(
    conn: &mut Connection<S>,
    n: u64,
    uid: &'x Text,
    dest: &'x Text,
    why: Cause,
    now: u64,
) -> Result<bool, LedgerFault>
    requires idle { conn.old.in_transaction ≡ false }
    requires early { now ≤ 2 ^ 62 }
    ensures called { (part : Part)
        → Called n (advanced result n) part result (state S.Store conn.old) (state S.Store conn.new)
        (λ base. map.get (rows_of base) (uid.now, dest.now) ≡ Some (Progress.Held why))
        (λ base db. Drops uid.now dest.now now (book_of base) (plain result) (book_of db)
        × GoesWith result uid.now base db)
        (λ base db. Drops uid.now dest.now now (book_of base) (Ok tt) (book_of db)
        × OnlyLetsGo (bodies_of base) (bodies_of db)) }
    ensures number { OnOk result (n ≤ 2 ^ 62) }
    ensures idle { conn.new.in_transaction ≡ false }
{
    match is_needed(conn, uid, dest, Progress::Dropped) {
        Ok(needed) => {
            let change = Dropping {
                uid,
                dest,
                now,
                lets_go: !needed,
            };
            let answer = written(conn, n, &change);
            tells(answer, !needed)
        }
        Err(fault) => Err(fault),
    }
}

/// Drops the row that was found, if it is held, and tells whether its data set went.
fn drop_found<'x, S: Alter>(
    conn: &mut Connection<S>,
    n: u64,
    uid: &'x Text,
    dest: &'x Text,
    found: Option<Progress>,
    now: u64,
) -> Result<bool, LedgerFault>
    requires idle { conn.old.in_transaction ≡ false }
    requires early { now ≤ 2 ^ 62 }
    ensures called { (part : Part)
        → Called n (advanced result n) part result (state S.Store conn.old) (state S.Store conn.new)
        (λ base. found ≡ map.get (rows_of base) (uid.now, dest.now))
        (λ base db. Drops uid.now dest.now now (book_of base) (plain result) (book_of db)
        × GoesWith result uid.now base db)
        (λ base db. Drops uid.now dest.now now (book_of base) (Ok tt) (book_of db)
        × OnlyLetsGo (bodies_of base) (bodies_of db)) }
    ensures number { OnOk result (n ≤ 2 ^ 62) }
    ensures idle { conn.new.in_transaction ≡ false }
{
    match found {
        Some(Progress::Held(why)) => drop_row(conn, n, uid, dest, why, now),
        Some(Progress::Waiting { .. }) => Err(LedgerFault::NotHeld),
        Some(Progress::Done) => Err(LedgerFault::NotHeld),
        Some(Progress::Dropped) => Err(LedgerFault::NotHeld),
        None => Err(LedgerFault::NotHeld),
    }
}

/// Drops a row at the moment `now` (milliseconds), if it is held: it is over, and is never sent.
/// The arrivals of its instance are no longer noted, and its data set goes where it is needed no
/// more. It is told whether it went; its cell is left on the shelf.
///
/// Errors: NotHeld, Store and Memory.
pub fn drop_row_of<'x, S: Alter>(
    conn: &mut Connection<S>,
    n: u64,
    uid: &'x Text,
    dest: &'x Text,
    now: u64,
) -> Result<bool, LedgerFault>
    requires idle { conn.old.in_transaction ≡ false }
    requires early { now ≤ 2 ^ 62 }
    ensures called { (part : Part)
        → Called n (advanced result n) part result (state S.Store conn.old) (state S.Store conn.new)
        Nothing
        (λ base db. Drops uid.now dest.now now (book_of base) (plain result) (book_of db)
        × GoesWith result uid.now base db)
        (λ base db. Drops uid.now dest.now now (book_of base) (Ok tt) (book_of db)
        × OnlyLetsGo (bodies_of base) (bodies_of db)) }
    ensures number { OnOk result (n ≤ 2 ^ 62) }
    ensures idle { conn.new.in_transaction ≡ false }
{
    match find_row(conn, uid, dest) {
        Ok(found) => drop_found(conn, n, uid, dest, found, now),
        Err(fault) => Err(fault),
    }
}
