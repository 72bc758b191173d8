//! Settlings and requeuings.
ghost use Rattle.std.specs.Prelude.{◌≡◌, ◌≤◌, ◌^◌, OnOk, Ok, Some, false};
ghost use Rattle.std.specs.FinMap as map;
ghost use Rattle.sqlite.specs.Held.{state};
ghost use Rattle.dr_site.specs.Parts.{Part};
ghost use Rattle.dr_ledger.specs.Bodies.{OnlyLetsGo};
ghost use Rattle.dr_ledger.specs.Replies.{Requeues, Settles};
ghost use Rattle.dr_store_schema.specs.Books.{bodies_of, book_of, rows_of};
ghost use Rattle.dr_store_calls.specs.Calling.{Called, Nothing, advanced};
ghost use Rattle.dr_store_calls.specs.LettingGo.{GoesWith, plain};

use crate::needs::is_needed;
use crate::writing::{tells, written};
use dr_base::Text;
use dr_ledger::{Cause, LedgerFault, Outcome, Progress, moved};
use dr_store_changes::{Requeuing, Settling};
use dr_store_reads::find_row;
use sqlite::{Alter, Connection};

/// Settles a row that waits, tried as given, and tells whether its data set went.
fn settle_row<'x, S: Alter>(
    conn: &mut Connection<S>,
    n: u64,
    uid: &'x Text,
    dest: &'x Text,
    was: (u32, u64),
    outcome: Outcome,
    now: u64,
) -> Result<bool, LedgerFault>
    requires idle { conn.old.in_transaction ≡ false }
    requires early { now ≤ 2 ^ 62 }
    ensures called { (part : Part)
        → Called n (advanced result n) part result (state S.Store conn.old) (state S.Store conn.new)
        (λ base. map.get (rows_of base) (uid.now, dest.now) ≡ Some (Progress.Waiting was.0 was.1))
        (λ base db. Settles uid.now dest.now outcome now (book_of base) (plain result) (book_of db)
        × GoesWith result uid.now base db)
        (λ base db. Settles uid.now dest.now outcome now (book_of base) (Ok tt) (book_of db)
        × OnlyLetsGo (bodies_of base) (bodies_of db)) }
    ensures number { OnOk result (n ≤ 2 ^ 62) }
    ensures idle { conn.new.in_transaction ≡ false }
{
    let to = moved(was.0, outcome, now);
    match is_needed(conn, uid, dest, to) {
        Ok(needed) => {
            let change = Settling {
                uid,
                dest,
                to,
                outcome,
                now,
                lets_go: !needed,
            };
            let answer = written(conn, n, &change);
            tells(answer, !needed)
        }
        Err(fault) => Err(fault),
    }
}

/// Settles the row that was found, if it waits, and tells whether its data set went.
fn settle_found<'x, S: Alter>(
    conn: &mut Connection<S>,
    n: u64,
    uid: &'x Text,
    dest: &'x Text,
    found: Option<Progress>,
    outcome: Outcome,
    now: u64,
) -> Result<bool, LedgerFault>
    requires idle { conn.old.in_transaction ≡ false }
    requires early { now ≤ 2 ^ 62 }
    ensures called { (part : Part)
        → Called n (advanced result n) part result (state S.Store conn.old) (state S.Store conn.new)
        (λ base. found ≡ map.get (rows_of base) (uid.now, dest.now))
        (λ base db. Settles uid.now dest.now outcome now (book_of base) (plain result) (book_of db)
        × GoesWith result uid.now base db)
        (λ base db. Settles uid.now dest.now outcome now (book_of base) (Ok tt) (book_of db)
        × OnlyLetsGo (bodies_of base) (bodies_of db)) }
    ensures number { OnOk result (n ≤ 2 ^ 62) }
    ensures idle { conn.new.in_transaction ≡ false }
{
    match found {
        Some(Progress::Waiting { tries, due }) => {
            settle_row(conn, n, uid, dest, (tries, due), outcome, now)
        }
        Some(Progress::Held(_)) => Err(LedgerFault::NotWaiting),
        Some(Progress::Done) => Err(LedgerFault::NotWaiting),
        Some(Progress::Dropped) => Err(LedgerFault::NotWaiting),
        None => Err(LedgerFault::NotWaiting),
    }
}

/// Settles a row, if it waits: it is done, waits again or is held. Its data set goes where it is
/// needed no more, and it is told whether it went. Its cell is left on the shelf.
///
/// Errors: NotWaiting, Store and Memory.
pub fn settle_row_of<'x, S: Alter>(
    conn: &mut Connection<S>,
    n: u64,
    uid: &'x Text,
    dest: &'x Text,
    outcome: Outcome,
    now: u64,
) -> Result<bool, LedgerFault>
    requires idle { conn.old.in_transaction ≡ false }
    requires early { now ≤ 2 ^ 62 }
    ensures called { (part : Part)
        → Called n (advanced result n) part result (state S.Store conn.old) (state S.Store conn.new)
        Nothing
        (λ base db. Settles uid.now dest.now outcome now (book_of base) (plain result) (book_of db)
        × GoesWith result uid.now base db)
        (λ base db. Settles uid.now dest.now outcome now (book_of base) (Ok tt) (book_of db)
        × OnlyLetsGo (bodies_of base) (bodies_of db)) }
    ensures number { OnOk result (n ≤ 2 ^ 62) }
    ensures idle { conn.new.in_transaction ≡ false }
{
    match find_row(conn, uid, dest) {
        Ok(found) => settle_found(conn, n, uid, dest, found, outcome, now),
        Err(fault) => Err(fault),
    }
}

/// Lets a held row wait again.
fn requeue_row<'x, S: Alter>(
    conn: &mut Connection<S>,
    n: u64,
    moment: Option<u64>,
    uid: &'x Text,
    dest: &'x Text,
    why: Cause,
) -> Result<(), LedgerFault>
    requires idle { conn.old.in_transaction ≡ false }
    ensures called { (part : Part)
        → Called n (advanced result n) part result (state S.Store conn.old) (state S.Store conn.new)
        (λ base. map.get (rows_of base) (uid.now, dest.now) ≡ Some (Progress.Held why))
        (λ base db. Requeues uid.now dest.now (book_of base) result (book_of db)
        × OnlyLetsGo (bodies_of base) (bodies_of db))
        (λ base db. Requeues uid.now dest.now (book_of base) (Ok tt) (book_of db)
        × OnlyLetsGo (bodies_of base) (bodies_of db)) }
    ensures number { OnOk result (n ≤ 2 ^ 62) }
    ensures idle { conn.new.in_transaction ≡ false }
{
    let change = Requeuing {
        uid,
        dest,
        to: Progress::Waiting { tries: 0, due: 0 },
        moment,
    };
    written(conn, n, &change)
}

/// Lets the row that was found wait again, if it is held.
fn requeue_found<'x, S: Alter>(
    conn: &mut Connection<S>,
    n: u64,
    moment: Option<u64>,
    uid: &'x Text,
    dest: &'x Text,
    found: Option<Progress>,
) -> Result<(), LedgerFault>
    requires idle { conn.old.in_transaction ≡ false }
    ensures called { (part : Part)
        → Called n (advanced result n) part result (state S.Store conn.old) (state S.Store conn.new)
        (λ base. found ≡ map.get (rows_of base) (uid.now, dest.now))
        (λ base db. Requeues uid.now dest.now (book_of base) result (book_of db)
        × OnlyLetsGo (bodies_of base) (bodies_of db))
        (λ base db. Requeues uid.now dest.now (book_of base) (Ok tt) (book_of db)
        × OnlyLetsGo (bodies_of base) (bodies_of db)) }
    ensures number { OnOk result (n ≤ 2 ^ 62) }
    ensures idle { conn.new.in_transaction ≡ false }
{
    match found {
        Some(Progress::Held(why)) => requeue_row(conn, n, moment, uid, dest, why),
        Some(Progress::Waiting { .. }) => Err(LedgerFault::NotHeld),
        Some(Progress::Done) => Err(LedgerFault::NotHeld),
        Some(Progress::Dropped) => Err(LedgerFault::NotHeld),
        None => Err(LedgerFault::NotHeld),
    }
}

/// Queues a row again, if it is held: it waits, untried, from the moment 0 on.
///
/// Errors: NotHeld, Store and Memory.
pub fn requeue<'x, S: Alter>(
    conn: &mut Connection<S>,
    n: u64,
    moment: Option<u64>,
    uid: &'x Text,
    dest: &'x Text,
) -> Result<(), LedgerFault>
    requires idle { conn.old.in_transaction ≡ false }
    ensures called { (part : Part)
        → Called n (advanced result n) part result (state S.Store conn.old) (state S.Store conn.new)
        Nothing
        (λ base db. Requeues uid.now dest.now (book_of base) result (book_of db)
        × OnlyLetsGo (bodies_of base) (bodies_of db))
        (λ base db. Requeues uid.now dest.now (book_of base) (Ok tt) (book_of db)
        × OnlyLetsGo (bodies_of base) (bodies_of db)) }
    ensures number { OnOk result (n ≤ 2 ^ 62) }
    ensures idle { conn.new.in_transaction ≡ false }
{
    match find_row(conn, uid, dest) {
        Ok(found) => requeue_found(conn, n, moment, uid, dest, found),
        Err(fault) => Err(fault),
    }
}
