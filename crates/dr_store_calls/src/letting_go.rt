//! Settlings and droppings, after which the cell of a data set that went is let go.
ghost use Rattle.std.specs.Prelude.{◌≡◌, ◌≤◌, ◌^◌, ℕ, Ok, OnErr, OnOk, false};
ghost use Rattle.sqlite.specs.Held.{state};
ghost use Rattle.dr_site.specs.Parts.{Part};
ghost use Rattle.dr_ledger.specs.Bodies.{OnlyLetsGo};
ghost use Rattle.dr_ledger.specs.Replies.{Drops, Settles};
ghost use Rattle.dr_store_schema.specs.Books.{bodies_of, book_of};
ghost use Rattle.dr_store_shelf.specs.Shelves.{ReadsAsBefore};
ghost use Rattle.dr_store_calls.specs.Calling.{Called, Looked, Nothing, advanced};
ghost use Rattle.dr_store_calls.specs.LettingGo.{IsCellOf, IsGone, KeepsApart, LeavesCells};
ghost use Rattle.dr_store_calls.specs.LettingGo.{LetsCellsGo, plain};

use crate::dropping::drop_row_of;
use crate::settling::settle_row_of;
use dr_base::Text;
use dr_ledger::{Job, LedgerFault, Outcome};
use dr_store_reads::find_job;
use dr_store_shelf::Shelf;
use sqlite::{Alter, Connection};
use std::alloc::Global;

/// A row of the queue: an instance and a destination.
#[derive(Clone, Copy)]
pub struct RowAt<'x> {
    pub uid: &'x Text,
    pub dest: &'x Text,
}

/// The instance of this uid with its cell, where the shelf's cells name places. Where they name
/// none, nothing is asked.
fn find_cell<S: Alter, B: Shelf>(
    conn: &mut Connection<S>,
    shelf: &B,
    alloc: Global,
    uid: &Text,
) -> Result<Option<Job>, LedgerFault>
    ensures looked { (n : ℕ) (part : Part)
        → Looked n part result (state S.Store conn.old) (state S.Store conn.new)
        (λ base found. IsCellOf (B.Shelf.apart (B.Shelf.named shelf.now)) uid.now base found) }
    ensures idle { conn.old.in_transaction ≡ false → conn.new.in_transaction ≡ false }
{
    if shelf.names_places() {
        return find_job(conn, alloc, uid);
    }
    Ok(None)
}

/// Lets the cell of this instance go, if there is one.
fn let_go_of<B: Shelf>(shelf: &mut B, found: Option<Job>)
    ensures gone { IsGone (B.Shelf.apart (B.Shelf.named shelf.old)) (B.Shelf.uses shelf.new) found }
    ensures keeps { KeepsApart (B.Shelf.apart (B.Shelf.named shelf.old)) (B.Shelf.uses shelf.old)
        (B.Shelf.stands shelf.old) (B.Shelf.uses shelf.new) (B.Shelf.stands shelf.new) found }
    ensures reads { B.Shelf.is_clean shelf.new
        → ReadsAsBefore (B.Shelf.uses shelf.old) (B.Shelf.read_of shelf.old)
        (B.Shelf.read_of shelf.new) }
    ensures named { B.Shelf.named shelf.new ≡ B.Shelf.named shelf.old }
    ensures clean { B.Shelf.is_clean shelf.new → B.Shelf.is_clean shelf.old }
{
    match found {
        Some(job) => shelf.let_go(job.body.as_bytes()),
        None => {}
    }
}

/// Lets the cell of an instance go whose data set went, as the answer to the call tells. That was
/// committed: after a commit that failed a row may have the cell still.
fn let_go_gone<B: Shelf>(
    shelf: &mut B,
    found: Option<Job>,
    answer: Result<bool, LedgerFault>,
) -> Result<(), LedgerFault>
    ensures plain { result ≡ plain answer }
    ensures left { LeavesCells (B.Shelf.apart (B.Shelf.named shelf.old)) (B.Shelf.uses shelf.old)
        (B.Shelf.stands shelf.old) (B.Shelf.uses shelf.new) (B.Shelf.stands shelf.new) found
        answer }
    ensures same { OnErr result (shelf.new ≡ shelf.old) }
    ensures reads { B.Shelf.is_clean shelf.new
        → ReadsAsBefore (B.Shelf.uses shelf.old) (B.Shelf.read_of shelf.old)
        (B.Shelf.read_of shelf.new) }
    ensures named { B.Shelf.named shelf.new ≡ B.Shelf.named shelf.old }
    ensures clean { B.Shelf.is_clean shelf.new → B.Shelf.is_clean shelf.old }
{
    match answer {
        Ok(true) => {
            let_go_of(shelf, found);
            Ok(())
        }
        Ok(false) => Ok(()),
        Err(fault) => Err(fault),
    }
}

/// Settles a row, if it waits: it is done, waits again or is held. Its data set goes where it is
/// needed no more, and then its cell is let go. Where the call fails, the shelf stays as it is.
///
/// Errors: NotWaiting, Store and Memory.
pub fn settle<S: Alter, B: Shelf>(
    conn: &mut Connection<S>,
    shelf: &mut B,
    alloc: Global,
    n: u64,
    at: &RowAt<'_>,
    outcome: Outcome,
    now: u64,
) -> Result<(), LedgerFault>
    requires idle { conn.old.in_transaction ≡ false }
    requires early { now ≤ 2 ^ 62 }
    ensures called { (part : Part)
        → Called n (advanced result n) part result (state S.Store conn.old) (state S.Store conn.new)
        Nothing
        (λ base db.
        Settles at.now.uid.now at.now.dest.now outcome now (book_of base) result (book_of db)
        × LetsCellsGo (B.Shelf.apart (B.Shelf.named shelf.old)) (B.Shelf.uses shelf.old)
        (B.Shelf.stands shelf.old) (B.Shelf.uses shelf.new) (B.Shelf.stands shelf.new) base db)
        (λ base db.
        Settles at.now.uid.now at.now.dest.now outcome now (book_of base) (Ok tt) (book_of db)
        × OnlyLetsGo (bodies_of base) (bodies_of db)) }
    ensures same { OnErr result (shelf.new ≡ shelf.old) }
    ensures reads { B.Shelf.is_clean shelf.new
        → ReadsAsBefore (B.Shelf.uses shelf.old) (B.Shelf.read_of shelf.old)
        (B.Shelf.read_of shelf.new) }
    ensures named { B.Shelf.named shelf.new ≡ B.Shelf.named shelf.old }
    ensures clean { B.Shelf.is_clean shelf.new → B.Shelf.is_clean shelf.old }
    ensures number { OnOk result (n ≤ 2 ^ 62) }
    ensures idle { conn.new.in_transaction ≡ false }
{
    match find_cell(conn, shelf, alloc, at.uid) {
        Ok(found) => {
            let answer = settle_row_of(conn, n, at.uid, at.dest, outcome, now);
            let_go_gone(shelf, found, answer)
        }
        Err(fault) => Err(fault),
    }
}

/// Drops a row at the moment `now` (milliseconds), if it is held: it is over, and is never sent.
/// The arrivals of its instance are no longer noted. Its data set goes where it is needed no more,
/// and then its cell is let go. Where the call fails, the shelf stays as it is.
///
/// Errors: NotHeld, Store and Memory.
pub fn give_up<S: Alter, B: Shelf>(
    conn: &mut Connection<S>,
    shelf: &mut B,
    alloc: Global,
    n: u64,
    at: &RowAt<'_>,
    now: u64,
) -> Result<(), LedgerFault>
    requires idle { conn.old.in_transaction ≡ false }
    requires early { now ≤ 2 ^ 62 }
    ensures called { (part : Part)
        → Called n (advanced result n) part result (state S.Store conn.old) (state S.Store conn.new)
        Nothing
        (λ base db. Drops at.now.uid.now at.now.dest.now now (book_of base) result (book_of db)
        × LetsCellsGo (B.Shelf.apart (B.Shelf.named shelf.old)) (B.Shelf.uses shelf.old)
        (B.Shelf.stands shelf.old) (B.Shelf.uses shelf.new) (B.Shelf.stands shelf.new) base db)
        (λ base db. Drops at.now.uid.now at.now.dest.now now (book_of base) (Ok tt) (book_of db)
        × OnlyLetsGo (bodies_of base) (bodies_of db)) }
    ensures same { OnErr result (shelf.new ≡ shelf.old) }
    ensures reads { B.Shelf.is_clean shelf.new
        → ReadsAsBefore (B.Shelf.uses shelf.old) (B.Shelf.read_of shelf.old)
        (B.Shelf.read_of shelf.new) }
    ensures named { B.Shelf.named shelf.new ≡ B.Shelf.named shelf.old }
    ensures clean { B.Shelf.is_clean shelf.new → B.Shelf.is_clean shelf.old }
    ensures number { OnOk result (n ≤ 2 ^ 62) }
    ensures idle { conn.new.in_transaction ≡ false }
{
    match find_cell(conn, shelf, alloc, at.uid) {
        Ok(found) => {
            let answer = drop_row_of(conn, n, at.uid, at.dest, now);
            let_go_gone(shelf, found, answer)
        }
        Err(fault) => Err(fault),
    }
}
