//! The rows of a journal's lines whose numbers lie in a span, and of where these go on to.
ghost use Rattle.std.specs.Prelude.{◌≡◌, ◌<◌, ◌^◌, IsTrue, T, map as mapped, pos};
ghost use Rattle.std.specs.FinMap.Entries.{is_sorted};
ghost use Rattle.std.specs.Ordering.{nat_cmp};
ghost use Rattle.sqlite.specs.Held.{state};
ghost use Rattle.sqlite.specs.declared.types.Value.TheVariants.{Int};
ghost use Rattle.sqlite_value.specs.Value.{owned};
ghost use Rattle.dr_ledger.specs.Replies.{Reads};
ghost use Rattle.dr_store_schema.specs.Ledgers.{IsLedger};
ghost use Rattle.dr_store_lists.specs.Lists.{shown_note_entry};
ghost use Rattle.dr_store_reads.specs.Queries.{Asked};
ghost use Rattle.dr_store_views.specs.Spans.{AreGoalsWithin, AreNotesWithin, CountsUp};

use dr_base::Text;
use dr_ledger::LedgerFault;
use dr_store_lists::JournalRow;
use dr_store_lists::listing::{goal_keys, note_entries};
use dr_store_reads::queries::ask;
use sqlite::types::ValueRef;
use sqlite::{Alter, Connection, Row};
use std::alloc::Global;

/// A number as a cell; what is over all that a cell can have, as the greatest.
fn number_cell(number: u64) -> ValueRef<'static>
    ensures { number < 2 ^ 63 → owned result ≡ Int (pos number) }
{
    match i64::try_from(number) {
        Ok(number) => ValueRef::Int(number),
        Err(_) => ValueRef::Int(i64::MAX),
    }
}

/// Whether the numbers of the notes follow the one and one another, and none is behind the other.
fn count_up(after: u64, last: u64, notes: &[(u64, JournalRow)]) -> bool
    ensures { IsTrue result → CountsUp after last notes.now }
{
    let mut number = after;
    for note in notes {
        if number >= last {
            return false;
        }
        number += 1;
        if note.0 != number {
            return false;
        }
    }
    true
}

/// The lines of the journal behind one number and up to the other, with their numbers.
///
/// Errors: Store where one is missing between them; those of `ask`.
pub fn notes_behind<S: Alter>(
    conn: &mut Connection<S>,
    alloc: Global,
    after: u64,
    last: u64,
) -> Result<Vec<(u64, JournalRow)>, LedgerFault>
    requires { last < 2 ^ 63 }
    ensures asked { Asked IsLedger result (state S.Store conn.old) (state S.Store conn.new)
        (λ all. AreNotesWithin (state S.Store conn.old).now.trees after last all.items) }
{
    let from = after.min(last);
    let rows = ask(
        conn,
        "SELECT n, kind, caller, uid, dest, outcome, moment, class, syntax, modality, station, length, sha256 FROM journal WHERE n > ?1 AND n <= ?2 ORDER BY n",
        &[number_cell(from), number_cell(last)],
    )?;
    notes_in(alloc, rows.as_slice(), after, last)
}

/// What the rows of an answer say, whose numbers have to count up.
fn notes_in(
    alloc: Global,
    rows: &[Row],
    after: u64,
    last: u64,
) -> Result<Vec<(u64, JournalRow)>, LedgerFault>
    ensures { Reads result (λ all. (all.items ≡ mapped shown_note_entry rows.now)
        × T (is_sorted nat_cmp all.items)
        × CountsUp after last all.items) }
{
    let notes = note_entries(alloc, rows)?;
    if !count_up(after, last, notes.as_slice()) {
        return Err(LedgerFault::Store);
    }
    Ok(notes)
}

/// Where the first arrivals among these lines go on to: the line's number and the destination, or
/// `-` where it is kept; by the number, then in byte order.
pub fn goals_behind<S: Alter>(
    conn: &mut Connection<S>,
    alloc: Global,
    after: u64,
    last: u64,
) -> Result<Vec<(u64, Text)>, LedgerFault>
    requires { last < 2 ^ 63 }
    ensures asked { Asked IsLedger result (state S.Store conn.old) (state S.Store conn.new)
        (λ all. AreGoalsWithin (state S.Store conn.old).now.trees after last all.items) }
{
    let from = after.min(last);
    let rows = ask(
        conn,
        "SELECT n, dest FROM target WHERE n > ?1 AND n <= ?2 ORDER BY n, dest",
        &[number_cell(from), number_cell(last)],
    )?;
    goal_keys(alloc, rows.as_slice())
}
