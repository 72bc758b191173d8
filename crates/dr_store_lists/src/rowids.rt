//! Rowids and numbers, as a ledger's tables have them: what is tested of tables that were found.
ghost use Rattle.std.specs.Prelude.{◌≡◌, ◌≤◌, ℤ, List, IfSome, IsTrue, T, map as mapped};
ghost use Rattle.std.specs.FinMap.Entries.{is_sorted};
ghost use Rattle.std.specs.List.{AllByRecursion};
ghost use Rattle.std.specs.Ordering.{int_cmp};
ghost use Rattle.sqlite.specs.declared.types.Value.TheVariants.{Int};
ghost use Rattle.sqlite.specs.Held.{state};
ghost use Rattle.sqlite.specs.Order.{column};
ghost use Rattle.dr_ledger.specs.Replies.{Reads};
ghost use Rattle.dr_store_schema.specs.Books.{AreBelow};
ghost use Rattle.dr_store_schema.specs.Ledgers.{AreRows, IsCounted};
ghost use Rattle.dr_store_reads.specs.Queries.{Asked, HasTables, IsCountedAsShown, IsNumberedBelow};

use crate::listing::rise;
use dr_ledger::LedgerFault;
use dr_store_reads::queries::ask;
use dr_store_reads::reading::read_number;
use sqlite::{Alter, Connection, Row};
use std::alloc::Global;

fn read_rowid(row: &Row) -> Option<i64>
    ensures { IfSome result (λ n. column row.now 0 ≡ Int n) }
{
    row.get(0).ok()
}

fn read_rowids(alloc: Global, rows: &[Row]) -> Result<Vec<(i64, ())>, LedgerFault>
    ensures { Reads result (λ all.
        mapped (λ e. Int e.0) all.items ≡ mapped (λ r. column r 0) rows.now) }
{
    let mut ids = Vec::new(alloc);
    for row in rows {
        let Some(id) = read_rowid(row) else {
            return Err(LedgerFault::Store);
        };
        ids.push((id, ()))?;
    }
    Ok(ids)
}

fn test_rowids(alloc: Global, rows: &[Row]) -> Result<(), LedgerFault>
    ensures { Reads result (λ done. (ids : List (ℤ × Unit {0}))
        × (mapped (λ e. Int e.0) ids ≡ mapped (λ r. column r 0) rows.now)
        × T (is_sorted int_cmp ids)) }
{
    let ids = read_rowids(alloc, rows)?;
    if !rise(ids.as_slice()) {
        return Err(LedgerFault::Store);
    }
    Ok(())
}

/// Tests that no rowid of item stands twice.
pub fn test_item_rowids<S: Alter>(
    conn: &mut Connection<S>,
    alloc: Global,
) -> Result<(), LedgerFault>
    ensures asked { Asked HasTables result (state S.Store conn.old) (state S.Store conn.new)
        (λ done. AreRows ((state S.Store conn.old).now.trees 1)) }
{
    let rows = ask(conn, "SELECT rowid FROM item ORDER BY rowid", &[])?;
    test_rowids(alloc, rows.as_slice())
}

/// Tests that no rowid of print stands twice.
pub fn test_print_rowids<S: Alter>(
    conn: &mut Connection<S>,
    alloc: Global,
) -> Result<(), LedgerFault>
    ensures asked { Asked HasTables result (state S.Store conn.old) (state S.Store conn.new)
        (λ done. AreRows ((state S.Store conn.old).now.trees 3)) }
{
    let rows = ask(conn, "SELECT rowid FROM print ORDER BY rowid", &[])?;
    test_rowids(alloc, rows.as_slice())
}

/// Tests that no rowid of arrival stands twice.
pub fn test_arrival_rowids<S: Alter>(
    conn: &mut Connection<S>,
    alloc: Global,
) -> Result<(), LedgerFault>
    ensures asked { Asked HasTables result (state S.Store conn.old) (state S.Store conn.new)
        (λ done. AreRows ((state S.Store conn.old).now.trees 5)) }
{
    let rows = ask(conn, "SELECT rowid FROM arrival ORDER BY rowid", &[])?;
    test_rowids(alloc, rows.as_slice())
}

/// Tests that no rowid of queue stands twice.
pub fn test_queue_rowids<S: Alter>(
    conn: &mut Connection<S>,
    alloc: Global,
) -> Result<(), LedgerFault>
    ensures asked { Asked HasTables result (state S.Store conn.old) (state S.Store conn.new)
        (λ done. AreRows ((state S.Store conn.old).now.trees 9)) }
{
    let rows = ask(conn, "SELECT rowid FROM queue ORDER BY rowid", &[])?;
    test_rowids(alloc, rows.as_slice())
}

// ---- the numbers in queue

/// Whether a state is one of the four, and the moment when the row is due has 63 bits.
fn is_counted(row: &Row) -> bool
    ensures { IsTrue result → IsCountedAsShown row.now }
{
    let Some(state) = row.get::<u64>(0).ok() else {
        return false;
    };
    let Some(due) = row.get::<u64>(1).ok() else {
        return false;
    };
    state < 4 && due < 9_223_372_036_854_775_808
}

fn are_counted(rows: &[Row]) -> bool
    ensures { IsTrue result → AllByRecursion IsCountedAsShown rows.now }
{
    for row in rows {
        if !is_counted(row) {
            return false;
        }
    }
    true
}

/// Tests that the numbers in queue are a ledger's.
pub fn test_counts<S: Alter>(conn: &mut Connection<S>) -> Result<(), LedgerFault>
    ensures asked { Asked HasTables result (state S.Store conn.old) (state S.Store conn.new)
        (λ done. AllByRecursion IsCounted ((state S.Store conn.old).now.trees 9)) }
{
    let rows = ask(conn, "SELECT state, due FROM queue", &[])?;
    if !are_counted(rows.as_slice()) {
        return Err(LedgerFault::Store);
    }
    Ok(())
}

// ---- the lines' numbers

fn is_below(row: &Row, next: u64) -> bool
    ensures { IsTrue result → IsNumberedBelow next row.now }
{
    let Some(number) = row.get::<u64>(0).ok() else {
        return false;
    };
    number < next
}

fn are_below(rows: &[Row], next: u64) -> bool
    ensures { IsTrue result → AllByRecursion (IsNumberedBelow next) rows.now }
{
    for row in rows {
        if !is_below(row, next) {
            return false;
        }
    }
    true
}

/// One more than the last number.
fn number_after(rows: &[Row]) -> Result<u64, LedgerFault>
    ensures { Reads result (λ next. (1 ≤ next) × AllByRecursion (IsNumberedBelow next) rows.now) }
{
    let Some(row) = rows.last() else {
        return Ok(1);
    };
    let last = read_number(row, 0)?;
    let Some(next) = last.checked_add(1) else {
        return Err(LedgerFault::Store);
    };
    if !are_below(rows, next) {
        return Err(LedgerFault::Store);
    }
    Ok(next)
}

/// The number of the journal's next line: each line has a lower one. The first is 1.
pub fn next_number<S: Alter>(conn: &mut Connection<S>) -> Result<u64, LedgerFault>
    ensures asked { Asked HasTables result (state S.Store conn.old) (state S.Store conn.new)
        (λ next. (1 ≤ next) × AreBelow next ((state S.Store conn.old).now.trees 11)) }
{
    let rows = ask(conn, "SELECT rowid FROM journal ORDER BY rowid", &[])?;
    number_after(rows.as_slice())
}
