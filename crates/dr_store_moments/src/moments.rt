//! The moments of all lines.
ghost use Rattle.std.specs.Prelude.{◌≡◌, T, map as mapped};
ghost use Rattle.std.specs.FinMap as map;
ghost use Rattle.std.specs.FinMap.Entries.{is_sorted};
ghost use Rattle.std.specs.Ordering.{nat_cmp};
ghost use Rattle.sqlite.specs.Held.{state};
ghost use Rattle.sqlite.specs.Order.{column};
ghost use Rattle.dr_ledger.specs.Replies.{Reads};
ghost use Rattle.dr_store_schema.specs.Cells.{moment_in};
ghost use Rattle.dr_store_reads.specs.Queries.{Asked, HasTables};
ghost use Rattle.dr_store_moments.specs.Moments.{moments_of, shown_moment};

use dr_ledger::LedgerFault;
use dr_store_lists::listing::rise;
use dr_store_reads::queries::ask;
use dr_store_reads::reading::read_number;
use sqlite::{Alter, Connection, Row};
use std::alloc::Global;

/// The moment in the second column, if there is one.
fn told_in(row: &Row) -> Result<Option<u64>, LedgerFault>
    ensures { Reads result (λ moment. moment ≡ moment_in (column row.now 1)) }
{
    match row.get::<Option<u64>>(1) {
        Ok(moment) => Ok(moment),
        Err(_) => Err(LedgerFault::Store),
    }
}

/// The number of a line, and its moment.
fn read_moment(row: &Row) -> Result<(u64, Option<u64>), LedgerFault>
    ensures { Reads result (λ entry. entry ≡ shown_moment row.now) }
{
    let number = read_number(row, 0)?;
    let moment = told_in(row)?;
    Ok((number, moment))
}

/// What all rows say.
fn read_moments(alloc: Global, rows: &[Row]) -> Result<Vec<(u64, Option<u64>)>, LedgerFault>
    ensures { Reads result (λ all. all.items ≡ mapped shown_moment rows.now) }
{
    let mut all = Vec::new(alloc);
    for row in rows {
        all.push(read_moment(row)?)?;
    }
    Ok(all)
}

/// The same, where the numbers rise.
fn moment_entries(alloc: Global, rows: &[Row]) -> Result<Vec<(u64, Option<u64>)>, LedgerFault>
    ensures { Reads result (λ all.
        (all.items ≡ mapped shown_moment rows.now) × T (is_sorted nat_cmp all.items)) }
{
    let entries = read_moments(alloc, rows)?;
    if !rise(entries.as_slice()) {
        return Err(LedgerFault::Store);
    }
    Ok(entries)
}

/// The moments of the journal's lines (milliseconds since 1970) with their numbers, which rise.
/// There is none where none was told.
pub fn all_moments<S: Alter>(
    conn: &mut Connection<S>,
    alloc: Global,
) -> Result<Vec<(u64, Option<u64>)>, LedgerFault>
    ensures asked { Asked HasTables result (state S.Store conn.old) (state S.Store conn.new)
        (λ all. all.items ≡ map.entries (moments_of (state S.Store conn.old).now.trees)) }
{
    let rows = ask(conn, "SELECT n, moment FROM journal ORDER BY n", &[])?;
    moment_entries(alloc, rows.as_slice())
}
