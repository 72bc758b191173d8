//! Statements of a transaction, of which only the commit may leave something.
ghost use Rattle.std.specs.Prelude.{◌≡◌, ℕ, IfOk, Ok, OnOk};
ghost use Rattle.sqlite.specs.Held.{state};
ghost use Rattle.sqlite.specs.State.{ExecutesInside, HasCleanDisk, Shown};
ghost use Rattle.sqlite.specs.Values.{bound};
ghost use Rattle.dr_store_writes.specs.Effects.{CommitsNothing};
ghost use Rattle.dr_store_open.specs.Renewing.{IsAnswer, OnlyAsks};

use crate::alike::are_rows;
use crate::fault::{OpeningFault, opening_fault};
use dr_store_reads::fault_of;
use sqlite::types::ValueRef;
use sqlite::{Alter, Row, Transaction};
use std::alloc::Global;

/// The answer of a query.
pub fn ask_within<S: Alter>(
    tx: &mut Transaction<'_, S>,
    sql: &str,
    params: &[ValueRef<'_>],
) -> Result<Vec<Row>, OpeningFault>
    ensures same_reference { tx.new.conn.ghost_name ≡ tx.old.conn.ghost_name }
    ensures survives { CommitsNothing (state S.Store tx.old.conn.now)
        (state S.Store tx.new.conn.now) }
    ensures shown { HasCleanDisk (state S.Store tx.new.conn.now)
        → IfOk result (λ rows. Shown sql.now (bound params.now) (state S.Store tx.old.conn.now)
        (state S.Store tx.new.conn.now) rows.items) }
{
    match tx.query_all(sql, params) {
        Ok(rows) => Ok(rows),
        Err(error) => Err(opening_fault(fault_of(&error))),
    }
}

/// The answer of a query without parameters, which changes nothing.
pub fn ask_rows<S: Alter>(tx: &mut Transaction<'_, S>, sql: &str) -> Result<Vec<Row>, OpeningFault>
    ensures same_reference { tx.new.conn.ghost_name ≡ tx.old.conn.ghost_name }
    ensures survives { CommitsNothing (state S.Store tx.old.conn.now)
        (state S.Store tx.new.conn.now) }
    ensures answer { HasCleanDisk (state S.Store tx.new.conn.now)
        → OnlyAsks sql.now
        → IfOk result (λ rows. IsAnswer sql.now (state S.Store tx.old.conn.now).now rows.items
        × ((state S.Store tx.new.conn.now).now ≡ (state S.Store tx.old.conn.now).now)) }
{
    ask_within(tx, sql, &[])
}

/// Tests that a query without parameters answers just these rows.
pub fn test_rows<S: Alter>(
    tx: &mut Transaction<'_, S>,
    sql: &str,
    rows: &[Row],
) -> Result<(), OpeningFault>
    ensures same_reference { tx.new.conn.ghost_name ≡ tx.old.conn.ghost_name }
    ensures survives { CommitsNothing (state S.Store tx.old.conn.now)
        (state S.Store tx.new.conn.now) }
    ensures answer { HasCleanDisk (state S.Store tx.new.conn.now)
        → OnlyAsks sql.now
        → OnOk result
        (IsAnswer sql.now (state S.Store tx.old.conn.now).now rows.now
        × ((state S.Store tx.new.conn.now).now ≡ (state S.Store tx.old.conn.now).now)) }
{
    let there = ask_rows(tx, sql)?;
    if !are_rows(there.as_slice(), rows) {
        return Err(OpeningFault::OtherSite);
    }
    Ok(())
}

/// Runs a statement.
pub fn run_within<S: Alter>(
    tx: &mut Transaction<'_, S>,
    sql: &str,
    params: &[ValueRef<'_>],
) -> Result<(), OpeningFault>
    ensures same_reference { tx.new.conn.ghost_name ≡ tx.old.conn.ghost_name }
    ensures survives { CommitsNothing (state S.Store tx.old.conn.now)
        (state S.Store tx.new.conn.now) }
    ensures runs { HasCleanDisk (state S.Store tx.new.conn.now)
        → OnOk result ((count : ℕ) × ExecutesInside 0 sql.now (bound params.now)
        (state S.Store tx.old.conn.now) (state S.Store tx.new.conn.now) (Ok count)) }
{
    match tx.execute(sql, params) {
        Ok(_) => Ok(()),
        Err(error) => Err(opening_fault(fault_of(&error))),
    }
}

/// Runs these statements, in their order.
pub fn run_texts<S: Alter>(tx: &mut Transaction<'_, S>, texts: &[&str]) -> Result<(), OpeningFault>
    ensures same_reference { tx.new.conn.ghost_name ≡ tx.old.conn.ghost_name }
    ensures survives { CommitsNothing (state S.Store tx.old.conn.now)
        (state S.Store tx.new.conn.now) }
{
    for text in texts {
        run_within(tx, text, &[])?;
    }
    Ok(())
}

/// The cells of a row.
pub fn cells_of(alloc: Global, row: &Row) -> Result<Vec<ValueRef<'_>>, OpeningFault> {
    let mut cells = Vec::new(alloc);
    for at in 0..row.column_count() {
        match row.get_ref(at) {
            Ok(cell) => cells.push(cell)?,
            Err(_) => return Err(OpeningFault::Store),
        }
    }
    Ok(cells)
}

/// Adds a row with just the cells of this one.
fn add_row<S: Alter>(
    tx: &mut Transaction<'_, S>,
    alloc: Global,
    sql: &str,
    row: &Row,
) -> Result<(), OpeningFault>
    ensures same_reference { tx.new.conn.ghost_name ≡ tx.old.conn.ghost_name }
    ensures survives { CommitsNothing (state S.Store tx.old.conn.now)
        (state S.Store tx.new.conn.now) }
{
    let cells = cells_of(alloc, row)?;
    run_within(tx, sql, cells.as_slice())
}

/// Adds rows with just the cells of these.
pub fn add_rows<S: Alter>(
    tx: &mut Transaction<'_, S>,
    alloc: Global,
    sql: &str,
    rows: &[Row],
) -> Result<(), OpeningFault>
    ensures same_reference { tx.new.conn.ghost_name ≡ tx.old.conn.ghost_name }
    ensures survives { CommitsNothing (state S.Store tx.old.conn.now)
        (state S.Store tx.new.conn.now) }
{
    for row in rows {
        add_row(tx, alloc, sql, row)?;
    }
    Ok(())
}
