//! Tests of the rows that were found.
ghost use Rattle.sqlite.specs.Held.{state};
ghost use Rattle.std.specs.List.{AllByRecursion};
ghost use Rattle.dr_store_schema.specs.Ledgers.{AreRows, IsCounted};
ghost use Rattle.dr_store_reads.specs.Queries.{Asked, HasTables};
ghost use Rattle.dr_store_open.specs.Opening.{AreTested};

use dr_ledger::LedgerFault;
use dr_store_lists::{
    test_arrival_rowids, test_counts, test_item_rowids, test_print_rowids, test_queue_rowids,
};
use sqlite::{Alter, Connection};
use std::alloc::Global;

/// Tests the rowids of queue, and its numbers.
fn test_queue<S: Alter>(conn: &mut Connection<S>, alloc: Global) -> Result<(), LedgerFault>
    ensures asked { Asked HasTables result (state S.Store conn.old) (state S.Store conn.new)
        (λ done. AreRows ((state S.Store conn.old).now.trees 9)
        × AllByRecursion IsCounted ((state S.Store conn.old).now.trees 9)) }
{
    match test_queue_rowids(conn, alloc) {
        Ok(()) => test_counts(conn),
        Err(fault) => Err(fault),
    }
}

/// Tests the rowids of arrival, and what is tested of queue.
fn test_moving<S: Alter>(conn: &mut Connection<S>, alloc: Global) -> Result<(), LedgerFault>
    ensures asked { Asked HasTables result (state S.Store conn.old) (state S.Store conn.new)
        (λ done. AreRows ((state S.Store conn.old).now.trees 5)
        × (AreRows ((state S.Store conn.old).now.trees 9)
        × AllByRecursion IsCounted ((state S.Store conn.old).now.trees 9))) }
{
    match test_arrival_rowids(conn, alloc) {
        Ok(()) => test_queue(conn, alloc),
        Err(fault) => Err(fault),
    }
}

/// Tests the rowids of print, and so on.
fn test_changing<S: Alter>(conn: &mut Connection<S>, alloc: Global) -> Result<(), LedgerFault>
    ensures asked { Asked HasTables result (state S.Store conn.old) (state S.Store conn.new)
        (λ done. AreRows ((state S.Store conn.old).now.trees 3)
        × (AreRows ((state S.Store conn.old).now.trees 5)
        × (AreRows ((state S.Store conn.old).now.trees 9)
        × AllByRecursion IsCounted ((state S.Store conn.old).now.trees 9)))) }
{
    match test_print_rowids(conn, alloc) {
        Ok(()) => test_moving(conn, alloc),
        Err(fault) => Err(fault),
    }
}

/// Tests the rows of all tables whose rows change or leave.
pub fn test_tables<S: Alter>(conn: &mut Connection<S>, alloc: Global) -> Result<(), LedgerFault>
    ensures asked { Asked HasTables result (state S.Store conn.old) (state S.Store conn.new)
        (λ done. AreTested (state S.Store conn.old).now.trees) }
{
    match test_item_rowids(conn, alloc) {
        Ok(()) => test_changing(conn, alloc),
        Err(fault) => Err(fault),
    }
}
