//! Counts, and the first moment.
ghost use Rattle.std.specs.Prelude.{◌≡◌, Some, pos};
ghost use Rattle.std.specs.FinMap as map;
ghost use Rattle.std.specs.FinSet as set;
ghost use Rattle.sqlite.specs.Held.{state};
ghost use Rattle.sqlite.specs.declared.types.Value.TheVariants.{Int};
ghost use Rattle.sqlite_value.specs.Value.{owned};
ghost use Rattle.dr_ledger.specs.Replies.{Reads};
ghost use Rattle.dr_ledger_views.specs.Views.{IsLeast, dues, how_many, number_of};
ghost use Rattle.dr_store_schema.specs.Books.{all_kept_in, arrivals_in, rows_of};
ghost use Rattle.dr_store_schema.specs.Ledgers.{IsLedger};
ghost use Rattle.dr_store_reads.specs.Queries.{Asked, HasTables};
ghost use Rattle.dr_store_views.specs.Answers.{IsCount, IsMoment};

use dr_base::Text;
use dr_ledger::LedgerFault;
use dr_ledger_views::Stage;
use dr_store_lists::all_kept;
use dr_store_reads::queries::ask;
use dr_store_reads::reading::read_number;
use sqlite::types::ValueRef;
use sqlite::{Alter, Connection, Row};
use std::alloc::Global;

/// The database stops to count here.
const MOST: u64 = i64::MAX as u64;

/// The number of the first row.
fn first_count(rows: &[Row]) -> Result<u64, LedgerFault>
    ensures { Reads result (IsCount rows.now) }
{
    let Some(row) = rows.first() else {
        return Err(LedgerFault::Store);
    };
    let count = read_number(row, 0)?;
    if count >= MOST {
        return Err(LedgerFault::Store);
    }
    Ok(count)
}

/// The same, if there is a row.
fn moment_in(rows: &[Row]) -> Result<Option<u64>, LedgerFault>
    ensures { Reads result (IsMoment rows.now) }
{
    let Some(row) = rows.first() else {
        return Ok(None);
    };
    let due = read_number(row, 0)?;
    Ok(Some(due))
}

/// The state of rows that are at the stage.
pub(crate) fn state_cell(stage: Stage) -> ValueRef<'static>
    ensures { owned result ≡ Int (pos (number_of stage)) }
{
    match stage {
        Stage::Waiting => ValueRef::Int(0),
        Stage::Held => ValueRef::Int(1),
        Stage::Done => ValueRef::Int(2),
        Stage::Dropped => ValueRef::Int(3),
    }
}

/// How many arrivals are noted.
pub fn count_arrivals<S: Alter>(conn: &mut Connection<S>) -> Result<u64, LedgerFault>
    ensures asked { Asked IsLedger result (state S.Store conn.old) (state S.Store conn.new)
        (λ n. n ≡ set.len (arrivals_in ((state S.Store conn.old).now.trees 5))) }
{
    let rows = ask(conn, "SELECT COUNT(*) FROM arrival", &[])?;
    first_count(rows.as_slice())
}

/// How many uids are kept. They are listed.
pub fn count_kept<S: Alter>(conn: &mut Connection<S>, alloc: Global) -> Result<u64, LedgerFault>
    ensures asked { Asked HasTables result (state S.Store conn.old) (state S.Store conn.new)
        (λ n. n ≡ set.len (all_kept_in ((state S.Store conn.old).now.trees 7))) }
{
    match all_kept(conn, alloc) {
        Ok(kept) => Ok(kept.as_slice().len() as u64),
        Err(fault) => Err(fault),
    }
}

/// How many rows to the destination are at the stage.
pub fn count_rows<'x, S: Alter>(
    conn: &mut Connection<S>,
    dest: &'x Text,
    stage: Stage,
) -> Result<u64, LedgerFault>
    ensures asked { Asked IsLedger result (state S.Store conn.old) (state S.Store conn.new)
        (λ n. n
        ≡ how_many (map.entries (rows_of (state S.Store conn.old).now.trees)) dest.now
        (Some stage)) }
{
    let rows = ask(
        conn,
        "SELECT COUNT(*) FROM queue WHERE dest = ?1 AND state = ?2",
        &[ValueRef::Text(dest.as_bytes()), state_cell(stage)],
    )?;
    first_count(rows.as_slice())
}

/// From which moment on the first row to the destination that waits is due.
pub fn first_moment<'x, S: Alter>(
    conn: &mut Connection<S>,
    dest: &'x Text,
) -> Result<Option<u64>, LedgerFault>
    ensures asked { Asked IsLedger result (state S.Store conn.old) (state S.Store conn.new)
        (IsLeast (dues (map.entries (rows_of (state S.Store conn.old).now.trees)) dest.now)) }
{
    let rows = ask(
        conn,
        "SELECT due FROM queue WHERE dest = ?1 AND state = 0 ORDER BY due LIMIT 1",
        &[ValueRef::Text(dest.as_bytes())],
    )?;
    moment_in(rows.as_slice())
}
