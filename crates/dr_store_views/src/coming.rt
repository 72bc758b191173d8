//! Where an instance is from: its class, and when it came.
ghost use Rattle.std.specs.Prelude.{◌≡◌, ℕ, Option, Some};
ghost use Rattle.sqlite.specs.Held.{state};
ghost use Rattle.dr_ledger.specs.Replies.{Reads};
ghost use Rattle.dr_store_schema.specs.Ledgers.{IsLedger};
ghost use Rattle.dr_store_reads.specs.Queries.{Asked, first_of};
ghost use Rattle.dr_store_views.specs.Origins.{IsLineOf, IsMomentOf, IsOriginOf, first_moment_in};
ghost use Rattle.dr_store_views.specs.Origins.{numbered};

use dr_base::Text;
use dr_ledger::LedgerFault;
use dr_ledger_views::Origin;
use dr_store_reads::queries::ask;
use dr_store_reads::reading::{read_number, read_text};
use dr_store_writes::moment_cell;
use sqlite::types::ValueRef;
use sqlite::{Alter, Connection, Row};
use std::alloc::Global;

/// The number and the class in the first row, if there is one.
fn numbered_in(alloc: Global, rows: &[Row]) -> Result<Option<(u64, Text)>, LedgerFault>
    ensures { Reads result (λ found. found ≡ first_of numbered rows.now) }
{
    let Some(row) = rows.first() else {
        return Ok(None);
    };
    let n = read_number(row, 0)?;
    let class = read_text(alloc, row, 1)?;
    Ok(Some((n, class)))
}

/// The moment in the first row, if there is one.
fn told_in(rows: &[Row]) -> Result<Option<u64>, LedgerFault>
    ensures { Reads result (λ moment. moment ≡ first_moment_in rows.now) }
{
    let Some(row) = rows.first() else {
        return Ok(None);
    };
    match row.get::<Option<u64>>(0) {
        Ok(moment) => Ok(moment),
        Err(_) => Err(LedgerFault::Store),
    }
}

/// The number under which an instance stands, which is that of the line by which it came, and its
/// class.
fn line_of<'x, S: Alter>(
    conn: &mut Connection<S>,
    alloc: Global,
    uid: &'x Text,
) -> Result<Option<(u64, Text)>, LedgerFault>
    ensures asked { Asked IsLedger result (state S.Store conn.old) (state S.Store conn.new)
        (IsLineOf uid.now (state S.Store conn.old).now.trees) }
{
    let rows = ask(
        conn,
        "SELECT rowid, class FROM item WHERE uid = ?1",
        &[ValueRef::Text(uid.as_bytes())],
    )?;
    numbered_in(alloc, rows.as_slice())
}

/// The moment of that line, if it is of a first arrival of the instance and has one.
fn moment_of<'x, S: Alter>(
    conn: &mut Connection<S>,
    n: u64,
    uid: &'x Text,
) -> Result<Option<u64>, LedgerFault>
    ensures asked { Asked IsLedger result (state S.Store conn.old) (state S.Store conn.new)
        (IsMomentOf n uid.now (state S.Store conn.old).now.trees) }
{
    let rows = ask(
        conn,
        "SELECT moment FROM journal WHERE n = ?1 AND kind = 0 AND uid = ?2",
        &[moment_cell(Some(n)), ValueRef::Text(uid.as_bytes())],
    )?;
    told_in(rows.as_slice())
}

/// The same, with the class.
fn with_moment<'x, S: Alter>(
    conn: &mut Connection<S>,
    n: u64,
    uid: &'x Text,
    class: Text,
) -> Result<Option<Origin>, LedgerFault>
    ensures asked { Asked IsLedger result (state S.Store conn.old) (state S.Store conn.new)
        (λ origin. (moment : Option ℕ)
        × IsMomentOf n uid.now (state S.Store conn.old).now.trees moment
        × (origin ≡ Some (record { class = class; moment = moment }))) }
{
    match moment_of(conn, n, uid) {
        Ok(moment) => Ok(Some(Origin { class, moment })),
        Err(fault) => Err(fault),
    }
}

/// Where the instance is from that is there: its class, and the moment of the line by which it came
/// first, if it has one. In a file that was brought over it may stand under another number.
pub fn origin_of<'x, S: Alter>(
    conn: &mut Connection<S>,
    alloc: Global,
    uid: &'x Text,
) -> Result<Option<Origin>, LedgerFault>
    ensures asked { Asked IsLedger result (state S.Store conn.old) (state S.Store conn.new)
        (IsOriginOf uid.now (state S.Store conn.old).now.trees) }
{
    match line_of(conn, alloc, uid) {
        Ok(Some((n, class))) => with_moment(conn, n, uid, class),
        Ok(None) => Ok(None),
        Err(fault) => Err(fault),
    }
}
