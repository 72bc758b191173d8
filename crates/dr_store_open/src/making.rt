//! The tables of a new ledger.
ghost use Rattle.std.specs.Prelude.{◌≡◌, ◌≤◌, OnOk, [], IsTrue, false};
ghost use Rattle.sqlite.specs.Effect.{IsDatabase};
ghost use Rattle.sqlite.specs.Held.{state};
ghost use Rattle.sqlite.specs.State.{HasCleanDisk};
ghost use Rattle.sqlite_trees.specs.View.{doubt};
ghost use Rattle.dr_store_writes.specs.Effects.{CommitsNothing};
ghost use Rattle.dr_store_open.specs.Opening.{LeavesOldOr, LeavesOldOrCommitted};
ghost use Rattle.dr_store_open.specs.Renewing.{IsMadeFor, IsMadeWith};

use crate::asking::{run_texts, run_within};
use crate::fault::{OpeningFault, of_error};
use crate::owner::shows_owner;
use crate::sheets::{Sheets, ask_sheets};
use dr_base::Text;
use dr_site::Site;
use dr_store_calls::{is_mark, plan_cell};
use dr_store_writes::add_site;
use sqlite::{Alter, Connection, Transaction};
use std::alloc::Global;

/// The tables whose place no other one changes.
const FIRST: [&str; 2] = [
    "CREATE TABLE site (id INTEGER PRIMARY KEY, node TEXT NOT NULL, plan BLOB NOT NULL) STRICT",
    "CREATE TABLE item (uid TEXT NOT NULL PRIMARY KEY, class TEXT NOT NULL, syntax TEXT NOT NULL, modality BLOB NOT NULL, station BLOB NOT NULL, body BLOB NOT NULL) STRICT",
];

/// The other tables, and the index of the rows that are due.
pub(crate) const LATER: [&str; 7] = [
    "CREATE TABLE print (uid TEXT NOT NULL PRIMARY KEY REFERENCES item (uid), length INTEGER NOT NULL, sha256 BLOB NOT NULL, whole INTEGER NOT NULL) STRICT",
    "CREATE TABLE arrival (caller TEXT NOT NULL, uid TEXT NOT NULL REFERENCES item (uid), PRIMARY KEY (caller, uid)) STRICT",
    "CREATE TABLE kept (uid TEXT NOT NULL PRIMARY KEY REFERENCES item (uid)) STRICT",
    "CREATE TABLE queue (uid TEXT NOT NULL REFERENCES item (uid), dest TEXT NOT NULL, state INTEGER NOT NULL, tries INTEGER NOT NULL, due INTEGER NOT NULL, cause INTEGER, PRIMARY KEY (uid, dest)) STRICT",
    "CREATE TABLE journal (n INTEGER PRIMARY KEY, kind INTEGER NOT NULL, caller TEXT, uid TEXT, dest TEXT, outcome INTEGER, moment INTEGER, class TEXT, syntax TEXT, modality BLOB, station BLOB, length INTEGER, sha256 BLOB) STRICT",
    "CREATE TABLE target (n INTEGER NOT NULL REFERENCES journal (n), dest TEXT NOT NULL, PRIMARY KEY (n, dest)) STRICT",
    "CREATE INDEX queue_due ON queue (dest, state, due, uid)",
];

/// The index of an instance's arrivals. It is made last of all: that it was made says that the
/// trees list the tables.
pub(crate) fn index_arrivals<S: Alter>(tx: &mut Transaction<'_, S>) -> Result<(), OpeningFault>
    ensures same_reference { tx.new.conn.ghost_name ≡ tx.old.conn.ghost_name }
    ensures survives { CommitsNothing (state S.Store tx.old.conn.now)
        (state S.Store tx.new.conn.now) }
    ensures listed { HasCleanDisk (state S.Store tx.new.conn.now)
        → OnOk result (IsDatabase (state S.Store tx.new.conn.now).now) }
{
    run_within(tx, "CREATE INDEX arrival_uid ON arrival (uid)", &[])
}

/// Puts in whose ledger it is, with this for its plan.
fn put_owner<'x, S: Alter>(
    tx: &mut Transaction<'_, S>,
    node: &'x Text,
    cell: &'x [u8],
) -> Result<(), OpeningFault>
    ensures same_reference { tx.new.conn.ghost_name ≡ tx.old.conn.ghost_name }
    ensures survives { CommitsNothing (state S.Store tx.old.conn.now)
        (state S.Store tx.new.conn.now) }
{
    match add_site(tx, node, cell) {
        Ok(_) => Ok(()),
        Err(error) => Err(of_error(&error)),
    }
}

/// Whether the queries answered nothing but the owner's row.
fn has_no_rows(sheets: &Sheets) -> bool
    ensures { IsTrue result
        → (sheets.now.items.items ≡ []) × (sheets.now.arrivals.items ≡ [])
        × (sheets.now.kept.items ≡ []) × (sheets.now.rows.items ≡ [])
        × (sheets.now.lines.items ≡ []) }
{
    if !sheets.items.is_empty() || !sheets.arrivals.is_empty() {
        return false;
    }
    sheets.kept.is_empty() && sheets.rows.is_empty() && sheets.lines.is_empty()
}

/// Tests that the queries show this owner's row, and no instance, arrival, kept UID, row of the
/// queue or line. None of them asks for `print` and `target`.
fn test_made<'x, S: Alter>(
    tx: &mut Transaction<'_, S>,
    node: &'x Text,
    cell: &'x [u8],
) -> Result<(), OpeningFault>
    ensures same_reference { tx.new.conn.ghost_name ≡ tx.old.conn.ghost_name }
    ensures survives { CommitsNothing (state S.Store tx.old.conn.now)
        (state S.Store tx.new.conn.now) }
    ensures made { HasCleanDisk (state S.Store tx.new.conn.now)
        → OnOk result (IsMadeFor node.now cell.now (state S.Store tx.old.conn.now).now
        × ((state S.Store tx.new.conn.now).now ≡ (state S.Store tx.old.conn.now).now)) }
{
    let sheets = ask_sheets(tx)?;
    if !has_no_rows(&sheets) {
        return Err(OpeningFault::Store);
    }
    if !shows_owner(sheets.site.as_slice(), node, cell) {
        return Err(OpeningFault::Store);
    }
    Ok(())
}

/// All statements that make the tables of a new ledger of this owner, and a look at what they made.
fn fill<'x, S: Alter>(
    tx: &mut Transaction<'_, S>,
    node: &'x Text,
    cell: &'x [u8],
) -> Result<(), OpeningFault>
    ensures same_reference { tx.new.conn.ghost_name ≡ tx.old.conn.ghost_name }
    ensures survives { CommitsNothing (state S.Store tx.old.conn.now)
        (state S.Store tx.new.conn.now) }
    ensures listed { HasCleanDisk (state S.Store tx.new.conn.now)
        → OnOk result (IsDatabase (state S.Store tx.new.conn.now).now) }
    ensures made { HasCleanDisk (state S.Store tx.new.conn.now)
        → OnOk result
        (IsMadeFor node.now cell.now (state S.Store tx.new.conn.now).now) }
{
    run_texts(tx, FIRST.as_slice())?;
    run_texts(tx, LATER.as_slice())?;
    put_owner(tx, node, cell)?;
    index_arrivals(tx)?;
    test_made(tx, node, cell)
}

/// Makes the tables of a new ledger of this owner, as one transaction.
fn make_for<S: Alter>(
    conn: &mut Connection<S>,
    node: &Text,
    cell: &[u8],
) -> Result<(), OpeningFault>
    requires { conn.old.in_transaction ≡ false }
    ensures idle { conn.new.in_transaction ≡ false }
    ensures clean { doubt (state S.Store conn.old).is_clean
        ≤ doubt (state S.Store conn.new).is_clean }
    ensures made { HasCleanDisk (state S.Store conn.new)
        → OnOk result (LeavesOldOrCommitted (state S.Store conn.old) (state S.Store conn.new)) }
    ensures crash { HasCleanDisk (state S.Store conn.new)
        → LeavesOldOr (IsMadeFor node.now cell.now) (state S.Store conn.old)
        (state S.Store conn.new) }
{
    let mut tx = conn.transaction();
    fill(&mut tx, node, cell)?;
    match tx.commit() {
        Ok(()) => Ok(()),
        Err(error) => Err(of_error(&error)),
    }
}

/// Makes the tables of a new ledger of this site, as one transaction. They say that its data sets
/// are in the file with this mark or, where the mark is nothing, in rows. Whatever it answers, a
/// crash leaves what it could leave before, or all of the tables, whose owner's row says so.
///
/// Errors: Store, also for bytes that are no mark; Memory.
pub fn make<S: Alter>(
    conn: &mut Connection<S>,
    alloc: Global,
    site: &Site,
    mark: &[u8],
) -> Result<(), OpeningFault>
    requires { conn.old.in_transaction ≡ false }
    ensures idle { conn.new.in_transaction ≡ false }
    ensures clean { doubt (state S.Store conn.old).is_clean
        ≤ doubt (state S.Store conn.new).is_clean }
    ensures made { HasCleanDisk (state S.Store conn.new)
        → OnOk result (LeavesOldOrCommitted (state S.Store conn.old) (state S.Store conn.new)) }
    ensures crash { HasCleanDisk (state S.Store conn.new)
        → LeavesOldOr (IsMadeWith mark.now site.now) (state S.Store conn.old)
        (state S.Store conn.new) }
{
    if !is_mark(mark) {
        return Err(OpeningFault::Store);
    }
    match plan_cell(alloc, site.digest(), mark, &[]) {
        Ok(cell) => make_for(conn, site.name(), &cell),
        Err(_) => Err(OpeningFault::Memory),
    }
}
