//! What stands in the tables that each file from before has, read and looked at again inside a
//! transaction.
ghost use Rattle.std.specs.Prelude.{◌≡◌, IfOk, OnOk};
ghost use Rattle.sqlite.specs.Held.{state};
ghost use Rattle.sqlite.specs.State.{HasCleanDisk};
ghost use Rattle.dr_store_schema.specs.Statements.{all_arrivals, all_items, all_kept, all_rows};
ghost use Rattle.dr_store_schema.specs.Statements.{the_site};
ghost use Rattle.dr_store_writes.specs.Effects.{CommitsNothing};
ghost use Rattle.dr_store_open.specs.Renewing.{IsAnswer, AreSheetsOf, all_calls};

use crate::asking::{ask_rows, test_rows};
use crate::fault::OpeningFault;
use sqlite::{Alter, Row, Transaction};

/// The rows of the tables that each such file has; those of instances without their data sets, and
/// those of the journal by the columns that it had.
#[derive(Drop)]
pub struct Sheets {
    pub site: Vec<Row>,
    pub items: Vec<Row>,
    pub arrivals: Vec<Row>,
    pub kept: Vec<Row>,
    pub rows: Vec<Row>,
    pub lines: Vec<Row>,
}

/// Whose file it is, its instances, and who brought them.
fn ask_stock<S: Alter>(
    tx: &mut Transaction<'_, S>,
) -> Result<(Vec<Row>, Vec<Row>, Vec<Row>), OpeningFault>
    ensures same_reference { tx.new.conn.ghost_name ≡ tx.old.conn.ghost_name }
    ensures survives { CommitsNothing (state S.Store tx.old.conn.now)
        (state S.Store tx.new.conn.now) }
    ensures answers { HasCleanDisk (state S.Store tx.new.conn.now)
        → IfOk result (λ r. IsAnswer the_site (state S.Store tx.old.conn.now).now r.0.items
        × IsAnswer all_items (state S.Store tx.old.conn.now).now r.1.items
        × IsAnswer all_arrivals (state S.Store tx.old.conn.now).now r.2.items
        × ((state S.Store tx.new.conn.now).now ≡ (state S.Store tx.old.conn.now).now)) }
{
    let site = ask_rows(tx, "SELECT id, node, plan FROM site")?;
    let items = ask_rows(
        tx,
        "SELECT uid, class, syntax, modality, station FROM item ORDER BY uid",
    )?;
    let arrivals = ask_rows(tx, "SELECT caller, uid FROM arrival ORDER BY caller, uid")?;
    Ok((site, items, arrivals))
}

/// The kept uids, the queue and the journal.
fn ask_moves<S: Alter>(
    tx: &mut Transaction<'_, S>,
) -> Result<(Vec<Row>, Vec<Row>, Vec<Row>), OpeningFault>
    ensures same_reference { tx.new.conn.ghost_name ≡ tx.old.conn.ghost_name }
    ensures survives { CommitsNothing (state S.Store tx.old.conn.now)
        (state S.Store tx.new.conn.now) }
    ensures answers { HasCleanDisk (state S.Store tx.new.conn.now)
        → IfOk result (λ r. IsAnswer all_kept (state S.Store tx.old.conn.now).now r.0.items
        × IsAnswer all_rows (state S.Store tx.old.conn.now).now r.1.items
        × IsAnswer all_calls (state S.Store tx.old.conn.now).now r.2.items
        × ((state S.Store tx.new.conn.now).now ≡ (state S.Store tx.old.conn.now).now)) }
{
    let kept = ask_rows(tx, "SELECT uid FROM kept ORDER BY uid")?;
    let rows = ask_rows(
        tx,
        "SELECT uid, dest, state, tries, due, cause FROM queue ORDER BY uid, dest",
    )?;
    let lines = ask_rows(
        tx,
        "SELECT n, kind, caller, uid, dest, outcome, moment FROM journal ORDER BY n",
    )?;
    Ok((kept, rows, lines))
}

/// All of it.
pub fn ask_sheets<S: Alter>(tx: &mut Transaction<'_, S>) -> Result<Sheets, OpeningFault>
    ensures same_reference { tx.new.conn.ghost_name ≡ tx.old.conn.ghost_name }
    ensures survives { CommitsNothing (state S.Store tx.old.conn.now)
        (state S.Store tx.new.conn.now) }
    ensures answers { HasCleanDisk (state S.Store tx.new.conn.now)
        → IfOk result (λ sheets. AreSheetsOf (state S.Store tx.old.conn.now).now sheets
        × ((state S.Store tx.new.conn.now).now ≡ (state S.Store tx.old.conn.now).now)) }
{
    let (site, items, arrivals) = ask_stock(tx)?;
    let (kept, rows, lines) = ask_moves(tx)?;
    Ok(Sheets {
        site,
        items,
        arrivals,
        kept,
        rows,
        lines,
    })
}

/// Tests that its owner, its instances and who brought them are those.
fn test_stock<'x, S: Alter>(
    tx: &mut Transaction<'_, S>,
    sheets: &'x Sheets,
) -> Result<(), OpeningFault>
    ensures same_reference { tx.new.conn.ghost_name ≡ tx.old.conn.ghost_name }
    ensures survives { CommitsNothing (state S.Store tx.old.conn.now)
        (state S.Store tx.new.conn.now) }
    ensures answers { HasCleanDisk (state S.Store tx.new.conn.now)
        → OnOk result
        (IsAnswer the_site (state S.Store tx.old.conn.now).now sheets.now.site.items
        × IsAnswer all_items (state S.Store tx.old.conn.now).now sheets.now.items.items
        × IsAnswer all_arrivals (state S.Store tx.old.conn.now).now sheets.now.arrivals.items
        × ((state S.Store tx.new.conn.now).now ≡ (state S.Store tx.old.conn.now).now)) }
{
    test_rows(
        tx,
        "SELECT id, node, plan FROM site",
        sheets.site.as_slice(),
    )?;
    test_rows(
        tx,
        "SELECT uid, class, syntax, modality, station FROM item ORDER BY uid",
        sheets.items.as_slice(),
    )?;
    test_rows(
        tx,
        "SELECT caller, uid FROM arrival ORDER BY caller, uid",
        sheets.arrivals.as_slice(),
    )
}

/// Tests that the kept uids, the queue and the journal are those.
fn test_moves<'x, S: Alter>(
    tx: &mut Transaction<'_, S>,
    sheets: &'x Sheets,
) -> Result<(), OpeningFault>
    ensures same_reference { tx.new.conn.ghost_name ≡ tx.old.conn.ghost_name }
    ensures survives { CommitsNothing (state S.Store tx.old.conn.now)
        (state S.Store tx.new.conn.now) }
    ensures answers { HasCleanDisk (state S.Store tx.new.conn.now)
        → OnOk result
        (IsAnswer all_kept (state S.Store tx.old.conn.now).now sheets.now.kept.items
        × IsAnswer all_rows (state S.Store tx.old.conn.now).now sheets.now.rows.items
        × IsAnswer all_calls (state S.Store tx.old.conn.now).now sheets.now.lines.items
        × ((state S.Store tx.new.conn.now).now ≡ (state S.Store tx.old.conn.now).now)) }
{
    test_rows(
        tx,
        "SELECT uid FROM kept ORDER BY uid",
        sheets.kept.as_slice(),
    )?;
    test_rows(
        tx,
        "SELECT uid, dest, state, tries, due, cause FROM queue ORDER BY uid, dest",
        sheets.rows.as_slice(),
    )?;
    test_rows(
        tx,
        "SELECT n, kind, caller, uid, dest, outcome, moment FROM journal ORDER BY n",
        sheets.lines.as_slice(),
    )
}

/// Tests that all of it is that.
pub fn test_sheets<'x, S: Alter>(
    tx: &mut Transaction<'_, S>,
    sheets: &'x Sheets,
) -> Result<(), OpeningFault>
    ensures same_reference { tx.new.conn.ghost_name ≡ tx.old.conn.ghost_name }
    ensures survives { CommitsNothing (state S.Store tx.old.conn.now)
        (state S.Store tx.new.conn.now) }
    ensures answers { HasCleanDisk (state S.Store tx.new.conn.now)
        → OnOk result (AreSheetsOf (state S.Store tx.old.conn.now).now sheets.now
        × ((state S.Store tx.new.conn.now).now ≡ (state S.Store tx.old.conn.now).now)) }
{
    test_stock(tx, sheets)?;
    test_moves(tx, sheets)
}
