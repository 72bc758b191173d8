//! The journal of a file from before, whose lines get the instances that they are of.
ghost use Rattle.std.specs.Prelude.{◌≡◌};
ghost use Rattle.sqlite.specs.Held.{state};
ghost use Rattle.dr_store_writes.specs.Effects.{CommitsNothing};

use crate::asking::{ask_within, cells_of, run_within};
use crate::fault::{OpeningFault, opening_fault};
use dr_base::Text;
use dr_ledger::Instance;
use dr_store_lists::JournalRow;
use dr_store_lists::listing::note_entries;
use dr_store_reads::reading::{read_number, read_text};
use dr_store_writes::syntax_cell;
use sqlite::types::ValueRef;
use sqlite::{Alter, Row, Transaction};
use std::alloc::Global;
use std::collections::BTreeMap;

/// The instance of that uid, which each line of an arrival has: nothing was forgotten before.
fn instance_at<'x>(
    alloc: Global,
    items: &'x BTreeMap<Text, Instance>,
    line: &Row,
) -> Result<&'x Instance, OpeningFault> {
    let uid = match read_text(alloc, line, 3) {
        Ok(uid) => uid,
        Err(fault) => return Err(opening_fault(fault)),
    };
    match items.get(&uid) {
        Some(instance) => Ok(instance),
        None => Err(OpeningFault::OtherSite),
    }
}

/// The instance that a line is of: that of its uid, where it is an arrival or a repeat. No file
/// from before has a forgetting or a dropping, which are kinds 5 and 6.
fn instance_of<'x>(
    alloc: Global,
    items: &'x BTreeMap<Text, Instance>,
    line: &Row,
) -> Result<Option<&'x Instance>, OpeningFault> {
    let kind = match read_number(line, 1) {
        Ok(kind) => kind,
        Err(fault) => return Err(opening_fault(fault)),
    };
    if kind < 2 {
        let instance = instance_at(alloc, items, line)?;
        return Ok(Some(instance));
    }
    if kind > 4 {
        return Err(OpeningFault::OtherSite);
    }
    Ok(None)
}

/// Adds the cells of an instance, but for its uid.
fn add_cells<'x>(
    cells: &mut Vec<ValueRef<'x>>,
    instance: &'x Instance,
) -> Result<(), OpeningFault> {
    let Ok(size) = i64::try_from(instance.size) else {
        return Err(OpeningFault::Store);
    };
    cells.push(ValueRef::Text(instance.key.class.as_bytes()))?;
    cells.push(syntax_cell(instance.key.syntax))?;
    cells.push(ValueRef::Blob(instance.key.modality.as_bytes()))?;
    cells.push(ValueRef::Blob(instance.key.station.as_bytes()))?;
    cells.push(ValueRef::Int(size))?;
    cells.push(ValueRef::Blob(&instance.digest))?;
    Ok(())
}

/// Puts a line back, with its instance.
fn put_line<'x, S: Alter>(
    tx: &mut Transaction<'_, S>,
    alloc: Global,
    items: &'x BTreeMap<Text, Instance>,
    line: &'x Row,
) -> Result<(), OpeningFault>
    ensures same_reference { tx.new.conn.ghost_name ≡ tx.old.conn.ghost_name }
    ensures survives { CommitsNothing (state S.Store tx.old.conn.now)
        (state S.Store tx.new.conn.now) }
{
    let mut cells = cells_of(alloc, line)?;
    let Some(instance) = instance_of(alloc, items, line)? else {
        return run_within(
            tx,
            "INSERT INTO journal (n, kind, caller, uid, dest, outcome, moment) VALUES (?1, ?2, ?3, ?4, ?5, ?6, ?7)",
            cells.as_slice(),
        );
    };
    add_cells(&mut cells, instance)?;
    run_within(
        tx,
        "INSERT INTO journal (n, kind, caller, uid, dest, outcome, moment, class, syntax, modality, station, length, sha256) VALUES (?1, ?2, ?3, ?4, ?5, ?6, ?7, ?8, ?9, ?10, ?11, ?12, ?13)",
        cells.as_slice(),
    )
}

/// Puts lines back, with their instances.
pub fn put_lines<'x, S: Alter>(
    tx: &mut Transaction<'_, S>,
    alloc: Global,
    items: &'x BTreeMap<Text, Instance>,
    lines: &'x [Row],
) -> Result<(), OpeningFault>
    ensures same_reference { tx.new.conn.ghost_name ≡ tx.old.conn.ghost_name }
    ensures survives { CommitsNothing (state S.Store tx.old.conn.now)
        (state S.Store tx.new.conn.now) }
{
    for line in lines {
        put_line(tx, alloc, items, line)?;
    }
    Ok(())
}

/// The lines that the journal has then, with their numbers.
pub fn notes_in<S: Alter>(
    tx: &mut Transaction<'_, S>,
    alloc: Global,
) -> Result<Vec<(u64, JournalRow)>, OpeningFault>
    ensures same_reference { tx.new.conn.ghost_name ≡ tx.old.conn.ghost_name }
    ensures survives { CommitsNothing (state S.Store tx.old.conn.now)
        (state S.Store tx.new.conn.now) }
{
    let rows = ask_within(
        tx,
        "SELECT n, kind, caller, uid, dest, outcome, moment, class, syntax, modality, station, length, sha256 FROM journal ORDER BY n",
        &[],
    )?;
    match note_entries(alloc, rows.as_slice()) {
        Ok(notes) => Ok(notes),
        Err(fault) => Err(opening_fault(fault)),
    }
}
