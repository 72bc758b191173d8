//! What a ledger's file from before says, and what it lacks, by that and by the site.
ghost use Rattle.std.specs.Prelude.{◌≡◌, IfOk, IsTrue, length};
ghost use Rattle.sqlite.specs.Held.{state};
ghost use Rattle.sha2.specs.Sha256.{sha256};
ghost use Rattle.dr_store_writes.specs.Effects.{CommitsNothing};

use crate::asking::ask_within;
use crate::fault::{OpeningFault, of_finding, opening_fault};
use crate::sheets::Sheets;
use dr_base::{Octets, Text};
use dr_ledger::{Item, ItemFault, LedgerFault, Progress};
use dr_route::{Key, Targets};
use dr_site::Site;
use dr_store_audit::Lacks;
use dr_store_audit::needs::needed;
use dr_store_lists::JournalRow;
use dr_store_lists::listing::{
    goal_keys, key_entries, pair_keys, print_entries, row_entries, text_keys,
};
use dr_store_reads::Print;
use dr_store_reads::reading::read_bytes;
use sqlite::types::ValueRef;
use sqlite::{Alter, Row, Transaction};
use std::alloc::Global;
use std::collections::BTreeSet;

/// What the rows of such a file say, but for its journal.
#[derive(Drop)]
pub struct OlderRows {
    pub keys: Vec<(Text, Key)>,
    pub arrivals: Vec<(Text, Text)>,
    pub kept: Vec<Text>,
    pub rows: Vec<((Text, Text), Progress)>,
}

/// Whether the row of site says this site's node and plan.
fn is_owner(row: &Row, site: &Site) -> bool {
    let (Ok(ValueRef::Int(1)), Ok(ValueRef::Text(node)), Ok(ValueRef::Blob(plan))) = (
        row.get_ref(0),
        row.get_ref(1),
        row.get_ref(2),
    ) else {
        return false;
    };
    node == site.name().as_bytes() && plan == site.digest().as_slice()
}

/// Whether site has one row, which says this site's node and plan.
fn is_owned(rows: &[Row], site: &Site) -> bool {
    let [row] = rows else {
        return false;
    };
    is_owner(row, site)
}

/// What the rows say, if the file is this site's.
pub fn told_of(alloc: Global, site: &Site, sheets: &Sheets) -> Result<OlderRows, OpeningFault> {
    if !is_owned(sheets.site.as_slice(), site) {
        return Err(OpeningFault::OtherSite);
    }
    match told_by(alloc, sheets) {
        Ok(told) => Ok(told),
        Err(fault) => Err(opening_fault(fault)),
    }
}

fn told_by(alloc: Global, sheets: &Sheets) -> Result<OlderRows, LedgerFault> {
    let keys = key_entries(alloc, sheets.items.as_slice())?;
    let arrivals = pair_keys(alloc, sheets.arrivals.as_slice())?;
    let kept = text_keys(alloc, sheets.kept.as_slice())?;
    let rows = row_entries(alloc, sheets.rows.as_slice())?;
    Ok(OlderRows {
        keys,
        arrivals,
        kept,
        rows,
    })
}

// ---- prints

/// The data set of that uid.
fn find_body<'x, S: Alter>(
    tx: &mut Transaction<'_, S>,
    alloc: Global,
    uid: &'x Text,
) -> Result<Octets, OpeningFault>
    ensures same_reference { tx.new.conn.ghost_name ≡ tx.old.conn.ghost_name }
    ensures survives { CommitsNothing (state S.Store tx.old.conn.now)
        (state S.Store tx.new.conn.now) }
{
    let rows = ask_within(
        tx,
        "SELECT body FROM item WHERE uid = ?1",
        &[ValueRef::Text(uid.as_bytes())],
    )?;
    body_in(alloc, rows.as_slice())
}

fn body_in(alloc: Global, rows: &[Row]) -> Result<Octets, OpeningFault> {
    let [row] = rows else {
        return Err(OpeningFault::OtherSite);
    };
    match read_bytes(alloc, row, 0) {
        Ok(body) => Ok(body),
        Err(fault) => Err(opening_fault(fault)),
    }
}

/// The print of a data set, which stays there if it is needed.
fn print_of(item: &Item, whole: bool) -> Print
    ensures size { result.size ≡ length item.now.body }
    ensures digest { result.digest ≡ sha256 item.now.body }
    ensures whole { result.whole ≡ whole }
{
    Print {
        size: item.body().len() as u64,
        digest: *item.digest(),
        whole,
    }
}

/// The print of an instance by its data set, if that is the instance's.
fn print_by(
    alloc: Global,
    uid: &Text,
    key: &Key,
    body: Octets,
    whole: bool,
) -> Result<Print, OpeningFault>
    ensures { IfOk result (λ print.
        (print.size ≡ length body) × (print.digest ≡ sha256 body) × (print.whole ≡ whole)) }
{
    let item = match Item::read(alloc, key.syntax, body) {
        Ok(item) => item,
        Err(ItemFault::Memory) => return Err(OpeningFault::Memory),
        Err(_) => return Err(OpeningFault::OtherSite),
    };
    if item.uid() != uid || item.key() != key {
        return Err(OpeningFault::OtherSite);
    }
    Ok(print_of(&item, whole))
}

/// The uid of an instance and its print, by its data set.
fn made_print<'x, S: Alter>(
    tx: &mut Transaction<'_, S>,
    alloc: Global,
    key: &'x (Text, Key),
    uids: &'x BTreeSet<Text>,
) -> Result<(Text, Print), OpeningFault>
    ensures same_reference { tx.new.conn.ghost_name ≡ tx.old.conn.ghost_name }
    ensures survives { CommitsNothing (state S.Store tx.old.conn.now)
        (state S.Store tx.new.conn.now) }
{
    let body = find_body(tx, alloc, &key.0)?;
    let print = print_by(alloc, &key.0, &key.1, body, uids.contains(&key.0))?;
    let uid = key.0.clone()?;
    Ok((uid, print))
}

/// The prints of all instances by their data sets, which are read one by one.
fn made_prints<'x, S: Alter>(
    tx: &mut Transaction<'_, S>,
    alloc: Global,
    keys: &'x [(Text, Key)],
    uids: &'x BTreeSet<Text>,
) -> Result<Vec<(Text, Print)>, OpeningFault>
    ensures same_reference { tx.new.conn.ghost_name ≡ tx.old.conn.ghost_name }
    ensures survives { CommitsNothing (state S.Store tx.old.conn.now)
        (state S.Store tx.new.conn.now) }
{
    let mut prints = Vec::new(alloc);
    for key in keys {
        prints.push(made_print(tx, alloc, key, uids)?)?;
    }
    Ok(prints)
}

/// The uids of the data sets that are needed.
fn needed_uids(alloc: Global, told: &OlderRows) -> Result<BTreeSet<Text>, OpeningFault> {
    match needed(alloc, told.kept.as_slice(), told.rows.as_slice()) {
        Ok(uids) => Ok(uids),
        Err(fault) => Err(of_finding(fault)),
    }
}

/// The prints that the file has.
fn found_prints<S: Alter>(
    tx: &mut Transaction<'_, S>,
    alloc: Global,
) -> Result<Vec<(Text, Print)>, OpeningFault>
    ensures same_reference { tx.new.conn.ghost_name ≡ tx.old.conn.ghost_name }
    ensures survives { CommitsNothing (state S.Store tx.old.conn.now)
        (state S.Store tx.new.conn.now) }
{
    let rows = ask_within(
        tx,
        "SELECT uid, length, sha256, whole FROM print ORDER BY uid",
        &[],
    )?;
    match print_entries(alloc, rows.as_slice()) {
        Ok(prints) => Ok(prints),
        Err(fault) => Err(opening_fault(fault)),
    }
}

/// The prints that the file has or, where it lacks them, those of its data sets.
pub fn prints_for<'x, S: Alter>(
    tx: &mut Transaction<'_, S>,
    alloc: Global,
    lacks: Lacks,
    told: &'x OlderRows,
) -> Result<Vec<(Text, Print)>, OpeningFault>
    ensures same_reference { tx.new.conn.ghost_name ≡ tx.old.conn.ghost_name }
    ensures survives { CommitsNothing (state S.Store tx.old.conn.now)
        (state S.Store tx.new.conn.now) }
{
    if !lacks.print {
        return found_prints(tx, alloc);
    }
    let uids = needed_uids(alloc, told)?;
    made_prints(tx, alloc, told.keys.as_slice(), &uids)
}

// ---- targets

/// Adds where line n goes on to, `-` first where it is kept.
fn add_goals(
    goals: &mut Vec<(u64, Text)>,
    alloc: Global,
    n: u64,
    targets: &Targets,
) -> Result<(), OpeningFault> {
    if targets.keep {
        goals.push((n, Text::copy_of(alloc, b"-".as_slice())?))?;
    }
    for to in targets.to.as_slice() {
        goals.push((n, to.clone()?))?;
    }
    Ok(())
}

/// Adds where the line of a first arrival goes on to by the site. Where a file has an adoption, the
/// plans before it aren't known, nor where their lines went on to.
fn add_goals_of(
    goals: &mut Vec<(u64, Text)>,
    alloc: Global,
    site: &Site,
    note: &(u64, JournalRow),
) -> Result<(), OpeningFault> {
    match &note.1 {
        JournalRow::Arrival { caller, instance } => {
            let targets = site.targets(alloc, caller, &instance.key)?;
            add_goals(goals, alloc, note.0, &targets)
        }
        JournalRow::Adoption => Err(OpeningFault::OtherSite),
        _ => Ok(()),
    }
}

/// Where all first arrivals go on to by the site.
pub fn made_goals(
    alloc: Global,
    site: &Site,
    notes: &[(u64, JournalRow)],
) -> Result<Vec<(u64, Text)>, OpeningFault> {
    let mut goals = Vec::new(alloc);
    for note in notes {
        add_goals_of(&mut goals, alloc, site, note)?;
    }
    Ok(goals)
}

/// The goals that the file has; None where it lacks them.
pub fn found_goals<S: Alter>(
    tx: &mut Transaction<'_, S>,
    alloc: Global,
    lacks: Lacks,
) -> Result<Option<Vec<(u64, Text)>>, OpeningFault>
    ensures same_reference { tx.new.conn.ghost_name ≡ tx.old.conn.ghost_name }
    ensures survives { CommitsNothing (state S.Store tx.old.conn.now)
        (state S.Store tx.new.conn.now) }
{
    if lacks.target {
        return Ok(None);
    }
    let rows = ask_within(tx, "SELECT n, dest FROM target ORDER BY n, dest", &[])?;
    match goal_keys(alloc, rows.as_slice()) {
        Ok(goals) => Ok(Some(goals)),
        Err(fault) => Err(opening_fault(fault)),
    }
}
