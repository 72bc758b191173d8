//! A ledger's file from before, brought over to the tables of today.
ghost use Rattle.std.specs.Prelude.{◌≡◌, ◌≤◌, IfErr, IfOk, IfSome, OnOk, IsTrue, false, true};
ghost use Rattle.sqlite.specs.Effect.{IsDatabase};
ghost use Rattle.sqlite.specs.Held.{state};
ghost use Rattle.sqlite.specs.State.{HasCleanDisk};
ghost use Rattle.sqlite_trees.specs.View.{doubt};
ghost use Rattle.dr_store_writes.specs.Effects.{CommitsNothing};
ghost use Rattle.dr_store_audit.specs.Older.{IsOlder};
ghost use Rattle.dr_store_open.specs.Opening.{LeavesFile, LeavesOldOr, LeavesOldOrCommitted};
ghost use Rattle.dr_store_open.specs.Opening.{StaysAsFound};
ghost use Rattle.dr_store_open.specs.Renewing.{KeepsRows};
ghost use Rattle.dr_store_schema.specs.Tables.{tables};

use crate::asking::{add_rows, run_texts};
use crate::fault::{OpeningFault, of_error, of_finding};
use crate::lines::{notes_in, put_lines};
use crate::making::{LATER, index_arrivals};
use crate::older::{OlderRows, found_goals, made_goals, prints_for, told_of};
use crate::sheets::{Sheets, ask_sheets, test_sheets};
use dr_base::Text;
use dr_ledger::Instance;
use dr_site::Site;
use dr_store_audit::stock::stock_all;
use dr_store_audit::{Begun, Lacks, TableLists, agree, lacking};
use dr_store_lists::JournalRow;
use dr_store_reads::Print;
use dr_store_writes::{add_print, add_target, set_body};
use sqlite::{Alter, Connection, Transaction};
use std::alloc::Global;
use std::collections::BTreeMap;

/// The last number that a cell holds.
const LAST_NUMBER: u64 = 1 << 62;

/// All tables but those of instances leave, each before the one to which it refers: only so do they
/// stand in the order of today.
const LEAVE: [&str; 6] = [
    "DROP TABLE IF EXISTS target",
    "DROP TABLE journal",
    "DROP TABLE queue",
    "DROP TABLE kept",
    "DROP TABLE arrival",
    "DROP TABLE IF EXISTS print",
];

/// Tests that what the file says, with these prints, lines and goals, is a ledger's of the site.
fn test(
    alloc: Global,
    site: &Site,
    told: &OlderRows,
    prints: &[(Text, Print)],
    notes: &[(u64, JournalRow)],
    goals: &[(u64, Text)],
) -> Result<(), OpeningFault> {
    let next = notes.len() as u64 + 1;
    let lists = TableLists {
        keys: told.keys.as_slice(),
        prints,
        arrivals: told.arrivals.as_slice(),
        kept: told.kept.as_slice(),
        rows: told.rows.as_slice(),
        notes,
        goals,
    };
    match agree(alloc, site, &lists, Begun::new(alloc), next) {
        Ok(()) => Ok(()),
        Err(fault) => Err(of_finding(fault)),
    }
}

/// Puts a print in.
fn put_print<'x, S: Alter>(
    tx: &mut Transaction<'_, S>,
    print: &'x (Text, Print),
) -> Result<(), OpeningFault>
    ensures same_reference { tx.new.conn.ghost_name ≡ tx.old.conn.ghost_name }
    ensures survives { CommitsNothing (state S.Store tx.old.conn.now)
        (state S.Store tx.new.conn.now) }
{
    if print.1.size > LAST_NUMBER {
        return Err(OpeningFault::Store);
    }
    let whole = u64::from(print.1.whole);
    match add_print(tx, &print.0, print.1.size, &print.1.digest, whole) {
        Ok(_) => Ok(()),
        Err(error) => Err(of_error(&error)),
    }
}

/// Puts prints in.
fn put_prints<'x, S: Alter>(
    tx: &mut Transaction<'_, S>,
    prints: &'x [(Text, Print)],
) -> Result<(), OpeningFault>
    ensures same_reference { tx.new.conn.ghost_name ≡ tx.old.conn.ghost_name }
    ensures survives { CommitsNothing (state S.Store tx.old.conn.now)
        (state S.Store tx.new.conn.now) }
{
    for print in prints {
        put_print(tx, print)?;
    }
    Ok(())
}

/// Lets the data set go, if the print says so.
fn let_go<'x, S: Alter>(
    tx: &mut Transaction<'_, S>,
    print: &'x (Text, Print),
) -> Result<(), OpeningFault>
    ensures same_reference { tx.new.conn.ghost_name ≡ tx.old.conn.ghost_name }
    ensures survives { CommitsNothing (state S.Store tx.old.conn.now)
        (state S.Store tx.new.conn.now) }
{
    if print.1.whole {
        return Ok(());
    }
    match set_body(tx, &print.0, &[]) {
        Ok(_) => Ok(()),
        Err(error) => Err(of_error(&error)),
    }
}

/// Lets the data sets go of which the prints say so.
fn let_all_go<'x, S: Alter>(
    tx: &mut Transaction<'_, S>,
    prints: &'x [(Text, Print)],
) -> Result<(), OpeningFault>
    ensures same_reference { tx.new.conn.ghost_name ≡ tx.old.conn.ghost_name }
    ensures survives { CommitsNothing (state S.Store tx.old.conn.now)
        (state S.Store tx.new.conn.now) }
{
    for print in prints {
        let_go(tx, print)?;
    }
    Ok(())
}

/// Puts a goal in.
fn put_goal<'x, S: Alter>(
    tx: &mut Transaction<'_, S>,
    target: &'x (u64, Text),
) -> Result<(), OpeningFault>
    ensures same_reference { tx.new.conn.ghost_name ≡ tx.old.conn.ghost_name }
    ensures survives { CommitsNothing (state S.Store tx.old.conn.now)
        (state S.Store tx.new.conn.now) }
{
    if target.0 > LAST_NUMBER {
        return Err(OpeningFault::Store);
    }
    match add_target(tx, target.0, &target.1) {
        Ok(_) => Ok(()),
        Err(error) => Err(of_error(&error)),
    }
}

/// Puts goals in.
fn put_goals<'x, S: Alter>(
    tx: &mut Transaction<'_, S>,
    goals: &'x [(u64, Text)],
) -> Result<(), OpeningFault>
    ensures same_reference { tx.new.conn.ghost_name ≡ tx.old.conn.ghost_name }
    ensures survives { CommitsNothing (state S.Store tx.old.conn.now)
        (state S.Store tx.new.conn.now) }
{
    for target in goals {
        put_goal(tx, target)?;
    }
    Ok(())
}

/// Puts the rows back of who brought what, of what is kept and of the queue.
fn put_back<'x, S: Alter>(
    tx: &mut Transaction<'_, S>,
    alloc: Global,
    sheets: &'x Sheets,
) -> Result<(), OpeningFault>
    ensures same_reference { tx.new.conn.ghost_name ≡ tx.old.conn.ghost_name }
    ensures survives { CommitsNothing (state S.Store tx.old.conn.now)
        (state S.Store tx.new.conn.now) }
{
    add_rows(
        tx,
        alloc,
        "INSERT INTO arrival (caller, uid) VALUES (?1, ?2)",
        sheets.arrivals.as_slice(),
    )?;
    add_rows(
        tx,
        alloc,
        "INSERT INTO kept (uid) VALUES (?1)",
        sheets.kept.as_slice(),
    )?;
    add_rows(
        tx,
        alloc,
        "INSERT INTO queue (uid, dest, state, tries, due, cause) VALUES (?1, ?2, ?3, ?4, ?5, ?6)",
        sheets.rows.as_slice(),
    )
}

/// Puts in what the tables had, these prints, and the lines with their instances.
fn fill_anew<'x, S: Alter>(
    tx: &mut Transaction<'_, S>,
    alloc: Global,
    sheets: &'x Sheets,
    prints: &'x [(Text, Print)],
    items: &'x BTreeMap<Text, Instance>,
) -> Result<(), OpeningFault>
    ensures same_reference { tx.new.conn.ghost_name ≡ tx.old.conn.ghost_name }
    ensures survives { CommitsNothing (state S.Store tx.old.conn.now)
        (state S.Store tx.new.conn.now) }
{
    put_prints(tx, prints)?;
    put_back(tx, alloc, sheets)?;
    put_lines(tx, alloc, items, sheets.lines.as_slice())
}

/// Makes the tables anew that come after those of instances.
fn make_anew<'x, S: Alter>(
    tx: &mut Transaction<'_, S>,
    alloc: Global,
    sheets: &'x Sheets,
    prints: &'x [(Text, Print)],
    items: &'x BTreeMap<Text, Instance>,
) -> Result<(), OpeningFault>
    ensures same_reference { tx.new.conn.ghost_name ≡ tx.old.conn.ghost_name }
    ensures survives { CommitsNothing (state S.Store tx.old.conn.now)
        (state S.Store tx.new.conn.now) }
{
    run_texts(tx, LEAVE.as_slice())?;
    run_texts(tx, LATER.as_slice())?;
    fill_anew(tx, alloc, sheets, prints, items)
}

/// Where the first arrivals go on to: the goals that the file had or, where it lacked them, those
/// that the site gives.
fn goals_for(
    alloc: Global,
    site: &Site,
    notes: &[(u64, JournalRow)],
    found: Option<Vec<(u64, Text)>>,
) -> Result<Vec<(u64, Text)>, OpeningFault> {
    match found {
        Some(goals) => Ok(goals),
        None => made_goals(alloc, site, notes),
    }
}

/// Puts in where the lines go on to, and tests that all of it is a ledger's of the site.
fn put_rest<'x, S: Alter>(
    tx: &mut Transaction<'_, S>,
    alloc: Global,
    site: &'x Site,
    told: &'x OlderRows,
    prints: &'x [(Text, Print)],
    found: Option<Vec<(u64, Text)>>,
) -> Result<(), OpeningFault>
    ensures same_reference { tx.new.conn.ghost_name ≡ tx.old.conn.ghost_name }
    ensures survives { CommitsNothing (state S.Store tx.old.conn.now)
        (state S.Store tx.new.conn.now) }
{
    let notes = notes_in(tx, alloc)?;
    let goals = goals_for(alloc, site, notes.as_slice(), found)?;
    test(
        alloc,
        site,
        told,
        prints,
        notes.as_slice(),
        goals.as_slice(),
    )?;
    put_goals(tx, goals.as_slice())
}

/// The instances that the file has.
fn items_of(
    alloc: Global,
    told: &OlderRows,
    prints: &[(Text, Print)],
) -> Result<BTreeMap<Text, Instance>, OpeningFault> {
    match stock_all(alloc, told.keys.as_slice(), prints) {
        Ok(items) => Ok(items),
        Err(fault) => Err(of_finding(fault)),
    }
}

/// Writes all that brings the file over, and tests that it is a ledger's of the site then.
fn rewrite<'x, S: Alter>(
    tx: &mut Transaction<'_, S>,
    alloc: Global,
    site: &'x Site,
    lacks: Lacks,
    sheets: &'x Sheets,
) -> Result<(), OpeningFault>
    ensures same_reference { tx.new.conn.ghost_name ≡ tx.old.conn.ghost_name }
    ensures survives { CommitsNothing (state S.Store tx.old.conn.now)
        (state S.Store tx.new.conn.now) }
{
    let told = told_of(alloc, site, sheets)?;
    let prints = prints_for(tx, alloc, lacks, &told)?;
    let items = items_of(alloc, &told, prints.as_slice())?;
    let found = found_goals(tx, alloc, lacks)?;
    make_anew(tx, alloc, sheets, prints.as_slice(), &items)?;
    put_rest(tx, alloc, site, &told, prints.as_slice(), found)?;
    let_all_go(tx, prints.as_slice())
}

/// All that brings the file over, and a look at what it has then.
fn renew<'x, S: Alter>(
    tx: &mut Transaction<'_, S>,
    alloc: Global,
    site: &'x Site,
    lacks: Lacks,
) -> Result<(), OpeningFault>
    ensures same_reference { tx.new.conn.ghost_name ≡ tx.old.conn.ghost_name }
    ensures survives { CommitsNothing (state S.Store tx.old.conn.now)
        (state S.Store tx.new.conn.now) }
    ensures listed { HasCleanDisk (state S.Store tx.new.conn.now)
        → OnOk result (IsDatabase (state S.Store tx.new.conn.now).now) }
    ensures kept { HasCleanDisk (state S.Store tx.new.conn.now)
        → OnOk result
        (KeepsRows (state S.Store tx.old.conn.now).now (state S.Store tx.new.conn.now).now) }
{
    let sheets = ask_sheets(tx)?;
    rewrite(tx, alloc, site, lacks, &sheets)?;
    index_arrivals(tx)?;
    test_sheets(tx, &sheets)
}

/// Brings the file over as one transaction.
fn bring_over<S: Alter>(
    conn: &mut Connection<S>,
    alloc: Global,
    site: &Site,
    lacks: Lacks,
) -> Result<(), OpeningFault>
    requires { conn.old.in_transaction ≡ false }
    ensures idle { conn.new.in_transaction ≡ false }
    ensures clean { doubt (state S.Store conn.old).is_clean
        ≤ doubt (state S.Store conn.new).is_clean }
    ensures made { HasCleanDisk (state S.Store conn.new)
        → OnOk result (LeavesOldOrCommitted (state S.Store conn.old) (state S.Store conn.new)) }
    ensures kept { HasCleanDisk (state S.Store conn.new)
        → OnOk result (KeepsRows (state S.Store conn.old).now (state S.Store conn.new).committed) }
    ensures crash { HasCleanDisk (state S.Store conn.new)
        → LeavesOldOr (KeepsRows (state S.Store conn.old).now) (state S.Store conn.old)
        (state S.Store conn.new) }
{
    let mut tx = conn.transaction();
    renew(&mut tx, alloc, site, lacks)?;
    match tx.commit() {
        Ok(()) => Ok(()),
        Err(error) => Err(of_error(&error)),
    }
}

/// Brings a file from before over to the tables of today; another file stays as it is. Whatever it
/// answers, a crash leaves what it could leave before, or the file that was brought over.
///
/// Errors: OtherSite, where it isn't this site's or has rows that its journal doesn't make; Store;
/// Memory.
pub fn renew_older<S: Alter>(
    conn: &mut Connection<S>,
    alloc: Global,
    site: &Site,
) -> Result<(), OpeningFault>
    requires { conn.old.in_transaction ≡ false }
    ensures idle { conn.new.in_transaction ≡ false }
    ensures clean { doubt (state S.Store conn.old).is_clean
        ≤ doubt (state S.Store conn.new).is_clean }
    ensures found { OnOk result
        ((IsOlder (state S.Store conn.old).now.schema → ⊥)
        → StaysAsFound (state S.Store conn.old) (state S.Store conn.new)) }
    ensures leaves { HasCleanDisk (state S.Store conn.new)
        → OnOk result (LeavesOldOrCommitted (state S.Store conn.old) (state S.Store conn.new)) }
    ensures kept { HasCleanDisk (state S.Store conn.new)
        → IsOlder (state S.Store conn.old).now.schema
        → (state S.Store conn.new).now.schema ≡ tables
        → OnOk result (KeepsRows (state S.Store conn.old).now (state S.Store conn.new).committed) }
    ensures file { HasCleanDisk (state S.Store conn.new)
        → LeavesFile site.now (state S.Store conn.old) (state S.Store conn.new) }
    ensures ours { (state S.Store conn.old).now.schema ≡ tables
        → IfErr result (λ fault. ⊥) × (conn.new ≡ conn.old) }
{
    match lacking(conn.schema()) {
        Some(lacks) => bring_over(conn, alloc, site, lacks),
        None => Ok(()),
    }
}
