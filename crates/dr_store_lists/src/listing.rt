//! Whole tables, each by its rising keys.
ghost use Rattle.std.specs.Prelude.{◌≡◌, List, T, map as mapped, true};
ghost use Rattle.std.specs.FinMap as map;
ghost use Rattle.std.specs.FinMap.Entries.{is_sorted};
ghost use Rattle.std.specs.List.Sorted.{IsStrictlySortedBy};
ghost use Rattle.std.specs.Ordering.{nat_cmp};
ghost use Rattle.sqlite.specs.declared.types.Value.{Value};
ghost use Rattle.sqlite.specs.Held.{state};
ghost use Rattle.dr_base.specs.Texts.{text_cmp};
ghost use Rattle.dr_ledger.specs.Pairs.{pair_cmp};
ghost use Rattle.dr_ledger.specs.Replies.{Lists, Reads};
ghost use Rattle.dr_store_schema.specs.Books.{all_kept_in, arrivals_in, rows_of};
ghost use Rattle.dr_store_lists.specs.Lists.{IsJournal, goal_cmp, goals_of, keys_of, shown_entry};
ghost use Rattle.dr_store_lists.specs.Lists.{shown_goal, shown_instance, shown_key_entry};
ghost use Rattle.dr_store_lists.specs.Lists.{shown_note, shown_note_entry, shown_pair};
ghost use Rattle.dr_store_lists.specs.Lists.{shown_dropping, shown_print_entry, shown_settling};
ghost use Rattle.dr_store_lists.specs.Lists.{whole_prints_of};
ghost use Rattle.dr_store_reads.specs.Queries.{Asked, HasTables, shown_text};

use dr_base::Text;
use dr_ledger::{Instance, LedgerFault, Outcome, Progress};
use dr_route::Key;
use dr_store_reads::Print;
use dr_store_reads::queries::ask;
use dr_store_reads::reading::{
    read_bytes, read_digest, read_key, read_number, read_outcome, read_progress, read_text,
};
use sqlite::{Alter, Connection, Row};
use std::alloc::Global;

/// A line of the journal as its own row has it: where a first arrival goes on to stands in another
/// table.
#[derive(Drop)]
pub enum JournalRow {
    Arrival {
        caller: Text,
        instance: Instance,
    },
    Repeat {
        caller: Text,
        instance: Instance,
    },
    Settling {
        uid: Text,
        dest: Text,
        outcome: Outcome,
        now: u64,
    },
    Requeuing {
        uid: Text,
        dest: Text,
    },
    Dropping {
        uid: Text,
        dest: Text,
        now: u64,
    },
    Forgetting {
        uid: Text,
    },
    Adoption,
}

/// A value that a row of an answer spells.
trait FromRow: Sized {
    // What the row says.
    ghost shown: { List Value → Self };

    fn read(alloc: Global, row: &Row) -> Result<Self, LedgerFault>
        ensures { Reads result (λ x. x ≡ shown row.now) };
}

impl FromRow for Text {
    ghost use Rattle.dr_store_reads.specs.Queries.{shown_text};

    ghost shown = { shown_text };

    fn read(alloc: Global, row: &Row) -> Result<Text, LedgerFault> {
        read_text(alloc, row, 0)
    }
}

impl FromRow for (Text, Text) {
    ghost use Rattle.dr_store_lists.specs.Lists.{shown_pair};

    ghost shown = { shown_pair };

    fn read(alloc: Global, row: &Row) -> Result<(Text, Text), LedgerFault> {
        let first = read_text(alloc, row, 0)?;
        let second = read_text(alloc, row, 1)?;
        Ok((first, second))
    }
}

impl FromRow for (u64, Text) {
    ghost use Rattle.dr_store_lists.specs.Lists.{shown_goal};

    ghost shown = { shown_goal };

    fn read(alloc: Global, row: &Row) -> Result<(u64, Text), LedgerFault> {
        let number = read_number(row, 0)?;
        let name = read_text(alloc, row, 1)?;
        Ok((number, name))
    }
}

impl FromRow for (Text, Key) {
    ghost use Rattle.dr_store_lists.specs.Lists.{shown_key_entry};

    ghost shown = { shown_key_entry };

    fn read(alloc: Global, row: &Row) -> Result<(Text, Key), LedgerFault> {
        let uid = read_text(alloc, row, 0)?;
        let key = read_key(alloc, row, 1)?;
        Ok((uid, key))
    }
}

impl FromRow for (Text, Print) {
    ghost use Rattle.dr_store_lists.specs.Lists.{shown_print_entry};

    ghost shown = { shown_print_entry };

    fn read(alloc: Global, row: &Row) -> Result<(Text, Print), LedgerFault> {
        let uid = read_text(alloc, row, 0)?;
        let size = read_number(row, 1)?;
        let digest = read_digest(row, 2)?;
        let whole = read_number(row, 3)? != 0;
        let print = Print {
            size,
            digest,
            whole,
        };
        Ok((uid, print))
    }
}

impl FromRow for ((Text, Text), Progress) {
    ghost use Rattle.dr_store_lists.specs.Lists.{shown_entry};

    ghost shown = { shown_entry };

    fn read(alloc: Global, row: &Row) -> Result<((Text, Text), Progress), LedgerFault> {
        let uid = read_text(alloc, row, 0)?;
        let dest = read_text(alloc, row, 1)?;
        let Some(progress) = read_progress(row, 2) else {
            return Err(LedgerFault::Store);
        };
        Ok(((uid, dest), progress))
    }
}

impl FromRow for (u64, JournalRow) {
    ghost use Rattle.dr_store_lists.specs.Lists.{shown_note_entry};

    ghost shown = { shown_note_entry };

    fn read(alloc: Global, row: &Row) -> Result<(u64, JournalRow), LedgerFault> {
        let number = read_number(row, 0)?;
        let note = read_note(alloc, row)?;
        Ok((number, note))
    }
}

/// What a line of the journal says by its columns n, kind, caller, uid, dest, outcome and moment,
/// and by those of its instance.
fn read_note(alloc: Global, row: &Row) -> Result<JournalRow, LedgerFault>
    ensures { Reads result (λ note. note ≡ shown_note row.now) }
{
    match read_number(row, 1)? {
        0 => {
            let caller = read_text(alloc, row, 2)?;
            let instance = read_instance(alloc, row)?;
            Ok(JournalRow::Arrival { caller, instance })
        }
        1 => {
            let caller = read_text(alloc, row, 2)?;
            let instance = read_instance(alloc, row)?;
            Ok(JournalRow::Repeat { caller, instance })
        }
        2 => read_settling(alloc, row),
        3 => {
            let uid = read_text(alloc, row, 3)?;
            let dest = read_text(alloc, row, 4)?;
            Ok(JournalRow::Requeuing { uid, dest })
        }
        5 => {
            let uid = read_text(alloc, row, 3)?;
            Ok(JournalRow::Forgetting { uid })
        }
        6 => read_dropping(alloc, row),
        _ => Ok(JournalRow::Adoption),
    }
}

/// The instance of a line, by its columns uid, class, syntax, modality, station, length and sha256.
fn read_instance(alloc: Global, row: &Row) -> Result<Instance, LedgerFault>
    ensures { Reads result (λ instance. instance ≡ shown_instance row.now) }
{
    let uid = read_text(alloc, row, 3)?;
    let key = read_key(alloc, row, 7)?;
    let size = read_number(row, 11)?;
    let digest = read_digest(row, 12)?;
    Ok(Instance {
        uid,
        key,
        size,
        digest,
    })
}

fn read_settling(alloc: Global, row: &Row) -> Result<JournalRow, LedgerFault>
    ensures { Reads result (λ note. note ≡ shown_settling row.now) }
{
    let uid = read_text(alloc, row, 3)?;
    let dest = read_text(alloc, row, 4)?;
    let outcome = read_outcome(row, 5)?;
    let now = read_number(row, 6)?;
    Ok(JournalRow::Settling {
        uid,
        dest,
        outcome,
        now,
    })
}

fn read_dropping(alloc: Global, row: &Row) -> Result<JournalRow, LedgerFault>
    ensures { Reads result (λ note. note ≡ shown_dropping row.now) }
{
    let uid = read_text(alloc, row, 3)?;
    let dest = read_text(alloc, row, 4)?;
    let now = read_number(row, 6)?;
    Ok(JournalRow::Dropping { uid, dest, now })
}

/// What all rows say.
fn read_all<T: FromRow + Drop>(alloc: Global, rows: &[Row]) -> Result<Vec<T>, LedgerFault>
    ensures { Reads result (λ all. all.items ≡ mapped T.shown rows.now) }
{
    let mut all = Vec::new(alloc);
    for row in rows {
        all.push(T::read(alloc, row)?)?;
    }
    Ok(all)
}

/// Whether each key comes before the next.
pub fn rise<K: Ord, V>(entries: &[(K, V)]) -> bool
    ensures { result ≡ true → T (is_sorted K.cmp entries.now) }
{
    entries.is_sorted_by(|a, b| a.0.cmp(&b.0).is_lt())
}

/// The same, of keys alone.
fn keys_rise<K: Ord>(keys: &[K]) -> bool
    ensures { result ≡ true → IsStrictlySortedBy K.cmp keys.now }
{
    keys.is_sorted_by(|a, b| a.cmp(b).is_lt())
}

// ---- the rows of an answer, whose keys have to rise

/// Uids with keys.
pub fn key_entries(alloc: Global, rows: &[Row]) -> Result<Vec<(Text, Key)>, LedgerFault>
    ensures { Reads result (λ all.
        (all.items ≡ mapped shown_key_entry rows.now) × T (is_sorted text_cmp all.items)) }
{
    let entries = read_all::<(Text, Key)>(alloc, rows)?;
    if !rise(entries.as_slice()) {
        return Err(LedgerFault::Store);
    }
    Ok(entries)
}

/// Uids with prints.
pub fn print_entries(alloc: Global, rows: &[Row]) -> Result<Vec<(Text, Print)>, LedgerFault>
    ensures { Reads result (λ all.
        (all.items ≡ mapped shown_print_entry rows.now) × T (is_sorted text_cmp all.items)) }
{
    let entries = read_all::<(Text, Print)>(alloc, rows)?;
    if !rise(entries.as_slice()) {
        return Err(LedgerFault::Store);
    }
    Ok(entries)
}

/// Uids and destinations, with how far each is.
pub fn row_entries(
    alloc: Global,
    rows: &[Row],
) -> Result<Vec<((Text, Text), Progress)>, LedgerFault>
    ensures { Reads result (λ all.
        (all.items ≡ mapped shown_entry rows.now) × T (is_sorted pair_cmp all.items)) }
{
    let entries = read_all::<((Text, Text), Progress)>(alloc, rows)?;
    if !rise(entries.as_slice()) {
        return Err(LedgerFault::Store);
    }
    Ok(entries)
}

/// Numbers with notes.
pub fn note_entries(alloc: Global, rows: &[Row]) -> Result<Vec<(u64, JournalRow)>, LedgerFault>
    ensures { Reads result (λ all.
        (all.items ≡ mapped shown_note_entry rows.now) × T (is_sorted nat_cmp all.items)) }
{
    let entries = read_all::<(u64, JournalRow)>(alloc, rows)?;
    if !rise(entries.as_slice()) {
        return Err(LedgerFault::Store);
    }
    Ok(entries)
}

/// Pairs of texts.
pub fn pair_keys(alloc: Global, rows: &[Row]) -> Result<Vec<(Text, Text)>, LedgerFault>
    ensures { Reads result (λ all.
        (all.items ≡ mapped shown_pair rows.now) × IsStrictlySortedBy pair_cmp all.items) }
{
    let keys = read_all::<(Text, Text)>(alloc, rows)?;
    if !keys_rise(keys.as_slice()) {
        return Err(LedgerFault::Store);
    }
    Ok(keys)
}

/// Texts.
pub fn text_keys(alloc: Global, rows: &[Row]) -> Result<Vec<Text>, LedgerFault>
    ensures { Reads result (λ all.
        (all.items ≡ mapped shown_text rows.now) × IsStrictlySortedBy text_cmp all.items) }
{
    let keys = read_all::<Text>(alloc, rows)?;
    if !keys_rise(keys.as_slice()) {
        return Err(LedgerFault::Store);
    }
    Ok(keys)
}

/// Numbers and names.
pub fn goal_keys(alloc: Global, rows: &[Row]) -> Result<Vec<(u64, Text)>, LedgerFault>
    ensures { Reads result (λ all.
        (all.items ≡ mapped shown_goal rows.now) × IsStrictlySortedBy goal_cmp all.items) }
{
    let keys = read_all::<(u64, Text)>(alloc, rows)?;
    if !keys_rise(keys.as_slice()) {
        return Err(LedgerFault::Store);
    }
    Ok(keys)
}

// ---- whole tables

/// The uid and the key of each instance, in byte order.
pub fn all_keys<S: Alter>(
    conn: &mut Connection<S>,
    alloc: Global,
) -> Result<Vec<(Text, Key)>, LedgerFault>
    ensures asked { Asked HasTables result (state S.Store conn.old) (state S.Store conn.new)
        (λ all. all.items ≡ map.entries (keys_of (state S.Store conn.old).now.trees)) }
{
    let rows = ask(
        conn,
        "SELECT uid, class, syntax, modality, station FROM item ORDER BY uid",
        &[],
    )?;
    key_entries(alloc, rows.as_slice())
}

/// Of each instance's data set the length, the SHA-256 and whether it is there, in byte order of
/// the uid.
pub fn all_prints<S: Alter>(
    conn: &mut Connection<S>,
    alloc: Global,
) -> Result<Vec<(Text, Print)>, LedgerFault>
    ensures asked { Asked HasTables result (state S.Store conn.old) (state S.Store conn.new)
        (λ all. all.items ≡ map.entries (whole_prints_of (state S.Store conn.old).now.trees)) }
{
    let rows = ask(
        conn,
        "SELECT uid, length, sha256, whole FROM print ORDER BY uid",
        &[],
    )?;
    print_entries(alloc, rows.as_slice())
}

/// Callers and uids, in byte order of the caller, then of the uid.
pub fn all_arrivals<S: Alter>(
    conn: &mut Connection<S>,
    alloc: Global,
) -> Result<Vec<(Text, Text)>, LedgerFault>
    ensures asked { Asked HasTables result (state S.Store conn.old) (state S.Store conn.new)
        (λ all. Lists pair_cmp (arrivals_in ((state S.Store conn.old).now.trees 5)) all.items) }
{
    let rows = ask(
        conn,
        "SELECT caller, uid FROM arrival ORDER BY caller, uid",
        &[],
    )?;
    pair_keys(alloc, rows.as_slice())
}

/// The kept uids, in byte order.
pub fn all_kept<S: Alter>(conn: &mut Connection<S>, alloc: Global) -> Result<Vec<Text>, LedgerFault>
    ensures asked { Asked HasTables result (state S.Store conn.old) (state S.Store conn.new)
        (λ all. Lists text_cmp (all_kept_in ((state S.Store conn.old).now.trees 7)) all.items) }
{
    let rows = ask(conn, "SELECT uid FROM kept ORDER BY uid", &[])?;
    text_keys(alloc, rows.as_slice())
}

/// How far each uid is on its way to each destination, in byte order of the uid, then of the
/// destination.
pub fn all_rows<S: Alter>(
    conn: &mut Connection<S>,
    alloc: Global,
) -> Result<Vec<((Text, Text), Progress)>, LedgerFault>
    ensures asked { Asked HasTables result (state S.Store conn.old) (state S.Store conn.new)
        (λ all. all.items ≡ map.entries (rows_of (state S.Store conn.old).now.trees)) }
{
    let rows = ask(
        conn,
        "SELECT uid, dest, state, tries, due, cause FROM queue ORDER BY uid, dest",
        &[],
    )?;
    row_entries(alloc, rows.as_slice())
}

/// The lines of the journal with their numbers, which rise.
pub fn all_notes<S: Alter>(
    conn: &mut Connection<S>,
    alloc: Global,
) -> Result<Vec<(u64, JournalRow)>, LedgerFault>
    ensures asked { Asked HasTables result (state S.Store conn.old) (state S.Store conn.new)
        (λ all. IsJournal (state S.Store conn.old).now.trees all.items) }
{
    let rows = ask(
        conn,
        "SELECT n, kind, caller, uid, dest, outcome, moment, class, syntax, modality, station, length, sha256 FROM journal ORDER BY n",
        &[],
    )?;
    note_entries(alloc, rows.as_slice())
}

/// Where the first arrivals go on to: the line's number and the destination, or `-` where it is
/// kept; by the number, then in byte order.
pub fn all_targets<S: Alter>(
    conn: &mut Connection<S>,
    alloc: Global,
) -> Result<Vec<(u64, Text)>, LedgerFault>
    ensures asked { Asked HasTables result (state S.Store conn.old) (state S.Store conn.new)
        (λ all. Lists goal_cmp (goals_of (state S.Store conn.old).now.trees) all.items) }
{
    let rows = ask(conn, "SELECT n, dest FROM target ORDER BY n, dest", &[])?;
    goal_keys(alloc, rows.as_slice())
}
