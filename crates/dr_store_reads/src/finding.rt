//! What the tables have of one instance, of one row, and of their owner.
ghost use Rattle.std.specs.Prelude.{◌≡◌, ◌↔◌, ◌≤◌, ◌⊎◌, ◌^◌, ◌-◌, pos, IsTrue, Some};
ghost use Rattle.std.specs.FinMap as map;
ghost use Rattle.std.specs.FinSet as set;
ghost use Rattle.sqlite.specs.Held.{state};
ghost use Rattle.sqlite.specs.Order.{column};
ghost use Rattle.sqlite.specs.Values.{bound};
ghost use Rattle.sqlite.specs.Listing.{understood};
ghost use Rattle.sqlite.specs.Given.{IsPlain};
ghost use Rattle.sqlite_value.specs.Value.{owned};
ghost use Rattle.sqlite.specs.declared.types.Value.TheVariants.{Int};
ghost use Rattle.dr_ledger.specs.Replies.{Reads};
ghost use Rattle.dr_store_schema.specs.Books.{all_kept_in, arrivals_in, rows_of};
ghost use Rattle.dr_store_schema.specs.Ledgers.{IsLedger};
ghost use Rattle.dr_store_reads.specs.Queries.{Asked, IsAnyShown, IsFirstDue, IsJobOf, IsKeyOf};
ghost use Rattle.dr_store_reads.specs.Queries.{IsBlobIn};
ghost use Rattle.dr_store_reads.specs.Queries.{IsOpenElsewhere, IsOwnerAsShown, IsOwnerIn};
ghost use Rattle.dr_store_reads.specs.Queries.{IsOwnerOf, IsPrintOf, IsTextIn, IsStored};
ghost use Rattle.dr_store_reads.specs.Queries.{HasOpen, first_of, shown_job, shown_key};
ghost use Rattle.dr_store_reads.specs.Queries.{shown_print};
ghost use Rattle.dr_store_reads.specs.Queries.{shown_progress, shown_text};

use crate::queries::ask;
use crate::reading::{read_bytes, read_digest, read_key, read_number, read_progress, read_text};
use dr_base::{Octets, Text};
use dr_ledger::{Instance, Job, LedgerFault, Progress};
use dr_route::Key;
use sqlite::types::ValueRef;
use sqlite::{Alter, Connection, Row};
use std::alloc::Global;

/// Of a data set its length (bytes), its SHA-256, and whether it is there.
#[derive(Clone, Copy)]
pub struct Print {
    pub size: u64,
    pub digest: [u8; 32],
    pub whole: bool,
}

/// What is known of an instance, and whether its data set is there.
#[derive(Drop)]
pub struct Stored {
    pub instance: Instance,
    pub whole: bool,
}

/// Whose ledger it is: the node's name, and the SHA-256 of the plan in force.
#[derive(Drop)]
pub struct Owner {
    pub node: Text,
    pub plan: Octets,
}

// ---- the first row of an answer

fn first_key(alloc: Global, rows: &[Row]) -> Result<Option<Key>, LedgerFault>
    ensures { Reads result (λ key. key ≡ first_of shown_key rows.now) }
{
    let Some(row) = rows.first() else {
        return Ok(None);
    };
    let key = read_key(alloc, row, 0)?;
    Ok(Some(key))
}

fn first_print(rows: &[Row]) -> Result<Option<Print>, LedgerFault>
    ensures { Reads result (λ print. print ≡ first_of shown_print rows.now) }
{
    let Some(row) = rows.first() else {
        return Ok(None);
    };
    let size = read_number(row, 0)?;
    let digest = read_digest(row, 1)?;
    let whole = read_number(row, 2)? != 0;
    Ok(Some(Print {
        size,
        digest,
        whole,
    }))
}

fn first_job(alloc: Global, uid: &Text, rows: &[Row]) -> Result<Option<Job>, LedgerFault>
    ensures { Reads result (λ job. job ≡ first_of (shown_job uid.now) rows.now) }
{
    let Some(row) = rows.first() else {
        return Ok(None);
    };
    let key = read_key(alloc, row, 0)?;
    let body = read_bytes(alloc, row, 4)?;
    let uid = uid.clone()?;
    Ok(Some(Job { uid, key, body }))
}

fn first_progress(rows: &[Row]) -> Result<Option<Progress>, LedgerFault>
    ensures { Reads result (λ progress. progress ≡ first_of shown_progress rows.now) }
{
    let Some(row) = rows.first() else {
        return Ok(None);
    };
    match read_progress(row, 0) {
        Some(progress) => Ok(Some(progress)),
        None => Err(LedgerFault::Store),
    }
}

fn first_text(alloc: Global, rows: &[Row]) -> Result<Option<Text>, LedgerFault>
    ensures { Reads result (λ text. text ≡ first_of shown_text rows.now) }
{
    let Some(row) = rows.first() else {
        return Ok(None);
    };
    let text = read_text(alloc, row, 0)?;
    Ok(Some(text))
}

/// A moment, or the last one that a cell can hold.
fn moment_cell(now: u64) -> ValueRef<'static>
    ensures { (owned result ≡ Int (pos now))
        ⊎ ((owned result ≡ Int (pos (2 ^ 63 - 1))) × (2 ^ 63 ≤ now)) }
{
    match i64::try_from(now) {
        Ok(moment) => ValueRef::Int(moment),
        Err(_) => ValueRef::Int(i64::MAX),
    }
}

/// The instance of this uid and this key, with what its print says.
fn with_print<'x, S: Alter>(
    conn: &mut Connection<S>,
    uid: &'x Text,
    key: Key,
) -> Result<Option<Stored>, LedgerFault>
    ensures asked { Asked IsLedger result (state S.Store conn.old) (state S.Store conn.new)
        (λ found. IsKeyOf uid.now (state S.Store conn.old).now.trees (Some key)
        → IsStored uid.now (state S.Store conn.old).now.trees found) }
{
    match find_print(conn, uid) {
        Ok(Some(print)) => as_stored(uid, key, print),
        Ok(None) => Err(LedgerFault::Store),
        Err(fault) => Err(fault),
    }
}

fn as_stored(uid: &Text, key: Key, print: Print) -> Result<Option<Stored>, LedgerFault>
    ensures { Reads result (λ found. found
        ≡ Some
        (record {
          instance =
              record { uid = uid.now; key = key; size = print.size; digest = print.digest };
          whole = print.whole;
        })) }
{
    let uid = uid.clone()?;
    let digest = print.digest;
    let instance = Instance {
        uid,
        key,
        size: print.size,
        digest,
    };
    Ok(Some(Stored {
        instance,
        whole: print.whole,
    }))
}

// ---- queries

/// Whether the answer of a query has a row.
fn ask_any<S: Alter>(
    conn: &mut Connection<S>,
    sql: &str,
    params: &[ValueRef<'_>],
) -> Result<bool, LedgerFault>
    ensures asked { Asked
        (λ db. IsPlain (understood db.schema sql.now)) result (state S.Store conn.old)
        (state S.Store conn.new)
        (IsAnyShown sql.now (bound params.now) (state S.Store conn.old) (state S.Store conn.new)) }
{
    let rows = ask(conn, sql, params)?;
    Ok(!rows.as_slice().is_empty())
}

/// What rules read of the instance of this uid, if it is there.
pub fn find_key<'x, S: Alter>(
    conn: &mut Connection<S>,
    alloc: Global,
    uid: &'x Text,
) -> Result<Option<Key>, LedgerFault>
    ensures asked { Asked IsLedger result (state S.Store conn.old) (state S.Store conn.new)
        (IsKeyOf uid.now (state S.Store conn.old).now.trees) }
{
    let rows = ask(
        conn,
        "SELECT class, syntax, modality, station FROM item WHERE uid = ?1",
        &[ValueRef::Text(uid.as_bytes())],
    )?;
    first_key(alloc, rows.as_slice())
}

/// The length and the SHA-256 of the data set of this uid, and whether it is there, if there is
/// such an instance.
pub fn find_print<'x, S: Alter>(
    conn: &mut Connection<S>,
    uid: &'x Text,
) -> Result<Option<Print>, LedgerFault>
    ensures asked { Asked IsLedger result (state S.Store conn.old) (state S.Store conn.new)
        (IsPrintOf uid.now (state S.Store conn.old).now.trees) }
{
    let rows = ask(
        conn,
        "SELECT length, sha256, whole FROM print WHERE uid = ?1",
        &[ValueRef::Text(uid.as_bytes())],
    )?;
    first_print(rows.as_slice())
}

/// The instance of this uid and whether its data set is there, if there is one. The data set isn't
/// read.
pub fn find_item<'x, S: Alter>(
    conn: &mut Connection<S>,
    alloc: Global,
    uid: &'x Text,
) -> Result<Option<Stored>, LedgerFault>
    ensures asked { Asked IsLedger result (state S.Store conn.old) (state S.Store conn.new)
        (IsStored uid.now (state S.Store conn.old).now.trees) }
{
    match find_key(conn, alloc, uid) {
        Ok(Some(key)) => with_print(conn, uid, key),
        Ok(None) => Ok(None),
        Err(fault) => Err(fault),
    }
}

/// The instance of this uid with its data set, if it is there; where the data set was let go, it
/// has none of its bytes.
pub fn find_job<'x, S: Alter>(
    conn: &mut Connection<S>,
    alloc: Global,
    uid: &'x Text,
) -> Result<Option<Job>, LedgerFault>
    ensures asked { Asked IsLedger result (state S.Store conn.old) (state S.Store conn.new)
        (IsJobOf uid.now (state S.Store conn.old).now.trees) }
{
    let rows = ask(
        conn,
        "SELECT class, syntax, modality, station, body FROM item WHERE uid = ?1",
        &[ValueRef::Text(uid.as_bytes())],
    )?;
    first_job(alloc, uid, rows.as_slice())
}

/// Whether the caller brought this uid since the last adoption.
pub fn find_arrival<'x, S: Alter>(
    conn: &mut Connection<S>,
    caller: &'x Text,
    uid: &'x Text,
) -> Result<bool, LedgerFault>
    ensures asked { Asked IsLedger result (state S.Store conn.old) (state S.Store conn.new)
        (λ there. there
        ≡ set.contains (arrivals_in ((state S.Store conn.old).now.trees 5)) (caller.now, uid.now)) }
{
    ask_any(
        conn,
        "SELECT uid FROM arrival WHERE caller = ?1 AND uid = ?2",
        &[
            ValueRef::Text(caller.as_bytes()),
            ValueRef::Text(uid.as_bytes()),
        ],
    )
}

/// Whether the instance of this uid is kept.
pub fn find_kept<'x, S: Alter>(conn: &mut Connection<S>, uid: &'x Text) -> Result<bool, LedgerFault>
    ensures asked { Asked IsLedger result (state S.Store conn.old) (state S.Store conn.new)
        (λ there.
        there ≡ set.contains (all_kept_in ((state S.Store conn.old).now.trees 7)) uid.now) }
{
    ask_any(
        conn,
        "SELECT uid FROM kept WHERE uid = ?1",
        &[ValueRef::Text(uid.as_bytes())],
    )
}

/// How far an instance is on its way to a destination, if it has such a row.
pub fn find_row<'x, S: Alter>(
    conn: &mut Connection<S>,
    uid: &'x Text,
    dest: &'x Text,
) -> Result<Option<Progress>, LedgerFault>
    ensures asked { Asked IsLedger result (state S.Store conn.old) (state S.Store conn.new)
        (λ row. row ≡ map.get (rows_of (state S.Store conn.old).now.trees) (uid.now, dest.now)) }
{
    let rows = ask(
        conn,
        "SELECT state, tries, due, cause FROM queue WHERE uid = ?1 AND dest = ?2",
        &[
            ValueRef::Text(uid.as_bytes()),
            ValueRef::Text(dest.as_bytes()),
        ],
    )?;
    first_progress(rows.as_slice())
}

/// Whether an instance waits or is held for another destination than this one, so that its data set
/// is needed still.
pub fn is_open_elsewhere<'x, S: Alter>(
    conn: &mut Connection<S>,
    uid: &'x Text,
    dest: &'x Text,
) -> Result<bool, LedgerFault>
    ensures asked { Asked IsLedger result (state S.Store conn.old) (state S.Store conn.new)
        (λ needed.
        IsTrue needed ↔ IsOpenElsewhere (state S.Store conn.old).now.trees uid.now dest.now) }
{
    ask_any(
        conn,
        "SELECT dest FROM queue WHERE uid = ?1 AND dest <> ?2 AND state < 2",
        &[
            ValueRef::Text(uid.as_bytes()),
            ValueRef::Text(dest.as_bytes()),
        ],
    )
}

/// Whether an instance waits or is held for any destination, so that it isn't over.
pub fn has_open<'x, S: Alter>(conn: &mut Connection<S>, uid: &'x Text) -> Result<bool, LedgerFault>
    ensures asked { Asked IsLedger result (state S.Store conn.old) (state S.Store conn.new)
        (λ open_row. IsTrue open_row ↔ HasOpen (state S.Store conn.old).now.trees uid.now) }
{
    ask_any(
        conn,
        "SELECT dest FROM queue WHERE uid = ?1 AND state < 2",
        &[ValueRef::Text(uid.as_bytes())],
    )
}

/// The uid of the first row for a destination, by (due, uid), that waits and is due at the moment
/// `now` (milliseconds).
pub fn find_next<'x, S: Alter>(
    conn: &mut Connection<S>,
    alloc: Global,
    dest: &'x Text,
    now: u64,
) -> Result<Option<Text>, LedgerFault>
    ensures asked { Asked IsLedger result (state S.Store conn.old) (state S.Store conn.new)
        (IsFirstDue (state S.Store conn.old).now.trees dest.now now) }
{
    let rows = ask(
        conn,
        "SELECT uid FROM queue WHERE dest = ?1 AND state = 0 AND due <= ?2 ORDER BY due, uid LIMIT 1",
        &[ValueRef::Text(dest.as_bytes()), moment_cell(now)],
    )?;
    first_text(alloc, rows.as_slice())
}

/// Whose ledger it is; None where the table isn't that of one owner.
pub fn find_owner<S: Alter>(
    conn: &mut Connection<S>,
    alloc: Global,
) -> Result<Option<Owner>, LedgerFault>
    ensures asked { Asked IsLedger result (state S.Store conn.old) (state S.Store conn.new)
        (IsOwnerOf (state S.Store conn.old).now.trees) }
{
    let rows = ask(conn, "SELECT id, node, plan FROM site", &[])?;
    one_owner(alloc, rows.as_slice())
}

fn one_owner(alloc: Global, rows: &[Row]) -> Result<Option<Owner>, LedgerFault>
    ensures { Reads result (IsOwnerAsShown rows.now) }
{
    if rows.len() != 1 {
        return Ok(None);
    }
    let Some(row) = rows.first() else {
        return Ok(None);
    };
    owner_in(alloc, row)
}

fn owner_in(alloc: Global, row: &Row) -> Result<Option<Owner>, LedgerFault>
    ensures { Reads result (IsOwnerIn row.now) }
{
    if !is_first(row) {
        return Ok(None);
    }
    let Some(node) = text_at(alloc, row, 1)? else {
        return Ok(None);
    };
    let Some(plan) = blob_at(alloc, row, 2)? else {
        return Ok(None);
    };
    Ok(Some(Owner { node, plan }))
}

fn is_first(row: &Row) -> bool
    ensures { IsTrue result ↔ (column row.now 0 ≡ Int (pos 1)) }
{
    match row.get_ref(0) {
        Ok(ValueRef::Int(id)) => id == 1,
        Ok(ValueRef::Null) => false,
        Ok(ValueRef::Real(_)) => false,
        Ok(ValueRef::Text(_)) => false,
        Ok(ValueRef::Blob(_)) => false,
        Err(_) => false,
    }
}

fn text_at(alloc: Global, row: &Row, at: usize) -> Result<Option<Text>, LedgerFault>
    ensures { Reads result (IsTextIn (column row.now at)) }
{
    match row.get_ref(at) {
        Ok(ValueRef::Text(bytes)) => {
            let text = Text::copy_of(alloc, bytes)?;
            Ok(Some(text))
        }
        Ok(ValueRef::Null) => Ok(None),
        Ok(ValueRef::Int(_)) => Ok(None),
        Ok(ValueRef::Real(_)) => Ok(None),
        Ok(ValueRef::Blob(_)) => Ok(None),
        Err(_) => Ok(None),
    }
}

fn blob_at(alloc: Global, row: &Row, at: usize) -> Result<Option<Octets>, LedgerFault>
    ensures { Reads result (IsBlobIn (column row.now at)) }
{
    match row.get_ref(at) {
        Ok(ValueRef::Blob(bytes)) => {
            let octets = Text::copy_of(alloc, bytes)?;
            Ok(Some(octets))
        }
        Ok(ValueRef::Null) => Ok(None),
        Ok(ValueRef::Int(_)) => Ok(None),
        Ok(ValueRef::Real(_)) => Ok(None),
        Ok(ValueRef::Text(_)) => Ok(None),
        Err(_) => Ok(None),
    }
}
