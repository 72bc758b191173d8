//! Rows of an instance, who brought it, and pages of a destination's rows.
ghost use Rattle.std.specs.Prelude.{◌≡◌, map as mapped, pos};
ghost use Rattle.std.specs.FinMap as map;
ghost use Rattle.sqlite.specs.Held.{state};
ghost use Rattle.sqlite.specs.declared.types.Value.TheVariants.{Int};
ghost use Rattle.sqlite_value.specs.Value.{owned};
ghost use Rattle.dr_ledger.specs.Replies.{Reads};
ghost use Rattle.std.specs.List.Sorted.{IsStrictlySortedBy};
ghost use Rattle.dr_base.specs.Texts.{text_cmp};
ghost use Rattle.dr_ledger_views.specs.Views.{AreCallers, page_of, rows_of as own_rows};
ghost use Rattle.dr_store_schema.specs.Books.{arrivals_in, rows_of as all_rows_of};
ghost use Rattle.dr_store_schema.specs.Ledgers.{IsLedger};
ghost use Rattle.dr_store_lists.specs.Lists.{shown_entry};
ghost use Rattle.dr_store_reads.specs.Queries.{Asked, shown_text};
ghost use Rattle.dr_store_views.specs.Answers.{greatest_state, least_state};

use crate::counting::state_cell;
use dr_base::{Seq, Text};
use dr_ledger::{LedgerFault, Progress, Row as Entry};
use dr_ledger_views::Stage;
use dr_store_lists::listing::{row_entries, text_keys};
use dr_store_reads::queries::ask;
use sqlite::types::ValueRef;
use sqlite::{Alter, Connection, Row};
use std::alloc::Global;

/// What the rows of an answer say; their keys have to rise.
fn entries_in(alloc: Global, rows: &[Row]) -> Result<Seq<Entry>, LedgerFault>
    ensures { Reads result (λ all. all ≡ mapped shown_entry rows.now) }
{
    match row_entries(alloc, rows) {
        Ok(all) => Ok(Seq::from_vec(all)),
        Err(fault) => Err(fault),
    }
}

/// The least of the states that are wanted.
fn from_cell(stage: Option<Stage>) -> ValueRef<'static>
    ensures { owned result ≡ Int (pos (least_state stage)) }
{
    match stage {
        Some(named) => state_cell(named),
        None => ValueRef::Int(0),
    }
}

/// The greatest of them.
fn to_cell(stage: Option<Stage>) -> ValueRef<'static>
    ensures { owned result ≡ Int (pos (greatest_state stage)) }
{
    match stage {
        Some(named) => state_cell(named),
        None => ValueRef::Int(3),
    }
}

/// How many rows are wanted.
fn limit_cell(limit: u32) -> ValueRef<'static>
    ensures { owned result ≡ Int (pos limit) }
{
    ValueRef::Int(i64::from(limit))
}

/// The rows of an instance, in byte order of their destinations.
pub fn rows_of<'x, S: Alter>(
    conn: &mut Connection<S>,
    alloc: Global,
    uid: &'x Text,
) -> Result<Seq<Entry>, LedgerFault>
    ensures asked { Asked IsLedger result (state S.Store conn.old) (state S.Store conn.new)
        (λ all. all
        ≡ own_rows (map.entries (all_rows_of (state S.Store conn.old).now.trees)) uid.now) }
{
    let rows = ask(
        conn,
        "SELECT uid, dest, state, tries, due, cause FROM queue WHERE uid = ?1 ORDER BY dest",
        &[ValueRef::Text(uid.as_bytes())],
    )?;
    entries_in(alloc, rows.as_slice())
}

/// What the rows of an answer say, which are texts; they have to rise.
fn texts_in(alloc: Global, rows: &[Row]) -> Result<Seq<Text>, LedgerFault>
    ensures { Reads result (λ all.
        (all ≡ mapped shown_text rows.now) × IsStrictlySortedBy text_cmp all) }
{
    match text_keys(alloc, rows) {
        Ok(all) => Ok(Seq::from_vec(all)),
        Err(fault) => Err(fault),
    }
}

/// Who brought an instance, in byte order. Its arrivals are looked up in an index.
pub fn callers_of<'x, S: Alter>(
    conn: &mut Connection<S>,
    alloc: Global,
    uid: &'x Text,
) -> Result<Seq<Text>, LedgerFault>
    ensures asked { Asked IsLedger result (state S.Store conn.old) (state S.Store conn.new)
        (AreCallers (arrivals_in ((state S.Store conn.old).now.trees 5)) uid.now) }
{
    let rows = ask(
        conn,
        "SELECT caller FROM arrival WHERE uid = ?1 ORDER BY caller",
        &[ValueRef::Text(uid.as_bytes())],
    )?;
    texts_in(alloc, rows.as_slice())
}

/// A page of the rows to the destination, in byte order of their uids.
pub fn page<'x, S: Alter>(
    conn: &mut Connection<S>,
    alloc: Global,
    dest: &'x Text,
    stage: Option<Stage>,
    after: &'x Text,
    limit: u32,
) -> Result<Seq<Entry>, LedgerFault>
    ensures asked { Asked IsLedger result (state S.Store conn.old) (state S.Store conn.new)
        (λ all. all
        ≡ page_of (map.entries (all_rows_of (state S.Store conn.old).now.trees)) dest.now stage
        after.now limit) }
{
    let rows = ask(
        conn,
        "SELECT uid, dest, state, tries, due, cause FROM queue WHERE dest = ?1 AND state >= ?2 AND state <= ?3 AND uid > ?4 ORDER BY uid LIMIT ?5",
        &[
            ValueRef::Text(dest.as_bytes()),
            from_cell(stage),
            to_cell(stage),
            ValueRef::Text(after.as_bytes()),
            limit_cell(limit),
        ],
    )?;
    entries_in(alloc, rows.as_slice())
}
