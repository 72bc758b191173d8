//! Whole lists of a ledger's tables.
ghost use Rattle.std.specs.Prelude.{◌≡◌, ℕ, T, false, map as mapped, IfOk, OnOk, ◌++◌};
ghost use Rattle.std.specs.FinMap as map;
ghost use Rattle.std.specs.FinMap.{is_sorted};
ghost use Rattle.sqlite.specs.Held.{state};
ghost use Rattle.dr_site.specs.Parts.{Part};
ghost use Rattle.dr_base.specs.Texts.{text_cmp};
ghost use Rattle.dr_ledger.specs.Books.{is_queued};
ghost use Rattle.dr_ledger.specs.Pairs.{pair_cmp};
ghost use Rattle.dr_ledger.specs.Replies.{AreKept, Lists, Reads};
ghost use Rattle.dr_store_schema.specs.Books.{all_kept_in, arrivals_in, book_of, rows_of};
ghost use Rattle.dr_store_calls.specs.Calling.{Looked};
ghost use Rattle.dr_store_lists.specs.Lists.{keys_of, whole_prints_of};
ghost use Rattle.dr_store.specs.Listing.{AreSized, IsSized, IsUnfitAmong, UnfitsAmong, UnfitsOf};

use dr_base::{Seq, Text};
use dr_cert::Sealed;
use dr_ledger::{LedgerFault, Progress};
use dr_ledger_views::table::get;
use dr_route::Key;
use dr_store_lists::{all_arrivals, all_kept, all_keys, all_prints, all_rows};
use dr_store_reads::Print;
use sqlite::{Alter, Connection};
use std::alloc::Global;

/// Callers and uids, in byte order of the caller, then of the uid.
pub fn list_arrivals<S: Alter>(
    conn: &mut Connection<S>,
    alloc: Global,
) -> Result<Seq<(Text, Text)>, LedgerFault>
    ensures looked { (n : ℕ) (part : Part)
        → Looked n part result (state S.Store conn.old) (state S.Store conn.new) (λ base all.
        Lists pair_cmp (arrivals_in (base 5)) all) }
    ensures idle { conn.old.in_transaction ≡ false → conn.new.in_transaction ≡ false }
{
    match all_arrivals(conn, alloc) {
        Ok(all) => Ok(Seq::from_vec(all)),
        Err(fault) => Err(fault),
    }
}

/// How far each uid is on its way to each destination, in byte order of the uid, then of the
/// destination.
pub fn list_rows<S: Alter>(
    conn: &mut Connection<S>,
    alloc: Global,
) -> Result<Seq<((Text, Text), Progress)>, LedgerFault>
    ensures looked { (n : ℕ) (part : Part)
        → Looked n part result (state S.Store conn.old) (state S.Store conn.new) (λ base all.
        all ≡ map.entries (rows_of base)) }
    ensures idle { conn.old.in_transaction ≡ false → conn.new.in_transaction ≡ false }
{
    match all_rows(conn, alloc) {
        Ok(all) => Ok(Seq::from_vec(all)),
        Err(fault) => Err(fault),
    }
}

// ---- kept

/// The uid with the length of its data set (bytes).
fn with_size(prints: &[(Text, Print)], uid: &Text) -> Result<(Text, u64), LedgerFault>
    ensures { Reads result (IsSized prints.now uid.now) }
{
    let Some(print) = get(prints, uid) else {
        return Err(LedgerFault::Store);
    };
    let uid = uid.clone()?;
    Ok((uid, print.size))
}

/// These uids, each with the length of its data set (bytes).
fn with_sizes(
    alloc: Global,
    kept: &[Text],
    prints: &[(Text, Print)],
) -> Result<Seq<(Text, u64)>, LedgerFault>
    ensures { Reads result (AreSized prints.now kept.now) }
{
    let mut all = Seq::new(alloc);
    for uid in kept {
        all.push(with_size(prints, uid)?)?;
    }
    Ok(all)
}

/// These kept uids, each with the length of its data set.
fn list_sizes<S: Alter>(
    conn: &mut Connection<S>,
    alloc: Global,
    kept: &[Text],
) -> Result<Seq<(Text, u64)>, LedgerFault>
    ensures looked { (n : ℕ) (part : Part)
        → Looked n part result (state S.Store conn.old) (state S.Store conn.new)
        (λ base all. Lists text_cmp (all_kept_in (base 7)) kept.now → AreKept (book_of base) all) }
    ensures idle { conn.old.in_transaction ≡ false → conn.new.in_transaction ≡ false }
{
    match all_prints(conn, alloc) {
        Ok(prints) => with_sizes(alloc, kept, prints.as_slice()),
        Err(fault) => Err(fault),
    }
}

/// The kept uids in byte order, each with the length of its data set (bytes).
pub fn list_kept<S: Alter>(
    conn: &mut Connection<S>,
    alloc: Global,
) -> Result<Seq<(Text, u64)>, LedgerFault>
    ensures looked { (n : ℕ) (part : Part)
        → Looked n part result (state S.Store conn.old) (state S.Store conn.new)
        (λ base all. AreKept (book_of base) all) }
    ensures idle { conn.old.in_transaction ≡ false → conn.new.in_transaction ≡ false }
{
    match all_kept(conn, alloc) {
        Ok(kept) => list_sizes(conn, alloc, kept.as_slice()),
        Err(fault) => Err(fault),
    }
}

// ---- unfit rows

/// Rows and keys, which rise by their own keys.
pub type RowsAndKeys = (Vec<((Text, Text), Progress)>, Vec<(Text, Key)>);

/// These rows, with the key of each instance.
fn with_keys<S: Alter>(
    conn: &mut Connection<S>,
    alloc: Global,
    rows: Vec<((Text, Text), Progress)>,
) -> Result<RowsAndKeys, LedgerFault>
    ensures looked { (n : ℕ) (part : Part)
        → Looked n part result (state S.Store conn.old) (state S.Store conn.new)
        (λ base both. (both.0.items ≡ rows.items) × (both.1.items ≡ map.entries (keys_of base))) }
    ensures idle { conn.old.in_transaction ≡ false → conn.new.in_transaction ≡ false }
{
    match all_keys(conn, alloc) {
        Ok(keys) => Ok((rows, keys)),
        Err(fault) => Err(fault),
    }
}

/// All rows, with the key of each instance.
pub fn list_rows_and_keys<S: Alter>(
    conn: &mut Connection<S>,
    alloc: Global,
) -> Result<RowsAndKeys, LedgerFault>
    ensures looked { (n : ℕ) (part : Part)
        → Looked n part result (state S.Store conn.old) (state S.Store conn.new)
        (λ base both.
        (both.0.items ≡ map.entries (rows_of base)) × (both.1.items ≡ map.entries (keys_of base))) }
    ensures idle { conn.old.in_transaction ≡ false → conn.new.in_transaction ≡ false }
{
    match all_rows(conn, alloc) {
        Ok(rows) => with_keys(conn, alloc, rows),
        Err(fault) => Err(fault),
    }
}

/// Whether a row waits or is held, and the next plan doesn't go on with it.
fn is_unfit(
    next: &Sealed,
    name: &Text,
    keys: &[(Text, Key)],
    row: &((Text, Text), Progress),
) -> Result<bool, LedgerFault>
    ensures { Reads result (IsUnfitAmong next.now.plan name.now keys.now row.now) }
{
    if !row.1.is_queued() {
        return Ok(false);
    }
    let Some(key) = get(keys, &row.0.0) else {
        return Err(LedgerFault::Store);
    };
    match next.rank(name, &row.0.1, key) {
        Some(_) => Ok(false),
        None => Ok(true),
    }
}

/// The first of these rows that waits or is held and that the next plan doesn't go on with.
fn unfit_among(
    next: &Sealed,
    name: &Text,
    rows: &[((Text, Text), Progress)],
    keys: &[(Text, Key)],
) -> Result<Option<(Text, Text)>, LedgerFault>
    ensures { Reads result (UnfitsAmong next.now.plan name.now rows.now keys.now) }
{
    for row in rows {
        if is_unfit(next, name, keys, row)? {
            let at = (row.0.0.clone()?, row.0.1.clone()?);
            return Ok(Some(at));
        }
    }
    Ok(None)
}

/// The first row that waits or is held and that the next plan doesn't go on with, among those that
/// were listed.
pub fn first_unfit(
    next: &Sealed,
    name: &Text,
    listed: Result<RowsAndKeys, LedgerFault>,
) -> Result<Option<(Text, Text)>, LedgerFault>
    ensures { UnfitsOf
        (λ both. both.0.items)
        (λ both. both.1.items) next.now.plan name.now listed result }
{
    match listed {
        Ok(both) => unfit_among(next, name, both.0.as_slice(), both.1.as_slice()),
        Err(fault) => Err(fault),
    }
}
