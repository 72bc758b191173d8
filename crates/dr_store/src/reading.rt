//! What the tables show of one instance, of one row, and of what is due.
ghost use Rattle.std.specs.Prelude.{◌≡◌, ℕ, List, Err, Some, false};
ghost use Rattle.std.specs.FinMap as map;
ghost use Rattle.sqlite.specs.Held.{state};
ghost use Rattle.sqlite.specs.Tree.{Trees};
ghost use Rattle.dr_site.specs.Parts.{Part};
ghost use Rattle.dr_ledger.specs.declared.fault.LedgerFault.TheVariants.{Store};
ghost use Rattle.dr_ledger.specs.Items.{instance_of};
ghost use Rattle.dr_ledger.specs.Replies.{Admits, Dues, Reads};
ghost use Rattle.dr_ledger.specs.SiteRoutes.{site_routing};
ghost use Rattle.dr_site.specs.Routing.{HasLineFor};
ghost use Rattle.dr_store_schema.specs.Books.{bodies_of, book_of, items_of};
ghost use Rattle.dr_store_calls.specs.Calling.{Called, Looked, Nothing};
ghost use Rattle.dr_store_reads.specs.Queries.{IsJobOf};
ghost use Rattle.dr_store_shelf.specs.Shelves.{KeepsCells, ReadsAsBefore};
ghost use Rattle.dr_store.specs.Reading.{AdmitsKnown, IsRowOf, IsSomeRowOf, IsTold, IsToldOf};
ghost use Rattle.dr_store.specs.Reading.{IsWholeRow, NextsRead, NextsStored};

use crate::due::{DueRow, due_of, read_by};
use dr_base::Text;
use dr_ledger::{Instance, Item, Job, LedgerFault, NextRow};
use dr_site::Site;
use dr_store_calls::{Known, know};
use dr_store_reads::{find_item, find_job, find_key, find_next, find_print};
use dr_store_shelf::Shelf;
use sqlite::{Alter, Connection};
use std::alloc::Global;

/// Whether an instance with this uid is there.
fn has_item<S: Alter>(
    conn: &mut Connection<S>,
    alloc: Global,
    uid: &Text,
) -> Result<bool, LedgerFault>
    ensures looked { (n : ℕ) (part : Part)
        → Looked n part result (state S.Store conn.old) (state S.Store conn.new)
        (λ base there. there ≡ map.contains_key (items_of base) uid.now) }
    ensures idle { conn.old.in_transaction ≡ false → conn.new.in_transaction ≡ false }
{
    match find_key(conn, alloc, uid) {
        Ok(key) => Ok(key.is_some()),
        Err(fault) => Err(fault),
    }
}

/// The same, of a ledger whose data sets are on this shelf: Store where that may not be used any
/// more. A call that only reads the tables wouldn't show it.
pub fn has_in<S: Alter, B>(
    conn: &mut Connection<S>,
    shelf: &B,
    alloc: Global,
    uid: &Text,
) -> Result<bool, LedgerFault>
where
    B: Shelf,
    ensures looked { (n : ℕ) (part : Part)
        → Looked n part result (state S.Store conn.old) (state S.Store conn.new)
        (λ base there. there ≡ map.contains_key (items_of base) uid.now) }
    ensures shut { (B.Shelf.is_usable shelf.now → ⊥) → result ≡ Err Store }
    ensures idle { conn.old.in_transaction ≡ false → conn.new.in_transaction ≡ false }
{
    if !shelf.may_be_used() {
        return Err(LedgerFault::Store);
    }
    has_item(conn, alloc, uid)
}

/// Whether the tables have a cell for its data set. Nothing is read by it: that it is there doesn't
/// say that the data set can be read.
pub fn has_data_set<S: Alter>(
    conn: &mut Connection<S>,
    alloc: Global,
    uid: &Text,
) -> Result<bool, LedgerFault>
    ensures looked { (n : ℕ) (part : Part)
        → Looked n part result (state S.Store conn.old) (state S.Store conn.new)
        (λ base there. there ≡ map.contains_key (bodies_of base) uid.now) }
    ensures idle { conn.old.in_transaction ≡ false → conn.new.in_transaction ≡ false }
{
    match find_item(conn, alloc, uid) {
        Ok(Some(stored)) => Ok(stored.whole),
        Ok(None) => Ok(false),
        Err(fault) => Err(fault),
    }
}

/// What stands in the tables for the job of this uid.
fn with_print<S: Alter>(
    conn: &mut Connection<S>,
    uid: &Text,
    job: Job,
) -> Result<DueRow, LedgerFault>
    ensures looked { (n : ℕ) (part : Part)
        → Looked n part result (state S.Store conn.old) (state S.Store conn.new)
        (λ base due. IsJobOf uid.now base (Some job) → IsRowOf uid.now base due) }
    ensures idle { conn.old.in_transaction ≡ false → conn.new.in_transaction ≡ false }
{
    match find_print(conn, uid) {
        Ok(Some(print)) => Ok(due_of(job, print)),
        Ok(None) => Err(LedgerFault::Store),
        Err(fault) => Err(fault),
    }
}

/// What stands in the tables for the instance of this uid. One that was found due is there.
fn row_of<S: Alter>(
    conn: &mut Connection<S>,
    alloc: Global,
    uid: &Text,
) -> Result<DueRow, LedgerFault>
    ensures looked { (n : ℕ) (part : Part)
        → Looked n part result (state S.Store conn.old) (state S.Store conn.new)
        (λ base due. IsRowOf uid.now base due) }
    ensures idle { conn.old.in_transaction ≡ false → conn.new.in_transaction ≡ false }
{
    match find_job(conn, alloc, uid) {
        Ok(Some(job)) => with_print(conn, uid, job),
        Ok(None) => Err(LedgerFault::Store),
        Err(fault) => Err(fault),
    }
}

/// The same, as what was found due.
fn due_by<S: Alter>(
    conn: &mut Connection<S>,
    alloc: Global,
    uid: &Text,
) -> Result<Option<DueRow>, LedgerFault>
    ensures looked { (n : ℕ) (part : Part)
        → Looked n part result (state S.Store conn.old) (state S.Store conn.new)
        (λ base due. IsSomeRowOf uid.now base due) }
    ensures idle { conn.old.in_transaction ≡ false → conn.new.in_transaction ≡ false }
{
    match row_of(conn, alloc, uid) {
        Ok(due) => Ok(Some(due)),
        Err(fault) => Err(fault),
    }
}

/// What the first row for the destination, by (due, uid), that waits and is due at the moment `now`
/// (milliseconds) is about, with what stands in its row for its data set.
fn next_stored<S: Alter>(
    conn: &mut Connection<S>,
    alloc: Global,
    dest: &Text,
    now: u64,
) -> Result<Option<DueRow>, LedgerFault>
    ensures looked { (n : ℕ) (part : Part)
        → Looked n part result (state S.Store conn.old) (state S.Store conn.new)
        (λ base due. NextsStored base dest.now now due) }
    ensures idle { conn.old.in_transaction ≡ false → conn.new.in_transaction ≡ false }
{
    match find_next(conn, alloc, dest, now) {
        Ok(Some(uid)) => due_by(conn, alloc, &uid),
        Ok(None) => Ok(None),
        Err(fault) => Err(fault),
    }
}

/// A row that is due, as it is handed out.
fn read_some<B: Shelf>(
    shelf: &mut B,
    alloc: Global,
    due: DueRow,
) -> Result<Option<NextRow>, LedgerFault>
    ensures read { (db : Trees) (dest : List ℕ) (now : ℕ) → NextsStored db dest now (Some due)
        → Reads result (λ row. B.Shelf.is_clean shelf.new
        → NextsRead (B.Shelf.uses shelf.old) (B.Shelf.read_of shelf.old) db dest now row) }
    ensures keeps { KeepsCells (B.Shelf.uses shelf.old) (B.Shelf.stands shelf.old)
        (B.Shelf.uses shelf.new) (B.Shelf.stands shelf.new) }
    ensures reads { B.Shelf.is_clean shelf.new
        → ReadsAsBefore (B.Shelf.uses shelf.old) (B.Shelf.read_of shelf.old)
        (B.Shelf.read_of shelf.new) }
    ensures named { B.Shelf.named shelf.new ≡ B.Shelf.named shelf.old }
    ensures clean { B.Shelf.is_clean shelf.new → B.Shelf.is_clean shelf.old }
{
    match read_by(shelf, alloc, due) {
        Ok(row) => Ok(Some(row)),
        Err(fault) => Err(fault),
    }
}

/// The same, where one is due.
fn read_due<B: Shelf>(
    shelf: &mut B,
    alloc: Global,
    due: Option<DueRow>,
) -> Result<Option<NextRow>, LedgerFault>
    ensures read { (db : Trees) (dest : List ℕ) (now : ℕ) → NextsStored db dest now due
        → Reads result (λ row. B.Shelf.is_clean shelf.new
        → NextsRead (B.Shelf.uses shelf.old) (B.Shelf.read_of shelf.old) db dest now row) }
    ensures keeps { KeepsCells (B.Shelf.uses shelf.old) (B.Shelf.stands shelf.old)
        (B.Shelf.uses shelf.new) (B.Shelf.stands shelf.new) }
    ensures reads { B.Shelf.is_clean shelf.new
        → ReadsAsBefore (B.Shelf.uses shelf.old) (B.Shelf.read_of shelf.old)
        (B.Shelf.read_of shelf.new) }
    ensures named { B.Shelf.named shelf.new ≡ B.Shelf.named shelf.old }
    ensures clean { B.Shelf.is_clean shelf.new → B.Shelf.is_clean shelf.old }
{
    match due {
        Some(stored) => read_some(shelf, alloc, stored),
        None => Ok(None),
    }
}

/// What the first row for the destination, by (due, uid), that waits and is due at the moment `now`
/// (milliseconds) is about, with its data set; or only its uid, where that can't be read.
pub fn next_job<S: Alter, B>(
    conn: &mut Connection<S>,
    shelf: &mut B,
    alloc: Global,
    dest: &Text,
    now: u64,
) -> Result<Option<NextRow>, LedgerFault>
where
    B: Shelf,
    ensures looked { (n : ℕ) (part : Part)
        → Looked n part result (state S.Store conn.old) (state S.Store conn.new)
        (λ base row. B.Shelf.is_clean shelf.new
        → NextsRead (B.Shelf.uses shelf.old) (B.Shelf.read_of shelf.old) base dest.now now row) }
    ensures keeps { KeepsCells (B.Shelf.uses shelf.old) (B.Shelf.stands shelf.old)
        (B.Shelf.uses shelf.new) (B.Shelf.stands shelf.new) }
    ensures reads { B.Shelf.is_clean shelf.new
        → ReadsAsBefore (B.Shelf.uses shelf.old) (B.Shelf.read_of shelf.old)
        (B.Shelf.read_of shelf.new) }
    ensures named { B.Shelf.named shelf.new ≡ B.Shelf.named shelf.old }
    ensures clean { B.Shelf.is_clean shelf.new → B.Shelf.is_clean shelf.old }
    ensures idle { conn.old.in_transaction ≡ false → conn.new.in_transaction ≡ false }
{
    match next_stored(conn, alloc, dest, now) {
        Ok(due) => read_due(shelf, alloc, due),
        Err(fault) => Err(fault),
    }
}

/// Whether a row is handed out with its data set.
fn is_whole(row: NextRow) -> bool
    ensures { IsWholeRow row result }
{
    match row {
        NextRow::Whole(_) => true,
        NextRow::Unreadable(_) => false,
    }
}

/// Whether what is read by the cell of an instance's row is the instance's data set.
fn is_read_by<B: Shelf>(shelf: &mut B, alloc: Global, due: DueRow) -> Result<bool, LedgerFault>
    ensures read { Reads result (λ told. B.Shelf.is_clean shelf.new
        → B.Shelf.uses shelf.old due.cell
        → IsTold (B.Shelf.read_of shelf.old) due told) }
    ensures keeps { KeepsCells (B.Shelf.uses shelf.old) (B.Shelf.stands shelf.old)
        (B.Shelf.uses shelf.new) (B.Shelf.stands shelf.new) }
    ensures reads { B.Shelf.is_clean shelf.new
        → ReadsAsBefore (B.Shelf.uses shelf.old) (B.Shelf.read_of shelf.old)
        (B.Shelf.read_of shelf.new) }
    ensures named { B.Shelf.named shelf.new ≡ B.Shelf.named shelf.old }
    ensures clean { B.Shelf.is_clean shelf.new → B.Shelf.is_clean shelf.old }
{
    match read_by(shelf, alloc, due) {
        Ok(row) => Ok(is_whole(row)),
        Err(fault) => Err(fault),
    }
}

/// Whether the data set of the instance of this uid can be read. It is read for it.
pub fn read_row<S: Alter, B>(
    conn: &mut Connection<S>,
    shelf: &mut B,
    alloc: Global,
    uid: &Text,
) -> Result<bool, LedgerFault>
where
    B: Shelf,
    ensures looked { (n : ℕ) (part : Part)
        → Looked n part result (state S.Store conn.old) (state S.Store conn.new)
        (λ base told. B.Shelf.is_clean shelf.new
        → IsToldOf (B.Shelf.uses shelf.old) (B.Shelf.read_of shelf.old) base uid.now told) }
    ensures keeps { KeepsCells (B.Shelf.uses shelf.old) (B.Shelf.stands shelf.old)
        (B.Shelf.uses shelf.new) (B.Shelf.stands shelf.new) }
    ensures reads { B.Shelf.is_clean shelf.new
        → ReadsAsBefore (B.Shelf.uses shelf.old) (B.Shelf.read_of shelf.old)
        (B.Shelf.read_of shelf.new) }
    ensures named { B.Shelf.named shelf.new ≡ B.Shelf.named shelf.old }
    ensures clean { B.Shelf.is_clean shelf.new → B.Shelf.is_clean shelf.old }
    ensures idle { conn.old.in_transaction ≡ false → conn.new.in_transaction ≡ false }
{
    match row_of(conn, alloc, uid) {
        Ok(due) => is_read_by(shelf, alloc, due),
        Err(fault) => Err(fault),
    }
}

/// The uid of that row. No data set is read.
pub fn due_row<S: Alter>(
    conn: &mut Connection<S>,
    alloc: Global,
    dest: &Text,
    now: u64,
) -> Result<Option<Text>, LedgerFault>
    ensures looked { (n : ℕ) (part : Part)
        → Looked n part result (state S.Store conn.old) (state S.Store conn.new)
        (λ base uid. Dues (book_of base) dest.now now uid) }
    ensures idle { conn.old.in_transaction ≡ false → conn.new.in_transaction ≡ false }
{
    match find_next(conn, alloc, dest, now) {
        Ok(uid) => Ok(uid),
        Err(fault) => Err(fault),
    }
}

/// Whether an arrival is admitted, by what is known of its uid.
fn admit_known(known: Known) -> Result<(), LedgerFault>
    ensures { AdmitsKnown known result }
{
    match known {
        Known::No => Ok(()),
        Known::Other => Err(LedgerFault::Conflict),
        Known::Same { .. } => Ok(()),
    }
}

/// Whether an instance that the certificate has a line for would be taken.
fn admit_instance<S: Alter>(
    conn: &mut Connection<S>,
    alloc: Global,
    site: &Site,
    caller: &Text,
    item: &Instance,
) -> Result<(), LedgerFault>
    requires { HasLineFor site.now caller.now item.now.key }
    ensures called { (n : ℕ)
        → Called n n site.now result (state S.Store conn.old) (state S.Store conn.new) Nothing
        (λ base db.
        (db ≡ base) × Admits (site_routing site.now) caller.now item.now (book_of base) result)
        (λ base db. ⊥) }
    ensures idle { conn.old.in_transaction ≡ false → conn.new.in_transaction ≡ false }
{
    match know(conn, alloc, item) {
        Ok(known) => admit_known(known),
        Err(fault) => Err(fault),
    }
}

/// Whether the item would be taken from the caller: NoLine or Conflict where an arrival would be
/// refused so.
pub fn admit<S: Alter>(
    conn: &mut Connection<S>,
    alloc: Global,
    site: &Site,
    caller: &Text,
    item: &Item,
) -> Result<(), LedgerFault>
    ensures called { (n : ℕ)
        → Called n n site.now result (state S.Store conn.old) (state S.Store conn.new) Nothing
        (λ base db. (db ≡ base)
        × Admits (site_routing site.now) caller.now (instance_of item.now) (book_of base) result)
        (λ base db. ⊥) }
    ensures idle { conn.old.in_transaction ≡ false → conn.new.in_transaction ≡ false }
{
    if !site.has_line(caller, item.key()) {
        return Err(LedgerFault::NoLine);
    }
    match item.instance() {
        Ok(instance) => admit_instance(conn, alloc, site, caller, &instance),
        Err(_) => Err(LedgerFault::Memory),
    }
}
