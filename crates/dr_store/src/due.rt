//! A row that is due, as it stands in the tables, and as it is handed out.
ghost use Rattle.std.specs.Prelude.{◌≡◌, ◌≢◌, ◌↔◌, ℕ, List, IsTrue, length};
ghost use Rattle.sha2.specs.Sha256.{sha256};
ghost use Rattle.dr_ledger.specs.declared.content.ItemFault.TheVariants as item_fault;
ghost use Rattle.dr_ledger.specs.declared.content.NextRow.TheVariants as row;
ghost use Rattle.dr_ledger.specs.Items.{IsItem};
ghost use Rattle.dr_ledger.specs.Replies.{Reads};
ghost use Rattle.dr_store_shelf.specs.Shelves.{KeepsCells, ReadsAsBefore};
ghost use Rattle.dr_store.specs.Reading.{IsHandedOut, IsReadAgain};

use dr_base::{Octets, Text};
use dr_ledger::{Instance, Item, ItemFault, Job, LedgerFault, NextRow};
use dr_store_calls::shelf_fault;
use dr_store_reads::Print;
use dr_store_shelf::Shelf;
use std::alloc::Global;

/// What the tables have of a row that is due: its instance, and what stands in the instance's row
/// for its data set.
#[derive(Drop)]
pub struct DueRow {
    pub instance: Instance,
    pub cell: Octets,
}

/// What stands in the tables for this job, with the print of its data set.
pub fn due_of(job: Job, print: Print) -> DueRow
    ensures uid { result.instance.uid ≡ job.uid }
    ensures key { result.instance.key ≡ job.key }
    ensures size { result.instance.size ≡ print.size }
    ensures digest { result.instance.digest ≡ print.digest }
    ensures cell { result.cell ≡ job.body }
{
    let Job { uid, key, body } = job;
    let digest = print.digest;
    DueRow {
        instance: Instance {
            uid,
            key,
            size: print.size,
            digest,
        },
        cell: body,
    }
}

/// Whether the item is the one of that instance.
fn is_of(item: &Item, instance: &Instance) -> bool
    ensures { IsTrue result
        ↔ ((item.now.uid ≡ instance.now.uid)
        × (item.now.key ≡ instance.now.key)
        × (length item.now.body ≡ instance.now.size)
        × (sha256 item.now.body ≡ instance.now.digest)) }
{
    item.uid() == &instance.uid
        && item.key() == &instance.key
        && item.body().len() as u64 == instance.size
        && *item.digest() == instance.digest
}

/// The row of an instance whose data set can't be read.
fn unread(instance: Instance) -> NextRow
    ensures { result ≡ row.Unreadable instance.uid }
{
    let Instance {
        uid,
        key: _,
        size: _,
        digest: _,
    } = instance;
    NextRow::Unreadable(uid)
}

/// The row of an instance with this item, if it is the instance's.
fn row_with(item: Item, instance: Instance) -> NextRow
    requires item { IsItem item }
    requires syntax { item.key.syntax ≡ instance.key.syntax }
    ensures { IsReadAgain instance item.body result }
{
    if is_of(&item, &instance) {
        return NextRow::Whole(item.into_job());
    }
    unread(instance)
}

/// Bytes that aren't read as an item are no data set, but where memory ran out.
fn not_read(fault: ItemFault, instance: Instance) -> Result<NextRow, LedgerFault>
    ensures { Reads result (λ found.
        (found ≡ row.Unreadable instance.uid) × (fault ≢ item_fault.Memory)) }
{
    match fault {
        ItemFault::Memory => Err(LedgerFault::Memory),
        ItemFault::TooLarge => Ok(unread(instance)),
        ItemFault::Data => Ok(unread(instance)),
        ItemFault::NoUid => Ok(unread(instance)),
    }
}

/// The row of an instance with these bytes, if they are its data set. They are read again: an item
/// is known by nothing but its data set.
fn read_again(alloc: Global, instance: Instance, bytes: Octets) -> Result<NextRow, LedgerFault>
    ensures { Reads result (IsReadAgain instance bytes) }
{
    match Item::read(alloc, instance.key.syntax, bytes) {
        Ok(item) => Ok(row_with(item, instance)),
        Err(fault) => not_read(fault, instance),
    }
}

/// What is due, with its data set, as it is read by the cell that stands for it; or only its uid,
/// where what can be read by the cell isn't the instance's data set.
pub fn read_by<B: Shelf>(shelf: &mut B, alloc: Global, due: DueRow) -> Result<NextRow, LedgerFault>
    ensures read { Reads result (λ found. B.Shelf.is_clean shelf.new
        → B.Shelf.uses shelf.old due.cell
        → IsHandedOut (B.Shelf.read_of shelf.old) due found) }
    ensures keeps { KeepsCells (B.Shelf.uses shelf.old) (B.Shelf.stands shelf.old)
        (B.Shelf.uses shelf.new) (B.Shelf.stands shelf.new) }
    ensures reads { B.Shelf.is_clean shelf.new
        → ReadsAsBefore (B.Shelf.uses shelf.old) (B.Shelf.read_of shelf.old)
        (B.Shelf.read_of shelf.new) }
    ensures named { B.Shelf.named shelf.new ≡ B.Shelf.named shelf.old }
    ensures clean { B.Shelf.is_clean shelf.new → B.Shelf.is_clean shelf.old }
{
    let DueRow { instance, cell } = due;
    match shelf.look(cell.into_vec()) {
        Ok(Some(found)) => read_again(alloc, instance, Octets::from_vec(found)),
        Ok(None) => Ok(unread(instance)),
        Err(fault) => Err(shelf_fault(fault)),
    }
}
