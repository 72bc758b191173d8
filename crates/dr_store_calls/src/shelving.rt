//! Arrivals of items, whose data sets are put on a shelf.
ghost use Rattle.std.specs.Prelude.{◌≡◌, ◌≤◌, ◌^◌, OnOk, false};
ghost use Rattle.sqlite.specs.Held.{state};
ghost use Rattle.dr_store_shelf.specs.Shelves.{KeepsCells, ReadsAsBefore};
ghost use Rattle.dr_store_calls.specs.Calling.{Called, Nothing, advanced};
ghost use Rattle.dr_store_calls.specs.Shelving.{AcceptsItem, AnswersTo, IsPut, fault_of_shelf};

use crate::bringing::{Delivery, NextLine};
use crate::receiving::receive;
use dr_base::Text;
use dr_ledger::{Arrived, Item, LedgerFault};
use dr_site::Site;
use dr_store_shelf::{Shelf, ShelfFault};
use sqlite::{Alter, Connection};
use std::alloc::Global;

/// The ledger's fault for that of its shelf.
pub fn shelf_fault(fault: ShelfFault) -> LedgerFault
    ensures { result ≡ fault_of_shelf fault }
{
    match fault {
        ShelfFault::Io(_) => LedgerFault::Store,
        ShelfFault::Memory => LedgerFault::Memory,
        ShelfFault::Unusable => LedgerFault::Store,
        ShelfFault::Full => LedgerFault::Store,
        ShelfFault::NoCell => LedgerFault::Store,
        ShelfFault::Unreadable => LedgerFault::Store,
    }
}

/// Takes an item from a caller, `-` for what enters at the node itself. If its data set comes into
/// the tables, it is put on the shelf before anything of it is committed, and else it isn't put.
///
/// Errors: NoLine, Conflict, Store and Memory, tested in this order; Store and Memory may come
/// before a conflict is seen.
pub fn arrive<S: Alter, B: Shelf>(
    conn: &mut Connection<S>,
    shelf: &mut B,
    alloc: Global,
    site: &Site,
    line: NextLine,
    caller: &Text,
    item: Item,
) -> Result<Arrived, LedgerFault>
    requires idle { conn.old.in_transaction ≡ false }
    ensures called { Called line.n (advanced result line.n) site.now result (state S.Store conn.old)
        (state S.Store conn.new) Nothing
        (AnswersTo
        (IsPut (shelf.new ≡ shelf.old) (B.Shelf.uses shelf.old) (B.Shelf.uses shelf.new)
        (B.Shelf.stands shelf.new) (B.Shelf.apart (B.Shelf.named shelf.old))) site.now caller.now
        item result)
        (AcceptsItem
        (IsPut (shelf.new ≡ shelf.old) (B.Shelf.uses shelf.old) (B.Shelf.uses shelf.new)
        (B.Shelf.stands shelf.new) (B.Shelf.apart (B.Shelf.named shelf.old))) site.now caller.now
        item) }
    ensures keeps { KeepsCells (B.Shelf.uses shelf.old) (B.Shelf.stands shelf.old)
        (B.Shelf.uses shelf.new) (B.Shelf.stands shelf.new) }
    ensures reads { B.Shelf.is_clean shelf.new
        → ReadsAsBefore (B.Shelf.uses shelf.old) (B.Shelf.read_of shelf.old)
        (B.Shelf.read_of shelf.new) }
    ensures named { B.Shelf.named shelf.new ≡ B.Shelf.named shelf.old }
    ensures clean { B.Shelf.is_clean shelf.new → B.Shelf.is_clean shelf.old }
    ensures number { OnOk result (line.n ≤ 2 ^ 62) }
    ensures idle { conn.new.in_transaction ≡ false }
{
    if !site.has_line(caller, item.key()) {
        return Err(LedgerFault::NoLine);
    }
    match item.instance() {
        Ok(instance) => {
            let job = item.into_job();
            let came = Delivery {
                site,
                n: line.n,
                moment: line.moment,
                caller,
                instance: &instance,
                body: job.body.as_bytes(),
            };
            receive(conn, shelf, alloc, &came)
        }
        Err(_) => Err(LedgerFault::Memory),
    }
}
