//! The shelf of a ledger that was found, opened where its tables say.
ghost use Rattle.std.specs.Prelude.{◌≡◌, ◌≢◌, ◌++◌, ◌∷◌, [], ℕ, List, IfErr, IfOk, IfSome};
ghost use Rattle.std.specs.Prelude.{IsTrue, Ok, option_map};
ghost use Rattle.std.specs.FinMap as map;
ghost use Rattle.sqlite.specs.Held.{state};
ghost use Rattle.sqlite.specs.State.{HasCleanDisk};
ghost use Rattle.dr_ledger.specs.Replies.{Reads};
ghost use Rattle.dr_store_bodies.specs.declared.extent.Extent.{Extent as AnExtent};
ghost use Rattle.dr_store_shelf.specs.Either.{AreApartIf, UsesOn, named_on};
ghost use Rattle.dr_store_schema.specs.Ledgers.{IsLedger};
ghost use Rattle.dr_store_changes.specs.Writing.{IsReady};
ghost use Rattle.dr_store_reads.specs.Queries.{Asked};
ghost use Rattle.dr_store_lists.specs.Lists.{whole_prints_of};
ghost use Rattle.dr_store.specs.Owning.{HaveOwn};
ghost use Rattle.dr_store_open.specs.declared.data.DataPlace.TheVariants as place;
ghost use Rattle.dr_store_open.specs.declared.fault.OpeningFault.TheVariants as opening;
ghost use Rattle.dr_store_open.specs.DataSets.{AddsExtent, AreListed, AreListedIf, IsExtentAt};
ghost use Rattle.dr_store_open.specs.DataSets.{NamesExtent};
ghost use Rattle.dr_store_open.specs.DataSets.{extents_under};
ghost use Rattle.dr_store_open.specs.Faults.{IsOfOpening};
ghost use Rattle.dr_store_open.specs.Opening.{Seen, StaysReady};
ghost use Rattle.dr_store_open.specs.Places.{IsAt, IsFileWith, ShowsFile};

use crate::data::DataPlace;
use crate::fault::{OpeningFault, of_data, opening_fault};
use crate::finding::FoundTables;
use dr_base::Text;
use dr_ledger::LedgerFault;
use dr_store_data::{DataFile, DataMark, Extent, InRow, LedgerShelf, open_in};
use dr_store_reads::{Print, find_job};
use dr_store_shelf::extent_of;
use sqlite::{Alter, Connection};
use sqlite_disk::Disk;
use std::alloc::Global;

/// The extent that the cell of that uid names, if it names one.
fn find_extent<'x, S: Alter>(
    conn: &mut Connection<S>,
    alloc: Global,
    uid: &'x Text,
) -> Result<Option<Extent>, LedgerFault>
    ensures asked { Asked IsLedger result (state S.Store conn.old) (state S.Store conn.new)
        (IsExtentAt uid.now (state S.Store conn.old).now.trees) }
{
    match find_job(conn, alloc, uid) {
        Ok(Some(job)) => Ok(extent_of(job.body.as_bytes())),
        Ok(None) => Ok(None),
        Err(fault) => Err(fault),
    }
}

/// Puts the extent at the list's end.
fn push_extent(list: &mut Vec<Extent>, extent: Extent) -> Result<bool, LedgerFault>
    ensures { Reads result (λ added. list.new.items ≡ list.old.items ++ extent ∷ []) }
{
    list.push(extent)?;
    Ok(true)
}

/// Puts the extent that the cell of that uid names at the list's end, if it names one.
fn add_named<'x, S: Alter>(
    conn: &mut Connection<S>,
    alloc: Global,
    list: &mut Vec<Extent>,
    uid: &'x Text,
) -> Result<bool, LedgerFault>
    ensures asked { Asked IsLedger result (state S.Store conn.old) (state S.Store conn.new)
        (λ added. IsTrue added
        → AddsExtent uid.now (state S.Store conn.old).now.trees list.old.items list.new.items) }
{
    match find_extent(conn, alloc, uid) {
        Ok(Some(extent)) => push_extent(list, extent),
        Ok(None) => Ok(false),
        Err(fault) => Err(fault),
    }
}

/// The same for a print whose data set is there.
fn add_extent<'x, S: Alter>(
    conn: &mut Connection<S>,
    alloc: Global,
    list: &mut Vec<Extent>,
    print: &'x (Text, Print),
) -> Result<bool, LedgerFault>
    ensures seen { Seen IsLedger result (state S.Store conn.old) (state S.Store conn.new)
        (λ added. IsTrue added → NamesExtent (state S.Store conn.old).now.trees print.now
        × (list.new.items
        ≡ list.old.items ++ extents_under (state S.Store conn.old).now.trees print.now)) }
{
    if print.1.whole {
        return add_named(conn, alloc, list, &print.0);
    }
    Ok(true)
}

/// The extents that the cells of these prints name, in their order; None where one names none.
fn list_extents<'x, S: Alter>(
    conn: &mut Connection<S>,
    alloc: Global,
    prints: &'x [(Text, Print)],
) -> Result<Option<Vec<Extent>>, LedgerFault>
    ensures seen { Seen IsLedger result (state S.Store conn.old) (state S.Store conn.new)
        (λ found. AreListedIf (state S.Store conn.old).now.trees prints.now
        (option_map (λ list. list.items) found)) }
{
    let mut list = Vec::new(alloc);
    for print in prints {
        let added = match add_extent(conn, alloc, &mut list, print) {
            Ok(added) => added,
            Err(fault) => return Err(fault),
        };
        if !added {
            return Ok(None);
        }
    }
    Ok(Some(list))
}

/// The file of a ledger's data sets that is there.
fn opened_disk<F: DataFile>(alloc: Global, data: &F) -> Result<F::Disk, OpeningFault>
    ensures { IfErr result IsOfOpening }
{
    match data.open(alloc) {
        Ok(disk) => Ok(disk),
        Err(fault) => Err(of_data(fault)),
    }
}

/// The file that was made, if one was, or the one that is there.
fn disk_of<F: DataFile>(
    alloc: Global,
    data: &F,
    made: Option<F::Disk>,
) -> Result<F::Disk, OpeningFault>
    ensures same { IfSome made (λ disk. result ≡ Ok disk) }
    ensures why { IfErr result IsOfOpening }
{
    match made {
        Some(disk) => Ok(disk),
        None => opened_disk(alloc, data),
    }
}

/// The shelf over this file, which has this mark, and in which these extents are in use.
fn shelf_over<D: Disk + Drop>(
    alloc: Global,
    disk: D,
    said: &DataMark,
    list: Vec<Extent>,
) -> Result<LedgerShelf<D>, OpeningFault>
    ensures file { IfOk result (IsFileWith said.now list.items) }
    ensures shows { IfOk result (ShowsFile (D.Disk.seen disk)) }
    ensures why { IfErr result IsOfOpening }
{
    match open_in(alloc, disk, said, list) {
        Ok(Some(file)) => Ok(LedgerShelf::InFile(file)),
        Ok(None) => Err(OpeningFault::NoData),
        Err(fault) => Err(of_data(fault)),
    }
}

/// The shelf over the ledger's file, which has this mark, and in which these extents are in use.
fn file_shelf<F: DataFile>(
    alloc: Global,
    data: &F,
    made: Option<F::Disk>,
    said: &DataMark,
    list: Vec<Extent>,
) -> Result<LedgerShelf<F::Disk>, OpeningFault>
    ensures file { IfOk result (IsFileWith said.now list.items) }
    ensures shows { IfOk result (λ shelf.
        IfSome made (λ disk. ShowsFile (F.Disk.Disk.seen disk) shelf)) }
    ensures why { IfErr result IsOfOpening }
{
    match disk_of(alloc, data, made) {
        Ok(disk) => shelf_over(alloc, disk, said, list),
        Err(fault) => Err(fault),
    }
}

/// The same, with the extents that the cells of the prints name.
fn shelf_in_file<'x, S: Alter, F: DataFile>(
    conn: &mut Connection<S>,
    alloc: Global,
    data: &F,
    made: Option<F::Disk>,
    said: &DataMark,
    found: &'x FoundTables,
) -> Result<LedgerShelf<F::Disk>, OpeningFault>
    requires { HasCleanDisk (state S.Store conn.old)
        → IsReady found.now.next (state S.Store conn.old) }
    ensures ready { StaysReady found.now.next result (state S.Store conn.old)
        (state S.Store conn.new) }
    ensures at { IfOk result (IsAt (place.InFile said.now)) }
    ensures file { HasCleanDisk (state S.Store conn.new)
        → IfOk result (λ shelf. (list : List AnExtent)
        × AreListed (state S.Store conn.old).now.trees found.now.prints.items list
        × IsFileWith said.now list shelf) }
    ensures shows { IfOk result (λ shelf.
        IfSome made (λ disk. ShowsFile (F.Disk.Disk.seen disk) shelf)) }
    ensures why { IfErr result IsOfOpening }
{
    match list_extents(conn, alloc, found.prints.as_slice()) {
        Ok(Some(list)) => file_shelf(alloc, data, made, said, list),
        Ok(None) => Err(OpeningFault::NoData),
        Err(fault) => Err(opening_fault(fault)),
    }
}

/// The shelf of a ledger that was found, where its tables say that its data sets are. The file that
/// was made for it, if one was, isn't opened a second time.
///
/// Errors: NoData; InUse; Store; Memory.
pub fn shelf_of<'x, S: Alter, F: DataFile>(
    conn: &mut Connection<S>,
    alloc: Global,
    data: &F,
    made: Option<F::Disk>,
    found: &'x FoundTables,
) -> Result<LedgerShelf<F::Disk>, OpeningFault>
    requires { HasCleanDisk (state S.Store conn.old)
        → IsReady found.now.next (state S.Store conn.old) }
    ensures ready { StaysReady found.now.next result (state S.Store conn.old)
        (state S.Store conn.new) }
    ensures at { IfOk result (IsAt found.now.place) }
    ensures used { HasCleanDisk (state S.Store conn.new)
        → found.now.prints.items
        ≡ map.entries (whole_prints_of (state S.Store conn.old).now.trees)
        → IfOk result (λ shelf. HaveOwn (UsesOn shelf) (AreApartIf (named_on shelf))
        (state S.Store conn.old).now.trees) }
    ensures shows { IfOk result (λ shelf.
        IfSome made (λ disk. ShowsFile (F.Disk.Disk.seen disk) shelf)) }
    ensures why { IfErr result IsOfOpening }
    ensures rows { found.now.place ≡ place.InRows → IfErr result (λ fault. ⊥) }
{
    match &found.place {
        DataPlace::InRows => Ok(LedgerShelf::InRow(InRow)),
        DataPlace::InFile(said) => shelf_in_file(conn, alloc, data, made, said, found),
    }
}
