//! The file of a new ledger's data sets.
ghost use Rattle.std.specs.Prelude.{◌≡◌, IfErr, IfOk, MatchOption, None, Some, []};
ghost use Rattle.dr_store_data.specs.declared.mark.DataMark.{DataMark as AMark};
ghost use Rattle.dr_store_data.specs.Heads.{bytes_of_mark};
ghost use Rattle.dr_store_open.specs.declared.data.Keeping.TheVariants as wanted;
ghost use Rattle.dr_store_open.specs.Places.{IsBegun};

use crate::data::Keeping;
use crate::fault::{OpeningFault, of_making};
use dr_store_data::{DataFile, DataMark, make_head, mark_bytes};
use sqlite_disk::Disk;
use std::alloc::Global;

/// The file, where it has its head, and what the tables are to have for it.
fn with_mark<D: Disk + Drop>(
    disk: D,
    alloc: Global,
    mark: &DataMark,
) -> Result<(Option<D>, Vec<u8>), OpeningFault>
    ensures disk { IfOk result (λ made. made.0 ≡ Some disk) }
    ensures bytes { IfOk result (λ made. made.1.items ≡ bytes_of_mark mark.now) }
{
    let bytes = mark_bytes(alloc, mark)?;
    Ok((Some(disk), bytes))
}

/// Writes the head with this mark into the file, durably.
fn begun<D: Disk + Drop>(
    disk: D,
    alloc: Global,
    mark: &DataMark,
) -> Result<(Option<D>, Vec<u8>), OpeningFault>
    ensures head { IfOk result (λ made. MatchOption made.0 ⊥ (λ it.
        IsBegun mark.now (D.Disk.seen it) (D.Disk.may_leave it))) }
    ensures bytes { IfOk result (λ made. made.1.items ≡ bytes_of_mark mark.now) }
{
    let mut disk = disk;
    match make_head(&mut disk, alloc, &mark.mark) {
        Ok(()) => with_mark(disk, alloc, mark),
        Err(fault) => Err(of_making(fault)),
    }
}

/// The same, with a key and a mark that are drawn.
fn drawn<F: DataFile>(
    alloc: Global,
    data: &F,
    disk: F::Disk,
) -> Result<(Option<F::Disk>, Vec<u8>), OpeningFault>
    ensures { IfOk result (λ made. (said : AMark)
        × (made.1.items ≡ bytes_of_mark said)
        × MatchOption made.0 ⊥ (λ it. IsBegun said (F.Disk.Disk.seen it)
        (F.Disk.Disk.may_leave it))) }
{
    match data.draw(alloc) {
        Ok(mark) => begun(disk, alloc, &mark),
        Err(fault) => Err(of_making(fault)),
    }
}

/// A new file, and what the tables are to have for it.
fn new_file<F: DataFile>(
    alloc: Global,
    data: &F,
) -> Result<(Option<F::Disk>, Vec<u8>), OpeningFault>
    ensures { IfOk result (λ made. (said : AMark)
        × (made.1.items ≡ bytes_of_mark said)
        × MatchOption made.0 ⊥ (λ it. IsBegun said (F.Disk.Disk.seen it)
        (F.Disk.Disk.may_leave it))) }
{
    match data.make(alloc) {
        Ok(disk) => drawn(alloc, data, disk),
        Err(fault) => Err(of_making(fault)),
    }
}

/// What is made for a new ledger before its tables: a file, if its data sets are to be in one, and
/// what the tables are to have for that. No crash changes the file's head then.
///
/// Errors: DataIsThere, only where a file is wanted; InUse; Store; Memory.
pub fn new_data<F: DataFile>(
    alloc: Global,
    data: &F,
    keeping: Keeping,
) -> Result<(Option<F::Disk>, Vec<u8>), OpeningFault>
    ensures rows { keeping ≡ wanted.InRows
        → IfOk result (λ made. (made.0 ≡ None) × (made.1.items ≡ [])) }
    ensures file { keeping ≡ wanted.InFile
        → IfOk result (λ made. (said : AMark)
        × (made.1.items ≡ bytes_of_mark said)
        × MatchOption made.0 ⊥ (λ it. IsBegun said (F.Disk.Disk.seen it)
        (F.Disk.Disk.may_leave it))) }
    ensures why { IfErr result (λ fault. keeping ≡ wanted.InFile) }
{
    match keeping {
        Keeping::InRows => Ok((None, Vec::new(alloc))),
        Keeping::InFile => new_file(alloc, data),
    }
}
