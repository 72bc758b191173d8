//! The files of a past, opened one after another.
ghost use Rattle.std.specs.Prelude.{◌<◌, length, IfOk, IsTrue};
ghost use Rattle.sqlite_disk.specs.Disk.{Only};
ghost use Rattle.dr_store_line_files.specs.Several.{AreSynced, AreUsable};

use crate::fault::PastFault;
use crate::files::PastFiles;
use dr_store_sealed::{Seal, SealFault};
use sqlite_disk::Disk;
use std::alloc::Global;

/// The file of that number, which is made where no line is sealed yet. It is synced, so that no
/// crash from here on leaves what an earlier process had not synced.
///
/// Errors: File, Sealed.
fn open_file<F: PastFiles>(
    alloc: Global,
    files: &F,
    number: u64,
    seal: &Seal,
) -> Result<F::Disk, PastFault>
    ensures synced { IfOk result (λ disk.
        Only (F.Disk.Disk.seen disk) (F.Disk.Disk.may_leave disk)) }
    ensures usable { IfOk result (λ disk. IsTrue (F.Disk.Disk.is_usable disk)) }
{
    let mut disk = if seal.count == 0 {
        files.make(alloc, number)?
    } else {
        files.open(alloc, number)?
    };
    if !disk.may_be_used() {
        return Err(PastFault::Sealed(SealFault::Unusable));
    }
    match disk.sync() {
        Ok(()) => Ok(disk),
        Err(error) => Err(PastFault::Sealed(SealFault::Io(error))),
    }
}

/// The files of all numbers from 0 on, up to that of the seal.
///
/// Errors: File, Sealed.
pub fn open_files<F: PastFiles>(
    alloc: Global,
    files: &F,
    seal: &Seal,
) -> Result<Vec<F::Disk>, PastFault>
    ensures there { IfOk result (λ disks. seal.now.number < length disks.items) }
    ensures synced { IfOk result (λ disks. AreSynced F.Disk.Disk disks.items) }
    ensures usable { IfOk result (λ disks. AreUsable F.Disk.Disk disks.items) }
{
    let mut disks = Vec::new(alloc);
    while disks.len() as u64 <= seal.number {
        let disk = open_file(alloc, files, disks.len() as u64, seal)?;
        disks.push(disk)?;
    }
    Ok(disks)
}
