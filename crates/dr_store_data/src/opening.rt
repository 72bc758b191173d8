//! The file of a ledger, opened with the extents that its cells name.
ghost use Rattle.std.specs.Prelude.{◌≡◌, ◌∷◌, IfOk};
ghost use Rattle.std.specs.Prelude.{IfSome};
ghost use Rattle.std.specs.List.Sorted.{IsPermutation};
ghost use Rattle.dr_store_bodies.specs.Bodies.{IsClean, extents, seen};
ghost use Rattle.dr_store_data.specs.Heads.{HasHead, head_extent};
ghost use Rattle.dr_store_data.specs.Opened.{HasExtents};

use crate::fault::DataFileFault;
use crate::head::{HEAD_SIZE, has_head};
use crate::mark::DataMark;
use dr_store_bodies::Extent;
use dr_store_shelf::{InFile, ShelfFault};
use sqlite_disk::Disk;
use std::alloc::Global;

/// These extents and that of the head, in the order of their places.
fn in_order(extents: Vec<Extent>) -> Result<Vec<Extent>, DataFileFault>
    ensures { IfOk result (λ all. IsPermutation (head_extent ∷ extents.items) all.items) }
{
    let mut all = extents;
    all.insert(
        0,
        Extent {
            at: 0,
            size: HEAD_SIZE,
        },
    )?;
    all.sort_unstable_by_key(|extent| extent.at);
    Ok(all)
}

/// Why a file isn't opened: where it hasn't the extents, it isn't the ledger's.
fn not_opened<T>(fault: ShelfFault) -> Result<Option<T>, DataFileFault>
    ensures { IfOk result (λ none. IfSome none (λ _. ⊥)) }
{
    match fault {
        ShelfFault::NoCell => Ok(None),
        ShelfFault::Memory => Err(DataFileFault::Memory),
        ShelfFault::Io(_) => Err(DataFileFault::Store),
        ShelfFault::Unusable => Err(DataFileFault::Store),
        ShelfFault::Full => Err(DataFileFault::Store),
        ShelfFault::Unreadable => Err(DataFileFault::Store),
    }
}

/// The shelf over a file with this mark, in which the head and these extents are in use, in
/// whatever order they come; None where the file has another mark, or hasn't these extents each
/// behind the head and beside the others.
///
/// Errors: Store, Memory.
pub fn open_in<D: Disk + Drop>(
    alloc: Global,
    file: D,
    mark: &DataMark,
    list: Vec<Extent>,
) -> Result<Option<InFile<D>>, DataFileFault>
    ensures key { IfOk result (λ found. IfSome found (λ it. it.key ≡ mark.now.key)) }
    ensures opened { IfOk result (λ found.
        IfSome found (λ it. HasExtents list.items (extents it.bodies))) }
    ensures shows { IfOk result (λ found.
        IfSome found (λ it. seen it.bodies ≡ D.Disk.seen file)) }
    ensures marked { IfOk result (λ found. IfSome found (λ it. IsClean it.bodies
        → HasHead mark.now.mark (seen it.bodies))) }
{
    let mut medium = file;
    if !has_head(&mut medium, alloc, &mark.mark)? {
        return Ok(None);
    }
    let all = in_order(list)?;
    match InFile::open(alloc, mark.key, medium, all) {
        Ok(shelf) => Ok(Some(shelf)),
        Err(fault) => not_opened(fault),
    }
}
