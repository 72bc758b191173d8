//! Whether a file is the one of a seal.
ghost use Rattle.std.specs.Prelude.{◌≡◌, ◌+◌, ◌<◌, ◌≤◌, ℕ, List, length, IsTrue, IfErr, OnOk};
ghost use Rattle.sqlite_disk.specs.Disk.{Holds, Only};
ghost use Rattle.dr_store_sealed.specs.Files.{EndsAs, Endures};
ghost use Rattle.dr_store_sealed.specs.Refusals.{IsWhyNotFit};

use crate::ending::{put_end, test_end};
use crate::fault::SealFault;
use crate::seal::Seal;
use sqlite_disk::Disk;
use std::alloc::Global;

/// Whether the file reaches as far as the seal says, and its last line there has the seal's chain.
/// Then it is cut behind that place, so that no line is left in it that was written and not sealed.
/// It is synced, so that no crash from here on leaves what an earlier process had not synced.
///
/// Whatever comes of it, all before the seal's place stays what it was. `Short` and `OtherChain`
/// are answered only where the file is so.
pub fn fit<D: Disk>(alloc: Global, file: &mut D, seal: &Seal) -> Result<(), SealFault>
    ensures ends { OnOk result (IsTrue (D.Disk.is_clean file.new)
        → EndsAs (D.Disk.seen file.new) seal.now) }
    ensures cut { OnOk result (length (D.Disk.seen file.new) ≡ seal.now.offset) }
    ensures synced { OnOk result (Only (D.Disk.seen file.new) (D.Disk.may_leave file.new)) }
    ensures shows { (from : ℕ) (kept : List ℕ)
        → from + length kept ≤ seal.now.offset
        → Holds (D.Disk.seen file.old) from kept → Holds (D.Disk.seen file.new) from kept }
    ensures keeps { (from : ℕ) (kept : List ℕ)
        → from + length kept ≤ seal.now.offset
        → Endures (D.Disk.seen file.old) (D.Disk.may_leave file.old) from kept
        → Endures (D.Disk.seen file.new) (D.Disk.may_leave file.new) from kept }
    ensures clean { IsTrue (D.Disk.is_clean file.new) → IsTrue (D.Disk.is_clean file.old) }
    ensures usable { OnOk result (IsTrue (D.Disk.is_usable file.new)) }
    ensures why { IfErr result (IsWhyNotFit D.Disk seal.now file.old file.new) }
{
    if !file.may_be_used() {
        return Err(SealFault::Unusable);
    }
    let size = file.len()?;
    if size < seal.offset {
        return Err(SealFault::Short);
    }
    test_end(alloc, file, seal)?;
    put_end(file, seal.offset, &[], seal.offset)
}
