//! Lines at the end of a file.
ghost use Rattle.std.specs.Prelude.{◌≡◌, ◌+◌, ◌<◌, ◌≤◌, ℕ, List, length, take, All, IsTrue};
ghost use Rattle.std.specs.Prelude.{IfErr, IfOk, OnOk};
ghost use Rattle.sqlite_disk.specs.Disk.{Holds, Only};
ghost use Rattle.dr_store_sealed.specs.Files.{Endures};
ghost use Rattle.dr_store_sealed.specs.Held.{IsWhyNotAdded};
ghost use Rattle.dr_store_sealed.specs.Lines.{IsOneLine, bytes_of};
ghost use Rattle.dr_store_sealed.specs.Seals.{TakesLines, lines_between};

use crate::ending::put_end;
use crate::entries::entries_of;
use crate::fault::SealFault;
use crate::seal::Seal;
use dr_base::Text;
use sqlite_disk::Disk;
use std::alloc::Global;

/// Writes those of the lines that begin in the seal's file, which this is: all, or as many as make
/// it full. Then it ends the file behind them, syncs it, and answers the seal behind them. A file
/// that is full takes none, and refuses.
///
/// Whatever comes of it, all before the seal's place stays what it was, also after a crash.
pub fn append_to<D: Disk>(
    alloc: Global,
    file: &mut D,
    seal: &Seal,
    lines: &[Text],
) -> Result<Seal, SealFault>
    ensures put { IfOk result (λ last. Endures (D.Disk.seen file.new) (D.Disk.may_leave file.new)
        seal.now.offset (bytes_of seal.now.chain (lines_between seal.now last lines.now))) }
    ensures takes { IfOk result (λ last. TakesLines seal.now lines.now last) }
    ensures some { IfOk result (λ last. 0 < length lines.now → seal.now.count < last.count) }
    ensures lines { IfOk result (λ last.
        All IsOneLine (lines_between seal.now last lines.now)) }
    ensures ends { IfOk result (λ last. length (D.Disk.seen file.new) ≡ last.offset) }
    ensures synced { OnOk result (Only (D.Disk.seen file.new) (D.Disk.may_leave file.new)) }
    ensures shows { (from : ℕ) (kept : List ℕ)
        → from + length kept ≤ seal.now.offset
        → Holds (D.Disk.seen file.old) from kept → Holds (D.Disk.seen file.new) from kept }
    ensures keeps { (from : ℕ) (kept : List ℕ)
        → from + length kept ≤ seal.now.offset
        → Endures (D.Disk.seen file.old) (D.Disk.may_leave file.old) from kept
        → Endures (D.Disk.seen file.new) (D.Disk.may_leave file.new) from kept }
    ensures same { seal.now.offset ≤ length (D.Disk.seen file.old)
        → take seal.now.offset (D.Disk.seen file.new)
        ≡ take seal.now.offset (D.Disk.seen file.old) }
    ensures clean { IsTrue (D.Disk.is_clean file.new) → IsTrue (D.Disk.is_clean file.old) }
    ensures usable { OnOk result (IsTrue (D.Disk.is_usable file.new)) }
    ensures faults { OnOk result (D.Disk.faults file.new ≡ D.Disk.faults file.old) }
    ensures why { IfErr result (IsWhyNotAdded D.Disk seal.now lines.now file.old file.new) }
{
    if !file.may_be_used() {
        return Err(SealFault::Unusable);
    }
    if seal.is_full() {
        return Err(SealFault::Full);
    }
    let (bytes, last) = entries_of(alloc, seal, lines)?;
    put_end(file, seal.offset, &bytes, last.offset)?;
    Ok(last)
}
