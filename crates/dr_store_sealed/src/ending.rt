//! The end of a file: bytes that are put there, and the last line's chain.
ghost use Rattle.std.specs.Prelude.{◌≡◌, ◌+◌, ◌<◌, ◌≤◌, ℕ, List, length, take, IsTrue, IfErr, OnOk};
ghost use Rattle.sqlite_disk.specs.Disk.{Holds, Only};
ghost use Rattle.dr_store_sealed.specs.Files.{EndsAs, Endures};
ghost use Rattle.dr_store_sealed.specs.Refusals.{IsWhyNotPut, IsWhyNoEnd};

use crate::entries::mark;
use crate::fault::SealFault;
use crate::piece::{are_alike, read_piece};
use crate::seal::Seal;
use sqlite_disk::Disk;
use std::alloc::Global;

/// Writes the bytes, ends the file behind them, and syncs.
///
/// Whatever comes of it, all before them stays what it was, also after a crash.
#[tactic(auto, using(crate::proofs::FileLemmas::same_torn, crate::proofs::FileLemmas::same_put))]
pub fn put_end<D: Disk>(file: &mut D, at: usize, bytes: &[u8], end: usize) -> Result<(), SealFault>
    requires usable { IsTrue (D.Disk.is_usable file.old) }
    requires end { end ≡ at + length bytes.now }
    ensures put { OnOk result
        (Endures (D.Disk.seen file.new) (D.Disk.may_leave file.new) at bytes.now) }
    ensures ends { OnOk result (length (D.Disk.seen file.new) ≡ end) }
    ensures synced { OnOk result (Only (D.Disk.seen file.new) (D.Disk.may_leave file.new)) }
    ensures shows { (from : ℕ) (kept : List ℕ)
        → from + length kept ≤ at
        → Holds (D.Disk.seen file.old) from kept → Holds (D.Disk.seen file.new) from kept }
    ensures keeps { (from : ℕ) (kept : List ℕ)
        → from + length kept ≤ at
        → Endures (D.Disk.seen file.old) (D.Disk.may_leave file.old) from kept
        → Endures (D.Disk.seen file.new) (D.Disk.may_leave file.new) from kept }
    ensures same { at ≤ length (D.Disk.seen file.old)
        → take at (D.Disk.seen file.new) ≡ take at (D.Disk.seen file.old) }
    ensures clean { IsTrue (D.Disk.is_clean file.new) → IsTrue (D.Disk.is_clean file.old) }
    ensures usable { OnOk result (IsTrue (D.Disk.is_usable file.new)) }
    ensures faults { OnOk result (D.Disk.faults file.new ≡ D.Disk.faults file.old) }
    ensures why { IfErr result (IsWhyNotPut D.Disk file.old file.new) }
{
    file.write_at(at, bytes)?;
    file.set_len(end)?;
    file.sync()?;
    Ok(())
}

/// Tests whether the last line before the seal's place has the seal's chain.
pub fn test_end<D: Disk>(alloc: Global, file: &mut D, seal: &Seal) -> Result<(), SealFault>
    requires { IsTrue (D.Disk.is_usable file.old) }
    ensures ends { OnOk result (IsTrue (D.Disk.is_clean file.new)
        → EndsAs (D.Disk.seen file.new) seal.now) }
    ensures shows { D.Disk.seen file.new ≡ D.Disk.seen file.old }
    ensures leaves { (c : List ℕ) → D.Disk.may_leave file.new c → D.Disk.may_leave file.old c }
    ensures clean { IsTrue (D.Disk.is_clean file.new) → IsTrue (D.Disk.is_clean file.old) }
    ensures usable { IsTrue (D.Disk.is_usable file.new) }
    ensures faults { OnOk result (D.Disk.faults file.new ≡ D.Disk.faults file.old) }
    ensures why { IfErr result (IsWhyNoEnd D.Disk seal.now file.old file.new) }
{
    if seal.offset == 0 {
        return Ok(());
    }
    let wanted = mark(alloc, &seal.chain)?;
    let Some(at) = seal.offset.checked_sub(wanted.len()) else {
        return Err(SealFault::OtherChain);
    };
    let found = read_piece(alloc, file, at, wanted.len())?;
    if !are_alike(&found, &wanted) {
        return Err(SealFault::OtherChain);
    }
    Ok(())
}
