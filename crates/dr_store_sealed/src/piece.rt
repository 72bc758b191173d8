//! Pieces of a file, and whether bytes are the same.
ghost use Rattle.std.specs.Prelude.{◌≡◌, ◌↔◌, ◌<◌, ℕ, List, length, IsTrue, IfErr, IfOk, OnOk};
ghost use Rattle.sqlite_disk.specs.Disk.{Holds};
ghost use Rattle.dr_store_sealed.specs.Refusals.{IsWhyNoPiece};

use crate::fault::SealFault;
use sqlite_disk::Disk;
use std::alloc::Global;

/// Whether both are the same bytes.
pub fn are_alike(bytes: &[u8], others: &[u8]) -> bool
    ensures { IsTrue result ↔ (bytes.now ≡ others.now) }
{
    bytes == others
}

/// So many bytes of a file, from a place on.
pub fn read_piece<D: Disk>(
    alloc: Global,
    file: &mut D,
    at: usize,
    size: usize,
) -> Result<Vec<u8>, SealFault>
    requires { IsTrue (D.Disk.is_usable file.old) }
    ensures size { IfOk result (λ piece. length piece.items ≡ size) }
    ensures read { IfOk result (λ piece. IsTrue (D.Disk.is_clean file.new)
        → 0 < size → Holds (D.Disk.seen file.old) at piece.items) }
    ensures shows { D.Disk.seen file.new ≡ D.Disk.seen file.old }
    ensures leaves { (c : List ℕ) → D.Disk.may_leave file.new c → D.Disk.may_leave file.old c }
    ensures clean { IsTrue (D.Disk.is_clean file.new) → IsTrue (D.Disk.is_clean file.old) }
    ensures usable { IsTrue (D.Disk.is_usable file.new) }
    ensures faults { OnOk result (D.Disk.faults file.new ≡ D.Disk.faults file.old) }
    ensures why { IfErr result (IsWhyNoPiece D.Disk at size file.old file.new) }
{
    let mut piece = vec![in alloc; 0u8; size]?;
    file.read_at(at, &mut piece)?;
    Ok(piece)
}
