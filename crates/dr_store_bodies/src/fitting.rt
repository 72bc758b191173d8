//! Whether a file has the extents that it is said to have.
ghost use Rattle.std.specs.Prelude.{◌≡◌, ◌<◌, ◌≤◌, ◌^◌, ℕ, List, length, All, AllPairs};
ghost use Rattle.std.specs.Prelude.{IfErr, IsTrue, OnOk};
ghost use Rattle.dr_store_bodies.specs.declared.extent.Extent.{Extent};
ghost use Rattle.dr_store_bodies.specs.Extents.{AreFit, end_of, LiesBefore};
ghost use Rattle.dr_store_bodies.specs.Fitting.{IsWhyNotFit};
ghost use Rattle.sqlite_disk.specs.Disk.{Only};

use crate::extent::Extent;
use crate::fault::BodyFault;
use crate::order::end_in_order;
use sqlite_disk::Disk;

/// Where the last of the extents ends, or the file's beginning.
pub fn end_of_last(extents: &[Extent]) -> usize
    requires apart { AllPairs LiesBefore extents.now }
    requires named { All (λ e. end_of e < 2 ^ 64) extents.now }
    ensures within { All (λ e. end_of e ≤ result) extents.now }
    ensures least { (size : ℕ) → All (λ e. end_of e ≤ size) extents.now → result ≤ size }
{
    match extents.last() {
        Some(extent) => extent.at + extent.size,
        None => 0,
    }
}

/// Whether a file has these extents: syncs it, so that no crash from here on leaves what an earlier
/// process had not synced, and looks whether they are filled, in the order of their places, and
/// within the file.
///
/// A refusal leaves what the file shows: `Misfit` only where it hasn't these extents.
pub fn fit<D: Disk>(file: &mut D, list: &[Extent]) -> Result<(), BodyFault>
    ensures fit { OnOk result (IsTrue (D.Disk.is_clean file.new)
        → AreFit list.now (length (D.Disk.seen file.new))) }
    ensures filled { OnOk result (All (λ e. 0 < e.size) list.now) }
    ensures apart { OnOk result (AllPairs LiesBefore list.now) }
    ensures named { OnOk result (All (λ e. end_of e < 2 ^ 64) list.now) }
    ensures shows { D.Disk.seen file.new ≡ D.Disk.seen file.old }
    ensures synced { OnOk result (Only (D.Disk.seen file.new) (D.Disk.may_leave file.new)) }
    ensures leaves { (c : List ℕ) → D.Disk.may_leave file.new c → D.Disk.may_leave file.old c }
    ensures clean { IsTrue (D.Disk.is_clean file.new) → IsTrue (D.Disk.is_clean file.old) }
    ensures usable { OnOk result (IsTrue (D.Disk.is_usable file.new)) }
    ensures why { IfErr result (IsWhyNotFit D.Disk list.now file.old file.new) }
{
    if !file.may_be_used() {
        return Err(BodyFault::Unusable);
    }
    file.sync()?;
    let size = file.len()?;
    let Some(end) = end_in_order(list) else {
        return Err(BodyFault::Misfit);
    };
    if end > size {
        return Err(BodyFault::Misfit);
    }
    Ok(())
}
