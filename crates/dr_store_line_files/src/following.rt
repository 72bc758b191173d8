//! The next lines of several files.
ghost use Rattle.std.specs.Prelude.{◌≡◌, ◌<◌, ℕ, List, length, All, IfErr, IfOk, OnOk, IsTrue};
ghost use Rattle.dr_store_line_files.specs.Filed.{InDisks};
ghost use Rattle.dr_store_line_files.specs.Following.{IsEnd, IsWhyNotReadHere, ReadsTo};
ghost use Rattle.dr_store_sealed.specs.Refusals.{IsWhyNotPut};
ghost use Rattle.dr_store_sealed.specs.Lines.{IsOneLine};
ghost use Rattle.dr_store_line_files.specs.Several.{AreClean, AreNext, AreUsable, IsWhyNotNext};
ghost use Rattle.dr_store_line_files.specs.Several.{all_faults, all_shown};

use crate::place::place_of;
use dr_base::Text;
use dr_store_sealed::{Seal, SealFault, read_lines};
use sqlite_disk::Disk;
use std::alloc::Global;

/// Where the lines of the place's file end, which this is: at the last seal if that is in it, else
/// at the end of the file.
fn end_of<D: Disk>(file: &mut D, place: &Seal, last: &Seal) -> Result<usize, SealFault>
    requires { IsTrue (D.Disk.is_usable file.old) }
    ensures end { IfOk result (λ end. IsTrue (D.Disk.is_clean file.new)
        → IsEnd (D.Disk.seen file.old) place.now last.now end) }
    ensures shows { D.Disk.seen file.new ≡ D.Disk.seen file.old }
    ensures leaves { (c : List ℕ) → D.Disk.may_leave file.new c → D.Disk.may_leave file.old c }
    ensures clean { IsTrue (D.Disk.is_clean file.new) → IsTrue (D.Disk.is_clean file.old) }
    ensures usable { IsTrue (D.Disk.is_usable file.new) }
    ensures faults { OnOk result (D.Disk.faults file.new ≡ D.Disk.faults file.old) }
    ensures why { IfErr result (IsWhyNotPut D.Disk file.old file.new) }
{
    if place.number == last.number {
        return Ok(last.offset);
    }
    let size = file.len()?;
    Ok(size)
}

/// The next lines of the place's file, which this is, and the seal behind them: as many as a piece
/// of it has.
fn read_here<D: Disk>(
    alloc: Global,
    file: &mut D,
    place: &Seal,
    last: &Seal,
) -> Result<(Vec<Text>, Seal), SealFault>
    ensures reads { IfOk result (λ read. IsTrue (D.Disk.is_clean file.new)
        → ReadsTo (D.Disk.seen file.old) place.now last.now read.0.items read.1) }
    ensures lines { IfOk result (λ read. All IsOneLine read.0.items) }
    ensures onward { IfOk result (λ read. place.now.count < read.1.count) }
    ensures shows { D.Disk.seen file.new ≡ D.Disk.seen file.old }
    ensures leaves { (c : List ℕ) → D.Disk.may_leave file.new c → D.Disk.may_leave file.old c }
    ensures clean { IsTrue (D.Disk.is_clean file.new) → IsTrue (D.Disk.is_clean file.old) }
    ensures usable { OnOk result (IsTrue (D.Disk.is_usable file.new)) }
    ensures faults { OnOk result (D.Disk.faults file.new ≡ D.Disk.faults file.old) }
    ensures why { IfErr result (IsWhyNotReadHere D.Disk place.now last.now file.old file.new) }
{
    if !file.may_be_used() {
        return Err(SealFault::Unusable);
    }
    let end = end_of(file, place, last)?;
    if place.offset >= end {
        return Err(SealFault::Broken);
    }
    let read = read_lines(alloc, file, place, end)?;
    if read.1.count <= place.count {
        return Err(SealFault::Broken);
    }
    Ok(read)
}

/// The next lines of several files behind a seal that is before the last one, and the seal behind
/// them: as many as a piece of one file has. Each file but that of the last seal ends with its last
/// line. The files are those of all numbers from 0 on.
pub fn read_next<D: Disk>(
    alloc: Global,
    disks: &mut Vec<D>,
    from: &Seal,
    last: &Seal,
) -> Result<(Vec<Text>, Seal), SealFault>
    requires { from.now.count < last.now.count }
    ensures reads { IfOk result (λ read. AreClean D.Disk disks.new.items
        → AreNext D.Disk disks.old.items from.now last.now read.0.items read.1) }
    ensures lines { IfOk result (λ read. All IsOneLine read.0.items) }
    ensures onward { IfOk result (λ read. from.now.count < read.1.count) }
    ensures shows { all_shown D.Disk disks.new.items ≡ all_shown D.Disk disks.old.items }
    ensures size { length disks.new.items ≡ length disks.old.items }
    ensures keeps { (number at : ℕ) (entry : List ℕ)
        → InDisks D.Disk disks.old.items number at entry
        → InDisks D.Disk disks.new.items number at entry }
    ensures clean { AreClean D.Disk disks.new.items → AreClean D.Disk disks.old.items }
    ensures usable { OnOk result (AreUsable D.Disk disks.old.items
        → AreUsable D.Disk disks.new.items) }
    ensures faults { OnOk result
        (all_faults D.Disk disks.new.items ≡ all_faults D.Disk disks.old.items) }
    ensures why { IfErr result
        (IsWhyNotNext D.Disk from.now last.now disks.old.items disks.new.items) }
{
    let _number = last.number;
    let Some(place) = place_of(from) else {
        return Err(SealFault::Broken);
    };
    if place.number >= disks.len() as u64 {
        return Err(SealFault::Broken);
    }
    let number = place.number as usize;
    let read = read_here(alloc, &mut disks[number], &place, last)?;
    Ok(read)
}
