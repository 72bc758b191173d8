//! Lines in several files, one behind another.
ghost use Rattle.std.specs.Prelude.{◌≡◌, ◌+◌, ◌<◌, ◌≤◌, ℕ, List, length, All, IfErr, IfOk, OnOk};
ghost use Rattle.std.specs.Prelude.{IsTrue};
ghost use Rattle.dr_store_line_files.specs.Filed.{AreFiled, EntryEndures, InDisks};
ghost use Rattle.dr_store_sealed.specs.Lines.{IsOneLine};
ghost use Rattle.dr_store_sealed.specs.Seals.{TakesLines, full, lines_between};
ghost use Rattle.dr_store_line_files.specs.Several.{AreUsable, IsWhyNotPutHere, IsWhyNotPutIn};
ghost use Rattle.dr_store_line_files.specs.Several.{KeepsFile, KeepsFiles, all_faults};

use dr_base::Text;
use dr_store_sealed::{Seal, SealFault, append_to};
use sqlite_disk::Disk;
use std::alloc::Global;

/// Writes those of the lines that begin in the place's file, which this is, behind the place, as
/// `append_to` does; and refuses a file that is shorter than that.
fn put_here<D: Disk>(
    alloc: Global,
    file: &mut D,
    place: &Seal,
    lines: &[Text],
) -> Result<Seal, SealFault>
    requires { place.now.offset < full }
    ensures takes { IfOk result (λ last. TakesLines place.now lines.now last) }
    ensures some { IfOk result (λ last. 0 < length lines.now → place.now.count < last.count) }
    ensures lines { IfOk result (λ last. All IsOneLine (lines_between place.now last lines.now)) }
    ensures filed { IfOk result (λ last. AreFiled
        (λ number at entry. (number ≡ place.now.number)
        × EntryEndures (D.Disk.seen file.new) (D.Disk.may_leave file.new) at entry)
        place.now (lines_between place.now last lines.now)) }
    ensures keeps { KeepsFile D.Disk place.now.offset file.old file.new }
    ensures usable { OnOk result (IsTrue (D.Disk.is_usable file.new)) }
    ensures faults { OnOk result (D.Disk.faults file.new ≡ D.Disk.faults file.old) }
    ensures why { IfErr result
        (IsWhyNotPutHere D.Disk place.now.offset place.now.count lines.now file.old file.new) }
{
    if !file.may_be_used() {
        return Err(SealFault::Unusable);
    }
    let size = file.len()?;
    if size < place.offset {
        return Err(SealFault::Short);
    }
    let last = append_to(alloc, file, place, lines)?;
    Ok(last)
}

/// Writes those of the lines behind the place that begin in its file: all, or as many as make it
/// full. Then it ends the file behind them, syncs it, and answers the seal behind them.
///
/// Whatever comes of it, all before the place stays what it was, also after a crash.
pub fn put_lines<D: Disk>(
    alloc: Global,
    disks: &mut Vec<D>,
    place: &Seal,
    lines: &[Text],
) -> Result<Seal, SealFault>
    requires there { place.now.number < length disks.old.items }
    requires room { place.now.offset < full }
    ensures takes { IfOk result (λ last. TakesLines place.now lines.now last) }
    ensures some { IfOk result (λ last. 0 < length lines.now → place.now.count < last.count) }
    ensures lines { IfOk result (λ last. All IsOneLine (lines_between place.now last lines.now)) }
    ensures filed { IfOk result (λ last. AreFiled (InDisks D.Disk disks.new.items)
        place.now (lines_between place.now last lines.now)) }
    ensures keeps { KeepsFiles D.Disk place.now disks.old.items disks.new.items }
    ensures size { length disks.new.items ≡ length disks.old.items }
    ensures usable { OnOk result (AreUsable D.Disk disks.old.items
        → AreUsable D.Disk disks.new.items) }
    ensures faults { OnOk result
        (all_faults D.Disk disks.new.items ≡ all_faults D.Disk disks.old.items) }
    ensures why { IfErr result
        (IsWhyNotPutIn D.Disk place.now lines.now disks.old.items disks.new.items) }
{
    let number = place.number as usize;
    let last = put_here(alloc, &mut disks[number], place, lines)?;
    Ok(last)
}
