//! Lines behind a past, in its files.
ghost use Rattle.std.specs.Prelude.{◌≡◌, ◌+◌, ◌^◌, ◌<◌, ◌≤◌, ◌++◌, ℕ, List, length, take, All};
ghost use Rattle.std.specs.Prelude.{IfErr, IfOk, OnErr, OnOk};
ghost use Rattle.dr_store_line_files.specs.Filed.{place_behind};
ghost use Rattle.dr_store_sealed.specs.Seals.{full};
ghost use Rattle.dr_store_line_files.specs.Several.{KeepsFiles};
ghost use Rattle.dr_store_past.specs.Lines.{FitsPast, texts_behind};
ghost use Rattle.dr_store_past.specs.Refusals.{IsWhyNoPlace, IsWhyNotPut};
ghost use Rattle.dr_store_past.specs.Shown.{ArePut, HasMade};

use crate::fault::{PastFault, PastFileFault};
use crate::files::PastFiles;
use crate::lines::{PastLine, texts_of};
use dr_base::Text;
use dr_store_line_files::{place_of, put_lines};
use dr_store_sealed::{Seal, SealFault};
use sqlite_disk::Disk;
use std::alloc::Global;

/// The lines whose texts are made at once.
const PAGE: usize = 10_000;

/// Where the next line behind the seal begins. Its file is made if it isn't among these.
///
/// Errors: File, Sealed; nothing has changed then.
fn place_for<F: PastFiles>(
    files: &F,
    disks: &mut Vec<F::Disk>,
    seal: &Seal,
) -> Result<Seal, PastFault>
    requires { seal.now.number < length disks.old.items }
    ensures place { IfOk result (λ place. place ≡ place_behind seal.now) }
    ensures room { IfOk result (λ place. place.offset < full) }
    ensures there { IfOk result (λ place. place.number < length disks.new.items) }
    ensures made { HasMade F.Disk.Disk disks.old.items disks.new.items }
    ensures unmade { OnErr result (disks.new.items ≡ disks.old.items) }
    ensures why { IfErr result (IsWhyNoPlace seal.now) }
{
    let Some(place) = place_of(seal) else {
        return Err(PastFault::Sealed(SealFault::Full));
    };
    if place.number == disks.len() as u64 {
        let disk = files.make(*disks.allocator(), place.number)?;
        if !disk.may_be_used() {
            return Err(PastFault::File(PastFileFault::Store));
        }
        disks.push(disk)?;
    }
    Ok(place)
}

/// Writes as many of the texts behind the seal as go into one file, syncs that, and answers the
/// seal behind them.
fn write_part<F: PastFiles>(
    alloc: Global,
    files: &F,
    disks: &mut Vec<F::Disk>,
    from: &Seal,
    texts: &[Text],
) -> Result<Seal, PastFault>
    requires { from.now.number < length disks.old.items }
    ensures put { IfOk result (λ last. 0 < length texts.now
        → (count : ℕ) × (0 < count) × (count ≤ length texts.now)
        × (last.count ≡ from.now.count + count)
        × ArePut F.Disk.Disk disks.old.items disks.new.items from.now
        (take count texts.now) last) }
    ensures keeps { KeepsFiles F.Disk.Disk (place_behind from.now) disks.old.items disks.new.items }
    ensures why { IfErr result
        (IsWhyNotPut F.Disk.Disk disks.old.items disks.new.items from.now texts.now) }
{
    let place = place_for(files, disks, from)?;
    match put_lines(alloc, disks, &place, texts) {
        Ok(last) => Ok(last),
        Err(fault) => Err(PastFault::Sealed(fault)),
    }
}

/// Writes texts behind the seal, file by file: where one is full, the next one is made.
fn write_texts<F: PastFiles>(
    alloc: Global,
    files: &F,
    disks: &mut Vec<F::Disk>,
    from: &Seal,
    texts: &[Text],
) -> Result<Seal, PastFault>
    requires { from.now.number < length disks.old.items }
    ensures put { IfOk result (λ last.
        ArePut F.Disk.Disk disks.old.items disks.new.items from.now texts.now last) }
    ensures keeps { KeepsFiles F.Disk.Disk (place_behind from.now) disks.old.items disks.new.items }
    ensures why { IfErr result
        (IsWhyNotPut F.Disk.Disk disks.old.items disks.new.items from.now texts.now) }
{
    let mut last = *from;
    let mut done = 0;
    while done < texts.len() {
        last = write_part(alloc, files, disks, &last, &texts[done..])?;
        done = last.count.saturating_sub(from.count) as usize;
    }
    Ok(last)
}

/// Writes these lines behind the seal, page by page, syncs what it wrote, and answers the seal
/// behind them.
///
/// Whatever comes of it, all before the seal's place stays what it was, also after a crash.
pub fn write_behind<F: PastFiles>(
    alloc: Global,
    files: &F,
    disks: &mut Vec<F::Disk>,
    from: &Seal,
    lines: &[PastLine],
) -> Result<Seal, PastFault>
    requires { from.now.number < length disks.old.items }
    ensures put { IfOk result (λ last. ArePut F.Disk.Disk disks.old.items disks.new.items
        from.now (texts_behind from.now.count lines.now) last) }
    ensures fit { IfOk result (λ last. All FitsPast lines.now) }
    ensures counts { IfOk result (λ last. last.count ≡ from.now.count + length lines.now) }
    ensures counted { IfOk result (λ last. last.count < 2 ^ 64) }
    ensures keeps { KeepsFiles F.Disk.Disk (place_behind from.now) disks.old.items disks.new.items }
    ensures why { IfErr result (IsWhyNotPut F.Disk.Disk disks.old.items disks.new.items
        from.now (texts_behind from.now.count lines.now)) }
{
    let _count = from.count;
    let mut last = *from;
    let mut done = 0;
    while done < lines.len() {
        let rest = &lines[done..];
        let more = rest.len().min(PAGE);
        let texts = texts_of(alloc, last.count, &rest[..more])?;
        last = write_texts(alloc, files, disks, &last, &texts)?;
        done += more;
    }
    Ok(last)
}
