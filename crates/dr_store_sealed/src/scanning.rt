//! All lines of a file, piece by piece.
ghost use Rattle.std.specs.Prelude.{◌≡◌, ◌<◌, ◌≤◌, ℕ, List, length, All, IsTrue, IfErr, IfOk, OnOk};
ghost use Rattle.dr_store_sealed.specs.Files.{HasLines};
ghost use Rattle.dr_store_sealed.specs.Lines.{IsOneLine};
ghost use Rattle.dr_store_sealed.specs.Refusals.{IsWhyNotRead};

use crate::fault::SealFault;
use crate::piece::read_piece;
use crate::reading::lines_in;
use crate::seal::Seal;
use dr_base::Text;
use sqlite_disk::Disk;
use std::alloc::Global;

/// The bytes that are read at once. They are more than the longest line and what is behind it.
const PIECE: usize = 262_144;

/// The next lines of a file behind `from`, a place before `end` where a line begins, and the seal
/// behind them: as many as a piece of the file has. Each has the chain that follows from the line
/// before it.
pub fn read_lines<D: Disk>(
    alloc: Global,
    file: &mut D,
    from: &Seal,
    end: usize,
) -> Result<(Vec<Text>, Seal), SealFault>
    requires { from.now.offset < end }
    ensures reads { IfOk result (λ read. IsTrue (D.Disk.is_clean file.new)
        → HasLines (D.Disk.seen file.new) from.now read.0.items read.1) }
    ensures lines { IfOk result (λ read. All IsOneLine read.0.items) }
    ensures onward { IfOk result (λ read. from.now.offset < read.1.offset) }
    ensures within { IfOk result (λ read. read.1.offset ≤ end) }
    ensures shows { D.Disk.seen file.new ≡ D.Disk.seen file.old }
    ensures leaves { (c : List ℕ) → D.Disk.may_leave file.new c → D.Disk.may_leave file.old c }
    ensures clean { IsTrue (D.Disk.is_clean file.new) → IsTrue (D.Disk.is_clean file.old) }
    ensures usable { OnOk result (IsTrue (D.Disk.is_usable file.new)) }
    ensures faults { OnOk result (D.Disk.faults file.new ≡ D.Disk.faults file.old) }
    ensures why { IfErr result (IsWhyNotRead D.Disk from.now end file.old file.new) }
{
    if !file.may_be_used() {
        return Err(SealFault::Unusable);
    }
    let size = PIECE.min(end - from.offset);
    let piece = read_piece(alloc, file, from.offset, size)?;
    match lines_in(alloc, &piece, from) {
        Err(fault) => Err(fault),
        Ok((lines, last)) => Ok((lines, last)),
    }
}

/// Reads a file to its end, of which `start` is the seal at its beginning, and answers the seal
/// behind its last line. The chain of each line is tested, and nothing is kept but one piece of the
/// file at a time. A refusal is as that of `read_lines`.
pub fn scan<D: Disk>(alloc: Global, file: &mut D, start: &Seal) -> Result<Seal, SealFault>
    requires { start.now.offset ≡ 0 }
    ensures whole { IfOk result (λ last. IsTrue (D.Disk.is_clean file.new)
        → (lines : List (List ℕ))
        × (All IsOneLine lines × HasLines (D.Disk.seen file.new) start.now lines last)) }
    ensures ends { IfOk result (λ last. IsTrue (D.Disk.is_clean file.new)
        → length (D.Disk.seen file.new) ≡ last.offset) }
    ensures shows { D.Disk.seen file.new ≡ D.Disk.seen file.old }
    ensures leaves { (c : List ℕ) → D.Disk.may_leave file.new c → D.Disk.may_leave file.old c }
    ensures clean { IsTrue (D.Disk.is_clean file.new) → IsTrue (D.Disk.is_clean file.old) }
    ensures why { IfErr result
        (IsWhyNotRead D.Disk start.now (length (D.Disk.seen file.old)) file.old file.new) }
{
    if !file.may_be_used() {
        return Err(SealFault::Unusable);
    }
    let size = file.len()?;
    let mut at = *start;
    while at.offset < size {
        match read_lines(alloc, file, &at, size) {
            Ok((lines, next)) => {
                drop(lines);
                at = next;
            }
            Err(fault) => return Err(fault),
        }
    }
    Ok(at)
}
