//! Lines of a past, read from its files.
ghost use Rattle.std.specs.Prelude.{◌≡◌, ◌+◌, ◌^◌, ◌<◌, ◌≤◌, ◌++◌, ℕ, List, drop, length, take};
ghost use Rattle.std.specs.Prelude.{All, IfErr, IfOk, OnOk, Option};
ghost use Rattle.dr_ledger.specs.Books.{Line};
ghost use Rattle.dr_ledger_history.specs.Lines.{lines_of};
ghost use Rattle.dr_store_past.specs.declared.lines.PastLine.{PastLine as LineValue};
ghost use Rattle.dr_store_past.specs.Lines.{IsHeldPast, all_said, past_in, texts_behind};
ghost use Rattle.dr_store_past.specs.Paging.{IsPage, IsWhyNoLine, IsWhyNoPage};
ghost use Rattle.dr_store_past.specs.Refusals.{IsWhyNotTold};
ghost use Rattle.dr_store_past.specs.Places.{NotesPlaces};
ghost use Rattle.dr_store_past.specs.Shown.{IsPastAt, IsPlaceIn, ShowsPast};
ghost use Rattle.dr_store_line_files.specs.Filed.{InDisks};
ghost use Rattle.dr_store_line_files.specs.Several.{AreClean, AreUsable, all_faults, all_shown};
ghost use Rattle.dr_ledger_read.specs.Reading.{IsTextOf};

use crate::fault::PastFault;
use crate::places::{note_place, place_before};
use dr_base::{Seq, Text};
use dr_ledger_history::JournalLine;
use dr_ledger_read::laws::a_text_is_read_in_one_way;
use dr_ledger_read::read_sealed;
use dr_store_line_files::read_next;
use dr_store_sealed::{Seal, SealFault};
use sqlite_disk::Disk;
use std::alloc::Global;

/// The line that has this text.
fn line_in(alloc: Global, text: &[u8]) -> Result<JournalLine, PastFault>
    ensures is { IfOk result (λ line. (number : ℕ) × (moment : Option ℕ)
        × IsTextOf text.now number line moment) }
    ensures read { IfOk result (λ line. (n : ℕ) (it : LineValue)
        → IsTextOf text.now n it.line it.moment → line ≡ it.line) }
    ensures why { IfErr result (IsWhyNoLine text.now) }
{
    a_text_is_read_in_one_way();
    match read_sealed(alloc, text)? {
        Some(sealed) => Ok(sealed.line),
        None => Err(PastFault::NoLine),
    }
}

/// Adds the lines that have these texts.
fn push_lines(alloc: Global, found: &mut Seq<JournalLine>, texts: &[Text]) -> Result<(), PastFault>
    ensures pushed { OnOk result ((n : ℕ) (lines : List LineValue)
        → All IsHeldPast lines → n + length lines < 2 ^ 64
        → texts.now ≡ texts_behind n lines
        → lines_of found.new ≡ lines_of found.old ++ all_said lines) }
    ensures why { IfErr result (IsWhyNoPage texts.now) }
{
    for text in texts {
        let line = line_in(alloc, text.as_bytes())?;
        found.push(line)?;
    }
    Ok(())
}

/// Of the texts of lines behind that count, adds those whose numbers lie behind `after`, while
/// fewer than `limit` are found.
fn pick_lines(
    alloc: Global,
    found: &mut Seq<JournalLine>,
    texts: &[Text],
    count: u64,
    after: u64,
    limit: usize,
) -> Result<(), PastFault>
    ensures picked { OnOk result ((all : List LineValue)
        → IsPage texts.now count all
        → lines_of found.old ≡ take limit (drop after (take count (all_said all)))
        → lines_of found.new
        ≡ take limit (drop after (take (count + length texts.now) (all_said all)))) }
    ensures why { IfErr result (IsWhyNoPage texts.now) }
{
    let skip = (after.saturating_sub(count)).min(texts.len() as u64) as usize;
    let rest = &texts[skip..];
    let more = rest.len().min(limit.saturating_sub(found.len()));
    push_lines(alloc, found, &rest[..more])
}

/// The lines whose numbers lie behind that one, up to the seal, in their order: so many at most.
/// They are read from the last place on that is noted before them, and further ones are noted.
pub fn read_behind<D: Disk>(
    alloc: Global,
    disks: &mut Vec<D>,
    places: &mut Vec<Seal>,
    seal: &Seal,
    after: u64,
    limit: usize,
) -> Result<Seq<JournalLine>, PastFault>
    requires { All (λ place. place.count ≤ seal.now.count) places.old.items }
    ensures answer { IfOk result (λ found. (all : List Line)
        → AreClean D.Disk disks.new.items
        → (it : ShowsPast all (all_shown D.Disk disks.old.items) seal.now)
        → All (IsPlaceIn (texts_behind 0 it.lines)) places.old.items
        → lines_of found ≡ take limit (drop after (past_in all seal.now))) }
    ensures notes { NotesPlaces (AreClean D.Disk disks.new.items)
        (all_shown D.Disk disks.old.items) seal.now places.old.items places.new.items }
    ensures shows { all_shown D.Disk disks.new.items ≡ all_shown D.Disk disks.old.items }
    ensures size { length disks.new.items ≡ length disks.old.items }
    ensures keeps { (number at : ℕ) (entry : List ℕ)
        → InDisks D.Disk disks.old.items number at entry
        → InDisks D.Disk disks.new.items number at entry }
    ensures clean { AreClean D.Disk disks.new.items → AreClean D.Disk disks.old.items }
    ensures why { IfErr result (λ fault. (all : List Line) → IsWhyNotTold
        (AreClean D.Disk disks.new.items × IsPastAt all (all_shown D.Disk disks.old.items) seal.now
        places.old.items)
        (AreUsable D.Disk disks.old.items)
        (all_faults D.Disk disks.old.items) (all_faults D.Disk disks.new.items) fault) }
{
    let mut found = Seq::new(alloc);
    let mut at = place_before(places.as_slice(), after);
    while at.count < seal.count {
        if found.len() >= limit {
            return Ok(found);
        }
        match read_next(alloc, disks, &at, seal) {
            Ok((texts, next)) => {
                if next.count > seal.count {
                    return Err(PastFault::Sealed(SealFault::Broken));
                }
                pick_lines(alloc, &mut found, &texts, at.count, after, limit)?;
                note_place(places, &next)?;
                at = next;
            }
            Err(fault) => return Err(PastFault::Sealed(fault)),
        }
    }
    Ok(found)
}
