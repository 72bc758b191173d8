//! A sealed line, read of its text.
ghost use Rattle.std.specs.Prelude.{◌≡◌, List, IfOk};
ghost use Rattle.dr_base.specs.Texts.{Text as TextValue};
ghost use Rattle.dr_ledger.specs.declared.item.Instance.{Instance as InstanceValue};
ghost use Rattle.dr_ledger_history.specs.declared.line.JournalLine.{JournalLine as LineValue};
ghost use Rattle.dr_ledger_history.specs.declared.line.JournalLine.TheVariants as told;
ghost use Rattle.dr_ledger_read.specs.Pieces.{Holds};
ghost use Rattle.dr_ledger_read.specs.Places.{HoldsNames, ShowsItem, ShowsLine};
ghost use Rattle.dr_ledger_read.specs.Reading.{Reads};

use crate::item::item_at;
use crate::names::names_at;
use crate::places::{ItemPlaces, LinePlaces};
use crate::quoted::text_at;
use crate::sealed::cut_sealed;
use dr_ledger::Outcome;
use dr_ledger_history::JournalLine;
use std::alloc::{AllocError, Global};

/// A line of a journal with its number, and the moment (milliseconds) at which it was written,
/// where that is known.
#[derive(Drop)]
pub struct SealedLine {
    pub number: u64,
    pub line: JournalLine,
    pub moment: Option<u64>,
}

fn arrival_at(
    alloc: Global,
    caller: &[u8],
    item: &ItemPlaces<'_>,
    to: &[u8],
    keep: bool,
) -> Result<JournalLine, AllocError>
    ensures { IfOk result (λ made. (c : TextValue) (i : InstanceValue) (t : List TextValue)
        → Holds caller.now c → ShowsItem item.now i → HoldsNames to.now t
        → made ≡ told.Arrival c i t keep) }
{
    let caller = text_at(alloc, caller)?;
    let instance = item_at(alloc, item)?;
    let to = names_at(alloc, to)?;
    Ok(JournalLine::Arrival {
        caller,
        instance,
        to,
        keep,
    })
}

fn repeat_at(alloc: Global, caller: &[u8], item: &ItemPlaces<'_>) -> Result<JournalLine, AllocError>
    ensures { IfOk result (λ made. (c : TextValue) (i : InstanceValue)
        → Holds caller.now c → ShowsItem item.now i → made ≡ told.Repeat c i) }
{
    let caller = text_at(alloc, caller)?;
    let instance = item_at(alloc, item)?;
    Ok(JournalLine::Repeat { caller, instance })
}

fn settling_at(
    alloc: Global,
    uid: &[u8],
    dest: &[u8],
    outcome: Outcome,
    now: u64,
) -> Result<JournalLine, AllocError>
    ensures { IfOk result (λ made. (u d : TextValue)
        → Holds uid.now u → Holds dest.now d → made ≡ told.Settling u d outcome now) }
{
    let uid = text_at(alloc, uid)?;
    let dest = text_at(alloc, dest)?;
    Ok(JournalLine::Settling {
        uid,
        dest,
        outcome,
        now,
    })
}

fn requeuing_at(alloc: Global, uid: &[u8], dest: &[u8]) -> Result<JournalLine, AllocError>
    ensures { IfOk result (λ made. (u d : TextValue)
        → Holds uid.now u → Holds dest.now d → made ≡ told.Requeuing u d) }
{
    let uid = text_at(alloc, uid)?;
    let dest = text_at(alloc, dest)?;
    Ok(JournalLine::Requeuing { uid, dest })
}

fn dropping_at(alloc: Global, uid: &[u8], dest: &[u8], now: u64) -> Result<JournalLine, AllocError>
    ensures { IfOk result (λ made. (u d : TextValue)
        → Holds uid.now u → Holds dest.now d → made ≡ told.Dropping u d now) }
{
    let uid = text_at(alloc, uid)?;
    let dest = text_at(alloc, dest)?;
    Ok(JournalLine::Dropping { uid, dest, now })
}

fn forgetting_at(alloc: Global, uid: &[u8]) -> Result<JournalLine, AllocError>
    ensures { IfOk result (λ made. (u : TextValue)
        → Holds uid.now u → made ≡ told.Forgetting u) }
{
    let uid = text_at(alloc, uid)?;
    Ok(JournalLine::Forgetting { uid })
}

/// The line that stands at such places.
fn line_at(alloc: Global, places: &LinePlaces<'_>) -> Result<JournalLine, AllocError>
    ensures { IfOk result (λ made. (line : LineValue) → ShowsLine places.now line
        → made ≡ line) }
{
    match places {
        LinePlaces::Arrival {
            caller,
            item,
            to,
            keep,
        } => arrival_at(alloc, caller, item, to, *keep),
        LinePlaces::Repeat { caller, item } => repeat_at(alloc, caller, item),
        LinePlaces::Settling {
            uid,
            dest,
            outcome,
            now,
        } => settling_at(alloc, uid, dest, *outcome, *now),
        LinePlaces::Requeuing { uid, dest } => requeuing_at(alloc, uid, dest),
        LinePlaces::Dropping { uid, dest, now } => dropping_at(alloc, uid, dest, *now),
        LinePlaces::Forgetting { uid } => forgetting_at(alloc, uid),
        LinePlaces::Adoption => Ok(JournalLine::Adoption),
    }
}

/// The line, with its number and its moment, whose text this is (`put_sealed`), and None where no
/// line has it: where anything is in front of it or behind, where a number begins with 0 or has
/// more than 64 bits, where a digit of a digest is upper-case, or where a byte in quotes stands
/// otherwise than it is written.
///
/// It fails for want of memory alone, and only where the text is a line's.
pub fn read_sealed(alloc: Global, text: &[u8]) -> Result<Option<SealedLine>, AllocError>
    ensures { Reads text.now result }
{
    let Some(places) = cut_sealed(text) else {
        return Ok(None);
    };
    match line_at(alloc, &places.line) {
        Ok(line) => Ok(Some(SealedLine {
            number: places.number,
            line,
            moment: places.moment,
        })),
        Err(lack) => Err(lack),
    }
}
