//! What a line says, cut off the front of a text.
ghost use Rattle.dr_ledger_read.specs.Cutting.{Cuts};
ghost use Rattle.dr_ledger_read.specs.Pieces.{Holds};
ghost use Rattle.dr_ledger_read.specs.Places.{IsRow, IsSaid, ShowsLine};
ghost use Rattle.dr_ledger_read.specs.declared.kind.CallKind.TheVariants as kind;

use crate::item::cut_item;
use crate::members::cut_keep;
use crate::names::cut_names;
use crate::numbers::cut_count;
use crate::outcome::cut_outcome;
use crate::pieces::after;
use crate::places::LinePlaces;
use crate::quoted::cut_word;

/// A first arrival.
pub fn cut_arrival(text: &[u8]) -> Option<(LinePlaces<'_>, &[u8])>
    ensures { Cuts ShowsLine (IsSaid kind.Arrival text.now) result }
{
    let (caller, after_caller) = cut_word(text, b",\"caller\":")?;
    let (item, after_item) = cut_item(after_caller)?;
    let names = after(after_item, b",\"to\":[")?;
    let (to, after_to) = cut_names(names)?;
    let (keep, rest) = cut_keep(after_to)?;
    let line = LinePlaces::Arrival {
        caller,
        item,
        to,
        keep,
    };
    Some((line, rest))
}

pub fn cut_repeat(text: &[u8]) -> Option<(LinePlaces<'_>, &[u8])>
    ensures { Cuts ShowsLine (IsSaid kind.Repeat text.now) result }
{
    let (caller, after_caller) = cut_word(text, b",\"caller\":")?;
    let (item, rest) = cut_item(after_caller)?;
    Some((LinePlaces::Repeat { caller, item }, rest))
}

/// Of which row a line is.
fn cut_row(text: &[u8]) -> Option<((&[u8], &[u8]), &[u8])>
    ensures { Cuts (λ places row. Holds places.0.now row.0 × Holds places.1.now row.1)
        (IsRow text.now) result }
{
    let (uid, after_uid) = cut_word(text, b",\"uid\":")?;
    let (dest, rest) = cut_word(after_uid, b",\"dest\":")?;
    Some(((uid, dest), rest))
}

pub fn cut_settling(text: &[u8]) -> Option<(LinePlaces<'_>, &[u8])>
    ensures { Cuts ShowsLine (IsSaid kind.Settling text.now) result }
{
    let ((uid, dest), after_row) = cut_row(text)?;
    let (outcome, after_outcome) = cut_outcome(after_row)?;
    let (now, rest) = cut_count(after_outcome, b",\"moment\":")?;
    let line = LinePlaces::Settling {
        uid,
        dest,
        outcome,
        now,
    };
    Some((line, rest))
}

pub fn cut_requeuing(text: &[u8]) -> Option<(LinePlaces<'_>, &[u8])>
    ensures { Cuts ShowsLine (IsSaid kind.Requeuing text.now) result }
{
    let ((uid, dest), rest) = cut_row(text)?;
    Some((LinePlaces::Requeuing { uid, dest }, rest))
}

pub fn cut_dropping(text: &[u8]) -> Option<(LinePlaces<'_>, &[u8])>
    ensures { Cuts ShowsLine (IsSaid kind.Dropping text.now) result }
{
    let ((uid, dest), after_row) = cut_row(text)?;
    let (now, rest) = cut_count(after_row, b",\"moment\":")?;
    Some((LinePlaces::Dropping { uid, dest, now }, rest))
}

pub fn cut_forgetting(text: &[u8]) -> Option<(LinePlaces<'_>, &[u8])>
    ensures { Cuts ShowsLine (IsSaid kind.Forgetting text.now) result }
{
    let (uid, rest) = cut_word(text, b",\"uid\":")?;
    Some((LinePlaces::Forgetting { uid }, rest))
}
