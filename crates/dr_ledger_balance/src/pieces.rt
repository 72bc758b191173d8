//! Lines of other kinds, cut off the front of a text.
ghost use Rattle.std.specs.Prelude.{MatchOption};
ghost use Rattle.dr_ledger_balance.specs.Fields.{FitsField, FitsNumber};
ghost use Rattle.dr_ledger_balance.specs.Pieces.{HasNone, IsPiece};
ghost use Rattle.dr_ledger_balance.specs.Spelling.{FitsArrival, FitsRow, arrival_then, end_then};
ghost use Rattle.dr_ledger_balance.specs.Spelling.{kept_then, row_then};

use crate::fields::{after, cut_field, cut_number};
use crate::progress::cut_progress;
use dr_ledger::Progress;

/// The line of an arrival at the front of a text: the caller, and the uid.
pub fn cut_arrival(text: &[u8]) -> Option<((&[u8], &[u8]), &[u8])>
    ensures { MatchOption result (HasNone FitsArrival arrival_then text.now)
        (λ f. IsPiece FitsArrival arrival_then text.now (f.0.0.now, f.0.1.now) f.1.now) }
{
    let fields = after(text, b"arrival")?;
    let (caller, after_caller) = cut_field(fields)?;
    let (uid, later) = cut_field(after_caller)?;
    let rest = after(later, b"\n")?;
    Some(((caller, uid), rest))
}

/// The line of a kept uid at the front of a text.
pub fn cut_kept(text: &[u8]) -> Option<(&[u8], &[u8])>
    ensures { MatchOption result (HasNone FitsField kept_then text.now)
        (λ f. IsPiece FitsField kept_then text.now f.0.now f.1.now) }
{
    let fields = after(text, b"kept")?;
    let (uid, later) = cut_field(fields)?;
    let rest = after(later, b"\n")?;
    Some((uid, rest))
}

/// The line of a row at the front of a text: the uid and the destination, and how far it is.
pub fn cut_row(text: &[u8]) -> Option<(((&[u8], &[u8]), Progress), &[u8])>
    ensures { MatchOption result (HasNone FitsRow row_then text.now)
        (λ f. IsPiece FitsRow row_then text.now ((f.0.0.0.now, f.0.0.1.now), f.0.1) f.1.now) }
{
    let fields = after(text, b"row")?;
    let (uid, after_uid) = cut_field(fields)?;
    let (dest, after_dest) = cut_field(after_uid)?;
    let (progress, later) = cut_progress(after_dest)?;
    let rest = after(later, b"\n")?;
    Some((((uid, dest), progress), rest))
}

/// The last line at the front of a text: how many lines of a journal there were.
pub fn cut_end(text: &[u8]) -> Option<(u64, &[u8])>
    ensures { MatchOption result (HasNone FitsNumber end_then text.now)
        (λ f. IsPiece FitsNumber end_then text.now f.0 f.1.now) }
{
    let behind = after(text, b"lines")?;
    let (count, later) = cut_number(behind)?;
    let rest = after(later, b"\n")?;
    Some((count, rest))
}
