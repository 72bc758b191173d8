//! How far a row is, cut off the front of a text.
ghost use Rattle.std.specs.Prelude.{MatchOption};
ghost use Rattle.dr_ledger_balance.specs.Fields.{FitsProgress, progress_then};
ghost use Rattle.dr_ledger_balance.specs.Pieces.{HasNone, IsPiece};

use crate::fields::{after, cut_number, cut_small, cut_status};
use dr_ledger::{Cause, Progress};

/// How far a row is, at the front of a text.
pub fn cut_progress(text: &[u8]) -> Option<(Progress, &[u8])>
    ensures { MatchOption result (HasNone FitsProgress progress_then text.now)
        (λ f. IsPiece FitsProgress progress_then text.now f.0 f.1.now) }
{
    if let Some(rest) = after(text, b" done") {
        return Some((Progress::Done, rest));
    }
    if let Some(rest) = after(text, b" dropped") {
        return Some((Progress::Dropped, rest));
    }
    if let Some(rest) = after(text, b" no-context") {
        return Some((Progress::Held(Cause::NoContext), rest));
    }
    if let Some(rest) = after(text, b" unreadable") {
        return Some((Progress::Held(Cause::Unreadable), rest));
    }
    if let Some(behind) = after(text, b" status") {
        let (status, rest) = cut_status(behind)?;
        return Some((Progress::Held(Cause::Status(status)), rest));
    }
    let behind = after(text, b" waiting")?;
    let (tries, later) = cut_small(behind)?;
    let (due, rest) = cut_number(later)?;
    Some((Progress::Waiting { tries, due }, rest))
}
