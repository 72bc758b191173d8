//! Which call a line is of.
ghost use Rattle.dr_ledger_read.specs.Cutting.{Cuts, Same};
ghost use Rattle.dr_ledger_read.specs.Places.{IsKind};

use crate::pieces::after;

/// Which call a line is of.
#[derive(Clone, Copy, PartialEq, Eq, Debug)]
pub enum CallKind {
    Arrival,
    Repeat,
    Settling,
    Requeuing,
    Dropping,
    Forgetting,
    Adoption,
}

/// The kind at the front of a text.
pub fn cut_kind(text: &[u8]) -> Option<(CallKind, &[u8])>
    ensures { Cuts Same (IsKind text.now) result }
{
    if let Some(rest) = after(text, b",\"kind\":\"arrival\"") {
        return Some((CallKind::Arrival, rest));
    }
    if let Some(rest) = after(text, b",\"kind\":\"repeat\"") {
        return Some((CallKind::Repeat, rest));
    }
    if let Some(rest) = after(text, b",\"kind\":\"settling\"") {
        return Some((CallKind::Settling, rest));
    }
    if let Some(rest) = after(text, b",\"kind\":\"requeuing\"") {
        return Some((CallKind::Requeuing, rest));
    }
    if let Some(rest) = after(text, b",\"kind\":\"dropping\"") {
        return Some((CallKind::Dropping, rest));
    }
    if let Some(rest) = after(text, b",\"kind\":\"forgetting\"") {
        return Some((CallKind::Forgetting, rest));
    }
    let rest = after(text, b",\"kind\":\"adoption\"")?;
    Some((CallKind::Adoption, rest))
}
