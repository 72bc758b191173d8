//! All that a sealed line's text says, cut out of it.
ghost use Rattle.std.specs.Prelude.{◌≡◌, ◌↔◌, ℕ, Option as OptionValue, IsTrue, MatchOption, codes};
ghost use Rattle.dr_ledger_text.specs.Laws.{FitsMoment};
ghost use Rattle.dr_ledger_read.specs.Behind.{ended};
ghost use Rattle.dr_ledger_read.specs.Cutting.{Cuts};
ghost use Rattle.dr_ledger_read.specs.Places.{IsLineFirst, ShowsLine};
ghost use Rattle.dr_ledger_read.specs.Reading.{IsFound, IsOfNoLine};

use crate::kind::{CallKind, cut_kind};
use crate::line::{
    cut_arrival, cut_dropping, cut_forgetting, cut_repeat, cut_requeuing, cut_settling,
};
use crate::numbers::cut_count;
use crate::places::{LinePlaces, SealedPlaces};

/// A line at the front of a text.
fn cut_line(text: &[u8]) -> Option<(LinePlaces<'_>, &[u8])>
    ensures { Cuts ShowsLine (IsLineFirst text.now) result }
{
    let (kind, behind) = cut_kind(text)?;
    match kind {
        CallKind::Arrival => cut_arrival(behind),
        CallKind::Repeat => cut_repeat(behind),
        CallKind::Settling => cut_settling(behind),
        CallKind::Requeuing => cut_requeuing(behind),
        CallKind::Dropping => cut_dropping(behind),
        CallKind::Forgetting => cut_forgetting(behind),
        CallKind::Adoption => Some((LinePlaces::Adoption, behind)),
    }
}

/// Whether a text is the brace with which a line ends.
fn is_brace(text: &[u8]) -> bool
    ensures { IsTrue result ↔ (text.now ≡ codes "}") }
{
    match text {
        b"}" => true,
        _ => false,
    }
}

/// The moment with which a text ends.
fn read_end(text: &[u8]) -> Option<Option<u64>>
    ensures { MatchOption result
        ((moment : OptionValue ℕ) → FitsMoment moment → text.now ≡ ended moment → ⊥)
        (λ moment. FitsMoment moment × (text.now ≡ ended moment)) }
{
    if is_brace(text) {
        return Some(None);
    }
    let (moment, rest) = cut_count(text, b",\"at\":")?;
    if !is_brace(rest) {
        return None;
    }
    Some(Some(moment))
}

/// The places at which all stands that a sealed line's text says; None where no line has the text.
pub fn cut_sealed(text: &[u8]) -> Option<SealedPlaces<'_>>
    ensures { MatchOption result (IsOfNoLine text.now) (IsFound text.now) }
{
    let (number, behind) = cut_count(text, b"{\"line\":")?;
    let (line, later) = cut_line(behind)?;
    let moment = read_end(later)?;
    Some(SealedPlaces {
        number,
        line,
        moment,
    })
}
