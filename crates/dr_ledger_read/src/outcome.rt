//! What came of a try.
ghost use Rattle.std.specs.Prelude.{◌≡◌, ◌<◌, ◌∷◌, slice_index};
ghost use Rattle.hex.specs.Hex.{upper_digits};
ghost use Rattle.dr_ledger_read.specs.Cutting.{Cuts, Same};
ghost use Rattle.dr_ledger_read.specs.Places.{IsOutcome, IsStatus};

use crate::pieces::after;
use dr_ledger::Outcome;

/// The number below sixteen of a digit, 0 to 9 or A to F, and what follows the digit.
fn cut_nibble(text: &[u8]) -> Option<(u16, &[u8])>
    ensures { Cuts Same (λ n rest.
        (n < 16) × (text.now ≡ slice_index upper_digits n ∷ rest)) result }
{
    let (digit, rest) = text.split_first()?;
    if *digit < b'0' {
        return None;
    }
    if *digit <= b'9' {
        return Some((u16::from(*digit - b'0'), rest));
    }
    if *digit < b'A' {
        return None;
    }
    if *digit <= b'F' {
        return Some((u16::from(*digit - 55), rest));
    }
    None
}

/// The status of a response at the front of a text.
fn cut_status(text: &[u8]) -> Option<(u16, &[u8])>
    ensures { Cuts Same (IsStatus text.now) result }
{
    let digits = after(text, b",\"outcome\":\"")?;
    let (a, more) = cut_nibble(digits)?;
    let (b, again) = cut_nibble(more)?;
    let (c, later) = cut_nibble(again)?;
    let (d, last) = cut_nibble(later)?;
    let rest = after(last, b"\"")?;
    Some((a * 4096 + b * 256 + c * 16 + d, rest))
}

/// What came of a try, at the front of a text.
pub fn cut_outcome(text: &[u8]) -> Option<(Outcome, &[u8])>
    ensures { Cuts Same (IsOutcome text.now) result }
{
    if let Some(rest) = after(text, b",\"outcome\":\"broken\"") {
        return Some((Outcome::Broken, rest));
    }
    if let Some(rest) = after(text, b",\"outcome\":\"no-context\"") {
        return Some((Outcome::NoContext, rest));
    }
    if let Some(rest) = after(text, b",\"outcome\":\"unreadable\"") {
        return Some((Outcome::Unreadable, rest));
    }
    let (status, rest) = cut_status(text)?;
    Some((Outcome::Status(status), rest))
}
