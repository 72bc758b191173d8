//! Names one behind the other.
ghost use Rattle.std.specs.Prelude.{◌≡◌, ◌≤◌, ◌∷◌, ◌++◌, List, IfOk, flat_map, length};
ghost use Rattle.dr_base.specs.Texts.{Text as TextValue};
ghost use Rattle.dr_ledger_text.specs.Lines.{further_name, names_text};
ghost use Rattle.dr_ledger_read.specs.Cutting.{Cuts};
ghost use Rattle.dr_ledger_read.specs.Pieces.{IsFurther, IsNames};
ghost use Rattle.dr_ledger_read.specs.Places.{HoldsNames};

use crate::pieces::after;
use crate::quoted::{cut_quoted, text_at};
use dr_base::{Seq, Text};
use std::alloc::{AllocError, Global};

/// Names that stand behind another, up to the bracket behind them.
fn cut_further(text: &[u8]) -> Option<(&[u8], &[u8])>
    ensures { Cuts (λ place names. place.now ≡ text.now) (IsFurther text.now) result }
{
    let mut rest = text;
    while let Some(behind) = after(rest, b",") {
        let (_, later) = cut_quoted(behind)?;
        rest = later;
    }
    let behind = after(rest, b"]")?;
    Some((text, behind))
}

/// Names up to the bracket behind them: the place at which they stand, and what follows it.
pub fn cut_names(text: &[u8]) -> Option<(&[u8], &[u8])>
    ensures { Cuts (λ place. HoldsNames place.now) (IsNames text.now) result }
{
    if let Some(rest) = after(text, b"]") {
        return Some((text, rest));
    }
    let (_, more) = cut_quoted(text)?;
    let (_, rest) = cut_further(more)?;
    Some((text, rest))
}

/// What follows a comma, or the text itself where there is none.
fn behind_comma(text: &[u8]) -> &[u8]
    ensures names { (names : List TextValue) (rest : TextValue)
        → text.now ≡ flat_map further_name names ++ 93 ∷ rest
        → result.now ≡ names_text names ++ 93 ∷ rest }
    ensures shorter { length result.now ≤ length text.now }
{
    match after(text, b",") {
        Some(behind) => behind,
        None => text,
    }
}

/// The names that stand at such a place.
pub fn names_at(alloc: Global, place: &[u8]) -> Result<Seq<Text>, AllocError>
    ensures { IfOk result (λ made. (names : List TextValue) → HoldsNames place.now names
        → made ≡ names) }
{
    let mut names = Seq::new(alloc);
    let mut rest = place;
    while let Some((name, later)) = cut_quoted(rest) {
        let text = text_at(alloc, name)?;
        names.push(text)?;
        rest = behind_comma(later);
    }
    Ok(names)
}
