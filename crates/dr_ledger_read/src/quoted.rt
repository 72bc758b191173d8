//! Texts in quotes.
ghost use Rattle.std.specs.Prelude.{◌≡◌, ◌<◌, ◌∷◌, ◌↔◌, ℕ, IfOk, IsTrue, MatchOption};
ghost use Rattle.std.specs.Prelude.{false, slice_index};
ghost use Rattle.dr_base.specs.Texts.{Text as TextValue};
ghost use Rattle.dr_base_quoted.specs.Quoting.{hex_digit, hex_escape, is_plain, quoted_byte};
ghost use Rattle.dr_ledger_read.specs.Cutting.{Cuts, Same};
ghost use Rattle.dr_ledger_read.specs.Pieces.{Holds, IsEscaped, IsQuoted, IsQuotedByte, IsWord};

use crate::pieces::after;
use dr_base::Text;
use dr_base_quoted::is_plain;
use std::alloc::{AllocError, Global};

const QUOTE: u8 = 34;

const BACKSLASH: u8 = 92;

/// The number below sixteen of a digit, 0 to 9 or a to f.
fn digit_of(digit: u8) -> Option<u8>
    ensures { MatchOption result ((n : ℕ) → n < 16 → hex_digit n ≡ digit → ⊥)
        (λ n. (n < 16) × (hex_digit n ≡ digit)) }
{
    if digit < b'0' {
        return None;
    }
    if digit <= b'9' {
        return Some(digit - b'0');
    }
    if digit < b'a' {
        return None;
    }
    if digit <= b'f' {
        return Some(digit - 87);
    }
    None
}

/// Whether a byte has its digits between quotes.
fn has_digits(byte: u8) -> bool
    ensures { IsTrue result ↔ (quoted_byte byte ≡ hex_escape byte) }
{
    if is_plain(byte) {
        return false;
    }
    if byte == b'\n' {
        return false;
    }
    if byte == QUOTE {
        return false;
    }
    byte != BACKSLASH
}

/// The byte that has its digits at the front of the text, behind what all such begin with.
fn cut_escaped<'a>(text: &'a [u8], digits: &'a [u8]) -> Option<(u8, &'a [u8])>
    requires { text.now ≡ 92 ∷ 117 ∷ 48 ∷ 48 ∷ digits.now }
    ensures { Cuts Same (IsEscaped text.now) result }
{
    let (high, behind) = digits.split_first()?;
    let (low, rest) = behind.split_first()?;
    let front = digit_of(*high)?;
    let back = digit_of(*low)?;
    let byte = front * 16 + back;
    if !has_digits(byte) {
        return None;
    }
    Some((byte, rest))
}

/// The byte at the front of the text, which isn't plain, as it stands between quotes.
fn cut_behind(text: &[u8]) -> Option<(u8, &[u8])>
    requires { is_plain (slice_index text.now 0) ≡ false }
    ensures { Cuts Same (IsQuotedByte text.now) result }
{
    if let Some(rest) = after(text, b"\\n") {
        return Some((b'\n', rest));
    }
    if let Some(rest) = after(text, b"\\\"") {
        return Some((QUOTE, rest));
    }
    if let Some(rest) = after(text, b"\\\\") {
        return Some((BACKSLASH, rest));
    }
    let digits = after(text, b"\\u00")?;
    cut_escaped(text, digits)
}

/// The byte that stands at the front of the text as it does between quotes.
fn cut_byte(text: &[u8]) -> Option<(u8, &[u8])>
    ensures { Cuts Same (IsQuotedByte text.now) result }
{
    let (first, rest) = text.split_first()?;
    if is_plain(*first) {
        return Some((*first, rest));
    }
    cut_behind(text)
}

/// The text in quotes at the front: the place behind its first quote, and what follows its last.
pub fn cut_quoted(text: &[u8]) -> Option<(&[u8], &[u8])>
    ensures { Cuts (λ place. Holds place.now) (IsQuoted text.now) result }
{
    let place = after(text, b"\"")?;
    let mut rest = place;
    while let Some((_, later)) = cut_byte(rest) {
        rest = later;
    }
    let behind = after(rest, b"\"")?;
    Some((place, behind))
}

/// The same behind given bytes.
pub fn cut_word<'a>(text: &'a [u8], start: &[u8]) -> Option<(&'a [u8], &'a [u8])>
    ensures { Cuts (λ place. Holds place.now) (IsWord start.now text.now) result }
{
    let behind = after(text, start)?;
    cut_quoted(behind)
}

/// The text that stands at such a place.
pub fn text_at(alloc: Global, place: &[u8]) -> Result<Text, AllocError>
    ensures { IfOk result (λ text. (value : TextValue) → Holds place.now value → text ≡ value) }
{
    let mut bytes = Vec::new(alloc);
    let mut rest = place;
    while let Some((byte, later)) = cut_byte(rest) {
        bytes.push(byte)?;
        rest = later;
    }
    Ok(Text::from_vec(bytes))
}
