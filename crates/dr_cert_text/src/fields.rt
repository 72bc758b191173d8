//! Rows and fields of a text.
ghost use Rattle.std.specs.Prelude.{◌≡◌, ◌++◌, ◌∷◌, [], ℕ, List, IfOk, MatchOption};
ghost use Rattle.hex.specs.Hex.{encode_lower};
ghost use Rattle.dr_plan_sound.specs.Printed.{printed_field};
ghost use Rattle.dr_cert_text.specs.Printable.{IsPlain, IsPlainField, IsDigest};
ghost use Rattle.dr_cert_text.specs.Cuts.{cuts, Lacks, SplitsAt, CutsField};
ghost use Rattle.dr_cert_text.specs.Reading.{HasNone, IsReadBack};

use dr_base::Text;
use dr_route::OwnedField;
use hex::FromHex;
use memchr::memchr;
use std::alloc::{AllocError, Global};

const TAB: u8 = 9;

/// What follows these bytes, where the text begins with them.
pub fn after<'a>(text: &'a [u8], start: &[u8]) -> Option<&'a [u8]>
    ensures { MatchOption result ((rest : List ℕ) → text.now ≡ start.now ++ rest → ⊥)
        (λ rest. text.now ≡ start.now ++ rest.now) }
{
    text.strip_prefix(start)
}

/// The part before the first mark, and what follows the mark; None where there is no mark.
pub fn split_at_byte(text: &[u8], mark: u8) -> Option<(&[u8], &[u8])>
    ensures { MatchOption result (Lacks mark text.now) (λ p.
        SplitsAt mark text.now p.0.now p.1.now) }
{
    let at = memchr(mark, text)?;
    Some((&text[..at], &text[at + 1..]))
}

/// The first field of a row and what follows its tab; None where the row is one field.
pub fn field_before_tab(row: &[u8]) -> Option<(&[u8], &[u8])>
    requires { Lacks 10 row.now }
    ensures { MatchOption result (cuts 9 row.now ≡ row.now ∷ []) (λ p.
        CutsField row.now p.0.now p.1.now) }
{
    split_at_byte(row, TAB)
}

/// What stands before these bytes, where the text ends with them.
fn before<'a>(text: &'a [u8], end: &[u8]) -> Option<&'a [u8]>
    ensures { MatchOption result ((front : List ℕ) → text.now ≡ front ++ end.now → ⊥)
        (λ front. text.now ≡ front.now ++ end.now) }
{
    text.strip_suffix(end)
}

/// The part of the modalities, or of the stations, that is printed so: `*` is the rest, and another
/// text with `*` at its end a prefix.
pub fn read_field(alloc: Global, field: &[u8]) -> Result<OwnedField, AllocError>
    requires { IsPlain field.now }
    ensures { IfOk result (λ part. (printed_field part ≡ field.now) × IsPlainField part) }
{
    match before(field, b"*") {
        None => Ok(OwnedField::Literal(Text::copy_of(alloc, field)?)),
        Some(prefix) => {
            if prefix.is_empty() {
                return Ok(OwnedField::Rest);
            }
            Ok(OwnedField::Prefix(Text::copy_of(alloc, prefix)?))
        }
    }
}

/// The digest that is written so in lower-case hex.
pub fn read_digest(field: &[u8]) -> Option<[u8; 32]>
    ensures { MatchOption result (HasNone encode_lower IsDigest field.now)
        (IsReadBack encode_lower IsDigest field.now) }
{
    let Ok(digest) = <[u8; 32] as FromHex>::from_hex(field) else {
        return None;
    };
    let mut again = [0u8; 64];
    let Ok(()) = hex::encode_to_slice(digest.as_slice(), &mut again) else {
        return None;
    };
    if again.as_slice() != field {
        return None;
    }
    Some(digest)
}
