//! Fields of a line, cut off the front of a text.
ghost use Rattle.std.specs.Prelude.{◌≡◌, ◌<◌, ◌^◌, ◌++◌, ℕ, List, MatchOption};
ghost use Rattle.hex.specs.Hex.{encode_lower};
ghost use Rattle.dr_cert_text.specs.Printable.{IsDigest};
ghost use Rattle.dr_ledger_balance.specs.Fields.{FitsField, FitsNumber, digest_then, field_then};
ghost use Rattle.dr_ledger_balance.specs.Fields.{number_then, syntax_then};
ghost use Rattle.dr_ledger_balance.specs.Pieces.{HasNone, IsPiece};

use dr_base::Syntax;
use dr_base::fields::read_number;
use dr_cert_text::split_at_byte;
use hex::FromHex;

/// What follows these bytes, where the text begins with them.
pub fn after<'a>(text: &'a [u8], start: &[u8]) -> Option<&'a [u8]>
    ensures { MatchOption result ((rest : List ℕ) → text.now ≡ start.now ++ rest → ⊥)
        (λ rest. text.now ≡ start.now ++ rest.now) }
{
    text.strip_prefix(start)
}

/// The number at the front of a text.
pub fn cut_number(text: &[u8]) -> Option<(u64, &[u8])>
    ensures { MatchOption result (HasNone FitsNumber number_then text.now)
        (λ f. IsPiece FitsNumber number_then text.now f.0 f.1.now) }
{
    let behind = after(text, b" ")?;
    let (digits, rest) = split_at_byte(behind, b':')?;
    let number = read_number(digits)?;
    Some((number, rest))
}

/// The same of 32 bits.
pub fn cut_small(text: &[u8]) -> Option<(u32, &[u8])>
    ensures { MatchOption result (HasNone (λ n. n < 2 ^ 32) number_then text.now)
        (λ f. IsPiece (λ n. n < 2 ^ 32) number_then text.now f.0 f.1.now) }
{
    let (number, rest) = cut_number(text)?;
    let Ok(small) = u32::try_from(number) else {
        return None;
    };
    Some((small, rest))
}

/// The same of 16 bits.
pub fn cut_status(text: &[u8]) -> Option<(u16, &[u8])>
    ensures { MatchOption result (HasNone (λ n. n < 2 ^ 16) number_then text.now)
        (λ f. IsPiece (λ n. n < 2 ^ 16) number_then text.now f.0 f.1.now) }
{
    let (number, rest) = cut_number(text)?;
    let Ok(status) = u16::try_from(number) else {
        return None;
    };
    Some((status, rest))
}

/// The text that stands as a field at the front of a text.
pub fn cut_field(text: &[u8]) -> Option<(&[u8], &[u8])>
    ensures { MatchOption result (HasNone FitsField field_then text.now)
        (λ f. IsPiece FitsField field_then text.now f.0.now f.1.now) }
{
    let (length, behind) = cut_number(text)?;
    if (behind.len() as u64) < length {
        return None;
    }
    let (field, rest) = behind.split_at(length as usize);
    Some((field, rest))
}

/// The transfer syntax at the front of a text.
pub fn cut_syntax(text: &[u8]) -> Option<(Syntax, &[u8])>
    ensures { MatchOption result (HasNone (λ syntax. Unit {0}) syntax_then text.now)
        (λ f. IsPiece (λ syntax. Unit {0}) syntax_then text.now f.0 f.1.now) }
{
    let (uid, rest) = cut_field(text)?;
    let syntax = Syntax::of_uid(uid)?;
    Some((syntax, rest))
}

/// The digest of which these are the lower-case digits.
fn digest_of(digits: &[u8]) -> Option<[u8; 32]>
    ensures { MatchOption result
        ((digest : List ℕ) → IsDigest digest → encode_lower digest ≡ digits.now → ⊥)
        (λ digest. IsDigest digest × (encode_lower digest ≡ digits.now)) }
{
    let Ok(digest) = <[u8; 32] as FromHex>::from_hex(digits) else {
        return None;
    };
    let mut again = [0u8; 64];
    let Ok(()) = hex::encode_to_slice(digest.as_slice(), &mut again) else {
        return None;
    };
    if again.as_slice() != digits {
        return None;
    }
    Some(digest)
}

/// The digest at the front of a text.
pub fn cut_digest(text: &[u8]) -> Option<([u8; 32], &[u8])>
    ensures { MatchOption result (HasNone IsDigest digest_then text.now)
        (λ f. IsPiece IsDigest digest_then text.now f.0 f.1.now) }
{
    let (digits, rest) = cut_field(text)?;
    let digest = digest_of(digits)?;
    Some((digest, rest))
}
