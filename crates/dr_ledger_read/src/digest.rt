//! The SHA-256 of a data set.
ghost use Rattle.std.specs.Prelude.{◌≡◌, ◌<◌, ◌++◌, ℕ, List, length, MatchOption};
ghost use Rattle.hex.specs.Hex.{encode_lower};
ghost use Rattle.dr_ledger_read.specs.Cutting.{Cuts, Same};
ghost use Rattle.dr_ledger_read.specs.Held.{IsHeldDigest};
ghost use Rattle.dr_ledger_read.specs.Places.{IsDigest};

use crate::pieces::after;
use hex::FromHex;

/// How many digits a digest has.
const DIGITS: usize = 64;

/// The digest of which these are the digits.
fn digest_of(digits: &[u8]) -> Option<[u8; 32]>
    ensures { MatchOption result
        ((digest : List ℕ) → IsHeldDigest digest → encode_lower digest ≡ digits.now → ⊥)
        (λ digest. IsHeldDigest digest × (encode_lower digest ≡ digits.now)) }
{
    let Ok(digest) = <[u8; 32] as FromHex>::from_hex(digits) else {
        return None;
    };
    let mut again = [0u8; 64];
    let Ok(()) = hex::encode_to_slice(digest.as_slice(), &mut again) else {
        return None;
    };
    if again.as_slice() != digits {
        return None;
    }
    Some(digest)
}

/// As many bytes as a digest has digits, and what follows them.
fn split_digits(text: &[u8]) -> Option<(&[u8], &[u8])>
    ensures { MatchOption result (length text.now < 64) (λ parts.
        (text.now ≡ parts.0.now ++ parts.1.now) × (length parts.0.now ≡ 64)) }
{
    if text.len() < DIGITS {
        return None;
    }
    Some(text.split_at(DIGITS))
}

/// The SHA-256 at the front of a text.
pub fn cut_digest(text: &[u8]) -> Option<([u8; 32], &[u8])>
    ensures { Cuts Same (IsDigest text.now) result }
{
    let behind = after(text, b",\"sha256\":\"")?;
    let (digits, later) = split_digits(behind)?;
    let rest = after(later, b"\"")?;
    let digest = digest_of(digits)?;
    Some((digest, rest))
}
