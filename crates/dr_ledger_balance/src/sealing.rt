//! The line of a SHA-256 at the end of a text.
ghost use Rattle.std.specs.Prelude.{◌≡◌, ◌++◌, ℕ, List, IfOk, MatchOption, string_bytes};
ghost use Rattle.hex.specs.Hex.{encode_lower};
ghost use Rattle.sha2.specs.Sha256.{sha256};
ghost use Rattle.dr_ledger_balance.specs.Sealing.{AnswersBody, EndsWithDigits, IsCut, sealed};

use crate::fault::BalanceFault;
use crate::fields::after;
use sha2::{Digest, Sha256};
use std::alloc::{AllocError, Global};

/// How many bytes such a line has.
const SEAL: usize = 72;

/// The lower-case digits of the SHA-256 of a text.
fn digits_of(alloc: Global, text: &[u8]) -> Result<String, AllocError>
    ensures { IfOk result (λ digits. string_bytes digits ≡ encode_lower (sha256 text.now)) }
{
    let digest = Sha256::digest(text);
    let digits = hex::encode(alloc, digest.as_slice())?;
    Ok(digits)
}

/// The text with the line of its SHA-256 behind it.
pub fn put_seal(body: Vec<u8>) -> Result<Vec<u8>, AllocError>
    ensures { IfOk result (λ bytes. bytes.items ≡ sealed body.items) }
{
    let digits = digits_of(*body.allocator(), body.as_slice())?;
    let mut bytes = body;
    bytes.extend_from_slice(b"sha256 ")?;
    bytes.extend_from_slice(digits.as_bytes())?;
    bytes.push(b'\n')?;
    Ok(bytes)
}

/// What stands before these bytes, where the text ends with them.
fn before<'a>(text: &'a [u8], end: &[u8]) -> Option<&'a [u8]>
    ensures { MatchOption result ((front : List ℕ) → text.now ≡ front ++ end.now → ⊥)
        (λ front. text.now ≡ front.now ++ end.now) }
{
    text.strip_suffix(end)
}

/// What is before the last line, and the digits in that line.
fn split_seal(bytes: &[u8]) -> Option<(&[u8], &[u8])>
    ensures { MatchOption result (IsCut bytes.now)
        (λ parts. EndsWithDigits bytes.now parts.0.now parts.1.now) }
{
    if bytes.len() < SEAL {
        return None;
    }
    let (body, line) = bytes.split_at(bytes.len() - SEAL);
    let behind = after(line, b"sha256 ")?;
    let digits = before(behind, b"\n")?;
    Some((body, digits))
}

/// What is before the line of the SHA-256, where that line is right.
pub fn sealed_body(alloc: Global, bytes: &[u8]) -> Result<&[u8], BalanceFault>
    ensures { AnswersBody bytes.now result }
{
    let Some((body, digits)) = split_seal(bytes) else {
        return Err(BalanceFault::Cut);
    };
    let right = digits_of(alloc, body)?;
    if digits != right.as_bytes() {
        return Err(BalanceFault::Changed);
    }
    Ok(body)
}
