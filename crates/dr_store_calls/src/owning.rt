//! What site has for a plan: its SHA-256, right behind it the mark of a file of data sets, or
//! nothing, and behind that how far lines go that have left the tables, or nothing.
ghost use Rattle.std.specs.Prelude.{◌≡◌, ◌↔◌, IfOk, IsTrue, List, MatchOption, ℕ};
ghost use Rattle.dr_store_calls.specs.Owners.{IsMark, IsMarkAndSeal, IsPlanWith};
ghost use Rattle.dr_store_sealed.specs.InTables.{IsSealText};

use std::alloc::{AllocError, Global};

/// The bytes of a plan's SHA-256.
const DIGEST_SIZE: usize = 32;

/// The bytes of a key and a mark.
const MARK_SIZE: usize = 24;

/// The bytes of a seal.
const SEAL_SIZE: usize = 56;

/// Whether it is a mark, or nothing.
pub fn is_mark(bytes: &[u8]) -> bool
    ensures { IsTrue result ↔ IsMark bytes.now }
{
    if bytes.is_empty() {
        return true;
    }
    bytes.len() == MARK_SIZE
}

/// Whether it is a seal, or nothing.
pub fn is_seal_text(bytes: &[u8]) -> bool
    ensures { IsTrue result ↔ IsSealText bytes.now }
{
    if bytes.is_empty() {
        return true;
    }
    bytes.len() == SEAL_SIZE
}

/// Whether these are the bytes of that SHA-256.
fn is_same(front: &[u8], digest: &[u8; 32]) -> bool
    ensures { IsTrue result ↔ (front.now ≡ digest.now) }
{
    front == digest.as_slice()
}

/// The mark and the seal that these bytes are, if they are that.
fn split_rest(rest: &[u8]) -> Option<(&[u8], &[u8])>
    ensures { MatchOption result
        ((mark seal : List ℕ) → IsMarkAndSeal mark seal rest.now → ⊥)
        (λ both. IsMarkAndSeal both.0.now both.1.now rest.now) }
{
    // A seal is longer than a mark: what is left over from it is the mark.
    let Some((mark, seal)) = rest.split_at_checked(rest.len() % SEAL_SIZE) else {
        return None;
    };
    if !is_mark(mark) {
        return None;
    }
    if !is_seal_text(seal) {
        return None;
    }
    Some((mark, seal))
}

/// The mark and the seal that stand in an owner's cell, if it is one's: what comes behind the
/// plan's SHA-256.
pub fn mark_behind(cell: &[u8]) -> Option<(&[u8], &[u8])>
    ensures { MatchOption result
        ((mark seal digest : List ℕ) → IsPlanWith mark seal digest cell.now → ⊥)
        (λ both. (digest : List ℕ) × IsPlanWith both.0.now both.1.now digest cell.now) }
{
    let Some((_, rest)) = cell.split_at_checked(DIGEST_SIZE) else {
        return None;
    };
    match split_rest(rest) {
        Some((mark, seal)) => Some((mark, seal)),
        None => None,
    }
}

/// The mark and the seal that stand in the cell of a plan of this SHA-256, if it is one's.
pub fn mark_for<'x>(cell: &'x [u8], digest: &[u8; 32]) -> Option<(&'x [u8], &'x [u8])>
    ensures { MatchOption result
        ((mark seal : List ℕ) → IsPlanWith mark seal digest.now cell.now → ⊥)
        (λ both. IsPlanWith both.0.now both.1.now digest.now cell.now) }
{
    let Some((front, rest)) = cell.split_at_checked(DIGEST_SIZE) else {
        return None;
    };
    if !is_same(front, digest) {
        return None;
    }
    match split_rest(rest) {
        Some((mark, seal)) => Some((mark, seal)),
        None => None,
    }
}

/// The cell for a plan of this SHA-256, with this mark and this seal, either of which may be
/// nothing.
pub fn plan_cell(
    alloc: Global,
    digest: &[u8; 32],
    mark: &[u8],
    seal: &[u8],
) -> Result<Vec<u8>, AllocError>
    ensures { IfOk result (λ cell. IsMark mark.now → IsSealText seal.now
        → IsPlanWith mark.now seal.now digest.now cell.items) }
{
    let mut cell = Vec::new(alloc);
    cell.extend_from_slice(digest.as_slice())?;
    cell.extend_from_slice(mark)?;
    cell.extend_from_slice(seal)?;
    Ok(cell)
}
