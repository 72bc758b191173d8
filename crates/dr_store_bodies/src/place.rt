//! The first gap that holds so many bytes.
ghost use Rattle.std.specs.Prelude.{◌≡◌, ◌%◌, ◌^◌, ◌<◌, ◌≤◌, ℕ, AllPairs, IfNone, IfSome};
ghost use Rattle.dr_store_bodies.specs.declared.extent.Extent.{Extent};
ghost use Rattle.dr_store_bodies.specs.Extents.{end_of, LiesBefore};
ghost use Rattle.dr_store_bodies.specs.Place.{IsFirstPlace, IsFull, IsPlace};

use crate::extent::Extent;

/// What a medium writes at once.
const SECTOR: usize = 4096;

/// The least place from `n` on at which a sector begins.
fn aligned(n: usize) -> Option<usize>
    ensures behind { IfSome result (λ m. n ≤ m) }
    ensures whole { IfSome result (λ m. m % SECTOR ≡ 0) }
    ensures least { IfSome result (λ m. (k : ℕ) → k % SECTOR ≡ 0 → n ≤ k → m ≤ k) }
    ensures none { IfNone result ((k : ℕ) → k % SECTOR ≡ 0 → n ≤ k → k < 2 ^ 64 → ⊥) }
{
    let over = n % SECTOR;
    if over == 0 {
        Some(n)
    } else {
        n.checked_add(SECTOR - over)
    }
}

/// The least place behind an extent at which a sector begins.
fn sector_behind(extent: &Extent) -> Option<usize>
    ensures behind { IfSome result (λ m. end_of extent.now ≤ m) }
    ensures whole { IfSome result (λ m. m % SECTOR ≡ 0) }
    ensures least { IfSome result (λ m. (k : ℕ) → k % SECTOR ≡ 0 → end_of extent.now ≤ k → m ≤ k) }
    ensures none { IfNone result
        ((k : ℕ) → k % SECTOR ≡ 0 → end_of extent.now ≤ k → k < 2 ^ 64 → ⊥) }
{
    match extent.at.checked_add(extent.size) {
        Some(end) => aligned(end),
        None => None,
    }
}

/// How many extents lie before the first gap that holds `size` bytes, and where it begins.
pub fn place(extents: &[Extent], size: usize) -> Option<(usize, usize)>
    requires { AllPairs LiesBefore extents.now }
    ensures place { IfSome result (λ p. IsPlace extents.now size p.0 p.1) }
    ensures first { IfSome result (λ p. IsFirstPlace extents.now size p.1) }
    ensures full { IfNone result (IsFull extents.now size) }
{
    let mut at = 0usize;
    for (i, extent) in extents.iter().enumerate() {
        let Some(end) = at.checked_add(size) else {
            return None;
        };
        if end <= extent.at {
            return Some((i, at));
        }
        let Some(next) = sector_behind(extent) else {
            return None;
        };
        at = next;
    }
    if at.checked_add(size).is_none() {
        return None;
    }
    Some((extents.len(), at))
}
