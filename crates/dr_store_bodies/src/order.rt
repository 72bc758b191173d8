//! Whether extents lie in order.
ghost use Rattle.std.specs.Prelude.{◌<◌, ◌≤◌, ◌^◌, ℕ, All, AllPairs, IfNone, IfSome};
ghost use Rattle.dr_store_bodies.specs.declared.extent.Extent.{Extent};
ghost use Rattle.dr_store_bodies.specs.Extents.{AreFit, end_of, LiesBefore};

use crate::extent::Extent;

/// Where extents end that are filled, in the order of their places, and do not overlap.
pub fn end_in_order(extents: &[Extent]) -> Option<usize>
    ensures filled { IfSome result (λ n. All (λ e. 0 < e.size) extents.now) }
    ensures apart { IfSome result (λ n. AllPairs LiesBefore extents.now) }
    ensures within { IfSome result (λ n. All (λ e. end_of e ≤ n) extents.now) }
    ensures least { IfSome result (λ n.
        (size : ℕ) → All (λ e. end_of e ≤ size) extents.now → n ≤ size) }
    ensures unfit { IfNone result ((size : ℕ) → size < 2 ^ 64 → AreFit extents.now size → ⊥) }
{
    let mut end = 0usize;
    for extent in extents {
        if extent.size == 0 {
            return None;
        }
        if extent.at < end {
            return None;
        }
        let Some(behind) = extent.at.checked_add(extent.size) else {
            return None;
        };
        end = behind;
    }
    Some(end)
}
