//! Where the next line begins.
ghost use Rattle.std.specs.Prelude.{◌≡◌, ◌+◌, ◌^◌, ◌<◌, ◌≤◌, IfNone, IfSome};
ghost use Rattle.dr_store_sealed.specs.Seals.{full};
ghost use Rattle.dr_store_line_files.specs.Filed.{place_behind};

use dr_store_sealed::Seal;

/// Where the next line behind a seal begins: at the seal's place, or at the beginning of the next
/// file if that of the seal is full, unless no number is left for it.
pub fn place_of(seal: &Seal) -> Option<Seal>
    ensures place { IfSome result (λ place. place ≡ place_behind seal.now) }
    ensures room { IfSome result (λ place. place.offset < full) }
    ensures none { IfNone result ((full ≤ seal.now.offset) × (seal.now.number + 1 ≡ 2 ^ 64)) }
{
    if seal.is_full() {
        let next = seal.turn()?;
        return Some(next);
    }
    Some(*seal)
}
