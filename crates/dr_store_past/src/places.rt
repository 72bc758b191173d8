//! Places at which reading a past can begin.
ghost use Rattle.std.specs.Prelude.{◌≡◌, ◌<◌, ◌≤◌, IfErr, OnErr, OnOk};
ghost use Rattle.dr_store_sealed.specs.declared.fault.SealFault.TheVariants.{Memory as AsMemory};
ghost use Rattle.dr_store_past.specs.declared.fault.PastFault.TheVariants.{Sealed as AsSealed};
ghost use Rattle.dr_store_past.specs.Places.{IsNoted, IsPlaceBefore};

use crate::fault::PastFault;
use dr_store_sealed::Seal;

/// So many lines lie between two places, at least, that are noted while lines are read.
const SPACING: u64 = 10_000;

/// Of a place and the last one so far, the one that is the last then.
fn later_of(found: Seal, place: &Seal, count: u64) -> Seal
    ensures later { place.now.count ≤ count → found.count ≤ place.now.count
        → result ≡ place.now }
    ensures other { (place.now.count ≤ count → place.now.count < found.count) → result ≡ found }
{
    if place.count > count {
        return found;
    }
    if place.count < found.count {
        return found;
    }
    *place
}

/// Of these places and the beginning, the last one whose count isn't above that number.
pub fn place_before(places: &[Seal], count: u64) -> Seal
    ensures { IsPlaceBefore places.now count result }
{
    let mut found = Seal::first();
    for place in places {
        found = later_of(found, place, count);
    }
    found
}

/// Notes a place, unless another one is shortly before it: so all of them take little memory.
///
/// Errors: Sealed, for want of memory; nothing has changed then.
pub fn note_place(places: &mut Vec<Seal>, place: &Seal) -> Result<(), PastFault>
    ensures noted { OnOk result (IsNoted places.old.items place.now places.new.items) }
    ensures unnoted { OnErr result (places.new.items ≡ places.old.items) }
    ensures why { IfErr result (λ fault. fault ≡ AsSealed AsMemory) }
{
    let near = place_before(places.as_slice(), place.count);
    if place.count - near.count < SPACING {
        return Ok(());
    }
    places.push(*place)?;
    Ok(())
}
