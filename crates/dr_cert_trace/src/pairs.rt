//! Sets of pairs of names.
ghost use Rattle.std.specs.Prelude.{◌≡◌, ◌⊎◌, ◌↔◌, Contains, IfOk, IsTrue, OnOk};
ghost use Rattle.dr_cert_trace.specs.Found.{AddsPairs, HasPair, IsKnownPlace};

use dr_base::Text;
use dr_route::is_local;
use std::alloc::AllocError;
use std::collections::BTreeSet;

/// Whether the pair is in the set.
pub fn has_pair(pairs: &BTreeSet<(Text, Text)>, pair: &(Text, Text)) -> bool
    ensures { IsTrue result ↔ HasPair pairs.now pair.now }
{
    pairs.contains(pair)
}

/// Whether it is known that a key comes to the place: it is where it enters, or a pair that was
/// found.
pub fn is_known(pairs: &BTreeSet<(Text, Text)>, site: &Text, place: &(Text, Text)) -> bool
    ensures { IsTrue result ↔ IsKnownPlace pairs.now site.now place.now }
{
    if is_local(&place.0) && place.1 == *site {
        return true;
    }
    has_pair(pairs, place)
}

/// One pair more.
fn add_pair(pairs: &mut BTreeSet<(Text, Text)>, from: &Text, to: &Text) -> Result<(), AllocError>
    ensures { OnOk result (AddsPairs pairs.old pairs.new from.now (λ name. name ≡ to.now)) }
{
    let pair = (from.clone()?, to.clone()?);
    if has_pair(pairs, &pair) {
        return Ok(());
    }
    pairs.insert(pair)?;
    Ok(())
}

/// The pairs of a node and of those that it sends to.
pub fn add_pairs(
    pairs: &mut BTreeSet<(Text, Text)>,
    from: &Text,
    all: &[Text],
) -> Result<(), AllocError>
    ensures { OnOk result (AddsPairs pairs.old pairs.new from.now (λ name. Contains all.now name)) }
{
    for to in all {
        add_pair(pairs, from, to)?;
    }
    Ok(())
}
