//! The contexts of a certificate for a key.
ghost use Rattle.std.specs.Prelude.{◌↔◌, IfOk, IsTrue, OnOk, Contains};
ghost use Rattle.dr_plan_sound.specs.declared.certificate.Hop.{Hop as PlannedHop};
ghost use Rattle.dr_cert.specs.Conditions.{AreHopsInOrder};
ghost use Rattle.dr_cert_trace.specs.Found.{AddsIf, Carries};

use crate::pairs::has_pair;
use dr_base::{Seq, Text};
use dr_plan_sound::Hop;
use dr_plan_sound::copies::copy_hop;
use dr_route::Key;
use std::alloc::{AllocError, Global};
use std::collections::BTreeSet;

/// Whether the key goes over the hop in this context, where the pairs are those on which it goes.
fn carries(hop: &Hop, key: &Key, pairs: &BTreeSet<(Text, Text)>) -> Result<bool, AllocError>
    ensures { IfOk result (λ b. IsTrue b ↔ Carries key.now pairs.now hop.now) }
{
    if hop.class != key.class {
        return Ok(false);
    }
    if hop.syntax != key.syntax {
        return Ok(false);
    }
    let pair = (hop.from.clone()?, hop.to.clone()?);
    Ok(has_pair(pairs, &pair))
}

/// One hop more, where the key goes over it.
fn add_carried(
    own: &mut Vec<Hop>,
    hop: &Hop,
    key: &Key,
    pairs: &BTreeSet<(Text, Text)>,
) -> Result<(), AllocError>
    ensures { OnOk result
        (AddsIf (Carries key.now pairs.now hop.now) hop.now own.old.items own.new.items) }
{
    if !carries(hop, key, pairs)? {
        return Ok(());
    }
    own.push(copy_hop(hop)?)?;
    Ok(())
}

/// Those of the hops over which the key goes, in their order.
pub fn contexts_of(
    alloc: Global,
    hops: &[Hop],
    key: &Key,
    pairs: &BTreeSet<(Text, Text)>,
) -> Result<Seq<Hop>, AllocError>
    ensures each { IfOk result (λ all. (hop : PlannedHop)
        → Contains all hop ↔ (Contains hops.now hop × Carries key.now pairs.now hop)) }
    ensures ordered { AreHopsInOrder hops.now → IfOk result AreHopsInOrder }
{
    let mut own = Vec::new(alloc);
    for hop in hops {
        add_carried(&mut own, hop, key, pairs)?;
    }
    Ok(Seq::from_vec(own))
}
