//! Whether a certificate's hops are those that its lines show.
ghost use Rattle.std.specs.Prelude.{◌≡◌, ◌↔◌, IsTrue, IfOk, Contains};
ghost use Rattle.dr_plan_model.specs.Networks.{Network};
ghost use Rattle.dr_plan_model.specs.Plans.{IsWellFormed};
ghost use Rattle.dr_plan_sound.specs.Ranked.{AreRanked};
ghost use Rattle.dr_plan_sound.specs.declared.certificate.Hop.{Hop as HopValue};
ghost use Rattle.dr_cert.specs.Conditions.{HasRightHops};
ghost use Rattle.dr_cert.specs.HopSets.{numbered, AreTheNumbered};

use dr_cert_hops::hops::Passage;
use dr_cert_hops::{Numbered, number_hops};
use dr_plan_sound::{Hop, Line};
use std::alloc::{AllocError, Global};
use std::collections::BTreeSet;

/// A pair that goes over a hop, with its id.
#[derive(Clone, PartialEq, Eq, PartialOrd, Ord, Debug, Drop)]
pub struct NumberedPassage {
    pub passage: Passage,
    pub id: u8,
}

/// The pair of the hop with its id.
fn numbered_passage(hop: &Hop) -> Result<NumberedPassage, AllocError>
    ensures { IfOk result (λ n. n ≡ numbered hop.now) }
{
    let passage = Passage {
        from: hop.from.clone()?,
        to: hop.to.clone()?,
        class: hop.class.clone()?,
        syntax: hop.syntax,
    };
    Ok(NumberedPassage {
        passage,
        id: hop.id,
    })
}

/// The pairs of the hops with their ids.
fn numbered_passages(alloc: Global, hops: &[Hop]) -> Result<BTreeSet<NumberedPassage>, AllocError>
    ensures { IfOk result (AreTheNumbered hops.now) }
{
    let mut all = BTreeSet::new(alloc);
    for hop in hops {
        all.insert(numbered_passage(hop)?)?;
    }
    Ok(all)
}

/// Whether each of the hops is one of the others.
fn are_among(alloc: Global, hops: &[Hop], others: &[Hop]) -> Result<bool, AllocError>
    ensures { IfOk result (λ b.
        IsTrue b ↔ ((hop : HopValue) → Contains hops.now hop → Contains others.now hop)) }
{
    let all = numbered_passages(alloc, others)?;
    for hop in hops {
        let here = numbered_passage(hop)?;
        if !all.contains(&here) {
            return Ok(false);
        }
    }
    Ok(true)
}

/// Whether both have the same hops.
fn are_same(alloc: Global, hops: &[Hop], others: &[Hop]) -> Result<bool, AllocError>
    ensures { IfOk result (λ b.
        IsTrue b ↔ ((hop : HopValue) → Contains hops.now hop ↔ Contains others.now hop)) }
{
    if !are_among(alloc, hops, others)? {
        return Ok(false);
    }
    let back = are_among(alloc, others, hops)?;
    Ok(back)
}

/// Whether the hops are just those of a plan, with their numbers, and none has more than 128 pairs,
/// where these are the plan's lines.
pub fn are_right_hops(alloc: Global, hops: &[Hop], lines: &[Line]) -> Result<bool, AllocError>
    ensures { IfOk result (λ b. (plan : Network) → IsWellFormed plan → AreRanked plan lines.now
        → IsTrue b ↔ HasRightHops plan hops.now) }
{
    match number_hops(alloc, lines)? {
        Numbered::TooMany { .. } => Ok(false),
        Numbered::Hops(all) => {
            let same = are_same(alloc, hops, all.as_slice())?;
            Ok(same)
        }
    }
}
