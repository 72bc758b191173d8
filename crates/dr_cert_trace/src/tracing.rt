//! Where an instance goes.
ghost use Rattle.std.specs.Prelude.{◌↔◌, IfOk, IsTrue};
ghost use Rattle.dr_route.specs.Routes.{local};
ghost use Rattle.dr_plan_model.specs.Walks.{IsEntry};
ghost use Rattle.dr_plan_sound.specs.Soundness.{IsRank};
ghost use Rattle.dr_cert_trace.specs.Traces.{IsJourney, IsTraced};

use crate::contexts::contexts_of;
use crate::stages::stages_of;
use crate::walking::walk;
use dr_base::{Seq, Text};
use dr_cert::Sealed;
use dr_plan_model::Plan;
use dr_plan_model::sending::flow_targets;
use dr_plan_sound::Hop;
use dr_route::Key;
use dr_route::names::names_in_order;
use std::alloc::{AllocError, Global};

/// Where an instance goes.
#[derive(Drop)]
pub struct Journey {
    /// How many hops it makes at most.
    pub rank: u32,
    /// The hops that it may make, each with its presentation context, in the byte order of their
    /// printed lines.
    pub hops: Seq<Hop>,
    /// The titles of the nodes that keep it, in byte order.
    pub keeps: Seq<Text>,
}

/// Whether some flow at the site fits the key.
pub fn enters(alloc: Global, plan: &Plan, site: &Text, key: &Key) -> Result<bool, AllocError>
    ensures { IfOk result (λ b. IsTrue b ↔ IsEntry plan.now site.now key.now) }
{
    let to = flow_targets(alloc, plan.flows(), site, key)?;
    Ok(!to.is_empty())
}

/// Where an instance of the key goes that enters at the site, and has this rank there.
fn follow(
    alloc: Global,
    sealed: &Sealed,
    site: &Text,
    key: &Key,
    rank: u32,
) -> Result<Journey, AllocError>
    requires enters { IsEntry sealed.now.plan site.now key.now }
    requires rank { IsRank sealed.now.plan key.now local site.now rank }
    ensures { IfOk result (IsJourney sealed.now.plan site.now key.now) }
{
    let plan = sealed.plan();
    let certificate = sealed.certificate();
    let stages = stages_of(alloc, sealed, key)?;
    let (pairs, keeps) = walk(alloc, plan, site, key, stages.as_slice())?;
    let hops = contexts_of(alloc, certificate.hops.as_slice(), key, &pairs)?;
    let keeps = names_in_order(alloc, keeps)?;
    Ok(Journey { rank, hops, keeps })
}

/// Where an instance of the key goes that enters at the site; None where no flow there fits it. A
/// line of the certificate is looked at once, and each lookup is a binary search.
///
/// Errors: want of memory.
pub fn trace(
    alloc: Global,
    sealed: &Sealed,
    site: &Text,
    key: &Key,
) -> Result<Option<Journey>, AllocError>
    ensures { IfOk result (IsTraced sealed.now.plan site.now key.now) }
{
    let is_entry = enters(alloc, sealed.plan(), site, key)?;
    if !is_entry {
        return Ok(None);
    }
    let caller = Text::copy_of(alloc, b"-")?;
    let Some(rank) = sealed.rank(&caller, site, key) else {
        return Ok(None);
    };
    let journey = follow(alloc, sealed, site, key, rank)?;
    Ok(Some(journey))
}
