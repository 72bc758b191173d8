//! To which nodes an instance comes, and which of them keep it.
ghost use Rattle.std.specs.Prelude.{◌≡◌, ◌+◌, ◌↔◌, [], ◌∷◌, IfOk, Contains};
ghost use Rattle.dr_base.specs.Texts.{Text as Words};
ghost use Rattle.dr_route.specs.Names.{HasName};
ghost use Rattle.dr_route.specs.Routes.{local};
ghost use Rattle.dr_plan_model.specs.Walks.{IsEntry};
ghost use Rattle.dr_plan_sound.specs.Soundness.{IsRank};
ghost use Rattle.dr_cert_trace.specs.Found.{HasPair};
ghost use Rattle.dr_cert_trace.specs.Reaches.{AreWithin, IsReach, PassesAll, Reaches};

use crate::tracing::enters;
use crate::walking::go_on;
use dr_base::{Seq, Text};
use dr_cert::Sealed;
use dr_plan_model::Plan;
use dr_route::Key;
use dr_route::names::{add_names, names_in_order};
use std::alloc::{AllocError, Global};
use std::collections::BTreeSet;
use std::slice;

/// To which nodes an instance comes.
#[derive(Drop)]
pub struct Reach {
    /// The titles of all nodes to which it comes, with that of where it enters, in byte order.
    pub nodes: Seq<Text>,
    /// The titles of those that keep it, in byte order.
    pub keeps: Seq<Text>,
}

/// The places of the set.
fn places_of(alloc: Global, pairs: BTreeSet<(Text, Text)>) -> Result<Vec<(Text, Text)>, AllocError>
    ensures { IfOk result (λ v.
        (pair : Words × Words) → Contains v.items pair ↔ HasPair pairs pair) }
{
    let places: Vec<(Text, Text)> = pairs.into_iter().collect(alloc)?;
    Ok(places)
}

/// The place where the key enters.
fn first_place(alloc: Global, site: &Text) -> Result<Vec<(Text, Text)>, AllocError>
    ensures { IfOk result (λ v. v.items ≡ (local, site.now) ∷ []) }
{
    let place = (Text::copy_of(alloc, b"-")?, site.clone()?);
    let mut places = Vec::new(alloc);
    places.push(place)?;
    Ok(places)
}

/// What the nodes of the places do with the key: the places that come next.
fn pass_all(
    alloc: Global,
    plan: &Plan,
    key: &Key,
    front: &[(Text, Text)],
    nodes: &mut BTreeSet<Text>,
    keeps: &mut BTreeSet<Text>,
) -> Result<BTreeSet<(Text, Text)>, AllocError>
    ensures { IfOk result (λ next.
        PassesAll plan.now key.now front.now next nodes.old nodes.new keeps.old keeps.new) }
{
    let mut next = BTreeSet::new(alloc);
    for place in front {
        go_on(alloc, plan, key, place, &mut next, keeps)?;
        add_names(nodes, slice::from_ref(&place.1))?;
    }
    Ok(next)
}

/// The nodes to which walks of that many hops and fewer come, and those of them that keep the key.
fn spread(
    alloc: Global,
    plan: &Plan,
    site: &Text,
    key: &Key,
    hops: u32,
) -> Result<(BTreeSet<Text>, BTreeSet<Text>), AllocError>
    ensures { IfOk result (λ found. AreWithin plan.now site.now key.now hops found.0 found.1) }
{
    let mut nodes = BTreeSet::new(alloc);
    let mut keeps = BTreeSet::new(alloc);
    let mut front = first_place(alloc, site)?;
    for _done in 0..hops {
        let next = pass_all(alloc, plan, key, front.as_slice(), &mut nodes, &mut keeps)?;
        front = places_of(alloc, next)?;
    }
    pass_all(alloc, plan, key, front.as_slice(), &mut nodes, &mut keeps)?;
    Ok((nodes, keeps))
}

/// To which nodes an instance of the key comes that enters at the site, and has this rank there.
fn reach_within(
    alloc: Global,
    plan: &Plan,
    site: &Text,
    key: &Key,
    rank: u32,
) -> Result<Reach, AllocError>
    requires enters { IsEntry plan.now site.now key.now }
    requires rank { IsRank plan.now key.now local site.now rank }
    ensures { IfOk result (IsReach plan.now site.now key.now) }
{
    let (nodes, keeps) = spread(alloc, plan, site, key, rank)?;
    let nodes = names_in_order(alloc, nodes)?;
    let keeps = names_in_order(alloc, keeps)?;
    Ok(Reach { nodes, keeps })
}

/// To which nodes an instance of the key comes that enters at the site, and which of them keep it;
/// None where no flow there fits it. The certificate says how many hops there are at most.
///
/// Errors: want of memory.
pub fn reach_of(
    alloc: Global,
    sealed: &Sealed,
    site: &Text,
    key: &Key,
) -> Result<Option<Reach>, AllocError>
    ensures { IfOk result (Reaches sealed.now.plan site.now key.now) }
{
    let is_entry = enters(alloc, sealed.plan(), site, key)?;
    if !is_entry {
        return Ok(None);
    }
    let caller = Text::copy_of(alloc, b"-")?;
    let Some(rank) = sealed.rank(&caller, site, key) else {
        return Ok(None);
    };
    let reach = reach_within(alloc, sealed.plan(), site, key, rank)?;
    Ok(Some(reach))
}
