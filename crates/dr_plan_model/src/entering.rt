//! Where what enters at a site goes first. Values are looked for in the sets that are made of the
//! flows' lists, and not in the lists.
ghost use Rattle.std.specs.Prelude.{◌≡◌, ◌↔◌, ◌⊎◌, IsTrue, IfOk, Contains, false};
ghost use Rattle.dr_base.specs.Texts.{Text as Words, IsInByteOrder};
ghost use Rattle.dr_route.specs.Names.{HasName};
ghost use Rattle.dr_plan_model.specs.Naming.{listed_literals};
ghost use Rattle.dr_plan_model.specs.Listings.{IsListedBy, AreListedBy};
ghost use Rattle.dr_plan_model.specs.Walks.{FlowBrings, IsListed, Flows, FlowsAmong};

use crate::listed::Listed;
use crate::plan::{Flow, Plan, Values};
use crate::sending::begins_one;
use dr_base::{Seq, Text};
use dr_route::Key;
use dr_route::names::{add_names, has_name, is_in_set, names_in_order};
use std::alloc::{AllocError, Global};
use std::collections::BTreeSet;
use std::slice;

/// Whether the value is one that the flow speaks of. The single values that it lists are this set.
fn is_listed_in(values: &Values, set: &[Text], value: &Text) -> bool
    requires same { (t : Words) → Contains set.now t ↔ Contains (listed_literals values.now) t }
    requires ordered { IsInByteOrder set.now }
    ensures { IsTrue result ↔ IsListed values.now value.now }
{
    match values {
        Values::Any => true,
        Values::Listed(own) => {
            is_in_set(set, value) || begins_one(own.prefixes.as_slice(), value)
        }
    }
}

/// Whether the flow fits the key, as `sending::fits` says it, by what the flow lists.
fn fits_by(flow: &Flow, listed: &Listed, key: &Key) -> bool
    requires { IsListedBy flow.now listed.now }
    ensures { IsTrue result ↔ FlowBrings flow.now key.now }
{
    flow.syntaxes.as_slice().contains(&key.syntax)
        && flow.classes.as_slice().contains(&key.class)
        && is_listed_in(
            &flow.modalities,
            listed.modalities.as_slice(),
            &key.modality,
        )
        && is_listed_in(&flow.stations, listed.stations.as_slice(), &key.station)
}

/// Whether the flow brings the key in at the site, and to a node that isn't among the names.
fn brings_to_another(
    names: &BTreeSet<Text>,
    flow: &Flow,
    listed: &Listed,
    site: &Text,
    key: &Key,
) -> bool
    requires { IsListedBy flow.now listed.now }
    ensures another { IsTrue result → (flow.now.at ≡ site.now) × FlowBrings flow.now key.now }
    ensures none { result ≡ false
        → HasName names.now flow.now.to
        ⊎ ((flow.now.at ≡ site.now) × FlowBrings flow.now key.now → ⊥) }
{
    !has_name(names, &flow.to) && flow.at == *site && fits_by(flow, listed, key)
}

/// The nodes that those of the flows that are at the site send the key to, in byte order and each
/// once. A flow to a node that is among them already isn't looked into.
fn targets_by(
    alloc: Global,
    flows: &[Flow],
    all: &[Listed],
    site: &Text,
    key: &Key,
) -> Result<Seq<Text>, AllocError>
    requires { AreListedBy flows.now all.now }
    ensures to { IfOk result (λ seq.
        (name : Words) → Contains seq name ↔ FlowsAmong flows.now site.now key.now name) }
    ensures ordered { IfOk result IsInByteOrder }
{
    let mut names = BTreeSet::new(alloc);
    for place in 0..flows.len() {
        let flow = &flows[place];
        if brings_to_another(&names, flow, &all[place], site, key) {
            add_names(&mut names, slice::from_ref(&flow.to))?;
        }
    }
    let to = names_in_order(alloc, names)?;
    Ok(to)
}

/// The nodes that the plan's flows send the key to that enters at the site, in byte order and each
/// once.
pub(crate) fn first_targets(
    alloc: Global,
    plan: &Plan,
    site: &Text,
    key: &Key,
) -> Result<Seq<Text>, AllocError>
    ensures to { IfOk result (λ seq.
        (name : Words) → Contains seq name ↔ Flows plan.now site.now key.now name) }
    ensures ordered { IfOk result IsInByteOrder }
{
    let to = targets_by(alloc, plan.flows(), plan.listed(), site, key)?;
    Ok(to)
}
