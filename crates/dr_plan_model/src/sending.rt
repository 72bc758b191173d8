//! What a node of a plan does with a key.
ghost use Rattle.std.specs.Prelude.{◌≡◌, ◌↔◌, ◌⊎◌, IsTrue, IfOk, OnOk, Contains, false};
ghost use Rattle.dr_base.specs.Texts.{Text as Words, IsInByteOrder};
ghost use Rattle.dr_route.specs.Names.{HasName};
ghost use Rattle.dr_plan_model.specs.Walks.{FlowBrings, IsListed, BeginsOne, FlowsAmong};
ghost use Rattle.dr_plan_model.specs.Walks.{Sends, Keeps, Accepts};

use crate::entering::first_targets;
use crate::plan::{Flow, Plan, Values};
use dr_base::{Seq, Syntax, Text};
use dr_route::names::{add_names, has_name, names_in_order};
use dr_route::rule::begins;
use dr_route::{Key, Targets, is_local, routing};
use std::alloc::{AllocError, Global};
use std::collections::BTreeSet;
use std::slice;

/// Whether the value begins with one of the prefixes.
pub fn begins_one(prefixes: &[Text], value: &Text) -> bool
    ensures { IsTrue result ↔ BeginsOne prefixes.now value.now }
{
    for prefix in prefixes {
        if begins(prefix, value) {
            return true;
        }
    }
    false
}

/// Whether the value is one that the flow speaks of.
fn is_listed(values: &Values, value: &Text) -> bool
    ensures { IsTrue result ↔ IsListed values.now value.now }
{
    match values {
        Values::Any => true,
        Values::Listed(own) => {
            own.literals.as_slice().contains(value) || begins_one(own.prefixes.as_slice(), value)
        }
    }
}

/// Whether the flow fits the key: its class and transfer syntax are in the flow's lists, and so are
/// its modality and station where the flow has lists for them.
pub fn fits(flow: &Flow, key: &Key) -> bool
    ensures { IsTrue result ↔ FlowBrings flow.now key.now }
{
    flow.syntaxes.as_slice().contains(&key.syntax)
        && flow.classes.as_slice().contains(&key.class)
        && is_listed(&flow.modalities, &key.modality)
        && is_listed(&flow.stations, &key.station)
}

/// Whether the flow brings the key in at the site.
fn enters(flow: &Flow, site: &Text, key: &Key) -> bool
    ensures { IsTrue result ↔ ((flow.now.at ≡ site.now) × FlowBrings flow.now key.now) }
{
    flow.at == *site && fits(flow, key)
}

/// Whether the flow brings the key in at the site, and to a node that isn't among the names.
fn names_another(names: &BTreeSet<Text>, flow: &Flow, site: &Text, key: &Key) -> bool
    ensures another { IsTrue result → (flow.now.at ≡ site.now) × FlowBrings flow.now key.now }
    ensures none { result ≡ false
        → HasName names.now flow.now.to
        ⊎ ((flow.now.at ≡ site.now) × FlowBrings flow.now key.now → ⊥) }
{
    !has_name(names, &flow.to) && enters(flow, site, key)
}

/// The nodes that those of the flows that are at the site send the key to, in byte order and each
/// once. A flow to a node that is among them already isn't looked into.
pub fn flow_targets(
    alloc: Global,
    flows: &[Flow],
    site: &Text,
    key: &Key,
) -> Result<Seq<Text>, AllocError>
    ensures to { IfOk result (λ seq.
        (name : Words) → Contains seq name ↔ FlowsAmong flows.now site.now key.now name) }
    ensures ordered { IfOk result IsInByteOrder }
{
    let mut names = BTreeSet::new(alloc);
    for flow in flows {
        if names_another(&names, flow, site, key) {
            add_names(&mut names, slice::from_ref(&flow.to))?;
        }
    }
    let to = names_in_order(alloc, names)?;
    Ok(to)
}

/// What the node does with the key that it has from the caller: the nodes that it sends it to, in
/// byte order and each once, and whether it keeps it. The local caller `-` has the node's flows,
/// and nothing is kept for it.
pub fn sends(
    alloc: Global,
    plan: &Plan,
    name: &Text,
    caller: &Text,
    key: &Key,
) -> Result<Targets, AllocError>
    ensures to { IfOk result (λ t.
        (to : Words) → Contains t.to to ↔ Sends plan.now name.now caller.now key.now to) }
    ensures ordered { IfOk result (λ t. IsInByteOrder t.to) }
    ensures keep { IfOk result (λ t. IsTrue t.keep ↔ Keeps plan.now name.now caller.now key.now) }
{
    if is_local(caller) {
        let to = first_targets(alloc, plan, name, key)?;
        return Ok(Targets { to, keep: false });
    }
    let Some(node) = plan.node(name) else {
        return Ok(Targets {
            to: Seq::new(alloc),
            keep: false,
        });
    };
    let targets = routing::targets(alloc, node.rules.as_slice(), caller, key)?;
    Ok(targets)
}

/// Whether the node accepts the class in that transfer syntax from the caller.
pub fn accepts(plan: &Plan, name: &Text, caller: &Text, class: &Text, syntax: Syntax) -> bool
    ensures { IsTrue result ↔ Accepts plan.now name.now caller.now class.now syntax }
{
    let Some(node) = plan.node(name) else {
        return false;
    };
    dr_route::accepts(node.accepts.as_slice(), caller, class, syntax)
}
