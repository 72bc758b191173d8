//! The hops that begin at a node.
ghost use Rattle.std.specs.Prelude.{◌≡◌, ◌∷◌, ◌++◌, [], IfOk, OnOk, MatchOption};
ghost use Rattle.std.specs.List.{list_any};
ghost use Rattle.dr_site.specs.Parts.{ends_at};
ghost use Rattle.dr_run_open.specs.Hops.{first_look, hop_at, hops_from};

use dr_base::Text;
use dr_plan_model::{Node, Plan};
use dr_plan_sound::Hop as Context;
use dr_site::Site;
use std::alloc::{AllocError, Global};

/// A node to which this one sends, where it listens, and from which moment on (milliseconds) a row
/// for it is due, as far as the sender knows: 0 before it has looked, and 2^64 - 1 where none
/// waits.
#[derive(Debug, Drop)]
pub struct NextHop {
    pub dest: Text,
    pub address: Text,
    pub due: u64,
}

/// Whether one of the presentation contexts is of a hop that ends there.
fn leads_to(contexts: &[Context], dest: &Text) -> bool
    ensures { result ≡ list_any (ends_at dest.now) contexts.now }
{
    contexts.iter().any(|context| context.to == *dest)
}

/// The hop to the node of that name and address, before anybody has looked for a row.
fn hop_to(name: &Text, address: &Text) -> Result<NextHop, AllocError>
    ensures { IfOk result (λ hop. hop ≡ first_look name.now address.now) }
{
    let dest = name.clone()?;
    let address = address.clone()?;
    Ok(NextHop {
        dest,
        address,
        due: 0,
    })
}

/// The hop of a site to the node, where there is one.
fn hop_at(site: &Site, node: &Node) -> Result<Option<NextHop>, AllocError>
    ensures { IfOk result (λ found. MatchOption found (hop_at site.now node.now ≡ []) (λ hop.
        hop_at site.now node.now ≡ hop ∷ [])) }
{
    let Some(address) = node.listens.address() else {
        return Ok(None);
    };
    if !leads_to(site.hops(), &node.name) {
        return Ok(None);
    }
    let hop = hop_to(&node.name, address)?;
    Ok(Some(hop))
}

/// Adds the hop of a site to the node, where there is one.
fn add_hop(hops: &mut Vec<NextHop>, site: &Site, node: &Node) -> Result<(), AllocError>
    ensures { OnOk result (hops.new.items ≡ hops.old.items ++ hop_at site.now node.now) }
{
    let Some(hop) = hop_at(site, node)? else {
        return Ok(());
    };
    hops.push(hop)?;
    Ok(())
}

/// The hops of a site: the nodes of the plan to which it sends and that listen, in the order of the
/// plan's text, each with its address.
pub fn hops_of(alloc: Global, site: &Site, plan: &Plan) -> Result<Vec<NextHop>, AllocError>
    ensures { IfOk result (λ hops. hops.items ≡ hops_from site.now plan.now.nodes) }
{
    let mut hops = Vec::new(alloc);
    for node in plan.nodes() {
        add_hop(&mut hops, site, node)?;
    }
    Ok(hops)
}
