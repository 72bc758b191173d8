//! Those of a plan's and of a certificate's rows that are one node's own.
ghost use Rattle.std.specs.Prelude.{◌≡◌, IfOk, filter};
ghost use Rattle.std.specs.List.{list_any};
ghost use Rattle.dr_site.specs.Parts.{is_at, is_of, begins_at, ends_at, AreHopsFrom};

use dr_base::{Seq, Text};
use dr_plan_model::Flow;
use dr_plan_model::copies::copy_flow;
use dr_plan_sound::copies::{copy_hop, copy_line};
use dr_plan_sound::{Hop, Line};
use std::alloc::{AllocError, Global};

/// The flows at the site, in their order.
pub fn flows_at(alloc: Global, flows: &[Flow], site: &Text) -> Result<Seq<Flow>, AllocError>
    ensures { IfOk result (λ s. s ≡ filter (is_at site.now) flows.now) }
{
    let mut own = Seq::new(alloc);
    for flow in flows {
        if flow.at == *site {
            own.push(copy_flow(flow)?)?;
        }
    }
    Ok(own)
}

/// The lines of the node, in their order.
pub fn lines_of(alloc: Global, lines: &[Line], node: &Text) -> Result<Vec<Line>, AllocError>
    ensures { IfOk result (λ v. v.items ≡ filter (is_of node.now) lines.now) }
{
    let mut own = Vec::new(alloc);
    for line in lines {
        if line.stop.node == *node {
            own.push(copy_line(line)?)?;
        }
    }
    Ok(own)
}

/// The hops that begin at the node, in their order.
fn unsorted_hops_from(alloc: Global, hops: &[Hop], node: &Text) -> Result<Vec<Hop>, AllocError>
    ensures { IfOk result (λ v. v.items ≡ filter (begins_at node.now) hops.now) }
{
    let mut own = Vec::new(alloc);
    for hop in hops {
        if hop.from == *node {
            own.push(copy_hop(hop)?)?;
        }
    }
    Ok(own)
}

/// The hops that begin at the node, by their ids.
pub fn hops_from(alloc: Global, hops: &[Hop], node: &Text) -> Result<Seq<Hop>, AllocError>
    ensures { IfOk result (λ s. AreHopsFrom node.now hops.now s) }
{
    let mut own = unsorted_hops_from(alloc, hops, node)?;
    own.sort_by_key(|hop| hop.id)?;
    Ok(Seq::from_vec(own))
}

/// Those of the hops that end at the node, in their order.
pub fn hops_ending_at(alloc: Global, hops: &[Hop], node: &Text) -> Result<Seq<Hop>, AllocError>
    ensures { IfOk result (λ s. s ≡ filter (ends_at node.now) hops.now) }
{
    let mut own = Seq::new(alloc);
    for hop in hops {
        if hop.to == *node {
            own.push(copy_hop(hop)?)?;
        }
    }
    Ok(own)
}

/// Whether one of the hops ends at the node.
pub fn has_hop(hops: &[Hop], node: &Text) -> bool
    ensures { result ≡ list_any (ends_at node.now) hops.now }
{
    hops.iter().any(|hop| hop.to == *node)
}
