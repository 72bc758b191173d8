//! The edges of the graph: the hops of a certificate with their numbers of presentation contexts.
ghost use Rattle.std.specs.Prelude.{◌≡◌, ◌++◌, IfOk, OnOk, flat_map};
ghost use Rattle.dr_cert_lint.specs.Edges.{contexts_between, edge_over, edges_at, goes_between};

use dr_base::Text;
use dr_plan_sound::Hop;
use std::alloc::{AllocError, Global};

/// A hop, and how many presentation contexts it has.
#[derive(Drop)]
pub struct Edge {
    pub from: Text,
    pub to: Text,
    pub contexts: usize,
}

/// Whether the context is one from the one node to the other.
fn goes_between(hop: &Hop, from: &Text, to: &Text) -> bool
    ensures { result ≡ goes_between from.now to.now hop.now }
{
    hop.from == *from && hop.to == *to
}

/// How many contexts there are from the one node to the other.
fn contexts_between(hops: &[Hop], from: &Text, to: &Text) -> usize
    ensures { result ≡ contexts_between hops.now from.now to.now }
{
    let mut count = 0;
    for hop in hops {
        if goes_between(hop, from, to) {
            count += 1;
        }
    }
    count
}

/// The edge on which the context is.
fn edge_over(hops: &[Hop], hop: &Hop) -> Result<Edge, AllocError>
    ensures { IfOk result (λ edge. edge ≡ edge_over hops.now hop.now) }
{
    let contexts = contexts_between(hops, &hop.from, &hop.to);
    Ok(Edge {
        from: hop.from.clone()?,
        to: hop.to.clone()?,
        contexts,
    })
}

/// Adds the edge of a hop's first context, and none for the others.
fn add_edge(edges: &mut Vec<Edge>, hops: &[Hop], hop: &Hop) -> Result<(), AllocError>
    ensures { OnOk result (edges.new.items ≡ edges.old.items ++ edges_at hops.now hop.now) }
{
    if hop.id != 1 {
        return Ok(());
    }
    edges.push(edge_over(hops, hop)?)?;
    Ok(())
}

/// The edges of these hops, in their order.
pub fn edges_of(alloc: Global, hops: &[Hop]) -> Result<Vec<Edge>, AllocError>
    ensures { IfOk result (λ edges. edges.items ≡ flat_map (edges_at hops.now) hops.now) }
{
    let mut edges = Vec::new(alloc);
    for hop in hops {
        add_edge(&mut edges, hops, hop)?;
    }
    Ok(edges)
}
