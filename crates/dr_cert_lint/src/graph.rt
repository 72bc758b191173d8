//! The graph of a network, in the language of Graphviz.
ghost use Rattle.std.specs.Prelude.{◌≡◌, ◌++◌, [], IfOk, OnOk, Contains, flat_map, if◌then◌else◌};
ghost use Rattle.dr_base.specs.Texts.{Text as Words};
ghost use Rattle.dr_cert_lint.specs.Edges.{AreEdges};
ghost use Rattle.dr_cert_lint.specs.Graphs.{IsGraphText, IsVertexRow, edge_row, place_text};
ghost use Rattle.dr_cert_lint.specs.Graphs.{vertex_row};
ghost use Rattle.dr_cert_lint.specs.Texts.{AreRows};

use crate::edges::{Edge, edges_of};
use crate::flows::is_entry;
use crate::uses::{PartInUse, is_used};
use dr_base::Text;
use dr_base::fields::add_decimal;
use dr_base_quoted::{put_escaped, put_in_quotes};
use dr_cert::Sealed;
use dr_plan_model::{Listens, Node};
use std::alloc::{AllocError, Global};

const HEAD: &[u8] = b"digraph network {\n  rankdir=LR;\n  node [shape=box];\n";

const FOOT: &[u8] = b"}\n";

/// Adds a text where that is so.
fn add_if(out: &mut Vec<u8>, is_so: bool, text: &[u8]) -> Result<(), AllocError>
    ensures { OnOk result (out.new.items ≡ out.old.items ++ (if is_so then text.now else [])) }
{
    if is_so {
        return out.extend_from_slice(text);
    }
    Ok(())
}

/// Adds where a node listens.
fn put_place(out: &mut Vec<u8>, listens: &Listens) -> Result<(), AllocError>
    ensures { OnOk result (out.new.items ≡ out.old.items ++ place_text listens.now) }
{
    match listens {
        Listens::Nowhere => out.extend_from_slice(b"only calls"),
        Listens::At { address, .. } => put_escaped(out, address),
    }
}

/// Adds the row of a node: one where instances enter has round corners, one that keeps them a
/// double line.
fn add_vertex_row(
    out: &mut Vec<u8>,
    node: &Node,
    enters: bool,
    keeps: bool,
) -> Result<(), AllocError>
    ensures { OnOk result (out.new.items ≡ out.old.items ++ vertex_row node.now enters keeps) }
{
    out.extend_from_slice(b"  ")?;
    put_in_quotes(out, &node.name)?;
    out.extend_from_slice(b" [label=\"")?;
    put_escaped(out, &node.name)?;
    out.extend_from_slice(b"\\n")?;
    put_place(out, &node.listens)?;
    out.extend_from_slice(b"\"")?;
    add_if(out, enters, b", style=rounded")?;
    add_if(out, keeps, b", peripheries=2")?;
    out.extend_from_slice(b"];\n")?;
    Ok(())
}

/// Adds the row of a node of the plan.
fn add_vertex(
    alloc: Global,
    out: &mut Vec<u8>,
    sealed: &Sealed,
    node: &Node,
) -> Result<(), AllocError>
    requires { Contains sealed.now.plan.nodes node.now }
    ensures { OnOk result
        ((row : Words)
        × IsVertexRow sealed.now.plan node.now row
        × (out.new.items ≡ out.old.items ++ row)) }
{
    let enters = is_entry(sealed.plan().flows(), &node.name);
    let keeps = is_used(
        alloc,
        sealed,
        &node.name,
        PartInUse::Kept(node.rules.as_slice()),
    )?;
    add_vertex_row(out, node, enters, keeps)?;
    Ok(())
}

/// Adds the rows of all nodes of the plan.
fn add_vertices(alloc: Global, out: &mut Vec<u8>, sealed: &Sealed) -> Result<(), AllocError>
    ensures { OnOk result
        ((rows : Words)
        × AreRows (λ number. IsVertexRow sealed.now.plan) 1 sealed.now.plan.nodes rows
        × (out.new.items ≡ out.old.items ++ rows)) }
{
    for node in sealed.plan().nodes() {
        add_vertex(alloc, out, sealed, node)?;
    }
    Ok(())
}

/// Adds the row of an edge.
fn add_edge_row(out: &mut Vec<u8>, edge: &Edge) -> Result<(), AllocError>
    ensures { OnOk result (out.new.items ≡ out.old.items ++ edge_row edge.now) }
{
    out.extend_from_slice(b"  ")?;
    put_in_quotes(out, &edge.from)?;
    out.extend_from_slice(b" -> ")?;
    put_in_quotes(out, &edge.to)?;
    out.extend_from_slice(b" [label=\"")?;
    add_decimal(out, edge.contexts as u64)?;
    out.extend_from_slice(b"\"];\n")?;
    Ok(())
}

/// Adds the rows of the edges.
fn add_edge_rows(out: &mut Vec<u8>, edges: &[Edge]) -> Result<(), AllocError>
    ensures { OnOk result (out.new.items ≡ out.old.items ++ flat_map edge_row edges.now) }
{
    for edge in edges {
        add_edge_row(out, edge)?;
    }
    Ok(())
}

/// The edges of a sealed plan.
fn edges_in(alloc: Global, sealed: &Sealed) -> Result<Vec<Edge>, AllocError>
    ensures { IfOk result (λ edges. AreEdges sealed.now.certificate.hops edges.items) }
{
    let edges = edges_of(alloc, sealed.certificate().hops.as_slice())?;
    Ok(edges)
}

/// The network of the plan as a graph for Graphviz: a vertex for each node, with where it listens,
/// and an edge for each hop, with its number of presentation contexts.
///
/// Errors: want of memory.
pub fn graph_text(alloc: Global, sealed: &Sealed) -> Result<Text, AllocError>
    ensures { IfOk result (IsGraphText sealed.now.plan sealed.now.certificate) }
{
    let edges = edges_in(alloc, sealed)?;
    let mut out = Vec::from_slice(alloc, HEAD)?;
    add_vertices(alloc, &mut out, sealed)?;
    add_edge_rows(&mut out, edges.as_slice())?;
    out.extend_from_slice(FOOT)?;
    Ok(Text::from_vec(out))
}
