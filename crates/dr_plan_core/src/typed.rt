//! A plan that passed its tests, with types for its transfer syntaxes and lengths.
ghost use Rattle.std.specs.Prelude.{◌≡◌, ◌≢◌, All, IfOk, OnErr, [], map};
ghost use Rattle.dr_base.specs.Syntaxes.{syntax_uid, IsSyntax};
ghost use Rattle.dr_plan_core.specs.Reading.{IsTypable};
ghost use Rattle.dr_plan_core.specs.Spelling.{written_row, written_node, written_flow};

use dr_base::{Seq, Syntax, Text};
use dr_plan_model::{Flow, Node};
use dr_plan_text::{AcceptText, FlowText, NodeText};
use dr_route::AcceptRow;
use std::alloc::{AllocError, Global};

/// The transfer syntaxes of these UIDs.
fn syntaxes_of(alloc: Global, uids: &[Text]) -> Result<Seq<Syntax>, AllocError>
    requires { All IsSyntax uids.now }
    ensures { IfOk result (λ syntaxes. map syntax_uid syntaxes ≡ uids.now) }
{
    let mut syntaxes = Vec::new(alloc);
    for uid in uids {
        let Some(syntax) = Syntax::of_uid(uid.as_bytes()) else {
            unreachable!();
        };
        syntaxes.push(syntax)?;
    }
    Ok(Seq::from_vec(syntaxes))
}

fn row_of(alloc: Global, row: AcceptText) -> Result<AcceptRow, AllocError>
    requires { All IsSyntax row.syntaxes }
    ensures { IfOk result (λ typed. written_row typed ≡ row) }
{
    let AcceptText {
        from,
        class,
        syntaxes,
    } = row;
    Ok(AcceptRow {
        from,
        class,
        syntaxes: syntaxes_of(alloc, syntaxes.as_slice())?,
    })
}

fn rows_of(alloc: Global, rows: Seq<AcceptText>) -> Result<Seq<AcceptRow>, AllocError>
    requires { All (λ row. All IsSyntax row.syntaxes) rows }
    ensures { IfOk result (λ typed. map written_row typed ≡ rows) }
{
    let mut typed = Vec::new(alloc);
    for row in rows.into_vec() {
        typed.push(row_of(alloc, row)?)?;
    }
    Ok(Seq::from_vec(typed))
}

fn node_of(alloc: Global, node: NodeText) -> Result<Node, AllocError>
    requires { IsTypable node }
    ensures { IfOk result (λ typed. written_node typed ≡ node) }
{
    let NodeText {
        name,
        listens,
        max_pdu,
        accepts,
        rules,
    } = node;
    Ok(Node {
        name,
        listens,
        max_pdu: max_pdu as u32,
        accepts: rows_of(alloc, accepts)?,
        rules,
    })
}

/// The nodes of a plan that is within its limits and knows its transfer syntaxes.
pub fn nodes_of(alloc: Global, nodes: Seq<NodeText>) -> Result<Seq<Node>, AllocError>
    requires { All IsTypable nodes }
    ensures memory { OnErr result (nodes ≢ []) }
    ensures nodes { IfOk result (λ typed. map written_node typed ≡ nodes) }
{
    let mut typed = Vec::new(alloc);
    for node in nodes.into_vec() {
        typed.push(node_of(alloc, node)?)?;
    }
    Ok(Seq::from_vec(typed))
}

fn flow_of(alloc: Global, flow: FlowText) -> Result<Flow, AllocError>
    requires { All IsSyntax flow.syntaxes }
    ensures { IfOk result (λ typed. written_flow typed ≡ flow) }
{
    let FlowText {
        at,
        to,
        classes,
        syntaxes,
        modalities,
        stations,
    } = flow;
    Ok(Flow {
        at,
        to,
        classes,
        syntaxes: syntaxes_of(alloc, syntaxes.as_slice())?,
        modalities,
        stations,
    })
}

/// The flows of a plan that knows its transfer syntaxes.
pub fn flows_of(alloc: Global, flows: Seq<FlowText>) -> Result<Seq<Flow>, AllocError>
    requires { All (λ flow. All IsSyntax flow.syntaxes) flows }
    ensures memory { OnErr result (flows ≢ []) }
    ensures flows { IfOk result (λ typed. map written_flow typed ≡ flows) }
{
    let mut typed = Vec::new(alloc);
    for flow in flows.into_vec() {
        typed.push(flow_of(alloc, flow)?)?;
    }
    Ok(Seq::from_vec(typed))
}
