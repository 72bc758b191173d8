//! The transfer syntaxes of a plan.
ghost use Rattle.std.specs.Prelude.{◌≡◌, ◌↔◌, IsTrue, All};
ghost use Rattle.dr_plan_core.specs.Reading.{KnowsSyntaxes};
ghost use Rattle.dr_base.specs.Syntaxes.{IsSyntax};

use dr_base::{Syntax, Text};
use dr_plan_text::{AcceptText, FlowText, NodeText, PlanText};

/// Whether it is the UID of one of the two transfer syntaxes.
pub fn is_syntax(uid: &Text) -> bool
    ensures { IsTrue result ↔ IsSyntax uid.now }
{
    Syntax::of_uid(uid.as_bytes()).is_some()
}

/// Whether each of them is.
fn are_syntaxes(uids: &[Text]) -> bool
    ensures { IsTrue result ↔ All IsSyntax uids.now }
{
    uids.iter().all(|uid| is_syntax(uid))
}

fn rows_know(rows: &[AcceptText]) -> bool
    ensures { IsTrue result ↔ All (λ row. All IsSyntax row.syntaxes) rows.now }
{
    rows.iter().all(|row| are_syntaxes(row.syntaxes.as_slice()))
}

fn nodes_know(nodes: &[NodeText]) -> bool
    ensures { IsTrue result
        ↔ All (λ node. All (λ row. All IsSyntax row.syntaxes) node.accepts) nodes.now }
{
    nodes.iter().all(|node| rows_know(node.accepts.as_slice()))
}

fn flows_know(flows: &[FlowText]) -> bool
    ensures { IsTrue result ↔ All (λ flow. All IsSyntax flow.syntaxes) flows.now }
{
    flows
        .iter()
        .all(|flow| are_syntaxes(flow.syntaxes.as_slice()))
}

/// Whether each transfer syntax of the plan is one of the two that are routed.
pub fn knows_syntaxes(plan: &PlanText) -> bool
    ensures { IsTrue result ↔ KnowsSyntaxes plan.now }
{
    nodes_know(plan.nodes.as_slice()) && flows_know(plan.flows.as_slice())
}
