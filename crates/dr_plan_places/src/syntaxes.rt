//! The first transfer syntax of a plan that isn't routed.
ghost use Rattle.std.specs.Prelude.{◌↔◌, IsTrue, All, MatchOption};
ghost use Rattle.dr_plan_core.specs.Reading.{KnowsSyntaxes};
ghost use Rattle.dr_base.specs.Syntaxes.{IsSyntax};
ghost use Rattle.dr_plan_places.specs.Placed.{KnowsRow, KnowsNode, KnowsFlow, IsRowSyntaxAt};
ghost use Rattle.dr_plan_places.specs.Placed.{IsNodeSyntaxAt, IsFlowSyntaxAt, IsSyntaxAt};

use crate::first::{Look, TextTest, first, first_bad};
use dr_base::Text;
use dr_plan_core::is_syntax;
use dr_plan_text::{AcceptText, FlowText, NodeText, PlanText};

/// Where a transfer syntax stands in a plan; all indices count from 0.
#[derive(Clone, Copy, PartialEq, Eq)]
pub enum SyntaxPlace {
    /// In a node, an accept row, one of its syntaxes.
    Row(usize, usize, usize),
    /// In a flow, one of its syntaxes.
    Flow(usize, usize),
}

/// A transfer syntax is routed.
#[derive(Drop)]
struct IsRouted;

impl TextTest for IsRouted {
    ghost holds = { λ _ uid. IsSyntax uid };

    fn test(&self, uid: &Text) -> bool {
        is_syntax(uid)
    }
}

/// A search in accept rows.
#[derive(Drop)]
struct RowSyntaxes;

impl Look for RowSyntaxes {
    type Value = AcceptText;

    type Place = usize;

    ghost is_free = { λ _. KnowsRow };

    ghost is_at = { λ _. IsRowSyntaxAt };

    fn look(&self, row: &AcceptText) -> Option<usize> {
        first_bad(&IsRouted, row.syntaxes.as_slice())
    }
}

/// A search in nodes.
#[derive(Drop)]
struct NodeSyntaxes;

impl Look for NodeSyntaxes {
    type Value = NodeText;

    type Place = (usize, usize);

    ghost is_free = { λ _. KnowsNode };

    ghost is_at = { λ _. IsNodeSyntaxAt };

    fn look(&self, node: &NodeText) -> Option<(usize, usize)> {
        first(&RowSyntaxes, node.accepts.as_slice())
    }
}

/// A search in flows.
#[derive(Drop)]
struct FlowSyntaxes;

impl Look for FlowSyntaxes {
    type Value = FlowText;

    type Place = usize;

    ghost is_free = { λ _. KnowsFlow };

    ghost is_at = { λ _. IsFlowSyntaxAt };

    fn look(&self, flow: &FlowText) -> Option<usize> {
        first_bad(&IsRouted, flow.syntaxes.as_slice())
    }
}

/// The first transfer syntax of the plan that isn't routed, and None where each is.
pub fn syntax_in(plan: &PlanText) -> Option<SyntaxPlace>
    ensures { MatchOption result (KnowsSyntaxes plan.now) (IsSyntaxAt plan.now) }
{
    if let Some((node, (row, index))) = first(&NodeSyntaxes, plan.nodes.as_slice()) {
        return Some(SyntaxPlace::Row(node, row, index));
    }
    match first(&FlowSyntaxes, plan.flows.as_slice()) {
        Some((flow, index)) => Some(SyntaxPlace::Flow(flow, index)),
        None => None,
    }
}
