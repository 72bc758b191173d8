//! A rule or a flow that goes to its own node.
ghost use Rattle.std.specs.Prelude.{◌≡◌, ◌≢◌, ◌↔◌, IsTrue, All, MatchOption};
ghost use Rattle.dr_plan_core.specs.Reading.{SendsElsewhere};
ghost use Rattle.dr_plan_places.specs.Placed.{LeavesRule, LeavesNode, IsOwnTarget, IsOwnInNode};
ghost use Rattle.dr_plan_places.specs.Placed.{IsOwnAt};

use crate::first::{Look, TextTest, first, first_bad};
use dr_base::Text;
use dr_plan_text::{FlowText, NodeText, PlanText};
use dr_route::Rule;

/// What goes to its own node; all indices count from 0.
#[derive(Clone, Copy, PartialEq, Eq)]
pub enum OwnPlace {
    /// Of a node, a rule, by one of its targets.
    Rule(usize, usize, usize),
    /// A flow.
    Flow(usize),
}

/// A name isn't this one.
#[derive(Drop)]
struct Differs<'a>(&'a Text);

impl<'a> TextTest for Differs<'a> {
    ghost holds = { λ differs text. text ≢ differs.0.now };

    fn test(&self, text: &Text) -> bool {
        *text != *self.0
    }
}

/// A search in the rules of the node of this name.
#[derive(Drop)]
struct OwnTargets<'a>(&'a Text);

impl<'a> Look for OwnTargets<'a> {
    type Value = Rule;

    type Place = usize;

    ghost is_free = { λ look. LeavesRule look.0.now };

    ghost is_at = { λ look. IsOwnTarget look.0.now };

    fn look(&self, rule: &Rule) -> Option<usize> {
        first_bad(&Differs(self.0), rule.to.as_slice())
    }
}

/// A search in nodes.
#[derive(Drop)]
struct OwnRules;

impl Look for OwnRules {
    type Value = NodeText;

    type Place = (usize, usize);

    ghost is_free = { λ _. LeavesNode };

    ghost is_at = { λ _. IsOwnInNode };

    fn look(&self, node: &NodeText) -> Option<(usize, usize)> {
        first(&OwnTargets(&node.name), node.rules.as_slice())
    }
}

/// A search in flows.
#[derive(Drop)]
struct OwnFlows;

impl Look for OwnFlows {
    type Value = FlowText;

    type Place = ();

    ghost is_free = { λ _ flow. flow.at ≢ flow.to };

    ghost is_at = { λ _ flow _. flow.at ≡ flow.to };

    fn look(&self, flow: &FlowText) -> Option<()> {
        if flow.at == flow.to {
            return Some(());
        }
        None
    }
}

/// The first rule or flow that goes to its own node, and None where none does.
pub fn own_in(plan: &PlanText) -> Option<OwnPlace>
    ensures { MatchOption result (SendsElsewhere plan.now) (IsOwnAt plan.now) }
{
    if let Some((node, (rule, index))) = first(&OwnRules, plan.nodes.as_slice()) {
        return Some(OwnPlace::Rule(node, rule, index));
    }
    match first(&OwnFlows, plan.flows.as_slice()) {
        Some((flow, ())) => Some(OwnPlace::Flow(flow)),
        None => None,
    }
}
