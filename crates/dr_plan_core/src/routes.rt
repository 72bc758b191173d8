//! Rules and flows that go elsewhere.
ghost use Rattle.std.specs.Prelude.{◌≡◌, ◌≢◌, ◌↔◌, IsTrue, All};
ghost use Rattle.dr_plan_core.specs.Reading.{SendsElsewhere};

use dr_base::Text;
use dr_plan_text::{FlowText, NodeText, PlanText};
use dr_route::Rule;

fn is_absent(names: &[Text], name: &Text) -> bool
    ensures { IsTrue result ↔ All (λ to. to ≢ name.now) names.now }
{
    names.iter().all(|to| *to != *name)
}

fn rules_leave(rules: &[Rule], name: &Text) -> bool
    ensures { IsTrue result ↔ All (λ rule. All (λ to. to ≢ name.now) rule.to) rules.now }
{
    rules.iter().all(|rule| is_absent(rule.to.as_slice(), name))
}

fn nodes_leave(nodes: &[NodeText]) -> bool
    ensures { IsTrue result
        ↔ All (λ node. All (λ rule. All (λ to. to ≢ node.name) rule.to) node.rules) nodes.now }
{
    nodes
        .iter()
        .all(|node| rules_leave(node.rules.as_slice(), &node.name))
}

fn flows_leave(flows: &[FlowText]) -> bool
    ensures { IsTrue result ↔ All (λ flow. flow.at ≢ flow.to) flows.now }
{
    flows.iter().all(|flow| flow.at != flow.to)
}

/// Whether no rule and no flow goes to its own node.
pub fn sends_elsewhere(plan: &PlanText) -> bool
    ensures { IsTrue result ↔ SendsElsewhere plan.now }
{
    nodes_leave(plan.nodes.as_slice()) && flows_leave(plan.flows.as_slice())
}
