//! The limits of a plan.
ghost use Rattle.std.specs.Prelude.{◌≡◌, ◌+◌, ◌≤◌, ◌↔◌, IsTrue, All, length, sum_by};
ghost use Rattle.dr_plan_core.specs.Reading.{HasMaxPdu, IsWithinLimits};

use dr_plan_text::{NodeText, PlanText};

/// The most nodes that a plan has.
pub const MOST_NODES: usize = 64;

/// The most rules and flows that a plan has together.
pub const MOST_RULES: usize = 1024;

/// Whether the greatest length of a PDU is no limit, or 1,024 to 1,048,576 bytes.
fn has_max_pdu(node: &NodeText) -> bool
    ensures { IsTrue result ↔ HasMaxPdu node.now }
{
    let bytes = node.max_pdu;
    bytes == 0 || (1024 <= bytes && bytes <= 1048576)
}

fn have_max_pdu(nodes: &[NodeText]) -> bool
    ensures { IsTrue result ↔ All HasMaxPdu nodes.now }
{
    nodes.iter().all(|node| has_max_pdu(node))
}

/// Whether the rules of the nodes are no more than these.
fn are_at_most(nodes: &[NodeText], most: usize) -> bool
    ensures { IsTrue result ↔ (sum_by (λ node. length node.rules) nodes.now ≤ most) }
{
    let mut left = most;
    for node in nodes {
        let rules = node.rules.len();
        if rules > left {
            return false;
        }
        left -= rules;
    }
    true
}

/// Whether the plan has no more nodes, rules and flows than it may, and each `max_pdu` is in its
/// range.
pub fn is_within_limits(plan: &PlanText) -> bool
    ensures { IsTrue result ↔ IsWithinLimits plan.now }
{
    if plan.nodes.len() > MOST_NODES || plan.flows.len() > MOST_RULES {
        return false;
    }
    are_at_most(plan.nodes.as_slice(), MOST_RULES - plan.flows.len())
        && have_max_pdu(plan.nodes.as_slice())
}
