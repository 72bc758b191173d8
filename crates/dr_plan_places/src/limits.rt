//! The limit that a plan doesn't keep.
ghost use Rattle.std.specs.Prelude.{◌≡◌, ◌↔◌, IsTrue, All, MatchOption};
ghost use Rattle.dr_plan_core.specs.Reading.{HasMaxPdu, IsWithinLimits};
ghost use Rattle.dr_plan_places.specs.Placed.{IsLimitAt};

use crate::first::{Look, first};
use dr_plan_text::{NodeText, PlanText};

/// Which limit a plan doesn't keep.
#[derive(Clone, Copy, PartialEq, Eq)]
pub enum LimitPlace {
    /// It has more than 64 nodes.
    Nodes,
    /// The `max_pdu` of the node at this index, which counts from 0, is out of its range.
    MaxPdu(usize),
    /// It has more than 1,024 rules and flows.
    Rules,
}

/// A search for a `max_pdu` out of its range.
#[derive(Drop)]
struct Lengths;

impl Look for Lengths {
    type Value = NodeText;

    type Place = ();

    ghost is_free = { λ _. HasMaxPdu };

    ghost is_at = { λ _ node _. HasMaxPdu node → ⊥ };

    fn look(&self, node: &NodeText) -> Option<()> {
        let bytes = node.max_pdu;
        if bytes == 0 {
            return None;
        }
        if bytes < 1024 {
            return Some(());
        }
        if bytes > 1048576 {
            return Some(());
        }
        None
    }
}

/// The limit that the plan doesn't keep.
pub fn limit_in(plan: &PlanText) -> LimitPlace
    requires { IsWithinLimits plan.now → ⊥ }
    ensures { IsLimitAt plan.now result }
{
    if plan.nodes.len() > 64 {
        return LimitPlace::Nodes;
    }
    match first(&Lengths, plan.nodes.as_slice()) {
        Some((node, ())) => LimitPlace::MaxPdu(node),
        None => LimitPlace::Rules,
    }
}
