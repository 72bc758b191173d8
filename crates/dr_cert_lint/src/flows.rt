//! What the flows of a plan bring.
ghost use Rattle.std.specs.Prelude.{◌≡◌, ◌↔◌, IsTrue, Contains};
ghost use Rattle.dr_cert_lint.specs.Bringing.{BringsClass, BringsIn, EntersAt, IsAgain};

use dr_base::same::Same;
use dr_base::{Syntax, Text};
use dr_plan_model::Flow;

/// Whether the flow is at the node.
fn is_at(flow: &Flow, name: &Text) -> bool
    ensures { IsTrue result ↔ (flow.now.at ≡ name.now) }
{
    flow.at == *name
}

/// Whether some flow is at the node.
pub fn is_entry(flows: &[Flow], name: &Text) -> bool
    ensures { IsTrue result ↔ EntersAt flows.now name.now }
{
    for flow in flows {
        if is_at(flow, name) {
            return true;
        }
    }
    false
}

/// Whether the flow has the class.
fn has_class(flow: &Flow, class: &Text) -> bool
    ensures { IsTrue result ↔ Contains flow.now.classes class.now }
{
    flow.classes.as_slice().contains(class)
}

/// Whether some flow brings the class.
pub fn brings(flows: &[Flow], class: &Text) -> bool
    ensures { IsTrue result ↔ BringsClass flows.now class.now }
{
    for flow in flows {
        if has_class(flow, class) {
            return true;
        }
    }
    false
}

/// Whether the flow brings the class in that transfer syntax.
fn is_brought_by(flow: &Flow, class: &Text, syntax: Syntax) -> bool
    ensures { IsTrue result
        ↔ (Contains flow.now.classes class.now × Contains flow.now.syntaxes syntax) }
{
    flow.classes.as_slice().contains(class) && flow.syntaxes.as_slice().contains(&syntax)
}

/// Whether some flow brings the class in that transfer syntax.
pub fn brings_in(flows: &[Flow], class: &Text, syntax: Syntax) -> bool
    ensures { IsTrue result ↔ BringsIn flows.now class.now syntax }
{
    for flow in flows {
        if is_brought_by(flow, class, syntax) {
            return true;
        }
    }
    false
}

/// Whether one of those is the same flow.
pub fn is_among(flows: &[Flow], flow: &Flow) -> bool
    ensures { IsTrue result ↔ IsAgain flows.now flow.now }
{
    for other in flows {
        if other.is_same(flow) {
            return true;
        }
    }
    false
}
