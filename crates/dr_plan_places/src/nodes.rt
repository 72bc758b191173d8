//! Nodes by their names.
ghost use Rattle.std.specs.Prelude.{◌≡◌, ◌≢◌, ◌↔◌, IsTrue, AllPairs, Contains, MatchOption, map};
ghost use Rattle.dr_plan_core.specs.Reading.{node_names};
ghost use Rattle.dr_plan_places.specs.Placed.{AreTwins};

use crate::first::{Look, TextTest, first};
use dr_base::Text;
use dr_plan_text::{NodeText, PlanText};

/// A search for a node of this name.
#[derive(Drop)]
struct NodeOfName<'a>(&'a Text);

impl<'a> Look for NodeOfName<'a> {
    type Value = NodeText;

    type Place = ();

    ghost is_free = { λ look node. node.name ≢ look.0.now };

    ghost is_at = { λ look node _. node.name ≡ look.0.now };

    fn look(&self, node: &NodeText) -> Option<()> {
        if node.name == *self.0 {
            return Some(());
        }
        None
    }
}

/// Whether some node has this name.
fn has_node(nodes: &[NodeText], name: &Text) -> bool
    ensures { IsTrue result ↔ Contains (map (λ node. node.name) nodes.now) name.now }
{
    match first(&NodeOfName(name), nodes) {
        Some(_) => true,
        None => false,
    }
}

/// A name is that of one of the plan's nodes.
#[derive(Drop)]
pub struct AmongNodes<'a>(pub &'a PlanText);

impl<'a> TextTest for AmongNodes<'a> {
    ghost holds = { λ among name. Contains (node_names among.0.now) name };

    fn test(&self, name: &Text) -> bool {
        has_node(self.0.nodes.as_slice(), name)
    }
}

/// Two nodes of one name, and None where there are none: the first node whose name stands before
/// it, and the first node that has it.
pub fn twins_in(nodes: &[NodeText]) -> Option<(usize, usize)>
    ensures { MatchOption result (AllPairs (λ a b. a ≢ b) (map (λ node. node.name) nodes.now))
        (λ twins. AreTwins nodes.now twins.0 twins.1) }
{
    for (late, node) in nodes.iter().enumerate() {
        if let Some((early, ())) = first(&NodeOfName(&node.name), &nodes[..late]) {
            return Some((early, late));
        }
    }
    None
}
