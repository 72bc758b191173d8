//! Which nodes of the plan are ours.
ghost use Rattle.std.specs.Prelude.{◌≡◌, IfOk};
ghost use Rattle.dr_word_audit.specs.Names.{is_ours as is_own, our_names as own_names};

use dr_base::Text;
use dr_plan_model::{Node, Plan};
use dr_word_adopt::is_among;
use std::alloc::{AllocError, Global};

/// Whether the node is none of the others.
fn is_ours(others: &[Text], node: &Node) -> bool
    ensures { result ≡ is_own others.now node.now }
{
    !is_among(others, &node.name)
}

/// The names of our nodes, in the order of the plan's text.
pub fn our_names(alloc: Global, plan: &Plan, others: &[Text]) -> Result<Vec<Text>, AllocError>
    ensures { IfOk result (λ names. names.items ≡ own_names others.now plan.now.nodes) }
{
    let mut names = Vec::new(alloc);
    for node in plan.nodes() {
        if is_ours(others, node) {
            names.push(node.name.clone()?)?;
        }
    }
    Ok(names)
}
