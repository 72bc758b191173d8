//! The names of a plan's nodes.
ghost use Rattle.std.specs.Prelude.{◌≡◌, IfOk, map as mapped};
ghost use Rattle.dr_plan_model.specs.Plans.{AreNames};

use crate::plan::Plan;
use dr_base::Text;
use std::alloc::{AllocError, Global};

/// The names of the plan's nodes, in the order of its text.
fn names_in(alloc: Global, plan: &Plan) -> Result<Vec<Text>, AllocError>
    ensures { IfOk result (λ names. names.items ≡ mapped (λ node. node.name) plan.now.nodes) }
{
    let mut names = Vec::new(alloc);
    for node in plan.nodes() {
        names.push(node.name.clone()?)?;
    }
    Ok(names)
}

/// The names of the plan's nodes, in byte order. It fails for want of memory alone.
pub fn names_of(alloc: Global, plan: &Plan) -> Result<Vec<Text>, AllocError>
    ensures { IfOk result (λ names. AreNames plan.now names.items) }
{
    let mut names = names_in(alloc, plan)?;
    names.sort_unstable();
    Ok(names)
}
