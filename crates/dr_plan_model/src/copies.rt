//! Copies, each equal to what it is made of. What derives `Clone` says so of each of its parts.
ghost use Rattle.std.specs.Prelude.{◌≡◌, IfOk};

use crate::plan::Flow;
use dr_base::Seq;
use dr_route::{AcceptRow, Rule};
use std::alloc::AllocError;

/// A copy of a node's accept rows, in order. It fails for want of memory alone.
pub fn copy_accepts(accepts: &Seq<AcceptRow>) -> Result<Seq<AcceptRow>, AllocError>
    ensures { IfOk result (λ copy. copy ≡ accepts.now) }
{
    let copy = accepts.clone()?;
    Ok(copy)
}

/// A copy of a node's rules, in order. It fails for want of memory alone.
pub fn copy_rules(rules: &Seq<Rule>) -> Result<Seq<Rule>, AllocError>
    ensures { IfOk result (λ copy. copy ≡ rules.now) }
{
    let copy = rules.clone()?;
    Ok(copy)
}

/// A copy of a flow. It fails for want of memory alone.
pub fn copy_flow(flow: &Flow) -> Result<Flow, AllocError>
    ensures { IfOk result (λ copy. copy ≡ flow.now) }
{
    let copy = flow.clone()?;
    Ok(copy)
}

/// A copy of flows, in order. It fails for want of memory alone.
pub fn copy_flows(flows: &Seq<Flow>) -> Result<Seq<Flow>, AllocError>
    ensures { IfOk result (λ copy. copy ≡ flows.now) }
{
    let copy = flows.clone()?;
    Ok(copy)
}
