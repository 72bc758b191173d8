//! The plan that a text writes as it stands.
ghost use Rattle.dr_plan_core.specs.Reading.{Passes, ReadsCore};

use crate::fault::PlanFault;
use crate::limits::is_within_limits;
use crate::names::{Among, WellFormed, each_name, names_of};
use crate::routes::sends_elsewhere;
use crate::syntaxes::knows_syntaxes;
use crate::typed::{flows_of, nodes_of};
use dr_plan_model::Plan;
use dr_plan_text::{PlanText, read_text};
use sha2::{Digest, Sha256};
use std::alloc::Global;

/// The first fault that a plan has beside those of its fields.
fn pass(alloc: Global, plan: &PlanText) -> Result<(), PlanFault>
    ensures { Passes plan.now result }
{
    if !knows_syntaxes(plan) {
        return Err(PlanFault::Syntax);
    }
    if !each_name(&WellFormed, plan) {
        return Err(PlanFault::Name);
    }
    let Some(names) = names_of(alloc, plan.nodes.as_slice())? else {
        return Err(PlanFault::Name);
    };
    if !is_within_limits(plan) {
        return Err(PlanFault::Limit);
    }
    if !each_name(&Among(&names), plan) {
        return Err(PlanFault::UnknownNode);
    }
    if !sends_elsewhere(plan) {
        return Err(PlanFault::SelfRoute);
    }
    Ok(())
}

/// The plan that the text writes as it stands, with the text's SHA-256, or its first fault in the
/// order of `PlanFault`. Memory is answered only where a growth was refused, and never for the
/// empty text.
pub fn read_core(alloc: Global, text: &[u8]) -> Result<Plan, PlanFault>
    ensures { ReadsCore text.now result }
{
    let written = read_text(alloc, text)?;
    pass(alloc, &written)?;
    let PlanText {
        format,
        nodes,
        flows,
    } = written;
    let nodes = nodes_of(alloc, nodes)?;
    let flows = flows_of(alloc, flows)?;
    let plan = Plan::new(alloc, format, nodes, flows, Sha256::digest(text))?;
    Ok(plan)
}
