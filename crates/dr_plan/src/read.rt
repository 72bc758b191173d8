//! The plan of a text.
ghost use Rattle.std.specs.Prelude.{◌≡◌, IfOk, IfErr, MatchOption};
ghost use Rattle.dr_plan.specs.Faults.{fault_of as plan_fault};
ghost use Rattle.dr_plan.specs.Reading.{Reads, IsOfThird, HasNoCore};
ghost use Rattle.dr_plan_expand.specs.Expanding.{Expands};

use dr_base::Text;
use dr_plan_core::{PlanFault, read_core};
use dr_plan_expand::ExpandFault;
use dr_plan_expand::expand::expand;
use dr_plan_expand::tables::is_third;
use dr_plan_model::Plan;
use std::alloc::Global;

/// The text to which a text of format 3 expands; None for a text of another format, and for what
/// isn't TOML.
pub fn core_of(alloc: Global, text: &[u8]) -> Result<Option<Text>, ExpandFault>
    ensures core { IfOk result (λ found.
        MatchOption found (IsOfThird text.now → ⊥) (Expands text.now)) }
    ensures none { IfErr result (HasNoCore text.now) }
{
    let root = match toml::table_from_slice(alloc, text) {
        Ok(root) => root,
        Err(fault) if fault.is_memory() => return Err(ExpandFault::Memory),
        Err(_) => return Ok(None),
    };
    if !is_third(&root) {
        return Ok(None);
    }
    match expand(alloc, &root) {
        Ok(core) => Ok(Some(core)),
        Err(fault) => Err(fault),
    }
}

/// Why a text is no plan that isn't expanded.
fn fault_of(fault: ExpandFault) -> PlanFault
    ensures { result ≡ plan_fault fault }
{
    match fault {
        ExpandFault::Field => PlanFault::Field,
        ExpandFault::Limit => PlanFault::Limit,
        ExpandFault::Unknown => PlanFault::UnknownName,
        ExpandFault::Memory => PlanFault::Memory,
    }
}

/// What is read of the text that was found to be read for it: the one to which it expands, or
/// itself.
fn read_found(alloc: Global, text: &[u8], found: Option<Text>) -> Result<Plan, PlanFault>
    requires { MatchOption found (IsOfThird text.now → ⊥) (Expands text.now) }
    ensures { Reads text.now result }
{
    match found {
        Some(core) => read_core(alloc, core.as_bytes()),
        None => read_core(alloc, text),
    }
}

/// The plan that the text writes, with the text's SHA-256, or the text's first fault in the order
/// of `PlanFault`. For a text of format 3 the text to which it expands is read, so that the SHA-256
/// is that text's. Memory is answered only where a growth was refused, and never for the empty
/// text.
pub fn read_plan(alloc: Global, text: &[u8]) -> Result<Plan, PlanFault>
    ensures { Reads text.now result }
{
    match core_of(alloc, text) {
        Ok(found) => read_found(alloc, text, found),
        Err(fault) => Err(fault_of(fault)),
    }
}
