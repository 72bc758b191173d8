//! The text that `route` prints of a key.
ghost use Rattle.std.specs.Prelude.{IfOk};
ghost use Rattle.dr_plan_model.specs.Plans.{LiesIn};
ghost use Rattle.dr_cert_trace.specs.Routes.{IsRoute};

use crate::print::text_of;
use crate::tracing::trace;
use dr_base::Text;
use dr_cert::Sealed;
use dr_plan_model::Plan;
use dr_plan_model::literals::literals;
use dr_route::{Key, OwnedCell, cell_of};
use std::alloc::{AllocError, Global};

/// The cell of the plan that the key lies in.
fn cell_in(alloc: Global, plan: &Plan, key: &Key) -> Result<OwnedCell, AllocError>
    ensures { IfOk result (λ cell. LiesIn plan.now cell key.now) }
{
    let literals = literals(alloc, plan)?;
    let cell = cell_of(&literals, key).to_owned()?;
    Ok(cell)
}

/// The text of the journey of a key that enters at the site: its cell, how many hops it makes at
/// most, its hops and the nodes that keep it; None where no flow at the site fits the key.
///
/// Errors: want of memory.
pub fn route_text(
    alloc: Global,
    sealed: &Sealed,
    site: &Text,
    key: &Key,
) -> Result<Option<Text>, AllocError>
    ensures { IfOk result (IsRoute sealed.now.plan site.now key.now) }
{
    let Some(journey) = trace(alloc, sealed, site, key)? else {
        return Ok(None);
    };
    let cell = cell_in(alloc, sealed.plan(), key)?;
    let text = text_of(alloc, &cell, &journey)?;
    Ok(Some(text))
}
