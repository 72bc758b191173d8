//! What the walk over all lines of a certificate has found.
ghost use Rattle.std.specs.Prelude.{IfOk};
ghost use Rattle.dr_cert.specs.Indexing.{AreSorted};
ghost use Rattle.dr_cert.specs.Finding.{FindsLines};

use crate::survey::Survey;
use crate::walker::Walker;
use dr_base::Text;
use dr_plan_entries::visit_entries;
use dr_plan_model::Plan;
use dr_plan_sound::Line;
use std::alloc::{AllocError, Global};

/// What was found of all stops to which a walk from an entry comes, and whether those are all
/// lines.
#[derive(Clone, Copy, Debug, Drop)]
pub struct Walked {
    pub survey: Survey,
    pub reached: bool,
}

/// Walks over the lines from all entries of the plan; None where a stop to which a walk comes has
/// no line.
pub fn walk_lines(alloc: Global, plan: &Plan, lines: &[Line]) -> Result<Option<Walked>, AllocError>
    requires { AreSorted lines.now }
    ensures { IfOk result (FindsLines plan.now lines.now) }
{
    let local = Text::copy_of(alloc, b"-")?;
    let mut walker = Walker::new(alloc, plan, lines, &local)?;
    match visit_entries(alloc, plan, &mut walker)? {
        Some(_) => return Ok(None),
        None => {}
    }
    let Some(survey) = walker.walk()? else {
        return Ok(None);
    };
    Ok(Some(Walked {
        survey,
        reached: walker.has_all(),
    }))
}
