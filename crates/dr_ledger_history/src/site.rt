//! Whether a line is one that the node of a site adds.
ghost use Rattle.std.specs.Prelude.{◌≡◌, ◌↔◌, IfOk, IsTrue};
ghost use Rattle.dr_ledger.specs.SiteRoutes.{site_routing};
ghost use Rattle.dr_site.specs.Routing.{HasLineFor};
ghost use Rattle.dr_ledger_history.specs.Lines.{line_of};
ghost use Rattle.dr_ledger_history.specs.Takings.{IsBy};

use crate::line::JournalLine;
use dr_base::Text;
use dr_base::same::are_same;
use dr_route::Key;
use dr_site::Site;
use std::alloc::{AllocError, Global};

/// Whether the node of the site adds the line, whatever its book: an arrival has the targets that
/// the site gives, and an adoption ends the site.
pub fn is_by(alloc: Global, site: &Site, line: &JournalLine) -> Result<bool, AllocError>
    ensures { IfOk result (λ by. IsTrue by ↔ IsBy (site_routing site.now) (line_of line.now)) }
{
    match line {
        JournalLine::Arrival {
            caller,
            instance,
            to,
            keep,
        } => is_arrival_by(alloc, site, caller, &instance.key, to.as_slice(), *keep),
        JournalLine::Repeat { caller, instance } => Ok(site.has_line(caller, &instance.key)),
        JournalLine::Settling { .. } => Ok(true),
        JournalLine::Requeuing { .. } => Ok(true),
        JournalLine::Dropping { .. } => Ok(true),
        JournalLine::Forgetting { .. } => Ok(true),
        JournalLine::Adoption => Ok(false),
    }
}

/// Whether the site has a line for what arrives, and gives it just these targets.
fn is_arrival_by(
    alloc: Global,
    site: &Site,
    caller: &Text,
    key: &Key,
    to: &[Text],
    keep: bool,
) -> Result<bool, AllocError>
    ensures { IfOk result (λ by. IsTrue by
        ↔ (HasLineFor site.now caller.now key.now
        × (to.now ≡ (site_routing site.now).targets caller.now key.now)
        × (keep ≡ (site_routing site.now).keeps caller.now key.now))) }
{
    if !site.has_line(caller, key) {
        return Ok(false);
    }
    let targets = site.targets(alloc, caller, key)?;
    if keep != targets.keep {
        return Ok(false);
    }
    Ok(are_same(to, targets.to.as_slice()))
}
