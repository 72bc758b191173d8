//! Whether one row holds.
ghost use Rattle.std.specs.Prelude.{◌≡◌, IfOk};
ghost use Rattle.dr_cert_expect.specs.declared.answer.Case.{Case as CaseValue};
ghost use Rattle.dr_cert_expect.specs.declared.answer.Lack.TheVariants as lacks;
ghost use Rattle.dr_cert_expect.specs.declared.row.Finding.TheVariants.{Lacks};
ghost use Rattle.dr_cert_expect.specs.Expected.{SpeaksOf};
ghost use Rattle.dr_cert_expect.specs.Looking.{FindsAt, LooksAt, LooksOver};

use crate::answer::{Case, Lack};
use crate::names::{first_inside, first_outside};
use crate::sample::sample;
use crate::speaking::speaks_of;
use dr_base::Text;
use dr_cert::Sealed;
use dr_cert_trace::{Reach, reach_of};
use dr_plan_expect::Expectation;
use dr_plan_sound::Line;
use dr_route::{Key, is_local};
use std::alloc::{AllocError, Global};

/// What comes of a key of which a row speaks.
#[derive(Drop)]
pub enum Finding {
    /// It doesn't enter there.
    Other,
    /// It is as the row asks.
    Met,
    /// It isn't.
    Lacks(Lack),
}

/// The case of the key that enters at the site.
fn case_of(site: &Text, key: &Key) -> Result<Case, AllocError>
    ensures { IfOk result (λ case. (case.site ≡ site.now) × (case.key ≡ key.now)) }
{
    let site = site.clone()?;
    let key = key.clone()?;
    Ok(Case { site, key })
}

/// That the node of the name doesn't keep the key.
fn lacks_keep(name: &Text, site: &Text, key: &Key) -> Result<Finding, AllocError>
    ensures { IfOk result (λ finding. (case : CaseValue)
        × (finding ≡ Lacks (lacks.Keep name.now case))
        × (case.site ≡ site.now) × (case.key ≡ key.now)) }
{
    let name = name.clone()?;
    let case = case_of(site, key)?;
    Ok(Finding::Lacks(Lack::Keep(name, case)))
}

/// That the key comes to the node of the name.
fn lacks_never(name: &Text, site: &Text, key: &Key) -> Result<Finding, AllocError>
    ensures { IfOk result (λ finding. (case : CaseValue)
        × (finding ≡ Lacks (lacks.Never name.now case))
        × (case.site ≡ site.now) × (case.key ≡ key.now)) }
{
    let name = name.clone()?;
    let case = case_of(site, key)?;
    Ok(Finding::Lacks(Lack::Never(name, case)))
}

/// What comes of the key, of which the row speaks, where it enters at the site.
fn judge(
    alloc: Global,
    sealed: &Sealed,
    row: &Expectation,
    site: &Text,
    key: &Key,
) -> Result<Finding, AllocError>
    requires { SpeaksOf row.now site.now key.now }
    ensures { IfOk result (FindsAt sealed.now.plan row.now site.now key.now) }
{
    let Some(reach) = reach_of(alloc, sealed, site, key)? else {
        return Ok(Finding::Other);
    };
    if let Some(name) = first_outside(row.keep.as_slice(), reach.keeps.as_slice()) {
        let lack = lacks_keep(name, site, key)?;
        return Ok(lack);
    }
    if let Some(name) = first_inside(row.never.as_slice(), reach.nodes.as_slice()) {
        let lack = lacks_never(name, site, key)?;
        return Ok(lack);
    }
    Ok(Finding::Met)
}

/// What the row lacks of the keys of a line's cell that enter at its node; whether there is one is
/// noted.
fn look_at(
    alloc: Global,
    sealed: &Sealed,
    row: &Expectation,
    line: &Line,
    found: &mut bool,
) -> Result<Option<Lack>, AllocError>
    ensures { IfOk result (LooksAt sealed.now.plan row.now line.now found.old found.new) }
{
    let _plan = sealed.plan();
    let stop = &line.stop;
    if !is_local(&stop.caller) {
        return Ok(None);
    }
    let key = sample(alloc, row, &stop.cell)?;
    if !speaks_of(row, &stop.node, &key) {
        return Ok(None);
    }
    match judge(alloc, sealed, row, &stop.node, &key)? {
        Finding::Other => Ok(None),
        Finding::Met => {
            *found = true;
            Ok(None)
        }
        Finding::Lacks(lack) => Ok(Some(lack)),
    }
}

/// What the row lacks; None where it holds. Each line of the certificate is looked at once.
pub fn look_over(
    alloc: Global,
    sealed: &Sealed,
    row: &Expectation,
) -> Result<Option<Lack>, AllocError>
    ensures { IfOk result (LooksOver sealed.now.plan row.now) }
{
    let _plan = sealed.plan();
    let mut found = false;
    for line in sealed.certificate().lines.as_slice() {
        if let Some(lack) = look_at(alloc, sealed, row, line, &mut found)? {
            return Ok(Some(lack));
        }
    }
    if !found {
        return Ok(Some(Lack::Nothing));
    }
    Ok(None)
}
