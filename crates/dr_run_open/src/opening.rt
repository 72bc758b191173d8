//! A node's plan, certificate, site and ledger, opened one after the other.
ghost use Rattle.std.specs.Prelude.{◌≡◌, MatchResult};
ghost use Rattle.dr_site.specs.Parts.{IsPartOf};
ghost use Rattle.dr_run_open.specs.Openings.{HaltsAs, IsAt, IsNotThere, IsUnopened, SealsSecond};
ghost use Rattle.dr_run_open.specs.Openings.{SealsFiles, Sites};

use crate::halt::Halt;
use crate::ledgers::{Ledgers, Making};
use crate::sealing::{plan_of, seal_text};
use dr_base::Text;
use dr_cert::Sealed;
use dr_ledger::Ledger;
use dr_plan::Plan;
use dr_run_files::{Files, NodeFiles, read_file};
use dr_site::{Site, SiteFault};
use std::alloc::Global;

/// A node that was opened: the sealed plan, the node's site, and its ledger.
#[derive(Drop)]
pub struct Opened<L: Ledger + Drop> {
    pub sealed: Sealed,
    pub site: Site,
    pub ledger: L,
}

/// The plan of a text, sealed with the certificate whose text is in a file, which is read only
/// where the first text has a plan.
fn seal_plan<'a, F: Files>(
    alloc: Global,
    files: &F,
    plan: Plan,
    path: &'a str,
) -> Result<Sealed, Halt<'a>>
    ensures { SealsSecond (F.holds files.now path.now) plan result }
{
    let second = match read_file(alloc, files, path) {
        Ok(second) => second,
        Err(failure) => {
            drop(plan);
            return Err(Halt::Failed(failure));
        }
    };
    match seal_text(alloc, plan, second.as_slice()) {
        Ok(sealed) => Ok(sealed),
        Err(fault) => Err(Halt::NoCertificate(fault)),
    }
}

/// The plan in the first file, sealed with the certificate in the second.
///
/// Errors: NoPlan, NoCertificate, Failed.
pub fn seal_files<'a, F: Files>(
    alloc: Global,
    files: &F,
    plan: &'a str,
    certificate: &'a str,
) -> Result<Sealed, Halt<'a>>
    ensures { SealsFiles (F.holds files.now plan.now) (F.holds files.now certificate.now) result }
{
    let text = read_file(alloc, files, plan)?;
    let plan = match plan_of(alloc, text.as_slice()) {
        Ok(plan) => plan,
        Err(answer) => return Err(Halt::NoPlan(answer)),
    };
    seal_plan(alloc, files, plan, certificate)
}

/// The site of a node of the sealed plan.
fn site_of<'a>(alloc: Global, sealed: &Sealed, name: &str) -> Result<Site, Halt<'a>>
    ensures { Sites sealed.now name.now result }
{
    let name = Text::copy_of(alloc, name.as_bytes())?;
    match Site::of(alloc, sealed, &name) {
        Ok(site) => Ok(site),
        Err(SiteFault::NoNode) => Err(Halt::NoNode),
        Err(SiteFault::Memory) => Err(Halt::Memory),
    }
}

/// The ledger of a site, by the path.
///
/// Errors: NotOpened, Memory.
pub fn ledger_of<'a, O: Ledgers>(
    alloc: Global,
    ledgers: &O,
    path: &str,
    site: &Site,
    making: Making,
) -> Result<O::Ledger, Halt<'a>>
    ensures { MatchResult result
        (λ l. O.opens ledgers.now path.now l × (O.Ledger.site l ≡ site.now)) IsUnopened }
{
    let own = site.copy()?;
    match ledgers.open(alloc, path, own, making) {
        Ok(ledger) => Ok(ledger),
        Err(fault) => Err(Halt::NotOpened(fault)),
    }
}

/// The site of a node of the sealed plan, and its ledger.
fn open_site<'a, O: Ledgers>(
    alloc: Global,
    ledgers: &O,
    sealed: &Sealed,
    given: NodeFiles<'a>,
    making: Making,
) -> Result<(Site, O::Ledger), Halt<'a>>
    ensures { MatchResult result
        (λ o. IsPartOf sealed.now.plan sealed.now.certificate o.0
        × (o.0.name ≡ given.entry.node.now)
        × O.opens ledgers.now given.entry.ledger.now o.1
        × (O.Ledger.site o.1 ≡ o.0)) (IsNotThere sealed.now given.entry.node.now) }
{
    let site = site_of(alloc, sealed, given.node)?;
    match ledger_of(alloc, ledgers, given.ledger, &site, making) {
        Ok(ledger) => Ok((site, ledger)),
        Err(halt) => {
            drop(site);
            Err(halt)
        }
    }
}

/// Opens a node of the sealed plan.
fn open_sealed<'a, O: Ledgers>(
    alloc: Global,
    ledgers: &O,
    sealed: Sealed,
    given: NodeFiles<'a>,
    making: Making,
) -> Result<Opened<O::Ledger>, Halt<'a>>
    ensures { MatchResult result
        (λ o. (o.sealed ≡ sealed)
        × IsPartOf sealed.plan sealed.certificate o.site
        × (o.site.name ≡ given.entry.node.now)
        × O.opens ledgers.now given.entry.ledger.now o.ledger
        × (O.Ledger.site o.ledger ≡ o.site)) (IsNotThere sealed given.entry.node.now) }
{
    match open_site(alloc, ledgers, &sealed, given, making) {
        Ok((site, ledger)) => Ok(Opened {
            sealed,
            site,
            ledger,
        }),
        Err(halt) => {
            drop(sealed);
            Err(halt)
        }
    }
}

/// Opens a node: its plan and certificate are read and tested, then its site is taken, and then its
/// ledger is opened, or made where that may be. The first fault is the answer.
///
/// Errors: all but Refused.
pub fn open_node<'a, F: Files, O: Ledgers>(
    alloc: Global,
    files: &F,
    ledgers: &O,
    given: NodeFiles<'a>,
    making: Making,
) -> Result<Opened<O::Ledger>, Halt<'a>>
    ensures { MatchResult result
        (λ o. IsAt (F.holds files.now given.entry.plan.now)
        (F.holds files.now given.entry.certificate.now) (O.opens ledgers.now given.entry.ledger.now)
        O.Ledger.site given.entry.node.now o.sealed o.site o.ledger)
        (HaltsAs (F.holds files.now given.entry.plan.now)
        (F.holds files.now given.entry.certificate.now) given.entry.node.now) }
{
    let sealed = seal_files(alloc, files, given.plan, given.certificate)?;
    open_sealed(alloc, ledgers, sealed, given, making)
}
