//! A desk that takes another plan.
ghost use Rattle.std.specs.Prelude.{◌≡◌, IfOk, MatchResult};
ghost use Rattle.dr_desk.specs.Adoptions.{AnswersPlan, IsAsItWas, RefusesPlan, StillStands};
ghost use Rattle.dr_desk.specs.Adoptions.{untaken_by};
ghost use Rattle.dr_ledger.specs.Adopting.{IsFit};
ghost use Rattle.dr_plan_model.specs.Plans.{NamesNoNode};
ghost use Rattle.dr_site.specs.Parts.{IsPartOf};

use crate::desk::Desk;
use dr_base::Text;
use dr_cert::Sealed;
use dr_ledger::{Ledger, LedgerFault};
use dr_site::{Site, SiteFault};
use std::alloc::Global;
use thiserror::Error;

/// Why a desk doesn't take another plan. After each of them its ledger is as it was.
#[derive(PartialEq, Eq, Debug, Error, Drop)]
pub enum AdoptFault {
    /// The plan has no node of the ledger's name.
    #[error("NoNode")]
    NoNode,
    /// The plan doesn't go on with a row that waits or is held, the first by uid and destination.
    #[error("U1 Unfit")]
    Unfit { uid: Text, dest: Text },
    /// The ledger's store failed.
    #[error("G3 Store")]
    Store,
    #[error("Memory")]
    Memory,
}

/// What a ledger's fault is to who has it take a plan.
pub(crate) fn untaken(why: LedgerFault) -> AdoptFault
    ensures { result ≡ untaken_by why }
{
    match why {
        LedgerFault::Store => AdoptFault::Store,
        LedgerFault::Memory
        | LedgerFault::NoLine
        | LedgerFault::Conflict
        | LedgerFault::NotWaiting
        | LedgerFault::NotHeld
        | LedgerFault::NotOver => AdoptFault::Memory,
    }
}

/// Tests that the plan, which has the ledger's node, goes on with all its rows.
pub(crate) fn test_rows<L: Ledger>(ledger: &mut L, next: &Sealed) -> Result<(), AdoptFault>
    requires { NamesNoNode next.now.plan (L.site ledger.old).name → ⊥ }
    ensures same { IsAsItWas L.site L.book L.bodies L.stands L.failed ledger.old ledger.new }
    ensures fit { MatchResult result
        (λ _. L.stands ledger.new
        → IsFit next.now.plan (L.site ledger.old).name (L.book ledger.old))
        (λ why.
        RefusesPlan L.site L.book L.bodies L.stands L.failed next.now.plan why ledger.old
        ledger.new) }
    ensures lasts { StillStands result (L.trusts ledger.old) (L.trusts ledger.new)
        (L.stands ledger.old) (L.stands ledger.new) }
{
    match ledger.unfit(next) {
        Ok(None) => Ok(()),
        Ok(Some((uid, dest))) => Err(AdoptFault::Unfit { uid, dest }),
        Err(why) => Err(untaken(why)),
    }
}

/// The part of the node of that name of the plan, for the ledger and for its caller.
fn parts_of(alloc: Global, next: &Sealed, name: &Text) -> Result<(Site, Site), SiteFault>
    ensures { IfOk result (λ parts. IsPartOf next.now.plan next.now.certificate parts.0
        × (parts.0.name ≡ name.now) × (parts.1 ≡ parts.0)) }
{
    let own = Site::of(alloc, next, name)?;
    match own.copy() {
        Ok(copy) => Ok((own, copy)),
        Err(_) => {
            drop(own);
            Err(SiteFault::Memory)
        }
    }
}

/// The ledger goes over to that part of the plan, which goes on with all its rows.
fn go_over<L: Ledger>(
    ledger: &mut L,
    next: &Sealed,
    own: Site,
    copy: Site,
) -> Result<Site, AdoptFault>
    requires node { NamesNoNode next.now.plan (L.site ledger.old).name → ⊥ }
    requires part { IsPartOf next.now.plan next.now.certificate own }
    requires name { own.name ≡ (L.site ledger.old).name }
    requires fit { L.stands ledger.old → IsFit next.now.plan own.name (L.book ledger.old) }
    requires copy { copy ≡ own }
    ensures answers { AnswersPlan L.site L.book L.bodies L.stands L.failed next.now result
        ledger.old ledger.new }
    ensures lasts { StillStands result (L.trusts ledger.old) (L.trusts ledger.new)
        (L.stands ledger.old) (L.stands ledger.new) }
{
    match ledger.adopt(next, own) {
        Ok(()) => Ok(copy),
        Err(why) => {
            drop(copy);
            Err(untaken(why))
        }
    }
}

/// The ledger takes the plan, which has its node, and goes on with all its rows.
pub(crate) fn take<L: Ledger>(
    ledger: &mut L,
    alloc: Global,
    next: &Sealed,
    name: &Text,
) -> Result<Site, AdoptFault>
    requires node { NamesNoNode next.now.plan (L.site ledger.old).name → ⊥ }
    requires name { name.now ≡ (L.site ledger.old).name }
    requires fit { L.stands ledger.old
        → IsFit next.now.plan (L.site ledger.old).name (L.book ledger.old) }
    ensures answers { AnswersPlan L.site L.book L.bodies L.stands L.failed next.now result
        ledger.old ledger.new }
    ensures lasts { StillStands result (L.trusts ledger.old) (L.trusts ledger.new)
        (L.stands ledger.old) (L.stands ledger.new) }
{
    match parts_of(alloc, next, name) {
        Ok((own, copy)) => go_over(ledger, next, own, copy),
        Err(_) => Err(AdoptFault::Memory),
    }
}

/// The ledger takes the plan, or says why it doesn't; `site` is its site in force.
///
/// Errors: as `Desk::adopt`.
fn adopt_by<L: Ledger>(
    ledger: &mut L,
    alloc: Global,
    site: &Site,
    next: &Sealed,
) -> Result<Site, AdoptFault>
    requires { L.site ledger.old ≡ site.now }
    ensures answers { AnswersPlan L.site L.book L.bodies L.stands L.failed next.now result
        ledger.old ledger.new }
    ensures lasts { StillStands result (L.trusts ledger.old) (L.trusts ledger.new)
        (L.stands ledger.old) (L.stands ledger.new) }
{
    let Some(_) = next.plan().node(site.name()) else {
        return Err(AdoptFault::NoNode);
    };
    match test_rows(ledger, next) {
        Ok(()) => take(ledger, alloc, next, site.name()),
        Err(why) => Err(why),
    }
}

impl<L: Ledger> Desk<L> {
    /// The desk takes the next plan; `site` is the site in force, which its ledger is of. From then
    /// on its calls are those of the site that is answered: arrivals and rows that are done or
    /// dropped have left the book, and what waits or is held is carried over.
    ///
    /// A desk that is shared lies under its lock, and nobody has it: so no association is open on
    /// it. `SharedDesk::close` gives it back, and compares the receipts of the passes that came.
    /// Passes that are out are of that sharing; by their type no later one takes them.
    ///
    /// Errors, in this order: NoNode, where the plan has no such node; Unfit, where it doesn't go
    /// on with a row; Store; Memory. The last two may come before the rows are known. After each of
    /// them the ledger is as it was.
    pub fn adopt(&mut self, alloc: Global, site: &Site, next: &Sealed) -> Result<Site, AdoptFault>
        requires { L.site self.old.ledger ≡ site.now }
        ensures answers { AnswersPlan L.site L.book L.bodies L.stands L.failed next.now result
            self.old.ledger self.new.ledger }
        ensures lasts { StillStands result (L.trusts self.old.ledger) (L.trusts self.new.ledger)
            (L.stands self.old.ledger) (L.stands self.new.ledger) }
    {
        adopt_by(&mut self.ledger, alloc, site, next)
    }
}
