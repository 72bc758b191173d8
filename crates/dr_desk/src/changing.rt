//! A desk that threads share takes another plan.
ghost use Rattle.std.specs.Prelude.{◌≡◌, ◌≤◌, ◌+◌, All, IfErr, IfOk, OnOk, length, map as mapped};
ghost use Rattle.std.specs.Prelude.{sum_by};
ghost use Rattle.std.specs.List.{AllByRecursion, flat_map};
ghost use Rattle.dr_desk.specs.Adoptions.{HasTaken, IsAsItWas, RefusesPlan};
ghost use Rattle.dr_desk.specs.Agreeing.{AreApart, IsOfLine, Rises, numbers};
ghost use Rattle.dr_desk.specs.Changes.{EndsByPlan, RefusesChange, StaysBy, StaysShared};
ghost use Rattle.dr_desk.specs.Changes.{disagreed_by};
ghost use Rattle.dr_desk.specs.Endings.{AreTallied};
ghost use Rattle.dr_desk.specs.declared.adopting.AdoptFault.{AdoptFault as AdoptFaultValue};
ghost use Rattle.dr_ledger.specs.Adopting.{IsFit};
ghost use Rattle.dr_ledger.specs.Replies.{entry_of};
ghost use Rattle.dr_plan_model.specs.Networks.{Network};
ghost use Rattle.dr_plan_model.specs.Plans.{NamesNoNode};

use crate::adopting::{AdoptFault, take, test_rows, untaken};
use crate::closing::{AgreeFault, CloseFault, ReceiptMismatch, agree, joined};
use crate::desk::Desk;
use crate::held::HeldDesk;
use crate::pass::Pass;
use crate::shared::SharedDesk;
use crate::sharing::Sharing;
use dr_cert::Sealed;
use dr_ledger::Ledger;
use dr_ledger_views::Views;
use dr_site::Site;
use std::alloc::Global;
use std::sync::Mutex;
use thiserror::Error;

/// Why a shared desk doesn't take another plan. After each of them it is shared as before.
#[derive(PartialEq, Eq, Debug, Error, Drop)]
pub enum ChangeFault {
    #[error("{0}")]
    Plan(AdoptFault),
    #[error("J1 Receipt")]
    Receipt(ReceiptMismatch),
}

/// A desk that has taken another plan, and is no longer shared: its site from then on, the sum of
/// the lines that the passes count which came back, and how many passes were made.
#[derive(Drop)]
pub struct Changed<L> {
    pub desk: Desk<L>,
    pub site: Site,
    pub sum: u64,
    pub passes: u64,
}

/// A desk that has taken no other plan: why, the desk, which is shared as before, and the passes
/// that were handed in, which are still of it.
#[derive(Drop)]
pub struct NotChanged<L: Ledger, B: Sharing> {
    pub fault: ChangeFault,
    pub desk: SharedDesk<L, B>,
    pub passes: Vec<Pass<B>>,
}

/// What lies under the lock of a desk that has taken no other plan, and why.
#[derive(Drop)]
struct Unchanged<L: Ledger, B: Sharing> {
    fault: ChangeFault,
    held: HeldDesk<L, B>,
    passes: Vec<Pass<B>>,
}

/// What a disagreement is to who has a desk take a plan.
fn disagreed(why: CloseFault) -> ChangeFault
    ensures { result ≡ disagreed_by why }
{
    match why {
        CloseFault::Receipt(mismatch) => ChangeFault::Receipt(mismatch),
        CloseFault::Store | CloseFault::Memory => ChangeFault::Plan(AdoptFault::Memory),
    }
}

impl<L: Views, B: Sharing> HeldDesk<L, B> {
    /// Compares the receipts of the passes with the journal.
    fn compare(&mut self, alloc: Global, passes: &[Pass<B>]) -> Result<(), ChangeFault>
        ensures same { IsAsItWas L.site L.book L.bodies L.stands L.failed self.old.desk.ledger
            self.new.desk.ledger }
        ensures passes { self.new.passes ≡ self.old.passes }
        ensures of_lines { OnOk result (L.stands self.new.desk.ledger
            → AllByRecursion (λ p.
            All (IsOfLine (mapped entry_of (L.book self.new.desk.ledger).lines)) p.receipts.items)
            passes.now) }
        ensures rise { OnOk result (AllByRecursion (λ p. Rises p.receipts.items) passes.now) }
        ensures apart { OnOk result
            (AreApart (flat_map (λ p. numbers p.receipts.items) passes.now)) }
        ensures refuses { IfErr result (λ why.
            (plan : Network) → (NamesNoNode plan (L.site self.old.desk.ledger).name → ⊥)
            → (L.stands self.new.desk.ledger
            → IsFit plan (L.site self.old.desk.ledger).name (L.book self.old.desk.ledger))
            → RefusesChange L.site L.book L.bodies L.stands L.failed B.site B.first
            (λ lines. AllByRecursion (λ p. All (IsOfLine lines) p.receipts.items) passes.now)
            (AllByRecursion (λ p. Rises p.receipts.items) passes.now)
            (AreApart (flat_map (λ p. numbers p.receipts.items) passes.now))
            plan why self.old.desk.ledger self.new.desk.ledger) }
    {
        match agree(alloc, &mut self.desk.ledger, self.before, passes) {
            Ok(()) => Ok(()),
            Err(AgreeFault::Read(why)) => Err(ChangeFault::Plan(untaken(why))),
            Err(AgreeFault::Close(why)) => Err(disagreed(why)),
        }
    }

    /// The desk takes the plan, which has its node and goes on with all its rows, and is no longer
    /// shared.
    fn hand_over(
        self,
        alloc: Global,
        site: &Site,
        passes: Vec<Pass<B>>,
        next: &Sealed,
    ) -> Result<Changed<L>, Unchanged<L, B>>
        requires parts { B.all ≡ B.parts }
        requires node { NamesNoNode next.now.plan (L.site self.desk.ledger).name → ⊥ }
        requires site { site.now.name ≡ (L.site self.desk.ledger).name }
        requires fit { L.stands self.desk.ledger
            → IsFit next.now.plan (L.site self.desk.ledger).name (L.book self.desk.ledger) }
        ensures takes { IfOk result (λ c. HasTaken L.site L.book L.bodies L.stands L.failed
            next.now c.site self.desk.ledger c.desk.ledger) }
        ensures sum { IfOk result (λ c. c.sum ≡ sum_by (λ p. p.made.count) passes.items) }
        ensures some { IfOk result (λ c. L.stands c.desk.ledger
            → length B.first + c.sum + 1 ≤ length (L.book c.desk.ledger).lines) }
        ensures all { IfOk result (λ c. L.stands c.desk.ledger
            → length passes.items ≡ c.passes
            → length B.first + c.sum + 1 ≡ length (L.book c.desk.ledger).lines) }
        ensures passes { IfOk result (λ c. c.passes ≡ self.passes) }
        ensures few { IfOk result (λ c. length passes.items ≤ c.passes) }
        ensures refuses { IfErr result (λ e.
            (why : AdoptFaultValue) × (e.fault ≡ ChangeFault.Plan why)
            × RefusesPlan L.site L.book L.bodies L.stands L.failed next.now.plan why
            self.desk.ledger e.held.desk.ledger) }
        ensures same { IfErr result (λ e. IsAsItWas L.site L.book L.bodies L.stands L.failed
            self.desk.ledger e.held.desk.ledger) }
        ensures back { IfErr result (λ e. e.passes ≡ passes) }
    {
        let HeldDesk {
            desk,
            before,
            number,
            passes: made,
            full,
            tally,
            rest,
        } = self;
        let mut desk = desk;
        match take(&mut desk.ledger, alloc, next, site.name()) {
            Ok(site) => Ok(Changed {
                desk,
                site,
                sum: joined(tally, rest, passes),
                passes: made,
            }),
            Err(why) => Err(Unchanged {
                fault: ChangeFault::Plan(why),
                held: HeldDesk {
                    desk,
                    before,
                    number,
                    passes: made,
                    full,
                    tally,
                    rest,
                },
                passes,
            }),
        }
    }

    /// The desk takes the plan, and is no longer shared, as `SharedDesk::adopt`.
    fn change(
        self,
        alloc: Global,
        site: &Site,
        passes: Vec<Pass<B>>,
        next: &Sealed,
    ) -> Result<Changed<L>, Unchanged<L, B>>
        requires parts { B.all ≡ B.parts }
        requires site { B.site ≡ site.now }
        ensures ends { IfOk result (λ c. EndsByPlan L.site L.book L.bodies L.stands L.failed B.site
            B.first next.now c.site c.desk.ledger) }
        ensures tally { IfOk result (λ c. AreTallied passes.items (λ p. p.receipts.items)
            (λ p. p.made.count) (L.stands c.desk.ledger) (L.book c.desk.ledger).lines c.passes
            c.sum (length B.first + c.sum + 1)) }
        ensures passes { IfOk result (λ c. c.passes ≡ self.passes) }
        ensures stays { IfErr result (λ e.
            StaysBy L.site L.book L.bodies L.stands L.failed B.site B.first
            (λ lines. AllByRecursion (λ p. All (IsOfLine lines) p.receipts.items) passes.items)
            (AllByRecursion (λ p. Rises p.receipts.items) passes.items)
            (AreApart (flat_map (λ p. numbers p.receipts.items) passes.items))
            next.now.plan e.fault self.desk.ledger e.held.desk.ledger) }
        ensures back { IfErr result (λ e. e.passes ≡ passes) }
    {
        let mut held = self;
        let Some(_) = next.plan().node(site.name()) else {
            let fault = ChangeFault::Plan(AdoptFault::NoNode);
            return Err(Unchanged {
                fault,
                held,
                passes,
            });
        };
        if let Err(why) = test_rows(&mut held.desk.ledger, next) {
            let fault = ChangeFault::Plan(why);
            return Err(Unchanged {
                fault,
                held,
                passes,
            });
        }
        if let Err(fault) = held.compare(alloc, passes.as_slice()) {
            return Err(Unchanged {
                fault,
                held,
                passes,
            });
        }
        match held.hand_over(alloc, site, passes, next) {
            Ok(changed) => Ok(changed),
            Err(unchanged) => Err(unchanged),
        }
    }
}

impl<L: Views, B: Sharing> SharedDesk<L, B> {
    /// The desk takes the next plan, and is no longer shared: who has it by value is alone with
    /// what lies under the lock, and no call is under way. Its calls are those of the next site
    /// from then on. The receipts of the passes that came are compared with the journal as by
    /// `close`, and what they say stays true of it. Passes that are out are of the sharing that
    /// has ended; by their type no later one takes them.
    ///
    /// Errors, in this order: NoNode, where the plan has no such node; Unfit, where it doesn't go
    /// on with a row; Receipt, as by `close`; Store; Memory. The last two may come before the rows
    /// or the journal are known. After each of them the ledger is as it was; the desk is shared as
    /// before, and the passes are still of it.
    pub fn adopt(
        self,
        alloc: Global,
        passes: Vec<Pass<B>>,
        next: &Sealed,
    ) -> Result<Changed<L>, NotChanged<L, B>>
        requires parts { B.all ≡ B.parts }
        requires site { B.site ≡ self.site }
        ensures ends { IfOk result (λ c. EndsByPlan L.site L.book L.bodies L.stands L.failed B.site
            B.first next.now c.site c.desk.ledger) }
        ensures tally { IfOk result (λ c. AreTallied passes.items (λ p. p.receipts.items)
            (λ p. p.made.count) (L.stands c.desk.ledger) (L.book c.desk.ledger).lines c.passes
            c.sum (length B.first + c.sum + 1)) }
        ensures stays { IfErr result (λ e.
            StaysShared L.site L.book L.bodies L.stands L.failed B.site B.first
            (λ lines. AllByRecursion (λ p. All (IsOfLine lines) p.receipts.items) passes.items)
            (AllByRecursion (λ p. Rises p.receipts.items) passes.items)
            (AreApart (flat_map (λ p. numbers p.receipts.items) passes.items))
            next.now.plan e.fault) }
        ensures back { IfErr result (λ e. e.passes ≡ passes) }
        ensures site { IfErr result (λ e. e.desk.site ≡ self.site) }
    {
        let SharedDesk { site, held } = self;
        match held.into_inner().change(alloc, &site, passes, next) {
            Ok(changed) => {
                drop(site);
                Ok(changed)
            }
            Err(
                Unchanged {
                    fault,
                    held,
                    passes,
                },
            ) => Err(NotChanged {
                fault,
                desk: SharedDesk {
                    site,
                    held: Mutex::new(held),
                },
                passes,
            }),
        }
    }
}
