//! All faults of a plan: that of each entry from which a walk shows one.
ghost use Rattle.std.specs.Prelude.{◌≡◌, []};
ghost use Rattle.dr_plan_model.specs.Networks.{Network};
ghost use Rattle.dr_check.specs.AllFaults.{AnswersAll, AreCovered};
ghost use Rattle.dr_check.specs.Answering.{Judges};
ghost use Rattle.dr_check.specs.Gathering.{GathererIsReady};
ghost use Rattle.dr_check.specs.declared.verdict.Verdict.TheVariants.{No};

use crate::checker::{Checker, Stopped};
use crate::fault::Fault;
use crate::verdict::{CheckFault, Verdict, check};
use dr_base::{Seq, Text};
use dr_plan_entries::{EntryVisitor, visit_entries};
use dr_plan_model::Plan;
use dr_route::OwnedCell;
use std::alloc::{AllocError, Global};

/// One entry alone has more stops than a certificate may have lines.
#[derive(Clone, Copy, Debug, Drop)]
pub struct LargeEntry;

/// A gatherer of a plan's faults, between two entries.
#[derive(Drop)]
pub struct Gatherer<'a> {
    alloc: Global,
    plan: &'a Plan,
    faults: Seq<Fault>,
}

impl<'a> EntryVisitor for Gatherer<'a> {
    type Finding = LargeEntry;

    ghost use Rattle.dr_check.specs.Gathering.{GathererIsReady, HasGathered, ShowsLarge};

    ghost plan = { λ g. g.plan.now };

    ghost is_ready = { GathererIsReady };

    ghost has_visited = { HasGathered };

    ghost shows = { ShowsLarge };

    fn visit(&mut self, site: &Text, cell: &OwnedCell) -> Result<Option<LargeEntry>, AllocError> {
        let mut checker = Checker::new(self.alloc, self.plan)?;
        match checker.visit(site, cell)? {
            None => Ok(None),
            Some(Stopped::Fault(fault)) => {
                self.faults.push(fault)?;
                Ok(None)
            }
            Some(Stopped::TooLarge) => Ok(Some(LargeEntry)),
        }
    }
}

/// A gatherer that has visited nothing.
fn gatherer_of<'a>(alloc: Global, plan: &'a Plan) -> Gatherer<'a>
    ensures plan { result.plan.now ≡ plan.now }
    ensures ready { GathererIsReady result }
{
    Gatherer {
        alloc,
        plan,
        faults: Seq::new(alloc),
    }
}

/// The fault that the check names, alone.
fn alone(alloc: Global, fault: Fault) -> Result<Seq<Fault>, CheckFault>
    ensures { (plan : Network) → Judges plan (No fault) → AreCovered plan []
        → AnswersAll plan result }
{
    let mut faults = Seq::new(alloc);
    faults.push(fault)?;
    Ok(faults)
}

/// What the check names of a plan of which no entry shows a fault.
fn named_by_check(alloc: Global, plan: &Plan) -> Result<Seq<Fault>, CheckFault>
    requires { AreCovered plan.now [] }
    ensures { AnswersAll plan.now result }
{
    match check(alloc, plan) {
        Ok(Verdict::Yes(certificate)) => {
            drop(certificate);
            Ok(Seq::new(alloc))
        }
        Ok(Verdict::No(fault)) => alone(alloc, fault),
        Err(fault) => Err(fault),
    }
}

/// All faults of the plan: of each entry from which a walk shows one the fault that is named there,
/// in the order in which entries are visited; and where no walk shows one, that of the first hop
/// over which too many pairs go. TooLarge is answered where one entry has too many stops alone, or
/// where no walk shows a fault and all have too many.
pub fn all_faults(alloc: Global, plan: &Plan) -> Result<Seq<Fault>, CheckFault>
    ensures { AnswersAll plan.now result }
{
    let mut gatherer = gatherer_of(alloc, plan);
    match visit_entries(alloc, plan, &mut gatherer)? {
        Some(LargeEntry) => Err(CheckFault::TooLarge),
        None => {
            let Gatherer { faults, .. } = gatherer;
            if faults.is_empty() {
                return named_by_check(alloc, plan);
            }
            Ok(faults)
        }
    }
}
