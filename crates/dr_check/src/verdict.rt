//! The check of a whole plan.
ghost use Rattle.std.specs.Prelude.{◌≡◌, ◌≢◌, IfOk, AllPairs};
ghost use Rattle.dr_base.specs.Texts.{Text as Words};
ghost use Rattle.dr_route.specs.declared.cell.OwnedCell.{OwnedCell as CellValue};
ghost use Rattle.dr_plan_model.specs.Networks.{Network};
ghost use Rattle.dr_plan_model.specs.Plans.{IsWellFormed};
ghost use Rattle.dr_plan_sound.specs.Ranked.{AreRanked};
ghost use Rattle.dr_check.specs.Answering.{AnswersCheck, Judges, AreFew};
ghost use Rattle.dr_check.specs.Firsts.{IsFirstEntry};
ghost use Rattle.dr_check.specs.Stopping.{IsStoppedAt};

use crate::checker::{Checker, Stopped};
use crate::fault::Fault;
use dr_cert_hops::{Numbered, number_hops};
use dr_cert_text::{order_hops, order_lines};
use dr_plan_entries::visit_entries;
use dr_plan_model::Plan;
use dr_plan_sound::{Certificate, Line};
use std::alloc::{AllocError, Global};
use thiserror::Error;

/// Whether a plan is sound.
#[derive(Debug, Drop)]
pub enum Verdict {
    /// It is, and this is its certificate.
    Yes(Certificate),
    /// It isn't, and this shows it.
    No(Fault),
}

/// Why a plan has no verdict. Memory is answered only where a growth was refused.
#[derive(Clone, Copy, PartialEq, Eq, Debug, Error)]
pub enum CheckFault {
    /// Its certificate would have over 65,536 lines.
    #[error("TooLarge")]
    TooLarge,
    #[error("Memory")]
    Memory,
}

impl From<AllocError> for CheckFault {
    ghost use Rattle.std.specs.Prelude.{◌≡◌};
    ghost use Rattle.dr_check.specs.declared.verdict.CheckFault.TheVariants.{Memory};

    ghost from_gives = { λ _ e. e ≡ Memory };

    fn from(_: AllocError) -> CheckFault {
        CheckFault::Memory
    }
}

/// The verdict on a plan that has these lines.
fn judged(alloc: Global, plan: &Plan, lines: Vec<Line>) -> Result<Verdict, AllocError>
    requires formed { IsWellFormed plan.now }
    requires ranked { AreRanked plan.now lines.items }
    requires apart { AllPairs (λ a b. a ≢ b) lines.items }
    requires few { AreFew lines.items }
    ensures { IfOk result (Judges plan.now) }
{
    match number_hops(alloc, lines.as_slice())? {
        Numbered::TooMany { from, to } => Ok(Verdict::No(Fault::TooManyContexts { from, to })),
        Numbered::Hops(hops) => Ok(Verdict::Yes(Certificate {
            format: plan.format(),
            digest: *plan.digest(),
            hops: order_hops(alloc, hops)?,
            lines: order_lines(alloc, lines)?,
        })),
    }
}

/// The answer where the checker stopped.
fn answer_to(stopped: Stopped) -> Result<Verdict, CheckFault>
    ensures { (plan : Network) (site : Words) (cell : CellValue)
        → IsStoppedAt plan stopped site cell
        → IsFirstEntry plan site cell
        → AnswersCheck plan result }
{
    match stopped {
        Stopped::Fault(fault) => Ok(Verdict::No(fault)),
        Stopped::TooLarge => Err(CheckFault::TooLarge),
    }
}

/// Checks the plan: searches all walks from its entries, for all keys, cell by cell, and answers
/// yes with the plan's certificate, or no with what is wrong: at the first entry from which a walk
/// shows a fault, on the first such walk.
pub fn check(alloc: Global, plan: &Plan) -> Result<Verdict, CheckFault>
    ensures { AnswersCheck plan.now result }
{
    let mut checker = Checker::new(alloc, plan)?;
    match visit_entries(alloc, plan, &mut checker)? {
        Some(stopped) => answer_to(stopped),
        None => Ok(judged(alloc, plan, checker.into_lines())?),
    }
}
