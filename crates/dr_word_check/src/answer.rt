//! What the program answers to the text of a plan.
ghost use Rattle.std.specs.Prelude.{◌≢◌, Ok, IfOk};
ghost use Rattle.dr_base.specs.Texts.{Text as OfText};
ghost use Rattle.dr_plan.specs.Reading.{Reads};
ghost use Rattle.dr_word_check.specs.Answers.{IsAnswerTo, IsLineOf};
ghost use Rattle.dr_word_check.specs.Runs.{Answers};
ghost use Rattle.dr_run_open.specs.declared.status.Status.TheVariants.{Usage};

use crate::print::line_of;
use dr_certify::{Refusal, certify};
use dr_check::Fault;
use dr_check_reasons::describe;
use dr_plan::{Plan, read_plan};
use dr_run_open::{PlanAnswer, Status, answer_to_fault, tell_answer, words_or_none};
use std::alloc::{AllocError, Global};
use std::io;
use std::io::Write;

/// The answer to a plan with a fault that a walk or a hop shows.
fn answer_to_unsound(alloc: Global, plan: &Plan, fault: &Fault) -> PlanAnswer
    ensures { IsLineOf fault.now result }
{
    let why = describe(alloc, plan, fault);
    match line_of(alloc, fault) {
        Ok(line) => PlanAnswer::Unsound(line, words_or_none(alloc, why)),
        Err(AllocError) => PlanAnswer::Memory,
    }
}

/// The answer to a plan that was read of a text.
fn answer_to_plan(alloc: Global, plan: &Plan) -> PlanAnswer
    ensures { (text : OfText) → Reads text (Ok plan.now) → IsAnswerTo text result }
{
    match certify(alloc, plan) {
        Ok(certificate) => PlanAnswer::Sound(certificate),
        Err(Refusal::Unsound(fault)) => {
            let answer = answer_to_unsound(alloc, plan, &fault);
            drop(fault);
            answer
        }
        Err(Refusal::TooLarge) => PlanAnswer::TooLarge,
        Err(Refusal::Memory) => PlanAnswer::Memory,
    }
}

/// The answer to the text of a plan.
pub fn answer_to(alloc: Global, text: &[u8]) -> PlanAnswer
    ensures { IsAnswerTo text.now result }
{
    match read_plan(alloc, text) {
        Ok(plan) => answer_to_plan(alloc, &plan),
        Err(fault) => answer_to_fault(alloc, text, fault),
    }
}

/// Answers to the text of a plan.
pub fn answer_text<W: Write, E: Write>(
    alloc: Global,
    text: &[u8],
    output: &mut W,
    faults: &mut E,
) -> io::Result<Status>
    ensures known { IfOk result (λ status. status ≢ Usage) }
    ensures answered { IfOk result
        (Answers text.now (W.contents output.old) (W.contents output.new)) }
{
    let answer = answer_to(alloc, text);
    tell_answer(&answer, output, faults)?;
    Ok(answer.status())
}
