//! All faults of the plan of a text.
ghost use Rattle.std.specs.Prelude.{◌≡◌, ◌≢◌, IfOk, IfSome, OnOk, Ok, flat_map};
ghost use Rattle.std.specs.Io.KnownBytes.{Appends};
ghost use Rattle.dr_base.specs.Texts.{Text as OfText};
ghost use Rattle.dr_check.specs.AllFaults.{AreAllFaults};
ghost use Rattle.dr_plan.specs.Reading.{Reads};
ghost use Rattle.dr_run_open.specs.declared.status.Status.TheVariants.{Usage};
ghost use Rattle.dr_word_check.specs.All.{AnswersWithAll, HasFaults};
ghost use Rattle.dr_word_check.specs.Faults.{no_line};

use crate::answer::answer_text;
use crate::print::line_of;
use dr_base::{Seq, Text};
use dr_certify::read_input;
use dr_check::{Fault, all_faults};
use dr_check_reasons::describe;
use dr_plan::{Plan, read_plan};
use dr_run_files::{Failure, Files, read_file};
use dr_run_open::{Status, words_or_none};
use std::alloc::{AllocError, Global};
use std::io;
use std::io::{Read, Write};

/// A plan with all its faults.
#[derive(Drop)]
struct FaultyPlan {
    plan: Plan,
    faults: Seq<Fault>,
}

/// The plan with these faults, where there is one.
fn faulty(plan: Plan, faults: Seq<Fault>) -> Option<FaultyPlan>
    requires { AreAllFaults plan faults }
    ensures { (text : OfText) → Reads text (Ok plan) → IfSome result (HasFaults text) }
{
    if faults.is_empty() {
        drop(faults);
        drop(plan);
        return None;
    }
    Some(FaultyPlan { plan, faults })
}

/// The plan with its faults, where it has some and they can be found.
fn with_faults(alloc: Global, plan: Plan) -> Option<FaultyPlan>
    ensures { (text : OfText) → Reads text (Ok plan) → IfSome result (HasFaults text) }
{
    match all_faults(alloc, &plan) {
        Ok(faults) => faulty(plan, faults),
        Err(_) => {
            drop(plan);
            None
        }
    }
}

/// The plan of the text with its faults, where the text has a plan with some and they can be found.
fn find_faults(alloc: Global, text: &[u8]) -> Option<FaultyPlan>
    ensures { IfSome result (HasFaults text.now) }
{
    match read_plan(alloc, text) {
        Ok(plan) => with_faults(alloc, plan),
        Err(_) => None,
    }
}

/// The fault's line, and why the plan has it, in sentences.
fn words_of(alloc: Global, plan: &Plan, fault: &Fault) -> Result<(Text, Text), AllocError>
    ensures { IfOk result (λ words. words.0 ≡ no_line fault.now) }
{
    let why = words_or_none(alloc, describe(alloc, plan, fault));
    match line_of(alloc, fault) {
        Ok(line) => Ok((line, why)),
        Err(AllocError) => {
            drop(why);
            Err(AllocError)
        }
    }
}

/// Writes the line of each fault to the output, and to the faults why the plan has it.
fn tell_faults<W: Write, E: Write>(
    alloc: Global,
    plan: &Plan,
    found: &[Fault],
    output: &mut W,
    faults: &mut E,
) -> io::Result<()>
    ensures { OnOk result
        (Appends (W.contents output.old) (W.contents output.new) (flat_map no_line found.now)) }
{
    for fault in found {
        let (line, why) = words_of(alloc, plan, fault)?;
        output.write_all(line.as_bytes())?;
        faults.write_all(why.as_bytes())?;
    }
    Ok(())
}

/// Answers to the text of a plan, and names all its faults.
fn answer_text_with_all<W: Write, E: Write>(
    alloc: Global,
    text: &[u8],
    output: &mut W,
    faults: &mut E,
) -> io::Result<Status>
    ensures known { IfOk result (λ status. status ≢ Usage) }
    ensures answered { IfOk result
        (AnswersWithAll text.now (W.contents output.old) (W.contents output.new)) }
{
    match find_faults(alloc, text) {
        Some(found) => {
            tell_faults(alloc, &found.plan, found.faults.as_slice(), output, faults)?;
            Ok(Status::Refused)
        }
        None => answer_text(alloc, text, output, faults),
    }
}

/// Answers to the text of a plan on the input, and names all its faults.
pub fn answer_input_with_all<R: Read, W: Write, E: Write>(
    alloc: Global,
    input: &mut R,
    output: &mut W,
    faults: &mut E,
) -> io::Result<Status>
    ensures known { IfOk result (λ status. status ≢ Usage) }
    ensures answered { IfOk result (λ status. IfSome (R.remaining input.old) (λ text.
        AnswersWithAll text (W.contents output.old) (W.contents output.new) status)) }
{
    let text = read_input(alloc, input)?;
    answer_text_with_all(alloc, text.as_slice(), output, faults)
}

/// Answers to the text of a plan in a file, and names all its faults.
pub fn answer_file_with_all<'a, F: Files, W: Write, E: Write>(
    alloc: Global,
    files: &F,
    path: &'a str,
    output: &mut W,
    faults: &mut E,
) -> Result<Status, Failure<'a>>
    ensures { IfOk result (λ status. (text : OfText)
        × F.holds files.now path.now text
        × AnswersWithAll text (W.contents output.old) (W.contents output.new) status) }
{
    let text = read_file(alloc, files, path)?;
    let status = answer_text_with_all(alloc, text.as_slice(), output, faults)?;
    Ok(status)
}
