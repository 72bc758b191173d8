//! The text that is read for a plan's text.
ghost use Rattle.std.specs.Prelude.{IfOk, MatchOption, Err};
ghost use Rattle.dr_base.specs.Texts.{Text as OfText};
ghost use Rattle.dr_plan.specs.Reading.{IsOfThird, HasNoCore};
ghost use Rattle.dr_plan_expand.specs.Expanding.{Expands};
ghost use Rattle.dr_word_check.specs.Expanded.{Finds, Expanded};

use dr_base::Text;
use dr_plan::{PlanFault, core_of};
use dr_plan_expand::ExpandFault;
use dr_run_files::{Failure, Files, read_file};
use dr_run_open::{PlanAnswer, Status, answer_to_fault, plan_of, tell_answer};
use std::alloc::{AllocError, Global};
use std::io;
use std::io::Write;

/// A copy of a text of another format than 3, which is read as it is.
fn copied(alloc: Global, text: &[u8]) -> Result<Text, PlanAnswer>
    requires { IsOfThird text.now → ⊥ }
    ensures { Finds text.now result }
{
    match Text::copy_of(alloc, text) {
        Ok(copy) => Ok(copy),
        Err(AllocError) => Err(PlanAnswer::Memory),
    }
}

/// What is read for a text of another format than 3: itself, where it is a plan.
fn find_itself(alloc: Global, text: &[u8]) -> Result<Text, PlanAnswer>
    requires { IsOfThird text.now → ⊥ }
    ensures { Finds text.now result }
{
    match plan_of(alloc, text) {
        Ok(plan) => {
            drop(plan);
            copied(alloc, text)
        }
        Err(answer) => Err(answer),
    }
}

/// What is read for a text, by what it was found to expand to.
fn find_found(alloc: Global, text: &[u8], found: Option<Text>) -> Result<Text, PlanAnswer>
    requires { MatchOption found (IsOfThird text.now → ⊥) (Expands text.now) }
    ensures { Finds text.now result }
{
    match found {
        Some(core) => Ok(core),
        None => find_itself(alloc, text),
    }
}

/// The answer to a text of format 3 that doesn't expand, for this reason.
fn answer_to_none(alloc: Global, text: &[u8], none: ExpandFault) -> PlanAnswer
    requires { HasNoCore text.now none }
    ensures { Finds text.now (Err result) }
{
    match none {
        ExpandFault::Field => answer_to_fault(alloc, text, PlanFault::Field),
        ExpandFault::Limit => answer_to_fault(alloc, text, PlanFault::Limit),
        ExpandFault::Unknown => answer_to_fault(alloc, text, PlanFault::UnknownName),
        ExpandFault::Memory => PlanAnswer::Memory,
    }
}

/// What is read for a text.
fn find_core(alloc: Global, text: &[u8]) -> Result<Text, PlanAnswer>
    ensures { Finds text.now result }
{
    match core_of(alloc, text) {
        Ok(found) => find_found(alloc, text, found),
        Err(none) => Err(answer_to_none(alloc, text, none)),
    }
}

/// Prints the text that is read for a text, or tells its fault.
fn expand_text<W: Write, E: Write>(
    alloc: Global,
    text: &[u8],
    output: &mut W,
    faults: &mut E,
) -> io::Result<Status>
    ensures { IfOk result
        (Expanded text.now (W.contents output.old) (W.contents output.new)) }
{
    match find_core(alloc, text) {
        Ok(core) => {
            output.write_all(core.as_bytes())?;
            Ok(Status::Success)
        }
        Err(answer) => {
            tell_answer(&answer, output, faults)?;
            Ok(answer.status())
        }
    }
}

/// Prints the text that is read for the text of a plan in a file, or tells its fault.
///
/// Errors: Stream, File.
pub fn expand_file<'a, F: Files, W: Write, E: Write>(
    alloc: Global,
    files: &F,
    path: &'a str,
    output: &mut W,
    faults: &mut E,
) -> Result<Status, Failure<'a>>
    ensures { IfOk result (λ status. (text : OfText)
        × F.holds files.now path.now text
        × Expanded text (W.contents output.old) (W.contents output.new) status) }
{
    let text = read_file(alloc, files, path)?;
    let status = expand_text(alloc, text.as_slice(), output, faults)?;
    Ok(status)
}
