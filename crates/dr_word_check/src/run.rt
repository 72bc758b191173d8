//! A run of the program.
ghost use Rattle.std.specs.Prelude.{◌≡◌, ◌≢◌, ◌⊎◌, IfOk, OnOk, IfSome};
ghost use Rattle.dr_base.specs.Texts.{Text};
ghost use Rattle.std.specs.Io.KnownBytes.{Appends};
ghost use Rattle.dr_word_check.specs.Verdicts.{verdict_line};
ghost use Rattle.dr_word_check.specs.Runs.{Answers, Verifies};
ghost use Rattle.dr_word_check.specs.Tasks.{DoesOnTexts, HasFailedStatus};
ghost use Rattle.dr_run_open.specs.declared.status.Status.TheVariants.{Memory, Refused, Usage};

use crate::all::{answer_file_with_all, answer_input_with_all};
use crate::answer::answer_text;
use crate::expand::expand_file;
use crate::verify::{Verification, verdict_on};
use clap::Error;
use clap::error::ErrorKind;
use dr_certify::read_input;
use dr_run_files::{Failure, Files, read_file};
use dr_run_open::{Status, plan_of, tell_answer};
use dr_word_line::Task;
use std::alloc::Global;
use std::io;
use std::io::{Read, Write};

/// Answers to the text of a plan on the input.
fn answer_input<R: Read, W: Write, E: Write>(
    alloc: Global,
    input: &mut R,
    output: &mut W,
    faults: &mut E,
) -> io::Result<Status>
    ensures known { IfOk result (λ status. status ≢ Usage) }
    ensures answered { IfOk result (λ status. IfSome (R.remaining input.old) (λ text.
        Answers text (W.contents output.old) (W.contents output.new) status)) }
{
    let text = read_input(alloc, input)?;
    answer_text(alloc, text.as_slice(), output, faults)
}

/// Answers to the text of a plan in a file.
fn answer_file<'a, F: Files, W: Write, E: Write>(
    alloc: Global,
    files: &F,
    path: &'a str,
    output: &mut W,
    faults: &mut E,
) -> Result<Status, Failure<'a>>
    ensures { IfOk result (λ status. (text : Text)
        × F.holds files.now path.now text
        × Answers text (W.contents output.old) (W.contents output.new) status) }
{
    let text = read_file(alloc, files, path)?;
    let status = answer_text(alloc, text.as_slice(), output, faults)?;
    Ok(status)
}

/// Writes the verdict to the output, and want of memory to the faults.
fn tell_verdict<W: Write, E: Write>(
    verdict: Verification,
    output: &mut W,
    faults: &mut E,
) -> io::Result<()>
    ensures { OnOk result
        (Appends (W.contents output.old) (W.contents output.new) (verdict_line verdict)) }
{
    match verdict {
        Verification::Memory => writeln!(faults, "dr_router: Memory"),
        _ => output.write_all(verdict.line()),
    }
}

/// Verifies, for the plan of the text, the certificate whose text is in a file, which is read only
/// where the first text has a plan.
fn verify_text<'a, F: Files, W: Write, E: Write>(
    alloc: Global,
    text: &[u8],
    files: &F,
    path: &'a str,
    output: &mut W,
    faults: &mut E,
) -> Result<Status, Failure<'a>>
    ensures { IfOk result
        (Verifies (F.holds files.now path.now) text.now (W.contents output.old)
        (W.contents output.new)) }
{
    let plan = match plan_of(alloc, text) {
        Ok(plan) => plan,
        Err(answer) => {
            tell_answer(&answer, output, faults)?;
            return Ok(answer.status());
        }
    };
    let second = read_file(alloc, files, path)?;
    let verdict = verdict_on(alloc, plan, second.as_slice());
    tell_verdict(verdict, output, faults)?;
    Ok(verdict.status())
}

/// Verifies, for the plan in the first file, the certificate in the second.
fn verify_files<'a, F: Files, W: Write, E: Write>(
    alloc: Global,
    files: &F,
    plan: &'a str,
    certificate: &'a str,
    output: &mut W,
    faults: &mut E,
) -> Result<Status, Failure<'a>>
    ensures { IfOk result (λ status. (text : Text)
        × F.holds files.now plan.now text
        × Verifies (F.holds files.now certificate.now) text (W.contents output.old)
        (W.contents output.new) status) }
{
    let text = read_file(alloc, files, plan)?;
    verify_text(alloc, text.as_slice(), files, certificate, output, faults)
}

/// Writes what clap has to say of the words, where it belongs.
fn tell_words<W: Write, E: Write>(
    error: &Error,
    output: &mut W,
    faults: &mut E,
) -> io::Result<Status>
    ensures { IfOk result (λ status. status ≢ Refused) }
{
    if error.kind() == ErrorKind::OutOfMemory {
        writeln!(faults, "dr_router: Memory")?;
        return Ok(Status::Memory);
    }
    if error.use_stderr() {
        write!(faults, "{error}")?;
        return Ok(Status::Usage);
    }
    write!(output, "{error}")?;
    Ok(Status::Success)
}

/// Writes why the run failed, and ends so; a fault that can't be written is left unwritten.
pub fn tell_failure<E: Write>(failure: &Failure<'_>, faults: &mut E) -> Status
    ensures { HasFailedStatus result }
{
    let (Failure::Stream(error) | Failure::File(_, error)) = failure;
    if error.kind() == io::ErrorKind::OutOfMemory {
        let _ = writeln!(faults, "dr_router: Memory");
        return Status::Memory;
    }
    let _ = match failure {
        Failure::Stream(error) => writeln!(faults, "dr_router: {error}"),
        Failure::File(path, error) => writeln!(faults, "dr_router: {path}: {error}"),
    };
    Status::InputOutput
}

/// Writes why the words of the command line couldn't be read, and ends so.
pub fn tell_unread_words<E: Write>(error: &io::Error, faults: &mut E) -> Status
    ensures { (result ≡ Usage) ⊎ (result ≡ Memory) }
{
    if error.kind() == io::ErrorKind::OutOfMemory {
        let _ = writeln!(faults, "dr_router: Memory");
        return Status::Memory;
    }
    let _ = writeln!(faults, "dr_router: a word isn't UTF-8");
    Status::Usage
}

/// Says that a program for plans alone doesn't know the word.
fn tell_other_word<E: Write>(faults: &mut E) -> io::Result<Status>
    ensures { IfOk result (λ status. status ≡ Usage) }
{
    writeln!(
        faults,
        "dr_router: this program has the words check, expand and verify alone"
    )?;
    Ok(Status::Usage)
}

/// Does what was asked for, where that is about plans alone; another word is none that it knows.
///
/// Errors: Stream, File.
pub fn run_asked<'a, R: Read, W: Write, E: Write, F: Files>(
    alloc: Global,
    asked: Task<'a>,
    input: &mut R,
    output: &mut W,
    faults: &mut E,
    files: &F,
) -> Result<Status, Failure<'a>>
    ensures { IfOk result
        (DoesOnTexts (F.holds files.now) (R.remaining input.old) asked.entry (W.contents output.old)
        (W.contents output.new)) }
{
    match asked {
        Task::CheckInput => Ok(answer_input(alloc, input, output, faults)?),
        Task::CheckFile(path) => answer_file(alloc, files, path, output, faults),
        Task::CheckAllOfInput => Ok(answer_input_with_all(alloc, input, output, faults)?),
        Task::CheckAllOfFile(path) => answer_file_with_all(alloc, files, path, output, faults),
        Task::Expand(path) => expand_file(alloc, files, path, output, faults),
        Task::Verify(plan, certificate) => {
            verify_files(alloc, files, plan, certificate, output, faults)
        }
        Task::Simulate(_, _, _)
        | Task::Echo(_, _, _)
        | Task::Question(_, _, _)
        | Task::AtNode(_, _)
        | Task::AtRunning(_, _)
        | Task::Import(_)
        | Task::CheckInputAsJson
        | Task::CheckFileAsJson(_)
        | Task::QuestionAsJson(_, _, _)
        | Task::Adopt(_)
        | Task::AdoptAmong(_, _)
        | Task::Rehearse(_, _)
        | Task::Audit(_)
        | Task::AuditAmong(_, _)
        | Task::AuditRunning(_) => { Ok(tell_other_word(faults)?) }
        Task::Told(error) => Ok(tell_words(&error, output, faults)?),
    }
}
