//! The word `simulate`.
ghost use Rattle.std.specs.Prelude.{◌⊎◌, IfOk, OnOk};
ghost use Rattle.std.specs.Io.KnownBytes.{Appends};
ghost use Rattle.dr_base.specs.Texts.{Text};
ghost use Rattle.dr_word_simulate.specs.Outcomes.{printed_for};
ghost use Rattle.dr_word_simulate.specs.Runs.{Plays, PlaysSealed, Simulates, PlaysUnsealed};

use crate::outcome::{PlayOutcome, outcome_of};
use dr_cert::Sealed;
use dr_plan::Plan;
use dr_run_files::{Failure, Files, read_file};
use dr_run_open::{Status, plan_of, seal_text, tell_answer};
use dr_word_route::tell_refusal;
use dr_world::WorldFault;
use dr_world_script::ScriptFault;
use std::alloc::Global;
use std::io;
use std::io::Write;

/// Writes the outcome: the report to the output, and why there is none to the faults.
fn tell_outcome<W: Write, E: Write>(
    outcome: &PlayOutcome,
    output: &mut W,
    faults: &mut E,
) -> io::Result<()>
    ensures { OnOk result
        (Appends (W.contents output.old) (W.contents output.new) (printed_for outcome.now)) }
{
    match outcome {
        PlayOutcome::Report(report) => output.write_all(report.as_bytes()),
        PlayOutcome::NoScript(line) | PlayOutcome::Unsealed(line) => {
            writeln!(faults, "dr_router: {}", ScriptFault::Line(*line))
        }
        PlayOutcome::Unread(path, error) => writeln!(faults, "dr_router: {path}: {error}"),
        PlayOutcome::HalfAdopted => writeln!(faults, "dr_router: {}", WorldFault::HalfAdopted),
        PlayOutcome::Memory => writeln!(faults, "dr_router: Memory"),
    }
}

/// Plays the script in a file, in a world of the sealed plan's nodes.
fn play_file<'a, F: Files, W: Write, E: Write>(
    alloc: Global,
    sealed: &Sealed,
    files: &F,
    path: &'a str,
    output: &mut W,
    faults: &mut E,
) -> Result<Status, Failure<'a>>
    ensures { IfOk result (λ status. (script : Text)
        × F.holds files.now path.now script
        × Plays (F.holds files.now) sealed.now.plan sealed.now.certificate script
        (W.contents output.old) (W.contents output.new) status) }
{
    let text = read_file(alloc, files, path)?;
    let outcome = outcome_of(alloc, files, sealed, text.as_slice());
    tell_outcome(&outcome, output, faults)?;
    Ok(outcome.status())
}

/// Plays the script in a file for a plan and the text of its certificate; the file is read only
/// where the text is that.
fn play_sealed<'a, F: Files, W: Write, E: Write>(
    alloc: Global,
    plan: Plan,
    text: &[u8],
    files: &F,
    script: &'a str,
    output: &mut W,
    faults: &mut E,
) -> Result<Status, Failure<'a>>
    ensures { IfOk result
        (λ status.
        PlaysUnsealed plan text.now (W.contents output.old) (W.contents output.new) status
        ⊎ PlaysSealed (F.holds files.now) script.now plan text.now (W.contents output.old)
        (W.contents output.new) status) }
{
    let sealed = match seal_text(alloc, plan, text) {
        Ok(sealed) => sealed,
        Err(fault) => {
            let status = tell_refusal(fault, faults)?;
            return Ok(status);
        }
    };
    let played = play_file(alloc, &sealed, files, script, output, faults);
    drop(sealed);
    played
}

/// Plays a script for the plan of a text, whose certificate is in a file, which is read only where
/// the text has a plan.
fn play_text<'a, F: Files, W: Write, E: Write>(
    alloc: Global,
    text: &[u8],
    files: &F,
    certificate: &'a str,
    script: &'a str,
    output: &mut W,
    faults: &mut E,
) -> Result<Status, Failure<'a>>
    ensures { IfOk result
        (Simulates (F.holds files.now) certificate.now script.now text.now (W.contents output.old)
        (W.contents output.new)) }
{
    let plan = match plan_of(alloc, text) {
        Ok(plan) => plan,
        Err(answer) => {
            tell_answer(&answer, output, faults)?;
            return Ok(answer.status());
        }
    };
    let second = match read_file(alloc, files, certificate) {
        Ok(second) => second,
        Err(failure) => {
            drop(plan);
            return Err(failure);
        }
    };
    play_sealed(
        alloc,
        plan,
        second.as_slice(),
        files,
        script,
        output,
        faults,
    )
}

/// Plays the script in the third file for the plan in the first and the certificate in the second.
///
/// Errors: Stream, File.
pub fn simulate_files<'a, F: Files, W: Write, E: Write>(
    alloc: Global,
    files: &F,
    plan: &'a str,
    certificate: &'a str,
    script: &'a str,
    output: &mut W,
    faults: &mut E,
) -> Result<Status, Failure<'a>>
    ensures { IfOk result (λ status. (text : Text)
        × F.holds files.now plan.now text
        × Simulates (F.holds files.now) certificate.now script.now text (W.contents output.old)
        (W.contents output.new) status) }
{
    let text = read_file(alloc, files, plan)?;
    play_text(
        alloc,
        text.as_slice(),
        files,
        certificate,
        script,
        output,
        faults,
    )
}
