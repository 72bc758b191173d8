//! What changes from a sealed plan to the next one.
ghost use Rattle.std.specs.Prelude.{◌≡◌, ◌↔◌, ◌⊎◌, List, IfOk, IsTrue, OnOk, flat_map};
ghost use Rattle.std.specs.Io.KnownBytes.{Appends};
ghost use Rattle.dr_run_open.specs.Answers.{Refuses};
ghost use Rattle.dr_run_open.specs.declared.status.Status.TheVariants.{Refused, Success};
ghost use Rattle.dr_cert_diff.specs.Differing.{IsDiff, LosesSome};
ghost use Rattle.dr_cert_diff.specs.Rows.{change_rows};
ghost use Rattle.dr_cert_diff.specs.declared.change.RouteChange.{RouteChange as ChangeValue};
ghost use Rattle.dr_word_route.specs.Differing.{Compares, Differs, JudgesNext, SealsNext};
ghost use Rattle.dr_word_route.specs.Unsealing.{AnswersUnsealed};

use crate::asking::{Asker, tell_refusal};
use dr_base::Text;
use dr_cert::Sealed;
use dr_cert_diff::{changes, changes_text, has_lost};
use dr_plan::Plan;
use dr_run_files::{Failure, Files, read_file};
use dr_run_open::{Status, plan_of, seal_text, tell_answer};
use dr_word_line::NextPlan;
use std::alloc::{AllocError, Global};
use std::io;
use std::io::Write;

/// The rows of what changes from one sealed plan to the next, and whether some node is lost.
fn difference(alloc: Global, sealed: &Sealed, next: &Sealed) -> Result<(Text, bool), AllocError>
    ensures { IfOk result (λ found. (all : List ChangeValue)
        × IsDiff sealed.now.plan next.now.plan all
        × (found.0 ≡ flat_map change_rows all)
        × (IsTrue found.1 ↔ LosesSome all)) }
{
    let all = changes(alloc, sealed, next)?;
    let text = changes_text(alloc, all.as_slice())?;
    Ok((text, has_lost(all.as_slice())))
}

/// The status behind changes of which some node is lost or none.
fn status_behind(fails: bool, lost: bool) -> Status
    ensures lost { IsTrue fails → IsTrue lost → result ≡ Refused }
    ensures kept { (IsTrue fails → IsTrue lost → ⊥) → result ≡ Success }
{
    if fails && lost {
        return Status::Refused;
    }
    Status::Success
}

/// Writes the lines of changes.
fn tell_changes<W: Write>(text: &Text, output: &mut W) -> io::Result<()>
    ensures { OnOk result
        (Appends (W.contents output.old) (W.contents output.new) text.now) }
{
    output.write_all(text.as_bytes())
}

/// Tells what changes from one sealed plan to the next.
fn tell_difference<W: Write, E: Write>(
    alloc: Global,
    sealed: &Sealed,
    next: &Sealed,
    fails: bool,
    output: &mut W,
    faults: &mut E,
) -> io::Result<Status>
    ensures { IfOk result (Differs sealed.now.plan next.now.plan fails
        (W.contents output.old) (W.contents output.new)) }
{
    match difference(alloc, sealed, next) {
        Ok((text, lost)) => {
            tell_changes(&text, output)?;
            Ok(status_behind(fails, lost))
        }
        Err(AllocError) => {
            faults.write_all(b"dr_router: Memory\n")?;
            Ok(Status::Memory)
        }
    }
}

impl<F: Files, W: Write, E: Write> Asker<'_, F, W, E> {
    /// Tells what changes to a plan, which the text of its certificate seals.
    fn diff_sealed(
        self,
        alloc: Global,
        sealed: &Sealed,
        plan: Plan,
        text: &[u8],
        fails: bool,
    ) -> io::Result<Status>
        ensures { IfOk result
            (λ status. AnswersUnsealed plan text.now (W.contents self.entry.output.now)
            (W.contents self.exit.0.now) status
            ⊎ SealsNext sealed.now.plan plan text.now fails (W.contents self.entry.output.now)
            (W.contents self.exit.0.now) status) }
    {
        let next = match seal_text(alloc, plan, text) {
            Ok(next) => next,
            Err(fault) => {
                let status = tell_refusal(fault, self.faults)?;
                return Ok(status);
            }
        };
        let Asker { output, faults, .. } = self;
        let status = tell_difference(alloc, sealed, &next, fails, output, faults);
        drop(next);
        status
    }

    /// Tells what changes to the plan of a text, whose certificate is in a file, which is read only
    /// where the text has a plan.
    fn diff_text<'a>(
        self,
        alloc: Global,
        sealed: &Sealed,
        text: &[u8],
        paths: NextPlan<'a>,
    ) -> Result<Status, Failure<'a>>
        ensures { IfOk result
            (λ status. Refuses text.now (W.contents self.entry.output.now)
            (W.contents self.exit.0.now) status
            ⊎ JudgesNext (F.holds self.entry.files.now) sealed.now.plan paths.entry text.now
            (W.contents self.entry.output.now) (W.contents self.exit.0.now) status) }
    {
        let plan = match plan_of(alloc, text) {
            Ok(plan) => plan,
            Err(answer) => {
                let Asker { output, faults, .. } = self;
                tell_answer(&answer, output, faults)?;
                return Ok(answer.status());
            }
        };
        match read_file(alloc, self.files, paths.certificate) {
            Ok(second) => {
                let fails = paths.fails_on_lost;
                let status = self.diff_sealed(alloc, sealed, plan, second.as_slice(), fails)?;
                Ok(status)
            }
            Err(failure) => {
                drop(plan);
                Err(failure)
            }
        }
    }

    /// Tells what changes from the sealed plan to the plan in a file.
    ///
    /// Errors: Stream, File.
    pub(crate) fn ask_diff<'a>(
        self,
        alloc: Global,
        sealed: &Sealed,
        paths: NextPlan<'a>,
    ) -> Result<Status, Failure<'a>>
        ensures { IfOk result (Compares (F.holds self.entry.files.now) sealed.now.plan paths.entry
            (W.contents self.entry.output.now) (W.contents self.exit.0.now)) }
    {
        let text = read_file(alloc, self.files, paths.plan)?;
        self.diff_text(alloc, sealed, text.as_slice(), paths)
    }
}
