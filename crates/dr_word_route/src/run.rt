//! A run of the program for plans.
ghost use Rattle.std.specs.Prelude.{◌⊎◌, IfOk};
ghost use Rattle.dr_word_check.specs.Tasks.{HasFailedStatus};
ghost use Rattle.dr_word_line.specs.Words.{Asks};
ghost use Rattle.dr_word_line.specs.declared.words.Task.{Task as TaskValue};
ghost use Rattle.dr_word_route.specs.Tasks.{DoesOnPlans};

use crate::asking::Asker;
use dr_run_files::{Failure, Files};
use dr_run_open::Status;
use dr_word_check::tell_failure;
use dr_word_line::{Task, read_words};
use std::alloc::{AllocError, Global};
use std::io;
use std::io::{Read, Write};

/// Does what was asked for, where that is about plans alone; another word is none that it knows.
///
/// Errors: Stream, File.
pub fn run_asked<'a, R: Read, W: Write, E: Write, F: Files>(
    alloc: Global,
    asked: Task<'a>,
    input: &mut R,
    output: &mut W,
    faults: &mut E,
    files: &F,
) -> Result<Status, Failure<'a>>
    ensures { IfOk result
        (DoesOnPlans (F.holds files.now) (R.remaining input.old) asked.entry (W.contents output.old)
        (W.contents output.new)) }
{
    match asked {
        Task::Question(plan, certificate, question) => {
            let asker = Asker {
                output,
                faults,
                files,
            };
            asker.ask_files(alloc, plan, certificate, question)
        }
        other => dr_word_check::run_asked(alloc, other, input, output, faults, files),
    }
}

/// Runs the program for plans on the words of its command line, without the program's own name, and
/// answers how it ends.
pub fn run_plan_words<R: Read, W: Write, E: Write, F: Files>(
    alloc: Global,
    words: &[&str],
    input: &mut R,
    output: &mut W,
    faults: &mut E,
    files: &F,
) -> Status
    ensures { (asked : TaskValue)
        → Asks words.now asked
        → HasFailedStatus result
        ⊎ DoesOnPlans (F.holds files.now) (R.remaining input.old) asked (W.contents output.old)
        (W.contents output.new) result }
{
    let asked = match read_words(alloc, words) {
        Ok(asked) => asked,
        Err(AllocError) => return tell_failure(
            &Failure::Stream(io::Error::from(AllocError)),
            faults,
        ),
    };
    match run_asked(alloc, asked, input, output, faults, files) {
        Ok(status) => status,
        Err(failure) => tell_failure(&failure, faults),
    }
}
