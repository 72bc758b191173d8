//! The words that need no network.
ghost use Rattle.std.specs.Prelude.{IfOk};
ghost use Rattle.dr_word_simulate.specs.Tasks.{DoesOffline};

use crate::simulate::simulate_files;
use dr_run_files::{Failure, Files};
use dr_run_open::Status;
use dr_word_line::Task;
use dr_word_route::run_asked;
use std::alloc::Global;
use std::io::{Read, Write};

/// Does what was asked for, where that needs no network: the words for plans, and `simulate`.
///
/// Errors: Stream, File.
pub fn run_offline<'a, R: Read, W: Write, E: Write, F: Files>(
    alloc: Global,
    asked: Task<'a>,
    input: &mut R,
    output: &mut W,
    faults: &mut E,
    files: &F,
) -> Result<Status, Failure<'a>>
    ensures { IfOk result
        (DoesOffline (F.holds files.now) (R.remaining input.old) asked.entry (W.contents output.old)
        (W.contents output.new)) }
{
    match asked {
        Task::Simulate(plan, certificate, script) => {
            simulate_files(alloc, files, plan, certificate, script, output, faults)
        }
        other => run_asked(alloc, other, input, output, faults, files),
    }
}
