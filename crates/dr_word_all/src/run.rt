//! A run of the whole program.
ghost use Rattle.std.specs.Prelude.{◌⊎◌, IfOk};
ghost use Rattle.dr_word_all.specs.Tasks.{DoesTask};
ghost use Rattle.dr_word_check.specs.Tasks.{HasFailedStatus};
ghost use Rattle.dr_word_json.specs.Runs.{IsAsJson};
ghost use Rattle.dr_word_line.specs.Words.{Asks};
ghost use Rattle.dr_word_line.specs.declared.words.Task.{Task as TaskValue};
ghost use Rattle.dr_word_line.specs.declared.words.Task.TheVariants as asks;
ghost use Rattle.dr_word_route.specs.Tasks.{DoesOnPlans};

use dr_ledger_journal::TellsJournal;
use dr_run_backup::Backups;
use dr_run_files::{Failure, Files};
use dr_run_net::Network;
use dr_run_open::Status;
use dr_run_serve::{Ending, OwnPort, Tallied};
use dr_run_token::Tokens;
use dr_session::{Clock, DeskPort};
use dr_word_adopt::adopt_files;
use dr_word_at::{Way, ask_files};
use dr_word_audit::audit_files;
use dr_word_audit_at::audit_running;
use dr_word_check::tell_failure;
use dr_word_echo::{EchoNodes, echo_files};
use dr_word_import::import_file;
use dr_word_json::run_as_json;
use dr_word_line::{Question, Task, read_words};
use dr_word_rehearse::{Finds, rehearse_files};
use dr_word_serve::{System, work_files};
use dr_word_simulate::run_offline;
use log::Log;
use std::alloc::{AllocError, Global};
use std::io::{Read, Write};
use std::sync::Wait;
use std::thread::Threads;
use std::{io, time};

/// Checks the plan on the standard input, and prints the answer as JSON.
///
/// Errors: Stream, File.
fn check_input_as_json<'a, R: Read, W: Write, E: Write, F: Files>(
    alloc: Global,
    input: &mut R,
    output: &mut W,
    faults: &mut E,
    files: &F,
) -> Result<Status, Failure<'a>>
    ensures { IfOk result
        (IsAsJson (DoesOnPlans (F.holds files.now) (R.remaining input.old) asks.CheckInput)
        (W.contents output.old) (W.contents output.new)) }
{
    run_as_json(alloc, Task::CheckInput, input, output, faults, files)
}

/// Checks the plan in a file, and prints the answer as JSON.
///
/// Errors: Stream, File.
fn check_file_as_json<'a, R: Read, W: Write, E: Write, F: Files>(
    alloc: Global,
    path: &'a str,
    input: &mut R,
    output: &mut W,
    faults: &mut E,
    files: &F,
) -> Result<Status, Failure<'a>>
    ensures { IfOk result
        (IsAsJson
        (DoesOnPlans (F.holds files.now) (R.remaining input.old) (asks.CheckFile path.entry))
        (W.contents output.old) (W.contents output.new)) }
{
    run_as_json(alloc, Task::CheckFile(path), input, output, faults, files)
}

/// Answers a question about the plan in the first file, whose certificate is in the second, as
/// JSON.
///
/// Errors: Stream, File.
fn answer_as_json<'a, R: Read, W: Write, E: Write, F: Files>(
    alloc: Global,
    given: (&'a str, &'a str),
    question: Question<'a>,
    input: &mut R,
    output: &mut W,
    faults: &mut E,
    files: &F,
) -> Result<Status, Failure<'a>>
    ensures { IfOk result
        (IsAsJson
        (DoesOnPlans (F.holds files.now) (R.remaining input.old)
        (asks.Question given.entry.0 given.entry.1 question.entry))
        (W.contents output.old) (W.contents output.new)) }
{
    let asked = Task::Question(given.0, given.1, question);
    run_as_json(alloc, asked, input, output, faults, files)
}

/// Does what was asked for.
///
/// Errors: Stream, File.
fn run_any<
    'a,
    T: Threads + Wait + Sync + time::Clock,
    R: Read,
    W: Write,
    E: Write,
    F: Files + Backups + Tokens + Sync,
    O: Finds,
    N: Network + Sync,
    C: Clock + Sync,
    G: Log + Sync,
    U: Ending,
>(
    rt: &T,
    alloc: Global,
    asked: Task<'a>,
    input: &mut R,
    output: &mut W,
    faults: &mut E,
    system: System<'_, F, O, N, C, G, U>,
) -> Result<Status, Failure<'a>>
where
    O::Ledger: Send + TellsJournal,
    N::Socket: Send,
    N::Listener: Sync,
    ensures { IfOk result
        (DoesTask (F.holds system.entry.files.now) (O.opens system.entry.ledgers.now)
        (O.shows system.entry.ledgers.now) O.Ledger.site O.Ledger.book O.Ledger.stands
        (N.connects system.entry.network.now)
        N.Socket.hears N.Socket.sends N.Socket.closes ⟦<OwnPort<O::Ledger> as DeskPort>⟧.step
        ⟦<OwnPort<O::Ledger> as Tallied>⟧.finds (C.tells system.entry.clock.now)
        (R.remaining input.old) asked.entry (W.contents output.old) (W.contents output.new)) }
{
    let (files, ledgers) = (system.files, system.ledgers);
    let way = Way {
        network: system.network,
        clock: system.clock,
    };
    match asked {
        Task::Echo(plan, caller, called) => {
            let nodes = EchoNodes {
                plan,
                caller,
                called,
            };
            echo_files(
                alloc,
                files,
                nodes,
                system.network,
                system.clock,
                output,
                faults,
            )
        }
        Task::AtNode(given, duty) => work_files(rt, alloc, system, given, duty, output, faults),
        Task::AtRunning(given, errand) => {
            ask_files(alloc, files, given, errand, way, output, faults)
        }
        Task::AuditRunning(given) => audit_running(alloc, files, given, way, output, faults),
        Task::Adopt(change) => adopt_files(alloc, files, ledgers, change, &[], output, faults),
        Task::AdoptAmong(change, others) => {
            let others = others.as_slice();
            adopt_files(alloc, files, ledgers, change, others, output, faults)
        }
        Task::Rehearse(change, others) => {
            let others = others.as_slice();
            rehearse_files(alloc, files, ledgers, change, others, output, faults)
        }
        Task::Import(path) => import_file(alloc, files, path, output, faults),
        Task::CheckInputAsJson => check_input_as_json(alloc, input, output, faults, files),
        Task::CheckFileAsJson(path) => {
            check_file_as_json(alloc, path, input, output, faults, files)
        }
        Task::QuestionAsJson(plan, certificate, question) => {
            let given = (plan, certificate);
            answer_as_json(alloc, given, question, input, output, faults, files)
        }
        Task::Audit(given) => audit_files(alloc, files, ledgers, given, &[], output, faults),
        Task::AuditAmong(given, others) => {
            let others = others.as_slice();
            audit_files(alloc, files, ledgers, given, others, output, faults)
        }
        other => run_offline(alloc, other, input, output, faults, files),
    }
}

/// Runs the program on the words of its command line, without the program's own name, and answers
/// how it ends.
pub fn run_words<
    T: Threads + Wait + Sync + time::Clock,
    R: Read,
    W: Write,
    E: Write,
    F: Files + Backups + Tokens + Sync,
    O: Finds,
    N: Network + Sync,
    C: Clock + Sync,
    G: Log + Sync,
    U: Ending,
>(
    rt: &T,
    alloc: Global,
    words: &[&str],
    input: &mut R,
    output: &mut W,
    faults: &mut E,
    system: System<'_, F, O, N, C, G, U>,
) -> Status
where
    O::Ledger: Send + TellsJournal,
    N::Socket: Send,
    N::Listener: Sync,
    ensures { (asked : TaskValue)
        → Asks words.now asked
        → HasFailedStatus result
        ⊎ DoesTask (F.holds system.entry.files.now) (O.opens system.entry.ledgers.now)
        (O.shows system.entry.ledgers.now) O.Ledger.site O.Ledger.book O.Ledger.stands
        (N.connects system.entry.network.now)
        N.Socket.hears N.Socket.sends N.Socket.closes ⟦<OwnPort<O::Ledger> as DeskPort>⟧.step
        ⟦<OwnPort<O::Ledger> as Tallied>⟧.finds (C.tells system.entry.clock.now)
        (R.remaining input.old) asked (W.contents output.old) (W.contents output.new) result }
{
    let asked = match read_words(alloc, words) {
        Ok(asked) => asked,
        Err(AllocError) => return tell_failure(
            &Failure::Stream(io::Error::from(AllocError)),
            faults,
        ),
    };
    match run_any(rt, alloc, asked, input, output, faults, system) {
        Ok(status) => status,
        Err(failure) => tell_failure(&failure, faults),
    }
}
