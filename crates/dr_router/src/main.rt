//! The program `dr_router`: `run_words` of `dr_word_all` on the system's words, files, ledgers,
//! input, outputs, network, clock and log.
#![tactic(auto)]

ghost use Rattle.std.specs.Prelude.{◌≡◌};
ghost use Rattle.std.specs.Process.{exit_status};
ghost use Rattle.dr_run_open.specs.Statuses.{status_number};

mod beside;
mod events;
mod files;
mod input;
mod looking;
mod over;
mod shelf;

use crate::events::EventLog;
use crate::files::{Databases, StoredLedgers, SystemDisk, SystemFiles};
use crate::input::InputEnd;
use crate::looking::Looking;
use crate::over::{ClockAt, Machine, run_on};
use dr_run_backup::Backups;
use dr_run_files::Files;
use dr_run_net::{Cut, Sockets, SystemClock};
use dr_run_open::Status;
use dr_run_token::Tokens;
use dr_word_check::{given_words, tell_unread_words};
use std::process::ExitCode;
use std::sync::Wait;
use std::thread::Threads;
use std::{io, time};

/// Runs the program on these words, over the system's network, clock, log, input and outputs, and
/// any files. The files are the system's in `run` alone: all types at once are too many for the
/// prover to compare.
fn run_over_files<
    'x,
    T: Threads + Wait + Sync + time::Clock,
    F: Files + Backups + Tokens + Sync + Drop,
    D: Databases + Drop,
>(
    rt: &'x HostRuntime,
    threads: &'x T,
    words: &[&str],
    clock: &'x SystemClock<'x, HostRuntime>,
    cut: &'x Cut,
    files: F,
    databases: D,
) -> Status
where
    D::Store: Send,
{
    let machine = Machine {
        files,
        ledgers: StoredLedgers(databases, Looking::of(words)),
        network: Sockets::new(rt, clock, cut),
        clock: ClockAt(clock),
        log: EventLog { rt, clock },
        ending: InputEnd {
            rt: threads,
            input: rt.stdin(),
            system: rt,
        },
    };
    let (mut input, mut output, mut faults) = (rt.stdin(), rt.stdout(), rt.stderr());
    run_on(
        threads,
        rt.alloc(),
        words,
        &mut input,
        &mut output,
        &mut faults,
        &machine,
    )
}

/// Runs the program on its words, which fails only where they can't be read. `threads` is the
/// runtime too, by which nodes run.
fn run<'x, T: Threads + Wait + Sync + time::Clock>(
    rt: &'x HostRuntime,
    threads: &'x T,
    clock: &'x SystemClock<'x, HostRuntime>,
    cut: &'x Cut,
) -> io::Result<Status> {
    let given = given_words(rt)?;
    let mut words = Vec::new(rt.alloc());
    for word in given.as_slice() {
        words.push(word.as_str())?;
    }
    let (files, databases) = (SystemDisk::new(rt), SystemFiles(rt));
    Ok(run_over_files(rt, threads, words.as_slice(), clock, cut, files, databases))
}

/// What the process ends with.
fn exit_code(status: Status) -> ExitCode
    ensures { exit_status result ≡ status_number status }
{
    ExitCode::from(status.number())
}

fn main(rt: HostRuntime) -> ExitCode {
    let (clock, cut) = (SystemClock::start(&rt), Cut::new());
    let status = match run(&rt, &rt, &clock, &cut) {
        Ok(status) => status,
        Err(error) => tell_unread_words(&error, &mut rt.stderr()),
    };
    exit_code(status)
}
