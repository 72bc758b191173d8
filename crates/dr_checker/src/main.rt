//! The program for plans alone: `run_plan_words` of `dr_word_route`, on the system's words, files,
//! input and outputs. It has the words about plans alone, from `check` to `diff`, and stands on no
//! node and no link, so it is built long before the whole one.
#![tactic(auto)]

use dr_run_open::Status;
use dr_word_check::{Disk, given_words, tell_unread_words};
use dr_word_route::run_plan_words;
use std::io;
use std::process::ExitCode;

/// Runs the program on its words, which fails only where they can't be read.
fn run(rt: &HostRuntime) -> io::Result<Status> {
    let given = given_words(rt)?;
    let mut words = Vec::new(rt.alloc());
    for word in given.as_slice() {
        words.push(word.as_str())?;
    }
    let (mut input, mut output, mut faults) = (rt.stdin(), rt.stdout(), rt.stderr());
    let status = run_plan_words(
        rt.alloc(),
        words.as_slice(),
        &mut input,
        &mut output,
        &mut faults,
        &Disk::new(rt),
    );
    Ok(status)
}

fn main(rt: HostRuntime) -> ExitCode {
    let status = match run(&rt) {
        Ok(status) => status,
        Err(error) => tell_unread_words(&error, &mut rt.stderr()),
    };
    ExitCode::from(status.number())
}
