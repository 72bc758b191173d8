//! The word `echo`.
ghost use Rattle.std.specs.Prelude.{IfOk, OnOk};
ghost use Rattle.std.specs.Io.KnownBytes.{Appends};
ghost use Rattle.dr_base.specs.Texts.{Text};
ghost use Rattle.dr_word_echo.specs.Outcomes.{printed_for};
ghost use Rattle.dr_word_echo.specs.Runs.{Echoes};

use crate::outcome::{EchoOutcome, outcome_of};
use crate::print::line_of;
use dr_run_files::{Failure, Files, read_file};
use dr_run_net::Network;
use dr_run_open::{Status, plan_of, tell_answer};
use dr_session::Clock;
use std::alloc::Global;
use std::io;
use std::io::Write;

/// What names two nodes of which one asks the other for an echo: the path of their plan's text, the
/// name of the node that asks, and that of the node that is asked.
#[derive(Clone, Copy, Drop)]
pub struct EchoNodes<'a> {
    pub plan: &'a str,
    pub caller: &'a str,
    pub called: &'a str,
}

/// Writes the outcome: the line of an echo to the output, and why there is none to the faults.
fn tell_outcome<W: Write, E: Write>(
    alloc: Global,
    outcome: &EchoOutcome,
    called: &str,
    output: &mut W,
    faults: &mut E,
) -> io::Result<()>
    ensures { OnOk result
        (Appends (W.contents output.old) (W.contents output.new) (printed_for outcome.now)) }
{
    match outcome {
        EchoOutcome::Answered(echoed) => {
            let line = line_of(alloc, *echoed)?;
            output.write_all(line.as_bytes())
        }
        EchoOutcome::NoNode => writeln!(faults, "dr_router: NoNode"),
        EchoOutcome::Nowhere => writeln!(faults, "dr_router: {called}: Nowhere"),
        EchoOutcome::Unreached(error) => writeln!(faults, "dr_router: {called}: {error}"),
        EchoOutcome::Failed(fault) => writeln!(faults, "dr_router: {fault}"),
        EchoOutcome::Memory => writeln!(faults, "dr_router: Memory"),
    }
}

/// Asks for an echo between two nodes of the plan of a text.
fn echo_text<N: Network, C: Clock, W: Write, E: Write>(
    alloc: Global,
    text: &[u8],
    nodes: EchoNodes<'_>,
    network: &N,
    clock: &C,
    output: &mut W,
    faults: &mut E,
) -> io::Result<Status>
    ensures { IfOk result
        (Echoes (N.connects network.now) N.Socket.hears N.Socket.sends N.Socket.closes
        (C.tells clock.now) nodes.entry.caller.now nodes.entry.called.now text.now
        (W.contents output.old) (W.contents output.new)) }
{
    let plan = match plan_of(alloc, text) {
        Ok(plan) => plan,
        Err(answer) => {
            tell_answer(&answer, output, faults)?;
            return Ok(answer.status());
        }
    };
    let outcome = outcome_of(alloc, &plan, nodes.caller, nodes.called, network, clock);
    tell_outcome(alloc, &outcome, nodes.called, output, faults)?;
    Ok(outcome.status())
}

/// Asks the node of the second name for an echo, as the node of the first one, both of the plan in
/// the file.
///
/// Errors: Stream, File.
pub fn echo_files<'a, F: Files, N: Network, C: Clock, W: Write, E: Write>(
    alloc: Global,
    files: &F,
    nodes: EchoNodes<'a>,
    network: &N,
    clock: &C,
    output: &mut W,
    faults: &mut E,
) -> Result<Status, Failure<'a>>
    ensures { IfOk result (λ status. (text : Text)
        × F.holds files.now nodes.entry.plan.now text
        × Echoes (N.connects network.now) N.Socket.hears N.Socket.sends N.Socket.closes
        (C.tells clock.now) nodes.entry.caller.now nodes.entry.called.now text
        (W.contents output.old) (W.contents output.new) status) }
{
    let text = read_file(alloc, files, nodes.plan)?;
    let status = echo_text(
        alloc,
        text.as_slice(),
        nodes,
        network,
        clock,
        output,
        faults,
    )?;
    Ok(status)
}
