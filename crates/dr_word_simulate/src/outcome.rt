//! What comes of a script.
ghost use Rattle.std.specs.Prelude.{◌≡◌, ◌<◌, IfErr, IfOk, length};
ghost use Rattle.dr_word_simulate.specs.Reported.{IsReportAfter, IsUnreported};
ghost use Rattle.dr_word_simulate.specs.Outcomes.{IsOutcomeOf, StopsAs, status_for};
ghost use Rattle.dr_world_script.specs.Scripts.{told_lines};

use crate::orders::{ActFault, ScriptStop, orders_of};
use crate::telling::{tell_changes, tell_refusals};
use dr_base::Text;
use dr_cert::Sealed;
use dr_run_files::Files;
use dr_run_open::Status;
use dr_world::{PlayedWorld, WorldFault, WorldOrder, run};
use dr_world_script::{ScriptFault, line_of, read_script};
use std::alloc::Global;
use std::io;

/// What comes of a script, played in a world of a sealed plan's nodes.
#[derive(Drop)]
pub enum PlayOutcome {
    /// What came of the changes of plan that weren't made, what other makers' products didn't do,
    /// and the report of all nodes after what the script tells.
    Report(Text),
    /// The text is no script: the first line that tells nothing, counted from 1.
    NoScript(u64),
    /// The files that this line names, counted from 1, have no sound plan with its certificate.
    Unsealed(u64),
    /// A file of this path, which the script names, wasn't read.
    Unread(String, io::Error),
    /// A ledger's store failed in a change of plan.
    HalfAdopted,
    /// There was no memory.
    Memory,
}

impl PlayOutcome {
    /// The status with which the program ends, where the outcome is told.
    pub fn status(&self) -> Status
        ensures { result ≡ status_for self.now }
    {
        match self {
            PlayOutcome::Report(_) => Status::Success,
            PlayOutcome::NoScript(_) | PlayOutcome::Unsealed(_) => Status::Refused,
            PlayOutcome::Unread(_, _) | PlayOutcome::HalfAdopted => Status::InputOutput,
            PlayOutcome::Memory => Status::Memory,
        }
    }
}

/// What the changes of plan came to that weren't made, what other makers' products were told and
/// didn't do, and the report of all nodes after these orders, from the beginning of the plan's
/// world.
///
/// Errors: HalfAdopted, Memory.
fn report_after(alloc: Global, sealed: &Sealed, orders: &[WorldOrder]) -> Result<Text, WorldFault>
    ensures reports { IfOk result
        (IsReportAfter sealed.now.plan sealed.now.certificate orders.now) }
    ensures unreported { IfErr result (IsUnreported orders.now) }
{
    let PlayedWorld { world, notes } = run(alloc, sealed, orders)?;
    let mut world = world;
    let mut report = Vec::new(alloc);
    tell_changes(notes.changes.as_slice(), &mut report)?;
    tell_refusals(notes.refusals.as_slice(), &mut report)?;
    let told = world.report(notes.others.as_slice(), &mut report);
    drop(world);
    match told {
        Ok(()) => Ok(Text::from_vec(report)),
        // a ledger in memory that only reads has no other fault
        Err(_) => Err(WorldFault::Memory),
    }
}

/// What comes of a script, where something in it can't be done.
fn outcome_of_stop(alloc: Global, text: &[u8], stop: ScriptStop) -> PlayOutcome
    requires { stop.place < length (told_lines text.now) }
    ensures { StopsAs text.now stop.place stop.fault result }
{
    let ScriptStop { place, fault } = stop;
    match fault {
        ActFault::Unsealed => match line_of(alloc, text, place) {
            Ok(line) => PlayOutcome::Unsealed(line),
            Err(_) => PlayOutcome::Memory,
        },
        ActFault::Unread(path, error) => PlayOutcome::Unread(path, error),
        ActFault::Memory => PlayOutcome::Memory,
    }
}

/// What comes of the text of a script, played in a world of the plan's nodes: each begins with
/// nothing. The plans that it names are read before anything is done.
pub fn outcome_of<F: Files>(alloc: Global, files: &F, sealed: &Sealed, text: &[u8]) -> PlayOutcome
    ensures { IsOutcomeOf (F.holds files.now) sealed.now.plan sealed.now.certificate text.now
        result }
{
    let acts = match read_script(alloc, text) {
        Ok(acts) => acts,
        Err(ScriptFault::Line(line)) => return PlayOutcome::NoScript(line),
        Err(ScriptFault::Memory) => return PlayOutcome::Memory,
    };
    let orders = match orders_of(alloc, files, acts.into_vec()) {
        Ok(orders) => orders,
        Err(stop) => return outcome_of_stop(alloc, text, stop),
    };
    match report_after(alloc, sealed, orders.as_slice()) {
        Ok(report) => PlayOutcome::Report(report),
        Err(WorldFault::HalfAdopted) => PlayOutcome::HalfAdopted,
        Err(_) => PlayOutcome::Memory,
    }
}
