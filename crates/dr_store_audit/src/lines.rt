//! The lines of a journal, with where they go on to.
ghost use Rattle.std.specs.Prelude.{◌≡◌, IfOk};
ghost use Rattle.dr_ledger_history.specs.Lines.{line_of};
ghost use Rattle.dr_store_audit.specs.Goals.{AreByLine};
ghost use Rattle.dr_store_audit.specs.Journal.{line_told};
ghost use Rattle.dr_store_lists.specs.declared.listing.JournalRow.TheVariants as noted;

use crate::goals::targets_of;
use dr_base::Text;
use dr_ledger::Instance;
use dr_ledger_history::JournalLine;
use dr_store_lists::JournalRow;
use std::alloc::{AllocError, Global};

/// The line of a first arrival.
fn arrival_of(
    alloc: Global,
    goals: &[(u64, Text)],
    n: u64,
    caller: &Text,
    instance: &Instance,
) -> Result<JournalLine, AllocError>
    requires { AreByLine goals.now }
    ensures { IfOk result (λ line.
        line_of line ≡ line_told goals.now n (noted.Arrival caller.now instance.now)) }
{
    let targets = targets_of(alloc, goals, n)?;
    let instance = instance.copy()?;
    let caller = caller.clone()?;
    Ok(JournalLine::Arrival {
        caller,
        instance,
        to: targets.to,
        keep: targets.keep,
    })
}

/// The line of a note. The goals, in the order of their lines, say where a first arrival goes on
/// to.
pub fn line_for(
    alloc: Global,
    goals: &[(u64, Text)],
    n: u64,
    note: &JournalRow,
) -> Result<JournalLine, AllocError>
    requires { AreByLine goals.now }
    ensures { IfOk result (λ line. line_of line ≡ line_told goals.now n note.now) }
{
    match note {
        JournalRow::Arrival { caller, instance } => arrival_of(alloc, goals, n, caller, instance),
        JournalRow::Repeat { caller, instance } => Ok(JournalLine::Repeat {
            caller: caller.clone()?,
            instance: instance.copy()?,
        }),
        JournalRow::Settling {
            uid,
            dest,
            outcome,
            now,
        } => Ok(JournalLine::Settling {
            uid: uid.clone()?,
            dest: dest.clone()?,
            outcome: *outcome,
            now: *now,
        }),
        JournalRow::Requeuing { uid, dest } => Ok(JournalLine::Requeuing {
            uid: uid.clone()?,
            dest: dest.clone()?,
        }),
        JournalRow::Dropping { uid, dest, now } => Ok(JournalLine::Dropping {
            uid: uid.clone()?,
            dest: dest.clone()?,
            now: *now,
        }),
        JournalRow::Forgetting { uid } => Ok(JournalLine::Forgetting { uid: uid.clone()? }),
        JournalRow::Adoption => Ok(JournalLine::Adoption),
    }
}
