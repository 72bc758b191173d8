//! Rows that were carried over when the plan was adopted.
ghost use Rattle.std.specs.Prelude.{◌≡◌, IfOk, OnOk, IsTrue, false, map as mapped, option_copied};
ghost use Rattle.dr_ledger_history.specs.Contents.{book_of, content};
ghost use Rattle.dr_ledger_history.specs.Lines.{line_of};
ghost use Rattle.dr_world_audit.specs.Hops.{grows_by};
ghost use Rattle.dr_world_audit.specs.Standing.{FitsAt, Stands, StandsAt, UnfitAt, goals_to};
ghost use Rattle.dr_world_journals.specs.Hops.{goals, goals_by, stands_at};

use crate::fault::JournalFault;
use crate::place::HopPlace;
use crate::trail::push_found;
use dr_base::Text;
use dr_cert::Sealed;
use dr_ledger::Instance;
use dr_ledger_history::{History, JournalLine};
use std::alloc::{AllocError, Global};

/// The instance of the goal's row, if it stands.
fn standing_at<'a>(told: &'a History, at: &(Text, Text)) -> Option<&'a Instance>
    ensures { StandsAt (book_of (content told.now.parts)) at.now (option_copied result) }
{
    if told.row(at).is_none() {
        return None;
    }
    told.item(&at.0)
}

/// Notes the row of a line's goal, if it stands; whether the plan has a hop for it then. `goal` has
/// the node of the goal and the instance of the line, as they stand in the line.
fn stand_at<'a>(
    alloc: Global,
    sealed: &Sealed,
    name: &'a Text,
    told: &History,
    at: &(Text, Text),
    goal: (&'a Text, &'a Instance),
    sent: &mut Vec<HopPlace<'a>>,
) -> Result<bool, AllocError>
    requires { at.now.1 ≡ goal.0.now }
    ensures hops { OnOk result
        (grows_by sent.old.items (stands_at name.now (book_of (content told.now.parts)) at.now)
        sent.new.items) }
    ensures fit { IfOk result (λ fits. IsTrue fits
        → FitsAt sealed.now.plan name.now (book_of (content told.now.parts)) at.now) }
    ensures unfit { IfOk result (λ fits. fits ≡ false
        → UnfitAt sealed.now.plan name.now (book_of (content told.now.parts)) at.now) }
{
    let Some(instance) = standing_at(told, at) else {
        return Ok(true);
    };
    push_found(alloc, sent, name, goal.0, instance, Some(goal.1))?;
    match sealed.rank(name, &at.1, &instance.key) {
        Some(_) => Ok(true),
        None => Ok(false),
    }
}

/// Notes the rows of an instance that stand for these nodes.
///
/// Errors: Unfit; Memory.
fn stand_each<'a>(
    alloc: Global,
    ends: (&Sealed, &'a Text),
    told: &History,
    instance: &'a Instance,
    to: &'a [Text],
    sent: &mut Vec<HopPlace<'a>>,
) -> Result<(), JournalFault>
    ensures { Stands ends.entry.0.now.plan ends.entry.1.now (book_of (content told.now.parts))
        (goals_to instance.now.uid to.now) sent.old.items sent.new.items result }
{
    for next in to {
        let at = (instance.uid.clone()?, next.clone()?);
        if !stand_at(alloc, ends.0, ends.1, told, &at, (next, instance), sent)? {
            let (uid, to) = at;
            return Err(JournalFault::Unfit { uid, to });
        }
    }
    Ok(())
}

/// Notes the rows that stand for a line's goals.
///
/// Errors: Unfit; Memory.
fn stand_line<'a>(
    alloc: Global,
    ends: (&Sealed, &'a Text),
    told: &History,
    line: &'a JournalLine,
    sent: &mut Vec<HopPlace<'a>>,
) -> Result<(), JournalFault>
    ensures { Stands ends.entry.0.now.plan ends.entry.1.now (book_of (content told.now.parts))
        (goals_by (line_of line.now)) sent.old.items sent.new.items result }
{
    match line {
        JournalLine::Arrival {
            caller: _,
            instance,
            to,
            keep: _,
        } => stand_each(alloc, ends, told, instance, to.as_slice(), sent),
        JournalLine::Repeat { .. } => Ok(()),
        JournalLine::Settling { .. } => Ok(()),
        JournalLine::Requeuing { .. } => Ok(()),
        JournalLine::Dropping { .. } => Ok(()),
        JournalLine::Forgetting { .. } => Ok(()),
        JournalLine::Adoption => Ok(()),
    }
}

/// Notes the rows that stand for the goals of these lines.
///
/// Errors: Unfit where the plan has no hop for one; Memory.
pub fn stand_all<'a>(
    alloc: Global,
    ends: (&Sealed, &'a Text),
    told: &History,
    lines: &'a [JournalLine],
    sent: &mut Vec<HopPlace<'a>>,
) -> Result<(), JournalFault>
    ensures { Stands ends.entry.0.now.plan ends.entry.1.now (book_of (content told.now.parts))
        (goals (mapped line_of lines.now)) sent.old.items sent.new.items result }
{
    for line in lines {
        match stand_line(alloc, ends, told, line, sent) {
            Ok(()) => {}
            Err(fault) => return Err(fault),
        }
    }
    Ok(())
}
