//! The line of a journal that a mismatch speaks of.
ghost use Rattle.std.specs.Prelude.{◌≡◌, Some, cond, map as mapped};
ghost use Rattle.dr_ledger_history.specs.Lines.{line_of};
ghost use Rattle.dr_word_audit.specs.Places.{IsLast, came_from as is_from, goes_on as is_to};
ghost use Rattle.dr_word_audit.specs.Places.{is_brought as is_brought_by, lines_named, node_of};
ghost use Rattle.dr_word_audit.specs.Places.{says as is_said, was_taken as is_a_success};
ghost use Rattle.dr_word_audit.specs.Places.{was_unfair as is_not_fair};

use crate::counting::is_taken;
use dr_base::Text;
use dr_ledger::Instance;
use dr_ledger_history::JournalLine;
use dr_word_adopt::is_among;
use dr_world_audit::audit::{Mismatch, NodeJournal, is_fair};

/// Whether the line is of an arrival of the UID that goes on to there.
pub fn goes_on(uid: &Text, to: &Text, line: &JournalLine) -> bool
    ensures { result ≡ is_to uid.now to.now (line_of line.now) }
{
    match line {
        JournalLine::Arrival {
            caller: _,
            instance,
            to: next,
            keep: _,
        } => instance.uid == *uid && is_among(next.as_slice(), to),
        JournalLine::Repeat { .. } => false,
        JournalLine::Settling { .. } => false,
        JournalLine::Requeuing { .. } => false,
        JournalLine::Dropping { .. } => false,
        JournalLine::Forgetting { .. } => false,
        JournalLine::Adoption => false,
    }
}

/// Whether the caller has that name, and the instance that UID.
fn is_brought(uid: &Text, from: &Text, caller: &Text, instance: &Instance) -> bool
    ensures { result ≡ is_brought_by uid.now from.now caller.now instance.now }
{
    instance.uid == *uid && *caller == *from
}

/// Whether by the line the UID arrived from there.
pub fn came_from(uid: &Text, from: &Text, line: &JournalLine) -> bool
    ensures { result ≡ is_from uid.now from.now (line_of line.now) }
{
    match line {
        JournalLine::Arrival {
            caller,
            instance,
            to: _,
            keep: _,
        } => is_brought(uid, from, caller, instance),
        JournalLine::Repeat { caller, instance } => is_brought(uid, from, caller, instance),
        JournalLine::Settling { .. } => false,
        JournalLine::Requeuing { .. } => false,
        JournalLine::Dropping { .. } => false,
        JournalLine::Forgetting { .. } => false,
        JournalLine::Adoption => false,
    }
}

/// Whether the line settles the row of the UID to there, by a success.
fn was_taken(uid: &Text, to: &Text, line: &JournalLine) -> bool
    ensures { result ≡ is_a_success uid.now to.now (line_of line.now) }
{
    match line {
        JournalLine::Settling {
            uid: one,
            dest,
            outcome,
            now: _,
        } => (*one == *uid && *dest == *to) && is_taken(*outcome),
        JournalLine::Arrival { .. } => false,
        JournalLine::Repeat { .. } => false,
        JournalLine::Requeuing { .. } => false,
        JournalLine::Dropping { .. } => false,
        JournalLine::Forgetting { .. } => false,
        JournalLine::Adoption => false,
    }
}

/// Whether the line settles it by an outcome that isn't fair.
fn was_unfair(uid: &Text, to: &Text, line: &JournalLine) -> bool
    ensures { result ≡ is_not_fair uid.now to.now (line_of line.now) }
{
    match line {
        JournalLine::Settling {
            uid: one,
            dest,
            outcome,
            now: _,
        } => (*one == *uid && *dest == *to) && !is_fair(*outcome),
        JournalLine::Arrival { .. } => false,
        JournalLine::Repeat { .. } => false,
        JournalLine::Requeuing { .. } => false,
        JournalLine::Dropping { .. } => false,
        JournalLine::Forgetting { .. } => false,
        JournalLine::Adoption => false,
    }
}

/// Whether the mismatch speaks of the line.
fn says(mismatch: &Mismatch, line: &JournalLine) -> bool
    ensures { result ≡ is_said mismatch.now (line_of line.now) }
{
    match mismatch {
        Mismatch::NoHistory { .. } => false,
        Mismatch::NoHop { node: _, uid, to } => goes_on(uid, to, line),
        Mismatch::NotFair { node: _, uid, to } => was_unfair(uid, to, line),
        Mismatch::NoArrival { node: _, uid, to } => was_taken(uid, to, line),
        Mismatch::NoReason { node: _, uid, from } => came_from(uid, from, line),
    }
}

/// The later of two places, if the later one is such.
fn later(found: Option<usize>, place: usize, is_such: bool) -> Option<usize>
    ensures { result ≡ cond is_such (Some place) found }
{
    if is_such {
        return Some(place);
    }
    found
}

/// The number of the last line that the mismatch speaks of, from 1.
fn last_of(mismatch: &Mismatch, lines: &[JournalLine]) -> Option<usize>
    ensures { IsLast (is_said mismatch.now) (mapped line_of lines.now) result }
{
    let mut found = None;
    for (i, line) in lines.iter().enumerate() {
        found = later(found, i + 1, says(mismatch, line));
    }
    found
}

/// The node of which the mismatch speaks.
fn node_in(mismatch: &Mismatch) -> &Text
    ensures { result.now ≡ node_of mismatch.now }
{
    match mismatch {
        Mismatch::NoHistory { node } => node,
        Mismatch::NoHop { node, .. } => node,
        Mismatch::NotFair { node, .. } => node,
        Mismatch::NoArrival { node, .. } => node,
        Mismatch::NoReason { node, .. } => node,
    }
}

/// The lines of the node of that name; none where there is no such node.
fn lines_of<'n>(name: &Text, nodes: &'n [NodeJournal]) -> &'n [JournalLine]
    ensures { mapped line_of result.now ≡ lines_named name.now nodes.now }
{
    for node in nodes {
        if node.name == *name {
            return node.lines.as_slice();
        }
    }
    &[]
}

/// The number of the last line of its node that the mismatch speaks of, from 1.
pub fn place_of(mismatch: &Mismatch, nodes: &[NodeJournal]) -> Option<usize>
    ensures { IsLast (is_said mismatch.now) (lines_named (node_of mismatch.now) nodes.now) result }
{
    last_of(mismatch, lines_of(node_in(mismatch), nodes))
}
