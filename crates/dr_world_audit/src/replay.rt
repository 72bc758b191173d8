//! The lines of a journal, told to a history, with what they say of instances between nodes.
ghost use Rattle.std.specs.Prelude.{◌≡◌, ◌≤◌, IfOk, List, [], length, map as mapped, take};
ghost use Rattle.dr_ledger.specs.Books.{Line};
ghost use Rattle.dr_ledger.specs.Histories.{IsBeforeAdoption};
ghost use Rattle.dr_ledger.specs.SiteRoutes.{site_routing};
ghost use Rattle.dr_ledger_history.specs.Contents.{content};
ghost use Rattle.dr_ledger_history.specs.Lines.{line_of};
ghost use Rattle.dr_ledger_history.specs.Told.{IsToldSince};
ghost use Rattle.dr_world_audit.specs.Replays.{TellsAll, TellsAllSince, is_an_adoption};
ghost use Rattle.dr_world_journals.specs.Journals.{until_adoption};

use crate::trail::{Trail, note};
use dr_base::Text;
use dr_ledger_history::{History, HistoryFault, JournalLine, copy_line};
use dr_site::Site;
use std::alloc::Global;
use std::collections::BTreeMap;

/// Whether it is an adoption.
fn is_adoption(line: &JournalLine) -> bool
    ensures { result ≡ is_an_adoption (line_of line.now) }
{
    match line {
        JournalLine::Adoption => true,
        JournalLine::Arrival { .. } => false,
        JournalLine::Repeat { .. } => false,
        JournalLine::Settling { .. } => false,
        JournalLine::Requeuing { .. } => false,
        JournalLine::Dropping { .. } => false,
        JournalLine::Forgetting { .. } => false,
    }
}

/// How many lines there are up to the last adoption.
pub fn count_past(lines: &[JournalLine]) -> usize
    ensures bound { result ≤ length lines.now }
    ensures past { mapped line_of (take result lines.now)
        ≡ until_adoption (mapped line_of lines.now) }
    ensures over { IsBeforeAdoption (mapped line_of (take result lines.now)) }
{
    let mut end = 0;
    for (i, line) in lines.iter().enumerate() {
        if is_adoption(line) {
            end = i + 1;
        }
    }
    end
}

/// Tells the lines up to the last adoption, whose plans may be gone.
///
/// Errors: NoCall where they are no history; Memory.
pub fn tell_past(alloc: Global, lines: &[JournalLine]) -> Result<History, HistoryFault>
    ensures { TellsAll (mapped line_of lines.now) result }
{
    let mut history = History::new(alloc);
    for line in lines {
        match history.tell_past(copy_line(line)?) {
            Ok(next) => history = next,
            Err(fault) => return Err(fault),
        }
    }
    Ok(history)
}

/// Tells the lines since the last adoption, which the node of this site and name added, and notes
/// what they say.
///
/// Errors: NoCall where they are no history; Memory.
pub fn tell_since<'a>(
    alloc: Global,
    site: &Site,
    name: &'a Text,
    known: &BTreeMap<&'a Text, &'a JournalLine>,
    lines: &'a [JournalLine],
    told: History,
    trail: &mut Trail<'a>,
) -> Result<History, HistoryFault>
    requires { site.now.name ≡ name.now }
    ensures { (past : List Line)
        → IsToldSince (site_routing site.now) past [] (content told.parts)
        → TellsAllSince site.now past (mapped line_of lines.now) trail.old trail.new result }
{
    let mut history = told;
    for line in lines {
        note(alloc, site, name, &history, known, line, trail)?;
        match history.tell(site, copy_line(line)?) {
            Ok(next) => history = next,
            Err(fault) => return Err(fault),
        }
    }
    Ok(history)
}
