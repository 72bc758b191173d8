//! Whether the lists of all tables are those of a ledger.
ghost use Rattle.std.specs.Prelude.{List};
ghost use Rattle.sqlite.specs.Tree.{Trees};
ghost use Rattle.dr_ledger.specs.Books.{Line};
ghost use Rattle.dr_ledger.specs.SiteRoutes.{site_routing};
ghost use Rattle.dr_store_audit.specs.Begun.{HasBegun};
ghost use Rattle.dr_store_audit.specs.Found.{AgreesAs, AreListsOf, HoldTogether};
ghost use Rattle.dr_store_audit.specs.Telling.{GoOnUnder};

use crate::begun::Begun;
use crate::fault::FindingFault;
use crate::goals::{are_before, are_by_line};
use crate::needs::{are_whole, needed};
use crate::stock::stock_all;
use crate::telling::{count_up, tell};
use dr_base::Text;
use dr_ledger::Progress;
use dr_route::Key;
use dr_site::Site;
use dr_store_lists::JournalRow;
use dr_store_reads::Print;
use std::alloc::Global;

/// The lists of all tables but `site`.
#[derive(Clone, Copy)]
pub struct TableLists<'x> {
    /// The key of each instance.
    pub keys: &'x [(Text, Key)],
    /// The print of each instance.
    pub prints: &'x [(Text, Print)],
    /// Who brought which instance.
    pub arrivals: &'x [(Text, Text)],
    /// The instances that are kept.
    pub kept: &'x [Text],
    /// How far each instance is on its way to each destination.
    pub rows: &'x [((Text, Text), Progress)],
    /// The lines of the journal, each with its number.
    pub notes: &'x [(u64, JournalRow)],
    /// Where first arrivals go on to, each with the number of its line.
    pub goals: &'x [(u64, Text)],
}

/// Tests that the lists of all tables are those of a ledger of the site, whose next line has this
/// number: that its past and the journal behind it are one of its ledger, that all else is what
/// these lines make, and that just the data sets are there that are needed.
///
/// Errors: OtherSite, only where they aren't; Memory.
pub fn agree(
    alloc: Global,
    site: &Site,
    lists: &TableLists<'_>,
    begun: Begun,
    next: u64,
) -> Result<(), FindingFault>
    ensures { (db : Trees) (past : List Line)
        → HasBegun past begun
        → GoOnUnder (site_routing site.now) past lists.now.notes.now
        → AreListsOf db lists.now.keys.now lists.now.prints.now lists.now.arrivals.now
        lists.now.kept.now lists.now.rows.now lists.now.notes.now lists.now.goals.now
        → AgreesAs result (HoldTogether past next site.now db lists.now.notes.now) }
{
    if !are_by_line(lists.goals) {
        return Err(FindingFault::OtherSite);
    }
    let items = match stock_all(alloc, lists.keys, lists.prints) {
        Ok(items) => items,
        Err(fault) => return Err(fault),
    };
    let history = match tell(alloc, site, lists.goals, lists.notes, begun.history) {
        Ok(history) => history,
        Err(fault) => return Err(fault),
    };
    if !history.has_just(&items, lists.arrivals, lists.kept, lists.rows) {
        return Err(FindingFault::OtherSite);
    }
    let uids = match needed(alloc, lists.kept, lists.rows) {
        Ok(uids) => uids,
        Err(fault) => return Err(fault),
    };
    if !are_whole(lists.prints, &uids) {
        return Err(FindingFault::OtherSite);
    }
    if !are_before(lists.goals, next) || !count_up(begun.first, lists.notes) {
        return Err(FindingFault::OtherSite);
    }
    Ok(())
}
