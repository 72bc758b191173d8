//! What a journal's lines make of a node.
ghost use Rattle.std.specs.Prelude.{◌≡◌, List, [], option_copied};
ghost use Rattle.std.specs.FinMap as map;
ghost use Rattle.std.specs.FinSet as set;
ghost use Rattle.dr_base.specs.Texts.{text_cmp};
ghost use Rattle.dr_ledger.specs.Books.{Line};
ghost use Rattle.dr_ledger.specs.SiteRoutes.{site_routing};
ghost use Rattle.dr_ledger_history.specs.Contents.{HasJust, content, held_in};
ghost use Rattle.dr_ledger_history.specs.Lines.{line_of};
ghost use Rattle.dr_ledger_history.specs.Told.{IsTold, IsToldSince, Tells, TellsSince};
ghost use Rattle.dr_ledger_history.specs.Trees.{as_map};

use crate::line::{HistoryFault, JournalLine};
use crate::parts::HistoryParts;
use crate::site::is_by;
use dr_base::Text;
use dr_ledger::{Instance, Progress};
use dr_site::Site;
use std::alloc::Global;
use std::collections::{BTreeMap, BTreeSet};

/// What a node has by the lines that were told: its instances, who brought which uid, the kept
/// uids, and how far each (uid, destination) is. It is the book of these lines but for the lines
/// themselves, which it doesn't hold. A line that isn't taken ends it.
#[derive(Drop)]
pub struct History {
    alloc: Global,
    parts: HistoryParts,
}

impl History {
    /// Of no lines; it takes no memory.
    pub fn new(alloc: Global) -> History
        ensures { IsTold [] (content result.parts) }
    {
        History {
            alloc,
            parts: HistoryParts::new(alloc),
        }
    }

    /// Of what these trees hold, which lines made that aren't told again; it takes no memory. Where
    /// that is what they made, it goes on from them (`IsTold`).
    pub fn of_trees(
        alloc: Global,
        items: BTreeMap<Text, Instance>,
        arrivals: BTreeSet<(Text, Text)>,
        kept: BTreeSet<Text>,
        rows: BTreeMap<(Text, Text), Progress>,
    ) -> History
        ensures { content result.parts ≡ held_in items arrivals kept rows }
    {
        History {
            alloc,
            parts: HistoryParts::of_trees(items, arrivals, kept, rows),
        }
    }

    /// Its instances by uid.
    pub fn items(&self) -> &BTreeMap<Text, Instance>
        ensures { result.now ≡ self.now.parts.items }
    {
        self.parts.items()
    }

    /// Who brought which uid.
    pub fn arrivals(&self) -> &BTreeSet<(Text, Text)>
        ensures { result.now ≡ self.now.parts.arrivals }
    {
        self.parts.arrivals()
    }

    /// The kept uids.
    pub fn kept(&self) -> &BTreeSet<Text>
        ensures { result.now ≡ self.now.parts.kept }
    {
        self.parts.kept()
    }

    /// How far each (uid, destination) is.
    pub fn rows(&self) -> &BTreeMap<(Text, Text), Progress>
        ensures { result.now ≡ self.now.parts.rows }
    {
        self.parts.rows()
    }

    /// Takes the next line of those up to the last adoption, whose plans are gone: the book before
    /// it accepts its call, but for what a plan says of it.
    ///
    /// Errors: NoCall; Memory, which may come before it.
    pub fn tell_past(self, line: JournalLine) -> Result<History, HistoryFault>
        ensures { (lines : List Line)
            → IsTold lines (content self.parts)
            → Tells lines (line_of line) result }
    {
        let alloc = self.alloc;
        let mut history = self;
        match history.parts.take(alloc, line) {
            Ok(()) => Ok(history),
            Err(fault) => Err(fault),
        }
    }

    /// Takes the next line of those since the last adoption, which are calls at the node of this
    /// site.
    ///
    /// Errors: NoCall; Memory, which may come before it.
    pub fn tell(self, site: &Site, line: JournalLine) -> Result<History, HistoryFault>
        ensures { (past since : List Line)
            → IsToldSince (site_routing site.now) past since (content self.parts)
            → TellsSince (site_routing site.now) past since (line_of line) result }
    {
        let by = is_by(self.alloc, site, &line)?;
        if !by {
            return Err(HistoryFault::NoCall);
        }
        let alloc = self.alloc;
        let mut history = self;
        match history.parts.take(alloc, line) {
            Ok(()) => Ok(history),
            Err(fault) => Err(fault),
        }
    }

    /// The instance with this uid.
    pub fn item(&self, uid: &Text) -> Option<&Instance>
        ensures { option_copied result ≡ map.get (content self.now.parts).items uid.now }
    {
        self.parts.item(uid)
    }

    /// Whether the uid is kept.
    pub fn is_kept(&self, uid: &Text) -> bool
        ensures { result ≡ set.contains (content self.now.parts).kept uid.now }
    {
        self.parts.is_kept(uid)
    }

    /// How far the uid is on its way to the destination.
    pub fn row(&self, at: &(Text, Text)) -> Option<Progress>
        ensures { result ≡ map.get (content self.now.parts).rows at.now }
    {
        self.parts.row(at)
    }

    /// Whether these are all of it: the instances by uid, and the lists of arrivals, of kept uids
    /// and of rows. It says so of lists that are in the order of their keys.
    pub fn has_just(
        &self,
        items: &BTreeMap<Text, Instance>,
        arrivals: &[(Text, Text)],
        kept: &[Text],
        rows: &[((Text, Text), Progress)],
    ) -> bool
        ensures { HasJust (content self.now.parts) (as_map text_cmp items.now) arrivals.now kept.now
            rows.now result }
    {
        self.parts.has_just(items, arrivals, kept, rows)
    }
}
