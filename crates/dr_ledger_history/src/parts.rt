//! What a journal's lines make of a node, held in trees.
ghost use Rattle.std.specs.Prelude.{◌≡◌, ◌↔◌, ◌<◌, ◌≤◌, ◌^◌, IsTrue, OnOk, Some, option_copied};
ghost use Rattle.std.specs.FinMap as map;
ghost use Rattle.std.specs.FinSet as set;
ghost use Rattle.dr_ledger.specs.Books.{Arrival, Adoption, Dropping, Forgetting, Repeat, Requeuing};
ghost use Rattle.dr_ledger.specs.Books.{Settling, after, empty_book};
ghost use Rattle.dr_ledger.specs.Histories.{IsSame};
ghost use Rattle.dr_ledger_history.specs.Contents.{HasJust, book_of, content, content_of};
ghost use Rattle.dr_ledger_history.specs.Contents.{held_in};
ghost use Rattle.dr_ledger_history.specs.Lines.{line_of};
ghost use Rattle.dr_ledger_history.specs.Takings.{TakesLine};
ghost use Rattle.dr_ledger_history.specs.Trees.{as_map};
ghost use Rattle.dr_base.specs.Texts.{text_cmp};

use crate::comparing::{are_arrivals, are_items, are_kept, are_rows, is_same};
use crate::letting::{let_callers_go, let_rows_go, take_item};
use crate::line::{HistoryFault, JournalLine};
use crate::trees::{clear, fill, prune, put_arrival, put_item, put_row, put_uid};
use dr_base::{Seq, Text};
use dr_ledger::{Cause, Instance, Outcome, Progress, moved};
use std::alloc::{AllocError, Global};
use std::collections::{BTreeMap, BTreeSet};

/// The last moment at which a try may end, or a row be dropped, in milliseconds.
const LAST_MOMENT: u64 = 1 << 62;

/// Instances by uid, who brought which uid, the kept uids, and how far each (uid, destination) is.
#[derive(Drop)]
pub struct HistoryParts {
    items: BTreeMap<Text, Instance>,
    arrivals: BTreeSet<(Text, Text)>,
    kept: BTreeSet<Text>,
    rows: BTreeMap<(Text, Text), Progress>,
}

impl HistoryParts {
    /// Of nothing; it takes no memory.
    pub fn new(alloc: Global) -> HistoryParts
        ensures { content result ≡ content_of empty_book }
    {
        HistoryParts {
            items: BTreeMap::new(alloc),
            arrivals: BTreeSet::new(alloc),
            kept: BTreeSet::new(alloc),
            rows: BTreeMap::new(alloc),
        }
    }

    /// Of what these trees hold; it takes no memory.
    pub fn of_trees(
        items: BTreeMap<Text, Instance>,
        arrivals: BTreeSet<(Text, Text)>,
        kept: BTreeSet<Text>,
        rows: BTreeMap<(Text, Text), Progress>,
    ) -> HistoryParts
        ensures { content result ≡ held_in items arrivals kept rows }
    {
        HistoryParts {
            items,
            arrivals,
            kept,
            rows,
        }
    }

    /// Its instances by uid.
    pub fn items(&self) -> &BTreeMap<Text, Instance>
        ensures { result.now ≡ self.now.items }
    {
        &self.items
    }

    /// Who brought which uid.
    pub fn arrivals(&self) -> &BTreeSet<(Text, Text)>
        ensures { result.now ≡ self.now.arrivals }
    {
        &self.arrivals
    }

    /// The kept uids.
    pub fn kept(&self) -> &BTreeSet<Text>
        ensures { result.now ≡ self.now.kept }
    {
        &self.kept
    }

    /// How far each (uid, destination) is.
    pub fn rows(&self) -> &BTreeMap<(Text, Text), Progress>
        ensures { result.now ≡ self.now.rows }
    {
        &self.rows
    }

    /// Takes a line, whose plan may be gone.
    pub fn take(&mut self, alloc: Global, line: JournalLine) -> Result<(), HistoryFault>
        ensures { TakesLine (line_of line) (content self.old) result (content self.new) }
    {
        match line {
            JournalLine::Arrival {
                caller,
                instance,
                to,
                keep,
            } => self.arrive(caller, instance, to, keep),
            JournalLine::Repeat { caller, instance } => self.repeat(caller, instance),
            JournalLine::Settling {
                uid,
                dest,
                outcome,
                now,
            } => self.settle((uid, dest), outcome, now),
            JournalLine::Requeuing { uid, dest } => self.requeue((uid, dest)),
            JournalLine::Dropping { uid, dest, now } => self.give_up(alloc, (uid, dest), now),
            JournalLine::Forgetting { uid } => self.forget(alloc, &uid),
            JournalLine::Adoption => {
                self.adopt();
                Ok(())
            }
        }
    }

    /// A first arrival.
    fn arrive(
        &mut self,
        caller: Text,
        instance: Instance,
        to: Seq<Text>,
        keep: bool,
    ) -> Result<(), HistoryFault>
        ensures { TakesLine (Arrival caller instance to keep) (content self.old) result
            (content self.new) }
    {
        if !self.is_same(&instance) {
            return Err(HistoryFault::NoCall);
        }
        let arrival = (caller, instance.uid.clone()?);
        if self.has_arrival(&arrival) {
            return Err(HistoryFault::NoCall);
        }
        self.bring(arrival, instance, to, keep)?;
        Ok(())
    }

    /// What a first arrival puts in.
    fn bring(
        &mut self,
        arrival: (Text, Text),
        instance: Instance,
        to: Seq<Text>,
        keep: bool,
    ) -> Result<(), AllocError>
        requires { arrival.1 ≡ instance.uid }
        ensures { OnOk result
            (content self.new
            ≡ content_of
            (after (Arrival arrival.0 instance to keep) (book_of (content self.old)))) }
    {
        fill(&mut self.rows, &instance.uid, to.as_slice())?;
        if keep {
            put_uid(&mut self.kept, &instance.uid)?;
        }
        put_arrival(&mut self.arrivals, arrival)?;
        put_item(&mut self.items, instance)
    }

    /// Another arrival of what the caller brought before.
    fn repeat(&mut self, caller: Text, instance: Instance) -> Result<(), HistoryFault>
        ensures { TakesLine (Repeat caller instance) (content self.old) result (content self.new) }
    {
        if !self.is_same(&instance) {
            return Err(HistoryFault::NoCall);
        }
        let arrival = (caller, instance.uid.clone()?);
        if !self.has_arrival(&arrival) {
            return Err(HistoryFault::NoCall);
        }
        Ok(())
    }

    /// What came of a try.
    fn settle(&mut self, at: (Text, Text), outcome: Outcome, now: u64) -> Result<(), HistoryFault>
        ensures { TakesLine (Settling at.0 at.1 outcome now) (content self.old) result
            (content self.new) }
    {
        match self.row(&at) {
            Some(Progress::Waiting { tries, due }) => self.move_on(at, (tries, due), outcome, now),
            Some(Progress::Held(_)) => Err(HistoryFault::NoCall),
            Some(Progress::Done) => Err(HistoryFault::NoCall),
            Some(Progress::Dropped) => Err(HistoryFault::NoCall),
            None => Err(HistoryFault::NoCall),
        }
    }

    /// What came of a try of a row that waits, tried and due as given.
    fn move_on(
        &mut self,
        at: (Text, Text),
        was: (u32, u64),
        outcome: Outcome,
        now: u64,
    ) -> Result<(), HistoryFault>
        requires { map.get (content self.old).rows at ≡ Some (Progress.Waiting was.0 was.1) }
        ensures { TakesLine (Settling at.0 at.1 outcome now) (content self.old) result
            (content self.new) }
    {
        if now > LAST_MOMENT {
            return Err(HistoryFault::NoCall);
        }
        put_row(&mut self.rows, at, moved(was.0, outcome, now))?;
        Ok(())
    }

    /// A held row is queued again.
    fn requeue(&mut self, at: (Text, Text)) -> Result<(), HistoryFault>
        ensures { TakesLine (Requeuing at.0 at.1) (content self.old) result (content self.new) }
    {
        match self.row(&at) {
            Some(Progress::Held(_)) => {
                put_row(&mut self.rows, at, Progress::Waiting { tries: 0, due: 0 })?;
                Ok(())
            }
            Some(Progress::Waiting { .. }) => Err(HistoryFault::NoCall),
            Some(Progress::Done) => Err(HistoryFault::NoCall),
            Some(Progress::Dropped) => Err(HistoryFault::NoCall),
            None => Err(HistoryFault::NoCall),
        }
    }

    /// A held row is dropped.
    fn give_up(&mut self, alloc: Global, at: (Text, Text), now: u64) -> Result<(), HistoryFault>
        ensures { TakesLine (Dropping at.0 at.1 now) (content self.old) result (content self.new) }
    {
        match self.row(&at) {
            Some(Progress::Held(why)) => self.drop_row(alloc, at, now, why),
            Some(Progress::Waiting { .. }) => Err(HistoryFault::NoCall),
            Some(Progress::Done) => Err(HistoryFault::NoCall),
            Some(Progress::Dropped) => Err(HistoryFault::NoCall),
            None => Err(HistoryFault::NoCall),
        }
    }

    /// A row that is held for this cause is dropped, and who brought the uid is let go.
    fn drop_row(
        &mut self,
        alloc: Global,
        at: (Text, Text),
        now: u64,
        why: Cause,
    ) -> Result<(), HistoryFault>
        requires { map.get (content self.old).rows at ≡ Some (Progress.Held why) }
        ensures { TakesLine (Dropping at.0 at.1 now) (content self.old) result (content self.new) }
    {
        if now > LAST_MOMENT {
            return Err(HistoryFault::NoCall);
        }
        let_callers_go(alloc, &mut self.arrivals, &at.0)?;
        put_row(&mut self.rows, at, Progress::Dropped)?;
        Ok(())
    }

    /// What is over is let go. Of the rows and the arrivals only those of the uid are looked for,
    /// so that a journal with many forgettings is read as fast as one with none.
    fn forget(&mut self, alloc: Global, uid: &Text) -> Result<(), HistoryFault>
        ensures { TakesLine (Forgetting uid.now) (content self.old) result (content self.new) }
    {
        if self.item(uid).is_none() {
            return Err(HistoryFault::NoCall);
        }
        if self.is_kept(uid) {
            return Err(HistoryFault::NoCall);
        }
        if !let_rows_go(alloc, &mut self.rows, uid)? {
            return Err(HistoryFault::NoCall);
        }
        let_callers_go(alloc, &mut self.arrivals, uid)?;
        take_item(&mut self.items, uid);
        Ok(())
    }

    /// Arrivals and rows that are done or dropped leave.
    fn adopt(&mut self)
        ensures { content self.new ≡ content_of (after Adoption (book_of (content self.old))) }
    {
        clear(&mut self.arrivals);
        prune(&mut self.rows);
    }

    /// Whether no other instance has this one's uid.
    fn is_same(&self, instance: &Instance) -> bool
        ensures { IsTrue result ↔ IsSame (book_of (content self.now)) instance.now }
    {
        match self.item(&instance.uid) {
            Some(held) => is_same(held, instance),
            None => true,
        }
    }

    /// The instance with this uid.
    pub fn item(&self, uid: &Text) -> Option<&Instance>
        ensures { option_copied result ≡ map.get (content self.now).items uid.now }
    {
        self.items.get(uid)
    }

    /// Whether the caller brought the uid.
    fn has_arrival(&self, arrival: &(Text, Text)) -> bool
        ensures { result ≡ set.contains (content self.now).arrivals arrival.now }
    {
        self.arrivals.contains(arrival)
    }

    /// Whether the uid is kept.
    pub fn is_kept(&self, uid: &Text) -> bool
        ensures { result ≡ set.contains (content self.now).kept uid.now }
    {
        self.kept.contains(uid)
    }

    /// How far the uid is on its way to the destination.
    pub fn row(&self, at: &(Text, Text)) -> Option<Progress>
        ensures { result ≡ map.get (content self.now).rows at.now }
    {
        self.rows.get(at).copied()
    }

    /// Whether these are all of them. It says so of lists that are in the order of their keys.
    pub fn has_just(
        &self,
        items: &BTreeMap<Text, Instance>,
        arrivals: &[(Text, Text)],
        kept: &[Text],
        rows: &[((Text, Text), Progress)],
    ) -> bool
        ensures { HasJust (content self.now) (as_map text_cmp items.now) arrivals.now kept.now
            rows.now result }
    {
        if !are_items(&self.items, items) || !are_arrivals(&self.arrivals, arrivals) {
            return false;
        }
        are_kept(&self.kept, kept) && are_rows(&self.rows, rows)
    }
}
