//! The ledger of one node in memory.
ghost use Rattle.std.specs.Prelude.{◌≡◌, ◌↔◌, ◌≤◌, ◌-◌, ◌^◌, IsTrue, IfOk, OnOk, ◌++◌, None, Ok};
ghost use Rattle.std.specs.Prelude.{Some};
ghost use Rattle.std.specs.Prelude.{T, drop, false, length, map as mapped, option_copied, take};
ghost use Rattle.std.specs.Prelude.{true};
ghost use Rattle.std.specs.BTreeMap.{IsOrdered};
ghost use Rattle.std.specs.FinMap as map;
ghost use Rattle.std.specs.FinMap.{is_sorted};
ghost use Rattle.std.specs.FinSet as set;
ghost use Rattle.std.proofs.Props.{props};
ghost use Rattle.dr_base.specs.Texts.{text_cmp};
ghost use Rattle.dr_ledger.specs.Books.{empty_book};
ghost use Rattle.dr_ledger.specs.Bodies.{HasBodies, NextsWith, OnlyLetsGo, OnlyTakes};
ghost use Rattle.dr_ledger.specs.Adopting.{Adopting, Unfits, site_after};
ghost use Rattle.dr_ledger.specs.Histories.{IsJournalled};
ghost use Rattle.dr_ledger.specs.Items.{instance_of};
ghost use Rattle.dr_ledger.specs.Replies.{Admits, AreKept, Arrives, Drops, Dues, Forgets};
ghost use Rattle.dr_ledger.specs.Replies.{IsAdmitted, IsOver};
ghost use Rattle.dr_ledger.specs.Replies.{Lists, Requeues, Settles, entry_of};
ghost use Rattle.dr_ledger.specs.Pairs.{pair_cmp};
ghost use Rattle.dr_ledger.specs.SiteRoutes.{site_routing};
ghost use Rattle.dr_ledger_views.specs.Numbers.{last_of};
ghost use Rattle.dr_ledger_memory.specs.Changes.{at};
ghost use Rattle.dr_ledger_memory.specs.Contents.{content, data_sets, own_rows};
ghost use Rattle.dr_ledger_memory.specs.Entries.{rows_in};
ghost use Rattle.dr_ledger_memory.specs.Jobs.{IsJobOf};
ghost use Rattle.dr_ledger_memory.specs.Sound.{PartsAreSound, NeverFails, ShowsOrFails};
ghost use Rattle.dr_ledger_memory.specs.Unfits.{RowFits, IsUnfitRow, UnfitsIn};

use crate::bringing::{arrival_of, bringing};
use crate::held::Held;
use crate::holding::is_open;
use crate::parts::Parts;
use crate::waiting::first_due;
use dr_base::{Seq, Text};
use dr_cert::Sealed;
use dr_ledger::{
    Arrived, Cause, Entry, Instance, Item, Job, Ledger, LedgerFault, LetsGo, NextRow, Outcome,
    Progress, moved,
};
use dr_ledger_history::{JournalLine, copy_page, entries_of};
use dr_ledger_views::listing::{
    callers_of_all, count_all_arrivals, count_all_kept, count_all_rows, first_of_all, own_of_all,
    page_of_all,
};
use dr_ledger_views::{Moments, Origin, Stage, Views, last_behind};
use dr_route::Key;
use dr_site::Site;
use std::alloc::{AllocError, Global};

/// The ledger of one node, in memory. Its premise is none: each clause of `Ledger` holds always. It
/// never answers Store, and counts no failure.
#[derive(Drop)]
pub struct MemoryLedger {
    alloc: Global,
    site: Site,
    parts: Parts,
    ghost ordered: { IsOrdered text_cmp parts.held } by { Prim.hlevel props },
    ghost sound: { ∥ PartsAreSound site parts ∥₁ },
    ghost journalled: { ∥ IsJournalled (site_routing site) (content parts) ∥₁ },
    ghost bodied: { ∥ HasBodies (content parts) (data_sets parts) ∥₁ },
}

impl MemoryLedger {
    /// The ledger of this site, with nothing in it; it takes no memory.
    pub fn new(alloc: Global, site: Site) -> MemoryLedger
        ensures site { result.site ≡ site }
        ensures empty { content result.parts ≡ empty_book }
    {
        MemoryLedger {
            alloc,
            site,
            parts: Parts::new(alloc),
        }
    }

    /// Whether the item may arrive from the caller. It takes no memory.
    fn test(&self, caller: &Text, item: &Item) -> Result<(), LedgerFault>
        ensures reply { Admits (site_routing self.now.site) caller.now (instance_of item.now)
            (content self.now.parts) result }
        ensures never { NeverFails result }
    {
        if !self.site.has_line(caller, item.key()) {
            return Err(LedgerFault::NoLine);
        }
        let Some(entry) = self.parts.held.get(item.uid()) else {
            return Ok(());
        };
        if is_item(&entry.instance, item) {
            return Ok(());
        }
        Err(LedgerFault::Conflict)
    }

    /// Notes another arrival from a caller that brought the item before.
    fn repeat(&mut self, caller: &Text, item: &Item) -> Result<Arrived, LedgerFault>
        requires admitted { IsAdmitted (site_routing self.old.site) caller.now
            (instance_of item.now) (content self.old.parts) }
        requires again { set.contains (content self.old.parts).arrivals (caller.now, item.now.uid)
            ≡ true }
        ensures reply { Arrives (site_routing self.old.site) caller.now (instance_of item.now)
            (content self.old.parts) result (content self.new.parts) }
        ensures bodies { OnlyTakes item.now (data_sets self.old.parts) (data_sets self.new.parts) }
        ensures site { self.new.site ≡ self.old.site }
        ensures never { NeverFails result }
    {
        let note = JournalLine::Repeat {
            caller: caller.clone()?,
            instance: item.instance()?,
        };
        match self.parts.try_note(note) {
            Ok(()) => Ok(Arrived::Again),
            Err(_) => Err(LedgerFault::Memory),
        }
    }

    /// Takes a first arrival.
    fn bring(&mut self, caller: &Text, item: Item) -> Result<Arrived, LedgerFault>
        requires admitted { IsAdmitted (site_routing self.old.site) caller.now (instance_of item)
            (content self.old.parts) }
        requires first { set.contains (content self.old.parts).arrivals (caller.now, item.uid)
            ≡ false }
        ensures reply { Arrives (site_routing self.old.site) caller.now (instance_of item)
            (content self.old.parts) result (content self.new.parts) }
        ensures bodies { OnlyTakes item (data_sets self.old.parts) (data_sets self.new.parts) }
        ensures site { self.new.site ≡ self.old.site }
        ensures never { NeverFails result }
    {
        let targets = self.site.targets(self.alloc, caller, item.key())?;
        let rows = self.rows_held(item.uid());
        let new = bringing(self.alloc, caller, item, targets, rows)?;
        match self.parts.try_bring(new) {
            Ok(()) => Ok(Arrived::New),
            Err(_) => Err(LedgerFault::Memory),
        }
    }

    /// The rows of the uid; none where it isn't there.
    fn rows_held(&self, uid: &Text) -> &[(Text, Progress)]
        ensures rows { result.now ≡ rows_in (at self.now.parts.held uid.now) }
        ensures sorted { T (is_sorted text_cmp result.now) }
    {
        match self.parts.held.get(uid) {
            Some(entry) => entry.rows.as_slice(),
            None => &[],
        }
    }

    /// Takes an arrival that may be.
    fn take(&mut self, caller: &Text, item: Item) -> Result<Arrived, LedgerFault>
        requires { IsAdmitted (site_routing self.old.site) caller.now (instance_of item)
            (content self.old.parts) }
        ensures reply { Arrives (site_routing self.old.site) caller.now (instance_of item)
            (content self.old.parts) result (content self.new.parts) }
        ensures bodies { OnlyTakes item (data_sets self.old.parts) (data_sets self.new.parts) }
        ensures site { self.new.site ≡ self.old.site }
        ensures never { NeverFails result }
    {
        let has = self.has_brought(caller, item.uid())?;
        if has {
            return self.repeat(caller, &item);
        }
        self.bring(caller, item)
    }

    /// Whether the caller brought the uid before.
    fn has_brought(&self, caller: &Text, uid: &Text) -> Result<bool, AllocError>
        ensures { IfOk result (λ has.
            has ≡ set.contains (content self.now.parts).arrivals (caller.now, uid.now)) }
    {
        let arrival = arrival_of(caller, uid)?;
        let has = self.parts.arrivals.contains(&arrival);
        Ok(has)
    }

    /// Takes the item from the caller, if it may arrive.
    fn arrive_at(&mut self, caller: &Text, item: Item) -> Result<Arrived, LedgerFault>
        ensures reply { Arrives (site_routing self.old.site) caller.now (instance_of item)
            (content self.old.parts) result (content self.new.parts) }
        ensures bodies { OnlyTakes item (data_sets self.old.parts) (data_sets self.new.parts) }
        ensures site { self.new.site ≡ self.old.site }
        ensures never { NeverFails result }
    {
        match self.test(caller, &item) {
            Ok(()) => self.take(caller, item),
            Err(fault) => Err(fault),
        }
    }

    /// How far the uid is on its way to the destination.
    fn row(&self, uid: &Text, dest: &Text) -> Option<Progress>
        ensures { result ≡ map.get (content self.now.parts).rows (uid.now, dest.now) }
    {
        let Some(entry) = self.parts.held.get(uid) else {
            return None;
        };
        entry.row(dest)
    }

    /// Moves a row on that waits, tried and due as given.
    fn settle_row(
        &mut self,
        uid: &Text,
        dest: &Text,
        outcome: Outcome,
        now: u64,
        was: (u32, u64),
    ) -> Result<(), LedgerFault>
        requires waits { map.get (content self.old.parts).rows (uid.now, dest.now)
            ≡ Some (Progress.Waiting was.0 was.1) }
        requires early { now ≤ 2 ^ 62 }
        ensures reply { Settles uid.now dest.now outcome now (content self.old.parts) result
            (content self.new.parts) }
        ensures bodies { OnlyLetsGo (data_sets self.old.parts) (data_sets self.new.parts) }
        ensures site { self.new.site ≡ self.old.site }
        ensures never { NeverFails result }
    {
        let progress = moved(was.0, outcome, now);
        let note = settling(uid, dest, outcome, now)?;
        match self.parts.try_move(uid, dest, was.1, progress, note) {
            Ok(()) => Ok(()),
            Err(_) => Err(LedgerFault::Memory),
        }
    }

    /// Puts a held row back.
    fn requeue_row(&mut self, uid: &Text, dest: &Text, why: Cause) -> Result<(), LedgerFault>
        requires { map.get (content self.old.parts).rows (uid.now, dest.now)
            ≡ Some (Progress.Held why) }
        ensures reply { Requeues uid.now dest.now (content self.old.parts) result
            (content self.new.parts) }
        ensures bodies { OnlyLetsGo (data_sets self.old.parts) (data_sets self.new.parts) }
        ensures site { self.new.site ≡ self.old.site }
        ensures never { NeverFails result }
    {
        let note = requeuing(uid, dest)?;
        let progress = Progress::Waiting { tries: 0, due: 0 };
        match self.parts.try_move(uid, dest, 0, progress, note) {
            Ok(()) => Ok(()),
            Err(_) => Err(LedgerFault::Memory),
        }
    }

    /// Settles the row, if it waits.
    fn settle_at(
        &mut self,
        uid: &Text,
        dest: &Text,
        outcome: Outcome,
        now: u64,
    ) -> Result<(), LedgerFault>
        requires { now ≤ 2 ^ 62 }
        ensures reply { Settles uid.now dest.now outcome now (content self.old.parts) result
            (content self.new.parts) }
        ensures bodies { OnlyLetsGo (data_sets self.old.parts) (data_sets self.new.parts) }
        ensures site { self.new.site ≡ self.old.site }
        ensures never { NeverFails result }
    {
        match self.row(uid, dest) {
            Some(Progress::Waiting { tries, due }) => {
                self.settle_row(uid, dest, outcome, now, (tries, due))
            }
            Some(Progress::Held(_)) => Err(LedgerFault::NotWaiting),
            Some(Progress::Done) => Err(LedgerFault::NotWaiting),
            Some(Progress::Dropped) => Err(LedgerFault::NotWaiting),
            None => Err(LedgerFault::NotWaiting),
        }
    }

    /// Queues the row again, if it is held.
    fn requeue_at(&mut self, uid: &Text, dest: &Text) -> Result<(), LedgerFault>
        ensures reply { Requeues uid.now dest.now (content self.old.parts) result
            (content self.new.parts) }
        ensures bodies { OnlyLetsGo (data_sets self.old.parts) (data_sets self.new.parts) }
        ensures site { self.new.site ≡ self.old.site }
        ensures never { NeverFails result }
    {
        match self.row(uid, dest) {
            Some(Progress::Held(why)) => self.requeue_row(uid, dest, why),
            Some(Progress::Waiting { .. }) => Err(LedgerFault::NotHeld),
            Some(Progress::Done) => Err(LedgerFault::NotHeld),
            Some(Progress::Dropped) => Err(LedgerFault::NotHeld),
            None => Err(LedgerFault::NotHeld),
        }
    }

    /// Gives a held row up.
    fn drop_row(&mut self, uid: &Text, dest: &Text, now: u64, why: Cause) -> Result<(), LedgerFault>
        requires held { map.get (content self.old.parts).rows (uid.now, dest.now)
            ≡ Some (Progress.Held why) }
        requires early { now ≤ 2 ^ 62 }
        ensures reply { Drops uid.now dest.now now (content self.old.parts) result
            (content self.new.parts) }
        ensures bodies { OnlyLetsGo (data_sets self.old.parts) (data_sets self.new.parts) }
        ensures site { self.new.site ≡ self.old.site }
        ensures never { NeverFails result }
    {
        let note = dropping(uid, dest, now)?;
        match self.parts.try_drop(uid, dest, note) {
            Ok(()) => Ok(()),
            Err(_) => Err(LedgerFault::Memory),
        }
    }

    /// Drops the row, if it is held.
    fn drop_at(&mut self, uid: &Text, dest: &Text, now: u64) -> Result<(), LedgerFault>
        requires { now ≤ 2 ^ 62 }
        ensures reply { Drops uid.now dest.now now (content self.old.parts) result
            (content self.new.parts) }
        ensures bodies { OnlyLetsGo (data_sets self.old.parts) (data_sets self.new.parts) }
        ensures site { self.new.site ≡ self.old.site }
        ensures never { NeverFails result }
    {
        match self.row(uid, dest) {
            Some(Progress::Held(why)) => self.drop_row(uid, dest, now, why),
            Some(Progress::Waiting { .. }) => Err(LedgerFault::NotHeld),
            Some(Progress::Done) => Err(LedgerFault::NotHeld),
            Some(Progress::Dropped) => Err(LedgerFault::NotHeld),
            None => Err(LedgerFault::NotHeld),
        }
    }

    /// Whether all is over with the uid.
    fn is_over_with(&self, uid: &Text) -> bool
        ensures { IsTrue result ↔ IsOver (content self.now.parts) uid.now }
    {
        match self.parts.held.get(uid) {
            Some(entry) => !entry.needs_body(),
            None => false,
        }
    }

    /// Lets go what all is over with.
    fn let_go(&mut self, uid: &Text) -> Result<(), LedgerFault>
        requires { IsOver (content self.old.parts) uid.now }
        ensures reply { Forgets uid.now (content self.old.parts) result (content self.new.parts) }
        ensures bodies { OnlyLetsGo (data_sets self.old.parts) (data_sets self.new.parts) }
        ensures site { self.new.site ≡ self.old.site }
        ensures never { NeverFails result }
    {
        let note = forgetting(uid)?;
        match self.parts.try_forget(uid, note) {
            Ok(()) => Ok(()),
            Err(_) => Err(LedgerFault::Memory),
        }
    }

    /// Forgets the uid, if all is over with it.
    fn forget_at(&mut self, uid: &Text) -> Result<(), LedgerFault>
        ensures reply { Forgets uid.now (content self.old.parts) result (content self.new.parts) }
        ensures bodies { OnlyLetsGo (data_sets self.old.parts) (data_sets self.new.parts) }
        ensures site { self.new.site ≡ self.old.site }
        ensures never { NeverFails result }
    {
        if self.is_over_with(uid) {
            return self.let_go(uid);
        }
        Err(LedgerFault::NotOver)
    }

    /// Whether there is an item with the uid.
    fn has_item(&self, uid: &Text) -> bool
        ensures { result ≡ map.contains_key (content self.now.parts).items uid.now }
    {
        match self.parts.held.get(uid) {
            Some(_) => true,
            None => false,
        }
    }

    /// Whether its data set is there.
    fn has_data_set(&self, uid: &Text) -> bool
        ensures { result ≡ map.contains_key (data_sets self.now.parts) uid.now }
    {
        match self.parts.held.get(uid) {
            Some(entry) => entry.body.is_some(),
            None => false,
        }
    }

    /// What the first row that is due is about, with its data set.
    fn next_job(&self, dest: &Text, now: u64) -> Result<Option<NextRow>, LedgerFault>
        ensures { ShowsOrFails result
            (NextsWith (content self.now.parts) (data_sets self.now.parts) dest.now now) }
    {
        let Some(uid) = first_due(self.alloc, &self.parts.held, &self.parts.waiting, dest, now)?
        else {
            return Ok(None);
        };
        match self.job(uid) {
            Ok(job) => Ok(Some(NextRow::Whole(job))),
            Err(_) => Err(LedgerFault::Memory),
        }
    }

    /// The uid of the first row that is due.
    fn due_row(&self, dest: &Text, now: u64) -> Result<Option<Text>, LedgerFault>
        ensures { ShowsOrFails result (Dues (content self.now.parts) dest.now now) }
    {
        let uid = first_due(self.alloc, &self.parts.held, &self.parts.waiting, dest, now)?;
        Ok(uid)
    }

    /// What the uid is about, with its data set.
    fn job(&self, uid: Text) -> Result<Job, AllocError>
        ensures { IfOk result (IsJobOf (at self.now.parts.held uid) uid) }
    {
        let Some(entry) = self.parts.held.get(&uid) else {
            return Err(AllocError);
        };
        let Some(body) = &entry.body else {
            return Err(AllocError);
        };
        let key = entry.instance.key.clone()?;
        let body = body.clone()?;
        Ok(Job { uid, key, body })
    }

    /// The arrivals in order.
    fn all_arrivals(&self) -> Result<Seq<(Text, Text)>, LedgerFault>
        ensures { ShowsOrFails result (Lists pair_cmp (content self.now.parts).arrivals) }
    {
        let mut all = Seq::new(self.alloc);
        for key in &self.parts.arrivals {
            all.push((key.0.clone()?, key.1.clone()?))?;
        }
        Ok(all)
    }

    /// The kept uids in order.
    fn all_kept(&self) -> Result<Seq<(Text, u64)>, LedgerFault>
        ensures { ShowsOrFails result (AreKept (content self.now.parts)) }
    {
        let mut all = Seq::new(self.alloc);
        for (uid, entry) in &self.parts.held {
            if entry.is_kept {
                all.push((uid.clone()?, entry.instance.size))?;
            }
        }
        Ok(all)
    }

    /// All rows in order.
    fn all_rows(&self) -> Result<Seq<((Text, Text), Progress)>, LedgerFault>
        ensures { ShowsOrFails result (λ all. all ≡ map.entries (content self.now.parts).rows) }
    {
        let mut all = Seq::new(self.alloc);
        for (uid, entry) in &self.parts.held {
            push_rows(&mut all, uid, entry.rows.as_slice())?;
        }
        Ok(all)
    }

    /// The journal as it is shown.
    fn all_lines(&self) -> Result<Seq<Entry>, LedgerFault>
        ensures { ShowsOrFails result (λ all.
            all ≡ mapped entry_of (content self.now.parts).lines) }
    {
        let all = entries_of(self.alloc, self.parts.notes.as_slice())?;
        Ok(all)
    }

    /// How many lines the journal has.
    fn count_lines(&self) -> u64
        ensures { result ≡ length self.now.parts.notes.items }
    {
        self.parts.notes.as_slice().len() as u64
    }

    /// A page of the journal: the lines behind that number, so many at most.
    fn some_lines(&self, after: u64, limit: u32) -> Result<Seq<JournalLine>, LedgerFault>
        ensures { ShowsOrFails result (λ page.
            page ≡ take (last_of after limit - after) (drop after self.now.parts.notes.items)) }
    {
        let notes = self.parts.notes.as_slice();
        let count = last_behind(after, limit).saturating_sub(after);
        let page = copy_page(self.alloc, notes, after as usize, count as usize)?;
        Ok(page)
    }

    /// The first row that waits or is held and that the next plan doesn't go on with.
    fn first_unfit(&self, next: &Sealed) -> Result<Option<(Text, Text)>, LedgerFault>
        ensures { ShowsOrFails result
            (Unfits next.now.plan self.now.site.name (content self.now.parts)) }
    {
        for (uid, entry) in &self.parts.held {
            if let Some(dest) = unfit_row(next, self.site.name(), entry) {
                let at = (uid.clone()?, dest.clone()?);
                return Ok(Some(at));
            }
        }
        Ok(None)
    }

    /// Lets arrivals and rows that are done or dropped go, and goes on by the next site.
    fn go_over(&mut self, own: Site) -> Result<(), LedgerFault>
        ensures reply { Adopting (content self.old.parts) result (content self.new.parts) }
        ensures bodies { OnlyLetsGo (data_sets self.old.parts) (data_sets self.new.parts) }
        ensures site { self.new.site ≡ site_after result own self.old.site }
        ensures never { NeverFails result }
    {
        match self.parts.try_adopt() {
            Ok(()) => {
                put_site(&mut self.site, own);
                Ok(())
            }
            Err(_) => Err(LedgerFault::Memory),
        }
    }
}

/// Puts the site in the place of the one that was.
fn put_site(site: &mut Site, own: Site)
    ensures { site.new ≡ own }
{
    *site = own;
}

/// Adds the rows of a uid.
fn push_rows(
    all: &mut Seq<((Text, Text), Progress)>,
    uid: &Text,
    rows: &[(Text, Progress)],
) -> Result<(), AllocError>
    ensures { OnOk result (all.new ≡ all.old ++ own_rows uid.now rows.now) }
{
    for row in rows {
        let key = (uid.clone()?, row.0.clone()?);
        all.push((key, row.1))?;
    }
    Ok(())
}

/// The destination of the uid's first row that waits or is held and that the next plan doesn't go
/// on with.
fn unfit_row<'a>(next: &Sealed, name: &Text, entry: &'a Held) -> Option<&'a Text>
    ensures { UnfitsIn next.now.plan name.now entry.now (option_copied result) }
{
    for row in &entry.rows {
        if is_unfit(next, name, entry, row) {
            return Some(&row.0);
        }
    }
    None
}

/// Whether the row waits or is held and the next plan doesn't go on with it.
fn is_unfit(next: &Sealed, name: &Text, entry: &Held, row: &(Text, Progress)) -> bool
    ensures unfit { IsTrue result
        → IsUnfitRow next.now.plan name.now entry.now row.now.0 row.now.1 }
    ensures fit { result ≡ false → RowFits next.now.plan name.now entry.now row.now.0 row.now.1 }
{
    if !is_open(row) {
        return false;
    }
    match next.rank(name, &row.0, &entry.instance.key) {
        Some(_) => false,
        None => true,
    }
}

fn settling(uid: &Text, dest: &Text, outcome: Outcome, now: u64) -> Result<JournalLine, AllocError>
    ensures { IfOk result (λ note. note ≡ JournalLine.Settling uid.now dest.now outcome now) }
{
    let uid = uid.clone()?;
    let dest = dest.clone()?;
    Ok(JournalLine::Settling {
        uid,
        dest,
        outcome,
        now,
    })
}

fn requeuing(uid: &Text, dest: &Text) -> Result<JournalLine, AllocError>
    ensures { IfOk result (λ note. note ≡ JournalLine.Requeuing uid.now dest.now) }
{
    let uid = uid.clone()?;
    let dest = dest.clone()?;
    Ok(JournalLine::Requeuing { uid, dest })
}

fn dropping(uid: &Text, dest: &Text, now: u64) -> Result<JournalLine, AllocError>
    ensures { IfOk result (λ note. note ≡ JournalLine.Dropping uid.now dest.now now) }
{
    let uid = uid.clone()?;
    let dest = dest.clone()?;
    Ok(JournalLine::Dropping { uid, dest, now })
}

fn forgetting(uid: &Text) -> Result<JournalLine, AllocError>
    ensures { IfOk result (λ note. note ≡ JournalLine.Forgetting uid.now) }
{
    let uid = uid.clone()?;
    Ok(JournalLine::Forgetting { uid })
}

/// Whether what is known is this item.
fn is_item(held: &Instance, item: &Item) -> bool
    ensures { IsTrue result ↔ (held.now ≡ instance_of item.now) }
{
    held.uid == *item.uid()
        && held.key == *item.key()
        && held.size == item.body().len() as u64
        && held.digest == *item.digest()
}

impl Ledger for MemoryLedger {
    ghost use Rattle.std.specs.Prelude.{false};
    ghost use Rattle.dr_ledger_memory.specs.Contents.{content, data_sets};

    ghost site = { λ l. l.site };

    ghost book = { λ l. content l.parts };

    ghost bodies = { λ l. data_sets l.parts };

    ghost trusts = { λ l. Unit {0} };

    ghost stands = { λ l. Unit {0} };

    ghost failed = { λ l. 0 };

    ghost armed = { λ l. false };

    ghost journalled = { λ l s. l.journalled };

    ghost bodied = { λ l s. l.bodied };

    fn arrive(&mut self, caller: &Text, item: Item) -> Result<Arrived, LedgerFault> {
        self.arrive_at(caller, item)
    }

    fn next(&mut self, dest: &Text, now: u64) -> Result<Option<NextRow>, LedgerFault> {
        self.next_job(dest, now)
    }

    fn due(&mut self, dest: &Text, now: u64) -> Result<Option<Text>, LedgerFault> {
        self.due_row(dest, now)
    }

    fn settle(
        &mut self,
        uid: &Text,
        dest: &Text,
        outcome: Outcome,
        now: u64,
    ) -> Result<(), LedgerFault> {
        self.settle_at(uid, dest, outcome, now)
    }

    fn requeue(&mut self, uid: &Text, dest: &Text) -> Result<(), LedgerFault> {
        self.requeue_at(uid, dest)
    }

    fn admits(&mut self, caller: &Text, item: &Item) -> Result<(), LedgerFault> {
        self.test(caller, item)
    }

    fn has(&mut self, uid: &Text) -> Result<bool, LedgerFault> {
        Ok(self.has_item(uid))
    }

    fn has_body(&mut self, uid: &Text) -> Result<bool, LedgerFault> {
        Ok(self.has_data_set(uid))
    }

    fn arrivals(&mut self) -> Result<Seq<(Text, Text)>, LedgerFault> {
        self.all_arrivals()
    }

    fn kept(&mut self) -> Result<Seq<(Text, u64)>, LedgerFault> {
        self.all_kept()
    }

    fn rows(&mut self) -> Result<Seq<((Text, Text), Progress)>, LedgerFault> {
        self.all_rows()
    }

    fn lines(&mut self) -> Result<Seq<Entry>, LedgerFault> {
        self.all_lines()
    }

    fn progress(&mut self, uid: &Text, dest: &Text) -> Result<Option<Progress>, LedgerFault> {
        Ok(self.row(uid, dest))
    }

    fn unfit(&mut self, next: &Sealed) -> Result<Option<(Text, Text)>, LedgerFault> {
        self.first_unfit(next)
    }

    fn adopt(&mut self, _next: &Sealed, own: Site) -> Result<(), LedgerFault> {
        self.go_over(own)
    }

    fn is_of(&self, other: &Site) -> bool {
        self.site.is_same(other)
    }

    fn failures(&self) -> u64 {
        0
    }
}

impl LetsGo for MemoryLedger {
    fn give_up(&mut self, uid: &Text, dest: &Text, now: u64) -> Result<(), LedgerFault> {
        self.drop_at(uid, dest, now)
    }

    fn forget(&mut self, uid: &Text) -> Result<(), LedgerFault> {
        self.forget_at(uid)
    }

    fn is_over(&mut self, uid: &Text) -> Result<bool, LedgerFault> {
        Ok(self.is_over_with(uid))
    }
}

/// It has no place for a moment.
impl Moments for MemoryLedger {
    fn at(&mut self, _now: u64) {}

    fn origin_of(&mut self, _uid: &Text) -> Result<Option<Origin>, LedgerFault> {
        Ok(None)
    }
}

/// Each of these answers is read off a list of all that there is.
impl Views for MemoryLedger {
    ghost use Rattle.dr_ledger_views.specs.Numbers.{counted};
    ghost use Rattle.dr_ledger_memory.specs.Contents.{content};

    ghost numbered = { λ l. counted 0 (content l.parts).lines };

    fn count_arrivals(&mut self) -> Result<u64, LedgerFault> {
        count_all_arrivals(self)
    }

    fn count_kept(&mut self) -> Result<u64, LedgerFault> {
        count_all_kept(self)
    }

    fn line_count(&mut self) -> Result<u64, LedgerFault> {
        Ok(self.count_lines())
    }

    fn count_rows(&mut self, dest: &Text, stage: Stage) -> Result<u64, LedgerFault> {
        count_all_rows(self, dest, stage)
    }

    fn first_due(&mut self, dest: &Text) -> Result<Option<u64>, LedgerFault> {
        first_of_all(self, dest)
    }

    fn rows_of(&mut self, uid: &Text) -> Result<Seq<((Text, Text), Progress)>, LedgerFault> {
        own_of_all(self.alloc, self, uid)
    }

    fn page(
        &mut self,
        dest: &Text,
        stage: Option<Stage>,
        after: &Text,
        limit: u32,
    ) -> Result<Seq<((Text, Text), Progress)>, LedgerFault> {
        page_of_all(self.alloc, self, dest, stage, after, limit)
    }

    fn callers_of(&mut self, uid: &Text) -> Result<Seq<Text>, LedgerFault> {
        callers_of_all(self.alloc, self, uid)
    }

    fn lines_behind(&mut self, after: u64, limit: u32) -> Result<Seq<JournalLine>, LedgerFault> {
        self.some_lines(after, limit)
    }
}
