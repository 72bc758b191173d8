//! What came to be over before a node began: read off the journal, a page at a time.
ghost use Rattle.std.specs.Prelude.{◌≡◌, ◌++◌, [], List, IfOk, None, Some, OnErr, OnOk};
ghost use Rattle.std.specs.Prelude.{◌&&◌, cond, option_copied, true};
ghost use Rattle.dr_base.specs.Texts.{Text as Words};
ghost use Rattle.dr_ledger_history.specs.declared.line.JournalLine.{JournalLine as LineValue};
ghost use Rattle.dr_run_serve.specs.Pasts.{FindsOver, HasNoted, IsFoundIn, IsKnown, IsQueueOf};
ghost use Rattle.dr_run_serve.specs.Pasts.{Knows, ReadsOn};
ghost use Rattle.dr_run_serve.specs.Pasts.{ReadsPage, TellsPage, counted_from, ended_by, ends_row};
ghost use Rattle.dr_run_serve.specs.Pasts.{is_uid, known_by, later};

use crate::sweep::{OverInstance, Sweep};
use dr_base::Text;
use dr_desk::{SharedDesk, Sharing};
use dr_ledger::{LedgerFault, Outcome, is_success};
use dr_ledger_history::JournalLine;
use dr_ledger_views::Views;
use std::alloc::{AllocError, Global};
use std::collections::{BTreeMap, BTreeSet};
use std::mem;
use std::sync::Wait;

/// So many lines are read under the lock at a time.
const PAGE: u32 = 256;

/// So many pages are read in one turn at most.
const PAGES: u32 = 100;

/// When a row of an instance was last done or dropped, by the lines that were read so far. What was
/// forgotten since isn't here any more, nor what the node keeps: that is for ever.
#[derive(Drop)]
pub struct Past {
    /// So many lines were read.
    after: u64,
    ends: BTreeMap<Text, u64>,
    kept: BTreeSet<Text>,
}

/// Whether a row is done after this outcome.
fn ends(outcome: Outcome) -> bool
    ensures { result ≡ ends_row outcome }
{
    match outcome {
        Outcome::Status(status) => is_success(status),
        Outcome::Broken | Outcome::NoContext | Outcome::Unreadable => false,
    }
}

/// The later of the moment that is known, if one is, and this one.
fn later(known: Option<&u64>, now: u64) -> u64
    ensures { Some result ≡ later (option_copied known.entry) now }
{
    match known {
        Some(known) => now.max(*known),
        None => now,
    }
}

/// All of them, in the order of their moments.
fn in_order(alloc: Global, ends: BTreeMap<Text, u64>) -> Result<Sweep, AllocError>
    ensures { IfOk result (λ sweep. IsQueueOf ends sweep.queue.items) }
{
    let mut all = Vec::with_capacity(alloc, ends.len())?;
    for (uid, at) in ends {
        all.push(OverInstance { uid, at })?;
    }
    all.sort_unstable_by_key(|over| over.at);
    let sweep = queued(alloc, all)?;
    Ok(sweep)
}

/// Those, in their order.
///
/// Errors: want of memory.
fn queued(alloc: Global, all: Vec<OverInstance>) -> Result<Sweep, AllocError>
    ensures { IfOk result (λ sweep. sweep.queue.items ≡ all.items) }
{
    let mut sweep = Sweep::new(alloc);
    for over in all {
        sweep.add(over)?;
    }
    Ok(sweep)
}

impl Past {
    /// Nothing was read yet.
    pub fn new(alloc: Global) -> Past
        ensures { HasNoted [] result }
    {
        Past {
            after: 0,
            ends: BTreeMap::new(alloc),
            kept: BTreeSet::new(alloc),
        }
    }

    /// The node keeps the instance.
    ///
    /// Errors: want of memory; then nothing has changed.
    fn note_kept(&mut self, uid: &Text) -> Result<(), AllocError>
        ensures count { self.new.after ≡ self.old.after }
        ensures known { OnOk result (Knows
            (λ q known. cond (is_uid uid.now q) (true, None) known) self.old self.new) }
        ensures same { OnErr result (Knows (λ q known. known) self.old self.new) }
    {
        let copy = uid.clone()?;
        let _is_first = self.kept.insert(copy)?;
        let _end = self.ends.remove(uid);
        Ok(())
    }

    /// An instance came, which the node may keep.
    ///
    /// Errors: want of memory; then nothing has changed.
    fn note_arrival(&mut self, uid: &Text, keep: bool) -> Result<(), AllocError>
        ensures count { self.new.after ≡ self.old.after }
        ensures known { OnOk result (Knows
            (λ q known. cond (keep && is_uid uid.now q) (true, None) known) self.old self.new) }
        ensures same { OnErr result (Knows (λ q known. known) self.old self.new) }
    {
        if keep {
            return self.note_kept(uid);
        }
        Ok(())
    }

    /// A row of the instance was done or dropped at that moment. The greatest one stays.
    ///
    /// Errors: want of memory; then nothing has changed.
    fn note_end(&mut self, uid: &Text, now: u64) -> Result<(), AllocError>
        ensures count { self.new.after ≡ self.old.after }
        ensures known { OnOk result (Knows
            (λ q known. cond (is_uid uid.now q) (ended_by known now) known) self.old self.new) }
        ensures same { OnErr result (Knows (λ q known. known) self.old self.new) }
    {
        if self.kept.contains(uid) {
            return Ok(());
        }
        let end = later(self.ends.get(uid), now);
        let copy = uid.clone()?;
        let _known = self.ends.insert(copy, end)?;
        Ok(())
    }

    /// A try to send the instance came to that outcome, at that moment.
    ///
    /// Errors: want of memory; then nothing has changed.
    fn note_outcome(&mut self, uid: &Text, outcome: Outcome, now: u64) -> Result<(), AllocError>
        ensures count { self.new.after ≡ self.old.after }
        ensures known { OnOk result (Knows
            (λ q known. cond (ends_row outcome && is_uid uid.now q) (ended_by known now) known)
            self.old self.new) }
        ensures same { OnErr result (Knows (λ q known. known) self.old self.new) }
    {
        if ends(outcome) {
            return self.note_end(uid, now);
        }
        Ok(())
    }

    /// The instance was forgotten.
    fn note_gone(&mut self, uid: &Text)
        ensures count { self.new.after ≡ self.old.after }
        ensures known { Knows (λ q known. cond (is_uid uid.now q) (known.0, None) known)
            self.old self.new }
    {
        let _gone = self.ends.remove(uid);
    }

    /// Notes what a line says.
    ///
    /// Errors: want of memory; then nothing has changed.
    fn note(&mut self, line: &JournalLine) -> Result<(), AllocError>
        ensures count { self.new.after ≡ self.old.after }
        ensures known { OnOk result
            (Knows (λ q known. known_by q known line.now) self.old self.new) }
        ensures same { OnErr result (Knows (λ q known. known) self.old self.new) }
    {
        match line {
            JournalLine::Settling {
                uid,
                outcome,
                now,
                ..
            } => self.note_outcome(uid, *outcome, *now),
            JournalLine::Dropping { uid, now, .. } => self.note_end(uid, *now),
            JournalLine::Forgetting { uid } => {
                self.note_gone(uid);
                Ok(())
            }
            JournalLine::Arrival { instance, keep, .. } => self.note_arrival(&instance.uid, *keep),
            JournalLine::Repeat { .. } => Ok(()),
            JournalLine::Requeuing { .. } => Ok(()),
            JournalLine::Adoption => Ok(()),
        }
    }

    /// Notes what the lines of a page say.
    ///
    /// Errors: want of memory; then what is noted of it is counted.
    fn note_page(&mut self, page: &[JournalLine]) -> Result<(), AllocError>
        ensures whole { OnOk result ((lines : List LineValue)
            → HasNoted lines self.old
            → HasNoted (lines ++ page.now) self.new) }
        ensures part { (lines : List LineValue)
            → HasNoted lines self.old
            → (some rest : List LineValue)
            × (page.now ≡ some ++ rest)
            × HasNoted (lines ++ some) self.new }
    {
        for line in page {
            self.note(line)?;
            self.after = self.after.saturating_add(1);
        }
        Ok(())
    }

    /// What came to be over, or may have: the ledger decides at each forgetting.
    ///
    /// Errors: want of memory.
    pub fn into_sweep(self, alloc: Global) -> Result<Sweep, AllocError>
        ensures { IfOk result (λ sweep. (lines : List LineValue)
            → HasNoted lines self
            → IsFoundIn lines sweep.queue.items) }
    {
        let Past { ends, .. } = self;
        let sweep = in_order(alloc, ends)?;
        Ok(sweep)
    }

    /// The same by all that was noted; and nothing is noted any more.
    ///
    /// Errors: want of memory.
    fn take(&mut self, alloc: Global) -> Result<Sweep, AllocError>
        ensures over { IfOk result (λ sweep. (lines : List LineValue)
            → HasNoted lines self.old
            → IsFoundIn lines sweep.queue.items) }
        ensures none { HasNoted [] self.new }
    {
        let whole = mem::replace(self, Past::new(alloc));
        let sweep = whole.into_sweep(alloc)?;
        Ok(sweep)
    }
}

/// A node's journal, as its desk tells it.
#[derive(Drop)]
pub struct DeskJournal<'a, R: Wait, L: Views, B: Sharing> {
    pub rt: &'a R,
    pub desk: &'a SharedDesk<L, B>,
}

impl<'a, R: Wait, L: Views, B: Sharing> DeskJournal<'a, R, L, B> {
    /// Reads a page; whether no line was left.
    ///
    /// Errors: Store, Memory; then the next call goes on behind what was noted.
    fn read_page(&self, past: &mut Past) -> Result<bool, LedgerFault>
        ensures { (lines : List LineValue)
            → HasNoted lines past.old
            → (more : List LineValue)
            × HasNoted (lines ++ more) past.new
            × ReadsPage (TellsPage L.site L.book L.bodies L.stands L.failed B.site B.first
            L.numbered) (counted_from 0 lines) result more }
    {
        let page = match self.desk.lines_behind(self.rt, past.after, PAGE) {
            Ok(page) => page,
            Err(fault) => return Err(fault),
        };
        if page.is_empty() {
            return Ok(true);
        }
        past.note_page(page.as_slice())?;
        Ok(false)
    }

    /// Reads on, so much at most; whether that was all. The lock is given back between two pages.
    ///
    /// Errors: Store, Memory; then the next call goes on behind what was noted.
    fn read_on(&self, past: &mut Past) -> Result<bool, LedgerFault>
        ensures { (lines : List LineValue)
            → HasNoted lines past.old
            → (more : List LineValue)
            × HasNoted (lines ++ more) past.new
            × ReadsOn (TellsPage L.site L.book L.bodies L.stands L.failed B.site B.first
            L.numbered) (counted_from 0 lines) result more }
    {
        for _turn in 0..PAGES {
            let is_all = match self.read_page(past) {
                Ok(is_all) => is_all,
                Err(fault) => return Err(fault),
            };
            if is_all {
                return Ok(true);
            }
        }
        Ok(false)
    }

    /// Reads on; what is over by all lines, once all were read.
    ///
    /// Errors: Store, Memory; then the next call goes on where this one ended, or from the
    /// beginning.
    fn find(&self, alloc: Global, past: &mut Past) -> Result<Option<Sweep>, LedgerFault>
        ensures { (lines : List LineValue)
            → HasNoted lines past.old
            → FindsOver (TellsPage L.site L.book L.bodies L.stands L.failed B.site B.first
            L.numbered) lines result past.new }
    {
        let is_all = match self.read_on(past) {
            Ok(is_all) => is_all,
            Err(fault) => return Err(fault),
        };
        if is_all {
            return match past.take(alloc) {
                Ok(sweep) => Ok(Some(sweep)),
                Err(AllocError) => Err(LedgerFault::Memory),
            };
        }
        Ok(None)
    }

    /// What is over, where that is known, or can be found.
    ///
    /// Errors: those of `find`.
    pub fn known(
        &self,
        alloc: Global,
        sweep: Option<Sweep>,
        past: &mut Past,
    ) -> Result<Option<Sweep>, LedgerFault>
        ensures { (lines : List LineValue)
            → HasNoted lines past.old
            → IsKnown (TellsPage L.site L.book L.bodies L.stands L.failed B.site B.first
            L.numbered) lines sweep result past.new }
    {
        match sweep {
            Some(sweep) => Ok(Some(sweep)),
            None => self.find(alloc, past),
        }
    }
}
