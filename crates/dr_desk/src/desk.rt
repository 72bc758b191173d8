//! A ledger that one owner calls.
ghost use Rattle.std.specs.Prelude.{◌≡◌};
ghost use Rattle.dr_ledger.specs.Histories.{IsJournalled};
ghost use Rattle.dr_ledger.specs.SiteRoutes.{site_routing};

use dr_base::{Seq, Text};
use dr_cert::Sealed;
use dr_ledger::{Arrived, Entry, Item, Ledger, LedgerFault, LetsGo, NextRow, Outcome, Progress};
use dr_ledger_history::JournalLine;
use dr_ledger_views::{Moments, Origin, Stage, Views};
use dr_site::Site;

/// A node's ledger, as the one who owns it calls it. It is a ledger itself: each call gives the
/// reply of the book's definition, and adds the line of the call if it was accepted, and else none.
#[derive(Drop)]
pub struct Desk<L> {
    pub(crate) ledger: L,
}

impl<L: Ledger> Desk<L> {
    /// The desk of this ledger.
    pub fn new(ledger: L) -> Desk<L>
        ensures { result.ledger ≡ ledger }
    {
        Desk { ledger }
    }

    /// Its ledger, given back.
    pub fn into_ledger(self) -> L
        ensures { result ≡ self.ledger }
    {
        self.ledger
    }

    /// Whenever it can be seen, its journal is a history that one thread can have made, each line
    /// of a call that the book before it accepts, and its book is what the journal makes of the
    /// empty one. It does nothing.
    pub fn has_a_history(&self)
        ensures { L.stands self.now.ledger
            → ∥ IsJournalled (site_routing (L.site self.now.ledger)) (L.book self.now.ledger) ∥₁ }
    {}
}

impl<L: Ledger> Ledger for Desk<L> {
    ghost site = { λ d. L.site d.ledger };

    ghost book = { λ d. L.book d.ledger };

    ghost bodies = { λ d. L.bodies d.ledger };

    ghost trusts = { λ d. L.trusts d.ledger };

    ghost stands = { λ d. L.stands d.ledger };

    ghost failed = { λ d. L.failed d.ledger };

    ghost armed = { λ d. L.armed d.ledger };

    ghost journalled = { λ d s. L.journalled d.ledger s };

    ghost bodied = { λ d s. L.bodied d.ledger s };

    fn arrive(&mut self, caller: &Text, item: Item) -> Result<Arrived, LedgerFault> {
        self.ledger.arrive(caller, item)
    }

    fn next(&mut self, dest: &Text, now: u64) -> Result<Option<NextRow>, LedgerFault> {
        self.ledger.next(dest, now)
    }

    fn due(&mut self, dest: &Text, now: u64) -> Result<Option<Text>, LedgerFault> {
        self.ledger.due(dest, now)
    }

    fn settle(
        &mut self,
        uid: &Text,
        dest: &Text,
        outcome: Outcome,
        now: u64,
    ) -> Result<(), LedgerFault> {
        self.ledger.settle(uid, dest, outcome, now)
    }

    fn requeue(&mut self, uid: &Text, dest: &Text) -> Result<(), LedgerFault> {
        self.ledger.requeue(uid, dest)
    }

    fn admits(&mut self, caller: &Text, item: &Item) -> Result<(), LedgerFault> {
        self.ledger.admits(caller, item)
    }

    fn has(&mut self, uid: &Text) -> Result<bool, LedgerFault> {
        self.ledger.has(uid)
    }

    fn has_body(&mut self, uid: &Text) -> Result<bool, LedgerFault> {
        self.ledger.has_body(uid)
    }

    fn arrivals(&mut self) -> Result<Seq<(Text, Text)>, LedgerFault> {
        self.ledger.arrivals()
    }

    fn kept(&mut self) -> Result<Seq<(Text, u64)>, LedgerFault> {
        self.ledger.kept()
    }

    fn rows(&mut self) -> Result<Seq<((Text, Text), Progress)>, LedgerFault> {
        self.ledger.rows()
    }

    fn lines(&mut self) -> Result<Seq<Entry>, LedgerFault> {
        self.ledger.lines()
    }

    fn progress(&mut self, uid: &Text, dest: &Text) -> Result<Option<Progress>, LedgerFault> {
        self.ledger.progress(uid, dest)
    }

    fn unfit(&mut self, next: &Sealed) -> Result<Option<(Text, Text)>, LedgerFault> {
        self.ledger.unfit(next)
    }

    fn adopt(&mut self, next: &Sealed, own: Site) -> Result<(), LedgerFault> {
        self.ledger.adopt(next, own)
    }

    fn is_of(&self, other: &Site) -> bool {
        self.ledger.is_of(other)
    }

    fn failures(&self) -> u64 {
        self.ledger.failures()
    }
}

impl<L: LetsGo> LetsGo for Desk<L> {
    fn give_up(&mut self, uid: &Text, dest: &Text, now: u64) -> Result<(), LedgerFault> {
        self.ledger.give_up(uid, dest, now)
    }

    fn forget(&mut self, uid: &Text) -> Result<(), LedgerFault> {
        self.ledger.forget(uid)
    }

    fn is_over(&mut self, uid: &Text) -> Result<bool, LedgerFault> {
        self.ledger.is_over(uid)
    }
}

impl<L: Moments> Moments for Desk<L> {
    fn at(&mut self, now: u64) {
        self.ledger.at(now);
    }

    fn origin_of(&mut self, uid: &Text) -> Result<Option<Origin>, LedgerFault> {
        self.ledger.origin_of(uid)
    }
}

impl<L: Views> Views for Desk<L> {
    ghost numbered = { λ d. L.numbered d.ledger };

    fn count_arrivals(&mut self) -> Result<u64, LedgerFault> {
        self.ledger.count_arrivals()
    }

    fn count_kept(&mut self) -> Result<u64, LedgerFault> {
        self.ledger.count_kept()
    }

    fn line_count(&mut self) -> Result<u64, LedgerFault> {
        self.ledger.line_count()
    }

    fn count_rows(&mut self, dest: &Text, stage: Stage) -> Result<u64, LedgerFault> {
        self.ledger.count_rows(dest, stage)
    }

    fn first_due(&mut self, dest: &Text) -> Result<Option<u64>, LedgerFault> {
        self.ledger.first_due(dest)
    }

    fn rows_of(&mut self, uid: &Text) -> Result<Seq<((Text, Text), Progress)>, LedgerFault> {
        self.ledger.rows_of(uid)
    }

    fn page(
        &mut self,
        dest: &Text,
        stage: Option<Stage>,
        after: &Text,
        limit: u32,
    ) -> Result<Seq<((Text, Text), Progress)>, LedgerFault> {
        self.ledger.page(dest, stage, after, limit)
    }

    fn callers_of(&mut self, uid: &Text) -> Result<Seq<Text>, LedgerFault> {
        self.ledger.callers_of(uid)
    }

    fn lines_behind(&mut self, after: u64, limit: u32) -> Result<Seq<JournalLine>, LedgerFault> {
        self.ledger.lines_behind(after, limit)
    }
}
