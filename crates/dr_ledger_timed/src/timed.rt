//! A ledger whose calls are timed.
ghost use Rattle.std.specs.Prelude.{◌≡◌, ◌↔◌};

use crate::meter::{Meter, moment};
use dr_base::{Seq, Text};
use dr_cert::Sealed;
use dr_ledger::{Arrived, Entry, Item, Ledger, LedgerFault, LetsGo, NextRow, Outcome, Progress};
use dr_ledger_history::JournalLine;
use dr_ledger_views::{Moments, Origin, Stage, Views};
use dr_site::Site;
use std::time::Clock;

/// A ledger, with the clock by which its calls are timed, and the meter that counts them.
#[derive(Drop)]
pub struct Timed<'a, L, R> {
    ledger: L,
    rt: &'a R,
    meter: &'a Meter,
    /// The moment (milliseconds since 1970) at which the system's steady clock told 0.
    zero: u64,
}

impl<'a, L, R: Clock> Timed<'a, L, R> {
    /// That ledger, timed, at the moment `now` (milliseconds since 1970).
    pub fn new(ledger: L, rt: &'a R, meter: &'a Meter, now: u64) -> Timed<'a, L, R>
        ensures { result.ledger ≡ ledger }
    {
        let zero = now.saturating_sub(moment(rt) / 1000);
        Timed {
            ledger,
            rt,
            meter,
            zero,
        }
    }

    /// The ledger, given back.
    pub fn into_ledger(self) -> L
        ensures { result ≡ self.entry.ledger }
    {
        self.ledger
    }

    /// When a call begins (microseconds).
    fn begin(&self) -> u64 {
        moment(self.rt)
    }

    /// Counts a call that began then, and has ended.
    fn end(&self, began: u64) {
        self.meter.note(moment(self.rt).saturating_sub(began));
    }
}

impl<'a, L: Moments, R: Clock> Timed<'a, L, R> {
    /// When a call begins by which a line may come; the ledger is told the moment.
    fn begin_line(&mut self) -> u64
        ensures site { L.site self.new.ledger ≡ L.site self.old.ledger }
        ensures book { L.book self.new.ledger ≡ L.book self.old.ledger }
        ensures bodies { L.bodies self.new.ledger ≡ L.bodies self.old.ledger }
        ensures failed { L.failed self.new.ledger ≡ L.failed self.old.ledger }
        ensures armed { L.armed self.new.ledger ≡ L.armed self.old.ledger }
        ensures stands { L.stands self.new.ledger ↔ L.stands self.old.ledger }
        ensures trusts { L.trusts self.new.ledger ↔ L.trusts self.old.ledger }
    {
        let began = self.begin();
        self.ledger.at(self.zero.saturating_add(began / 1000));
        began
    }
}

impl<'a, L: Moments, R: Clock> Ledger for Timed<'a, L, R> {
    ghost site = { λ t. L.site t.ledger };

    ghost book = { λ t. L.book t.ledger };

    ghost bodies = { λ t. L.bodies t.ledger };

    ghost trusts = { λ t. L.trusts t.ledger };

    ghost stands = { λ t. L.stands t.ledger };

    ghost failed = { λ t. L.failed t.ledger };

    ghost armed = { λ t. L.armed t.ledger };

    ghost journalled = { λ t s. L.journalled t.ledger s };

    ghost bodied = { λ t s. L.bodied t.ledger s };

    fn arrive(&mut self, caller: &Text, item: Item) -> Result<Arrived, LedgerFault> {
        let began = self.begin_line();
        let answer = self.ledger.arrive(caller, item);
        self.end(began);
        answer
    }

    fn next(&mut self, dest: &Text, now: u64) -> Result<Option<NextRow>, LedgerFault> {
        let began = self.begin();
        let answer = self.ledger.next(dest, now);
        self.end(began);
        answer
    }

    fn due(&mut self, dest: &Text, now: u64) -> Result<Option<Text>, LedgerFault> {
        let began = self.begin();
        let answer = self.ledger.due(dest, now);
        self.end(began);
        answer
    }

    fn settle(
        &mut self,
        uid: &Text,
        dest: &Text,
        outcome: Outcome,
        now: u64,
    ) -> Result<(), LedgerFault> {
        let began = self.begin();
        let answer = self.ledger.settle(uid, dest, outcome, now);
        self.end(began);
        answer
    }

    fn requeue(&mut self, uid: &Text, dest: &Text) -> Result<(), LedgerFault> {
        let began = self.begin_line();
        let answer = self.ledger.requeue(uid, dest);
        self.end(began);
        answer
    }

    fn admits(&mut self, caller: &Text, item: &Item) -> Result<(), LedgerFault> {
        let began = self.begin();
        let answer = self.ledger.admits(caller, item);
        self.end(began);
        answer
    }

    fn has(&mut self, uid: &Text) -> Result<bool, LedgerFault> {
        let began = self.begin();
        let answer = self.ledger.has(uid);
        self.end(began);
        answer
    }

    fn has_body(&mut self, uid: &Text) -> Result<bool, LedgerFault> {
        let began = self.begin();
        let answer = self.ledger.has_body(uid);
        self.end(began);
        answer
    }

    fn arrivals(&mut self) -> Result<Seq<(Text, Text)>, LedgerFault> {
        let began = self.begin();
        let answer = self.ledger.arrivals();
        self.end(began);
        answer
    }

    fn kept(&mut self) -> Result<Seq<(Text, u64)>, LedgerFault> {
        let began = self.begin();
        let answer = self.ledger.kept();
        self.end(began);
        answer
    }

    fn rows(&mut self) -> Result<Seq<((Text, Text), Progress)>, LedgerFault> {
        let began = self.begin();
        let answer = self.ledger.rows();
        self.end(began);
        answer
    }

    fn lines(&mut self) -> Result<Seq<Entry>, LedgerFault> {
        let began = self.begin();
        let answer = self.ledger.lines();
        self.end(began);
        answer
    }

    fn progress(&mut self, uid: &Text, dest: &Text) -> Result<Option<Progress>, LedgerFault> {
        let began = self.begin();
        let answer = self.ledger.progress(uid, dest);
        self.end(began);
        answer
    }

    fn unfit(&mut self, next: &Sealed) -> Result<Option<(Text, Text)>, LedgerFault> {
        let began = self.begin();
        let answer = self.ledger.unfit(next);
        self.end(began);
        answer
    }

    fn adopt(&mut self, next: &Sealed, own: Site) -> Result<(), LedgerFault> {
        let began = self.begin_line();
        let answer = self.ledger.adopt(next, own);
        self.end(began);
        answer
    }

    fn is_of(&self, other: &Site) -> bool {
        self.ledger.is_of(other)
    }

    fn failures(&self) -> u64 {
        self.ledger.failures()
    }
}

impl<'a, L: Moments, R: Clock> LetsGo for Timed<'a, L, R> {
    fn give_up(&mut self, uid: &Text, dest: &Text, now: u64) -> Result<(), LedgerFault> {
        let began = self.begin();
        let answer = self.ledger.give_up(uid, dest, now);
        self.end(began);
        answer
    }

    fn forget(&mut self, uid: &Text) -> Result<(), LedgerFault> {
        let began = self.begin_line();
        let answer = self.ledger.forget(uid);
        self.end(began);
        answer
    }

    fn is_over(&mut self, uid: &Text) -> Result<bool, LedgerFault> {
        let began = self.begin();
        let answer = self.ledger.is_over(uid);
        self.end(began);
        answer
    }
}

impl<'a, L: Moments, R: Clock> Moments for Timed<'a, L, R> {
    fn at(&mut self, now: u64) {
        self.ledger.at(now);
    }

    fn origin_of(&mut self, uid: &Text) -> Result<Option<Origin>, LedgerFault> {
        let began = self.begin();
        let answer = self.ledger.origin_of(uid);
        self.end(began);
        answer
    }
}

impl<'a, L: Views, R: Clock> Views for Timed<'a, L, R> {
    ghost numbered = { λ t. L.numbered t.ledger };

    fn count_arrivals(&mut self) -> Result<u64, LedgerFault> {
        let began = self.begin();
        let answer = self.ledger.count_arrivals();
        self.end(began);
        answer
    }

    fn count_kept(&mut self) -> Result<u64, LedgerFault> {
        let began = self.begin();
        let answer = self.ledger.count_kept();
        self.end(began);
        answer
    }

    fn line_count(&mut self) -> Result<u64, LedgerFault> {
        let began = self.begin();
        let answer = self.ledger.line_count();
        self.end(began);
        answer
    }

    fn count_rows(&mut self, dest: &Text, stage: Stage) -> Result<u64, LedgerFault> {
        let began = self.begin();
        let answer = self.ledger.count_rows(dest, stage);
        self.end(began);
        answer
    }

    fn first_due(&mut self, dest: &Text) -> Result<Option<u64>, LedgerFault> {
        let began = self.begin();
        let answer = self.ledger.first_due(dest);
        self.end(began);
        answer
    }

    fn rows_of(&mut self, uid: &Text) -> Result<Seq<((Text, Text), Progress)>, LedgerFault> {
        let began = self.begin();
        let answer = self.ledger.rows_of(uid);
        self.end(began);
        answer
    }

    fn page(
        &mut self,
        dest: &Text,
        stage: Option<Stage>,
        after: &Text,
        limit: u32,
    ) -> Result<Seq<((Text, Text), Progress)>, LedgerFault> {
        let began = self.begin();
        let answer = self.ledger.page(dest, stage, after, limit);
        self.end(began);
        answer
    }

    fn callers_of(&mut self, uid: &Text) -> Result<Seq<Text>, LedgerFault> {
        let began = self.begin();
        let answer = self.ledger.callers_of(uid);
        self.end(began);
        answer
    }

    fn lines_behind(&mut self, after: u64, limit: u32) -> Result<Seq<JournalLine>, LedgerFault> {
        let began = self.begin();
        let answer = self.ledger.lines_behind(after, limit);
        self.end(began);
        answer
    }
}
