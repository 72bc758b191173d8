//! Desks that count what they took.
ghost use Rattle.std.specs.Prelude.{◌≡◌, ◌||◌};
ghost use Rattle.dr_desk.specs.Receipts.{LeavesReceipts};
ghost use Rattle.dr_desk_workers.specs.Passes.{PassStep};
ghost use Rattle.dr_run_serve.specs.Dues.{FindsIn};
ghost use Rattle.dr_run_serve.specs.Sendings.{ComesTo, OnDesk, TellsUid, as_told, is_unreadable};
ghost use Rattle.dr_run_serve.specs.Sendings.{known_of, passes_over};

use crate::events::tell_row;
use crate::signal::Signal;
use dr_base::Text;
use dr_desk::{Pass, SharedDesk, Sharing};
use dr_ledger::{
    Arrived, Cause, Item, Ledger, LedgerFault, NextRow, Outcome, Progress, is_success,
};
use dr_session::DeskPort;
use dr_session::desk::LedgerDesk;
use log::Log;
use std::sync::Wait;

/// A desk that tells how many of its calls were accepted, and what is due.
pub trait Tallied: DeskPort {
    ghost use Rattle.std.specs.Prelude.{◌≡◌, ℕ, List, Result, Option};
    ghost use Rattle.dr_ledger.specs.declared.fault.LedgerFault.{LedgerFault};

    // What the first row that is due was answered to be, for a destination at a moment.
    ghost finds: { Self → List ℕ → ℕ → Result (Option (List ℕ)) LedgerFault → Self → Type 0 };

    // How many of its calls were accepted.
    ghost taken: { Self → ℕ };

    /// How many of its calls were accepted; the count stays at its greatest value.
    fn tally(&self) -> u64
        ensures { result ≡ taken self.now };

    /// The uid of the row that `next` is about. No data set is read.
    fn due_row(&mut self, dest: &Text, now: u64) -> Result<Option<Text>, LedgerFault>
        ensures { finds self.old dest.now now result self.new };
}

/// How far a row is, where its outcome alone says it: done after a success, and held where its data
/// set can't be read.
fn known_of(outcome: Outcome) -> Option<Progress>
    ensures { result ≡ known_of outcome }
{
    match outcome {
        Outcome::Status(status) => {
            if is_success(status) {
                Some(Progress::Done)
            } else {
                None
            }
        }
        Outcome::Unreadable => Some(Progress::Held(Cause::Unreadable)),
        Outcome::Broken | Outcome::NoContext => None,
    }
}

/// How far a row is after an outcome; None where that can't be read.
fn came_of<R: Wait, L: Ledger, B: Sharing>(
    rt: &R,
    desk: &SharedDesk<L, B>,
    uid: &Text,
    dest: &Text,
    outcome: Outcome,
) -> Option<Progress>
    ensures { ComesTo L.site L.book L.bodies L.stands L.failed B.site B.first
        (known_of outcome) uid.now dest.now result }
{
    match known_of(outcome) {
        Some(known) => Some(known),
        None => told(desk.progress(rt, uid, dest)),
    }
}

/// What was told of a row; None where it couldn't be.
fn told(found: Result<Option<Progress>, LedgerFault>) -> Option<Progress>
    ensures { result ≡ as_told found }
{
    match found {
        Ok(came) => came,
        Err(_) => None,
    }
}

/// Whether a row was passed over, after one more outcome that was noted.
fn passed_by(outcome: Outcome, passed: bool) -> bool
    ensures { result ≡ (is_unreadable outcome || passed) }
{
    match outcome {
        Outcome::Unreadable => true,
        Outcome::Status(_) | Outcome::Broken | Outcome::NoContext => passed,
    }
}

/// A ledger with one owner.
#[derive(Drop)]
pub struct OwnPort<L> {
    pub desk: LedgerDesk<L>,
    pub taken: u64,
}

impl<L: Ledger> OwnPort<L> {
    /// Nothing was taken yet.
    pub fn new(ledger: L) -> OwnPort<L>
        ensures { result.desk.ledger ≡ ledger }
    {
        OwnPort {
            desk: LedgerDesk { ledger },
            taken: 0,
        }
    }
}

impl<L: Ledger> DeskPort for OwnPort<L> {
    ghost step = { λ old call answer new.
        ⟦<LedgerDesk<L> as DeskPort>⟧.step old.desk call answer new.desk };

    fn arrive(&mut self, caller: &Text, item: Item) -> Result<Arrived, LedgerFault> {
        let answer = self.desk.arrive(caller, item);
        self.taken = self.taken.saturating_add(u64::from(answer.is_ok()));
        answer
    }

    fn next(&mut self, dest: &Text, now: u64) -> Result<Option<NextRow>, LedgerFault> {
        self.desk.next(dest, now)
    }

    fn due(&mut self, dest: &Text, now: u64) -> Result<Option<Text>, LedgerFault> {
        self.desk.due(dest, now)
    }

    fn settle(
        &mut self,
        uid: &Text,
        dest: &Text,
        outcome: Outcome,
        now: u64,
    ) -> Result<(), LedgerFault> {
        let answer = self.desk.settle(uid, dest, outcome, now);
        self.taken = self.taken.saturating_add(u64::from(answer.is_ok()));
        answer
    }
}

impl<L: Ledger> Tallied for OwnPort<L> {
    ghost finds = { λ old dest now answer new. FindsIn L.site L.book L.bodies L.armed L.trusts
        L.stands old.desk.ledger dest now answer new.desk.ledger };

    ghost taken = { λ port. port.taken };

    fn tally(&self) -> u64 {
        self.taken
    }

    fn due_row(&mut self, dest: &Text, now: u64) -> Result<Option<Text>, LedgerFault> {
        self.desk.ledger.due(dest, now)
    }
}

/// A shared desk, with the pass of the one who sends. What comes of each row that was sent is
/// logged. Where the node ends no row is given out, so that the association is released. It keeps
/// whether a row was passed over, since its data set can't be read.
#[derive(Drop)]
pub struct SharedPort<'a, R: Wait, L: Ledger, B: Sharing, G: Log> {
    pub rt: &'a R,
    pub desk: &'a SharedDesk<L, B>,
    pub pass: &'a mut Pass<B>,
    pub signal: &'a Signal,
    pub log: &'a G,
    pub passed: bool,
}

impl<'a, R: Wait, L: Ledger, B: Sharing, G: Log> DeskPort for SharedPort<'a, R, L, B, G> {
    ghost use Rattle.dr_desk_workers.specs.Passes.{PassStep};

    // What the pass has then, whether a row was passed over, and that the desk answered so.
    ghost step = { λ s call answer t. PassStep call answer s.pass.now.made.count
        s.pass.now.receipts.items t.pass.now.made.count t.pass.now.receipts.items
        × (t.passed ≡ (passes_over call answer || s.passed))
        × OnDesk L.site L.book L.bodies L.stands L.failed B.site B.first call answer };

    fn arrive(&mut self, caller: &Text, item: Item) -> Result<Arrived, LedgerFault> {
        self.desk.arrive(self.rt, self.pass, caller, item)
    }

    fn next(&mut self, dest: &Text, now: u64) -> Result<Option<NextRow>, LedgerFault> {
        if self.signal.is_ending() {
            return Ok(None);
        }
        self.desk.next(self.rt, dest, now)
    }

    fn due(&mut self, dest: &Text, now: u64) -> Result<Option<Text>, LedgerFault> {
        if self.signal.is_ending() {
            return Ok(None);
        }
        self.desk.due(self.rt, dest, now)
    }

    fn settle(
        &mut self,
        uid: &Text,
        dest: &Text,
        outcome: Outcome,
        now: u64,
    ) -> Result<(), LedgerFault> {
        let settled = self
            .desk
            .settle(self.rt, self.pass, uid, dest, outcome, now);
        if settled.is_ok() {
            self.passed = passed_by(outcome, self.passed);
            let came = came_of(self.rt, self.desk, uid, dest, outcome);
            let is_done = matches!(came, Some(Progress::Done));
            if !matches!(came, Some(Progress::Waiting { .. }) | None) {
                self.signal.note_gone(self.rt, dest, uid);
            }
            tell_row(self.log, uid, dest, outcome, came);
            if is_done {
                self.signal.note_over(self.rt, uid, now);
            }
        }
        settled
    }
}

impl<'a, R: Wait, L: Ledger, B: Sharing, G: Log> Tallied for SharedPort<'a, R, L, B, G> {
    ghost finds = { λ s dest now answer t. LeavesReceipts s.pass.now.made.count
        s.pass.now.receipts.items t.pass.now.made.count t.pass.now.receipts.items
        × (t.passed ≡ s.passed)
        × TellsUid L.site L.book L.bodies L.stands L.failed B.site B.first dest now answer };

    ghost taken = { λ port. port.pass.now.made.count };

    fn tally(&self) -> u64 {
        self.pass.count()
    }

    fn due_row(&mut self, dest: &Text, now: u64) -> Result<Option<Text>, LedgerFault> {
        if self.signal.is_ending() {
            return Ok(None);
        }
        self.desk.due(self.rt, dest, now)
    }
}
