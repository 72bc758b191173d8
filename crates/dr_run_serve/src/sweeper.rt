//! The one who has a node forget what has been over for long.
ghost use Rattle.std.specs.Prelude.{◌≡◌, ◌≤◌, ◌++◌, [], List, None, Some, length};
ghost use Rattle.dr_ledger_history.specs.declared.line.JournalLine.{JournalLine as LineValue};
ghost use Rattle.dr_run_serve.specs.Pasts.{HasNoted, TellsPage};
ghost use Rattle.dr_run_serve.specs.Sweeps.{ForgetsDue, ForgetsFirst, SweepsOnce, Turns, counted};
ghost use Rattle.dr_run_serve.specs.Sweeps.{next_turn};
ghost use Rattle.dr_run_serve.specs.declared.sweep.OverInstance.{OverInstance as OverValue};

use crate::events::{tell_forgotten, tell_unswept};
use crate::live::LiveNode;
use crate::past::{DeskJournal, Past};
use crate::signal::Signal;
use crate::sweep::Sweep;
use dr_desk::{Pass, SharedDesk, Sharing};
use dr_ledger::{LedgerFault, LetsGo};
use dr_ledger_views::Views;
use dr_session::Clock;
use log::Log;
use std::alloc::{AllocError, Global};
use std::mem;
use std::sync::Wait;

/// So many instances are forgotten in one turn at most, each as a call of its own.
const MOST: u32 = 1_000;

/// Where the store refuses it, it is tried again so many milliseconds later.
const PAUSE: u64 = 60_000;

/// The one who forgets, with a pass of its own: for how many milliseconds what is over stays, None
/// for ever; the moment of the next turn; what was read of the journal so far; and what is over,
/// once all of that was read.
#[derive(Drop)]
pub struct Sweeper<B: Sharing> {
    pub pass: Pass<B>,
    after: Option<u64>,
    next: u64,
    past: Past,
    sweep: Option<Sweep>,
}

/// Takes in what came to be over since the last turn. What there is no memory for is found at the
/// next start.
fn take_in<R: Wait>(rt: &R, sweep: &mut Sweep, signal: &Signal)
    ensures { (more : List OverValue)
        × (sweep.new.queue.items ≡ sweep.old.queue.items ++ more)
        × (length more ≤ 1000) }
{
    for _turn in 0..MOST {
        let Some(over) = signal.next_over(rt) else {
            return;
        };
        match sweep.add(over) {
            Ok(()) => {}
            Err(AllocError) => return,
        }
    }
}

/// Forgets the first of those that have been over since that moment or longer; None where there is
/// none. The ledger decides whether it is over: else it is let go here alone, and false answered.
/// One that is to be sent again isn't over, and is taken in again when it is.
///
/// Errors: Store, Memory; then it stays the first.
fn forget_first<R: Wait, L: LetsGo, B: Sharing>(
    rt: &R,
    desk: &SharedDesk<L, B>,
    pass: &mut Pass<B>,
    sweep: &mut Sweep,
    since: u64,
) -> Result<Option<bool>, LedgerFault>
    ensures { ForgetsFirst L.site L.book L.stands L.failed B.site B.first since
        sweep.old.queue.items (pass.old.made.count, pass.old.receipts.items) result
        sweep.new.queue.items (pass.new.made.count, pass.new.receipts.items) }
{
    let Some(uid) = sweep.first_due(since) else {
        return Ok(None);
    };
    match desk.forget(rt, pass, uid) {
        Ok(()) => {
            sweep.let_first_go();
            Ok(Some(true))
        }
        Err(LedgerFault::NotOver) => {
            sweep.let_first_go();
            Ok(Some(false))
        }
        Err(fault) => Err(fault),
    }
}

/// One more, if it was forgotten.
fn counted(count: u64, is_forgotten: bool) -> u64
    ensures { result ≡ counted count is_forgotten }
{
    if is_forgotten {
        return count.saturating_add(1);
    }
    count
}

/// Forgets the first of those that have been over since that moment or longer, one after the other,
/// so many at most; how many there were.
///
/// Errors: Store, Memory; then what wasn't forgotten is tried again at the next turn.
fn forget_due<R: Wait, L: LetsGo, B: Sharing>(
    rt: &R,
    desk: &SharedDesk<L, B>,
    pass: &mut Pass<B>,
    sweep: &mut Sweep,
    since: u64,
) -> Result<u64, LedgerFault>
    ensures { ForgetsDue L.site L.book L.stands L.failed B.site B.first since
        sweep.old.queue.items (pass.old.made.count, pass.old.receipts.items) result
        sweep.new.queue.items (pass.new.made.count, pass.new.receipts.items) }
{
    let mut count = 0u64;
    for _turn in 0..MOST {
        match forget_first(rt, desk, pass, sweep, since) {
            Ok(Some(is_forgotten)) => count = counted(count, is_forgotten),
            Ok(None) => return Ok(count),
            Err(fault) => return Err(fault),
        }
    }
    Ok(count)
}

impl<B: Sharing> Sweeper<B> {
    /// One who forgets what has been over for so many milliseconds.
    pub fn new(alloc: Global, pass: Pass<B>, after: Option<u64>) -> Sweeper<B>
        ensures terms { (result.pass ≡ pass) × (result.after ≡ after) × (result.next ≡ 0) }
        ensures read { HasNoted [] result.past × (result.sweep ≡ None) }
    {
        Sweeper {
            pass,
            after,
            next: 0,
            past: Past::new(alloc),
            sweep: None,
        }
    }

    /// Its pass.
    pub fn into_pass(self) -> Pass<B>
        ensures { result ≡ self.pass }
    {
        let Sweeper { pass, .. } = self;
        pass
    }

    /// What is known to be over.
    fn put(&mut self, sweep: Sweep)
        requires { self.old.sweep ≡ None }
        ensures pass { (self.new.pass.made.count ≡ self.old.pass.made.count)
            × (self.new.pass.receipts.items ≡ self.old.pass.receipts.items) }
        ensures terms { (self.new.after ≡ self.old.after) × (self.new.next ≡ self.old.next) }
        ensures past { self.new.past ≡ self.old.past }
        ensures sweep { self.new.sweep ≡ Some sweep }
    {
        self.sweep = Some(sweep);
    }

    /// Reads on in the journal, where it wasn't read whole yet, or forgets what has been over for
    /// long enough; how many instances there were.
    ///
    /// Errors: Store, Memory.
    fn sweep<R: Wait, L: Views, C: Clock, G: Log>(
        &mut self,
        node: &LiveNode<'_, R, L, B, C, G>,
        since: u64,
    ) -> Result<u64, LedgerFault>
        ensures sweeps { (lines : List LineValue)
            → HasNoted lines self.old.past
            → SweepsOnce L.site L.book L.stands L.failed B.site B.first
            (TellsPage L.site L.book L.bodies L.stands L.failed B.site B.first L.numbered) lines
            since self.old.sweep (self.old.pass.made.count, self.old.pass.receipts.items) result
            self.new.sweep self.new.past
            (self.new.pass.made.count, self.new.pass.receipts.items) }
        ensures terms { (self.new.after ≡ self.old.after) × (self.new.next ≡ self.old.next) }
    {
        let journal = DeskJournal {
            rt: node.rt,
            desk: node.desk,
        };
        let had = mem::replace(&mut self.sweep, None);
        let mut sweep = match journal.known(node.alloc, had, &mut self.past) {
            Ok(Some(sweep)) => sweep,
            Ok(None) => return Ok(0),
            Err(fault) => return Err(fault),
        };
        take_in(node.rt, &mut sweep, node.signal);
        let came = forget_due(node.rt, node.desk, &mut self.pass, &mut sweep, since);
        self.put(sweep);
        came
    }

    /// A turn: what has been over for long enough is forgotten, so many at most; how many instances
    /// there were. Where the store refuses that, the next turn comes a minute later.
    ///
    /// Errors: Store, Memory.
    pub fn turn<R: Wait, L: Views, C: Clock, G: Log>(
        &mut self,
        node: &LiveNode<'_, R, L, B, C, G>,
        now: u64,
    ) -> Result<u64, LedgerFault>
        ensures turns { (lines : List LineValue)
            → HasNoted lines self.old.past
            → Turns L.site L.book L.stands L.failed B.site B.first
            (TellsPage L.site L.book L.bodies L.stands L.failed B.site B.first L.numbered) lines
            self.old.after self.old.next now self.old.sweep
            (self.old.pass.made.count, self.old.pass.receipts.items) result
            self.new.sweep self.new.past
            (self.new.pass.made.count, self.new.pass.receipts.items) }
        ensures next { (self.new.after ≡ self.old.after)
            × (self.new.next ≡ next_turn self.old.next now result) }
    {
        let Some(after) = self.after else {
            return Ok(0);
        };
        if now < self.next {
            return Ok(0);
        }
        match self.sweep(node, now.saturating_sub(after)) {
            Ok(count) => Ok(count),
            Err(fault) => {
                self.next = now.saturating_add(PAUSE);
                Err(fault)
            }
        }
    }
}

/// Tells what came of a turn, where something did.
pub fn tell_turn<R: Wait, L: Views, B: Sharing, C: Clock, G: Log>(
    node: &LiveNode<'_, R, L, B, C, G>,
    came: Result<u64, LedgerFault>,
) {
    match came {
        Ok(0) => {}
        Ok(count) => tell_forgotten(node.log, count),
        Err(fault) => {
            node.signal.doubt(node.rt);
            tell_unswept(node.log, fault);
        }
    }
}
