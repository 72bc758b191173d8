//! What lies under the lock of a shared desk.
ghost use Rattle.std.specs.Prelude.{◌≡◌, ◌≤◌, ◌+◌, ◌^◌, [], IfErr, IfOk, MatchResult, Ok};
ghost use Rattle.std.specs.Prelude.{◌-◌, ◌↔◌, IsTrue, OnErr, OnOk, length, map as mapped};
ghost use Rattle.std.specs.FinMap as map;
ghost use Rattle.std.proofs.Props.{props};
ghost use Rattle.dr_ledger.specs.Adopting.{Unfits};
ghost use Rattle.dr_ledger.specs.Bodies.{IsNeeded, NextsWith};
ghost use Rattle.dr_ledger.specs.Books.{most_lines};
ghost use Rattle.dr_ledger.specs.Items.{instance_of};
ghost use Rattle.dr_ledger.specs.Histories.{IsJournalled};
ghost use Rattle.dr_ledger.specs.Pairs.{pair_cmp};
ghost use Rattle.dr_ledger.specs.Replies.{Admits, AreKept, Arrives, Counts, Drops, Dues, Forgets};
ghost use Rattle.dr_ledger.specs.Replies.{IsOver, Lists, Reads, Requeues, Settles, entry_of};
ghost use Rattle.dr_ledger.specs.SiteRoutes.{site_routing};
ghost use Rattle.dr_desk.specs.Answering.{Accepts, Refuses};
ghost use Rattle.dr_desk.specs.Endings.{EndsAgreed, EndsUnagreed};
ghost use Rattle.dr_desk.specs.Growing.{Grows};
ghost use Rattle.dr_desk.specs.Reading.{Answered, AreHoldings, HasFailed};

use crate::closing::{Closed, NotClosed, agree, joined, unagreed};
use crate::desk::Desk;
use crate::holdings::Holdings;
use crate::pass::{Made, Pass, TooManyPasses};
use crate::sharing::Sharing;
use dr_base::{Seq, Text};
use dr_cert::Sealed;
use dr_ledger::{
    Arrived, Entry, Item, Ledger, LedgerFault, LetsGo, MOST_LINES, NextRow, Outcome, Progress,
};
use dr_ledger_views::Views;
use std::alloc::Global;
use std::sync::ledger::{Book, Share};

/// How many passes can be made.
const MOST_PASSES: u64 = 65_535;

/// The desk, with how many lines it had before it was shared, the number of its last line, how many
/// passes were made, and the sum of the lines that they count. What is done under the lock is one
/// call of the ledger, and the counting of its line; no item is read or hashed there, no receipt is
/// made or dropped.
#[derive(Drop)]
pub(crate) struct HeldDesk<L: Ledger, B: Sharing> {
    pub(crate) desk: Desk<L>,
    pub(crate) before: u64,
    pub(crate) number: u64,
    pub(crate) passes: u64,
    pub(crate) full: u64,
    pub(crate) tally: Book<B>,
    pub(crate) rest: Share<B>,
    pub ghost parts: { rest.parts + passes ≡ B.all },
    pub ghost idle: { rest.amount ≡ 0 },
    pub ghost all_is: { B.all ≡ 65536 },
    pub ghost none_left: { 1 ≤ full → most_lines ≤ number },
    pub ghost total: { before + tally.total ≡ number },
    pub ghost of: { L.site desk.ledger ≡ B.site } by { Prim.hlevel props },
    pub ghost history: { L.stands desk.ledger
        → ∥ IsJournalled (site_routing (L.site desk.ledger))
        (L.book desk.ledger) ∥₁ } by { Prim.hlevel
            props },
    pub ghost grows: { L.stands desk.ledger
        → Grows B.first before (L.book desk.ledger).lines number } by { Prim.hlevel
            props },
}

/// All that a ledger has at one moment, with so many lines.
fn holdings_of<L: Ledger>(ledger: &mut L, lines: u64) -> Result<Holdings, LedgerFault>
    ensures reply { L.stands ledger.new
        → length (L.book ledger.old).lines ≡ lines
        → Reads result (AreHoldings (L.book ledger.old)) }
    ensures same { L.stands ledger.new
        → (L.book ledger.new ≡ L.book ledger.old) × (L.bodies ledger.new ≡ L.bodies ledger.old) }
    ensures counts { Counts result (L.failed ledger.old) (L.failed ledger.new) }
    ensures stood { L.stands ledger.new → L.stands ledger.old }
    ensures site { L.site ledger.new ≡ L.site ledger.old }
{
    let arrivals = ledger.arrivals()?;
    let kept = ledger.kept()?;
    let rows = ledger.rows()?;
    Ok(Holdings {
        arrivals,
        kept,
        rows,
        lines,
    })
}

impl<L: Ledger, B: Sharing> HeldDesk<L, B> {
    /// The journal is full: that counts as a failed store.
    fn refuse(&mut self) -> LedgerFault
        requires { most_lines ≤ self.old.number }
        ensures store { result ≡ LedgerFault.Store }
        ensures desk { self.new.desk ≡ self.old.desk }
    {
        self.full = self.full.saturating_add(1);
        LedgerFault::Store
    }

    /// The ledger's `arrive`, with the number of the line.
    pub(crate) fn arrive(
        &mut self,
        made: &mut Made<B>,
        caller: &Text,
        item: Item,
    ) -> Result<(u64, Arrived), LedgerFault>
        ensures count { MatchResult result
            (λ r. made.new.count ≡ made.old.count + 1)
            (λ why. made.new.count ≡ made.old.count) }
        ensures answer { MatchResult result
            (λ r. Accepts L.site L.book L.stands L.failed B.site B.first
            (Arrives (site_routing B.site) caller.now (instance_of item))
            r.1 r.0 self.old.desk.ledger self.new.desk.ledger)
            (λ why. Refuses L.site L.book L.stands L.failed B.site B.first
            (Arrives (site_routing B.site) caller.now (instance_of item))
            why self.old.desk.ledger self.new.desk.ledger) }
    {
        if self.number >= MOST_LINES {
            return Err(self.refuse());
        }
        let HeldDesk {
            desk,
            number,
            tally,
            ..
        } = self;
        let arrived = desk.arrive(caller, item)?;
        Ok((made.count_line(tally, number), arrived))
    }

    /// The ledger's `settle`, with the number of the line.
    pub(crate) fn settle(
        &mut self,
        made: &mut Made<B>,
        uid: &Text,
        dest: &Text,
        outcome: Outcome,
        now: u64,
    ) -> Result<u64, LedgerFault>
        requires { now ≤ 2 ^ 62 }
        ensures count { MatchResult result
            (λ n. made.new.count ≡ made.old.count + 1)
            (λ why. made.new.count ≡ made.old.count) }
        ensures answer { MatchResult result
            (λ r. Accepts L.site L.book L.stands L.failed B.site B.first
            (Settles uid.now dest.now outcome now)
            tt r self.old.desk.ledger self.new.desk.ledger)
            (λ why. Refuses L.site L.book L.stands L.failed B.site B.first
            (Settles uid.now dest.now outcome now)
            why self.old.desk.ledger self.new.desk.ledger) }
    {
        if self.number >= MOST_LINES {
            return Err(self.refuse());
        }
        let HeldDesk {
            desk,
            number,
            tally,
            ..
        } = self;
        desk.settle(uid, dest, outcome, now)?;
        Ok(made.count_line(tally, number))
    }

    /// The ledger's `requeue`, with the number of the line.
    pub(crate) fn requeue(
        &mut self,
        made: &mut Made<B>,
        uid: &Text,
        dest: &Text,
    ) -> Result<u64, LedgerFault>
        ensures count { MatchResult result
            (λ n. made.new.count ≡ made.old.count + 1)
            (λ why. made.new.count ≡ made.old.count) }
        ensures answer { MatchResult result
            (λ r. Accepts L.site L.book L.stands L.failed B.site B.first
            (Requeues uid.now dest.now)
            tt r self.old.desk.ledger self.new.desk.ledger)
            (λ why. Refuses L.site L.book L.stands L.failed B.site B.first
            (Requeues uid.now dest.now)
            why self.old.desk.ledger self.new.desk.ledger) }
    {
        if self.number >= MOST_LINES {
            return Err(self.refuse());
        }
        let HeldDesk {
            desk,
            number,
            tally,
            ..
        } = self;
        desk.requeue(uid, dest)?;
        Ok(made.count_line(tally, number))
    }

    /// Makes a pass; the last part stays.
    pub(crate) fn pass(&mut self, alloc: Global) -> Result<Pass<B>, TooManyPasses>
        ensures pass { IfOk result (λ p. (p.made.count ≡ 0) × (p.receipts.items ≡ [])) }
        ensures counted { OnOk result (self.new.passes ≡ self.old.passes + 1) }
        ensures full { OnErr result ((65535 ≤ self.old.passes) × (self.new ≡ self.old)) }
    {
        if self.passes >= MOST_PASSES {
            return Err(TooManyPasses);
        }
        self.passes += 1;
        let share = self.rest.split_off(1, 0);
        Ok(Pass::new(alloc, share))
    }

    /// The ledger's `next`.
    pub(crate) fn next(&mut self, dest: &Text, now: u64) -> Result<Option<NextRow>, LedgerFault>
        ensures { Answered L.site L.book L.bodies L.stands L.failed B.site B.first
            (λ l answer. Reads answer (NextsWith (L.book l) (L.bodies l) dest.now now))
            result self.old.desk.ledger self.new.desk.ledger }
    {
        self.desk.next(dest, now)
    }

    /// The ledger's `due`.
    pub(crate) fn due(&mut self, dest: &Text, now: u64) -> Result<Option<Text>, LedgerFault>
        ensures { Answered L.site L.book L.bodies L.stands L.failed B.site B.first
            (λ l answer. Reads answer (Dues (L.book l) dest.now now))
            result self.old.desk.ledger self.new.desk.ledger }
    {
        self.desk.due(dest, now)
    }

    /// The ledger's `admits`.
    pub(crate) fn admits(&mut self, caller: &Text, item: &Item) -> Result<(), LedgerFault>
        ensures { Answered L.site L.book L.bodies L.stands L.failed B.site B.first
            (λ l answer.
            Admits (site_routing B.site) caller.now (instance_of item.now) (L.book l) answer) result
            self.old.desk.ledger self.new.desk.ledger }
    {
        self.desk.admits(caller, item)
    }

    /// The ledger's `has`.
    pub(crate) fn has(&mut self, uid: &Text) -> Result<bool, LedgerFault>
        ensures { Answered L.site L.book L.bodies L.stands L.failed B.site B.first
            (λ l answer. Reads answer (λ there. there ≡ map.contains_key (L.book l).items uid.now))
            result self.old.desk.ledger self.new.desk.ledger }
    {
        self.desk.has(uid)
    }

    /// The ledger's `has_body`.
    pub(crate) fn has_body(&mut self, uid: &Text) -> Result<bool, LedgerFault>
        ensures { Answered L.site L.book L.bodies L.stands L.failed B.site B.first
            (λ l answer. Reads answer (λ needed. IsTrue needed ↔ IsNeeded (L.book l) uid.now))
            result self.old.desk.ledger self.new.desk.ledger }
    {
        self.desk.has_body(uid)
    }

    /// The ledger's `arrivals`.
    pub(crate) fn arrivals(&mut self) -> Result<Seq<(Text, Text)>, LedgerFault>
        ensures { Answered L.site L.book L.bodies L.stands L.failed B.site B.first
            (λ l answer. Reads answer (Lists pair_cmp (L.book l).arrivals))
            result self.old.desk.ledger self.new.desk.ledger }
    {
        self.desk.arrivals()
    }

    /// The ledger's `kept`.
    pub(crate) fn kept(&mut self) -> Result<Seq<(Text, u64)>, LedgerFault>
        ensures { Answered L.site L.book L.bodies L.stands L.failed B.site B.first
            (λ l answer. Reads answer (AreKept (L.book l)))
            result self.old.desk.ledger self.new.desk.ledger }
    {
        self.desk.kept()
    }

    /// The ledger's `rows`.
    pub(crate) fn rows(&mut self) -> Result<Seq<((Text, Text), Progress)>, LedgerFault>
        ensures { Answered L.site L.book L.bodies L.stands L.failed B.site B.first
            (λ l answer. Reads answer (λ all. all ≡ map.entries (L.book l).rows))
            result self.old.desk.ledger self.new.desk.ledger }
    {
        self.desk.rows()
    }

    /// The ledger's `lines`.
    pub(crate) fn lines(&mut self) -> Result<Seq<Entry>, LedgerFault>
        ensures { Answered L.site L.book L.bodies L.stands L.failed B.site B.first
            (λ l answer. Reads answer (λ all. all ≡ mapped entry_of (L.book l).lines))
            result self.old.desk.ledger self.new.desk.ledger }
    {
        self.desk.lines()
    }

    /// All that is there at this moment.
    pub(crate) fn holdings(&mut self) -> Result<Holdings, LedgerFault>
        ensures { Answered L.site L.book L.bodies L.stands L.failed B.site B.first
            (λ l answer. Reads answer (AreHoldings (L.book l)))
            result self.old.desk.ledger self.new.desk.ledger }
    {
        holdings_of(&mut self.desk, self.number)
    }

    /// The ledger's `progress`.
    pub(crate) fn progress(
        &mut self,
        uid: &Text,
        dest: &Text,
    ) -> Result<Option<Progress>, LedgerFault>
        ensures { Answered L.site L.book L.bodies L.stands L.failed B.site B.first
            (λ l answer. Reads answer (λ row. row ≡ map.get (L.book l).rows (uid.now, dest.now)))
            result self.old.desk.ledger self.new.desk.ledger }
    {
        self.desk.progress(uid, dest)
    }

    /// The ledger's `unfit`.
    pub(crate) fn unfit(&mut self, next: &Sealed) -> Result<Option<(Text, Text)>, LedgerFault>
        ensures { Answered L.site L.book L.bodies L.stands L.failed B.site B.first
            (λ l answer. Reads answer (Unfits next.now.plan B.site.name (L.book l)))
            result self.old.desk.ledger self.new.desk.ledger }
    {
        self.desk.unfit(next)
    }

    /// How often the store has failed.
    pub(crate) fn failures(&self) -> u64
        ensures { HasFailed L.site L.book L.bodies L.stands L.failed B.site B.first
            self.now.full result self.now.desk.ledger }
    {
        self.desk.failures().saturating_add(self.full)
    }
}

impl<L: Views, B: Sharing> HeldDesk<L, B> {
    /// Ends the sharing, as `SharedDesk::close`.
    pub(crate) fn close(
        self,
        alloc: Global,
        passes: Vec<Pass<B>>,
    ) -> Result<Closed<L>, NotClosed<L, B>>
        requires { B.all ≡ B.parts }
        ensures ends { IfOk result (λ c. EndsAgreed L.site L.book L.stands B.site B.first
            passes.items (λ p. p.receipts.items) (λ p. p.made.count) c.passes c.sum
            c.desk.ledger) }
        ensures passes { IfOk result (λ c. c.passes ≡ self.passes) }
        ensures fails { IfErr result (λ e. EndsUnagreed L.site L.book L.stands B.site B.first
            passes.items (λ p. p.receipts.items) e.fault e.desk.ledger) }
        ensures back { IfErr result (λ e. e.passes ≡ passes) }
    {
        let HeldDesk {
            desk,
            before,
            number: _,
            passes: made,
            full: _,
            tally,
            rest,
        } = self;
        let mut desk = desk;
        if let Err(why) = agree(alloc, &mut desk.ledger, before, passes.as_slice()) {
            return Err(NotClosed {
                fault: unagreed(why),
                desk,
                passes,
            });
        }
        let sum = joined(tally, rest, passes);
        Ok(Closed {
            desk,
            sum,
            passes: made,
        })
    }
}

impl<L: LetsGo, B: Sharing> HeldDesk<L, B> {
    /// The ledger's `give_up`, with the number of the line.
    pub(crate) fn give_up(
        &mut self,
        made: &mut Made<B>,
        uid: &Text,
        dest: &Text,
        now: u64,
    ) -> Result<u64, LedgerFault>
        requires { now ≤ 2 ^ 62 }
        ensures count { MatchResult result (λ n. made.new.count ≡ made.old.count + 1)
            (λ why. made.new.count ≡ made.old.count) }
        ensures answer { MatchResult result
            (λ r. Accepts L.site L.book L.stands L.failed B.site B.first
            (Drops uid.now dest.now now)
            tt r self.old.desk.ledger self.new.desk.ledger)
            (λ why. Refuses L.site L.book L.stands L.failed B.site B.first
            (Drops uid.now dest.now now)
            why self.old.desk.ledger self.new.desk.ledger) }
    {
        if self.number >= MOST_LINES {
            return Err(self.refuse());
        }
        let HeldDesk {
            desk,
            number,
            tally,
            ..
        } = self;
        desk.give_up(uid, dest, now)?;
        Ok(made.count_line(tally, number))
    }

    /// The ledger's `forget`, with the number of the line.
    pub(crate) fn forget(&mut self, made: &mut Made<B>, uid: &Text) -> Result<u64, LedgerFault>
        ensures count { MatchResult result (λ n. made.new.count ≡ made.old.count + 1)
            (λ why. made.new.count ≡ made.old.count) }
        ensures answer { MatchResult result
            (λ r. Accepts L.site L.book L.stands L.failed B.site B.first
            (Forgets uid.now)
            tt r self.old.desk.ledger self.new.desk.ledger)
            (λ why. Refuses L.site L.book L.stands L.failed B.site B.first
            (Forgets uid.now)
            why self.old.desk.ledger self.new.desk.ledger) }
    {
        if self.number >= MOST_LINES {
            return Err(self.refuse());
        }
        let HeldDesk {
            desk,
            number,
            tally,
            ..
        } = self;
        desk.forget(uid)?;
        Ok(made.count_line(tally, number))
    }

    /// The ledger's `is_over`.
    pub(crate) fn is_over(&mut self, uid: &Text) -> Result<bool, LedgerFault>
        ensures { Answered L.site L.book L.bodies L.stands L.failed B.site B.first
            (λ l answer. Reads answer (λ over. IsTrue over ↔ IsOver (L.book l) uid.now))
            result self.old.desk.ledger self.new.desk.ledger }
    {
        self.desk.is_over(uid)
    }
}
