//! A desk that threads share.
ghost use Rattle.std.specs.Prelude.{◌≡◌, ◌⊎◌, ◌<◌, ◌≤◌, ◌^◌, [], IfErr, IfOk};
ghost use Rattle.std.specs.Prelude.{◌↔◌, IsTrue, MatchResult, map as mapped};
ghost use Rattle.std.specs.FinMap as map;
ghost use Rattle.dr_ledger.specs.Adopting.{Unfits};
ghost use Rattle.dr_ledger.specs.Bodies.{IsNeeded, NextsWith};
ghost use Rattle.dr_ledger.specs.Items.{instance_of};
ghost use Rattle.dr_ledger.specs.Pairs.{pair_cmp};
ghost use Rattle.dr_ledger.specs.Replies.{Admits, AreKept, Arrives, Drops, Dues, Forgets, IsOver};
ghost use Rattle.dr_ledger.specs.Replies.{HasRisen, Lists, Reads, Requeues, Settles, entry_of};
ghost use Rattle.dr_ledger.specs.declared.fault.LedgerFault.TheVariants.{Memory, Store};
ghost use Rattle.dr_ledger.specs.SiteRoutes.{site_routing};
ghost use Rattle.dr_desk.specs.Answering.{Answers};
ghost use Rattle.dr_desk.specs.Endings.{EndsAgreed, EndsUnagreed};
ghost use Rattle.dr_desk.specs.Reading.{AreHoldings, Failing, HasLines, Reading};
ghost use Rattle.dr_desk.specs.Receipts.{LeavesReceipts, Notes, arrival_of};

use crate::closing::{Closed, NotClosed};
use crate::desk::Desk;
use crate::held::HeldDesk;
use crate::holdings::Holdings;
use crate::pass::{Pass, TooManyPasses};
use crate::receipt::{Call, Receipt, Reply, arrival, dropping, forgetting, requeuing, settling};
use crate::sharing::Sharing;
use dr_base::{Seq, Text};
use dr_cert::Sealed;
use dr_ledger::{Arrived, Entry, Item, Ledger, LedgerFault, LetsGo, NextRow, Outcome, Progress};
use dr_ledger_views::Views;
use dr_site::Site;
use std::alloc::Global;
use std::sync::ledger::Blank;
use std::sync::{Mutex, Wait};

/// A desk that threads share, with the site of its ledger. Each call waits for the one lock, which
/// is held for one call of the ledger alone, but by `holdings`, `totals` and `tally`. Another
/// thread may have called in between; so what a call answers is said of the ledger at one moment.
#[derive(Drop)]
pub struct SharedDesk<L: Ledger, B: Sharing> {
    pub(crate) site: Site,
    pub(crate) held: Mutex<HeldDesk<L, B>>,
}

impl<L: Views, B: Sharing> SharedDesk<L, B> {
    /// Shares a desk, whose ledger is of that site. It is asked how many lines it has, and none of
    /// them is read. Where it can't be asked, the desk is handed back.
    ///
    /// Errors: Store, Memory.
    pub fn new(
        desk: Desk<L>,
        site: Site,
        blank: Blank,
    ) -> Result<SharedDesk<L, B>, (LedgerFault, Desk<L>)>
        requires blank { (blank.name ≡ B.name) × (blank.parts ≡ B.parts) × (B.all ≡ B.parts)
            × (B.all ≡ 65536) }
        requires first { B.first ≡ (L.book desk.ledger).lines }
        requires site { (L.site desk.ledger ≡ site) × (B.site ≡ site) }
        ensures site { IfOk result (λ s. s.site ≡ site) }
        ensures same { IfErr result (λ e. L.stands e.1.ledger
            → L.stands desk.ledger
            × (L.book e.1.ledger ≡ L.book desk.ledger)
            × (L.bodies e.1.ledger ≡ L.bodies desk.ledger)) }
        ensures of { IfErr result (λ e. L.site e.1.ledger ≡ site) }
        ensures stored { IfErr result (λ e. e.0 ≡ Store
            → HasRisen (L.failed desk.ledger) (L.failed e.1.ledger)) }
        ensures cause { IfErr result (λ e. L.stands e.1.ledger
            → (e.0 ≡ Store) ⊎ (e.0 ≡ Memory)) }
    {
        let mut desk = desk;
        let number = match desk.line_count() {
            Ok(number) => number,
            Err(fault) => {
                drop(site);
                return Err((fault, desk));
            }
        };
        let (tally, rest) = blank.open::<B>();
        let held = HeldDesk {
            desk,
            before: number,
            number,
            passes: 0,
            full: 0,
            tally,
            rest,
        };
        Ok(SharedDesk {
            site,
            held: Mutex::new(held),
        })
    }

    /// Ends the sharing, where each receipt of the passes agrees with the journal. The desk, and
    /// where it doesn't end so the passes too, are handed back. The journal is read by pages, from
    /// the first line on that a receipt is of.
    ///
    /// Errors: Receipt, Store, Memory.
    pub fn close(self, alloc: Global, passes: Vec<Pass<B>>) -> Result<Closed<L>, NotClosed<L, B>>
        requires { B.all ≡ B.parts }
        ensures ends { IfOk result (λ c. EndsAgreed L.site L.book L.stands B.site B.first
            passes.items (λ p. p.receipts.items) (λ p. p.made.count) c.passes c.sum
            c.desk.ledger) }
        ensures fails { IfErr result (λ e. EndsUnagreed L.site L.book L.stands B.site B.first
            passes.items (λ p. p.receipts.items) e.fault e.desk.ledger) }
        ensures back { IfErr result (λ e. e.passes ≡ passes) }
    {
        self.into_held().close(alloc, passes)
    }

    fn into_held(self) -> HeldDesk<L, B> {
        let SharedDesk { site: _, held } = self;
        held.into_inner()
    }
}

impl<L: Ledger, B: Sharing> SharedDesk<L, B> {
    /// The site of its ledger.
    pub fn site(&self) -> &Site
        ensures { result.now ≡ self.now.site }
    {
        &self.site
    }

    /// A pass for a caller, which did nothing.
    ///
    /// Errors: TooManyPasses, if 65,535 were made.
    pub fn pass<R: Wait>(&self, rt: &R, alloc: Global) -> Result<Pass<B>, TooManyPasses>
        ensures { IfOk result (λ p. (p.made.count ≡ 0) × (p.receipts.items ≡ [])) }
    {
        self.held.lock(rt).pass(alloc)
    }

    /// Takes an item from a caller. The receipt's room is taken before the ledger is called.
    ///
    /// Errors: as the ledger's `arrive`; Memory may come before NoLine.
    pub fn arrive<R: Wait>(
        &self,
        rt: &R,
        pass: &mut Pass<B>,
        caller: &Text,
        item: Item,
    ) -> Result<Arrived, LedgerFault>
        ensures pass { MatchResult result
            (λ r. Notes (arrival_of caller.now item) (Reply.Arrived r) pass.old.made.count
            pass.old.receipts.items pass.new.made.count pass.new.receipts.items)
            (λ why. LeavesReceipts pass.old.made.count pass.old.receipts.items pass.new.made.count
            pass.new.receipts.items) }
        ensures answer { Answers L.site L.book L.stands L.failed B.site B.first
            (Arrives (site_routing B.site) caller.now (instance_of item))
            (arrival_of caller.now item) (λ r. Reply.Arrived r) result
            pass.old.receipts.items pass.new.receipts.items }
    {
        if pass.make_room().is_err() {
            drop(item);
            return Err(LedgerFault::Memory);
        }
        let Ok(call) = arrival(caller, &item) else {
            drop(item);
            return Err(LedgerFault::Memory);
        };
        // The lock is given back here, before the receipt is noted.
        let came = self.held.lock(rt).arrive(&mut pass.made, caller, item);
        match came {
            Ok((number, arrived)) => {
                pass.note(Receipt {
                    number,
                    call,
                    reply: Reply::Arrived(arrived),
                });
                Ok(arrived)
            }
            Err(fault) => {
                drop(call);
                Err(fault)
            }
        }
    }

    /// Notes what came of a try.
    ///
    /// Errors: as the ledger's `settle`; Memory may come before NotWaiting.
    pub fn settle<R: Wait>(
        &self,
        rt: &R,
        pass: &mut Pass<B>,
        uid: &Text,
        dest: &Text,
        outcome: Outcome,
        now: u64,
    ) -> Result<(), LedgerFault>
        requires { now ≤ 2 ^ 62 }
        ensures pass { MatchResult result
            (λ r. Notes (Call.Settling uid.now dest.now outcome now) Reply.Done pass.old.made.count
            pass.old.receipts.items pass.new.made.count pass.new.receipts.items)
            (λ why. LeavesReceipts pass.old.made.count pass.old.receipts.items pass.new.made.count
            pass.new.receipts.items) }
        ensures answer { Answers L.site L.book L.stands L.failed B.site B.first
            (Settles uid.now dest.now outcome now)
            (Call.Settling uid.now dest.now outcome now) (λ r. Reply.Done) result
            pass.old.receipts.items pass.new.receipts.items }
    {
        pass.make_room()?;
        let call = settling(uid, dest, outcome, now)?;
        let came = self
            .held
            .lock(rt)
            .settle(&mut pass.made, uid, dest, outcome, now);
        match came {
            Ok(number) => {
                pass.note(Receipt {
                    number,
                    call,
                    reply: Reply::Done,
                });
                Ok(())
            }
            Err(fault) => {
                drop(call);
                Err(fault)
            }
        }
    }

    /// Queues a held row again.
    ///
    /// Errors: as the ledger's `requeue`; Memory may come before NotHeld.
    pub fn requeue<R: Wait>(
        &self,
        rt: &R,
        pass: &mut Pass<B>,
        uid: &Text,
        dest: &Text,
    ) -> Result<(), LedgerFault>
        ensures pass { MatchResult result
            (λ r. Notes (Call.Requeuing uid.now dest.now) Reply.Done pass.old.made.count
            pass.old.receipts.items pass.new.made.count pass.new.receipts.items)
            (λ why. LeavesReceipts pass.old.made.count pass.old.receipts.items pass.new.made.count
            pass.new.receipts.items) }
        ensures answer { Answers L.site L.book L.stands L.failed B.site B.first
            (Requeues uid.now dest.now)
            (Call.Requeuing uid.now dest.now) (λ r. Reply.Done) result
            pass.old.receipts.items pass.new.receipts.items }
    {
        pass.make_room()?;
        let call = requeuing(uid, dest)?;
        let came = self.held.lock(rt).requeue(&mut pass.made, uid, dest);
        match came {
            Ok(number) => {
                pass.note(Receipt {
                    number,
                    call,
                    reply: Reply::Done,
                });
                Ok(())
            }
            Err(fault) => {
                drop(call);
                Err(fault)
            }
        }
    }

    /// The ledger's `next`.
    pub fn next<R: Wait>(
        &self,
        rt: &R,
        dest: &Text,
        now: u64,
    ) -> Result<Option<NextRow>, LedgerFault>
        ensures { Reading L.site L.book L.bodies L.stands L.failed B.site B.first
            (λ l answer. Reads answer (NextsWith (L.book l) (L.bodies l) dest.now now)) result }
    {
        self.held.lock(rt).next(dest, now)
    }

    /// The ledger's `due`: no data set is read.
    pub fn due<R: Wait>(&self, rt: &R, dest: &Text, now: u64) -> Result<Option<Text>, LedgerFault>
        ensures { Reading L.site L.book L.bodies L.stands L.failed B.site B.first
            (λ l answer. Reads answer (Dues (L.book l) dest.now now)) result }
    {
        self.held.lock(rt).due(dest, now)
    }

    /// The ledger's `admits`.
    pub fn admits<R: Wait>(&self, rt: &R, caller: &Text, item: &Item) -> Result<(), LedgerFault>
        ensures { Reading L.site L.book L.bodies L.stands L.failed B.site B.first
            (λ l answer.
            Admits (site_routing B.site) caller.now (instance_of item.now) (L.book l) answer)
            result }
    {
        self.held.lock(rt).admits(caller, item)
    }

    /// The ledger's `has`.
    pub fn has<R: Wait>(&self, rt: &R, uid: &Text) -> Result<bool, LedgerFault>
        ensures { Reading L.site L.book L.bodies L.stands L.failed B.site B.first
            (λ l answer. Reads answer (λ there. there ≡ map.contains_key (L.book l).items uid.now))
            result }
    {
        self.held.lock(rt).has(uid)
    }

    /// The ledger's `has_body`.
    pub fn has_body<R: Wait>(&self, rt: &R, uid: &Text) -> Result<bool, LedgerFault>
        ensures { Reading L.site L.book L.bodies L.stands L.failed B.site B.first
            (λ l answer. Reads answer (λ needed. IsTrue needed ↔ IsNeeded (L.book l) uid.now))
            result }
    {
        self.held.lock(rt).has_body(uid)
    }

    /// The ledger's `arrivals`.
    pub fn arrivals<R: Wait>(&self, rt: &R) -> Result<Seq<(Text, Text)>, LedgerFault>
        ensures { Reading L.site L.book L.bodies L.stands L.failed B.site B.first
            (λ l answer. Reads answer (Lists pair_cmp (L.book l).arrivals)) result }
    {
        self.held.lock(rt).arrivals()
    }

    /// The ledger's `kept`.
    pub fn kept<R: Wait>(&self, rt: &R) -> Result<Seq<(Text, u64)>, LedgerFault>
        ensures { Reading L.site L.book L.bodies L.stands L.failed B.site B.first
            (λ l answer. Reads answer (AreKept (L.book l))) result }
    {
        self.held.lock(rt).kept()
    }

    /// The ledger's `rows`.
    pub fn rows<R: Wait>(&self, rt: &R) -> Result<Seq<((Text, Text), Progress)>, LedgerFault>
        ensures { Reading L.site L.book L.bodies L.stands L.failed B.site B.first
            (λ l answer. Reads answer (λ all. all ≡ map.entries (L.book l).rows)) result }
    {
        self.held.lock(rt).rows()
    }

    /// The ledger's `lines`.
    pub fn lines<R: Wait>(&self, rt: &R) -> Result<Seq<Entry>, LedgerFault>
        ensures { Reading L.site L.book L.bodies L.stands L.failed B.site B.first
            (λ l answer. Reads answer (λ all. all ≡ mapped entry_of (L.book l).lines)) result }
    {
        self.held.lock(rt).lines()
    }

    /// All that the ledger has at one moment. The lock is held for the three calls that list it.
    ///
    /// Errors: Store, Memory.
    pub fn holdings<R: Wait>(&self, rt: &R) -> Result<Holdings, LedgerFault>
        ensures { Reading L.site L.book L.bodies L.stands L.failed B.site B.first
            (λ l answer. Reads answer (AreHoldings (L.book l))) result }
    {
        self.held.lock(rt).holdings()
    }

    /// How many lines the journal has.
    pub fn line_count<R: Wait>(&self, rt: &R) -> u64
        ensures { HasLines L.site L.book L.bodies L.stands L.failed B.site B.first result }
    {
        self.held.lock(rt).number
    }

    /// The ledger's `progress`.
    pub fn progress<R: Wait>(
        &self,
        rt: &R,
        uid: &Text,
        dest: &Text,
    ) -> Result<Option<Progress>, LedgerFault>
        ensures { Reading L.site L.book L.bodies L.stands L.failed B.site B.first
            (λ l answer. Reads answer (λ row. row ≡ map.get (L.book l).rows (uid.now, dest.now)))
            result }
    {
        self.held.lock(rt).progress(uid, dest)
    }

    /// The ledger's `unfit`.
    pub fn unfit<R: Wait>(&self, rt: &R, next: &Sealed) -> Result<Option<(Text, Text)>, LedgerFault>
        ensures { Reading L.site L.book L.bodies L.stands L.failed B.site B.first
            (λ l answer. Reads answer (Unfits next.now.plan B.site.name (L.book l))) result }
    {
        self.held.lock(rt).unfit(next)
    }

    /// How often the store has failed; the count stays at its greatest value.
    pub fn failures<R: Wait>(&self, rt: &R) -> u64
        ensures { Failing L.site L.book L.bodies L.stands L.failed B.site B.first result }
    {
        self.held.lock(rt).failures()
    }
}

impl<L: LetsGo, B: Sharing> SharedDesk<L, B> {
    /// Gives a held row up.
    ///
    /// Errors: as the ledger's `give_up`; Memory may come before NotHeld.
    pub fn give_up<R: Wait>(
        &self,
        rt: &R,
        pass: &mut Pass<B>,
        uid: &Text,
        dest: &Text,
        now: u64,
    ) -> Result<(), LedgerFault>
        requires { now ≤ 2 ^ 62 }
        ensures pass { MatchResult result
            (λ r. Notes (Call.Dropping uid.now dest.now now) Reply.Done
            pass.old.made.count pass.old.receipts.items
            pass.new.made.count pass.new.receipts.items)
            (λ why. LeavesReceipts pass.old.made.count pass.old.receipts.items
            pass.new.made.count pass.new.receipts.items) }
        ensures answer { Answers L.site L.book L.stands L.failed B.site B.first
            (Drops uid.now dest.now now)
            (Call.Dropping uid.now dest.now now) (λ r. Reply.Done) result
            pass.old.receipts.items pass.new.receipts.items }
    {
        pass.make_room()?;
        let call = dropping(uid, dest, now)?;
        let came = self.held.lock(rt).give_up(&mut pass.made, uid, dest, now);
        match came {
            Ok(number) => {
                pass.note(Receipt {
                    number,
                    call,
                    reply: Reply::Done,
                });
                Ok(())
            }
            Err(fault) => {
                drop(call);
                Err(fault)
            }
        }
    }

    /// Forgets an instance.
    ///
    /// Errors: as the ledger's `forget`; Memory may come before NotOver.
    pub fn forget<R: Wait>(&self, rt: &R, pass: &mut Pass<B>, uid: &Text) -> Result<(), LedgerFault>
        ensures pass { MatchResult result
            (λ r. Notes (Call.Forgetting uid.now) Reply.Done
            pass.old.made.count pass.old.receipts.items
            pass.new.made.count pass.new.receipts.items)
            (λ why. LeavesReceipts pass.old.made.count pass.old.receipts.items
            pass.new.made.count pass.new.receipts.items) }
        ensures answer { Answers L.site L.book L.stands L.failed B.site B.first
            (Forgets uid.now)
            (Call.Forgetting uid.now) (λ r. Reply.Done) result
            pass.old.receipts.items pass.new.receipts.items }
    {
        pass.make_room()?;
        let call = forgetting(uid)?;
        let came = self.held.lock(rt).forget(&mut pass.made, uid);
        match came {
            Ok(number) => {
                pass.note(Receipt {
                    number,
                    call,
                    reply: Reply::Done,
                });
                Ok(())
            }
            Err(fault) => {
                drop(call);
                Err(fault)
            }
        }
    }

    /// The ledger's `is_over`.
    pub fn is_over<R: Wait>(&self, rt: &R, uid: &Text) -> Result<bool, LedgerFault>
        ensures { Reading L.site L.book L.bodies L.stands L.failed B.site B.first
            (λ l answer. Reads answer (λ over. IsTrue over ↔ IsOver (L.book l) uid.now)) result }
    {
        self.held.lock(rt).is_over(uid)
    }
}
