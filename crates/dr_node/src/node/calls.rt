//! The calls on a node's ledger, where it comes to no link.
ghost use Rattle.std.specs.Prelude.{◌≡◌, ◌≤◌, ◌^◌, ◌↔◌, IsTrue, map as mapped};
ghost use Rattle.std.specs.FinMap as map;
ghost use Rattle.dr_ledger.specs.Adopting.{Adopting, IsFit, Unfits};
ghost use Rattle.dr_ledger.specs.Bodies.{IsNeeded, OnlyLetsGo, OnlyTakes};
ghost use Rattle.dr_ledger.specs.Items.{instance_of};
ghost use Rattle.dr_ledger.specs.Pairs.{pair_cmp};
ghost use Rattle.dr_ledger.specs.Refusals.{Arms};
ghost use Rattle.dr_ledger.specs.Replies.{AreKept, Arrives, Drops, Forgets, IsAdmitted, IsHeld};
ghost use Rattle.dr_ledger.specs.Replies.{IsOver, Lists, Reads, Requeues, entry_of};
ghost use Rattle.dr_ledger.specs.SiteRoutes.{site_routing};
ghost use Rattle.dr_node.specs.Calls.{KeepsPremise, KeepsRest, OnlyReads, TakesSite};
ghost use Rattle.dr_node.specs.Desks.{StaysAway};
ghost use Rattle.dr_route.specs.Routes.{local as local_caller};
ghost use Rattle.dr_session.specs.Ledgers.{desk};
ghost use Rattle.dr_site.specs.Parts.{IsPartOf};

use crate::links::Links;
use crate::node::Node;
use dr_base::{Seq, Text};
use dr_cert::Sealed;
use dr_ledger::{Arrived, Entry, Item, Ledger, LedgerFault, LetsGo, Outcome, Progress};
use dr_site::Site;

impl<L: Ledger> Node<L> {
    /// An instance enters at the node itself.
    ///
    /// Errors: as the ledger's `arrive`.
    pub fn submit(&mut self, item: Item) -> Result<Arrived, LedgerFault>
        ensures reply { L.stands self.new.desk.ledger
            → Arrives (site_routing (L.site self.old.desk.ledger)) local_caller (instance_of item)
            (L.book self.old.desk.ledger) result (L.book self.new.desk.ledger) }
        ensures bodies { L.stands self.new.desk.ledger
            → OnlyTakes item (L.bodies self.old.desk.ledger) (L.bodies self.new.desk.ledger) }
        ensures armed { L.stands self.new.desk.ledger
            → Arms
            (IsAdmitted (site_routing (L.site self.old.desk.ledger)) local_caller (instance_of item)
            (L.book self.old.desk.ledger)) (L.armed self.old.desk.ledger) result
            (L.armed self.new.desk.ledger) }
        ensures premise { KeepsPremise result self.old self.new }
        ensures rest { KeepsRest self.old self.new }
    {
        self.desk.ledger.arrive(&self.local, item)
    }

    /// The node has come to no link to that node: the first row that is due there, at a moment of
    /// at most 2^62 milliseconds, is due later. Gives its uid; None where no row is due, and
    /// nothing has changed.
    ///
    /// Errors: Store, Memory.
    pub fn stay_away(&mut self, dest: &Text, now: u64) -> Result<Option<Text>, LedgerFault>
        requires { now ≤ 2 ^ 62 }
        ensures reply { L.stands self.new.desk.ledger
            → StaysAway dest.now now
            (desk (L.book self.old.desk.ledger) (L.armed self.old.desk.ledger)) result
            (desk (L.book self.new.desk.ledger) (L.armed self.new.desk.ledger)) }
        ensures bodies { L.stands self.new.desk.ledger
            → OnlyLetsGo (L.bodies self.old.desk.ledger) (L.bodies self.new.desk.ledger) }
        ensures premise { KeepsPremise result self.old self.new }
        ensures rest { KeepsRest self.old self.new }
    {
        let Some(uid) = self.desk.ledger.due(dest, now)? else {
            return Ok(None);
        };
        self.desk.ledger.settle(&uid, dest, Outcome::Broken, now)?;
        Ok(Some(uid))
    }

    /// A held row waits again, untried.
    ///
    /// Errors: as the ledger's `requeue`.
    pub fn requeue(&mut self, uid: &Text, dest: &Text) -> Result<(), LedgerFault>
        ensures reply { L.stands self.new.desk.ledger
            → Requeues uid.now dest.now (L.book self.old.desk.ledger) result
            (L.book self.new.desk.ledger) }
        ensures bodies { L.stands self.new.desk.ledger
            → OnlyLetsGo (L.bodies self.old.desk.ledger) (L.bodies self.new.desk.ledger) }
        ensures armed { L.stands self.new.desk.ledger
            → Arms (IsHeld (L.book self.old.desk.ledger) uid.now dest.now)
            (L.armed self.old.desk.ledger) result (L.armed self.new.desk.ledger) }
        ensures premise { KeepsPremise result self.old self.new }
        ensures rest { KeepsRest self.old self.new }
    {
        self.desk.ledger.requeue(uid, dest)
    }

    /// The first row, by (uid, destination), that is still queued and that the next plan doesn't go
    /// on with; None where there is no such row.
    ///
    /// Errors: Store, Memory.
    pub fn unfit(&mut self, next: &Sealed) -> Result<Option<(Text, Text)>, LedgerFault>
        ensures reply { L.stands self.new.desk.ledger
            → Reads result
            (Unfits next.now.plan (L.site self.old.desk.ledger).name
            (L.book self.old.desk.ledger)) }
        ensures reads { OnlyReads result self.old self.new }
        ensures rest { KeepsRest self.old self.new }
    {
        self.desk.ledger.unfit(next)
    }

    /// The node takes the next plan, by which no row of it is unfit: from now on this is its site,
    /// and it has no link. Who calls this looks at the links first, and at the rows (`unfit`).
    ///
    /// Errors: Store, Memory; after them nothing has changed.
    pub fn adopt(&mut self, next: &Sealed, own: Site) -> Result<(), LedgerFault>
        requires part { IsPartOf next.now.plan next.now.certificate own }
        requires name { own.name ≡ (L.site self.old.desk.ledger).name }
        requires fit { L.stands self.old.desk.ledger
            → IsFit next.now.plan own.name (L.book self.old.desk.ledger) }
        ensures reply { L.stands self.new.desk.ledger
            → Adopting (L.book self.old.desk.ledger) result (L.book self.new.desk.ledger) }
        ensures bodies { L.stands self.new.desk.ledger
            → OnlyLetsGo (L.bodies self.old.desk.ledger) (L.bodies self.new.desk.ledger) }
        ensures armed { L.stands self.new.desk.ledger
            → Arms (Unit {0}) (L.armed self.old.desk.ledger) result
            (L.armed self.new.desk.ledger) }
        ensures premise { KeepsPremise result self.old self.new }
        ensures rest { TakesSite own result self.old self.new }
    {
        let Ok(site) = own.copy() else {
            drop(own);
            return Err(LedgerFault::Memory);
        };
        if let Err(fault) = self.desk.ledger.adopt(next, own) {
            drop(site);
            return Err(fault);
        }
        self.site = site;
        self.links = Links::new(self.alloc);
        Ok(())
    }

    /// Whether the data set of that uid is needed: it is while the uid is kept or a row of it is
    /// still queued.
    ///
    /// Errors: Store, Memory.
    pub fn has_body(&mut self, uid: &Text) -> Result<bool, LedgerFault>
        ensures reply { L.stands self.new.desk.ledger
            → Reads result (λ needed.
            IsTrue needed ↔ IsNeeded (L.book self.old.desk.ledger) uid.now) }
        ensures reads { OnlyReads result self.old self.new }
        ensures rest { KeepsRest self.old self.new }
    {
        self.desk.ledger.has_body(uid)
    }

    /// Callers and uids, in byte order of the caller, then of the uid.
    ///
    /// Errors: Store, Memory.
    pub fn arrivals(&mut self) -> Result<Seq<(Text, Text)>, LedgerFault>
        ensures reply { L.stands self.new.desk.ledger
            → Reads result (Lists pair_cmp (L.book self.old.desk.ledger).arrivals) }
        ensures reads { OnlyReads result self.old self.new }
        ensures rest { KeepsRest self.old self.new }
    {
        self.desk.ledger.arrivals()
    }

    /// The kept uids in byte order, each with the length of its body (bytes).
    ///
    /// Errors: Store, Memory.
    pub fn kept(&mut self) -> Result<Seq<(Text, u64)>, LedgerFault>
        ensures reply { L.stands self.new.desk.ledger
            → Reads result (AreKept (L.book self.old.desk.ledger)) }
        ensures reads { OnlyReads result self.old self.new }
        ensures rest { KeepsRest self.old self.new }
    {
        self.desk.ledger.kept()
    }

    /// How far each uid is on its way to each destination, in byte order of the uid, then of the
    /// destination.
    ///
    /// Errors: Store, Memory.
    pub fn rows(&mut self) -> Result<Seq<((Text, Text), Progress)>, LedgerFault>
        ensures reply { L.stands self.new.desk.ledger
            → Reads result (λ all. all ≡ map.entries (L.book self.old.desk.ledger).rows) }
        ensures reads { OnlyReads result self.old self.new }
        ensures rest { KeepsRest self.old self.new }
    {
        self.desk.ledger.rows()
    }

    /// The journal, in order.
    ///
    /// Errors: Store, Memory.
    pub fn lines(&mut self) -> Result<Seq<Entry>, LedgerFault>
        ensures reply { L.stands self.new.desk.ledger
            → Reads result (λ all. all ≡ mapped entry_of (L.book self.old.desk.ledger).lines) }
        ensures reads { OnlyReads result self.old self.new }
        ensures rest { KeepsRest self.old self.new }
    {
        self.desk.ledger.lines()
    }
}

impl<L: LetsGo> Node<L> {
    /// A held row is given up at the moment `now` (milliseconds): it is over, and who brings its
    /// instance again brings it anew. A store of it that still awaits its response does no harm: it
    /// finds no waiting row, or one of the very same instance.
    ///
    /// Errors: as the ledger's `give_up`.
    pub fn give_up(&mut self, uid: &Text, dest: &Text, now: u64) -> Result<(), LedgerFault>
        requires { now ≤ 2 ^ 62 }
        ensures reply { L.stands self.new.desk.ledger
            → Drops uid.now dest.now now (L.book self.old.desk.ledger) result
            (L.book self.new.desk.ledger) }
        ensures bodies { L.stands self.new.desk.ledger
            → OnlyLetsGo (L.bodies self.old.desk.ledger) (L.bodies self.new.desk.ledger) }
        ensures armed { L.stands self.new.desk.ledger
            → Arms (IsHeld (L.book self.old.desk.ledger) uid.now dest.now)
            (L.armed self.old.desk.ledger) result (L.armed self.new.desk.ledger) }
        ensures premise { KeepsPremise result self.old self.new }
        ensures rest { KeepsRest self.old self.new }
    {
        self.desk.ledger.give_up(uid, dest, now)
    }

    /// What is over is forgotten: the instance of the uid, with its arrivals and its rows. A store
    /// of it that still awaits its response would settle a row of a later instance of that uid: who
    /// calls this looks at the sides first.
    ///
    /// Errors: as the ledger's `forget`.
    pub fn forget(&mut self, uid: &Text) -> Result<(), LedgerFault>
        ensures reply { L.stands self.new.desk.ledger →
            Forgets uid.now (L.book self.old.desk.ledger) result (L.book self.new.desk.ledger) }
        ensures bodies { L.stands self.new.desk.ledger →
            OnlyLetsGo (L.bodies self.old.desk.ledger) (L.bodies self.new.desk.ledger) }
        ensures armed { L.stands self.new.desk.ledger
            → Arms (IsOver (L.book self.old.desk.ledger) uid.now) (L.armed self.old.desk.ledger)
            result (L.armed self.new.desk.ledger) }
        ensures premise { KeepsPremise result self.old self.new }
        ensures rest { KeepsRest self.old self.new }
    {
        self.desk.ledger.forget(uid)
    }
}
