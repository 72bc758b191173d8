//! One node: its links over its ledger.
ghost use Rattle.std.specs.Prelude.{◌≡◌, ◌≤◌, ◌^◌, IfErr, IfOk, option_copied, true};
ghost use Rattle.std.specs.declared.alloc.AllocError.{AllocError as NoMemory};
ghost use Rattle.std.specs.FinMap as map;
ghost use Rattle.std.proofs.Props.{props};
ghost use Rattle.dr_route.specs.Routes.{local as local_caller};
ghost use Rattle.dr_node.specs.Desks.{LedgerStep};
ghost use Rattle.dr_node.specs.Sides.{AcceptsLink, Does, MeetsEvent, Opens, Pushes, state_of_side};

mod calls;

use crate::event::LinkEvent;
use crate::fault::NodeFault;
use crate::links::{LinkSide, Links};
use dr_base::{Seq, Text};
use dr_ledger::{Ledger, Refusing};
use dr_session::LinkAction;
use dr_session::desk::LedgerDesk;
use dr_site::Site;
use dr_ulstate::State;
use std::alloc::{AllocFailed, Global};

/// One node: its site, its links and its ledger, which is that site's. Links have numbers, which
/// are the caller's. A link whose association has ended stays, in Sta1; one for which memory ended
/// is dropped.
#[derive(Drop)]
pub struct Node<L: Ledger> {
    alloc: Global,
    site: Site,
    /// The caller of what enters at the node itself.
    local: Text,
    desk: LedgerDesk<L>,
    links: Links,
    ghost is_local: { local ≡ local_caller } by { Prim.hlevel props },
    ghost of: { ∥ L.site desk.ledger ≡ site ∥₁ },
}

impl<L: Ledger> Node<L> {
    /// The node of a site over its ledger, without a link. Without memory the ledger is given back.
    pub fn new(alloc: Global, site: Site, ledger: L) -> Result<Node<L>, AllocFailed<L>>
        requires { L.site ledger ≡ site }
        ensures made { IfOk result (λ n.
            (n.site ≡ site) × (n.desk.ledger ≡ ledger) × (n.links ≡ map.empty)) }
        ensures back { IfErr result (λ e. e.value ≡ ledger) }
    {
        let Ok(local) = Text::copy_of(alloc, b"-") else {
            return Err(AllocFailed { value: ledger });
        };
        Ok(Node {
            alloc,
            site,
            local,
            desk: LedgerDesk { ledger },
            links: Links::new(alloc),
        })
    }

    /// Its site.
    pub fn site(&self) -> &Site
        ensures { result.now ≡ self.now.site }
    {
        &self.site
    }

    /// The state of a link's end here (PS3.8 9.2.1); None where there is no link of that number. It
    /// takes no memory.
    pub fn state(&self, link: u64) -> Option<State>
        ensures { result ≡ state_of_side (map.get self.now.links link) }
    {
        self.links.state(link)
    }

    /// This node's side of a link; None where there is no link of that number. It takes no memory.
    pub fn side(&self, link: u64) -> Option<&LinkSide>
        ensures { option_copied result ≡ map.get self.now.links link }
    {
        self.links.side(link)
    }

    /// Something happens at a link, at a moment of at most 2^62 milliseconds; the answer is what
    /// the link's owner is to do, in order. Where the association is over nothing is done. After
    /// Memory the link is gone; some of the first calls on the ledger may have been made.
    ///
    /// Errors: LinkUnknown, Memory.
    pub fn input(
        &mut self,
        link: u64,
        event: LinkEvent,
        now: u64,
    ) -> Result<Seq<LinkAction>, NodeFault>
        requires { now ≤ 2 ^ 62 }
        ensures does { Does
            (MeetsEvent (LedgerStep L.site L.book L.bodies L.armed L.trusts L.stands L.failed)
            event) now link self.old.links self.old.desk result self.new.links self.new.desk }
        ensures site { self.new.site ≡ self.old.site }
    {
        self.links.input(link, event, &mut self.desk, now)
    }

    /// The first row that is due for the other end's node is sent, at a moment of at most 2^62
    /// milliseconds, where this node asked for the association, it is established and nothing is
    /// pending. Memory is as in `input`.
    ///
    /// Errors: LinkUnknown, Memory.
    pub fn push(&mut self, link: u64, now: u64) -> Result<Seq<LinkAction>, NodeFault>
        requires { now ≤ 2 ^ 62 }
        ensures does { Does
            (Pushes (LedgerStep L.site L.book L.bodies L.armed L.trusts L.stands L.failed)) now
            link self.old.links self.old.desk result self.new.links self.new.desk }
        ensures site { self.new.site ≡ self.old.site }
    {
        self.links.push(link, &mut self.desk, now)
    }

    /// A transport connection was opened to this node, at a moment in milliseconds.
    ///
    /// Errors: LinkKnown, Memory; after them nothing has changed.
    pub fn accept(&mut self, link: u64, now: u64) -> Result<(), NodeFault>
        ensures accepts { AcceptsLink self.old.site link now self.old.links result self.new.links }
        ensures desk { self.new.desk ≡ self.old.desk }
        ensures site { self.new.site ≡ self.old.site }
    {
        self.links.accept(self.alloc, &self.site, link, now)
    }

    /// A transport connection to that node is open, at a moment in milliseconds: the association is
    /// asked for at once.
    ///
    /// Errors: LinkKnown, NoHop where the site has no hop to that node, Memory; after them nothing
    /// has changed.
    pub fn open(&mut self, link: u64, dest: &Text, now: u64) -> Result<Seq<LinkAction>, NodeFault>
        ensures opens { Opens self.old.site dest.now link now self.old.links result self.new.links }
        ensures desk { self.new.desk ≡ self.old.desk }
        ensures site { self.new.site ≡ self.old.site }
    {
        self.links.open(self.alloc, &self.site, dest, link, now)
    }

    /// The node has come up again: its links are lost, and the ledger is as it was. It takes no
    /// memory.
    pub fn restart(&mut self)
        ensures links { self.new.links ≡ map.empty }
        ensures desk { self.new.desk ≡ self.old.desk }
        ensures site { self.new.site ≡ self.old.site }
    {
        self.links = Links::new(self.alloc);
    }
}

impl<L: Ledger> Node<Refusing<L>> {
    /// The ledger's next call that would add a line is refused.
    pub fn refuse_next(&mut self)
        ensures armed { self.new.desk.ledger
            ≡ record {
              ledger = self.old.desk.ledger.ledger;
              refusals = record { is_due = true; made = self.old.desk.ledger.refusals.made };
            } }
        ensures links { self.new.links ≡ self.old.links }
        ensures site { self.new.site ≡ self.old.site }
    {
        self.desk.ledger.refuse_next();
    }

    /// Whether the ledger's store is to refuse the next line.
    pub fn is_to_refuse(&self) -> bool
        ensures { result ≡ self.now.desk.ledger.refusals.is_due }
    {
        self.desk.ledger.refusals().is_due
    }
}
