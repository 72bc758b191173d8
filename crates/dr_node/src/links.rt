//! The links of a node.
ghost use Rattle.std.specs.Prelude.{◌≡◌, ◌≤◌, ◌^◌, IfOk, Ok, OnErr, OnOk, is_some, option_copied};
ghost use Rattle.std.specs.FinMap as map;
ghost use Rattle.dr_nego.specs.Proposing.{IsHopTo};
ghost use Rattle.dr_session.specs.Ends.{OpensTo, accepting, begins};
ghost use Rattle.dr_plan_sound.specs.declared.certificate.Hop.{Hop as HopValue};
ghost use Rattle.dr_node.specs.Sides.{AcceptsLink, Does, MeetsAt, MeetsEvent, Opens, Pushes};
ghost use Rattle.dr_node.specs.Sides.{is_other as other_of, is_taken as taken_of, others};
ghost use Rattle.dr_node.specs.Sides.{state_of_side};

use crate::event::LinkEvent;
use crate::fault::NodeFault;
use dr_base::{Seq, Text};
use dr_session::{DeskPort, End, LinkAction, Moment};
use dr_site::Site;
use dr_ulstate::State;
use std::alloc::{AllocError, Global};
use std::collections::BTreeMap;
use std::marker::Model;

/// This node's side of a link.
#[derive(Drop)]
pub struct LinkSide {
    pub end: End,
    /// Whether this node accepted the link; else it asked for it.
    pub accepted: bool,
}

impl LinkSide {
    /// Whether this node accepted the association and hasn't left it: it is in Sta6 to Sta12 (PS3.8
    /// 9.2.1).
    pub fn is_taken(&self) -> bool
        ensures { result ≡ taken_of self.now }
    {
        self.accepted
            && matches!(
                self.end.state(),
                State::Sta6
                    | State::Sta7
                    | State::Sta8
                    | State::Sta9
                    | State::Sta10
                    | State::Sta11
                    | State::Sta12
            )
    }

    /// An event at its end.
    fn meet<P: DeskPort>(
        &mut self,
        event: LinkEvent,
        port: &mut P,
        at: Moment,
    ) -> Result<Seq<LinkAction>, AllocError>
        requires { at.now ≤ 2 ^ 62 }
        ensures does { MeetsEvent P.step event at self.old.end port.old result self.new.end
            port.new }
        ensures same { self.new.accepted ≡ self.old.accepted }
    {
        match event {
            LinkEvent::Heard(heard) => self.end.hear(heard, port, at),
            LinkEvent::Abort => self.end.abort(port, at),
            LinkEvent::Release => self.end.release(port, at),
        }
    }
}

/// The sides of a node's links, by the links' numbers. Contracts see them as a map.
#[derive(Drop)]
pub struct Links {
    sides: BTreeMap<u64, LinkSide>,
}

impl Model for Links {
    ghost use Rattle.std.specs.BTreeMap.{IsOrdered};
    ghost use Rattle.std.specs.FinMap.{from_entries};
    ghost use Rattle.std.specs.Ordering.{nat_cmp};
    ghost use Rattle.std.specs.Coded.{coded_ℕ};
    ghost use Rattle.std.specs.FinMap as maps;
    ghost use Rattle.dr_node.specs.Sides.{Sides};
    ghost use Rattle.dr_node.specs.contracts.links.LinkSide as side;

    ghost Value = { Sides };

    ghost coded = { maps.code coded_ℕ side.the_row.coded };

    ghost view = { λ l. from_entries l.sides.entries };

    ghost invariant = { λ l. IsOrdered nat_cmp l.sides };
}

impl Links {
    /// No link; it takes no memory.
    pub fn new(alloc: Global) -> Links
        ensures { result ≡ map.empty }
    {
        Links {
            sides: BTreeMap::new(alloc),
        }
    }

    /// The node's side of a link, if it has one of that number.
    pub fn side(&self, link: u64) -> Option<&LinkSide>
        ensures { option_copied result ≡ map.get self.now link }
    {
        self.sides.get(&link)
    }

    /// The state of a link's end; None where there is no link of that number. It takes no memory.
    pub fn state(&self, link: u64) -> Option<State>
        ensures { result ≡ state_of_side (map.get self.now link) }
    {
        let Some(side) = self.side(link) else {
            return None;
        };
        Some(side.end.state())
    }

    /// Whether there is a link of that number.
    fn is_known(&self, link: u64) -> bool
        ensures { result ≡ is_some (map.get self.now link) }
    {
        self.side(link).is_some()
    }

    /// How many other links this node accepted and hasn't left.
    pub fn others(&self, link: u64) -> usize
        ensures { result ≡ others link self.now }
    {
        let mut count = 0;
        for (number, side) in self.sides.iter() {
            if is_other(link, *number, side) {
                count += 1;
            }
        }
        count
    }

    /// A connection was opened to the site's node, at a moment in milliseconds.
    ///
    /// Errors: LinkKnown, Memory; after them nothing has changed.
    pub fn accept(
        &mut self,
        alloc: Global,
        site: &Site,
        link: u64,
        now: u64,
    ) -> Result<(), NodeFault>
        ensures { AcceptsLink site.now link now self.old result self.new }
    {
        if self.is_known(link) {
            return Err(NodeFault::LinkKnown);
        }
        let end = accept(alloc, site, now)?;
        let accepted = true;
        self.put(link, LinkSide { end, accepted })?;
        Ok(())
    }

    /// A connection to that node is open, at a moment in milliseconds: the association is asked for
    /// at once.
    ///
    /// Errors: LinkKnown, NoHop, Memory; after them nothing has changed.
    pub fn open(
        &mut self,
        alloc: Global,
        site: &Site,
        dest: &Text,
        link: u64,
        now: u64,
    ) -> Result<Seq<LinkAction>, NodeFault>
        ensures { Opens site.now dest.now link now self.old result self.new }
    {
        if self.is_known(link) {
            return Err(NodeFault::LinkKnown);
        }
        if !site.has_hop(dest) {
            return Err(NodeFault::NoHop);
        }
        let (end, actions) = request(alloc, site.copy()?, dest, now)?;
        let accepted = false;
        self.put(link, LinkSide { end, accepted })?;
        Ok(actions)
    }

    /// One more link; without memory nothing changes.
    fn put(&mut self, link: u64, side: LinkSide) -> Result<(), AllocError>
        ensures ok { OnOk result (self.new ≡ map.insert self.old link side) }
        ensures err { OnErr result (self.new ≡ self.old) }
    {
        let_go(self.sides.insert(link, side)?);
        Ok(())
    }

    /// One link less.
    fn forget(&mut self, link: u64)
        ensures { self.new ≡ map.remove self.old link }
    {
        let_go(self.sides.remove(&link));
    }

    /// An event at the end of a link that is there.
    fn meet<P: DeskPort>(
        &mut self,
        link: u64,
        event: LinkEvent,
        port: &mut P,
        at: Moment,
    ) -> Option<Result<Seq<LinkAction>, AllocError>>
        requires { at.now ≤ 2 ^ 62 }
        ensures { MeetsAt (MeetsEvent P.step event at) link (map.get self.old link) self.old
            port.old result self.new port.new }
    {
        let Some(side) = self.sides.get_mut(&link) else {
            return None;
        };
        Some(side.meet(event, port, at))
    }

    /// A push at the end of a link that is there.
    fn push_at<P: DeskPort>(
        &mut self,
        link: u64,
        port: &mut P,
        at: Moment,
    ) -> Option<Result<Seq<LinkAction>, AllocError>>
        requires { at.now ≤ 2 ^ 62 }
        ensures { MeetsAt (Pushes P.step at) link (map.get self.old link) self.old port.old result
            self.new port.new }
    {
        let Some(side) = self.sides.get_mut(&link) else {
            return None;
        };
        Some(side.end.push(port, at))
    }

    /// An event at a link, at a moment of at most 2^62 milliseconds. Without memory the link is
    /// dropped.
    ///
    /// Errors: LinkUnknown, Memory.
    pub fn input<P: DeskPort>(
        &mut self,
        link: u64,
        event: LinkEvent,
        port: &mut P,
        now: u64,
    ) -> Result<Seq<LinkAction>, NodeFault>
        requires { now ≤ 2 ^ 62 }
        ensures { Does (MeetsEvent P.step event) now link self.old port.old result self.new
            port.new }
    {
        let others = self.others(link);
        let Some(answer) = self.meet(link, event, port, Moment { now, others }) else {
            return Err(NodeFault::LinkUnknown);
        };
        let Ok(actions) = answer else {
            self.forget(link);
            return Err(NodeFault::Memory);
        };
        Ok(actions)
    }

    /// A push at a link, at a moment of at most 2^62 milliseconds. Without memory the link is
    /// dropped.
    ///
    /// Errors: LinkUnknown, Memory.
    pub fn push<P: DeskPort>(
        &mut self,
        link: u64,
        port: &mut P,
        now: u64,
    ) -> Result<Seq<LinkAction>, NodeFault>
        requires { now ≤ 2 ^ 62 }
        ensures { Does (Pushes P.step) now link self.old port.old result self.new port.new }
    {
        let others = self.others(link);
        let Some(answer) = self.push_at(link, port, Moment { now, others }) else {
            return Err(NodeFault::LinkUnknown);
        };
        let Ok(actions) = answer else {
            self.forget(link);
            return Err(NodeFault::Memory);
        };
        Ok(actions)
    }
}

/// An acceptor's end of a connection that was opened at that moment.
fn accept(alloc: Global, site: &Site, now: u64) -> Result<End, AllocError>
    ensures { IfOk result (λ end. end ≡ begins site.now.max_pdu (accepting site.now now)) }
{
    let site = site.copy()?;
    let end = End::accept(alloc, site, now)?;
    Ok(end)
}

/// A requestor's end for a hop that the site has, and what it writes at once.
fn request(
    alloc: Global,
    site: Site,
    dest: &Text,
    now: u64,
) -> Result<(End, Seq<LinkAction>), AllocError>
    requires { (hop : HopValue) × IsHopTo site dest.now hop }
    ensures { IfOk result (λ r. OpensTo site dest.now now (Ok r)) }
{
    match End::request(alloc, site, dest, now) {
        Ok(opened) => Ok(opened),
        Err(_) => Err(AllocError),
    }
}

/// Whether it is the side of another link, which this node accepted and hasn't left.
fn is_other(link: u64, number: u64, side: &LinkSide) -> bool
    ensures { result ≡ other_of link (number, side.now) }
{
    number != link && side.is_taken()
}

/// A side that is needed no more.
fn let_go(_side: Option<LinkSide>) {}
