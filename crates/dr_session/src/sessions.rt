//! Sessions over any link.
ghost use Rattle.std.specs.Prelude.{◌≡◌, ◌≤◌, ◌<◌, ◌^◌, ◌+◌, ◌↔◌, IsTrue, false};
ghost use Rattle.dr_session.specs.Ends.{accepting, begins};
ghost use Rattle.dr_session.specs.Links.{Counts, PerformsOne, PerformsOr, CarriesOut, GoesOn};
ghost use Rattle.dr_session.specs.Links.{EndsAs, DeliversAs, EchoesAs, StartsAs, Finishes};
ghost use Rattle.dr_session.specs.Links.{IsLinkFailure, IsLinkFault, IsMoment, IsWished, asked_by};
ghost use Rattle.dr_session.specs.Links.{place, reads_by, refusal_of};
ghost use Rattle.dr_session.specs.Sessions.{KeepsParts, place_of};
ghost use Rattle.dr_plan_model.specs.Formed.{IsName};
ghost use Rattle.dr_session.specs.declared.wishes.Kind.TheVariants as kinds;
ghost use Rattle.dr_session.specs.declared.wishes.Wish.TheVariants as wishes;

use crate::echo_desk::{EchoDesk, Echoed};
use crate::end::End;
use crate::ends::{Ended, Heard, LinkAction, Moment, Over};
use crate::link::{Clock, Link};
use crate::port::DeskPort;
use crate::wishes::{Kind, Wish, next_wish};
use dr_base::{Seq, Text};
use dr_nego::NegoFault;
use dr_site::Site;
use std::alloc::{AllocError, Global};
use thiserror::Error;

/// After so many reads a session is given up.
const MOST_READS: u64 = 1 << 40;

/// More than a session reads and asks: 2^40 reads, and 65,535 rows with a release.
const MOST_DOINGS: u64 = (1 << 40) + 65_537;

/// Why a session didn't end as an association does. The codes are those that the program prints.
#[derive(Clone, Copy, Debug, PartialEq, Eq, Error)]
pub enum SessionFault {
    /// The site has no hop to that node; nothing was called.
    #[error("N4 NoHop")]
    NoHop,
    /// A read of the link failed.
    #[error("Y1 Read")]
    Read,
    /// A write on the link failed.
    #[error("Y2 Write")]
    Write,
    /// 2^40 reads were made.
    #[error("Y3 TooManyReads")]
    TooManyReads,
    /// A store failed in the midst; the association was aborted.
    #[error("Y4 Desk")]
    Desk,
    #[error("Memory")]
    Memory,
}

impl From<AllocError> for SessionFault {
    ghost use Rattle.std.specs.Prelude.{◌≡◌};
    ghost use Rattle.dr_session.specs.declared.sessions.SessionFault.TheVariants.{Memory};

    ghost from_gives = { λ _ e. e ≡ Memory };

    fn from(_: AllocError) -> SessionFault {
        SessionFault::Memory
    }
}

/// One action of an end; says whether it was done.
fn perform_one<L: Link>(action: &LinkAction, link: &mut L) -> bool
    ensures performs { PerformsOne L.sends L.closes result link.old action.now link.new }
    ensures counts { Counts (result ≡ false) (L.failed link.old) (L.failed link.new) }
{
    match action {
        LinkAction::Write(bytes) => link.send(bytes.as_bytes()),
        LinkAction::Close => {
            link.close();
            true
        }
    }
}

/// The actions of an end, in order, up to a write that fails; says whether all were done.
fn perform<L: Link>(actions: &[LinkAction], link: &mut L) -> bool
    ensures performs { PerformsOr L.sends L.closes result link.old actions.now link.new }
    ensures counts { Counts (result ≡ false) (L.failed link.old) (L.failed link.new) }
{
    for action in actions {
        if !perform_one(action, link) {
            return false;
        }
    }
    true
}

/// The present moment.
fn moment<C: Clock>(clock: &C, others: usize) -> Moment
    ensures is { IsMoment (C.tells clock.now) others result }
    ensures early { result.now ≤ 2 ^ 62 }
{
    Moment {
        now: clock.now(),
        others,
    }
}

/// Whether it is the link's fault.
pub fn is_fault(heard: &Heard) -> bool
    ensures { IsTrue result ↔ IsLinkFault heard.now }
{
    matches!(heard, Heard::Fault)
}

/// How many reads were made.
fn count_reads(wish: Wish, reads: u64) -> u64
    requires { reads < 2 ^ 40 }
    ensures { result ≡ reads_by wish reads }
{
    match wish {
        Wish::Listen => reads + 1,
        Wish::Push | Wish::Release | Wish::Echo => reads,
    }
}

/// How often something was asked.
fn count_asked(wish: Wish, asked: u32) -> u32
    requires { asked ≤ 65536 }
    ensures { result ≡ asked_by wish asked }
{
    match wish {
        Wish::Listen => asked,
        Wish::Push | Wish::Release | Wish::Echo => asked + 1,
    }
}

/// How a session ends whose end is over.
fn finish(over: Over) -> Result<Ended, SessionFault>
    ensures { Finishes over result }
{
    match over {
        Over::Ended(ended) => Ok(ended),
        Over::Desk => Err(SessionFault::Desk),
        Over::Memory => Err(SessionFault::Memory),
    }
}

/// What a session works with: its link, its desk and its clock, and how many other associations its
/// node has accepted.
#[derive(Drop)]
struct Session<'link, 'port, 'clock, L, P, C> {
    link: &'link mut L,
    port: &'port mut P,
    clock: &'clock C,
    others: usize,
}

impl<'link, 'port, 'clock, L: Link, P: DeskPort, C: Clock> Session<'link, 'port, 'clock, L, P, C> {
    /// The actions of an end. Where a write fails the end hears that the link is gone.
    fn carry_out(
        &mut self,
        actions: Seq<LinkAction>,
        end: &mut End,
        at: Moment,
    ) -> Result<(), SessionFault>
        requires { at.now ≤ 2 ^ 62 }
        ensures does { CarriesOut L.sends L.closes P.step at actions (place_of self.old end.old)
            result (place_of self.new end.new) }
        ensures counts { Counts (IsLinkFailure result) (L.failed self.old.link.now)
            (L.failed self.new.link.now) }
        ensures keeps { KeepsParts self.old self.new }
    {
        if perform(actions.as_slice(), self.link) {
            return Ok(());
        }
        let _dropped = end.hear(Heard::Fault, self.port, at)?;
        Err(SessionFault::Write)
    }

    /// One read, and what it does.
    fn hear_next(&mut self, end: &mut End) -> Result<(), SessionFault>
        ensures does { GoesOn L.hears L.sends L.closes P.step (C.tells self.old.clock.now)
            self.old.others (IsWished wishes.Listen) result (place_of self.old end.old)
            (place_of self.new end.new) }
        ensures counts { Counts (IsLinkFailure result) (L.failed self.old.link.now)
            (L.failed self.new.link.now) }
        ensures keeps { KeepsParts self.old self.new }
    {
        let heard = self.link.recv();
        let is_fault = is_fault(&heard);
        let at = moment(self.clock, self.others);
        let actions = end.hear(heard, self.port, at)?;
        if is_fault {
            return Err(SessionFault::Read);
        }
        self.carry_out(actions, end, at)
    }

    /// The first row that is due goes out.
    fn push_next(&mut self, end: &mut End) -> Result<(), SessionFault>
        ensures does { GoesOn L.hears L.sends L.closes P.step (C.tells self.old.clock.now)
            self.old.others (IsWished wishes.Push) result (place_of self.old end.old)
            (place_of self.new end.new) }
        ensures counts { Counts (IsLinkFailure result) (L.failed self.old.link.now)
            (L.failed self.new.link.now) }
        ensures keeps { KeepsParts self.old self.new }
    {
        let at = moment(self.clock, self.others);
        let actions = end.push(self.port, at)?;
        self.carry_out(actions, end, at)
    }

    /// The release is asked for.
    fn ask_release(&mut self, end: &mut End) -> Result<(), SessionFault>
        ensures does { GoesOn L.hears L.sends L.closes P.step (C.tells self.old.clock.now)
            self.old.others (IsWished wishes.Release) result (place_of self.old end.old)
            (place_of self.new end.new) }
        ensures counts { Counts (IsLinkFailure result) (L.failed self.old.link.now)
            (L.failed self.new.link.now) }
        ensures keeps { KeepsParts self.old self.new }
    {
        let at = moment(self.clock, self.others);
        let actions = end.release(self.port, at)?;
        self.carry_out(actions, end, at)
    }

    /// An echo is asked for.
    fn ask_echo(&mut self, end: &mut End) -> Result<(), SessionFault>
        ensures does { GoesOn L.hears L.sends L.closes P.step (C.tells self.old.clock.now)
            self.old.others (IsWished wishes.Echo) result (place_of self.old end.old)
            (place_of self.new end.new) }
        ensures counts { Counts (IsLinkFailure result) (L.failed self.old.link.now)
            (L.failed self.new.link.now) }
        ensures keeps { KeepsParts self.old self.new }
    {
        let at = moment(self.clock, self.others);
        let actions = end.echo(at.now)?;
        self.carry_out(actions, end, at)
    }

    /// What is wished.
    fn go_on(&mut self, wish: Wish, end: &mut End) -> Result<(), SessionFault>
        ensures does { GoesOn L.hears L.sends L.closes P.step (C.tells self.old.clock.now)
            self.old.others (IsWished wish) result (place_of self.old end.old)
            (place_of self.new end.new) }
        ensures counts { Counts (IsLinkFailure result) (L.failed self.old.link.now)
            (L.failed self.new.link.now) }
        ensures keeps { KeepsParts self.old self.new }
    {
        match wish {
            Wish::Listen => self.hear_next(end),
            Wish::Push => self.push_next(end),
            Wish::Release => self.ask_release(end),
            Wish::Echo => self.ask_echo(end),
        }
    }

    /// A session, until its end is over.
    fn run(&mut self, kind: Kind, end: &mut End) -> Result<Ended, SessionFault>
        ensures ends { EndsAs L.hears L.sends L.closes P.step (C.tells self.old.clock.now)
            self.old.others kind result (place_of self.old end.old) self.new.link.now
            self.new.port.now }
        ensures counts { Counts (IsLinkFailure result) (L.failed self.old.link.now)
            (L.failed self.new.link.now) }
        ensures keeps { KeepsParts self.old self.new }
    {
        let mut reads = 0;
        let mut asked = 0;
        for _done in 0..MOST_DOINGS {
            if let Some(over) = end.over() {
                return finish(over);
            }
            if reads == MOST_READS {
                return Err(SessionFault::TooManyReads);
            }
            let wish = next_wish(kind, asked, end);
            self.go_on(wish, end)?;
            reads = count_reads(wish, reads);
            asked = count_asked(wish, asked);
        }
        Err(SessionFault::TooManyReads)
    }

    /// A requestor's session, from its request on.
    fn start(
        &mut self,
        kind: Kind,
        end: End,
        actions: Seq<LinkAction>,
        at: Moment,
    ) -> Result<Ended, SessionFault>
        requires is { IsMoment (C.tells self.now.clock.now) self.now.others at }
        requires early { at.now ≤ 2 ^ 62 }
        ensures starts { StartsAs L.hears L.sends L.closes P.step (C.tells self.old.clock.now)
            self.old.others kind result self.old.link.now actions self.old.port.now end
            self.new.link.now self.new.port.now }
        ensures counts { Counts (IsLinkFailure result) (L.failed self.old.link.now)
            (L.failed self.new.link.now) }
        ensures keeps { KeepsParts self.old self.new }
    {
        let mut end = end;
        self.carry_out(actions, &mut end, at)?;
        self.run(kind, &mut end)
    }
}

/// Serves an association that the other side asks for, to its end, while the node has accepted so
/// many others: each message that is heard is brought to the desk once, in order, and just what the
/// end writes is sent, up to a write that fails.
///
/// Errors: `Read` and `Write` where the link's failures rose, after what was pending has been
/// settled; `Desk`; `TooManyReads`; `Memory`.
pub fn receive<L: Link, P: DeskPort, C: Clock>(
    alloc: Global,
    link: &mut L,
    site: &Site,
    port: &mut P,
    clock: &C,
    others: usize,
) -> Result<Ended, SessionFault>
    ensures ends { EndsAs L.hears L.sends L.closes P.step (C.tells clock.now) others kinds.Receive
        result
        (place link.old port.old
        (begins site.now.max_pdu (accepting site.now (L.opened_at link.old)))) link.new port.new }
    ensures counts { Counts (IsLinkFailure result) (L.failed link.old) (L.failed link.new) }
{
    let site = site.copy()?;
    let mut end = End::accept(alloc, site, link.opened())?;
    let mut session = Session {
        link,
        port,
        clock,
        others,
    };
    session.run(Kind::Receive, &mut end)
}

/// Why there is no requestor's end.
fn refusal(fault: NegoFault) -> SessionFault
    ensures { result ≡ refusal_of fault }
{
    match fault {
        NegoFault::NoHop => SessionFault::NoHop,
        _ => SessionFault::Memory,
    }
}

/// Asks for an association for a hop of the site, sends each row that is due (at most 65,535), and
/// releases it.
///
/// Errors: `NoHop` before any call, whatever memory there is; else those of `receive`.
pub fn deliver<L: Link, P: DeskPort, C: Clock>(
    alloc: Global,
    link: &mut L,
    site: &Site,
    port: &mut P,
    clock: &C,
    dest: &Text,
) -> Result<Ended, SessionFault>
    ensures ends { DeliversAs L.hears L.sends L.closes P.step (C.tells clock.now) 0 site.now
        dest.now result link.old port.old link.new port.new }
    ensures counts { Counts (IsLinkFailure result) (L.failed link.old) (L.failed link.new) }
{
    if !site.has_hop(dest) {
        return Err(SessionFault::NoHop);
    }
    let site = site.copy()?;
    let at = moment(clock, 0);
    match End::request(alloc, site, dest, at.now) {
        Ok((end, actions)) => {
            let mut session = Session {
                link,
                port,
                clock,
                others: 0,
            };
            session.start(Kind::Deliver, end, actions, at)
        }
        Err(fault) => Err(refusal(fault)),
    }
}

/// Asks the node of the second name for an association as the node of the first one, for one echo
/// (PS3.7 9.1.5), and releases it.
///
/// Errors: those of `receive`, but for `Desk`.
pub fn echo<L: Link, C: Clock>(
    alloc: Global,
    link: &mut L,
    caller: &Text,
    called: &Text,
    clock: &C,
) -> Result<Echoed, SessionFault>
    requires caller { IsName caller.now }
    requires called { IsName called.now }
    ensures echoes { EchoesAs L.hears L.sends L.closes (C.tells clock.now) caller.now called.now
        result link.old link.new }
    ensures counts { Counts (IsLinkFailure result) (L.failed link.old) (L.failed link.new) }
{
    let at = moment(clock, 0);
    let (end, actions) = End::request_echo(alloc, caller, called, at.now)?;
    let mut desk = EchoDesk { status: None };
    let mut session = Session {
        link,
        port: &mut desk,
        clock,
        others: 0,
    };
    let ended = session.start(Kind::EchoOnce, end, actions, at)?;
    Ok(Echoed {
        ended,
        status: desk.status,
    })
}
