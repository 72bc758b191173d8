//! One end of a link, whole.
ghost use Rattle.std.specs.Prelude.{◌≡◌, ◌∷◌, [], ◌≤◌, ◌^◌, IfOk, Some, None, option_copied};
ghost use Rattle.dr_session.specs.Fits.{InputFits};
ghost use Rattle.dr_plan_model.specs.Formed.{IsName};
ghost use Rattle.dr_nego.specs.Proposing.{echo_proposal};
ghost use Rattle.dr_pdu.specs.Written.{Fits};
ghost use Rattle.dr_pdu.specs.declared.pdu.Pdu.TheVariants as pdus;
ghost use Rattle.dr_session.specs.Ends.{accepting, requesting, requesting_echo, begins};
ghost use Rattle.dr_session.specs.Ends.{unmarked as no_marks, OpensTo, Meets, HearsOf, HearsBytes};
ghost use Rattle.dr_session.specs.Ends.{CrowdsIn, LosesIn, TakesCore, TakesFree, EchoesIn};
ghost use Rattle.dr_session.specs.Ends.{is_free_in};
ghost use Rattle.dr_session.specs.Ends.{is_dry_in, state_in, over_of, ended_by, idle_in};
ghost use Rattle.dr_session.specs.Pendings.{agreed_in, asked_in, pending_in};
ghost use Rattle.dr_session.specs.Reactions.{write};

use crate::boxed::BoxedCore;
use crate::echoing::{ask_echo, is_free};
use crate::ends::{Core, Effect, Ended, Heard, Input, LinkAction, Marks, Moment, Over, Pending};
use crate::hearing::{hear, react};
use crate::listening::Listener;
use crate::port::DeskPort;
use crate::react::one;
use crate::writing::write_pdu;
use dr_base::{Seq, Text};
use dr_dimse::Awaited;
use dr_nego::{Agreed, NegoFault, propose, propose_echo};
use dr_pdu::{AssociateRq, Feeder, Pdu};
use dr_site::Site;
use dr_ulstate::{Assoc, Next, Opening, State};
use std::alloc::{AllocError, Global};
use std::marker::Model;

/// One end of a link: it keeps the bytes that end no PDU, and what it agreed on and is about. Calls
/// give what the link's owner is to do, in order. After want of memory it is over.
#[derive(Drop)]
pub struct End {
    alloc: Global,
    ear: Feeder,
    core: Option<BoxedCore>,
}

impl Model for End {
    ghost use Rattle.dr_session.specs.Ends.{Terminal};

    ghost Value = { Terminal };

    ghost view = { λ e. record { ear = e.ear; core = e.core } };
}

/// The greatest length, in bytes, of the P-DATA-TF PDUs that the requestor of an echo takes.
const ECHO_LIMIT: u32 = 16_384;

/// No mark.
fn unmarked() -> Marks
    ensures { result ≡ no_marks }
{
    Marks {
        rejection: None,
        aborted: false,
        released: false,
        desk_failed: false,
    }
}

impl End {
    /// The acceptor of a transport connection that was opened at this moment, in milliseconds.
    ///
    /// Errors: AllocError.
    pub fn accept(alloc: Global, site: Site, now: u64) -> Result<End, AllocError>
        ensures { IfOk result (λ end. end ≡ begins site.max_pdu (accepting site now)) }
    {
        let ear = Feeder::new(alloc, site.max_pdu());
        let core = BoxedCore::new(alloc, acceptor(alloc, site, now))?;
        Ok(End {
            alloc,
            ear,
            core: Some(core),
        })
    }

    /// The requestor of an association for a hop of the site, whose transport connection is open at
    /// this moment, in milliseconds. Its request goes out at once.
    ///
    /// Errors: NoHop where the site has no hop to that node, whatever memory there is; Memory.
    pub fn request(
        alloc: Global,
        site: Site,
        dest: &Text,
        now: u64,
    ) -> Result<(End, Seq<LinkAction>), NegoFault>
        ensures { OpensTo site dest.now now result }
    {
        let proposal = propose(alloc, &site, dest)?;
        let limit = site.max_pdu();
        let opened = open(alloc, limit, Some(site), dest, proposal, now)?;
        Ok(opened)
    }

    /// The requestor of an echo between nodes of those names. It proposes Verification in context
    /// 1, in the implicit syntax alone, and takes P-DATA-TF PDUs of at most 16,384 bytes.
    pub(crate) fn request_echo(
        alloc: Global,
        caller: &Text,
        called: &Text,
        now: u64,
    ) -> Result<(End, Seq<LinkAction>), AllocError>
        requires caller { IsName caller.now }
        requires called { IsName called.now }
        ensures end { IfOk result (λ r. r.0 ≡ requesting_echo caller.now called.now now) }
        ensures actions { IfOk result (λ r.
            r.1 ≡ write (pdus.AssociateRq (echo_proposal caller.now called.now) ∷ []) ∷ []) }
    {
        let proposal = propose_echo(alloc, caller, called)?;
        let opened = open(alloc, ECHO_LIMIT, None, called, proposal, now)?;
        Ok(opened)
    }

    /// The state in which it is (PS3.8 9.2.1); it takes no memory.
    pub fn state(&self) -> State
        ensures { result ≡ state_in self.now.core }
    {
        match &self.core {
            Some(core) => core.state(),
            None => State::Sta1,
        }
    }

    /// The bytes that it has heard and that end no PDU yet; it takes no memory.
    pub fn kept(&self) -> &[u8]
        ensures { result.now ≡ self.now.ear.kept }
    {
        self.ear.kept()
    }

    /// How it is over, if it is; it takes no memory.
    pub(crate) fn over(&self) -> Option<Over>
        ensures { result ≡ over_of self.now.core }
    {
        let Some(core) = &self.core else {
            return Some(Over::Memory);
        };
        if core.state() != State::Sta1 {
            return None;
        }
        let marks = &core.as_core().marks;
        if marks.desk_failed {
            return Some(Over::Desk);
        }
        Some(Over::Ended(ended(marks)))
    }

    /// Whether it is a requestor's end that may send: established, with nothing pending. It takes
    /// no memory.
    pub(crate) fn is_free(&self) -> bool
        ensures { result ≡ is_free_in self.now.core }
    {
        match &self.core {
            Some(core) => is_free(core.as_core()),
            None => false,
        }
    }

    /// Whether a push has found no row due. It takes no memory.
    pub(crate) fn is_dry(&self) -> bool
        ensures { result ≡ is_dry_in self.now.core }
    {
        match &self.core {
            Some(core) => core.as_core().dry,
            None => false,
        }
    }

    /// The uid of the instance that it has sent and whose response it awaits. It takes no memory.
    pub fn pending(&self) -> Option<&Text>
        ensures { option_copied result ≡ pending_in self.now.core }
    {
        let Some(core) = &self.core else {
            return None;
        };
        match &core.as_core().pending {
            Some(pending) => Some(&pending.uid),
            None => None,
        }
    }

    /// The request that it has sent and whose response it awaits. It takes no memory.
    pub fn asked(&self) -> Option<&Pending>
        ensures { option_copied result ≡ asked_in self.now.core }
    {
        let Some(core) = &self.core else {
            return None;
        };
        match &core.as_core().pending {
            Some(pending) => Some(pending),
            None => None,
        }
    }

    /// What it has agreed on; None before that. It takes no memory.
    pub fn agreed(&self) -> Option<&Agreed>
        ensures { option_copied result ≡ agreed_in self.now.core }
    {
        let Some(core) = &self.core else {
            return None;
        };
        match &core.as_core().agreed {
            Some(terms) => Some(terms.as_agreed()),
            None => None,
        }
    }

    /// A C-ECHO-RQ is sent, where it is a requestor's end that may send and has a context of
    /// Verification.
    pub(crate) fn echo(&mut self, now: u64) -> Result<Seq<LinkAction>, AllocError>
        ensures { EchoesIn self.old.core now self.old result self.new }
    {
        let Some(core) = self.take_free() else {
            return Ok(Seq::new(self.alloc));
        };
        let effect = ask_echo(self.alloc, core, now)?;
        let Effect { acts, core } = effect;
        self.put(core);
        Ok(acts)
    }

    /// What comes over the link at a moment (of at most 2^62 milliseconds), while the node has so
    /// many other associations open. Where the other side was silent for too long, an A-ABORT is
    /// written (PS3.8 9.3.8). Where there is no room for more of a data set, what came of it is let
    /// go, and it will be answered as one that is too large (A700H, PS3.4 B.2.3).
    ///
    /// Errors: AllocError, after which it is over; some of the first calls may have been made.
    pub fn hear<P: DeskPort>(
        &mut self,
        heard: Heard,
        port: &mut P,
        at: Moment,
    ) -> Result<Seq<LinkAction>, AllocError>
        requires { at.now ≤ 2 ^ 62 }
        ensures { HearsOf P.step heard at self.old port.old result self.new port.new }
    {
        match heard {
            Heard::Bytes(piece) => self.hear_bytes(piece.as_bytes(), port, at),
            Heard::End => self.meet(Input::Ended, port, at),
            Heard::Fault => self.meet(Input::Ended, port, at),
            Heard::Late => self.meet(Input::Late, port, at),
            Heard::Idle => self.meet(self.idle_input(), port, at),
            Heard::Crowded => Ok(self.let_data_go()),
            Heard::Memory => self.lose(),
        }
    }

    /// What it does where the other side was silent for too long: the local user aborts; where
    /// there is no association to abort, it only looks at its timer.
    fn idle_input(&self) -> Input
        ensures { result ≡ idle_in (state_in self.now.core) }
    {
        match self.state() {
            State::Sta2 | State::Sta13 => Input::Late,
            _ => Input::AbortAsked,
        }
    }

    /// The first row that is due is sent, where it is a requestor's end that is established with
    /// nothing pending.
    pub fn push<P: DeskPort>(
        &mut self,
        port: &mut P,
        at: Moment,
    ) -> Result<Seq<LinkAction>, AllocError>
        requires { at.now ≤ 2 ^ 62 }
        ensures { Meets P.step at Input.PushAsked self.old port.old result self.new port.new }
    {
        self.meet(Input::PushAsked, port, at)
    }

    /// The local user aborts.
    pub fn abort<P: DeskPort>(
        &mut self,
        port: &mut P,
        at: Moment,
    ) -> Result<Seq<LinkAction>, AllocError>
        requires { at.now ≤ 2 ^ 62 }
        ensures { Meets P.step at Input.AbortAsked self.old port.old result self.new port.new }
    {
        self.meet(Input::AbortAsked, port, at)
    }

    /// The release is asked for, where it is a requestor's end that is established with nothing
    /// pending.
    pub fn release<P: DeskPort>(
        &mut self,
        port: &mut P,
        at: Moment,
    ) -> Result<Seq<LinkAction>, AllocError>
        requires { at.now ≤ 2 ^ 62 }
        ensures { Meets P.step at Input.ReleaseAsked self.old port.old result self.new port.new }
    {
        self.meet(Input::ReleaseAsked, port, at)
    }

    /// An input other than bytes.
    fn meet<P: DeskPort>(
        &mut self,
        input: Input,
        port: &mut P,
        at: Moment,
    ) -> Result<Seq<LinkAction>, AllocError>
        requires now { at.now ≤ 2 ^ 62 }
        requires fits { InputFits input }
        ensures { Meets P.step at input self.old port.old result self.new port.new }
    {
        let Some(core) = self.take_core() else {
            return Ok(Seq::new(self.alloc));
        };
        let effect = react(self.alloc, input, core, port, at)?;
        let Effect { acts, core } = effect;
        self.put(core);
        Ok(acts)
    }

    /// A piece of the bytes.
    fn hear_bytes<P: DeskPort>(
        &mut self,
        piece: &[u8],
        port: &mut P,
        at: Moment,
    ) -> Result<Seq<LinkAction>, AllocError>
        requires { at.now ≤ 2 ^ 62 }
        ensures { HearsBytes P.step self.old.core at piece.now self.old port.old result self.new
            port.new }
    {
        let Some(core) = self.take_core() else {
            return Ok(Seq::new(self.alloc));
        };
        let effect = hear(self.alloc, &mut self.ear, core, piece, port, at)?;
        let Effect { acts, core } = effect;
        self.put(core);
        Ok(acts)
    }

    /// Its core, where it may send.
    fn take_free(&mut self) -> Option<BoxedCore>
        ensures { TakesFree self.old result self.new }
    {
        if !self.is_free() {
            return None;
        }
        self.core.take()
    }

    /// There is no room for more of the data set that is under way.
    fn let_data_go(&mut self) -> Seq<LinkAction>
        ensures { CrowdsIn self.old.core self.old (Ok result) self.new }
    {
        let Some(core) = self.take_core() else {
            return Seq::new(self.alloc);
        };
        self.put(core.let_data_go());
        Seq::new(self.alloc)
    }

    /// The link had no memory for what came.
    fn lose(&mut self) -> Result<Seq<LinkAction>, AllocError>
        ensures { LosesIn self.old.core self.old result self.new }
    {
        let Some(core) = self.take_core() else {
            return Ok(Seq::new(self.alloc));
        };
        forget(core);
        Err(AllocError)
    }

    /// Its core again.
    fn put(&mut self, core: BoxedCore)
        requires { self.old.core ≡ None }
        ensures { self.new ≡ record { ear = self.old.ear; core = Some core } }
    {
        self.core = Some(core);
    }

    /// Its core, unless it is over.
    fn take_core(&mut self) -> Option<BoxedCore>
        ensures { TakesCore self.old result self.new }
    {
        if self.state() == State::Sta1 {
            return None;
        }
        self.core.take()
    }
}

/// It goes.
fn forget(_core: BoxedCore) {}

/// An acceptor whose transport connection was opened at that moment.
fn acceptor(alloc: Global, site: Site, now: u64) -> Core
    ensures { result ≡ accepting site now }
{
    let (_, opening) = Assoc::<Opening>::indicate(now);
    Core {
        peer: Text::empty(alloc),
        phase: Next::Opening(opening),
        proposed: None,
        agreed: None,
        assembly: Listener::new(alloc, Awaited::Requests),
        pending: None,
        last: 0,
        awaits: None,
        dry: false,
        marks: unmarked(),
        site: Some(site),
    }
}

/// A requestor's end that sends that proposal at once, and what writes it.
fn open(
    alloc: Global,
    limit: u32,
    site: Option<Site>,
    peer: &Text,
    proposal: AssociateRq,
    now: u64,
) -> Result<(End, Seq<LinkAction>), AllocError>
    requires { Fits (pdus.AssociateRq proposal) }
    ensures end { IfOk result (λ r. r.0 ≡ begins limit (requesting site peer.now proposal now)) }
    ensures actions { IfOk result (λ r. r.1 ≡ write (pdus.AssociateRq proposal ∷ []) ∷ []) }
{
    let Ok(peer) = peer.clone() else {
        drop(site);
        drop(proposal);
        return Err(AllocError);
    };
    let (proposal, actions) = match write_request(alloc, proposal) {
        Ok(written) => written,
        Err(error) => {
            drop(site);
            drop(peer);
            return Err(error);
        }
    };
    let core = BoxedCore::new(alloc, requestor(alloc, site, peer, proposal, now))?;
    let ear = Feeder::new(alloc, limit);
    let end = End {
        alloc,
        ear,
        core: Some(core),
    };
    Ok((end, actions))
}

/// A requestor that has sent its request at that moment.
fn requestor(alloc: Global, site: Option<Site>, peer: Text, proposal: AssociateRq, now: u64) -> Core
    ensures { result ≡ requesting site peer proposal now }
{
    let (_, opening) = Assoc::<Opening>::request(now);
    let (_, asked) = opening.connected(now);
    Core {
        peer,
        phase: Next::Asked(asked),
        proposed: Some(proposal),
        agreed: None,
        assembly: Listener::new(alloc, Awaited::Nothing),
        pending: None,
        last: 0,
        awaits: Some(now),
        dry: false,
        marks: unmarked(),
        site,
    }
}

/// The request that a PDU is.
fn request_of(pdu: Pdu) -> Result<AssociateRq, AllocError>
    ensures { IfOk result (λ rq. pdu ≡ pdus.AssociateRq rq) }
{
    match pdu {
        Pdu::AssociateRq(proposal) => Ok(proposal),
        _other => Err(AllocError),
    }
}

/// What writes this PDU alone.
fn write_alone(alloc: Global, pdu: &Pdu) -> Result<Seq<LinkAction>, AllocError>
    requires { Fits pdu.now }
    ensures { IfOk result (λ actions. actions ≡ write (pdu.now ∷ []) ∷ []) }
{
    let action = write_pdu(alloc, pdu)?;
    let actions = one(alloc, action)?;
    Ok(actions)
}

/// A request, and what writes it.
fn write_request(
    alloc: Global,
    proposal: AssociateRq,
) -> Result<(AssociateRq, Seq<LinkAction>), AllocError>
    requires { Fits (pdus.AssociateRq proposal) }
    ensures same { IfOk result (λ r. r.0 ≡ proposal) }
    ensures actions { IfOk result (λ r. r.1 ≡ write (pdus.AssociateRq proposal ∷ []) ∷ []) }
{
    let pdu = Pdu::AssociateRq(proposal);
    match write_alone(alloc, &pdu) {
        Ok(actions) => {
            let proposal = request_of(pdu)?;
            Ok((proposal, actions))
        }
        Err(error) => {
            drop(pdu);
            Err(error)
        }
    }
}

/// How the association ended, by what was written and read.
fn ended(marks: &Marks) -> Ended
    ensures { result ≡ ended_by marks.now }
{
    if let Some(rejection) = marks.rejection {
        return Ended::Rejected(rejection);
    }
    if marks.aborted {
        return Ended::Aborted;
    }
    if marks.released {
        return Ended::Released;
    }
    Ended::Closed
}
