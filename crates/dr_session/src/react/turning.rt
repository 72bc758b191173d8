//! The table's actions (PS3.8 9.2.2) and events: what an end does with what it was told.
ghost use Rattle.std.specs.Prelude.{◌≡◌, ◌∷◌, [], ◌≤◌, ◌^◌, IfOk, OnErr, Some, None, true};
ghost use Rattle.dr_pdu.specs.declared.pdu.Pdu.TheVariants as pdu;
ghost use Rattle.dr_session.specs.declared.ends.LinkAction.TheVariants.{Close};
ghost use Rattle.dr_session.specs.Fits.{ToldFits, IsHeard, heard_as, IsLooked, told_as};
ghost use Rattle.dr_session.specs.Reactions.{acts, hears, turn, event_of, is_taken, is_taken_at};
ghost use Rattle.dr_session.specs.Reactions.{effect, write, abort_pdu, aborted, leaves, reason_of};
ghost use Rattle.dr_session.specs.Reactions.{has_waited, is_impatient as is_impatient_since};
ghost use Rattle.dr_session.specs.Reactions.{is_idle, stepped_by, released, collides, noted};
ghost use Rattle.dr_session.specs.Breaks.{Broke, LeavesOff, MayWrite};
ghost use Rattle.dr_session.specs.Turns.{Turns, Ends};
ghost use Rattle.dr_ulstate.specs.Phases.{event_of as event_of_incoming};
ghost use Rattle.dr_ulstate.specs.Phases.{is_acceptable as is_acceptable_incoming};
ghost use Rattle.dr_ulstate.specs.declared.table.Action.TheVariants.{Ae3, Ae4, Ae6};
ghost use Rattle.dr_ulstate.specs.declared.table.Event.TheVariants.{ReleaseResponse, AbortRequest};

use crate::boxed::BoxedCore;
use crate::echoing::is_free;
use crate::ends::{Core, Effect, Input, LinkAction, Moment, Told};
use crate::port::DeskPort;
use crate::react::acceptor::{RespondedTo, answer_request, decide, store};
use crate::react::leaving::{abort, act_once, leave, leave_with, none, quiet};
use crate::react::requestor::{agree, close, hear_response, push, refuse};
use crate::writing::{write_abort, write_release_answer, write_release_request};
use dr_base::Text;
use dr_dimse::Command;
use dr_nego::acceptor::answer;
use dr_nego::{Answer, Policy};
use dr_pdu::AssociateRq;
use dr_ulstate::{Action, Incoming};
use std::alloc::{AllocError, Global};

/// How long a requestor awaits an answer, in milliseconds, until it aborts at a late mark.
const PATIENCE: u64 = 60_000;

/// What was heard of a message.
fn hear<P: DeskPort>(
    alloc: Global,
    told: Told,
    core: BoxedCore,
    port: &mut P,
    at: Moment,
) -> Result<Effect, AllocError>
    requires now { at.now ≤ 2 ^ 62 }
    requires fits { ToldFits told }
    ensures done { IfOk result (λ e. Turns P.step (hears told at core) port.old e port.new) }
    ensures broke { OnErr result (Broke P.step (hears told at core) port.old port.new) }
{
    match told {
        Told::Store {
            context,
            of,
            id,
            class,
            instance,
            found,
        } => {
            let to = RespondedTo {
                context,
                of: &of,
                id,
            };
            store(alloc, &to, class, instance, found, core, port)
        }
        Told::Whole {
            context,
            of,
            command,
        } => hear_whole(alloc, context, of, command, core, port, at),
        Told::Fault => abort(alloc, core, port, at),
        Told::Plain(_) => Ok(quiet(alloc, core)),
        Told::Quiet => Ok(quiet(alloc, core)),
        Told::Strange => Ok(quiet(alloc, core)),
        Told::Agreement(_) => Ok(quiet(alloc, core)),
    }
}

/// A message that is no store: a requestor hears a response in it, an acceptor a request.
fn hear_whole<P: DeskPort>(
    alloc: Global,
    context: u8,
    of: Text,
    command: Command,
    core: BoxedCore,
    port: &mut P,
    at: Moment,
) -> Result<Effect, AllocError>
    requires now { at.now ≤ 2 ^ 62 }
    requires fits { ToldFits (Told.Whole context of command) }
    ensures done { IfOk result (λ e.
        Turns P.step (hears (Told.Whole context of command) at core) port.old e port.new) }
    ensures broke { OnErr result
        (Broke P.step (hears (Told.Whole context of command) at core) port.old port.new) }
{
    if core.is_requestor() {
        return hear_response(alloc, context, &command, core, port, at);
    }
    let done = answer_request(alloc, context, of, command, core)?;
    Ok(done)
}

/// Why the service provider aborts (PS3.8 9.3.8): an unknown type, a PDU out of place, or an
/// invalid one.
fn reason(told: &Told) -> u8
    ensures { result ≡ reason_of told.now }
{
    match told {
        Told::Plain(Input::Unknown) => 1,
        Told::Plain(Input::Invalid) => 6,
        Told::Strange => 6,
        _ => 2,
    }
}

/// The release is answered.
fn answer_release(alloc: Global, core: BoxedCore, now: u64) -> Result<Effect, AllocError>
    ensures { IfOk result (λ e. e
        ≡ effect (write (pdu.ReleaseRp ∷ []) ∷ [])
        (released (stepped_by ReleaseResponse now core))) }
{
    let action = write_release_answer(alloc)?;
    act_once(alloc, action, core.respond(now).mark_released())
}

/// The release is asked for, and its answer awaited.
fn ask_release(alloc: Global, core: BoxedCore, now: u64) -> Result<Effect, AllocError>
    ensures { IfOk result (λ e.
        e ≡ effect (write (pdu.ReleaseRq ∷ []) ∷ []) (record core { awaits = Some now })) }
{
    let action = write_release_request(alloc)?;
    act_once(alloc, action, core.await_since(now))
}

/// What an acceptance agrees on.
fn act_acceptance<P: DeskPort>(
    alloc: Global,
    told: Told,
    core: BoxedCore,
    port: &mut P,
    at: Moment,
) -> Result<Effect, AllocError>
    requires { at.now ≤ 2 ^ 62 }
    ensures done { IfOk result (λ e. Turns P.step (acts Ae3 at told core) port.old e port.new) }
    ensures broke { OnErr result (Broke P.step (acts Ae3 at told core) port.old port.new) }
{
    match told {
        Told::Agreement(answer) => agree(alloc, answer, core, port, at),
        other => {
            drop(other);
            Ok(quiet(alloc, core))
        }
    }
}

/// A rejection, at the requestor.
fn act_rejection<P: DeskPort>(
    alloc: Global,
    told: Told,
    core: BoxedCore,
    port: &mut P,
    at: Moment,
) -> Result<Effect, AllocError>
    requires { at.now ≤ 2 ^ 62 }
    ensures done { IfOk result (λ e. Turns P.step (acts Ae4 at told core) port.old e port.new) }
    ensures broke { OnErr result (Broke P.step (acts Ae4 at told core) port.old port.new) }
{
    let Told::Plain(input) = told else {
        return Ok(quiet(alloc, core));
    };
    match input {
        Input::Rejection(rejection) => {
            let core = core.leave_pending().mark_rejected(rejection);
            refuse(alloc, core, port, at)
        }
        other => {
            drop(other);
            Ok(quiet(alloc, core))
        }
    }
}

/// A request for an association, at the acceptor.
fn act_request<P: DeskPort>(
    alloc: Global,
    told: Told,
    core: BoxedCore,
    port: &mut P,
    at: Moment,
) -> Result<Effect, AllocError>
    requires now { at.now ≤ 2 ^ 62 }
    requires fits { ToldFits told }
    ensures done { IfOk result (λ e. Turns P.step (acts Ae6 at told core) port.old e port.new) }
    ensures broke { OnErr result (Broke P.step (acts Ae6 at told core) port.old port.new) }
{
    let Told::Plain(input) = told else {
        return Ok(quiet(alloc, core));
    };
    match input {
        Input::Request(rq) => decide(alloc, rq, core, port, at),
        other => {
            drop(other);
            Ok(quiet(alloc, core))
        }
    }
}

/// The end leaves with an A-ABORT.
fn leave_aborting<P: DeskPort>(
    alloc: Global,
    source: u8,
    reason: u8,
    core: BoxedCore,
    port: &mut P,
    at: Moment,
) -> Result<Effect, AllocError>
    requires { at.now ≤ 2 ^ 62 }
    ensures done { IfOk result (λ e. Turns P.step
        (leaves at (write (abort_pdu source reason ∷ []) ∷ []) (aborted core)) port.old e
        port.new) }
    ensures broke { OnErr result
        (Broke P.step (leaves at (write (abort_pdu source reason ∷ []) ∷ []) (aborted core))
        port.old port.new) }
{
    let action = write_abort(alloc, source, reason)?;
    leave_with(alloc, action, core.mark_aborted(), port, at)
}

/// The end leaves and closes the transport connection.
fn leave_closing<P: DeskPort>(
    alloc: Global,
    core: BoxedCore,
    port: &mut P,
    at: Moment,
) -> Result<Effect, AllocError>
    requires { at.now ≤ 2 ^ 62 }
    ensures done { IfOk result (λ e.
        Turns P.step (leaves at (Close ∷ []) core) port.old e port.new) }
    ensures broke { OnErr result (Broke P.step (leaves at (Close ∷ []) core) port.old port.new) }
{
    leave_with(alloc, LinkAction::Close, core, port, at)
}

/// The end leaves as the other one asked for the release, which is answered.
fn leave_released<P: DeskPort>(
    alloc: Global,
    core: BoxedCore,
    port: &mut P,
    at: Moment,
) -> Result<Effect, AllocError>
    requires { at.now ≤ 2 ^ 62 }
    ensures done { IfOk result (λ e. Turns P.step
        (leaves at (write (pdu.ReleaseRp ∷ []) ∷ [])
        (released (stepped_by ReleaseResponse at.now core))) port.old e port.new) }
    ensures broke { OnErr result
        (Broke P.step
        (leaves at (write (pdu.ReleaseRp ∷ []) ∷ [])
        (released (stepped_by ReleaseResponse at.now core))) port.old port.new) }
{
    let action = write_release_answer(alloc)?;
    let core = core.respond(at.now).mark_released();
    leave_with(alloc, action, core, port, at)
}

/// An A-ABORT that was read is noted.
fn note(told: &Told, core: BoxedCore) -> BoxedCore
    ensures { result ≡ noted told.now core }
{
    match told {
        Told::Plain(Input::Abort(_)) => core.mark_aborted(),
        _ => core,
    }
}

/// An A-ABORT of the service provider as the connection closes (AA-7).
fn abort_closing(alloc: Global, core: BoxedCore) -> Result<Effect, AllocError>
    ensures { IfOk result (λ e. e ≡ effect (write (abort_pdu 2 0 ∷ []) ∷ []) (aborted core)) }
{
    let action = write_abort(alloc, 2, 0)?;
    act_once(alloc, action, core.mark_aborted())
}

/// In a collision of releases the requestor answers at once (AR-8).
fn act_collision(alloc: Global, core: BoxedCore, now: u64) -> Result<Effect, AllocError>
    ensures done { IfOk result (λ e. collides now core ≡ Ends e) }
    ensures wants { OnErr result (MayWrite (collides now core)) }
{
    if core.is_requestor() {
        let done = answer_release(alloc, core, now)?;
        return Ok(done);
    }
    Ok(quiet(alloc, core))
}

/// What an action of the table does, in the phase that follows it.
fn act<P: DeskPort>(
    alloc: Global,
    action: Action,
    told: Told,
    core: BoxedCore,
    port: &mut P,
    at: Moment,
) -> Result<Effect, AllocError>
    requires now { at.now ≤ 2 ^ 62 }
    requires fits { ToldFits told }
    ensures done { IfOk result (λ e. Turns P.step (acts action at told core) port.old e port.new) }
    ensures broke { OnErr result (Broke P.step (acts action at told core) port.old port.new) }
{
    match action {
        Action::Ae3 => act_acceptance(alloc, told, core, port, at),
        Action::Ae4 => act_rejection(alloc, told, core, port, at),
        Action::Ae6 => act_request(alloc, told, core, port, at),
        Action::Dt1 => push(alloc, core, port, at),
        Action::Dt2 => hear(alloc, told, core, port, at),
        Action::Ar6 => hear(alloc, told, core, port, at),
        Action::Ar1 => ask_release(alloc, core, at.now),
        Action::Ar2 => leave_released(alloc, core, port, at),
        Action::Ar3 => close(alloc, core.mark_released()),
        Action::Ar8 => act_collision(alloc, core, at.now),
        Action::Ar10 => answer_release(alloc, core, at.now),
        Action::Aa1 => leave_aborting(alloc, 0, 0, core, port, at),
        Action::Aa2 => leave_closing(alloc, note(&told, core), port, at),
        Action::Aa3 => leave_closing(alloc, core.mark_aborted(), port, at),
        Action::Aa4 => leave(none(alloc), core, port, at),
        Action::Aa5 => leave(none(alloc), core, port, at),
        Action::Aa7 => abort_closing(alloc, core),
        Action::Aa8 => leave_aborting(alloc, 2, reason(&told), core, port, at),
        _ => Ok(quiet(alloc, core)),
    }
}

/// What comes from outside is an event of the table; without a cell nothing is done.
fn meet<P: DeskPort>(
    alloc: Global,
    incoming: Incoming,
    told: Told,
    core: BoxedCore,
    port: &mut P,
    at: Moment,
) -> Result<Effect, AllocError>
    requires now { at.now ≤ 2 ^ 62 }
    requires fits { ToldFits told }
    requires event { event_of told at core ≡ Some (event_of_incoming incoming) }
    requires taken { is_taken told at core ≡ is_acceptable_incoming incoming }
    ensures done { IfOk result (λ e. Turns P.step (turn at core told) port.old e port.new) }
    ensures broke { OnErr result (Broke P.step (turn at core told) port.old port.new) }
{
    match core.step(incoming, at.now) {
        Ok((action, core)) => act(alloc, action, told, core, port, at),
        Err(core) => Ok(quiet(alloc, core)),
    }
}

/// The local user aborts.
fn meet_abort<P: DeskPort>(
    alloc: Global,
    told: Told,
    core: BoxedCore,
    port: &mut P,
    at: Moment,
) -> Result<Effect, AllocError>
    requires now { at.now ≤ 2 ^ 62 }
    requires fits { ToldFits told }
    requires event { event_of told at core ≡ Some AbortRequest }
    requires taken { is_taken told at core ≡ true }
    ensures done { IfOk result (λ e. Turns P.step (turn at core told) port.old e port.new) }
    ensures broke { OnErr result (Broke P.step (turn at core told) port.old port.new) }
{
    match core.step_abort(at.now) {
        Ok((action, core)) => act(alloc, action, told, core, port, at),
        Err(core) => Ok(quiet(alloc, core)),
    }
}

/// The local user asks for the release.
fn meet_release<P: DeskPort>(
    alloc: Global,
    core: BoxedCore,
    port: &mut P,
    at: Moment,
) -> Result<Effect, AllocError>
    requires { at.now ≤ 2 ^ 62 }
    ensures done { IfOk result (λ e.
        Turns P.step (turn at core (Told.Plain Input.ReleaseAsked)) port.old e port.new) }
    ensures broke { OnErr result
        (Broke P.step (turn at core (Told.Plain Input.ReleaseAsked)) port.old port.new) }
{
    if !is_idle_requestor(core.as_core()) {
        return Ok(quiet(alloc, core));
    }
    match core.step_release(at.now) {
        Ok((action, core)) => act(
            alloc,
            action,
            Told::Plain(Input::ReleaseAsked),
            core,
            port,
            at,
        ),
        Err(core) => Ok(quiet(alloc, core)),
    }
}

/// The local user is to send what is due.
fn meet_push<P: DeskPort>(
    alloc: Global,
    core: BoxedCore,
    port: &mut P,
    at: Moment,
) -> Result<Effect, AllocError>
    requires { at.now ≤ 2 ^ 62 }
    ensures done { IfOk result (λ e.
        Turns P.step (turn at core (Told.Plain Input.PushAsked)) port.old e port.new) }
    ensures broke { OnErr result
        (Broke P.step (turn at core (Told.Plain Input.PushAsked)) port.old port.new) }
{
    if !is_free(core.as_core()) {
        return Ok(quiet(alloc, core));
    }
    match core.step_data(at.now) {
        Ok((action, core)) => act(alloc, action, Told::Plain(Input::PushAsked), core, port, at),
        Err(core) => Ok(quiet(alloc, core)),
    }
}

/// Whether it is a requestor that has nothing pending.
fn is_idle_requestor(core: &Core) -> bool
    ensures { result ≡ is_idle core.now }
{
    core.phase.is_requestor() && core.pending.is_none()
}

/// Time has passed: the table's timer ends, or a requestor that has awaited an answer for too long
/// aborts.
fn meet_late<P: DeskPort>(
    alloc: Global,
    core: BoxedCore,
    port: &mut P,
    at: Moment,
) -> Result<Effect, AllocError>
    requires { at.now ≤ 2 ^ 62 }
    ensures done { IfOk result (λ e.
        Turns P.step (turn at core (Told.Plain Input.Late)) port.old e port.new) }
    ensures broke { OnErr result
        (Broke P.step (turn at core (Told.Plain Input.Late)) port.old port.new) }
{
    if core.as_core().phase.artim_has_expired(at.now) {
        return match core.step_late(at.now) {
            Ok((action, core)) => act(alloc, action, Told::Plain(Input::Late), core, port, at),
            Err(core) => Ok(quiet(alloc, core)),
        };
    }
    if is_impatient(core.as_core(), at.now) {
        return meet_abort(alloc, Told::Plain(Input::Late), core, port, at);
    }
    Ok(quiet(alloc, core))
}

/// Whether it is a requestor that has awaited an answer for so long.
fn is_impatient(core: &Core, now: u64) -> bool
    ensures { result ≡ is_impatient_since core.now now }
{
    core.phase.is_requestor() && has_awaited(core.awaits, now)
}

/// Whether an answer was awaited for 60,000 milliseconds.
fn has_awaited(awaits: Option<u64>, now: u64) -> bool
    ensures { result ≡ has_waited awaits now }
{
    match awaits {
        Some(since) => now >= since && now - since >= PATIENCE,
        None => false,
    }
}

/// A request for an association: whether the service provider rejects it is part of its event.
fn meet_request<P: DeskPort>(
    alloc: Global,
    rq: AssociateRq,
    core: BoxedCore,
    port: &mut P,
    at: Moment,
) -> Result<Effect, AllocError>
    requires now { at.now ≤ 2 ^ 62 }
    requires fits { ToldFits (Told.Plain (Input.Request rq)) }
    ensures done { IfOk result (λ e.
        Turns P.step (turn at core (Told.Plain (Input.Request rq))) port.old e port.new) }
    ensures broke { OnErr result
        (LeavesOff P.step at core (Told.Plain (Input.Request rq)) port.old port.new) }
{
    let acceptable = is_acceptable(alloc, &rq, core.as_core(), at)?;
    let incoming = Incoming::AssociateRq { acceptable };
    let told = Told::Plain(Input::Request(rq));
    meet(alloc, incoming, told, core, port, at)
}

/// Whether the service provider doesn't reject it.
fn is_acceptable(
    alloc: Global,
    rq: &AssociateRq,
    core: &Core,
    at: Moment,
) -> Result<bool, AllocError>
    ensures { IfOk result (λ b. b ≡ is_taken_at core.now.site rq.now at) }
{
    let Some(site) = &core.site else {
        return Ok(true);
    };
    match answer(alloc, rq, &Policy { site }, at.others)? {
        Answer::Reject(_, source, _) => Ok(source == 1),
        Answer::Accept(_, _) => Ok(true),
        Answer::TooSmall => Ok(true),
    }
}

/// What an input that isn't looked into does.
fn turn_plain<P: DeskPort>(
    alloc: Global,
    input: Input,
    core: BoxedCore,
    port: &mut P,
    at: Moment,
) -> Result<Effect, AllocError>
    requires now { at.now ≤ 2 ^ 62 }
    requires fits { ToldFits (Told.Plain input) }
    ensures done { IfOk result (λ e.
        Turns P.step (turn at core (Told.Plain input)) port.old e port.new) }
    ensures broke { OnErr result
        (LeavesOff P.step at core (Told.Plain input) port.old port.new) }
{
    match input {
        Input::Request(rq) => meet_request(alloc, rq, core, port, at),
        Input::Late => meet_late(alloc, core, port, at),
        Input::AbortAsked => { meet_abort(alloc, Told::Plain(Input::AbortAsked), core, port, at) }
        Input::ReleaseAsked => meet_release(alloc, core, port, at),
        Input::PushAsked => meet_push(alloc, core, port, at),
        Input::Acceptance(ac) => turn_heard(alloc, Input::Acceptance(ac), core, port, at),
        Input::Rejection(rejection) => {
            turn_heard(alloc, Input::Rejection(rejection), core, port, at)
        }
        Input::Value(pdv) => turn_heard(alloc, Input::Value(pdv), core, port, at),
        Input::NoValue => turn_heard(alloc, Input::NoValue, core, port, at),
        Input::ReleaseRq => turn_heard(alloc, Input::ReleaseRq, core, port, at),
        Input::ReleaseRp => turn_heard(alloc, Input::ReleaseRp, core, port, at),
        Input::Abort(abort) => turn_heard(alloc, Input::Abort(abort), core, port, at),
        Input::Unknown => turn_heard(alloc, Input::Unknown, core, port, at),
        Input::Invalid => turn_heard(alloc, Input::Invalid, core, port, at),
        Input::Ended => turn_heard(alloc, Input::Ended, core, port, at),
    }
}

/// What is heard and isn't looked into: a PDU, what is no PDU, or the link's end.
fn turn_heard<P: DeskPort>(
    alloc: Global,
    input: Input,
    core: BoxedCore,
    port: &mut P,
    at: Moment,
) -> Result<Effect, AllocError>
    requires now { at.now ≤ 2 ^ 62 }
    requires heard { IsHeard input }
    ensures done { IfOk result (λ e.
        Turns P.step (turn at core (Told.Plain input)) port.old e port.new) }
    ensures broke { OnErr result
        (Broke P.step (turn at core (Told.Plain input)) port.old port.new) }
{
    let incoming = incoming_of(&input);
    meet(alloc, incoming, Told::Plain(input), core, port, at)
}

/// What comes from outside, as the association sees it.
fn incoming_of(input: &Input) -> Incoming
    requires { IsHeard input.now }
    ensures { result ≡ heard_as input.now }
{
    match input {
        Input::Acceptance(_) => Incoming::AssociateAc,
        Input::Rejection(_) => Incoming::AssociateRj,
        Input::Value(_) => Incoming::DataTf,
        Input::NoValue => Incoming::DataTf,
        Input::ReleaseRq => Incoming::ReleaseRq,
        Input::ReleaseRp => Incoming::ReleaseRp,
        Input::Abort(_) => Incoming::Aborted,
        Input::Unknown => Incoming::Unrecognized,
        Input::Invalid => Incoming::Unrecognized,
        Input::Ended => Incoming::ConnectionClosed,
        Input::Request(_) => Incoming::ConnectionClosed,
        Input::Late => Incoming::ConnectionClosed,
        Input::AbortAsked => Incoming::ConnectionClosed,
        Input::ReleaseAsked => Incoming::ConnectionClosed,
        Input::PushAsked => Incoming::ConnectionClosed,
    }
}

/// What an end does with what it was told, at a moment of at most 2^62 milliseconds.
pub fn take_turn<P: DeskPort>(
    alloc: Global,
    told: Told,
    core: BoxedCore,
    port: &mut P,
    at: Moment,
) -> Result<Effect, AllocError>
    requires now { at.now ≤ 2 ^ 62 }
    requires fits { ToldFits told }
    ensures done { IfOk result (λ e. Turns P.step (turn at core told) port.old e port.new) }
    ensures broke { OnErr result (LeavesOff P.step at core told port.old port.new) }
{
    match told {
        Told::Plain(input) => turn_plain(alloc, input, core, port, at),
        looked => turn_looked(alloc, looked, core, port, at),
    }
}

/// What was looked into: a value, or an acceptance.
fn turn_looked<P: DeskPort>(
    alloc: Global,
    told: Told,
    core: BoxedCore,
    port: &mut P,
    at: Moment,
) -> Result<Effect, AllocError>
    requires now { at.now ≤ 2 ^ 62 }
    requires fits { ToldFits told }
    requires looked { IsLooked told }
    ensures done { IfOk result (λ e. Turns P.step (turn at core told) port.old e port.new) }
    ensures broke { OnErr result (Broke P.step (turn at core told) port.old port.new) }
{
    let incoming = looked_as(&told);
    meet(alloc, incoming, told, core, port, at)
}

/// What was looked into, as the association sees it.
fn looked_as(told: &Told) -> Incoming
    ensures { result ≡ told_as told.now }
{
    match told {
        Told::Strange => Incoming::Unrecognized,
        Told::Agreement(_) => Incoming::AssociateAc,
        _ => Incoming::DataTf,
    }
}
