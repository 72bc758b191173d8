//! What an acceptor does: its answer to a request for an association, and to the messages that it
//! hears.
ghost use Rattle.std.specs.Prelude.{◌≡◌, ◌∷◌, [], ◌<◌, ◌≤◌, ◌^◌, ◌+◌, IfOk, OnErr, Some, None};
ghost use Rattle.std.specs.Prelude.{false};
ghost use Rattle.std.specs.Option.{option_map_or};
ghost use Rattle.dr_dimse.specs.Written.{CommandFits};
ghost use Rattle.dr_dimse.specs.declared.command.Command.TheVariants.{StoreRq, StoreRsp, EchoRq};
ghost use Rattle.dr_dimse.specs.declared.command.Command.TheVariants.{EchoRsp, Other};
ghost use Rattle.dr_nego.specs.declared.agreed.Agreed.{Agreed as AgreedOn};
ghost use Rattle.dr_nego.specs.declared.answering.Answer.TheVariants as answers;
ghost use Rattle.dr_nego.specs.Agreeing.{IsTooSmall};
ghost use Rattle.dr_nego.specs.Answering.{answer as answered};
ghost use Rattle.dr_pdu.specs.Written.{Fits as PduFits};
ghost use Rattle.dr_pdu.specs.declared.pdu.Pdu.TheVariants as pdu;
ghost use Rattle.dr_session.specs.Breaks.{Broke, MayWrite};
ghost use Rattle.dr_session.specs.Laws.{AnswersStore};
ghost use Rattle.dr_session.specs.Reactions.{arrives, stores, stored};
ghost use Rattle.dr_ledger.specs.Replies.{store_status};
ghost use Rattle.dr_session.specs.Reactions.{echo_status as status_of_echo, effect, is_named};
ghost use Rattle.dr_session.specs.Reactions.{brings, says, requested, requested_other, decides};
ghost use Rattle.dr_session.specs.Reactions.{decides_at, stepped_by, write};
ghost use Rattle.dr_session.specs.Reactions.{rejected as rejected_with};
ghost use Rattle.dr_session.specs.Turns.{Turns, Ends};
ghost use Rattle.dr_ulstate.specs.declared.table.Event.TheVariants.{AcceptResponse, RejectResponse};

use crate::boxed::BoxedCore;
use crate::ends::{Core, Effect, Found, LinkAction, Moment};
use crate::negotiated::Negotiated;
use crate::port::DeskPort;
use crate::react::leaving::{abort, act_once, quiet};
use crate::writing::{write_acceptance, write_rejection, write_response};
use dr_base::{Seq, Text};
use dr_dimse::Command;
use dr_ledger::{Arrived, Item, LedgerFault};
use dr_nego::acceptor::answer;
use dr_nego::{Agreed, Answer, Policy};
use dr_pdu::{AssociateAc, AssociateRj, AssociateRq};
use std::alloc::{AllocError, Global};

/// The message that is responded to (PS3.7 9.3): its presentation context, the class of that
/// context, and its message id.
#[derive(Clone, Copy)]
pub struct RespondedTo<'a> {
    pub context: u8,
    pub of: &'a Text,
    pub id: u16,
}

/// The status of the response for a reply (PS3.4 B.2.3).
fn status(reply: &Result<Arrived, LedgerFault>) -> u16
    ensures { result ≡ store_status reply.now }
{
    match reply {
        Ok(_) => 0x0000,
        Err(LedgerFault::NoLine) => 0xC0F0,
        Err(LedgerFault::Conflict) => 0xC0F1,
        Err(_) => 0xA700,
    }
}

/// A response in the context, within the limit that was agreed on.
fn say(alloc: Global, core: &Core, context: u8, command: Command) -> Result<LinkAction, AllocError>
    requires { CommandFits command }
    ensures { IfOk result (λ a. a ≡ says core.now context command) }
{
    let terms = Negotiated::new(Agreed {
        pairs: Seq::new(alloc),
        limit: limit_of(core),
    });
    let action = write_response(alloc, &terms, context, &command)?;
    Ok(action)
}

/// A response in the context is all that is done.
fn reply(
    alloc: Global,
    context: u8,
    command: Command,
    core: BoxedCore,
) -> Result<Effect, AllocError>
    requires { CommandFits command }
    ensures { IfOk result (λ e. e ≡ effect (says core context command ∷ []) core) }
{
    let action = say(alloc, core.as_core(), context, command)?;
    act_once(alloc, action, core)
}

/// The greatest length that the other side takes; none where nothing is agreed on.
fn limit_of(core: &Core) -> u32
    ensures limit { result ≡ option_map_or (λ (a : AgreedOn). a.limit) core.now.agreed 0 }
    ensures serves { IsTooSmall result → ⊥ }
{
    let Some(terms) = &core.agreed else {
        return 0;
    };
    terms.as_agreed().limit
}

/// The response to a C-STORE-RQ.
fn respond(
    alloc: Global,
    to: &RespondedTo<'_>,
    class: Text,
    instance: Text,
    status: u16,
    core: BoxedCore,
) -> Result<Effect, AllocError>
    requires { CommandFits (StoreRq to.now.id class instance) }
    ensures { IfOk result (λ e. e ≡ stored core to.now.context to.now.id class instance status) }
{
    let command = Command::StoreRsp {
        to: to.id,
        status,
        class,
        instance,
        has_data: false,
    };
    reply(alloc, to.context, command, core)
}

/// Whether the command names the instance.
fn names(item: &Item, class: &Text, instance: &Text) -> bool
    ensures { result ≡ is_named item.now class.now instance.now }
{
    *item.uid() == *instance && item.key().class == *class
}

/// An instance that the command names is brought to the desk.
fn bring<P: DeskPort>(
    alloc: Global,
    to: &RespondedTo<'_>,
    class: Text,
    instance: Text,
    item: Item,
    core: BoxedCore,
    port: &mut P,
) -> Result<Effect, AllocError>
    requires { CommandFits (StoreRq to.now.id class instance) }
    ensures done { IfOk result (λ e. Turns P.step
        (brings core to.now.context to.now.id class instance item) port.old e port.new) }
    ensures broke { OnErr result
        (Broke P.step (brings core to.now.context to.now.id class instance item) port.old
        port.new) }
{
    if names(&item, &class, &instance) {
        let reply = port.arrive(core.peer(), item);
        let status = status(&reply);
        let done = respond(alloc, to, class, instance, status, core)?;
        return Ok(done);
    }
    respond(alloc, to, class, instance, 0xA900, core)
}

/// An instance in a C-STORE-RQ of its own UIDs is brought to the desk; the response is written only
/// then.
fn store_found<P: DeskPort>(
    alloc: Global,
    to: &RespondedTo<'_>,
    class: Text,
    instance: Text,
    found: Found,
    core: BoxedCore,
    port: &mut P,
) -> Result<Effect, AllocError>
    requires { CommandFits (StoreRq to.now.id class instance) }
    ensures done { IfOk result (λ e. Turns P.step
        (arrives core to.now.context to.now.id class instance found) port.old e port.new) }
    ensures broke { OnErr result
        (Broke P.step (arrives core to.now.context to.now.id class instance found) port.old
        port.new) }
{
    match found {
        Found::TooLarge => respond(alloc, to, class, instance, 0xA700, core),
        Found::Unreadable => respond(alloc, to, class, instance, 0xC000, core),
        Found::Nameless => respond(alloc, to, class, instance, 0xA900, core),
        Found::Read(item) => bring(alloc, to, class, instance, item, core, port),
    }
}

/// A C-STORE-RQ with its data set, in a context of that class.
fn store_in<P: DeskPort>(
    alloc: Global,
    to: &RespondedTo<'_>,
    class: Text,
    instance: Text,
    found: Found,
    core: BoxedCore,
    port: &mut P,
) -> Result<Effect, AllocError>
    requires { CommandFits (StoreRq to.now.id class instance) }
    ensures done { IfOk result (λ e. Turns P.step
        (stores core to.now.context to.now.of.now to.now.id class instance found) port.old e
        port.new) }
    ensures broke { OnErr result
        (Broke P.step (stores core to.now.context to.now.of.now to.now.id class instance found)
        port.old port.new) }
{
    if class != *to.of {
        return respond(alloc, to, class, instance, 0x0122, core);
    }
    store_found(alloc, to, class, instance, found, core, port)
}

/// A C-STORE-RQ with its data set, in a context of that class. A success is written only behind an
/// arrival that the port answered New or Again.
pub fn store<P: DeskPort>(
    alloc: Global,
    to: &RespondedTo<'_>,
    class: Text,
    instance: Text,
    found: Found,
    core: BoxedCore,
    port: &mut P,
) -> Result<Effect, AllocError>
    requires { CommandFits (StoreRq to.now.id class instance) }
    ensures done { IfOk result (λ e. Turns P.step
        (stores core to.now.context to.now.of.now to.now.id class instance found) port.old e
        port.new) }
    ensures broke { OnErr result
        (Broke P.step (stores core to.now.context to.now.of.now to.now.id class instance found)
        port.old port.new) }
    ensures answered { IfOk result (λ e. AnswersStore P.step core to.now.context to.now.id class
        instance found port.old e port.new) }
{
    let done = store_in(alloc, to, class, instance, found, core, port)?;
    Ok(done)
}

/// The status of the response to a C-ECHO-RQ (PS3.7 9.1.5): its class, where it names one, is the
/// context's.
fn echo_status(class: &Text, of: &Text) -> u16
    ensures { result ≡ status_of_echo class.now of.now }
{
    if class.is_empty() || *class == *of {
        0x0000
    } else {
        0x0122
    }
}

/// Any other request in a context of that class: a C-ECHO-RQ is answered, a C-CANCEL-RQ isn't, and
/// what isn't known is answered as unrecognized (0211H).
pub fn answer_request(
    alloc: Global,
    context: u8,
    of: Text,
    command: Command,
    core: BoxedCore,
) -> Result<Effect, AllocError>
    requires { CommandFits command }
    ensures done { IfOk result (λ e. requested core context of command ≡ Ends e) }
    ensures wants { OnErr result (MayWrite (requested core context of command)) }
{
    match command {
        Command::EchoRq { id, class, .. } => {
            let done = answer_echo(alloc, context, of, id, class, core)?;
            Ok(done)
        }
        Command::Other {
            field,
            id,
            status,
            ..
        } => {
            let done = answer_other(alloc, context, field, id, status, core)?;
            Ok(done)
        }
        Command::StoreRq { .. } => Ok(quiet(alloc, core)),
        Command::StoreRsp { .. } => Ok(quiet(alloc, core)),
        Command::EchoRsp { .. } => Ok(quiet(alloc, core)),
    }
}

/// The response to a C-ECHO-RQ.
fn answer_echo(
    alloc: Global,
    context: u8,
    of: Text,
    id: u16,
    class: Text,
    core: BoxedCore,
) -> Result<Effect, AllocError>
    requires { CommandFits (EchoRq id class false) }
    ensures { IfOk result (λ e. e
        ≡ effect (says core context (EchoRsp id (status_of_echo class of) class false) ∷ []) core) }
{
    let response = Command::EchoRsp {
        to: id,
        status: echo_status(&class, &of),
        class,
        has_data: false,
    };
    reply(alloc, context, response, core)
}

/// A request that isn't known is answered by its field or 8000H; one without an id isn't answered.
fn answer_other(
    alloc: Global,
    context: u8,
    field: u16,
    id: Option<u16>,
    status: Option<u16>,
    core: BoxedCore,
) -> Result<Effect, AllocError>
    requires { CommandFits (Other field id status false) }
    ensures done { IfOk result (λ e. requested_other core context field id status ≡ Ends e) }
    ensures wants { OnErr result (MayWrite (requested_other core context field id status)) }
{
    let Some(id) = id else {
        return Ok(quiet(alloc, core));
    };
    match status {
        Some(_) => Ok(quiet(alloc, core)),
        None => {
            let done = answer_unknown(alloc, context, field, id, core)?;
            Ok(done)
        }
    }
}

/// The response to a request that isn't known: unrecognized operation (PS3.7 C.5.12).
fn answer_unknown(
    alloc: Global,
    context: u8,
    field: u16,
    id: u16,
    core: BoxedCore,
) -> Result<Effect, AllocError>
    requires { CommandFits (Other field (Some id) None false) }
    ensures { IfOk result (λ e. e
        ≡ effect (says core context (Other (0x8000 + field) (Some id) (Some 0x0211) false) ∷ [])
        core) }
{
    let response = Command::Other {
        field: answer_field(field),
        id: Some(id),
        status: Some(0x0211),
        has_data: false,
    };
    reply(alloc, context, response, core)
}

/// The field of the answer to a request (PS3.7 E.1).
fn answer_field(field: u16) -> u16
    requires { field < 0x8000 }
    ensures { result ≡ 0x8000 + field }
{
    0x8000 + field
}

/// A request for an association is answered: accepted, rejected, or, where the other side's
/// greatest length is too small for any fragment, aborted.
pub fn decide<P: DeskPort>(
    alloc: Global,
    rq: AssociateRq,
    core: BoxedCore,
    port: &mut P,
    at: Moment,
) -> Result<Effect, AllocError>
    requires now { at.now ≤ 2 ^ 62 }
    requires fits { PduFits (pdu.AssociateRq rq) }
    ensures done { IfOk result (λ e.
        Turns P.step (decides_at core.site at rq core) port.old e port.new) }
    ensures broke { OnErr result
        (Broke P.step (decides_at core.site at rq core) port.old port.new) }
{
    let Some(site) = &core.as_core().site else {
        return Ok(quiet(alloc, core));
    };
    match answer(alloc, &rq, &Policy { site }, at.others)? {
        Answer::Accept(ac, agreed) => accept(alloc, ac, agreed, rq, core, at),
        Answer::Reject(outcome, source, reason) => {
            let rejection = AssociateRj {
                result: outcome,
                source,
                reason,
            };
            reject(alloc, rejection, core, at)
        }
        Answer::TooSmall => abort(alloc, core, port, at),
    }
}

/// The association is accepted.
fn accept(
    alloc: Global,
    ac: AssociateAc,
    agreed: Agreed,
    rq: AssociateRq,
    core: BoxedCore,
    at: Moment,
) -> Result<Effect, AllocError>
    requires fits { PduFits (pdu.AssociateAc ac) }
    requires serves { IsTooSmall agreed.limit → ⊥ }
    ensures { IfOk result (λ e. decides (answers.Accept ac agreed) at rq core ≡ Ends e) }
{
    let action = write_acceptance(alloc, ac)?;
    act_once(alloc, action, establish(agreed, rq, core, at.now))
}

/// The local user accepts the request: the phase, the peer, and what is agreed on.
fn establish(agreed: Agreed, rq: AssociateRq, core: BoxedCore, now: u64) -> BoxedCore
    requires { IsTooSmall agreed.limit → ⊥ }
    ensures { result
        ≡ record (stepped_by AcceptResponse now core) {
          peer = rq.front.calling;
          agreed = Some agreed;
        } }
{
    let front = rq.front;
    core.accept(now)
        .agree_with(front.calling, Negotiated::new(agreed))
}

/// The association is rejected.
fn reject(
    alloc: Global,
    rejection: AssociateRj,
    core: BoxedCore,
    at: Moment,
) -> Result<Effect, AllocError>
    ensures { IfOk result (λ e. e
        ≡ effect (write (pdu.AssociateRj rejection ∷ []) ∷ [])
        (rejected_with rejection (stepped_by RejectResponse at.now core))) }
{
    let action = write_rejection(alloc, rejection)?;
    act_once(alloc, action, core.reject(at.now).mark_rejected(rejection))
}
