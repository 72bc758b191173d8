//! What a requestor does: what it concludes from an answer, what it sends, and the responses that
//! it hears.
ghost use Rattle.std.specs.Prelude.{◌≡◌, ◌∷◌, [], ◌≤◌, ◌^◌, IfOk, OnErr, Option, Some, None, Ok};
ghost use Rattle.std.specs.Prelude.{Err, true};
ghost use Rattle.std.specs.List.{list_all};
ghost use Rattle.dr_base.specs.Syntaxes.{syntax_uid};
ghost use Rattle.dr_nego.specs.Agreeing.{context_for};
ghost use Rattle.dr_nego.specs.declared.agreed.Agreed.{Agreed as AgreedOn};
ghost use Rattle.dr_nego.specs.declared.fault.NegoFault.TheVariants as negofault;
ghost use Rattle.dr_ledger.specs.declared.content.NextRow.TheVariants.{Whole};
ghost use Rattle.dr_session.specs.declared.ends.LinkAction.TheVariants.{Close};
ghost use Rattle.dr_session.specs.Breaks.{Broke, BrokeBehind};
ghost use Rattle.dr_session.specs.Desks.{DeskAnswer, Upcoming};
ghost use Rattle.dr_session.specs.Reactions.{agrees, refuses, settles_refused, answers, replied};
ghost use Rattle.dr_session.specs.Reactions.{status_for, effect, gives, gives_in, hands};
ghost use Rattle.dr_session.specs.Reactions.{can_be_named, is_uid, is_graphic, id_after, due};
ghost use Rattle.dr_session.specs.Reactions.{pushes, gives_nothing, write, store_pdus, awaiting};
ghost use Rattle.dr_session.specs.Reactions.{settled_with, desk_failed, dried, hands_row};
ghost use Rattle.dr_session.specs.Reactions.{passes_over, abort_pdu};
ghost use Rattle.dr_session.specs.Turns.{Turns, Ends};

use crate::boxed::BoxedCore;
use crate::ends::{Core, Effect, LinkAction, Moment, Pending, Requested};
use crate::negotiated::Negotiated;
use crate::port::DeskPort;
use crate::react::leaving::{abort, abort_desk, abort_idle, act_once, one, quiet, ready_abort};
use crate::writing::write_store;
use dr_base::{Seq, Text};
use dr_dimse::Command;
use dr_ledger::{Job, LedgerFault, NextRow, Outcome};
use dr_nego::NegoFault;
use std::alloc::{AllocError, Global};

/// What an acceptance agrees on, or why it doesn't: then the end aborts.
pub fn agree<P: DeskPort>(
    alloc: Global,
    answer: Result<Negotiated, NegoFault>,
    core: BoxedCore,
    port: &mut P,
    at: Moment,
) -> Result<Effect, AllocError>
    requires { at.now ≤ 2 ^ 62 }
    ensures done { IfOk result (λ e. Turns P.step (agrees answer at core) port.old e port.new) }
    ensures broke { OnErr result (Broke P.step (agrees answer at core) port.old port.new) }
{
    match answer {
        Ok(agreed) => Ok(quiet(alloc, core.agree(agreed))),
        Err(NegoFault::Memory) => Err(AllocError),
        Err(NegoFault::StrangeId) => abort(alloc, core, port, at),
        Err(NegoFault::StrangeSyntax) => abort(alloc, core, port, at),
        Err(NegoFault::LimitTooSmall) => abort(alloc, core, port, at),
        Err(NegoFault::NoHop) => abort(alloc, core, port, at),
    }
}

/// The association was rejected: the first row that is due is settled as broken. Its data set isn't
/// read.
pub fn refuse<P: DeskPort>(
    alloc: Global,
    core: BoxedCore,
    port: &mut P,
    at: Moment,
) -> Result<Effect, AllocError>
    requires { at.now ≤ 2 ^ 62 }
    ensures done { IfOk result (λ e. Turns P.step (refuses at core) port.old e port.new) }
    ensures broke { OnErr result (Broke P.step (refuses at core) port.old port.new) }
{
    let acts = one(alloc, LinkAction::Close)?;
    match port.due(core.peer(), at.now) {
        Ok(Some(uid)) => settle_refused(acts, uid, core, port, at),
        Ok(None) => Ok(close_ready(acts, core)),
        Err(LedgerFault::Memory) => Err(AllocError),
        Err(_) => Ok(close_ready(acts, core.fail_desk())),
    }
}

/// The transport connection is closed.
pub fn close(alloc: Global, core: BoxedCore) -> Result<Effect, AllocError>
    ensures { IfOk result (λ e. e ≡ effect (Close ∷ []) core) }
{
    act_once(alloc, LinkAction::Close, core)
}

/// The transport connection is closed, by an action that was made before the desk was called.
fn close_ready(acts: Seq<LinkAction>, core: BoxedCore) -> Effect
    requires { acts ≡ Close ∷ [] }
    ensures { result ≡ effect (Close ∷ []) core }
{
    Effect { acts, core }
}

/// A row whose association was rejected.
fn settle_refused<P: DeskPort>(
    acts: Seq<LinkAction>,
    uid: Text,
    core: BoxedCore,
    port: &mut P,
    at: Moment,
) -> Result<Effect, AllocError>
    requires now { at.now ≤ 2 ^ 62 }
    requires acts { acts ≡ Close ∷ [] }
    ensures done { IfOk result (λ e.
        Turns P.step (settles_refused at uid core) port.old e port.new) }
    ensures broke { OnErr result ((told : DeskAnswer)
        → BrokeBehind P.step told (settles_refused at uid core) port.old port.new) }
{
    match port.settle(&uid, core.peer(), Outcome::Broken, at.now) {
        Ok(()) | Err(LedgerFault::NotWaiting) => Ok(close_ready(acts, core)),
        Err(LedgerFault::Memory) => Err(AllocError),
        Err(_) => Ok(close_ready(acts, core.fail_desk())),
    }
}

/// The status of a response, where it is one of the service that was asked for.
fn answers(asked: Requested, command: &Command) -> Option<u16>
    ensures { result ≡ answers asked command.now }
{
    match asked {
        Requested::Store => match command {
            Command::StoreRsp { status, .. } => Some(*status),
            _ => None,
        },
        Requested::Echo => match command {
            Command::EchoRsp { status, .. } => Some(*status),
            _ => None,
        },
    }
}

/// The same, in the context of the request.
fn status_for(pending: &Pending, context: u8, command: &Command) -> Option<u16>
    ensures { result ≡ status_for pending.now context command.now }
{
    if pending.context == context {
        return answers(pending.asked, command);
    }
    None
}

/// A response: where what is pending awaits it, its row is settled by its status; else the end
/// aborts.
pub fn hear_response<P: DeskPort>(
    alloc: Global,
    context: u8,
    command: &Command,
    core: BoxedCore,
    port: &mut P,
    at: Moment,
) -> Result<Effect, AllocError>
    requires { at.now ≤ 2 ^ 62 }
    ensures done { IfOk result (λ e.
        Turns P.step (replied core.pending context command.now at core) port.old e port.new) }
    ensures broke { OnErr result
        (Broke P.step (replied core.pending context command.now at core) port.old port.new) }
{
    let Some(pending) = &core.as_core().pending else {
        return abort(alloc, core, port, at);
    };
    let Some(status) = status_for(pending, context, command) else {
        return abort(alloc, core, port, at);
    };
    let acts = ready_abort(alloc)?;
    match port.settle(&pending.uid, core.peer(), Outcome::Status(status), at.now) {
        Ok(()) | Err(LedgerFault::NotWaiting) => Ok(quiet(alloc, core.settle())),
        Err(LedgerFault::Memory) => Err(AllocError),
        Err(_) => Ok(abort_desk(acts, core, at)),
    }
}

/// The message id after this one: from 1 to 65,535, and then from 1 again.
pub fn next_id(last: u16) -> u16
    ensures { result ≡ id_after last }
{
    if last == 65535 { 1 } else { last + 1 }
}

/// The first row that is due is sent.
pub fn push<P: DeskPort>(
    alloc: Global,
    core: BoxedCore,
    port: &mut P,
    at: Moment,
) -> Result<Effect, AllocError>
    requires { at.now ≤ 2 ^ 62 }
    ensures done { IfOk result (λ e. Turns P.step (pushes at core) port.old e port.new) }
    ensures broke { OnErr result (Broke P.step (pushes at core) port.old port.new) }
{
    let acts = ready_abort(alloc)?;
    match port.next(core.peer(), at.now) {
        Ok(Some(row)) => {
            let done = hand_row(alloc, acts, row, core, port, at)?;
            Ok(done)
        }
        Ok(None) => Ok(quiet(alloc, core.run_dry())),
        Err(LedgerFault::Memory) => Err(AllocError),
        Err(_) => Ok(abort_desk(acts, core, at)),
    }
}

/// Whether a text is a UID: 1 to 64 bytes from 21H to 7EH.
fn is_uid(uid: &Text) -> bool
    ensures { result ≡ is_uid uid.now }
{
    let bytes = uid.as_bytes();
    1 <= bytes.len() && bytes.len() <= 64 && are_graphic(bytes)
}

/// Whether all bytes are from 21H to 7EH.
fn are_graphic(bytes: &[u8]) -> bool
    ensures { result ≡ list_all is_graphic bytes.now }
{
    bytes.iter().all(|byte| is_graphic(*byte))
}

/// Whether a byte is from 21H to 7EH.
fn is_graphic(byte: u8) -> bool
    ensures { result ≡ is_graphic byte }
{
    0x21 <= byte && byte <= 0x7E
}

/// Whether a C-STORE-RQ can name the instance and its class.
fn can_be_named(job: &Job) -> bool
    ensures { result ≡ can_be_named job.now }
{
    is_uid(&job.key.class) && is_uid(&job.uid)
}

/// What the desk handed out goes over, if it can be read.
fn hand_row<P: DeskPort>(
    alloc: Global,
    acts: Seq<LinkAction>,
    row: NextRow,
    core: BoxedCore,
    port: &mut P,
    at: Moment,
) -> Result<Effect, AllocError>
    requires now { at.now ≤ 2 ^ 62 }
    requires acts { acts ≡ write (abort_pdu 0 0 ∷ []) ∷ [] }
    ensures done { IfOk result (λ e. Turns P.step (hands_row at core row) port.old e port.new) }
    ensures broke { OnErr result
        (BrokeBehind P.step (Upcoming (Ok (Some row))) (hands_row at core row) port.old port.new) }
{
    match row {
        NextRow::Whole(job) => hand(alloc, acts, job, core, port, at),
        NextRow::Unreadable(uid) => pass_over(acts, uid, core, port, at),
    }
}

/// A row whose data set can't be read is settled so, and the end aborts: nothing was sent.
fn pass_over<P: DeskPort>(
    acts: Seq<LinkAction>,
    uid: Text,
    core: BoxedCore,
    port: &mut P,
    at: Moment,
) -> Result<Effect, AllocError>
    requires now { at.now ≤ 2 ^ 62 }
    requires acts { acts ≡ write (abort_pdu 0 0 ∷ []) ∷ [] }
    ensures done { IfOk result (λ e. Turns P.step (passes_over at uid core) port.old e port.new) }
    ensures broke { OnErr result ((told : DeskAnswer)
        → BrokeBehind P.step told (passes_over at uid core) port.old port.new) }
{
    match port.settle(&uid, core.peer(), Outcome::Unreadable, at.now) {
        Ok(()) | Err(LedgerFault::NotWaiting) => Ok(abort_idle(acts, core, at)),
        Err(LedgerFault::Memory) => Err(AllocError),
        Err(_) => Ok(abort_desk(acts, core, at)),
    }
}

/// What the desk handed out goes over; a desk that hands out what can't be named has failed.
fn hand<P: DeskPort>(
    alloc: Global,
    acts: Seq<LinkAction>,
    job: Job,
    core: BoxedCore,
    port: &mut P,
    at: Moment,
) -> Result<Effect, AllocError>
    requires now { at.now ≤ 2 ^ 62 }
    requires acts { acts ≡ write (abort_pdu 0 0 ∷ []) ∷ [] }
    ensures done { IfOk result (λ e. Turns P.step (hands at core job) port.old e port.new) }
    ensures broke { OnErr result
        (BrokeBehind P.step (Upcoming (Ok (Some (Whole job)))) (hands at core job) port.old
        port.new) }
{
    if can_be_named(&job) {
        let done = give(alloc, acts, job, core, port, at)?;
        return Ok(done);
    }
    Ok(abort_desk(acts, core, at))
}

/// An instance goes over in a context of its class and transfer syntax; where there is none the row
/// is settled so.
fn give<P: DeskPort>(
    alloc: Global,
    acts: Seq<LinkAction>,
    job: Job,
    core: BoxedCore,
    port: &mut P,
    at: Moment,
) -> Result<Effect, AllocError>
    requires now { at.now ≤ 2 ^ 62 }
    requires acts { acts ≡ write (abort_pdu 0 0 ∷ []) ∷ [] }
    requires named { can_be_named job ≡ true }
    ensures done { IfOk result (λ e.
        Turns P.step (gives core.agreed at job core) port.old e port.new) }
    ensures broke { OnErr result
        (BrokeBehind P.step (Upcoming (Ok (Some (Whole job)))) (gives core.agreed at job core)
        port.old port.new) }
{
    let Some(agreed) = &core.as_core().agreed else {
        return Ok(quiet(alloc, core));
    };
    match context_of(agreed, &job) {
        None => settle_without(alloc, acts, job.uid, core, port, at),
        Some(context) => give_in(alloc, context, job, core, at),
    }
}

/// An instance goes over in that context.
fn give_in(
    alloc: Global,
    context: u8,
    job: Job,
    core: BoxedCore,
    at: Moment,
) -> Result<Effect, AllocError>
    requires { can_be_named job ≡ true }
    ensures { IfOk result (λ e. (agreed : AgreedOn)
        → core.agreed ≡ Some agreed
        → gives_in (Some context) agreed at job core ≡ Ends e) }
{
    let id = next_id(core.as_core().last);
    let action = write_in(alloc, context, id, &job, core.as_core())?;
    let pending = Pending {
        id,
        context,
        asked: Requested::Store,
        uid: uid_of(job),
    };
    act_once(alloc, action, core.await_response(pending, at.now))
}

/// The C-STORE-RQ of an instance in that context, by what was agreed on.
fn write_in(
    alloc: Global,
    context: u8,
    id: u16,
    job: &Job,
    core: &Core,
) -> Result<LinkAction, AllocError>
    requires { can_be_named job.now ≡ true }
    ensures { IfOk result (λ a. (agreed : AgreedOn)
        → core.now.agreed ≡ Some agreed
        → a ≡ write (store_pdus agreed context id job.now)) }
{
    match &core.agreed {
        Some(agreed) => write_store(alloc, agreed, context, id, job),
        None => Ok(LinkAction::Close),
    }
}

/// The UID of an instance.
fn uid_of(job: Job) -> Text
    ensures { result ≡ job.uid }
{
    job.uid
}

/// The context in which an instance can go over.
fn context_of(agreed: &Negotiated, job: &Job) -> Option<u8>
    ensures { result ≡ context_for agreed.now job.now.key.class (syntax_uid job.now.key.syntax) }
{
    agreed.context_for(&job.key.class, job.key.syntax)
}

/// A row without a context.
fn settle_without<P: DeskPort>(
    alloc: Global,
    acts: Seq<LinkAction>,
    uid: Text,
    core: BoxedCore,
    port: &mut P,
    at: Moment,
) -> Result<Effect, AllocError>
    requires now { at.now ≤ 2 ^ 62 }
    requires acts { acts ≡ write (abort_pdu 0 0 ∷ []) ∷ [] }
    ensures done { IfOk result (λ e. Turns P.step (gives_nothing at uid core) port.old e port.new) }
    ensures broke { OnErr result ((told : DeskAnswer)
        → BrokeBehind P.step told (gives_nothing at uid core) port.old port.new) }
{
    match port.settle(&uid, core.peer(), Outcome::NoContext, at.now) {
        Ok(()) | Err(LedgerFault::NotWaiting) => Ok(quiet(alloc, core)),
        Err(LedgerFault::Memory) => Err(AllocError),
        Err(_) => Ok(abort_desk(acts, core, at)),
    }
}
