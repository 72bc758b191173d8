//! What an end does as it leaves the association, and the small parts of every reaction.
ghost use Rattle.std.specs.Prelude.{◌≡◌, ◌∷◌, [], ◌≤◌, ◌^◌, IfOk, OnErr};
ghost use Rattle.dr_session.specs.Breaks.{Broke};
ghost use Rattle.dr_session.specs.Reactions.{effect, leaves, aborts, abort_pdu, write, stepped_by};
ghost use Rattle.dr_session.specs.Reactions.{aborted, desk_failed, left};
ghost use Rattle.dr_session.specs.Turns.{Turns};
ghost use Rattle.dr_ulstate.specs.declared.table.Event.TheVariants.{AbortRequest};

use crate::boxed::BoxedCore;
use crate::ends::{Effect, LinkAction, Moment};
use crate::port::DeskPort;
use crate::writing::write_abort;
use dr_base::Seq;
use dr_ledger::{LedgerFault, Outcome};
use std::alloc::{AllocError, Global};

/// Nothing is done on the link.
pub fn none(alloc: Global) -> Seq<LinkAction>
    ensures { result ≡ [] }
{
    Seq::new(alloc)
}

/// Nothing is done.
pub fn quiet(alloc: Global, core: BoxedCore) -> Effect
    ensures { result ≡ effect [] core }
{
    Effect {
        acts: none(alloc),
        core,
    }
}

/// One thing is done on the link.
pub fn one(alloc: Global, action: LinkAction) -> Result<Seq<LinkAction>, AllocError>
    ensures { IfOk result (λ a. a ≡ action ∷ []) }
{
    let mut actions = Vec::with_capacity(alloc, 1)?;
    actions.push_reserved(action);
    Ok(Seq::from_vec(actions))
}

/// One thing is done on the link, by an end that goes on so.
pub fn act_once(alloc: Global, action: LinkAction, core: BoxedCore) -> Result<Effect, AllocError>
    ensures { IfOk result (λ e. e ≡ effect (action ∷ []) core) }
{
    let acts = one(alloc, action)?;
    Ok(Effect { acts, core })
}

/// What is pending is settled as broken.
pub fn leave<P: DeskPort>(
    acts: Seq<LinkAction>,
    core: BoxedCore,
    port: &mut P,
    at: Moment,
) -> Result<Effect, AllocError>
    requires { at.now ≤ 2 ^ 62 }
    ensures done { IfOk result (λ e. Turns P.step (leaves at acts core) port.old e port.new) }
    ensures broke { OnErr result (Broke P.step (leaves at acts core) port.old port.new) }
{
    let Some(pending) = &core.as_core().pending else {
        return Ok(Effect {
            acts,
            core: core.leave_pending(),
        });
    };
    match port.settle(&pending.uid, core.peer(), Outcome::Broken, at.now) {
        Ok(()) | Err(LedgerFault::NotWaiting) => Ok(Effect {
            acts,
            core: core.leave_pending(),
        }),
        Err(LedgerFault::Memory) => Err(AllocError),
        Err(_) => Ok(Effect {
            acts,
            core: core.leave_pending().fail_desk(),
        }),
    }
}

/// One thing is done on the link, and what is pending is settled as broken.
pub fn leave_with<P: DeskPort>(
    alloc: Global,
    action: LinkAction,
    core: BoxedCore,
    port: &mut P,
    at: Moment,
) -> Result<Effect, AllocError>
    requires { at.now ≤ 2 ^ 62 }
    ensures done { IfOk result (λ e.
        Turns P.step (leaves at (action ∷ []) core) port.old e port.new) }
    ensures broke { OnErr result (Broke P.step (leaves at (action ∷ []) core) port.old port.new) }
{
    let acts = one(alloc, action)?;
    leave(acts, core, port, at)
}

/// The end aborts by itself.
pub fn abort<P: DeskPort>(
    alloc: Global,
    core: BoxedCore,
    port: &mut P,
    at: Moment,
) -> Result<Effect, AllocError>
    requires { at.now ≤ 2 ^ 62 }
    ensures done { IfOk result (λ e. Turns P.step (aborts at core) port.old e port.new) }
    ensures broke { OnErr result (Broke P.step (aborts at core) port.old port.new) }
{
    let action = write_abort(alloc, 0, 0)?;
    leave_with(alloc, action, core.abort(at.now).mark_aborted(), port, at)
}

/// The A-ABORT of an end that aborts by itself. It is made before the desk is called: so want of
/// memory hides nothing that the desk answers.
pub fn ready_abort(alloc: Global) -> Result<Seq<LinkAction>, AllocError>
    ensures { IfOk result (λ a. a ≡ write (abort_pdu 0 0 ∷ []) ∷ []) }
{
    let action = write_abort(alloc, 0, 0)?;
    let acts = one(alloc, action)?;
    Ok(acts)
}

/// The end aborts by itself, with nothing pending, by an A-ABORT that was made.
pub fn abort_idle(acts: Seq<LinkAction>, core: BoxedCore, at: Moment) -> Effect
    requires { acts ≡ write (abort_pdu 0 0 ∷ []) ∷ [] }
    ensures { result
        ≡ effect (write (abort_pdu 0 0 ∷ []) ∷ [])
        (aborted (left (stepped_by AbortRequest at.now core))) }
{
    let core = core.abort(at.now).leave_pending();
    Effect {
        acts,
        core: core.mark_aborted(),
    }
}

/// A store failed: the association is aborted, by an A-ABORT that was made, and what was pending is
/// left as it is.
pub fn abort_desk(acts: Seq<LinkAction>, core: BoxedCore, at: Moment) -> Effect
    requires { acts ≡ write (abort_pdu 0 0 ∷ []) ∷ [] }
    ensures { result
        ≡ effect (write (abort_pdu 0 0 ∷ []) ∷ [])
        (desk_failed (aborted (left (stepped_by AbortRequest at.now core)))) }
{
    let core = core.abort(at.now).leave_pending();
    Effect {
        acts,
        core: core.mark_aborted().fail_desk(),
    }
}
