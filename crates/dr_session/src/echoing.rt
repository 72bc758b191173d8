//! The echo of a requestor.
ghost use Rattle.std.specs.Prelude.{◌≡◌, ◌∷◌, [], IfOk, OnErr, false};
ghost use Rattle.dr_base.specs.Syntaxes.{syntax_uid};
ghost use Rattle.dr_base.specs.declared.syntax.Syntax.TheVariants.{Implicit};
ghost use Rattle.dr_dimse.specs.declared.command.Command.TheVariants.{EchoRq};
ghost use Rattle.dr_nego.specs.Agreeing.{context_for};
ghost use Rattle.dr_base.specs.Standard.{verification};
ghost use Rattle.dr_session.specs.Breaks.{HasActs};
ghost use Rattle.dr_session.specs.Ends.{echoes_by, echoes_in, is_free};
ghost use Rattle.dr_session.specs.Messages.{command_pdus};
ghost use Rattle.dr_session.specs.Reactions.{id_after, write};

use crate::boxed::BoxedCore;
use crate::ends::{Core, Effect, LinkAction, Pending, Requested};
use crate::negotiated::{Negotiated, VERIFICATION};
use crate::react::{act_once, next_id, quiet};
use crate::writing::write_response;
use dr_base::Text;
use dr_dimse::Command;
use std::alloc::{AllocError, Global};

/// Whether it is a requestor that is established, has nothing pending and may send.
pub fn is_free(core: &Core) -> bool
    ensures { result ≡ is_free core.now }
{
    core.phase.is_requestor() && core.pending.is_none() && core.phase.may_send()
}

/// A C-ECHO-RQ goes out in a context of Verification, where one was accepted. Where none was, it
/// takes no memory.
pub fn ask_echo(alloc: Global, core: BoxedCore, now: u64) -> Result<Effect, AllocError>
    ensures done { IfOk result (λ e. e ≡ echoes_by core.agreed now core) }
    ensures wants { OnErr result (HasActs (echoes_by core.agreed now core).acts) }
{
    let Some(agreed) = &core.as_core().agreed else {
        return Ok(quiet(alloc, core));
    };
    let Some(context) = agreed.echo_context() else {
        return Ok(quiet(alloc, core));
    };
    let id = next_id(core.as_core().last);
    let action = write_echo(alloc, agreed, context, id)?;
    let pending = Pending {
        id,
        context,
        asked: Requested::Echo,
        uid: Text::empty(alloc),
    };
    act_once(alloc, action, core.await_response(pending, now))
}

/// A C-ECHO-RQ.
fn write_echo(
    alloc: Global,
    agreed: &Negotiated,
    context: u8,
    id: u16,
) -> Result<LinkAction, AllocError>
    ensures { IfOk result (λ a.
        a ≡ write (command_pdus agreed.now.limit context (EchoRq id verification false))) }
{
    let class = Text::copy_of(alloc, VERIFICATION)?;
    let command = Command::EchoRq {
        id,
        class,
        has_data: false,
    };
    let action = write_response(alloc, agreed, context, &command)?;
    Ok(action)
}
