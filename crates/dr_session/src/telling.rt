//! What an input comes to, for an end that knows what it agreed on and what is under way.
ghost use Rattle.std.specs.Prelude.{◌≡◌, IfOk, OnErr, IsTrue, ◌↔◌};
ghost use Rattle.dr_dimse.specs.Written.{CommandFits};
ghost use Rattle.dr_dimse_scan.specs.Stores.{HasScan};
ghost use Rattle.dr_session.specs.Fits.{InputFits, ToldFits};
ghost use Rattle.dr_session.specs.Plays.{IsKept, TellsTo, TellsValueTo};
ghost use Rattle.dr_session.specs.Telling.{NamesSyntax, SaysOf, TakesData, state_at};
ghost use Rattle.dr_ulstate.specs.declared.table.State.TheVariants.{Sta5};

use crate::boxed::BoxedCore;
use crate::ends::{Core, Input, Told};
use crate::find::find;
use crate::negotiated::Negotiated;
use dr_base::Syntax;
use dr_dimse::{Command, DimseFault};
use dr_dimse_scan::HeardMessage;
use dr_nego::{Pair, conclude};
use dr_pdu::{AssociateAc, Pdv};
use dr_ulstate::State;
use std::alloc::{AllocError, Global};

/// What an input comes to, and the end after it: what is under way may have changed.
pub fn tell(alloc: Global, input: Input, core: BoxedCore) -> Result<(Told, BoxedCore), AllocError>
    requires { InputFits input }
    ensures tells { IfOk result (λ r. TellsTo core input r.0 r.1) }
    ensures fits { IfOk result (λ r. ToldFits r.0) }
    ensures kept { OnErr result (IsKept core input) }
{
    match input {
        Input::Value(pdv) => {
            if takes_data(core.state()) {
                return core.tell_value(alloc, pdv);
            }
            Ok((Told::Plain(Input::Value(pdv)), core))
        }
        Input::Acceptance(ac) => {
            if awaits_answer(core.state()) {
                let told = tell_acceptance(alloc, ac, core.as_core());
                return Ok((told, core));
            }
            Ok((Told::Plain(Input::Acceptance(ac)), core))
        }
        other => Ok((Told::Plain(other), core)),
    }
}

/// Whether the table takes data in this state.
fn takes_data(state: State) -> bool
    ensures { IsTrue result ↔ TakesData state }
{
    matches!(state, State::Sta6 | State::Sta7)
}

/// Whether the table takes an A-ASSOCIATE-AC in this state.
fn awaits_answer(state: State) -> bool
    ensures { IsTrue result ↔ (state ≡ Sta5) }
{
    matches!(state, State::Sta5)
}

/// A value where data is taken: in an accepted context it goes to the assembly.
pub fn tell_value(alloc: Global, pdv: Pdv, core: &mut Core) -> Result<Told, AllocError>
    ensures tells { IfOk result (λ told. TellsValueTo core.old pdv told core.new) }
    ensures fits { IfOk result ToldFits }
{
    let Some(agreed) = &core.agreed else {
        return Ok(Told::Strange);
    };
    let Some(pair) = agreed.context(pdv.id) else {
        return Ok(Told::Strange);
    };
    let syntax = Syntax::of_uid(pair.syntax.as_bytes());
    match core.assembly.take(pdv, syntax) {
        Ok(None) => Ok(Told::Quiet),
        Ok(Some(heard)) => {
            let told = tell_message(alloc, pair, syntax, heard)?;
            Ok(told)
        }
        Err(fault) => match fault {
            DimseFault::Memory => Err(AllocError),
            DimseFault::OutOfPlace => Ok(Told::Fault),
            DimseFault::MixedContext => Ok(Told::Fault),
            DimseFault::BadCommand => Ok(Told::Fault),
            DimseFault::TooLong => Ok(Told::Fault),
        },
    }
}

/// A whole message in a context: a store with what its data set was read as in the context's
/// syntax, or another command.
fn tell_message(
    alloc: Global,
    pair: &Pair,
    syntax: Option<Syntax>,
    heard: HeardMessage,
) -> Result<Told, AllocError>
    requires fits { CommandFits heard.message.command }
    requires names { NamesSyntax pair.now.syntax syntax }
    requires scan { HasScan syntax heard }
    ensures tells { IfOk result (λ told.
        SaysOf pair.now heard.message.id heard.message.body heard.message.command told) }
    ensures fits { IfOk result ToldFits }
{
    let HeardMessage { message, scan } = heard;
    let of = pair.class.clone()?;
    let context = message.id;
    let command = message.command;
    let Some(body) = message.body else {
        return Ok(Told::Whole {
            context,
            of,
            command,
        });
    };
    match command {
        Command::StoreRq {
            id,
            class,
            instance,
        } => {
            let found = find(alloc, syntax, body, scan)?;
            Ok(Told::Store {
                context,
                of,
                id,
                class,
                instance,
                found,
            })
        }
        command => Ok(Told::Whole {
            context,
            of,
            command,
        }),
    }
}

/// What an acceptance agrees on.
fn tell_acceptance(alloc: Global, ac: AssociateAc, core: &Core) -> Told
    requires { state_at core.now ≡ Sta5 }
    ensures tells { TellsTo core.now (Input.Acceptance ac) result core.now }
    ensures fits { ToldFits result }
{
    let Some(rq) = &core.proposed else {
        return Told::Plain(Input::Acceptance(ac));
    };
    match conclude(alloc, rq, &ac) {
        Ok(agreed) => Told::Agreement(Ok(Negotiated::new(agreed))),
        Err(why) => Told::Agreement(Err(why)),
    }
}
