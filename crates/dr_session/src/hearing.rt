//! What an end does with the bytes that it hears, however they are cut.
ghost use Rattle.std.specs.Prelude.{◌≡◌, ◌∷◌, ◌++◌, [], ◌≤◌, ◌^◌, IfOk, OnErr, map};
ghost use Rattle.std.specs.List.{AllByRecursion, flat_map};
ghost use Rattle.dr_session.specs.Fits.{InputFits, PduFits};
ghost use Rattle.dr_session.specs.Plays.{Reacts, Stops, Plays, PlaysMore, BreaksOff, PlaysBytes};
ghost use Rattle.dr_session.specs.Plays.{BreaksBytes, PlaysOn, BreaksOn, EndsThere, at_moment};
ghost use Rattle.dr_session.specs.Plays.{AreSeveral, FaultShows, inputs_of, input_of};

use crate::boxed::BoxedCore;
use crate::ends::{Effect, Input, LinkAction, Moment};
use crate::port::DeskPort;
use crate::react::{quiet, take_turn};
use crate::telling::tell;
use dr_base::Seq;
use dr_pdu::{Feeder, Pdu, PduFault, Pdv};
use std::alloc::{AllocError, Global};

/// One input: what it comes to, and what is done.
pub fn react<P: DeskPort>(
    alloc: Global,
    input: Input,
    core: BoxedCore,
    port: &mut P,
    at: Moment,
) -> Result<Effect, AllocError>
    requires now { at.now ≤ 2 ^ 62 }
    requires fits { InputFits input }
    ensures done { IfOk result (λ e. Reacts P.step core (at_moment at input) port.old e port.new) }
    ensures broke { OnErr result (Stops P.step core (at_moment at input) port.old port.new) }
{
    let (told, core) = tell(alloc, input, core)?;
    take_turn(alloc, told, core, port, at)
}

/// What is written, behind what was written before. It takes memory only where there are both.
fn join(first: Seq<LinkAction>, more: Seq<LinkAction>) -> Result<Seq<LinkAction>, AllocError>
    ensures joined { IfOk result (λ all. all ≡ first ++ more) }
    ensures wants { OnErr result (AreSeveral (first ++ more)) }
{
    if first.is_empty() {
        return Ok(more);
    }
    if more.is_empty() {
        return Ok(first);
    }
    let all = append(first.into_vec(), more.into_vec())?;
    Ok(all)
}

/// Some actions, and behind them the others.
fn append(first: Vec<LinkAction>, more: Vec<LinkAction>) -> Result<Seq<LinkAction>, AllocError>
    ensures { IfOk result (λ all. all ≡ first.items ++ more.items) }
{
    let mut all = first;
    let mut more = more;
    all.append(&mut more)?;
    Ok(Seq::from_vec(all))
}

/// One input, as a list.
fn hear_one<P: DeskPort>(
    alloc: Global,
    input: Input,
    core: BoxedCore,
    port: &mut P,
    at: Moment,
) -> Result<Effect, AllocError>
    requires now { at.now ≤ 2 ^ 62 }
    requires fits { InputFits input }
    ensures done { IfOk result (λ e.
        Plays P.step core (at_moment at input ∷ []) port.old e.acts e.core port.new) }
    ensures broke { OnErr result
        (BreaksOff P.step [] core (at_moment at input ∷ []) port.old port.new) }
{
    let done = react(alloc, input, core, port, at)?;
    Ok(done)
}

/// The values of a P-DATA-TF, one after the other.
fn hear_values<P: DeskPort>(
    alloc: Global,
    pdvs: Vec<Pdv>,
    core: BoxedCore,
    port: &mut P,
    at: Moment,
) -> Result<Effect, AllocError>
    requires { at.now ≤ 2 ^ 62 }
    ensures done { IfOk result (λ e. Plays P.step core
        (map (at_moment at) (map Input.Value pdvs.items)) port.old e.acts e.core port.new) }
    ensures broke { OnErr result
        (BreaksOff P.step [] core (map (at_moment at) (map Input.Value pdvs.items)) port.old
        port.new) }
{
    let mut core = core;
    let mut acts = Seq::new(alloc);
    for pdv in pdvs {
        let effect = react(alloc, Input::Value(pdv), core, port, at)?;
        core = effect.core;
        let joined = join(acts, effect.acts)?;
        acts = joined;
    }
    Ok(Effect { acts, core })
}

/// One PDU.
fn hear_pdu<P: DeskPort>(
    alloc: Global,
    pdu: Pdu,
    core: BoxedCore,
    port: &mut P,
    at: Moment,
) -> Result<Effect, AllocError>
    requires now { at.now ≤ 2 ^ 62 }
    requires fits { PduFits pdu }
    ensures done { IfOk result (λ e.
        Plays P.step core (map (at_moment at) (inputs_of pdu)) port.old e.acts e.core port.new) }
    ensures broke { OnErr result
        (BreaksOff P.step [] core (map (at_moment at) (inputs_of pdu)) port.old port.new) }
{
    match pdu {
        Pdu::AssociateRq(rq) => hear_one(alloc, Input::Request(rq), core, port, at),
        Pdu::AssociateAc(ac) => hear_one(alloc, Input::Acceptance(ac), core, port, at),
        Pdu::AssociateRj(rj) => hear_one(alloc, Input::Rejection(rj), core, port, at),
        Pdu::Transfer(pdvs) => {
            if pdvs.is_empty() {
                return hear_one(alloc, Input::NoValue, core, port, at);
            }
            hear_values(alloc, pdvs.into_vec(), core, port, at)
        }
        Pdu::ReleaseRq => hear_one(alloc, Input::ReleaseRq, core, port, at),
        Pdu::ReleaseRp => hear_one(alloc, Input::ReleaseRp, core, port, at),
        Pdu::Abort(abort) => hear_one(alloc, Input::Abort(abort), core, port, at),
    }
}

/// PDUs, one after the other.
fn hear_pdus<P: DeskPort>(
    alloc: Global,
    pdus: Vec<Pdu>,
    core: BoxedCore,
    port: &mut P,
    at: Moment,
) -> Result<Effect, AllocError>
    requires now { at.now ≤ 2 ^ 62 }
    requires fits { AllByRecursion PduFits pdus.items }
    ensures done { IfOk result (λ e. Plays P.step core
        (map (at_moment at) (flat_map inputs_of pdus.items)) port.old e.acts e.core port.new) }
    ensures broke { OnErr result
        (BreaksOff P.step [] core (map (at_moment at) (flat_map inputs_of pdus.items)) port.old
        port.new) }
{
    let mut core = core;
    let mut acts = Seq::new(alloc);
    for pdu in pdus {
        let effect = hear_pdu(alloc, pdu, core, port, at)?;
        core = effect.core;
        let joined = join(acts, effect.acts)?;
        acts = joined;
    }
    Ok(Effect { acts, core })
}

/// Why no more of a stream is read.
fn fault_input(fault: PduFault) -> Input
    ensures { result ≡ input_of fault }
{
    match fault {
        PduFault::UnknownType => Input::Unknown,
        _ => Input::Invalid,
    }
}

/// A piece of the bytes. A fault behind whole PDUs is met here too, so that cuts make no
/// difference.
pub fn hear<P: DeskPort>(
    alloc: Global,
    ear: &mut Feeder,
    core: BoxedCore,
    piece: &[u8],
    port: &mut P,
    at: Moment,
) -> Result<Effect, AllocError>
    requires { at.now ≤ 2 ^ 62 }
    ensures done { IfOk result (λ e.
        PlaysBytes P.step at ear.old core piece.now port.old ear.new e port.new) }
    ensures broke { OnErr result (BreaksBytes P.step at ear.old core piece.now port.old port.new) }
{
    match ear.feed(piece) {
        Ok(pdus) => {
            if pdus.is_empty() {
                return Ok(quiet(alloc, core));
            }
            hear_on(alloc, ear, pdus, core, port, at)
        }
        Err(fault) => match fault {
            PduFault::Memory => Err(AllocError),
            PduFault::Failed => Ok(quiet(alloc, core)),
            PduFault::More => unreachable!(),
            _ => hear_one(alloc, fault_input(fault), core, port, at),
        },
    }
}

/// Whole PDUs, and the fault that may stand behind them.
fn hear_on<P: DeskPort>(
    alloc: Global,
    ear: &mut Feeder,
    pdus: Seq<Pdu>,
    core: BoxedCore,
    port: &mut P,
    at: Moment,
) -> Result<Effect, AllocError>
    requires now { at.now ≤ 2 ^ 62 }
    requires fits { AllByRecursion PduFits pdus }
    requires longest { EndsThere ear.old }
    ensures done { IfOk result (λ e.
        PlaysOn P.step at ear.old pdus core port.old ear.new e port.new) }
    ensures broke { OnErr result (BreaksOn P.step at ear.old pdus core port.old port.new) }
{
    let last = last_fault(ear)?;
    let first = hear_pdus(alloc, pdus.into_vec(), core, port, at)?;
    match last {
        None => Ok(first),
        Some(fault) => hear_more(alloc, first, fault_input(fault), port, at),
    }
}

/// The fault behind all PDUs, if there is one. It is looked for before any PDU is heard, so that
/// want of memory here hides nothing that was done.
fn last_fault(ear: &mut Feeder) -> Result<Option<PduFault>, AllocError>
    requires { EndsThere ear.old }
    ensures { IfOk result (FaultShows ear.old ear.new) }
{
    match ear.feed(&[]) {
        Ok(_) => return Ok(None),
        Err(fault) => match fault {
            PduFault::Memory => return Err(AllocError),
            PduFault::Failed => unreachable!(),
            PduFault::More => unreachable!(),
            _ => return Ok(Some(fault)),
        },
    }
}

/// One more input, behind what was done.
fn hear_more<P: DeskPort>(
    alloc: Global,
    first: Effect,
    input: Input,
    port: &mut P,
    at: Moment,
) -> Result<Effect, AllocError>
    requires now { at.now ≤ 2 ^ 62 }
    requires fits { InputFits input }
    ensures done { IfOk result (λ e.
        PlaysMore P.step first (at_moment at input) port.old e port.new) }
    ensures broke { OnErr result
        (BreaksOff P.step first.acts first.core (at_moment at input ∷ []) port.old port.new) }
{
    let Effect { acts, core } = first;
    let last = hear_one(alloc, input, core, port, at)?;
    let core = last.core;
    let acts = join(acts, last.acts)?;
    Ok(Effect { acts, core })
}
