//! What an end writes: the spellings of PDUs, and messages in fragments (PS3.8 annex E).
ghost use Rattle.std.specs.Prelude.{◌≡◌, ◌∷◌, [], IfOk, true};
ghost use Rattle.dr_dimse.specs.Written.{CommandFits as IsFit};
ghost use Rattle.dr_pdu.specs.Written.{Fits};
ghost use Rattle.dr_pdu.specs.declared.pdu.Pdu.TheVariants as pdu;
ghost use Rattle.dr_session.specs.Messages.{command_pdus};
ghost use Rattle.dr_session.specs.Reactions.{write, store_pdus, abort_pdu, can_be_named};

use crate::ends::LinkAction;
use crate::negotiated::Negotiated;
use dr_base::Text;
use dr_dimse::{Command, write_command};
use dr_ledger::Job;
use dr_nego::{FragmentKind, put_fragments};
use dr_pdu::{Abort, AssociateAc, AssociateRj, Pdu, encode};
use std::alloc::{AllocError, Global};

/// One PDU.
pub fn write_pdu(alloc: Global, pdu: &Pdu) -> Result<LinkAction, AllocError>
    requires { Fits pdu.now }
    ensures { IfOk result (λ a. a ≡ write (pdu.now ∷ [])) }
{
    let bytes = encode(alloc, pdu)?;
    Ok(LinkAction::Write(Text::from_vec(bytes)))
}

/// An A-ABORT (PS3.8 9.3.8).
pub fn write_abort(alloc: Global, source: u8, reason: u8) -> Result<LinkAction, AllocError>
    ensures { IfOk result (λ a. a ≡ write (abort_pdu source reason ∷ [])) }
{
    write_pdu(alloc, &Pdu::Abort(Abort { source, reason }))
}

/// An A-ASSOCIATE-AC (PS3.8 9.3.3).
pub fn write_acceptance(alloc: Global, ac: AssociateAc) -> Result<LinkAction, AllocError>
    requires { Fits (pdu.AssociateAc ac) }
    ensures { IfOk result (λ a. a ≡ write (pdu.AssociateAc ac ∷ [])) }
{
    write_pdu(alloc, &Pdu::AssociateAc(ac))
}

/// An A-ASSOCIATE-RJ (PS3.8 9.3.4).
pub fn write_rejection(alloc: Global, rejection: AssociateRj) -> Result<LinkAction, AllocError>
    ensures { IfOk result (λ a. a ≡ write (pdu.AssociateRj rejection ∷ [])) }
{
    write_pdu(alloc, &Pdu::AssociateRj(rejection))
}

/// An A-RELEASE-RQ (PS3.8 9.3.6).
pub fn write_release_request(alloc: Global) -> Result<LinkAction, AllocError>
    ensures { IfOk result (λ a. a ≡ write (pdu.ReleaseRq ∷ [])) }
{
    write_pdu(alloc, &Pdu::ReleaseRq)
}

/// An A-RELEASE-RP (PS3.8 9.3.7).
pub fn write_release_answer(alloc: Global) -> Result<LinkAction, AllocError>
    ensures { IfOk result (λ a. a ≡ write (pdu.ReleaseRp ∷ [])) }
{
    write_pdu(alloc, &Pdu::ReleaseRp)
}

/// A command in a context, in fragments within the other side's limit.
pub fn write_response(
    alloc: Global,
    terms: &Negotiated,
    context: u8,
    command: &Command,
) -> Result<LinkAction, AllocError>
    requires { IsFit command.now }
    ensures { IfOk result (λ a. a ≡ write (command_pdus terms.now.limit context command.now)) }
{
    let text = write_command(alloc, command)?;
    let agreed = terms.as_agreed();
    let mut out = Vec::new(alloc);
    put_fragments(&mut out, agreed, context, FragmentKind::Command, &text)?;
    Ok(LinkAction::Write(Text::from_vec(out)))
}

/// A C-STORE-RQ with its data set.
pub fn write_store(
    alloc: Global,
    terms: &Negotiated,
    context: u8,
    id: u16,
    job: &Job,
) -> Result<LinkAction, AllocError>
    requires { can_be_named job.now ≡ true }
    ensures { IfOk result (λ a. a ≡ write (store_pdus terms.now context id job.now)) }
{
    let command = Command::StoreRq {
        id,
        class: job.key.class.clone()?,
        instance: job.uid.clone()?,
    };
    let text = write_command(alloc, &command)?;
    let agreed = terms.as_agreed();
    let mut out = Vec::new(alloc);
    put_fragments(&mut out, agreed, context, FragmentKind::Command, &text)?;
    put_fragments(
        &mut out,
        agreed,
        context,
        FragmentKind::DataSet,
        job.body.as_bytes(),
    )?;
    Ok(LinkAction::Write(Text::from_vec(out)))
}
