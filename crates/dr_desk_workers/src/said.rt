//! The status of a response (PS3.7 annex C), read out of what a session writes.
ghost use Rattle.std.specs.Prelude.{◌≡◌, ◌++◌, IfOk, OnOk, flat_map};
ghost use Rattle.dr_dimse.specs.Commands.{status_of as status_in};
ghost use Rattle.dr_desk_workers.specs.Said.{ComesOut, SaysStatus, TellsStatus, command_in};
ghost use Rattle.dr_desk_workers.specs.Said.{command_text, fragment_of};

use dr_base::Seq;
use dr_dimse::{Command, DimseFault, read_command};
use dr_pdu::{Feeder, Pdu, PduFault, Pdv};
use std::alloc::{AllocError, Global};

/// The PDUs that come out of bytes; none where what is in front is no PDU.
///
/// Errors: want of memory.
fn pdus_of(alloc: Global, bytes: &[u8]) -> Result<Seq<Pdu>, AllocError>
    ensures { IfOk result (ComesOut bytes.now) }
{
    let mut feeder = Feeder::new(alloc, 0);
    match feeder.feed(bytes) {
        Ok(pdus) => Ok(pdus),
        Err(fault) => match fault {
            PduFault::Memory => Err(AllocError),
            _ => Ok(Seq::from_vec(Vec::new(alloc))),
        },
    }
}

/// Adds what a value brings of a command.
fn put_value(text: &mut Vec<u8>, value: &Pdv) -> Result<(), AllocError>
    ensures { OnOk result (text.new.items ≡ text.old.items ++ fragment_of value.now) }
{
    if value.header % 2 == 1 {
        text.extend_from_slice(value.fragment.as_bytes())?;
    }
    Ok(())
}

/// Adds what values bring of a command.
fn put_values(text: &mut Vec<u8>, values: &[Pdv]) -> Result<(), AllocError>
    ensures { OnOk result (text.new.items ≡ text.old.items ++ flat_map fragment_of values.now) }
{
    for value in values {
        put_value(text, value)?;
    }
    Ok(())
}

/// Adds what a PDU brings of a command.
fn put_pdu(text: &mut Vec<u8>, pdu: &Pdu) -> Result<(), AllocError>
    ensures { OnOk result (text.new.items ≡ text.old.items ++ command_in pdu.now) }
{
    match pdu {
        Pdu::Transfer(values) => put_values(text, values.as_slice()),
        _ => Ok(()),
    }
}

/// What PDUs bring of a command.
///
/// Errors: want of memory.
fn command_of(alloc: Global, pdus: &[Pdu]) -> Result<Vec<u8>, AllocError>
    ensures { IfOk result (λ text. text.items ≡ command_text pdus.now) }
{
    let mut text = Vec::new(alloc);
    for pdu in pdus {
        put_pdu(&mut text, pdu)?;
    }
    Ok(text)
}

/// The status of a response; a request has none.
fn status_of(command: &Command) -> Option<u16>
    ensures { result ≡ status_in command.now }
{
    match command {
        Command::StoreRsp { status, .. } => Some(*status),
        Command::EchoRsp { status, .. } => Some(*status),
        Command::Other { status, .. } => *status,
        Command::StoreRq { .. } => None,
        Command::EchoRq { .. } => None,
    }
}

/// The status of the command that a text spells, if it spells one that has one.
///
/// Errors: want of memory.
fn status_told(alloc: Global, text: &[u8]) -> Result<Option<u16>, AllocError>
    ensures { IfOk result (TellsStatus text.now) }
{
    match read_command(alloc, text) {
        Ok(command) => Ok(status_of(&command)),
        Err(fault) => match fault {
            DimseFault::Memory => Err(AllocError),
            DimseFault::BadCommand => Ok(None),
            DimseFault::OutOfPlace => Ok(None),
            DimseFault::MixedContext => Ok(None),
            DimseFault::TooLong => Ok(None),
        },
    }
}

/// The status that bytes say; None where they are no response, as an answer to a request for an
/// association.
///
/// Errors: want of memory.
pub fn status_said(alloc: Global, bytes: &[u8]) -> Result<Option<u16>, AllocError>
    ensures { IfOk result (SaysStatus bytes.now) }
{
    let pdus = pdus_of(alloc, bytes)?;
    let text = command_of(alloc, pdus.as_slice())?;
    let status = status_told(alloc, text.as_slice())?;
    Ok(status)
}
