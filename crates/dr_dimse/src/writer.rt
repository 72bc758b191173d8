//! The text of a command.
ghost use Rattle.std.specs.Prelude.{◌≡◌, ◌∷◌, ◌++◌, ◌^◌, ◌<◌, ◌≤◌, length, nat_le, if◌then◌else◌};
ghost use Rattle.std.specs.Prelude.{IsTrue, ◌↔◌, IfOk, OnOk, OnErr};
ghost use Rattle.std.specs.Int.{w16, w32, to_le_bytes};
ghost use Rattle.dr_dimse.specs.Commands.{element_text, HasNoName};
ghost use Rattle.dr_dimse.specs.declared.command.Command.TheVariants.{StoreRq, StoreRsp, EchoRq};
ghost use Rattle.dr_dimse.specs.declared.command.Command.TheVariants.{EchoRsp, Other};
ghost use Rattle.dr_dimse.specs.Written.{number_element, text_element, data_element, if_some};
ghost use Rattle.dr_dimse.specs.Written.{elements_of, element_texts, written, CommandFits};
ghost use Rattle.dr_dimse.specs.Written.{FieldFits};
ghost use Rattle.dr_dimse.specs.Written.{IsText};
ghost use Rattle.dr_base.specs.Texts.{Begins};

use crate::assembly::GREATEST_COMMAND;
use crate::command::Command;
use dr_base::Text;
use dr_base::padding::unpadded;
use dr_base::uid::is_uid;
use std::alloc::{AllocError, Global};

/// The spelling of a command: the group length, and then its elements in the order of their tags,
/// texts padded by one NUL to even length.
pub fn write_command(alloc: Global, command: &Command) -> Result<Vec<u8>, AllocError>
    requires { CommandFits command.now }
    ensures { IfOk result (λ bytes. bytes.items ≡ written command.now) }
{
    let body = elements_text(alloc, command)?;
    let mut out = Vec::with_capacity(alloc, body.len() + 12)?;
    put_element(&mut out, 0x0000, &(body.len() as u32).to_le_bytes())?;
    out.extend_from_slice(&body)?;
    Ok(out)
}

/// The elements behind the group length.
fn elements_text(alloc: Global, command: &Command) -> Result<Vec<u8>, AllocError>
    requires { CommandFits command.now }
    ensures { IfOk result (λ bytes. bytes.items ≡ element_texts (elements_of command.now)) }
{
    match command {
        Command::StoreRq {
            id,
            class,
            instance,
        } => store_request(alloc, *id, class, instance),
        Command::StoreRsp {
            to,
            status,
            class,
            instance,
            has_data,
        } => store_answer(alloc, *to, *status, class, instance, *has_data),
        Command::EchoRq {
            id,
            class,
            has_data,
        } => echo_request(alloc, *id, class, *has_data),
        Command::EchoRsp {
            to,
            status,
            class,
            has_data,
        } => echo_answer(alloc, *to, *status, class, *has_data),
        Command::Other {
            field,
            id,
            status,
            has_data,
        } => other_elements(alloc, *field, *id, *status, *has_data),
    }
}

/// The elements of a C-STORE-RQ.
fn store_request(
    alloc: Global,
    id: u16,
    class: &Text,
    instance: &Text,
) -> Result<Vec<u8>, AllocError>
    requires class { length class.now ≤ 16384 }
    requires instance { length instance.now ≤ 16384 }
    ensures { IfOk result (λ bytes.
        bytes.items ≡ element_texts (elements_of (StoreRq id class.now instance.now))) }
{
    let mut out = Vec::new(alloc);
    put_text(&mut out, 0x0002, class)?;
    put_number(&mut out, 0x0100, 0x0001)?;
    put_number(&mut out, 0x0110, id)?;
    put_number(&mut out, 0x0700, 0)?;
    put_data(&mut out, true)?;
    put_text(&mut out, 0x1000, instance)?;
    Ok(out)
}

/// The elements of a C-STORE-RSP.
fn store_answer(
    alloc: Global,
    to: u16,
    status: u16,
    class: &Text,
    instance: &Text,
    has_data: bool,
) -> Result<Vec<u8>, AllocError>
    requires class { length class.now ≤ 16384 }
    requires instance { length instance.now ≤ 16384 }
    ensures { IfOk result (λ bytes. bytes.items
        ≡ element_texts (elements_of (StoreRsp to status class.now instance.now has_data))) }
{
    let mut out = Vec::new(alloc);
    put_text(&mut out, 0x0002, class)?;
    put_number(&mut out, 0x0100, 0x8001)?;
    put_number(&mut out, 0x0120, to)?;
    put_data(&mut out, has_data)?;
    put_number(&mut out, 0x0900, status)?;
    put_text(&mut out, 0x1000, instance)?;
    Ok(out)
}

/// The elements of a C-ECHO-RQ.
fn echo_request(alloc: Global, id: u16, class: &Text, has_data: bool) -> Result<Vec<u8>, AllocError>
    requires { length class.now ≤ 16384 }
    ensures { IfOk result (λ bytes.
        bytes.items ≡ element_texts (elements_of (EchoRq id class.now has_data))) }
{
    let mut out = Vec::new(alloc);
    put_text(&mut out, 0x0002, class)?;
    put_number(&mut out, 0x0100, 0x0030)?;
    put_number(&mut out, 0x0110, id)?;
    put_data(&mut out, has_data)?;
    Ok(out)
}

/// The elements of a C-ECHO-RSP.
fn echo_answer(
    alloc: Global,
    to: u16,
    status: u16,
    class: &Text,
    has_data: bool,
) -> Result<Vec<u8>, AllocError>
    requires { length class.now ≤ 16384 }
    ensures { IfOk result (λ bytes.
        bytes.items ≡ element_texts (elements_of (EchoRsp to status class.now has_data))) }
{
    let mut out = Vec::new(alloc);
    put_text(&mut out, 0x0002, class)?;
    put_number(&mut out, 0x0100, 0x8030)?;
    put_number(&mut out, 0x0120, to)?;
    put_data(&mut out, has_data)?;
    put_number(&mut out, 0x0900, status)?;
    Ok(out)
}

/// The elements of any other command.
fn other_elements(
    alloc: Global,
    field: u16,
    id: Option<u16>,
    status: Option<u16>,
    has_data: bool,
) -> Result<Vec<u8>, AllocError>
    ensures { IfOk result (λ bytes.
        bytes.items ≡ element_texts (elements_of (Other field id status has_data))) }
{
    let mut out = Vec::new(alloc);
    put_number(&mut out, 0x0100, field)?;
    put_if_some(&mut out, id_number(field), id)?;
    put_data(&mut out, has_data)?;
    put_if_some(&mut out, 0x0900, status)?;
    Ok(out)
}

/// The number of the element that has the id: that of the message, or of the one that it answers.
fn id_number(field: u16) -> u16
    ensures { result ≡ (if nat_le 0x8000 field then 0x0120 else 0x0110) }
{
    if field >= 0x8000 { 0x0120 } else { 0x0110 }
}

fn put_if_some(out: &mut Vec<u8>, number: u16, n: Option<u16>) -> Result<(), AllocError>
    ensures ok { OnOk result
        (out.new.items ≡ out.old.items ++ element_texts (if_some number n)) }
    ensures err { OnErr result (Begins out.old.items out.new.items) }
{
    match n {
        Some(n) => put_number(out, number, n),
        None => Ok(()),
    }
}

fn put_data(out: &mut Vec<u8>, has_data: bool) -> Result<(), AllocError>
    ensures ok { OnOk result
        (out.new.items ≡ out.old.items ++ element_text (data_element has_data)) }
    ensures err { OnErr result (Begins out.old.items out.new.items) }
{
    put_number(out, 0x0800, if has_data { 0x0001 } else { 0x0101 })
}

fn put_number(out: &mut Vec<u8>, number: u16, n: u16) -> Result<(), AllocError>
    ensures ok { OnOk result
        (out.new.items ≡ out.old.items ++ element_text (number_element number n)) }
    ensures err { OnErr result (Begins out.old.items out.new.items) }
{
    put_element(out, number, &n.to_le_bytes())
}

/// A text, padded to even length.
fn put_text(out: &mut Vec<u8>, number: u16, text: &Text) -> Result<(), AllocError>
    requires { length text.now ≤ 16384 }
    ensures ok { OnOk result
        (out.new.items ≡ out.old.items ++ element_text (text_element number text.now)) }
    ensures err { OnErr result (Begins out.old.items out.new.items) }
{
    if text.len() % 2 == 0 {
        return put_element(out, number, text.as_bytes());
    }
    put_header(out, number, text.len() as u32 + 1)?;
    out.extend_from_slice(text.as_bytes())?;
    out.push(0)?;
    Ok(())
}

fn put_element(out: &mut Vec<u8>, number: u16, value: &[u8]) -> Result<(), AllocError>
    requires { length value.now < 2 ^ 32 }
    ensures ok { OnOk result
        (out.new.items
        ≡ out.old.items ++ element_text (record { number = number; value = value.now })) }
    ensures err { OnErr result (Begins out.old.items out.new.items) }
{
    put_header(out, number, value.len() as u32)?;
    out.extend_from_slice(value)?;
    Ok(())
}

/// The tag and the length in front of a value.
fn put_header(out: &mut Vec<u8>, number: u16, len: u32) -> Result<(), AllocError>
    ensures ok { OnOk result
        (out.new.items ≡ out.old.items ++ 0 ∷ 0 ∷ (to_le_bytes w16 number ++ to_le_bytes w32 len)) }
    ensures err { OnErr result (Begins out.old.items out.new.items) }
{
    out.extend_from_slice(&[0, 0])?;
    out.extend_from_slice(&number.to_le_bytes())?;
    out.extend_from_slice(&len.to_le_bytes())?;
    Ok(())
}

/// Whether a command can be written so that it is read again: its texts are without the padding
/// that reading drops, and have at most 16,384 bytes; those of a C-STORE-RQ are UIDs; another
/// command has no field of a C-STORE or C-ECHO, and the id and the status that its field needs.
pub fn fits(command: &Command) -> bool
    ensures { IsTrue result ↔ CommandFits command.now }
{
    match command {
        Command::StoreRq {
            id,
            class,
            instance,
        } => {
            let _id = *id; // that it fits two bytes is known of a value that is read
            is_uid(class.as_bytes()) && is_uid(instance.as_bytes())
        }
        Command::StoreRsp {
            to,
            status,
            class,
            instance,
            ..
        } => {
            let _numbers = (*to, *status);
            is_text(class) && is_text(instance)
        }
        Command::EchoRq { id, class, .. } => {
            let _id = *id;
            is_text(class)
        }
        Command::EchoRsp {
            to,
            status,
            class,
            ..
        } => {
            let _numbers = (*to, *status);
            is_text(class)
        }
        Command::Other {
            field,
            id,
            status,
            ..
        } => has_no_name(*field) && field_fits(*field, *id, *status),
    }
}

fn has_no_name(field: u16) -> bool
    ensures { IsTrue result ↔ HasNoName field }
{
    field != 0x0001 && field != 0x8001 && field != 0x0030 && field != 0x8030
}

fn field_fits(field: u16, id: Option<u16>, status: Option<u16>) -> bool
    ensures { IsTrue result ↔ FieldFits field id status }
{
    match id {
        None => field == 0x0FFF && status.is_none(),
        Some(_) => match status {
            None => field != 0x0FFF && field < 0x8000,
            Some(_) => field >= 0x8000,
        },
    }
}

/// Whether a text is read as it was written.
fn is_text(text: &Text) -> bool
    ensures { IsTrue result ↔ IsText text.now }
{
    unpadded(text.as_bytes()) == text.as_bytes() && text.len() <= GREATEST_COMMAND
}
