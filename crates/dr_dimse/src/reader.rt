//! The command of a text.
ghost use Rattle.std.specs.Prelude.{◌≡◌, ◌≢◌, ◌<◌, ◌≤◌, IsTrue, ◌↔◌, IfOk};
ghost use Rattle.dr_dimse.specs.Commands.{ReadsCommand, SayCommand, text_at};
ghost use Rattle.dr_dimse.specs.Reads.{Reads, IsOf, elements};

use crate::command::Command;
use crate::elements::{Element, are_numbers, elements_of, first, number_of};
use crate::fault::DimseFault;
use dr_base::Text;
use dr_base::padding::unpadded;
use dr_base::uid::is_uid;
use std::alloc::{AllocError, Global};

/// C-CANCEL-RQ, which alone has neither id nor status.
const CANCEL: u16 = 0x0FFF;

/// The data set type that says that no data set follows.
const NO_DATA_SET: u16 = 0x0101;

/// The command that a text spells (PS3.7 sections 6.3.1 and 9.3, annex E): elements in any order,
/// of which unknown ones are skipped and the first of a tag counts. The group length isn't tested.
///
/// `BadCommand` exactly where the text spells none; `Memory` last.
pub fn read_command(alloc: Global, text: &[u8]) -> Result<Command, DimseFault>
    ensures { ReadsCommand text.now result }
{
    let found = elements_of(alloc, text)?;
    if !are_numbers(&found) {
        return Err(DimseFault::BadCommand);
    }
    let command = command_of(alloc, &found)?;
    Ok(command)
}

/// The command that the elements say.
fn command_of(alloc: Global, found: &[Element<'_>]) -> Result<Command, DimseFault>
    ensures { Reads (λ c. c) result (SayCommand (elements found.now)) }
{
    let Some(field) = number_of(found, 0x0100) else {
        return Err(DimseFault::BadCommand);
    };
    let Some(kind) = number_of(found, 0x0800) else {
        return Err(DimseFault::BadCommand);
    };
    let command = command_with(alloc, found, field, kind != NO_DATA_SET)?;
    Ok(command)
}

fn command_with(
    alloc: Global,
    found: &[Element<'_>],
    field: u16,
    has_data: bool,
) -> Result<Command, DimseFault>
    ensures { Reads (λ c. c) result (IsOf (elements found.now) field has_data) }
{
    if field == CANCEL {
        return Ok(Command::Other {
            field,
            id: None,
            status: None,
            has_data,
        });
    }
    if field < 0x8000 {
        return request_of(alloc, found, field, has_data);
    }
    answer_of(alloc, found, field, has_data)
}

/// A request but a cancel.
fn request_of(
    alloc: Global,
    found: &[Element<'_>],
    field: u16,
    has_data: bool,
) -> Result<Command, DimseFault>
    requires request { field < 0x8000 }
    requires other { field ≢ 0x0FFF }
    ensures { Reads (λ c. c) result (IsOf (elements found.now) field has_data) }
{
    let Some(id) = number_of(found, 0x0110) else {
        return Err(DimseFault::BadCommand);
    };
    if field == 0x0001 {
        if !has_data {
            return Err(DimseFault::BadCommand);
        }
        let class = text_of(alloc, found, 0x0002)?;
        let instance = text_of(alloc, found, 0x1000)?;
        if !is_uid(class.as_bytes()) {
            return Err(DimseFault::BadCommand);
        }
        if !is_uid(instance.as_bytes()) {
            return Err(DimseFault::BadCommand);
        }
        return Ok(Command::StoreRq {
            id,
            class,
            instance,
        });
    }
    if field == 0x0030 {
        let class = text_of(alloc, found, 0x0002)?;
        return Ok(Command::EchoRq {
            id,
            class,
            has_data,
        });
    }
    Ok(Command::Other {
        field,
        id: Some(id),
        status: None,
        has_data,
    })
}

fn answer_of(
    alloc: Global,
    found: &[Element<'_>],
    field: u16,
    has_data: bool,
) -> Result<Command, DimseFault>
    requires { 0x8000 ≤ field }
    ensures { Reads (λ c. c) result (IsOf (elements found.now) field has_data) }
{
    let Some(to) = number_of(found, 0x0120) else {
        return Err(DimseFault::BadCommand);
    };
    let Some(status) = number_of(found, 0x0900) else {
        return Err(DimseFault::BadCommand);
    };
    if field == 0x8001 {
        let class = text_of(alloc, found, 0x0002)?;
        let instance = text_of(alloc, found, 0x1000)?;
        return Ok(Command::StoreRsp {
            to,
            status,
            class,
            instance,
            has_data,
        });
    }
    if field == 0x8030 {
        let class = text_of(alloc, found, 0x0002)?;
        return Ok(Command::EchoRsp {
            to,
            status,
            class,
            has_data,
        });
    }
    Ok(Command::Other {
        field,
        id: Some(to),
        status: Some(status),
        has_data,
    })
}

/// The text of the first element of that number, without its padding; empty where there is none.
fn text_of(alloc: Global, found: &[Element<'_>], number: u16) -> Result<Text, AllocError>
    ensures { IfOk result (λ text. text ≡ text_at number (elements found.now)) }
{
    let Some(value) = first(found, number) else {
        return Ok(Text::empty(alloc));
    };
    let text = Text::copy_of(alloc, unpadded(value))?;
    Ok(text)
}
