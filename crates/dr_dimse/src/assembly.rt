//! Messages out of presentation data values, one after the other.
ghost use Rattle.std.specs.Prelude.{◌≡◌, ◌%◌, ◌/◌, ◌==◌, true, false, IsTrue, ◌↔◌, OnOk, OnErr};
ghost use Rattle.dr_dimse.specs.Messages.{is_command as starts_command, is_last as ends};
ghost use Rattle.dr_dimse.specs.Stages.{so_far, text_held, shown_of, ReadsAwaited};
ghost use Rattle.dr_dimse.specs.Taking.{BeginsMessage, Idle, data_of, data_so_far, IsAwaited};
ghost use Rattle.dr_dimse.specs.Taking.{InPlace};
ghost use Rattle.dr_dimse.specs.Taking.{TakesValue, kept, let_go, wants_command};

use crate::command::Command;
use crate::fault::DimseFault;
use crate::message::{Awaited, Body, Message};
use crate::reader::read_command;
use dr_base::{Octets, Text};
use dr_pdu::Pdv;
use std::alloc::{AllocError, Global};
use std::marker::Model;
use std::mem;

/// The greatest length of a command, in bytes (16 KiB).
pub const GREATEST_COMMAND: usize = 16_384;

/// The greatest length of a data set whose bytes are kept (64 MiB).
const GREATEST_BODY: usize = 67_108_864;

/// Takes the data values of an association, and gives its messages.
#[derive(Drop)]
pub struct Assembly {
    alloc: Global,
    awaited: Awaited,
    under_way: UnderWay,
    /// The bytes of the command that is under way.
    text: Vec<u8>,
    /// The bytes of the data set that is under way.
    body: Vec<u8>,
    is_too_large: bool,
}

/// What is under way.
#[derive(Drop)]
enum UnderWay {
    Nothing,
    /// A command in that presentation context.
    ACommand(u8),
    /// The data set behind that command.
    ADataSet(u8, Command),
}

impl Model for Assembly {
    ghost use Rattle.dr_dimse.specs.Taking.{Assembling};
    ghost use Rattle.dr_dimse.specs.Stages.{stage_of, so_far};

    ghost Value = { Assembling };

    ghost view = { λ a. record {
      awaited = a.awaited;
      stage = stage_of a.under_way a.text.items (so_far a.is_too_large a.body.items);
    } };
}

impl Assembly {
    /// An assembly that has taken nothing; it takes no memory.
    pub fn new(alloc: Global, awaited: Awaited) -> Assembly
        ensures { result ≡ record { awaited = awaited; stage = Idle } }
    {
        Assembly {
            alloc,
            awaited,
            under_way: UnderWay::Nothing,
            text: Vec::new(alloc),
            body: Vec::new(alloc),
            is_too_large: false,
        }
    }

    /// Awaits other commands from now on. The test is made at a command's last fragment.
    pub fn set_awaited(&mut self, awaited: Awaited)
        ensures { self.new ≡ record { awaited = awaited; stage = self.old.stage } }
    {
        self.awaited = awaited;
    }

    /// Takes one more value, and gives the message that it ends. The bytes of a data set of more
    /// than 67,108,864 bytes are dropped, and its message has `TooLarge`.
    ///
    /// Of several faults the first counts: `MixedContext`, `OutOfPlace` by its kind, `TooLong` (a
    /// command of more than 16,384 bytes), `BadCommand`, `OutOfPlace` as the command isn't awaited.
    /// Where there is one, or `Memory`, the value isn't taken, and the assembly is as before.
    pub fn take(&mut self, pdv: Pdv) -> Result<Option<Message>, DimseFault>
        ensures awaited { self.new.awaited ≡ self.old.awaited }
        ensures takes { TakesValue self.old.awaited self.old.stage pdv result self.new.stage }
    {
        match &self.under_way {
            UnderWay::Nothing => {
                if !is_command(&pdv) {
                    return Err(DimseFault::OutOfPlace);
                }
            }
            UnderWay::ACommand(context) => {
                if pdv.id != *context {
                    return Err(DimseFault::MixedContext);
                }
                if !is_command(&pdv) {
                    return Err(DimseFault::OutOfPlace);
                }
            }
            UnderWay::ADataSet(id, _) => {
                if pdv.id != *id {
                    return Err(DimseFault::MixedContext);
                }
                if is_command(&pdv) {
                    return Err(DimseFault::OutOfPlace);
                }
            }
        }
        if is_command(&pdv) {
            return self.take_command(pdv);
        }
        self.take_data(pdv)
    }

    /// Lets the bytes of the data set that is under way go, if one is: its message has `TooLarge`.
    /// It frees their memory.
    pub fn let_data_go(&mut self)
        ensures { self.new
            ≡ record { awaited = self.old.awaited; stage = let_go self.old.stage } }
    {
        self.body = Vec::new(self.alloc);
        self.is_too_large = true;
    }

    /// The command whose data set is under way, and its presentation context: None between messages
    /// and within a command.
    pub fn data_of(&self) -> Option<(u8, &Command)>
        ensures { shown_of result ≡ data_of self.now.stage }
    {
        match &self.under_way {
            UnderWay::ADataSet(id, command) => Some((*id, command)),
            _ => None,
        }
    }

    /// The bytes of the data set that is under way, as far as they have come and are kept; none
    /// where there is no data set, or where it is too large.
    pub fn data_so_far(&self) -> &[u8]
        ensures { result.now ≡ data_so_far self.now.stage }
    {
        match &self.under_way {
            UnderWay::ADataSet(_, _) if !self.is_too_large => self.body.as_slice(),
            _ => &[],
        }
    }

    fn take_command(&mut self, pdv: Pdv) -> Result<Option<Message>, DimseFault>
        requires place { InPlace self.old.stage pdv }
        requires kind { wants_command self.old.stage ≡ true }
        ensures awaited { self.new.awaited ≡ self.old.awaited }
        ensures takes { TakesValue self.old.awaited self.old.stage pdv result self.new.stage }
    {
        clear_unused(&self.under_way, &mut self.text);
        let before = self.text.len();
        if before + pdv.fragment.len() > GREATEST_COMMAND {
            return Err(DimseFault::TooLong);
        }
        self.text.extend_from_slice(pdv.fragment.as_bytes())?;
        if !is_last(&pdv) {
            put(&mut self.under_way, UnderWay::ACommand(pdv.id));
            return Ok(None);
        }
        match awaited_command(self.alloc, self.awaited, &self.text) {
            Ok(command) => Ok(self.begin(pdv.id, command)),
            Err(fault) => {
                self.text.truncate(before);
                Err(fault)
            }
        }
    }

    /// A command is whole: it is a message, or waits for its data set.
    fn begin(&mut self, id: u8, command: Command) -> Option<Message>
        ensures awaited { self.new.awaited ≡ self.old.awaited }
        ensures begins { BeginsMessage id command result self.new.stage }
    {
        if !command.announces() {
            put(&mut self.under_way, UnderWay::Nothing);
            return Some(Message {
                id,
                command,
                body: None,
            });
        }
        self.body.clear();
        self.is_too_large = false;
        put(&mut self.under_way, UnderWay::ADataSet(id, command));
        None
    }

    fn take_data(&mut self, pdv: Pdv) -> Result<Option<Message>, DimseFault>
        requires place { InPlace self.old.stage pdv }
        requires kind { wants_command self.old.stage ≡ false }
        ensures awaited { self.new.awaited ≡ self.old.awaited }
        ensures takes { TakesValue self.old.awaited self.old.stage pdv result self.new.stage }
    {
        let ends = is_last(&pdv);
        keep(
            self.alloc,
            &mut self.body,
            &mut self.is_too_large,
            pdv.fragment,
        )?;
        if !ends {
            return Ok(None);
        }
        let bytes = mem::replace(&mut self.body, Vec::new(self.alloc));
        let body = body_with(self.is_too_large, bytes);
        match mem::replace(&mut self.under_way, UnderWay::Nothing) {
            UnderWay::ADataSet(id, command) => Ok(Some(Message {
                id,
                command,
                body: Some(body),
            })),
            _ => unreachable!(),
        }
    }
}

/// Drops what an earlier command left.
fn clear_unused(under_way: &UnderWay, text: &mut Vec<u8>)
    ensures { text.new.items ≡ text_held under_way.now text.old.items }
{
    match under_way {
        UnderWay::ACommand(_) => {}
        _ => text.clear(),
    }
}

/// Puts a value in the place of another one.
fn put(place: &mut UnderWay, value: UnderWay)
    ensures { place.new ≡ value }
{
    *place = value;
}

fn body_with(is_too_large: bool, bytes: Vec<u8>) -> Body
    ensures { result ≡ so_far is_too_large bytes.items }
{
    if is_too_large {
        return Body::TooLarge;
    }
    Body::Whole(Text::from_vec(bytes))
}

/// One more fragment of a data set. The bytes of the first one become the body, and aren't copied.
fn keep(
    alloc: Global,
    body: &mut Vec<u8>,
    is_too_large: &mut bool,
    fragment: Octets,
) -> Result<(), AllocError>
    ensures ok { OnOk result
        (so_far is_too_large.new body.new.items
        ≡ kept (so_far is_too_large.old body.old.items) fragment) }
    ensures err { OnErr result
        (so_far is_too_large.new body.new.items ≡ so_far is_too_large.old body.old.items) }
{
    if *is_too_large {
        return Ok(());
    }
    if body.len() + fragment.len() > GREATEST_BODY {
        *body = Vec::new(alloc);
        *is_too_large = true;
        return Ok(());
    }
    if body.is_empty() {
        *body = fragment.into_vec();
        return Ok(());
    }
    body.extend_from_slice(fragment.as_bytes())?;
    Ok(())
}

/// The command of a text, if it is awaited.
fn awaited_command(alloc: Global, awaited: Awaited, text: &[u8]) -> Result<Command, DimseFault>
    ensures { ReadsAwaited awaited text.now result }
{
    let command = read_command(alloc, text)?;
    if !is_awaited(awaited, &command) {
        return Err(DimseFault::OutOfPlace);
    }
    Ok(command)
}

fn is_awaited(awaited: Awaited, command: &Command) -> bool
    ensures { IsTrue result ↔ IsAwaited awaited command.now }
{
    match awaited {
        Awaited::Requests => command.field() < 0x8000,
        Awaited::AnswerTo(id) => match command.id() {
            Some(to) => command.field() >= 0x8000 && to == id,
            None => false,
        },
        Awaited::Nothing => false,
    }
}

/// The bits of the message control header (PS3.8 E.2).
fn is_command(pdv: &Pdv) -> bool
    ensures { result ≡ starts_command pdv.now }
{
    pdv.header % 2 == 1
}

fn is_last(pdv: &Pdv) -> bool
    ensures { result ≡ ends pdv.now }
{
    pdv.header / 2 % 2 == 1
}
