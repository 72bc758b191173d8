//! Lines, fields and what is written in one field.
ghost use Rattle.std.specs.Prelude.{◌≡◌, ◌↔◌, IfOk, IsTrue, MatchOption, map};
ghost use Rattle.std.specs.Prelude.{Result, Ok};
ghost use Rattle.hex.specs.Hex.{decode_of};
ghost use Rattle.dr_base.specs.declared.syntax.Syntax.{Syntax as SyntaxValue};
ghost use Rattle.dr_cert_text.specs.Cuts.{cuts};
ghost use Rattle.dr_world_script.specs.Scripts.{foreign_spelled};
ghost use Rattle.dr_world_script.specs.Scripts.{side_word, spelled, syntax_letter};
ghost use Rattle.dr_world_script.specs.Scripts.{DecodesBody, adopt_word, bytes_word};
ghost use Rattle.dr_world_script.specs.Scripts.{ReadsStatus};
ghost use Rattle.dr_world_script.specs.declared.foreign.ForeignWord.{ForeignWord as Called};
ghost use Rattle.dr_world_script.specs.declared.step.Side.{Side as SideValue};
ghost use Rattle.dr_world_script.specs.declared.step.Word.{Word as WordValue};

use crate::fault::LineFault;
use crate::foreign::ForeignWord;
use crate::step::{Side, Word};
use dr_base::{Octets, Syntax};
use dr_cert_text::split_at_byte;
use hex::FromHexError;
use std::alloc::{AllocError, Global};

/// The parts of a text between its marks, in order; a text without the mark is one part.
pub fn parts_of<'a>(alloc: Global, text: &'a [u8], mark: u8) -> Result<Vec<&'a [u8]>, AllocError>
    ensures { IfOk result (λ parts. map (λ part. part.now) parts.items ≡ cuts mark text.now) }
{
    let mut parts = Vec::new(alloc);
    let mut rest = text;
    while let Some((part, behind)) = split_at_byte(rest, mark) {
        parts.push(part)?;
        rest = behind;
    }
    parts.push(rest)?;
    Ok(parts)
}

/// Whether the word is that of a change of plan.
pub fn is_adopt(field: &[u8]) -> bool
    ensures { IsTrue result ↔ (adopt_word ≡ field.now) }
{
    match field {
        b"adopt" => true,
        _ => false,
    }
}

/// Whether the word is that of what another product writes.
pub fn is_bytes(field: &[u8]) -> bool
    ensures { IsTrue result ↔ (bytes_word ≡ field.now) }
{
    match field {
        b"bytes" => true,
        _ => false,
    }
}

/// The word of what concerns other makers' products that is spelled so.
pub fn read_foreign_word(field: &[u8]) -> Option<ForeignWord>
    ensures { MatchOption result
        ((word : Called) → foreign_spelled word ≡ field.now → ⊥)
        (λ word. foreign_spelled word ≡ field.now) }
{
    match field {
        b"foreign" => Some(ForeignWord::Node),
        b"store" => Some(ForeignWord::Store),
        b"answer" => Some(ForeignWord::Answer),
        _ => None,
    }
}

/// The word of a step that is spelled so.
pub fn read_word(field: &[u8]) -> Option<Word>
    ensures { MatchOption result ((word : WordValue) → spelled word ≡ field.now → ⊥)
        (λ word. spelled word ≡ field.now) }
{
    match field {
        b"submit" => Some(Word::Submit),
        b"open" => Some(Word::Open),
        b"away" => Some(Word::Away),
        b"push" => Some(Word::Push),
        b"move" => Some(Word::Move),
        b"abort" => Some(Word::Abort),
        b"release" => Some(Word::Release),
        b"close" => Some(Word::Close),
        b"late" => Some(Word::Late),
        b"restart" => Some(Word::Restart),
        b"requeue" => Some(Word::Requeue),
        b"drop" => Some(Word::Drop),
        b"forget" => Some(Word::Forget),
        b"tick" => Some(Word::Tick),
        b"refuse" => Some(Word::Refuse),
        _ => None,
    }
}

/// The end of a link that is named so.
pub fn read_side(field: &[u8]) -> Option<Side>
    ensures { MatchOption result ((side : SideValue) → side_word side ≡ field.now → ⊥)
        (λ side. side_word side ≡ field.now) }
{
    match field {
        b"requestor" => Some(Side::Requestor),
        b"acceptor" => Some(Side::Acceptor),
        _ => None,
    }
}

/// The transfer syntax with this letter.
pub fn read_syntax(field: &[u8]) -> Option<Syntax>
    ensures { MatchOption result ((syntax : SyntaxValue) → syntax_letter syntax ≡ field.now → ⊥)
        (λ syntax. syntax_letter syntax ≡ field.now) }
{
    match field {
        b"I" => Some(Syntax::Implicit),
        b"E" => Some(Syntax::Explicit),
        _ => None,
    }
}

/// The bytes that are written so in hex.
pub fn read_bytes(alloc: Global, field: &[u8]) -> Result<Octets, LineFault>
    ensures { DecodesBody field.now result }
{
    match hex::decode(alloc, field) {
        Ok(bytes) => Ok(Octets::from_vec(bytes)),
        Err(FromHexError::OutOfMemory) => Err(LineFault::Memory),
        Err(_) => Err(LineFault::NoStep),
    }
}

/// The status that is written so: four hex digits of either case.
pub fn read_status(alloc: Global, field: &[u8]) -> Result<u16, LineFault>
    ensures { ReadsStatus field.now result }
{
    let bytes = match read_bytes(alloc, field) {
        Ok(bytes) => bytes,
        Err(fault) => return Err(fault),
    };
    match bytes.as_bytes() {
        [high, low] => Ok(*high as u16 * 256 + *low as u16),
        _ => Err(LineFault::NoStep),
    }
}
