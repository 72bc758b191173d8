//! What stands behind a word.
ghost use Rattle.std.specs.Prelude.{◌≡◌, ◌∷◌, [], ℕ, map, MatchOption};
ghost use Rattle.dr_base.specs.Texts.{Text as TextValue};
ghost use Rattle.dr_world_script.specs.Scripts.{AreNumber, AreEnd, ReadsFields, ReadsLine};
ghost use Rattle.dr_world_script.specs.Scripts.{ReadsAdoption, ReadsParts, ReadsStep};
ghost use Rattle.dr_world_script.specs.Scripts.{ReadsForeign, ReadsForeignFields};
ghost use Rattle.dr_world_script.specs.Scripts.{ReadsWritten, TakesItem};
ghost use Rattle.dr_world_script.specs.declared.foreign.ForeignWord.TheVariants as foreign_words;
ghost use Rattle.dr_world_script.specs.declared.step.Side.{Side as SideValue};
ghost use Rattle.dr_world_script.specs.declared.step.Word.TheVariants as words;

use crate::act::Act;
use crate::fault::LineFault;
use crate::fields::{
    is_adopt, is_bytes, parts_of, read_bytes, read_foreign_word, read_side, read_status,
    read_syntax, read_word,
};
use crate::foreign::{Foreign, ForeignWord};
use crate::step::{Side, Step, Word};
use dr_base::fields::read_number;
use dr_base::{Octets, Syntax, Text};
use dr_ledger::{Item, ItemFault};
use std::alloc::Global;

const TAB: u8 = 9;

/// The one number that the fields are.
fn only_number(fields: &[&[u8]]) -> Option<u64>
    ensures { MatchOption result ((n : ℕ) → AreNumber n (map (λ f. f.now) fields.now) → ⊥)
        (λ n. AreNumber n (map (λ f. f.now) fields.now)) }
{
    match fields {
        [field] => read_number(field),
        _ => None,
    }
}

/// The one field that the fields are.
fn only_field<'a>(fields: &[&'a [u8]]) -> Option<&'a [u8]>
    ensures { MatchOption result ((f : TextValue) → map (λ f. f.now) fields.now ≡ f ∷ [] → ⊥)
        (λ f. map (λ f. f.now) fields.now ≡ f.now ∷ []) }
{
    match fields {
        [field] => Some(field),
        _ => None,
    }
}

/// The link and the end of it that the fields are.
fn end_of(fields: &[&[u8]]) -> Option<(u64, Side)>
    ensures { MatchOption result
        ((link : ℕ) (side : SideValue) → AreEnd link side (map (λ f. f.now) fields.now) → ⊥)
        (λ p. AreEnd p.0 p.1 (map (λ f. f.now) fields.now)) }
{
    let [first, second] = fields else {
        return None;
    };
    let link = read_number(first)?;
    let side = read_side(second)?;
    Some((link, side))
}

fn read_push(fields: &[&[u8]]) -> Result<Step, LineFault>
    ensures { ReadsFields words.Push (map (λ f. f.now) fields.now) result }
{
    match only_number(fields) {
        Some(link) => Ok(Step::Push { link }),
        None => Err(LineFault::NoStep),
    }
}

fn read_release(fields: &[&[u8]]) -> Result<Step, LineFault>
    ensures { ReadsFields words.Release (map (λ f. f.now) fields.now) result }
{
    match only_number(fields) {
        Some(link) => Ok(Step::Release { link }),
        None => Err(LineFault::NoStep),
    }
}

fn read_close(fields: &[&[u8]]) -> Result<Step, LineFault>
    ensures { ReadsFields words.Close (map (λ f. f.now) fields.now) result }
{
    match only_number(fields) {
        Some(link) => Ok(Step::Close { link }),
        None => Err(LineFault::NoStep),
    }
}

fn read_tick(fields: &[&[u8]]) -> Result<Step, LineFault>
    ensures { ReadsFields words.Tick (map (λ f. f.now) fields.now) result }
{
    match only_number(fields) {
        Some(milliseconds) => Ok(Step::Tick { milliseconds }),
        None => Err(LineFault::NoStep),
    }
}

fn read_abort(fields: &[&[u8]]) -> Result<Step, LineFault>
    ensures { ReadsFields words.Abort (map (λ f. f.now) fields.now) result }
{
    match end_of(fields) {
        Some((link, side)) => Ok(Step::Abort { link, side }),
        None => Err(LineFault::NoStep),
    }
}

fn read_late(fields: &[&[u8]]) -> Result<Step, LineFault>
    ensures { ReadsFields words.Late (map (λ f. f.now) fields.now) result }
{
    match end_of(fields) {
        Some((link, side)) => Ok(Step::Late { link, side }),
        None => Err(LineFault::NoStep),
    }
}

fn read_move(fields: &[&[u8]]) -> Result<Step, LineFault>
    ensures { ReadsFields words.Move (map (λ f. f.now) fields.now) result }
{
    let [first, second, third] = fields else {
        return Err(LineFault::NoStep);
    };
    let Some(link) = read_number(first) else {
        return Err(LineFault::NoStep);
    };
    let Some(reader) = read_side(second) else {
        return Err(LineFault::NoStep);
    };
    let Some(most) = read_number(third) else {
        return Err(LineFault::NoStep);
    };
    Ok(Step::Move { link, reader, most })
}

fn read_restart(alloc: Global, fields: &[&[u8]]) -> Result<Step, LineFault>
    ensures { ReadsFields words.Restart (map (λ f. f.now) fields.now) result }
{
    match only_field(fields) {
        Some(field) => {
            let node = Text::copy_of(alloc, field)?;
            Ok(Step::Restart { node })
        }
        None => Err(LineFault::NoStep),
    }
}

fn read_refuse(alloc: Global, fields: &[&[u8]]) -> Result<Step, LineFault>
    ensures { ReadsFields words.Refuse (map (λ f. f.now) fields.now) result }
{
    match only_field(fields) {
        Some(field) => {
            let node = Text::copy_of(alloc, field)?;
            Ok(Step::RefuseStore { node })
        }
        None => Err(LineFault::NoStep),
    }
}

fn read_open(alloc: Global, fields: &[&[u8]]) -> Result<Step, LineFault>
    ensures { ReadsFields words.Open (map (λ f. f.now) fields.now) result }
{
    let [first, second] = fields else {
        return Err(LineFault::NoStep);
    };
    let from = Text::copy_of(alloc, first)?;
    let to = Text::copy_of(alloc, second)?;
    Ok(Step::Open { from, to })
}

fn read_away(alloc: Global, fields: &[&[u8]]) -> Result<Step, LineFault>
    ensures { ReadsFields words.Away (map (λ f. f.now) fields.now) result }
{
    let [first, second] = fields else {
        return Err(LineFault::NoStep);
    };
    let from = Text::copy_of(alloc, first)?;
    let to = Text::copy_of(alloc, second)?;
    Ok(Step::Away { from, to })
}

fn read_requeue(alloc: Global, fields: &[&[u8]]) -> Result<Step, LineFault>
    ensures { ReadsFields words.Requeue (map (λ f. f.now) fields.now) result }
{
    let [first, second, third] = fields else {
        return Err(LineFault::NoStep);
    };
    let node = Text::copy_of(alloc, first)?;
    let uid = Text::copy_of(alloc, second)?;
    let dest = Text::copy_of(alloc, third)?;
    Ok(Step::Requeue { node, uid, dest })
}

fn read_drop(alloc: Global, fields: &[&[u8]]) -> Result<Step, LineFault>
    ensures { ReadsFields words.Drop (map (λ f. f.now) fields.now) result }
{
    let [first, second, third] = fields else {
        return Err(LineFault::NoStep);
    };
    let node = Text::copy_of(alloc, first)?;
    let uid = Text::copy_of(alloc, second)?;
    let dest = Text::copy_of(alloc, third)?;
    Ok(Step::Drop { node, uid, dest })
}

fn read_forget(alloc: Global, fields: &[&[u8]]) -> Result<Step, LineFault>
    ensures { ReadsFields words.Forget (map (λ f. f.now) fields.now) result }
{
    let [first, second] = fields else {
        return Err(LineFault::NoStep);
    };
    let node = Text::copy_of(alloc, first)?;
    let uid = Text::copy_of(alloc, second)?;
    Ok(Step::Forget { node, uid })
}

/// The item of a data set.
fn item_of(alloc: Global, syntax: Syntax, body: Octets) -> Result<Item, LineFault>
    ensures { TakesItem syntax body result }
{
    match Item::read(alloc, syntax, body) {
        Ok(item) => Ok(item),
        Err(fault) => match fault {
            ItemFault::TooLarge => Err(LineFault::NoStep),
            ItemFault::Data => Err(LineFault::NoStep),
            ItemFault::NoUid => Err(LineFault::NoStep),
            ItemFault::Memory => Err(LineFault::Memory),
        },
    }
}

fn read_submit(alloc: Global, fields: &[&[u8]]) -> Result<Step, LineFault>
    ensures { ReadsFields words.Submit (map (λ f. f.now) fields.now) result }
{
    let [first, second, third] = fields else {
        return Err(LineFault::NoStep);
    };
    let Some(syntax) = read_syntax(second) else {
        return Err(LineFault::NoStep);
    };
    let body = match read_bytes(alloc, third) {
        Ok(body) => body,
        Err(fault) => return Err(fault),
    };
    let item = match item_of(alloc, syntax, body) {
        Ok(item) => item,
        Err(fault) => return Err(fault),
    };
    let node = Text::copy_of(alloc, first)?;
    Ok(Step::Submit { node, item })
}

/// The step whose word this is and whose other fields these are.
fn read_fields(alloc: Global, word: Word, fields: &[&[u8]]) -> Result<Step, LineFault>
    ensures { ReadsFields word (map (λ f. f.now) fields.now) result }
{
    match word {
        Word::Submit => read_submit(alloc, fields),
        Word::Open => read_open(alloc, fields),
        Word::Away => read_away(alloc, fields),
        Word::Push => read_push(fields),
        Word::Move => read_move(fields),
        Word::Abort => read_abort(fields),
        Word::Release => read_release(fields),
        Word::Close => read_close(fields),
        Word::Late => read_late(fields),
        Word::Restart => read_restart(alloc, fields),
        Word::Requeue => read_requeue(alloc, fields),
        Word::Drop => read_drop(alloc, fields),
        Word::Forget => read_forget(alloc, fields),
        Word::Tick => read_tick(fields),
        Word::Refuse => read_refuse(alloc, fields),
    }
}

/// The change of plan whose files these fields name.
fn read_adoption(alloc: Global, fields: &[&[u8]]) -> Result<Act, LineFault>
    ensures { ReadsAdoption (map (λ f. f.now) fields.now) result }
{
    let [first, second] = fields else {
        return Err(LineFault::NoStep);
    };
    let plan = Text::copy_of(alloc, first)?;
    let certificate = Text::copy_of(alloc, second)?;
    Ok(Act::Adopt { plan, certificate })
}

/// What another product writes, by the link, the end and the hex digits that these fields are.
fn read_written(alloc: Global, fields: &[&[u8]]) -> Result<Act, LineFault>
    ensures { ReadsWritten (map (λ f. f.now) fields.now) result }
{
    let [first, second, third] = fields else {
        return Err(LineFault::NoStep);
    };
    let Some(link) = read_number(first) else {
        return Err(LineFault::NoStep);
    };
    let Some(side) = read_side(second) else {
        return Err(LineFault::NoStep);
    };
    let bytes = match read_bytes(alloc, third) {
        Ok(bytes) => bytes,
        Err(fault) => return Err(fault),
    };
    Ok(Act::Bytes { link, side, bytes })
}

fn read_foreign_node(alloc: Global, fields: &[&[u8]]) -> Result<Foreign, LineFault>
    ensures { ReadsForeignFields foreign_words.Node (map (λ f. f.now) fields.now) result }
{
    match only_field(fields) {
        Some(field) => {
            let node = Text::copy_of(alloc, field)?;
            Ok(Foreign::Node { node })
        }
        None => Err(LineFault::NoStep),
    }
}

fn read_store(alloc: Global, fields: &[&[u8]]) -> Result<Foreign, LineFault>
    ensures { ReadsForeignFields foreign_words.Store (map (λ f. f.now) fields.now) result }
{
    let [first, second, third] = fields else {
        return Err(LineFault::NoStep);
    };
    let Some(link) = read_number(first) else {
        return Err(LineFault::NoStep);
    };
    let Some(syntax) = read_syntax(second) else {
        return Err(LineFault::NoStep);
    };
    let body = match read_bytes(alloc, third) {
        Ok(body) => body,
        Err(fault) => return Err(fault),
    };
    let item = match item_of(alloc, syntax, body) {
        Ok(item) => item,
        Err(fault) => return Err(fault),
    };
    Ok(Foreign::Store { link, item })
}

fn read_answer(alloc: Global, fields: &[&[u8]]) -> Result<Foreign, LineFault>
    ensures { ReadsForeignFields foreign_words.Answer (map (λ f. f.now) fields.now) result }
{
    let [first, second] = fields else {
        return Err(LineFault::NoStep);
    };
    let Some(link) = read_number(first) else {
        return Err(LineFault::NoStep);
    };
    let status = match read_status(alloc, second) {
        Ok(status) => status,
        Err(fault) => return Err(fault),
    };
    Ok(Foreign::Answer { link, status })
}

/// What concerns other makers' products, by its word and the other fields.
fn read_foreign(alloc: Global, word: ForeignWord, fields: &[&[u8]]) -> Result<Foreign, LineFault>
    ensures { ReadsForeignFields word (map (λ f. f.now) fields.now) result }
{
    match word {
        ForeignWord::Node => read_foreign_node(alloc, fields),
        ForeignWord::Store => read_store(alloc, fields),
        ForeignWord::Answer => read_answer(alloc, fields),
    }
}

/// The same, as what a line tells.
fn read_foreign_act(alloc: Global, word: ForeignWord, fields: &[&[u8]]) -> Result<Act, LineFault>
    ensures { ReadsForeign word (map (λ f. f.now) fields.now) result }
{
    match read_foreign(alloc, word, fields) {
        Ok(foreign) => Ok(Act::Foreign(foreign)),
        Err(fault) => Err(fault),
    }
}

/// The step whose word is spelled as the first part, and whose other fields these are.
fn read_step(alloc: Global, first: &[u8], fields: &[&[u8]]) -> Result<Step, LineFault>
    ensures { ReadsStep (first.now ∷ map (λ f. f.now) fields.now) result }
{
    match read_word(first) {
        Some(word) => read_fields(alloc, word, fields),
        None => Err(LineFault::NoStep),
    }
}

/// What the line tells whose parts these are.
fn read_parts(alloc: Global, first: &[u8], fields: &[&[u8]]) -> Result<Act, LineFault>
    ensures { ReadsParts (first.now ∷ map (λ f. f.now) fields.now) result }
{
    if is_adopt(first) {
        return read_adoption(alloc, fields);
    }
    if is_bytes(first) {
        return read_written(alloc, fields);
    }
    if let Some(word) = read_foreign_word(first) {
        return read_foreign_act(alloc, word, fields);
    }
    match read_step(alloc, first, fields) {
        Ok(step) => Ok(Act::Step(step)),
        Err(fault) => Err(fault),
    }
}

/// What the line tells.
pub fn read_line(alloc: Global, line: &[u8]) -> Result<Act, LineFault>
    ensures { ReadsLine line.now result }
{
    let parts = parts_of(alloc, line, TAB)?;
    let Some((first, fields)) = parts.as_slice().split_first() else {
        return Err(LineFault::NoStep);
    };
    read_parts(alloc, first, fields)
}
