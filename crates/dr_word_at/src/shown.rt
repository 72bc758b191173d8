//! The lines that are printed of what a node that runs answers.
ghost use Rattle.std.specs.Prelude.{◌≡◌, ◌++◌, ◌∷◌, ◌↔◌, [], IfOk, IsTrue, List, OnOk, Some};
ghost use Rattle.std.specs.Prelude.{flat_map};
ghost use Rattle.serde_json.specs.View.{view};
ghost use Rattle.dr_base.specs.Texts.{Text as Words, next_field};
ghost use Rattle.dr_run_ask.specs.Lines.{number_at, text_at};
ghost use Rattle.dr_word_at.specs.Printing.{IsHeld, IsStage, IsWaiting, ShowsProgress};
ghost use Rattle.dr_word_at.specs.Printing.{ShowsQueue, ShowsRow};

use dr_base::fields::{add_field, add_number};
use dr_run_ask::{AskFault, number_at, text_at};
use dr_word_list::{QueueCounts, put_queue_line};
use serde_json::Value;
use std::alloc::AllocError;

const LF: u8 = 10;

/// What a member says that is a number.
///
/// Errors: NoNodesAnswer where it says none.
pub fn number_in(value: &Value, name: &str) -> Result<u64, AskFault>
    ensures { IfOk result (λ number. number_at name.now (view value.now) ≡ Some number) }
{
    match number_at(value, name) {
        Some(number) => Ok(number),
        None => Err(AskFault::NoNodesAnswer),
    }
}

/// What a member says that is a text.
///
/// Errors: NoNodesAnswer where it says none.
pub fn text_in<'v>(value: &'v Value, name: &str) -> Result<&'v str, AskFault>
    ensures { IfOk result (λ text. text_at name.now (view value.now) ≡ Some text.now) }
{
    match text_at(value, name) {
        Some(text) => Ok(text),
        None => Err(AskFault::NoNodesAnswer),
    }
}

/// Adds a text as a field.
fn put_text(out: &mut Vec<u8>, text: &str) -> Result<(), AllocError>
    ensures { OnOk result (out.new.items ≡ out.old.items ++ next_field text.now) }
{
    add_field(out, text.as_bytes())
}

/// Ends a line.
fn put_end(out: &mut Vec<u8>) -> Result<(), AllocError>
    ensures { OnOk result (out.new.items ≡ out.old.items ++ (10 ∷ [])) }
{
    out.push(LF)?;
    Ok(())
}

/// Adds the line of the rows to a node.
///
/// Errors: NoNodesAnswer, Memory.
pub(crate) fn put_queue(out: &mut Vec<u8>, value: &Value) -> Result<(), AskFault>
    ensures { OnOk result
        ((line : Words)
        × ShowsQueue (view value.now) line
        × (out.new.items ≡ out.old.items ++ line)) }
{
    let dest = text_in(value, "dest")?;
    let waiting = number_in(value, "waiting")?;
    let held = number_in(value, "held")?;
    let done = number_in(value, "done")?;
    let counts = QueueCounts {
        waiting,
        held,
        done,
        oldest: number_at(value, "due"),
    };
    put_queue_line(out, dest.as_bytes(), counts)?;
    Ok(())
}

/// Adds that a row waits.
fn put_waiting(out: &mut Vec<u8>, value: &Value) -> Result<(), AskFault>
    ensures { OnOk result
        ((fields : List Words)
        × IsWaiting (view value.now) fields
        × (out.new.items ≡ out.old.items ++ flat_map next_field fields)) }
{
    let tries = number_in(value, "tries")?;
    let due = number_in(value, "due")?;
    add_field(out, b"waiting")?;
    add_number(out, tries)?;
    add_number(out, due)?;
    Ok(())
}

/// Adds that a row is held, and why.
fn put_held(out: &mut Vec<u8>, value: &Value) -> Result<(), AskFault>
    ensures { OnOk result
        ((fields : List Words)
        × IsHeld (view value.now) fields
        × (out.new.items ≡ out.old.items ++ flat_map next_field fields)) }
{
    let cause = text_in(value, "cause")?;
    add_field(out, b"held")?;
    put_text(out, cause)?;
    Ok(())
}

/// Adds a field alone.
fn put_alone(out: &mut Vec<u8>, field: &[u8]) -> Result<(), AskFault>
    ensures { OnOk result
        (out.new.items ≡ out.old.items ++ flat_map next_field (field.now ∷ [])) }
{
    add_field(out, field)?;
    Ok(())
}

/// Whether a text is that word.
fn is_word(text: &str, word: &str) -> bool
    ensures { IsTrue result ↔ text.now ≡ word.now }
{
    text == word
}

/// Adds how far a row is that doesn't go on any more.
fn put_over(out: &mut Vec<u8>, value: &Value, state: &str) -> Result<(), AskFault>
    ensures { OnOk result
        ((fields : List Words)
        × IsStage (view value.now) state.now fields
        × (out.new.items ≡ out.old.items ++ flat_map next_field fields)) }
{
    if is_word(state, "done") {
        put_alone(out, b"done")?;
        return Ok(());
    }
    if is_word(state, "dropped") {
        put_alone(out, b"dropped")?;
        return Ok(());
    }
    Err(AskFault::NoNodesAnswer)
}

/// Adds how far a row is that is at this stage.
fn put_stage(out: &mut Vec<u8>, value: &Value, state: &str) -> Result<(), AskFault>
    ensures { OnOk result
        ((fields : List Words)
        × IsStage (view value.now) state.now fields
        × (out.new.items ≡ out.old.items ++ flat_map next_field fields)) }
{
    if is_word(state, "waiting") {
        put_waiting(out, value)?;
        return Ok(());
    }
    if is_word(state, "held") {
        put_held(out, value)?;
        return Ok(());
    }
    put_over(out, value, state)?;
    Ok(())
}

/// Adds how far a row is.
fn put_progress(out: &mut Vec<u8>, value: &Value) -> Result<(), AskFault>
    ensures { OnOk result
        ((fields : List Words)
        × ShowsProgress (view value.now) fields
        × (out.new.items ≡ out.old.items ++ flat_map next_field fields)) }
{
    let state = text_in(value, "state")?;
    put_stage(out, value, state)?;
    Ok(())
}

/// Adds the line of a row.
///
/// Errors: NoNodesAnswer, Memory.
pub(crate) fn put_row(out: &mut Vec<u8>, value: &Value) -> Result<(), AskFault>
    ensures { OnOk result
        ((line : Words)
        × ShowsRow (view value.now) line
        × (out.new.items ≡ out.old.items ++ line)) }
{
    let uid = text_in(value, "uid")?;
    let dest = text_in(value, "dest")?;
    out.extend_from_slice(b"row")?;
    put_text(out, uid)?;
    put_text(out, dest)?;
    put_progress(out, value)?;
    put_end(out)?;
    Ok(())
}
