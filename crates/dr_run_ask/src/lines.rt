//! Lines of JSON.
ghost use Rattle.std.specs.Prelude.{◌≡◌, ◌≤◌, ◌++◌, IfOk, Some, length, option_map};
ghost use Rattle.serde_json.specs.Data.{Data};
ghost use Rattle.serde_json.specs.Read.{read};
ghost use Rattle.serde_json.specs.View.{view};
ghost use Rattle.dr_base.specs.Texts.{Text as Words};
ghost use Rattle.dr_run_ask.specs.Lines.{FirstLineIs, flag_at, number_at, text_at};

use crate::fault::AskFault;
use serde_json::{Category, Error, Value};
use std::alloc::Global;
use std::str;

/// The value of a line.
///
/// Errors: NoNodesAnswer where it is none; Memory.
pub fn value_of(alloc: Global, line: &[u8]) -> Result<Value, AskFault>
    ensures { IfOk result (λ value. read line.now ≡ Some (view value)) }
{
    let Ok(text) = str::from_utf8(line) else {
        return Err(AskFault::NoNodesAnswer);
    };
    match Value::from_str(alloc, text) {
        Ok(value) => Ok(value),
        Err(error) => Err(fault_of(&error)),
    }
}

/// Why a text has no value.
fn fault_of(error: &Error) -> AskFault {
    if error.classify() == Category::Memory {
        return AskFault::Memory;
    }
    AskFault::NoNodesAnswer
}

/// Where the first line of a text ends.
fn first_end(text: &[u8]) -> usize
    ensures { result ≤ length text.now }
{
    for i in 0..text.len() {
        if text[i] == b'\n' {
            return i;
        }
    }
    text.len()
}

/// The first line of a text, without its end.
fn first_line(text: &[u8]) -> &[u8]
    ensures { (rest : Words) × (text.now ≡ result.now ++ rest) }
{
    let end = first_end(text);
    &text[..end]
}

/// The value of a text's first line.
///
/// Errors: NoNodesAnswer where it is none; Memory.
pub fn first_value(alloc: Global, text: &[u8]) -> Result<Value, AskFault>
    ensures { IfOk result (λ value. FirstLineIs text.now (view value)) }
{
    value_of(alloc, first_line(text))
}

/// What a member says that is a text.
pub fn text_at<'v>(value: &'v Value, name: &str) -> Option<&'v str>
    ensures { option_map (λ text. text.now) result ≡ text_at name.now (view value.now) }
{
    value.get(name).and_then(Value::as_str)
}

/// What a member says that is a number.
pub fn number_at(value: &Value, name: &str) -> Option<u64>
    ensures { result ≡ number_at name.now (view value.now) }
{
    value.get(name).and_then(Value::as_u64)
}

/// Whether a member says so.
pub fn flag_at(value: &Value, name: &str) -> Option<bool>
    ensures { result ≡ flag_at name.now (view value.now) }
{
    value.get(name).and_then(Value::as_bool)
}
