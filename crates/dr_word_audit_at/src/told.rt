//! The lines of a journal, as a node tells them.
ghost use Rattle.std.specs.Prelude.{◌≡◌, ◌↔◌, ◌+◌, ◌*◌, ◌∷◌, [], ℕ, IfOk, IfSome, IsTrue, Ok, Some};
ghost use Rattle.std.specs.Prelude.{codes, option_map};
ghost use Rattle.std.specs.Str.{chars};
ghost use Rattle.hex.specs.Hex.{decode_of};
ghost use Rattle.serde_json.specs.View.{items_view, view};
ghost use Rattle.dr_base.specs.Syntaxes.{syntax_uid};
ghost use Rattle.dr_run_ask.specs.Lines.{text_at};
ghost use Rattle.dr_word_audit_at.specs.Saying.{AreNames, SaysDigits, SaysGoals, SaysInstance};
ghost use Rattle.dr_word_audit_at.specs.Saying.{SaysKey};
ghost use Rattle.dr_word_audit_at.specs.Saying.{SaysLine, SaysOf, SaysOutcome, bytes_at, list_at};
ghost use Rattle.dr_word_audit_at.specs.Saying.{name_in};

use dr_base::{Seq, Syntax, Text};
use dr_ledger::{Instance, Outcome};
use dr_ledger_history::JournalLine;
use dr_route::Key;
use dr_run_ask::{AskFault, flag_at};
use dr_word_at::{number_in, text_in};
use hex::FromHexError;
use serde_json::Value;
use std::alloc::Global;

/// Whether two texts are the same.
fn is_same(one: &[u8], other: &[u8]) -> bool
    ensures { IsTrue result ↔ one.now ≡ other.now }
{
    one == other
}

/// The bytes for which a text's characters stand: each is of the number of its byte.
///
/// Errors: NoNodesAnswer where one stands for none; Memory.
fn bytes_of(alloc: Global, text: &str) -> Result<Text, AskFault>
    ensures { IfOk result (λ bytes. bytes ≡ chars text.now) }
{
    let mut bytes = Vec::new(alloc);
    for character in text.chars() {
        let Ok(byte) = u8::try_from(character) else {
            return Err(AskFault::NoNodesAnswer);
        };
        bytes.push(byte)?;
    }
    Ok(Text::from_vec(bytes))
}

/// The bytes that a member says.
///
/// Errors: NoNodesAnswer, Memory.
fn bytes_in(alloc: Global, value: &Value, name: &str) -> Result<Text, AskFault>
    ensures { IfOk result (λ bytes. bytes_at name.now (view value.now) ≡ Some bytes) }
{
    let text = text_in(value, name)?;
    let bytes = bytes_of(alloc, text)?;
    Ok(bytes)
}

/// The bytes that are written so in hexadecimal digits.
///
/// Errors: NoNodesAnswer, Memory.
fn decoded(alloc: Global, digits: &str) -> Result<Vec<u8>, AskFault>
    ensures { IfOk result (λ bytes. decode_of digits.now ≡ Ok bytes.items) }
{
    match hex::decode(alloc, digits.as_bytes()) {
        Ok(bytes) => Ok(bytes),
        Err(FromHexError::OutOfMemory) => Err(AskFault::Memory),
        Err(_) => Err(AskFault::NoNodesAnswer),
    }
}

/// The SHA-256 that a line says.
///
/// Errors: NoNodesAnswer, Memory.
fn digest_in(alloc: Global, value: &Value) -> Result<[u8; 32], AskFault>
    ensures { IfOk result (SaysDigits (codes "sha256") (view value.now)) }
{
    let digits = text_in(value, "sha256")?;
    let bytes = decoded(alloc, digits)?;
    match <[u8; 32]>::try_from(bytes.as_slice()) {
        Ok(digest) => Ok(digest),
        Err(_) => Err(AskFault::NoNodesAnswer),
    }
}

/// The transfer syntax that a line says.
///
/// Errors: NoNodesAnswer.
fn syntax_in(value: &Value) -> Result<Syntax, AskFault>
    ensures { IfOk result (λ syntax.
        text_at (codes "syntax") (view value.now) ≡ Some (syntax_uid syntax)) }
{
    let uid = text_in(value, "syntax")?;
    match Syntax::of_uid(uid.as_bytes()) {
        Some(syntax) => Ok(syntax),
        None => Err(AskFault::NoNodesAnswer),
    }
}

/// What rules read of the instance that a line says.
///
/// Errors: NoNodesAnswer, Memory.
fn key_in(alloc: Global, value: &Value) -> Result<Key, AskFault>
    ensures { IfOk result (SaysKey (view value.now)) }
{
    let class = bytes_in(alloc, value, "class")?;
    let syntax = syntax_in(value)?;
    let modality = bytes_in(alloc, value, "modality")?;
    let station = bytes_in(alloc, value, "station")?;
    Ok(Key {
        class,
        syntax,
        modality,
        station,
    })
}

/// The instance that a line says.
///
/// Errors: NoNodesAnswer, Memory.
fn instance_in(alloc: Global, value: &Value) -> Result<Instance, AskFault>
    ensures { IfOk result (SaysInstance (view value.now)) }
{
    let uid = bytes_in(alloc, value, "uid")?;
    let key = key_in(alloc, value)?;
    let size = number_in(value, "length")?;
    let digest = digest_in(alloc, value)?;
    Ok(Instance {
        uid,
        key,
        size,
        digest,
    })
}

/// The name that a value says.
///
/// Errors: NoNodesAnswer, Memory.
fn named_in(alloc: Global, value: &Value) -> Result<Text, AskFault>
    ensures { IfOk result (λ name. name_in (view value.now) ≡ Some name) }
{
    let Some(text) = value.as_str() else {
        return Err(AskFault::NoNodesAnswer);
    };
    let name = bytes_of(alloc, text)?;
    Ok(name)
}

/// The names in a list.
///
/// Errors: NoNodesAnswer, Memory.
fn names_in(alloc: Global, list: &[Value]) -> Result<Seq<Text>, AskFault>
    ensures { IfOk result (AreNames (items_view list.now)) }
{
    let mut names = Seq::new(alloc);
    for value in list {
        let name = named_in(alloc, value)?;
        names.push(name)?;
    }
    Ok(names)
}

/// The list that a member is.
fn list_at<'v>(value: &'v Value, name: &str) -> Option<&'v Vec<Value>>
    ensures { option_map (λ list. items_view list.now.items) result
        ≡ list_at name.now (view value.now) }
{
    value.get(name).and_then(Value::as_array)
}

/// Where a line says that a first arrival goes on to.
///
/// Errors: NoNodesAnswer, Memory.
fn goals_in(alloc: Global, value: &Value) -> Result<Seq<Text>, AskFault>
    ensures { IfOk result (SaysGoals (view value.now)) }
{
    let Some(list) = list_at(value, "to") else {
        return Err(AskFault::NoNodesAnswer);
    };
    let goals = names_in(alloc, list.as_slice())?;
    Ok(goals)
}

/// A first arrival.
///
/// Errors: NoNodesAnswer, Memory.
fn arrival_in(alloc: Global, value: &Value) -> Result<JournalLine, AskFault>
    ensures { IfOk result (SaysOf (codes "arrival") (view value.now)) }
{
    let caller = bytes_in(alloc, value, "caller")?;
    let instance = instance_in(alloc, value)?;
    let to = goals_in(alloc, value)?;
    let Some(keep) = flag_at(value, "keep") else {
        return Err(AskFault::NoNodesAnswer);
    };
    Ok(JournalLine::Arrival {
        caller,
        instance,
        to,
        keep,
    })
}

/// A further arrival.
///
/// Errors: NoNodesAnswer, Memory.
fn repeat_in(alloc: Global, value: &Value) -> Result<JournalLine, AskFault>
    ensures { IfOk result (SaysOf (codes "repeat") (view value.now)) }
{
    let caller = bytes_in(alloc, value, "caller")?;
    let instance = instance_in(alloc, value)?;
    Ok(JournalLine::Repeat { caller, instance })
}

/// The status of a response, of its four hexadecimal digits.
///
/// Errors: NoNodesAnswer, Memory.
fn status_of(alloc: Global, digits: &str) -> Result<u16, AskFault>
    ensures { IfOk result (λ status. (high low : ℕ)
        × (decode_of digits.now ≡ Ok (high ∷ low ∷ []))
        × (status ≡ high * 256 + low)) }
{
    let bytes = decoded(alloc, digits)?;
    match bytes.as_slice() {
        [high, low] => Ok(u16::from_be_bytes([*high, *low])),
        _ => Err(AskFault::NoNodesAnswer),
    }
}

/// What came of a try.
///
/// Errors: NoNodesAnswer, Memory.
fn outcome_in(alloc: Global, value: &Value) -> Result<Outcome, AskFault>
    ensures { IfOk result (SaysOutcome (view value.now)) }
{
    let word = text_in(value, "outcome")?;
    if is_same(word.as_bytes(), b"broken") {
        return Ok(Outcome::Broken);
    }
    if is_same(word.as_bytes(), b"no-context") {
        return Ok(Outcome::NoContext);
    }
    if is_same(word.as_bytes(), b"unreadable") {
        return Ok(Outcome::Unreadable);
    }
    let status = status_of(alloc, word)?;
    Ok(Outcome::Status(status))
}

/// A settling.
///
/// Errors: NoNodesAnswer, Memory.
fn settling_in(alloc: Global, value: &Value) -> Result<JournalLine, AskFault>
    ensures { IfOk result (SaysOf (codes "settling") (view value.now)) }
{
    let uid = bytes_in(alloc, value, "uid")?;
    let dest = bytes_in(alloc, value, "dest")?;
    let outcome = outcome_in(alloc, value)?;
    let now = number_in(value, "moment")?;
    Ok(JournalLine::Settling {
        uid,
        dest,
        outcome,
        now,
    })
}

/// A requeuing.
///
/// Errors: NoNodesAnswer, Memory.
fn requeuing_in(alloc: Global, value: &Value) -> Result<JournalLine, AskFault>
    ensures { IfOk result (SaysOf (codes "requeuing") (view value.now)) }
{
    let uid = bytes_in(alloc, value, "uid")?;
    let dest = bytes_in(alloc, value, "dest")?;
    Ok(JournalLine::Requeuing { uid, dest })
}

/// A dropping.
///
/// Errors: NoNodesAnswer, Memory.
fn dropping_in(alloc: Global, value: &Value) -> Result<JournalLine, AskFault>
    ensures { IfOk result (SaysOf (codes "dropping") (view value.now)) }
{
    let uid = bytes_in(alloc, value, "uid")?;
    let dest = bytes_in(alloc, value, "dest")?;
    let now = number_in(value, "moment")?;
    Ok(JournalLine::Dropping { uid, dest, now })
}

/// A forgetting.
///
/// Errors: NoNodesAnswer, Memory.
fn forgetting_in(alloc: Global, value: &Value) -> Result<JournalLine, AskFault>
    ensures { IfOk result (SaysOf (codes "forgetting") (view value.now)) }
{
    let uid = bytes_in(alloc, value, "uid")?;
    Ok(JournalLine::Forgetting { uid })
}

/// What a line says that is of a call of that kind, where it is of an arrival or a settling.
///
/// Errors: NoNodesAnswer, Memory.
fn usual_in(alloc: Global, value: &Value, kind: &[u8]) -> Result<Option<JournalLine>, AskFault>
    ensures { IfOk result (λ said. IfSome said (SaysOf kind.now (view value.now))) }
{
    if is_same(kind, b"arrival") {
        let line = arrival_in(alloc, value)?;
        return Ok(Some(line));
    }
    if is_same(kind, b"repeat") {
        let line = repeat_in(alloc, value)?;
        return Ok(Some(line));
    }
    if is_same(kind, b"settling") {
        let line = settling_in(alloc, value)?;
        return Ok(Some(line));
    }
    Ok(None)
}

/// The same, where it is of what a person did, or of an adoption.
///
/// Errors: NoNodesAnswer, Memory.
fn rare_in(alloc: Global, value: &Value, kind: &[u8]) -> Result<JournalLine, AskFault>
    ensures { IfOk result (SaysOf kind.now (view value.now)) }
{
    if is_same(kind, b"requeuing") {
        return requeuing_in(alloc, value);
    }
    if is_same(kind, b"dropping") {
        return dropping_in(alloc, value);
    }
    if is_same(kind, b"forgetting") {
        return forgetting_in(alloc, value);
    }
    if is_same(kind, b"adoption") {
        return Ok(JournalLine::Adoption);
    }
    Err(AskFault::NoNodesAnswer)
}

/// What a line says that is of a call of that kind.
///
/// Errors: NoNodesAnswer, Memory.
fn said_in(alloc: Global, value: &Value, kind: &[u8]) -> Result<JournalLine, AskFault>
    ensures { IfOk result (SaysOf kind.now (view value.now)) }
{
    match usual_in(alloc, value, kind)? {
        Some(line) => Ok(line),
        None => rare_in(alloc, value, kind),
    }
}

/// The line of that number that a value tells.
///
/// Errors: NoNodesAnswer where it tells none, or another one; Memory.
pub(crate) fn line_in(alloc: Global, value: &Value, number: u64) -> Result<JournalLine, AskFault>
    ensures { IfOk result (SaysLine (view value.now) number) }
{
    let told = number_in(value, "line")?;
    if told != number {
        return Err(AskFault::NoNodesAnswer);
    }
    let kind = text_in(value, "kind")?;
    let line = said_in(alloc, value, kind.as_bytes())?;
    Ok(line)
}
