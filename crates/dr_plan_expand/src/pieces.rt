//! The pieces of a spelling: texts in quotes, lists of them, and other values.
ghost use Rattle.std.specs.Prelude.{◌≡◌, ◌++◌, OnOk, IfOk, map, flat_map};
ghost use Rattle.std.specs.Fmt.{signed_decimal};
ghost use Rattle.dr_plan_expand.specs.Spelling.{further, list_text, starred};
ghost use Rattle.dr_plan_expand.specs.Spelling.{pattern_text, field_text, callers_text};
ghost use Rattle.dr_plan_expand.specs.Spelling.{except_text, values_text, flag_text};
ghost use Rattle.dr_plan_expand.specs.Spelling.{bind_text, address_text, listens_text};

use crate::words::copy_of;
use dr_base::{Seq, Text};
use dr_base_quoted::put_in_quotes;
use dr_plan_model::{Listens, Values};
use dr_route::{Callers, FieldPattern, FieldValues, Pattern};
use std::alloc::{AllocError, Global};

const STAR: u8 = 42;

/// The text of any value.
const ANY: &[u8] = b"\"*\"";

/// A text of a list that isn't its first.
fn next(alloc: Global, text: &Text) -> Result<Vec<u8>, AllocError>
    ensures { IfOk result (λ out. out.items ≡ further text.now) }
{
    let mut out = Vec::from_slice(alloc, b", ")?;
    put_in_quotes(&mut out, text)?;
    Ok(out)
}

/// Adds the texts of a list behind its first.
fn add_further(alloc: Global, out: &mut Vec<u8>, texts: &[Text]) -> Result<(), AllocError>
    ensures { OnOk result (out.new.items ≡ out.old.items ++ flat_map further texts.now) }
{
    for text in texts {
        let more = next(alloc, text)?;
        out.extend_from_slice(more.as_slice())?;
    }
    Ok(())
}

/// A list of texts in brackets.
fn list(alloc: Global, texts: &[Text]) -> Result<Vec<u8>, AllocError>
    ensures { IfOk result (λ out. out.items ≡ list_text texts.now) }
{
    let [first, more @ ..] = texts else {
        return Vec::from_slice(alloc, b"[]");
    };
    let mut out = Vec::from_slice(alloc, b"[")?;
    put_in_quotes(&mut out, first)?;
    add_further(alloc, &mut out, more)?;
    out.extend_from_slice(b"]")?;
    Ok(out)
}

/// Adds a list of texts in brackets.
pub fn add_list(alloc: Global, out: &mut Vec<u8>, texts: &[Text]) -> Result<(), AllocError>
    ensures { OnOk result (out.new.items ≡ out.old.items ++ list_text texts.now) }
{
    let list = list(alloc, texts)?;
    out.extend_from_slice(list.as_slice())
}

/// Adds a pattern.
pub fn add_pattern(out: &mut Vec<u8>, pattern: &Pattern) -> Result<(), AllocError>
    ensures { OnOk result (out.new.items ≡ out.old.items ++ pattern_text pattern.now) }
{
    match pattern {
        Pattern::Any => out.extend_from_slice(ANY),
        Pattern::Literal(literal) => put_in_quotes(out, literal),
    }
}

/// A prefix with the asterisk behind it.
fn with_star(alloc: Global, prefix: &Text) -> Result<Text, AllocError>
    ensures { IfOk result (λ text. text ≡ starred prefix.now) }
{
    let mut bytes = Vec::from_slice(alloc, prefix.as_bytes())?;
    bytes.push(STAR)?;
    Ok(Text::from_vec(bytes))
}

/// Adds what a rule asks of the modality or of the station.
pub fn add_field(alloc: Global, out: &mut Vec<u8>, pattern: &FieldPattern) -> Result<(), AllocError>
    ensures { OnOk result (out.new.items ≡ out.old.items ++ field_text pattern.now) }
{
    match pattern {
        FieldPattern::Any => out.extend_from_slice(ANY),
        FieldPattern::Literal(literal) => put_in_quotes(out, literal),
        FieldPattern::Prefix(prefix) => {
            let text = with_star(alloc, prefix)?;
            put_in_quotes(out, &text)
        }
    }
}

/// The stations that a rule excepts, behind the key; nothing where it excepts none.
fn exceptions(alloc: Global, stations: &[Text]) -> Result<Vec<u8>, AllocError>
    ensures { IfOk result (λ out. out.items ≡ except_text stations.now) }
{
    if stations.is_empty() {
        return Ok(Vec::new(alloc));
    }
    let mut out = Vec::from_slice(alloc, b"\nexcept = ")?;
    add_list(alloc, &mut out, stations)?;
    Ok(out)
}

/// Adds the stations that a rule excepts; nothing where it excepts none.
pub fn add_exceptions(alloc: Global, out: &mut Vec<u8>, stations: &[Text]) -> Result<(), AllocError>
    ensures { OnOk result (out.new.items ≡ out.old.items ++ except_text stations.now) }
{
    let text = exceptions(alloc, stations)?;
    out.extend_from_slice(text.as_slice())
}

/// Adds the callers of an accept row.
pub fn add_callers(alloc: Global, out: &mut Vec<u8>, callers: &Callers) -> Result<(), AllocError>
    ensures { OnOk result (out.new.items ≡ out.old.items ++ callers_text callers.now) }
{
    match callers {
        Callers::Any => out.extend_from_slice(ANY),
        Callers::Listed(names) => add_list(alloc, out, names.as_slice()),
    }
}

/// Adds prefixes with the asterisk behind each.
fn add_starred(alloc: Global, out: &mut Vec<Text>, prefixes: &[Text]) -> Result<(), AllocError>
    ensures { OnOk result (out.new.items ≡ out.old.items ++ map starred prefixes.now) }
{
    for prefix in prefixes {
        out.push(with_star(alloc, prefix)?)?;
    }
    Ok(())
}

/// What is named, as it is written: the values, and then the prefixes.
fn written(alloc: Global, named: &FieldValues) -> Result<Seq<Text>, AllocError>
    ensures { IfOk result (λ texts. texts ≡ named.now.literals ++ map starred named.now.prefixes) }
{
    let mut texts = copy_of(alloc, named.literals.as_slice())?.into_vec();
    add_starred(alloc, &mut texts, named.prefixes.as_slice())?;
    Ok(Seq::from_vec(texts))
}

/// Adds the modalities or the stations of a flow.
pub fn add_values(alloc: Global, out: &mut Vec<u8>, values: &Values) -> Result<(), AllocError>
    ensures { OnOk result (out.new.items ≡ out.old.items ++ values_text values.now) }
{
    match values {
        Values::Any => out.extend_from_slice(ANY),
        Values::Listed(named) => {
            let texts = written(alloc, named)?;
            add_list(alloc, out, texts.as_slice())
        }
    }
}

/// The address to which a node binds, where it is another one.
fn bound(alloc: Global, bind: &Option<Text>) -> Result<Vec<u8>, AllocError>
    ensures { IfOk result (λ out. out.items ≡ bind_text bind.now) }
{
    let Some(address) = bind else {
        return Ok(Vec::new(alloc));
    };
    let mut out = Vec::from_slice(alloc, b"\nbind = ")?;
    put_in_quotes(&mut out, address)?;
    Ok(out)
}

/// The address at which a node listens, and the one to which it binds, where it is another one.
fn addressed(alloc: Global, address: &Text, bind: &Option<Text>) -> Result<Vec<u8>, AllocError>
    ensures { IfOk result (λ out. out.items ≡ address_text address.now bind.now) }
{
    let mut out = Vec::from_slice(alloc, b"\naddress = ")?;
    put_in_quotes(&mut out, address)?;
    let more = bound(alloc, bind)?;
    out.extend_from_slice(more.as_slice())?;
    Ok(out)
}

/// Adds where a node listens.
pub fn add_listens(alloc: Global, out: &mut Vec<u8>, listens: &Listens) -> Result<(), AllocError>
    ensures { OnOk result (out.new.items ≡ out.old.items ++ listens_text listens.now) }
{
    match listens {
        Listens::Nowhere => out.extend_from_slice(b"\nlistens = false"),
        Listens::At { address, bind } => {
            let text = addressed(alloc, address, bind)?;
            out.extend_from_slice(text.as_slice())
        }
    }
}

/// Adds a number, with its sign.
pub fn add_signed(out: &mut Vec<u8>, number: i64) -> Result<(), AllocError>
    ensures { OnOk result (out.new.items ≡ out.old.items ++ signed_decimal number) }
{
    let mut digits = itoa::Buffer::new();
    out.extend_from_slice(digits.format(number).as_bytes())
}

/// Adds `true` or `false`.
pub fn add_flag(out: &mut Vec<u8>, flag: bool) -> Result<(), AllocError>
    ensures { OnOk result (out.new.items ≡ out.old.items ++ flag_text flag) }
{
    if flag {
        return out.extend_from_slice(b"true");
    }
    out.extend_from_slice(b"false")
}
