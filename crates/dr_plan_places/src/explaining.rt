//! What stands below the name of a fault.
ghost use Rattle.std.specs.Prelude.{◌≡◌, ◌≢◌, Err, MatchOption};
ghost use Rattle.dr_plan_core.specs.Reading.{Passes, ReadsCore};
ghost use Rattle.dr_plan.specs.Reading.{Reads, IsOfThird};
ghost use Rattle.dr_plan_expand.specs.Expanding.{Expands};
ghost use Rattle.dr_plan_text.specs.Tables.{Writes};
ghost use Rattle.dr_plan_text.specs.declared.words.PlanText.{PlanText as Written};

use crate::fields::describe_field;
use crate::place::place_of;
use crate::short_fields::{describe_excess, describe_short_field, describe_unknown_word};
use crate::wording::describe;
use dr_base::Text;
use dr_base::fields::add_decimal;
use dr_plan::{PlanFault, core_of};
use dr_plan_expand::ExpandFault;
use dr_plan_text::read_text;
use std::alloc::{AllocError, Global};
use toml::de::Error;

/// The line and the column, both from 1, of what stands behind these bytes. A column counts
/// characters.
fn position_behind(before: &[u8]) -> (usize, usize) {
    let mut line: usize = 1;
    let mut column: usize = 1;
    for byte in before {
        if *byte == b'\n' {
            line = line.saturating_add(1);
            column = 1;
        } else if *byte & 0xC0 != 0x80 {
            column = column.saturating_add(1);
        }
    }
    (line, column)
}

/// Where the reader of TOML stopped in the text, and why, in words.
fn stopped_at(alloc: Global, before: &[u8], error: &Error) -> Result<Text, AllocError> {
    let (line, column) = position_behind(before);
    let mut out = Vec::from_slice(alloc, b"  line ")?;
    add_decimal(&mut out, line as u64)?;
    out.extend_from_slice(b", column ")?;
    add_decimal(&mut out, column as u64)?;
    out.extend_from_slice(b": ")?;
    out.extend_from_slice(error.message().as_bytes())?;
    out.extend_from_slice(b"\n")?;
    Ok(Text::from_vec(out))
}

/// Where a text that isn't TOML stops to be, in words; nothing for one that is.
fn explain_toml(alloc: Global, text: &[u8]) -> Result<Text, AllocError> {
    let error = match toml::table_from_slice(alloc, text) {
        Ok(_) => return Ok(Text::empty(alloc)),
        Err(error) => error,
    };
    let Some(span) = error.span() else {
        return Err(AllocError);
    };
    stopped_at(alloc, &text[..span.start], &error)
}

/// Where a text in TOML has a field that is missing, unknown or ill-formed, in words.
fn explain_field(alloc: Global, text: &[u8]) -> Result<Text, AllocError> {
    match toml::table_from_slice(alloc, text) {
        Ok(root) => describe_field(alloc, &root),
        Err(_) => Err(AllocError),
    }
}

/// The place of the fault of the plan that the text writes as it stands, in words.
fn explain_plan(alloc: Global, text: &[u8], fault: PlanFault) -> Result<Text, AllocError>
    requires { (plan : Written) × Writes text.now plan × Passes plan (Err fault) }
{
    let Ok(plan) = read_text(alloc, text) else {
        return Err(AllocError);
    };
    match place_of(&plan, fault) {
        Some(place) => describe(alloc, &plan, place),
        None => Ok(Text::empty(alloc)),
    }
}

/// Where a fault stands in a text that is read as it stands.
fn explain_core(alloc: Global, text: &[u8], fault: PlanFault) -> Result<Text, AllocError>
    requires { ReadsCore text.now (Err fault) }
{
    match fault {
        PlanFault::NotToml => explain_toml(alloc, text),
        PlanFault::Field => explain_field(alloc, text),
        PlanFault::Memory => Ok(Text::empty(alloc)),
        PlanFault::Syntax => explain_plan(alloc, text, PlanFault::Syntax),
        PlanFault::Name => explain_plan(alloc, text, PlanFault::Name),
        PlanFault::Limit => explain_plan(alloc, text, PlanFault::Limit),
        PlanFault::UnknownNode => explain_plan(alloc, text, PlanFault::UnknownNode),
        PlanFault::SelfRoute => explain_plan(alloc, text, PlanFault::SelfRoute),
        PlanFault::UnknownName => unreachable!(),
    }
}

/// Says of a place that it is one in what the text expands to.
fn in_expansion(alloc: Global, place: Text) -> Result<Text, AllocError> {
    if place.is_empty() {
        return Ok(place);
    }
    let mut out = Vec::from_slice(alloc, b"  in what it stands for, which expand prints:\n")?;
    out.extend_from_slice(place.as_bytes())?;
    Ok(Text::from_vec(out))
}

/// Where a fault stands in the text that is read for a text; for one that was expanded, in what it
/// expands to.
fn explain_found(
    alloc: Global,
    text: &[u8],
    found: Option<Text>,
    fault: PlanFault,
) -> Result<Text, AllocError>
    requires found { MatchOption found (IsOfThird text.now → ⊥) (Expands text.now) }
    requires fault { Reads text.now (Err fault) }
    requires told { fault ≢ PlanFault.Memory }
{
    match found {
        Some(core) => {
            let place = explain_core(alloc, core.as_bytes(), fault)?;
            in_expansion(alloc, place)
        }
        None => explain_core(alloc, text, fault),
    }
}

/// Where a text of format 3 that isn't expanded has its fault, in words.
fn explain_short(alloc: Global, text: &[u8], fault: ExpandFault) -> Result<Text, AllocError> {
    let Ok(root) = toml::table_from_slice(alloc, text) else {
        return Err(AllocError);
    };
    match fault {
        ExpandFault::Field => describe_short_field(alloc, &root),
        ExpandFault::Limit => describe_excess(alloc, &root),
        ExpandFault::Unknown => describe_unknown_word(alloc, &root),
        ExpandFault::Memory => Err(AllocError),
    }
}

/// What stands below the name of the text's fault: lines that are indented by two blanks, and tell
/// where it stands. Nothing for a fault of which no place is known.
///
/// Errors: want of memory.
pub fn explain(alloc: Global, text: &[u8], fault: PlanFault) -> Result<Text, AllocError>
    requires { Reads text.now (Err fault) }
{
    if fault == PlanFault::Memory {
        return Ok(Text::empty(alloc));
    }
    match core_of(alloc, text) {
        Ok(found) => explain_found(alloc, text, found, fault),
        Err(none) => explain_short(alloc, text, none),
    }
}
