//! The forms of modalities and stations. A prefix is read in each format; whether the format has it
//! is tested of the whole plan.
ghost use Rattle.std.specs.Prelude.{◌≡◌, ◌++◌, ◌∷◌, [], IfOk, IfErr, OnOk, MatchOption, flat_map};
ghost use Rattle.toml.specs.Data.{string};
ghost use Rattle.dr_base.specs.Texts.{Text as Words};
ghost use Rattle.dr_route.specs.declared.rule.FieldPattern.{FieldPattern as Named};
ghost use Rattle.dr_plan_model.specs.Formed.{IsLiteral, IsPrefix};
ghost use Rattle.dr_plan_model.specs.Naming.{literal_of, prefix_of};
ghost use Rattle.dr_plan_text.specs.Fields.{SaysNamed, SaysField, SaysValues};
ghost use Rattle.dr_plan_text.specs.declared.fault.ReadFault.TheVariants.{Field};

use crate::fault::ReadFault;
use crate::fields::{Formed, TextForm, is_star};
use crate::form::{Form, ListOf, SomeOf};
use crate::forms::{is_literal, is_prefix};
use dr_base::{Seq, Text};
use dr_plan_model::Values;
use dr_route::{FieldPattern, FieldValues};
use std::alloc::{AllocError, Global};
use toml::Value;

/// What stands before a `*` at the end of a text.
fn before_star(text: &[u8]) -> Option<&[u8]>
    ensures { MatchOption result ((front : Words) → text.now ≡ front ++ 42 ∷ [] → ⊥)
        (λ front. text.now ≡ front.now ++ 42 ∷ []) }
{
    text.strip_suffix(b"*".as_slice())
}

/// The prefix that a text writes, with `*` behind it.
fn prefix_in(text: &[u8]) -> Option<&[u8]>
    ensures { MatchOption result
        ((prefix : Words) → text.now ≡ prefix ++ 42 ∷ [] → IsPrefix prefix → ⊥)
        (λ prefix. (text.now ≡ prefix.now ++ 42 ∷ []) × IsPrefix prefix.now) }
{
    let Some(prefix) = before_star(text) else {
        return None;
    };
    if is_prefix(prefix) {
        return Some(prefix);
    }
    None
}

/// The value that a text names: no literal has a `*`, so that a text is a literal or a prefix,
/// and never both.
fn named_in(alloc: Global, text: &[u8]) -> Result<FieldPattern, ReadFault>
    ensures ok { IfOk result (SaysNamed (string text.now)) }
    ensures field { IfErr result (λ e.
        e ≡ Field → (x : Named) → SaysNamed (string text.now) x → ⊥) }
{
    if is_literal(text) {
        return Ok(FieldPattern::Literal(Text::copy_of(alloc, text)?));
    }
    let Some(prefix) = prefix_in(text) else {
        return Err(ReadFault::Field);
    };
    Ok(FieldPattern::Prefix(Text::copy_of(alloc, prefix)?))
}

/// A value that is named: a literal, or a prefix with `*` behind it.
struct NamedValue;

impl Form for NamedValue {
    type Output = FieldPattern;

    ghost says = { SaysNamed };

    fn read(alloc: Global, value: &Value) -> Result<FieldPattern, ReadFault> {
        match value.as_str() {
            Some(text) => named_in(alloc, text.as_bytes()),
            None => Err(ReadFault::Field),
        }
    }
}

/// `*`, or a value that is named.
pub struct AnyValue;

impl Form for AnyValue {
    type Output = FieldPattern;

    ghost says = { SaysField };

    fn read(alloc: Global, value: &Value) -> Result<FieldPattern, ReadFault> {
        if is_star(value) {
            return Ok(FieldPattern::Any);
        }
        let named = NamedValue::read(alloc, value)?;
        Ok(named)
    }
}

/// A single value of a field.
pub struct SingleValue;

impl TextForm for SingleValue {
    ghost is_formed = { IsLiteral };

    fn test(text: &[u8]) -> bool {
        is_literal(text)
    }
}

/// The stations that a rule excepts: a list of one single value or more.
pub type Exceptions = SomeOf<Formed<SingleValue>>;

/// Adds the literal or the prefix of a pattern to the others of its kind.
fn add_named(values: &mut FieldValues, pattern: &FieldPattern) -> Result<(), AllocError>
    ensures { OnOk result
        ((values.new.literals ≡ values.old.literals ++ literal_of pattern.now)
        × (values.new.prefixes ≡ values.old.prefixes ++ prefix_of pattern.now)) }
{
    match pattern {
        FieldPattern::Any => Ok(()),
        FieldPattern::Literal(literal) => values.literals.push(literal.clone()?),
        FieldPattern::Prefix(prefix) => values.prefixes.push(prefix.clone()?),
    }
}

/// The literals of patterns and their prefixes, each in the order of the patterns.
fn values_of(alloc: Global, patterns: &[FieldPattern]) -> Result<FieldValues, AllocError>
    ensures { IfOk result (λ values. (values.literals ≡ flat_map literal_of patterns.now)
        × (values.prefixes ≡ flat_map prefix_of patterns.now)) }
{
    let mut values = FieldValues {
        literals: Seq::new(alloc),
        prefixes: Seq::new(alloc),
    };
    for pattern in patterns {
        add_named(&mut values, pattern)?;
    }
    Ok(values)
}

/// `*`, or a list of values that are named.
pub struct AnyValues;

impl Form for AnyValues {
    type Output = Values;

    ghost says = { SaysValues };

    fn read(alloc: Global, value: &Value) -> Result<Values, ReadFault> {
        if is_star(value) {
            return Ok(Values::Any);
        }
        let patterns = ListOf::<NamedValue>::read(alloc, value)?;
        let values = values_of(alloc, patterns.as_slice())?;
        Ok(Values::Listed(values))
    }
}
