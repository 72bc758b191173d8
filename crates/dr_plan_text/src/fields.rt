//! The forms of a plan's fields.
ghost use Rattle.std.specs.Prelude.{◌≡◌, ◌≢◌, ◌↔◌, IfOk, OnOk, IfErr, List, IsTrue, AllPairs};
ghost use Rattle.toml.specs.Data.{integer};
ghost use Rattle.toml.specs.View.{view};
ghost use Rattle.dr_base.specs.Texts.{Text as Words};
ghost use Rattle.dr_plan_model.specs.Formed.{IsClass, IsAddress};
ghost use Rattle.dr_plan_text.specs.Fields.{SaysText, SaysFormed, SaysNumber, SaysFlag, SaysFormat};
ghost use Rattle.dr_plan_text.specs.Fields.{SaysPattern, SaysCallers, SaysTextsOnce};
ghost use Rattle.dr_plan_text.specs.Fields.{SaysSome};
ghost use Rattle.dr_plan_text.specs.Fields.{star};
ghost use Rattle.dr_plan_text.specs.declared.fault.ReadFault.TheVariants.{Field};

use crate::fault::ReadFault;
use crate::form::{Form, ListOf, SomeOf};
use crate::forms::{is_address, is_class};
use dr_base::{Seq, Text};
use dr_plan_model::Format;
use dr_route::{Callers, Pattern};
use std::alloc::{AllocError, Global};
use std::collections::BTreeSet;
use toml::Value;

/// Any text.
pub struct AnyText;

impl Form for AnyText {
    type Output = Text;

    ghost says = { SaysText };

    fn read(alloc: Global, value: &Value) -> Result<Text, ReadFault> {
        let Some(text) = value.as_str() else {
            return Err(ReadFault::Field);
        };
        Ok(Text::copy_of(alloc, text.as_bytes())?)
    }
}

/// A form of text that can be tested.
pub trait TextForm {
    ghost is_formed: { Words → Type 0 };

    /// Whether the text has the form.
    fn test(text: &[u8]) -> bool
        ensures { IsTrue result ↔ is_formed text.now };
}

/// A text of one form.
pub struct Formed<T>(pub T);

impl<T: TextForm> Form for Formed<T> {
    type Output = Text;

    ghost says = { SaysFormed T.is_formed };

    fn read(alloc: Global, value: &Value) -> Result<Text, ReadFault> {
        let Some(text) = value.as_str() else {
            return Err(ReadFault::Field);
        };
        if !T::test(text.as_bytes()) {
            return Err(ReadFault::Field);
        }
        Ok(Text::copy_of(alloc, text.as_bytes())?)
    }
}

/// A SOP class.
pub struct Class;

impl TextForm for Class {
    ghost is_formed = { IsClass };

    fn test(text: &[u8]) -> bool {
        is_class(text)
    }
}

/// A host and a port.
pub struct Address;

impl TextForm for Address {
    ghost is_formed = { IsAddress };

    fn test(text: &[u8]) -> bool {
        is_address(text)
    }
}

/// What a value says, where one may be left out.
pub struct Maybe<F>(pub F);

impl<F: Form> Form for Maybe<F> {
    type Output = Option<F::Output>;

    ghost says = { SaysSome F.says };

    fn read(alloc: Global, value: &Value) -> Result<Option<F::Output>, ReadFault> {
        let read = F::read(alloc, value)?;
        Ok(Some(read))
    }
}

/// An integer.
pub struct Number;

impl Form for Number {
    type Output = i64;

    ghost says = { SaysNumber };

    fn read(_alloc: Global, value: &Value) -> Result<i64, ReadFault> {
        value.as_integer().ok_or(ReadFault::Field)
    }
}

/// True or false.
pub struct Flag;

impl Form for Flag {
    type Output = bool;

    ghost says = { SaysFlag };

    fn read(_alloc: Global, value: &Value) -> Result<bool, ReadFault> {
        value.as_bool().ok_or(ReadFault::Field)
    }
}

/// Whether the value is this number.
fn is_number(value: &Value, number: i64) -> bool
    ensures { IsTrue result ↔ (view value.now ≡ integer number) }
{
    value.as_integer() == Some(number)
}

/// The number of a format.
pub struct FormatNumber;

impl Form for FormatNumber {
    type Output = Format;

    ghost says = { SaysFormat };

    fn read(_alloc: Global, value: &Value) -> Result<Format, ReadFault> {
        if is_number(value, 1) {
            return Ok(Format::One);
        }
        if is_number(value, 2) {
            return Ok(Format::Two);
        }
        if is_number(value, 3) {
            return Ok(Format::Three);
        }
        Err(ReadFault::Field)
    }
}

/// Whether the value is the text `*`.
pub fn is_star(value: &Value) -> bool
    ensures { IsTrue result ↔ (view value.now ≡ star) }
{
    match value.as_str() {
        Some(text) => text == "*",
        None => false,
    }
}

/// `*`, or a text of that form.
pub struct PatternOf<F>(pub F);

impl<F: Form<Output = Text>> Form for PatternOf<F> {
    type Output = Pattern;

    ghost says = { SaysPattern F.says };

    fn read(alloc: Global, value: &Value) -> Result<Pattern, ReadFault> {
        if is_star(value) {
            return Ok(Pattern::Any);
        }
        Ok(Pattern::Literal(F::read(alloc, value)?))
    }
}

/// `*`, or a name.
pub type NamePattern = PatternOf<AnyText>;

/// `*`, or a class.
pub type ClassPattern = PatternOf<Formed<Class>>;

/// `*`, or a list of names.
pub struct AnyCallers;

impl Form for AnyCallers {
    type Output = Callers;

    ghost says = { SaysCallers };

    fn read(alloc: Global, value: &Value) -> Result<Callers, ReadFault> {
        if is_star(value) {
            return Ok(Callers::Any);
        }
        Ok(Callers::Listed(ListOf::<AnyText>::read(alloc, value)?))
    }
}

/// Whether no text stands among them twice.
fn are_apart(alloc: Global, texts: &[Text]) -> Result<bool, AllocError>
    ensures { IfOk result (λ b. IsTrue b ↔ AllPairs (λ s t. s ≢ t) texts.now) }
{
    let mut seen = BTreeSet::new(alloc);
    for text in texts {
        if !seen.insert(text.clone()?)? {
            return Ok(false);
        }
    }
    Ok(true)
}

/// A list of one text or more, none of which stands there twice.
pub struct TextsOnce;

impl Form for TextsOnce {
    type Output = Seq<Text>;

    ghost says = { SaysTextsOnce };

    fn read(alloc: Global, value: &Value) -> Result<Seq<Text>, ReadFault> {
        let texts = SomeOf::<AnyText>::read(alloc, value)?;
        if !are_apart(alloc, texts.as_slice())? {
            return Err(ReadFault::Field);
        }
        Ok(texts)
    }
}
