//! The forms of fields that format 3 has and format 2 hasn't.
ghost use Rattle.std.specs.Prelude.{◌≡◌, ◌↔◌, ◌∷◌, IsTrue, IfOk, IfErr, List, MatchOption};
ghost use Rattle.toml.specs.View.{view};
ghost use Rattle.dr_base.specs.Texts.{Text as Words};
ghost use Rattle.dr_plan_expand.specs.Words.{IsPlainWord};
ghost use Rattle.dr_plan_expand.specs.Fields.{SaysWords, SaysAnyWords, SaysStations};
ghost use Rattle.dr_plan_expand.specs.Fields.{IsDefinition, AreDefinitions};
ghost use Rattle.dr_plan_expand.specs.declared.short.Definition.{Definition as Defined};
ghost use Rattle.dr_plan_text.specs.declared.fault.ReadFault.TheVariants.{Field};

use crate::short::{AnyWords, Definition};
use crate::words::after_mark;
use dr_base::{Seq, Text};
use dr_plan_text::fault::ReadFault;
use dr_plan_text::fields::{AnyText, Formed, TextForm, is_star};
use dr_plan_text::form::{Form, ListOf, SomeOf, TableForm};
use dr_plan_text::values::SingleValue;
use dr_route::names::set_of;
use std::alloc::Global;
use toml::{Table, Value};

/// The name of a node: it doesn't begin with `@`.
pub struct Plain;

impl TextForm for Plain {
    ghost is_formed = { IsPlainWord };

    fn test(text: &[u8]) -> bool {
        match after_mark(text) {
            Some(_) => false,
            None => true,
        }
    }
}

/// One word, or a list of one word or more.
pub struct OneOrMore;

impl Form for OneOrMore {
    type Output = Seq<Text>;

    ghost says = { SaysWords };

    fn read(alloc: Global, value: &Value) -> Result<Seq<Text>, ReadFault> {
        let Some(text) = value.as_str() else {
            return SomeOf::<AnyText>::read(alloc, value);
        };
        let word = Text::copy_of(alloc, text.as_bytes())?;
        let mut words = Seq::new(alloc);
        words.push(word)?;
        Ok(words)
    }
}

/// `*`, or words.
pub struct AnyOrMore;

impl Form for AnyOrMore {
    type Output = AnyWords;

    ghost says = { SaysAnyWords };

    fn read(alloc: Global, value: &Value) -> Result<AnyWords, ReadFault> {
        if is_star(value) {
            return Ok(AnyWords::Any);
        }
        let words = OneOrMore::read(alloc, value)?;
        Ok(AnyWords::Listed(words))
    }
}

/// The stations that a rule excepts: a list of single values, which may be empty, and is read as
/// the set of them.
pub struct Stations;

impl Form for Stations {
    type Output = Seq<Text>;

    ghost says = { SaysStations };

    fn read(alloc: Global, value: &Value) -> Result<Seq<Text>, ReadFault> {
        let listed = ListOf::<Formed<SingleValue>>::read(alloc, value)?;
        let set = set_of(alloc, listed.as_slice())?;
        Ok(set)
    }
}

/// What a key of the table defines.
fn definition_of(alloc: Global, name: &str, value: &Value) -> Result<Definition, ReadFault>
    ensures ok { IfOk result (IsDefinition name.now (view value.now)) }
    ensures field { IfErr result (λ e.
        e ≡ Field → (x : Defined) → IsDefinition name.now (view value.now) x → ⊥) }
{
    let words = SomeOf::<AnyText>::read(alloc, value)?;
    let name = Text::copy_of(alloc, name.as_bytes())?;
    Ok(Definition { name, words })
}

/// A table of definitions, by their names.
pub struct Definitions;

impl TableForm for Definitions {
    type Output = Seq<Definition>;

    ghost is_table = { AreDefinitions };

    fn read_table(alloc: Global, table: &Table) -> Result<Seq<Definition>, ReadFault> {
        let mut read = Vec::new(alloc);
        for (name, value) in table.iter() {
            read.push(definition_of(alloc, name.as_str(), value)?)?;
        }
        Ok(Seq::from_vec(read))
    }
}
