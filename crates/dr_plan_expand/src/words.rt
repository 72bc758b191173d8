//! What the words of a plan stand for.
ghost use Rattle.std.specs.Prelude.{◌≡◌, ◌∷◌, ◌≢◌, ◌↔◌, IsTrue, [], IfOk, IfErr, List};
ghost use Rattle.std.specs.Prelude.{MatchOption, map};
ghost use Rattle.dr_base.specs.Texts.{Text as Words};
ghost use Rattle.dr_plan_expand.specs.Lists.{Yields};
ghost use Rattle.dr_plan_expand.specs.Words.{Defines, IsClassOf, YieldsClass, YieldsOfSet, IsSet};
ghost use Rattle.dr_plan_expand.specs.Words.{YieldsClasses, YieldsNodes, YieldsSyntax};
ghost use Rattle.dr_plan_expand.specs.Words.{entries, of_set, of_sets};
ghost use Rattle.dr_plan_expand.specs.declared.fault.WordFault.TheVariants.{Unknown};

use crate::fault::WordFault;
use crate::find::{Test, first};
use crate::known::{OfSet, SetTable, Table, uid_of};
use crate::short::Definition;
use crate::yields::{Yielding, all};
use dr_base::{Seq, Text};
use dr_plan_text::forms::is_class;
use std::alloc::{AllocError, Global};

/// What follows an `@` at the front of a word.
pub(crate) fn after_mark(word: &[u8]) -> Option<&[u8]>
    ensures { MatchOption result ((rest : Words) → word.now ≡ 64 ∷ rest → ⊥)
        (λ rest. word.now ≡ 64 ∷ rest.now) }
{
    word.strip_prefix(b"@".as_slice())
}

/// The list of one text.
fn one(alloc: Global, text: &[u8]) -> Result<Seq<Text>, AllocError>
    ensures { IfOk result (λ texts. texts ≡ text.now ∷ []) }
{
    let text = Text::copy_of(alloc, text)?;
    let mut texts = Seq::new(alloc);
    texts.push(text)?;
    Ok(texts)
}

/// A definition is of this name.
#[derive(Drop)]
struct OfName<'a>(&'a [u8]);

impl<'a> Test for OfName<'a> {
    type Item = Definition;

    ghost holds = { λ of definition. definition.name ≡ of.0.now };

    fn test(&self, definition: &Definition) -> bool {
        definition.name.as_bytes() == self.0
    }
}

/// The words that a name is defined by, and None where nothing defines it.
pub(crate) fn defined<'a>(definitions: &'a [Definition], name: &[u8]) -> Option<&'a [Text]>
    ensures { MatchOption result ((words : List Words) → Defines definitions.now name.now words → ⊥)
        (λ words. Defines definitions.now name.now words.now) }
{
    match first(&OfName(name), definitions) {
        Some(definition) => Some(definition.words.as_slice()),
        None => None,
    }
}

/// Words that are classes, by their UIDs or their names.
#[derive(Drop)]
struct ClassName<'a>(&'a [Table]);

impl<'a> Yielding for ClassName<'a> {
    type Element = Text;

    type Thing = Text;

    ghost yields = { λ class. YieldsClass (map entries class.0.now) };

    fn things(&self, alloc: Global, word: &Text) -> Result<Seq<Text>, WordFault> {
        if is_class(word.as_bytes()) {
            return Ok(one(alloc, word.as_bytes())?);
        }
        match uid_of(self.0, word.as_bytes()) {
            Some(uid) => Ok(one(alloc, uid.as_bytes())?),
            None => Err(WordFault::Unknown),
        }
    }
}

/// Whether the class is of the set of this name.
fn is_in(class: &OfSet, set: &[u8]) -> bool
    ensures { IsTrue result ↔ ((of_set class.now).0 ≡ set.now) }
{
    class.0.as_bytes() == set
}

/// Classes of a set, among those of all sets.
#[derive(Drop)]
struct InSet<'a>(&'a [u8]);

impl<'a> Yielding for InSet<'a> {
    type Element = OfSet;

    type Thing = Text;

    ghost yields = { λ of class. YieldsOfSet of.0.now (of_set class) };

    fn things(&self, alloc: Global, class: &OfSet) -> Result<Seq<Text>, WordFault> {
        if is_in(class, self.0) {
            return Ok(one(alloc, class.1.as_bytes())?);
        }
        Ok(Seq::new(alloc))
    }
}

/// Classes of a set, table by table.
#[derive(Drop)]
struct InTables<'a>(&'a [u8]);

impl<'a> Yielding for InTables<'a> {
    type Element = SetTable;

    type Thing = Text;

    ghost yields = { λ of table. Yields (YieldsOfSet of.0.now) (of_sets table) };

    fn things(&self, alloc: Global, table: &SetTable) -> Result<Seq<Text>, WordFault> {
        all(&InSet(self.0), alloc, table)
    }
}

/// The classes of the set of this name which comes with the product.
fn usual_set(alloc: Global, usual: &[SetTable], name: &[u8]) -> Result<Seq<Text>, WordFault>
    ensures ok { IfOk result (λ uids.
        Yields (Yields (YieldsOfSet name.now)) (map of_sets usual.now) uids × (uids ≢ [])) }
    ensures unknown { IfErr result (λ e. e ≡ Unknown → (uids : List Words)
        → Yields (Yields (YieldsOfSet name.now)) (map of_sets usual.now) uids → uids ≢ [] → ⊥) }
{
    let uids = all(&InTables(name), alloc, usual)?;
    if uids.is_empty() {
        return Err(WordFault::Unknown);
    }
    Ok(uids)
}

/// Words in a list of classes, with the sets that come with the product and those that the plan
/// defines.
#[derive(Drop)]
pub struct Classes<'a>(pub &'a [Table], pub &'a [SetTable], pub &'a [Definition]);

/// The classes of a set.
fn set_of(alloc: Global, classes: &Classes<'_>, name: &[u8]) -> Result<Seq<Text>, WordFault>
    ensures ok { IfOk result
        (IsSet (map entries classes.now.0.now) (map of_sets classes.now.1.now)
        classes.now.2.now name.now) }
    ensures unknown { IfErr result (λ e. e ≡ Unknown → (uids : List Words)
        → IsSet (map entries classes.now.0.now) (map of_sets classes.now.1.now)
        classes.now.2.now name.now uids
        → ⊥) }
{
    match defined(classes.2, name) {
        Some(words) => all(&ClassName(classes.0), alloc, words),
        None => usual_set(alloc, classes.1, name),
    }
}

impl<'a> Yielding for Classes<'a> {
    type Element = Text;

    type Thing = Text;

    ghost yields = { λ classes.
        YieldsClasses (map entries classes.0.now) (map of_sets classes.1.now) classes.2.now };

    fn things(&self, alloc: Global, word: &Text) -> Result<Seq<Text>, WordFault> {
        match after_mark(word.as_bytes()) {
            Some(name) => set_of(alloc, self, name),
            None => ClassName(self.0).things(alloc, word),
        }
    }
}

/// Words that are nodes, with the groups that the plan defines.
#[derive(Drop)]
pub struct Nodes<'a>(pub &'a [Definition]);

impl<'a> Yielding for Nodes<'a> {
    type Element = Text;

    type Thing = Text;

    ghost yields = { λ nodes. YieldsNodes nodes.0.now };

    fn things(&self, alloc: Global, word: &Text) -> Result<Seq<Text>, WordFault> {
        let Some(name) = after_mark(word.as_bytes()) else {
            return Ok(one(alloc, word.as_bytes())?);
        };
        match defined(self.0, name) {
            Some(names) => Ok(copy_of(alloc, names)?),
            None => Err(WordFault::Unknown),
        }
    }
}

/// A copy of texts.
pub fn copy_of(alloc: Global, texts: &[Text]) -> Result<Seq<Text>, AllocError>
    ensures { IfOk result (λ copy. copy ≡ texts.now) }
{
    let mut copy = Vec::new(alloc);
    for text in texts {
        copy.push(text.clone()?)?;
    }
    Ok(Seq::from_vec(copy))
}

/// Words that are transfer syntaxes.
#[derive(Drop)]
pub struct Syntaxes<'a>(pub &'a [Table]);

impl<'a> Yielding for Syntaxes<'a> {
    type Element = Text;

    type Thing = Text;

    ghost yields = { λ syntaxes. YieldsSyntax (map entries syntaxes.0.now) };

    fn things(&self, alloc: Global, word: &Text) -> Result<Seq<Text>, WordFault> {
        match uid_of(self.0, word.as_bytes()) {
            Some(uid) => Ok(one(alloc, uid.as_bytes())?),
            None => Ok(one(alloc, word.as_bytes())?),
        }
    }
}
