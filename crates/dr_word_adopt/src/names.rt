//! Names of nodes: which are named, and whose ledgers go over.
ghost use Rattle.std.specs.Prelude.{◌≡◌, false, filter, IfOk, IsTrue, MatchOption, MatchResult};
ghost use Rattle.std.specs.Prelude.{Contains, map as mapped};
ghost use Rattle.dr_plan_model.specs.Plans.{NamesNoNode};
ghost use Rattle.dr_word_adopt.specs.Names.{AreNodes, AreOurs, IsUnnamed, is_among as is_one_of};
ghost use Rattle.dr_word_adopt.specs.Names.{is_besides as is_none_of, text_of};

use crate::change::Halted;
use dr_base::Text;
use dr_cert::Sealed;
use dr_plan_model::{Plan, names_of};
use dr_run_open::Halt;
use std::alloc::{AllocError, Global};

/// Whether the name is one of these.
pub fn is_among(names: &[Text], name: &Text) -> bool
    ensures { result ≡ is_one_of names.now name.now }
{
    names.iter().any(|other| *other == *name)
}

/// Whether the name is none of these.
fn is_besides(names: &[Text], name: &Text) -> bool
    ensures { result ≡ is_none_of names.now name.now }
{
    !is_among(names, name)
}

/// Those of these names that are none of the others, in their order.
fn all_besides(alloc: Global, names: &[Text], others: &[Text]) -> Result<Vec<Text>, AllocError>
    ensures { IfOk result (λ ours. ours.items ≡ filter (is_none_of others.now) names.now) }
{
    let mut ours = Vec::new(alloc);
    for name in names {
        if is_besides(others, name) {
            ours.push(name.clone()?)?;
        }
    }
    Ok(ours)
}

/// Whether no node of the plan has that name.
fn is_stranger(plan: &Plan, name: &Text) -> bool
    ensures yes { IsTrue result → NamesNoNode plan.now name.now }
    ensures no { result ≡ false → NamesNoNode plan.now name.now → ⊥ }
{
    match plan.node(name) {
        None => true,
        Some(_node) => false,
    }
}

/// The first of these names that no node of the plan has.
pub fn stranger_in<'n>(plan: &Plan, names: &'n [Text]) -> Option<&'n Text>
    ensures { MatchOption result (AreNodes plan.now names.now) (λ name.
        Contains names.now name.now × NamesNoNode plan.now name.now) }
{
    for name in names {
        if is_stranger(plan, name) {
            return Some(name);
        }
    }
    None
}

/// The words as texts.
pub fn texts_of(alloc: Global, words: &[&str]) -> Result<Vec<Text>, AllocError>
    ensures { IfOk result (λ texts. texts.items ≡ mapped text_of words.now) }
{
    let mut texts = Vec::new(alloc);
    for word in words {
        texts.push(Text::copy_of(alloc, word.as_bytes())?)?;
    }
    Ok(texts)
}

/// The names of those nodes of the one plan that are none of the others, in the order of their
/// bytes.
///
/// Errors: NoNode, where one of the others is no node of the one plan, or a node of that none of
/// the next; Memory.
pub fn ours_of<'a>(
    alloc: Global,
    old: &Sealed,
    next: &Sealed,
    others: &[Text],
) -> Result<Vec<Text>, Halted<'a>>
    ensures { MatchResult result
        (λ ours. AreOurs old.now.plan next.now.plan others.now ours.items)
        (λ stop. IsUnnamed old.now.plan next.now.plan others.now stop.halt) }
{
    if let Some(name) = stranger_in(old.plan(), others) {
        return Err(Halted::at(name, Halt::NoNode));
    }
    let names = names_of(alloc, old.plan())?;
    if let Some(name) = stranger_in(next.plan(), names.as_slice()) {
        return Err(Halted::at(name, Halt::NoNode));
    }
    let ours = all_besides(alloc, names.as_slice(), others)?;
    Ok(ours)
}
