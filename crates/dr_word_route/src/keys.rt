//! The key of an instance, of its words or of its file.
ghost use Rattle.std.specs.Prelude.{◌≡◌, ◌≢◌, IfOk, MatchOption};
ghost use Rattle.dr_plan_model.specs.Plans.{IsTheNode, NamesNoNode};
ghost use Rattle.dr_word_route.specs.Keys.{ReadsDataSet, ReadsFileKey, ReadsItemKey, ReadsSite};
ghost use Rattle.dr_word_route.specs.Keys.{ReadsWords};

use crate::reply::Unanswered;
use dr_base::{Syntax, Text};
use dr_dataset::FileFault;
use dr_dataset::file::part10;
use dr_ledger::{Item, ItemFault};
use dr_plan_model::{Node, Plan};
use dr_route::Key;
use dr_word_line::KeyWords;
use std::alloc::{AllocError, Global};

/// The node of that name, and None for a stranger.
fn known_node<'a>(plan: &'a Plan, name: &Text) -> Option<&'a Node>
    ensures { MatchOption result (NamesNoNode plan.now name.now) (λ node.
        IsTheNode plan.now name.now node.now) }
{
    plan.node(name)
}

/// The title of the node of that name.
///
/// Errors: NoNode, Memory.
pub fn site_of(alloc: Global, plan: &Plan, at: &str) -> Result<Text, Unanswered>
    ensures { ReadsSite plan.now at.now result }
{
    let Ok(site) = Text::copy_of(alloc, at.as_bytes()) else {
        return Err(Unanswered::Memory);
    };
    let Some(_known) = known_node(plan, &site) else {
        return Err(Unanswered::NoNode);
    };
    Ok(site)
}

/// The key with these words, in that transfer syntax.
fn key_in(alloc: Global, words: &KeyWords<'_>, syntax: Syntax) -> Result<Key, AllocError>
    ensures { IfOk result (λ key. (key.class ≡ words.now.class.now)
        × (key.syntax ≡ syntax)
        × (key.modality ≡ words.now.modality.now)
        × (key.station ≡ words.now.station.now)) }
{
    Ok(Key {
        class: Text::copy_of(alloc, words.class.as_bytes())?,
        syntax,
        modality: Text::copy_of(alloc, words.modality.as_bytes())?,
        station: Text::copy_of(alloc, words.station.as_bytes())?,
    })
}

/// The key that has these words.
///
/// Errors: File (OtherSyntax); Memory.
pub fn key_of_words(alloc: Global, words: &KeyWords<'_>) -> Result<Key, Unanswered>
    ensures { ReadsWords words.now result }
{
    let Some(syntax) = Syntax::of_uid(words.syntax.as_bytes()) else {
        return Err(Unanswered::File(FileFault::OtherSyntax));
    };
    let Ok(key) = key_in(alloc, words, syntax) else {
        return Err(Unanswered::Memory);
    };
    Ok(key)
}

/// The data set of a file, and its transfer syntax.
///
/// Errors: File, Memory.
fn data_set_of(alloc: Global, bytes: &[u8]) -> Result<(Syntax, Text), Unanswered>
    ensures { ReadsDataSet bytes.now result }
{
    let part = match part10(bytes) {
        Ok(part) => part,
        Err(fault) => return Err(Unanswered::File(fault)),
    };
    let Ok(body) = Text::copy_of(alloc, &bytes[part.start..]) else {
        return Err(Unanswered::Memory);
    };
    Ok((part.syntax, body))
}

/// The key of a data set's item.
///
/// Errors: Item, Memory.
fn key_of_data_set(alloc: Global, syntax: Syntax, body: Text) -> Result<Key, Unanswered>
    ensures { ReadsItemKey syntax body result }
{
    let item = match Item::read(alloc, syntax, body) {
        Ok(item) => item,
        Err(ItemFault::Memory) => return Err(Unanswered::Memory),
        Err(fault) => return Err(Unanswered::Item(fault)),
    };
    let Ok(key) = item.key().clone() else {
        return Err(Unanswered::Memory);
    };
    Ok(key)
}

/// The key of the instance in a Part 10 file (PS3.10 7.1).
///
/// Errors: File, Item, Memory.
pub fn key_of_file(alloc: Global, bytes: &[u8]) -> Result<Key, Unanswered>
    ensures { ReadsFileKey bytes.now result }
{
    let (syntax, body) = match data_set_of(alloc, bytes) {
        Ok(data_set) => data_set,
        Err(refusal) => return Err(refusal),
    };
    key_of_data_set(alloc, syntax, body)
}
