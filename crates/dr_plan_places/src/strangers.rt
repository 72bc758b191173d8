//! Words of a plan of format 3 that nobody defines.
ghost use Rattle.std.specs.Prelude.{◌≡◌, IfOk, All, List, MatchOption, Some, slice_get};
ghost use Rattle.dr_base.specs.Texts.{Text as Words};
ghost use Rattle.dr_plan_expand.specs.Meanings.{lookups_of};
ghost use Rattle.dr_plan_expand.specs.Seen.{seen};
ghost use Rattle.dr_plan_places.specs.Firsts.{HasNone};
ghost use Rattle.dr_plan_places.specs.Strangers.{IsAmong, IsAmongCallers, IsAmongWords, IsNoNode};
ghost use Rattle.dr_plan_places.specs.Strangers.{IsInRow, IsInRule, IsInFlow, IsInPart};
ghost use Rattle.dr_plan_places.specs.Strangers.{IsStrangerAt, IsStranger, HasNoStranger};

use crate::field_place::{FieldPlace, NodePart};
use dr_base::Text;
use dr_plan_expand::lookup::{standard_tables, tables_of};
use dr_plan_expand::meant::Tables;
use dr_plan_expand::words::{Classes, Nodes};
use dr_plan_expand::yields::Yielding;
use dr_plan_expand::{AnyWords, ShortFlow, ShortNode, ShortPlan, ShortRow, ShortRule, WordFault};
use dr_route::Callers;
use std::alloc::{AllocError, Global};

/// A field whose values are words.
#[derive(Clone, Copy, PartialEq, Eq)]
pub enum WordKey {
    /// `from`.
    From,
    /// `class`.
    Class,
    /// `to`.
    To,
    /// `at`.
    At,
}

/// A word that stands for nothing, and the field where it stands.
#[derive(Drop)]
pub struct Stranger {
    pub key: WordKey,
    pub word: Text,
}

/// A search in values of one type.
trait Hunt {
    type Value;

    type Found: Drop;

    ghost is_found: { Self → Self.Value → Self.Found → Type 0 };

    /// What is found in the value; None where nothing can be.
    fn hunt(&self, alloc: Global, value: &Self::Value) -> Result<Option<Self::Found>, AllocError>
        ensures { IfOk result (λ found. MatchOption found
            (HasNone (is_found self.now value.now)) (is_found self.now value.now)) };
}

/// The first of the values in which something is found, by its index, and what is found.
fn first_found<H: Hunt>(
    hunt: &H,
    alloc: Global,
    values: &[H::Value],
) -> Result<Option<(usize, H::Found)>, AllocError>
    ensures { IfOk result (λ first. MatchOption first
        (All (λ value. HasNone (H.is_found hunt.now value)) values.now)
        (λ f. (value : H.Value)
        × (slice_get values.now f.0 ≡ Some value)
        × H.is_found hunt.now value f.1)) }
{
    for (index, value) in values.iter().enumerate() {
        if let Some(found) = hunt.hunt(alloc, value)? {
            return Ok(Some((index, found)));
        }
    }
    Ok(None)
}

/// A search for words that yield nothing in this way.
#[derive(Drop)]
struct Yieldless<'a, Y>(&'a Y);

impl<'a, Y: Yielding<Element = Text, Thing = Text>> Hunt for Yieldless<'a, Y> {
    type Value = Text;

    type Found = Text;

    ghost is_found = { λ hunt word found.
        (found ≡ word) × ((things : List Words) → Y.yields hunt.0.now word things → ⊥) };

    fn hunt(&self, alloc: Global, word: &Text) -> Result<Option<Text>, AllocError> {
        let Err(fault) = self.0.things(alloc, word) else {
            return Ok(None);
        };
        match fault {
            WordFault::Unknown => Ok(Some(word.clone()?)),
            WordFault::Memory => Err(AllocError),
        }
    }
}

/// The first of a field's words that yields nothing.
fn stranger_among<Y: Yielding<Element = Text, Thing = Text>>(
    way: &Y,
    alloc: Global,
    key: WordKey,
    words: &[Text],
) -> Result<Option<Stranger>, AllocError>
    ensures { IfOk result (λ found. MatchOption found
        (HasNone (λ word. IsAmong words.now word
        × ((things : List Words) → Y.yields way.now word things → ⊥)))
        (λ stranger. (stranger.key ≡ key)
        × IsAmong words.now stranger.word
        × ((things : List Words) → Y.yields way.now stranger.word things → ⊥))) }
{
    match first_found(&Yieldless(way), alloc, words)? {
        Some((_, word)) => Ok(Some(Stranger { key, word })),
        None => Ok(None),
    }
}

/// The first of a row's callers that stands for no node.
fn among_callers(
    alloc: Global,
    tables: Tables<'_>,
    from: &Callers,
) -> Result<Option<Stranger>, AllocError>
    ensures { IfOk result (λ found. MatchOption found
        (HasNone (λ word. IsAmongCallers from.now word × IsNoNode (seen tables.entry) word))
        (λ stranger. (stranger.key ≡ WordKey.From)
        × IsAmongCallers from.now stranger.word
        × IsNoNode (seen tables.entry) stranger.word)) }
{
    match from {
        Callers::Any => Ok(None),
        Callers::Listed(words) => {
            stranger_among(
                &Nodes(tables.groups),
                alloc,
                WordKey::From,
                words.as_slice(),
            )
        }
    }
}

/// The first word of a rule's field that yields nothing.
fn among_words<Y: Yielding<Element = Text, Thing = Text>>(
    way: &Y,
    alloc: Global,
    key: WordKey,
    words: &AnyWords,
) -> Result<Option<Stranger>, AllocError>
    ensures { IfOk result (λ found. MatchOption found
        (HasNone (λ word. IsAmongWords words.now word
        × ((things : List Words) → Y.yields way.now word things → ⊥)))
        (λ stranger. (stranger.key ≡ key)
        × IsAmongWords words.now stranger.word
        × ((things : List Words) → Y.yields way.now stranger.word things → ⊥))) }
{
    match words {
        AnyWords::Any => Ok(None),
        AnyWords::Listed(listed) => stranger_among(way, alloc, key, listed.as_slice()),
    }
}

/// A search in accept rows.
#[derive(Clone, Copy)]
struct InRows<'a>(Tables<'a>);

impl<'a> Hunt for InRows<'a> {
    type Value = ShortRow;

    type Found = Stranger;

    ghost is_found = { λ hunt row found. IsInRow (seen hunt.0) row found.key found.word };

    fn hunt(&self, alloc: Global, row: &ShortRow) -> Result<Option<Stranger>, AllocError> {
        let tables = self.0;
        if let Some(found) = among_callers(alloc, tables, &row.from)? {
            return Ok(Some(found));
        }
        let way = Classes(tables.classes, tables.usual, tables.sets);
        stranger_among(&way, alloc, WordKey::Class, row.classes.as_slice())
    }
}

/// A search in rules.
#[derive(Clone, Copy)]
struct InRules<'a>(Tables<'a>);

impl<'a> Hunt for InRules<'a> {
    type Value = ShortRule;

    type Found = Stranger;

    ghost is_found = { λ hunt rule found. IsInRule (seen hunt.0) rule found.key found.word };

    fn hunt(&self, alloc: Global, rule: &ShortRule) -> Result<Option<Stranger>, AllocError> {
        let tables = self.0;
        let nodes = Nodes(tables.groups);
        if let Some(found) = among_words(&nodes, alloc, WordKey::From, &rule.from)? {
            return Ok(Some(found));
        }
        let way = Classes(tables.classes, tables.usual, tables.sets);
        if let Some(found) = among_words(&way, alloc, WordKey::Class, &rule.classes)? {
            return Ok(Some(found));
        }
        stranger_among(&nodes, alloc, WordKey::To, rule.to.as_slice())
    }
}

/// A search in nodes.
#[derive(Clone, Copy)]
struct InNodes<'a>(Tables<'a>);

impl<'a> Hunt for InNodes<'a> {
    type Value = ShortNode;

    type Found = (NodePart, Stranger);

    ghost is_found = { λ hunt node found.
        IsInPart (seen hunt.0) node found.0 found.1.key found.1.word };

    fn hunt(
        &self,
        alloc: Global,
        node: &ShortNode,
    ) -> Result<Option<(NodePart, Stranger)>, AllocError> {
        if let Some((row, found)) = first_found(&InRows(self.0), alloc, node.accepts.as_slice())? {
            return Ok(Some((NodePart::AcceptRow(row), found)));
        }
        match first_found(&InRules(self.0), alloc, node.rules.as_slice())? {
            Some((rule, found)) => Ok(Some((NodePart::Rule(rule), found))),
            None => Ok(None),
        }
    }
}

/// A search in flows.
#[derive(Clone, Copy)]
struct InFlows<'a>(Tables<'a>);

impl<'a> Hunt for InFlows<'a> {
    type Value = ShortFlow;

    type Found = Stranger;

    ghost is_found = { λ hunt flow found. IsInFlow (seen hunt.0) flow found.key found.word };

    fn hunt(&self, alloc: Global, flow: &ShortFlow) -> Result<Option<Stranger>, AllocError> {
        let tables = self.0;
        let nodes = Nodes(tables.groups);
        if let Some(found) = stranger_among(&nodes, alloc, WordKey::At, flow.at.as_slice())? {
            return Ok(Some(found));
        }
        if let Some(found) = stranger_among(&nodes, alloc, WordKey::To, flow.to.as_slice())? {
            return Ok(Some(found));
        }
        let way = Classes(tables.classes, tables.usual, tables.sets);
        stranger_among(&way, alloc, WordKey::Class, flow.classes.as_slice())
    }
}

/// The first word that stands for nothing by these tables, and its place.
fn stranger_by(
    alloc: Global,
    tables: Tables<'_>,
    short: &ShortPlan,
) -> Result<Option<(FieldPlace, Stranger)>, AllocError>
    ensures { IfOk result (λ found. MatchOption found
        (HasNoStranger (seen tables.entry) short.now)
        (λ f. IsStrangerAt (seen tables.entry) short.now f.0 f.1.key f.1.word)) }
{
    if let Some((node, (part, found))) = first_found(
        &InNodes(tables),
        alloc,
        short.nodes.as_slice(),
    )? {
        return Ok(Some((FieldPlace::OfNode(node, part), found)));
    }
    match first_found(&InFlows(tables), alloc, short.flows.as_slice())? {
        Some((flow, found)) => Ok(Some((FieldPlace::OfFlow(flow), found))),
        None => Ok(None),
    }
}

/// A word of the plan that stands for nothing, and its place, and None where each stands for
/// something: nodes are looked at first, and of each its accept rows, then its rules.
///
/// Errors: want of memory.
pub fn stranger_in(
    alloc: Global,
    short: &ShortPlan,
) -> Result<Option<(FieldPlace, Stranger)>, AllocError>
    ensures { IfOk result (λ found. MatchOption found
        (HasNoStranger (lookups_of short.now) short.now)
        (λ f. IsStranger short.now f.0 f.1.key f.1.word)) }
{
    let known = standard_tables();
    let tables = tables_of(&known, short);
    let found = stranger_by(alloc, tables, short)?;
    Ok(found)
}
