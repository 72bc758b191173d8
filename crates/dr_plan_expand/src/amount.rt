//! How much a plan of format 3 stands for, counted before anything is made of it.
ghost use Rattle.std.specs.Prelude.{◌≡◌, ◌+◌, ◌*◌, ◌<◌, ◌≤◌, ◌↔◌, ℕ, IsTrue, MatchOption};
ghost use Rattle.std.specs.Prelude.{length, map, nat_le, sum_by};
ghost use Rattle.dr_plan_expand.specs.Amounts.{too_much, list_amount, defined_size, one_if_in};
ghost use Rattle.dr_plan_expand.specs.Amounts.{usual_size, word_nodes, word_classes, callers_size};
ghost use Rattle.dr_plan_expand.specs.Amounts.{any_size, values_size, row_size, rule_size};
ghost use Rattle.dr_plan_expand.specs.Amounts.{node_size, flow_size, definition_size};
ghost use Rattle.dr_plan_expand.specs.Amounts.{definitions_size, plan_size, lists_size, IsWithin};
ghost use Rattle.dr_plan_expand.specs.Seen.{seen};
ghost use Rattle.dr_plan_expand.specs.Words.{of_set, of_sets};

use crate::known::{OfSet, SetTable};
use crate::lookup::{standard_tables, tables_of};
use crate::meant::Tables;
use crate::short::{AnyWords, Definition, ShortFlow, ShortNode, ShortPlan, ShortRow, ShortRule};
use crate::words::{after_mark, defined};
use dr_base::Text;
use dr_plan_model::Values;
use dr_route::Callers;

/// The most that a plan may stand for.
pub const MOST: usize = 262144;

/// More than a plan may stand for.
const TOO_MUCH: usize = 262145;

/// The most that one list may stand for.
const MOST_LISTED: usize = 1024;

/// The longest word, in bytes.
const LONGEST_WORD: usize = 128;

/// What this much leaves of the room; None where there isn't as much.
fn take(room: usize, size: usize) -> Option<usize>
    ensures { MatchOption result (room < size) (λ left. size + left ≡ room) }
{
    if room < size {
        return None;
    }
    Some(room - size)
}

/// What a product leaves of the room.
fn take_area(room: usize, width: usize, height: usize) -> Option<usize>
    ensures { MatchOption result (room < width * height) (λ left. width * height + left ≡ room) }
{
    match width.checked_mul(height) {
        Some(area) => take(room, area),
        None => None,
    }
}

/// What a product of three leaves of the room.
fn take_volume(room: usize, width: usize, height: usize, depth: usize) -> Option<usize>
    requires { 0 < depth }
    ensures { MatchOption result (room < width * height * depth)
        (λ left. width * height * depth + left ≡ room) }
{
    match width.checked_mul(height) {
        Some(area) => take_area(room, area, depth),
        None => None,
    }
}

/// A way in which elements are counted.
pub trait Amounting {
    type Element;

    ghost amount: { Self → Self.Element → ℕ };

    /// What the element leaves of the room; None where there isn't room for it.
    fn spend(&self, element: &Self::Element, room: usize) -> Option<usize>
        ensures { MatchOption result (room < amount self.now element.now)
            (λ left. amount self.now element.now + left ≡ room) };
}

/// What the elements together leave of the room; None where there isn't room for them.
fn spend_all<A: Amounting>(way: &A, elements: &[A::Element], room: usize) -> Option<usize>
    ensures { MatchOption result (room < sum_by (A.amount way.now) elements.now)
        (λ left. sum_by (A.amount way.now) elements.now + left ≡ room) }
{
    let mut left = room;
    for element in elements {
        match way.spend(element, left) {
            Some(more) => left = more,
            None => return None,
        }
    }
    Some(left)
}

/// The number of a list.
fn list_of(count: usize) -> usize
    ensures is { result ≡ list_amount count }
    ensures small { result ≤ too_much }
{
    if count <= MOST_LISTED {
        return count;
    }
    TOO_MUCH
}

/// How much the elements of a list are.
fn count<A: Amounting>(way: &A, elements: &[A::Element]) -> usize
    ensures is { result ≡ list_amount (sum_by (A.amount way.now) elements.now) }
    ensures small { result ≤ too_much }
{
    match spend_all(way, elements, MOST_LISTED) {
        Some(left) => MOST_LISTED - left,
        None => TOO_MUCH,
    }
}

/// How many words the first definition of this name has; without one, the number that is given.
fn size_by_name(definitions: &[Definition], name: &[u8], other: usize) -> usize
    ensures { result ≡ defined_size definitions.now name.now other }
{
    match defined(definitions, name) {
        Some(words) => words.len(),
        None => other,
    }
}

/// Classes that are in a set.
#[derive(Drop)]
struct InSet<'a>(&'a [u8]);

impl<'a> Amounting for InSet<'a> {
    type Element = OfSet;

    ghost amount = { λ of class. one_if_in of.0.now (of_set class) };

    fn spend(&self, class: &OfSet, room: usize) -> Option<usize> {
        if class.0.as_bytes() == self.0 {
            return take(room, 1);
        }
        Some(room)
    }
}

/// The classes of tables that are in a set.
#[derive(Drop)]
struct InTables<'a>(&'a [u8]);

impl<'a> Amounting for InTables<'a> {
    type Element = SetTable;

    ghost amount = { λ of table. sum_by (one_if_in of.0.now) (of_sets table) };

    fn spend(&self, table: &SetTable, room: usize) -> Option<usize> {
        spend_all(&InSet(self.0), table, room)
    }
}

/// How many classes the set of this name has that comes with the product.
fn usual_of(usual: &[SetTable], name: &[u8]) -> usize
    ensures { result ≡ usual_size (map of_sets usual.now) name.now }
{
    count(&InTables(name), usual)
}

/// Whether the word isn't too long.
fn is_brief(word: &Text) -> bool
    ensures { result ≡ nat_le (length word.now) 128 }
{
    word.as_bytes().len() <= LONGEST_WORD
}

/// For how many nodes a word stands.
fn nodes_of(groups: &[Definition], word: &Text) -> usize
    ensures { result ≡ word_nodes groups.now word.now }
{
    if !is_brief(word) {
        return TOO_MUCH;
    }
    match after_mark(word.as_bytes()) {
        Some(name) => size_by_name(groups, name, 1),
        None => 1,
    }
}

/// For how many classes a word stands.
fn classes_of(usual: &[SetTable], sets: &[Definition], word: &Text) -> usize
    ensures { result ≡ word_classes (map of_sets usual.now) sets.now word.now }
{
    if !is_brief(word) {
        return TOO_MUCH;
    }
    match after_mark(word.as_bytes()) {
        Some(name) => size_by_name(sets, name, usual_of(usual, name)),
        None => 1,
    }
}

/// Words that are nodes; without definitions, words each of which stands for itself.
#[derive(Drop)]
struct NodeWords<'a>(&'a [Definition]);

impl<'a> Amounting for NodeWords<'a> {
    type Element = Text;

    ghost amount = { λ nodes. word_nodes nodes.0.now };

    fn spend(&self, word: &Text, room: usize) -> Option<usize> {
        take(room, nodes_of(self.0, word))
    }
}

/// Words that are classes.
#[derive(Drop)]
struct ClassWords<'a>(&'a [SetTable], &'a [Definition]);

impl<'a> Amounting for ClassWords<'a> {
    type Element = Text;

    ghost amount = { λ classes. word_classes (map of_sets classes.0.now) classes.1.now };

    fn spend(&self, word: &Text, room: usize) -> Option<usize> {
        take(room, classes_of(self.0, self.1, word))
    }
}

/// For how many callers those of a row stand.
fn callers_count(groups: &[Definition], from: &Callers) -> usize
    ensures is { result ≡ callers_size groups.now from.now }
    ensures small { result ≤ too_much }
{
    match from {
        Callers::Any => 1,
        Callers::Listed(words) => count(&NodeWords(groups), words.as_slice()),
    }
}

/// For how many values those of a field of a rule stand.
fn any_count<A: Amounting<Element = Text>>(way: &A, words: &AnyWords) -> usize
    ensures is { result ≡ any_size (A.amount way.now) words.now }
    ensures small { result ≤ too_much }
{
    match words {
        AnyWords::Any => 1,
        AnyWords::Listed(listed) => count(way, listed.as_slice()),
    }
}

/// How many modalities, or how many stations, a flow lists.
fn values_count(values: &Values) -> usize
    ensures is { result ≡ values_size values.now }
    ensures small { result ≤ too_much + too_much }
{
    match values {
        Values::Any => 1,
        Values::Listed(own) => list_of(own.literals.len()) + list_of(own.prefixes.len()),
    }
}

/// Accept rows.
#[derive(Clone, Copy)]
struct Rows<'a>(Tables<'a>);

impl<'a> Amounting for Rows<'a> {
    type Element = ShortRow;

    ghost amount = { λ rows. row_size (seen rows.0) };

    fn spend(&self, row: &ShortRow, room: usize) -> Option<usize> {
        let tables = self.0;
        let way = ClassWords(tables.usual, tables.sets);
        let classes = count(&way, row.classes.as_slice());
        let from = callers_count(tables.groups, &row.from);
        let syntaxes = count(&NodeWords(&[]), row.syntaxes.as_slice());
        take_area(room, classes, 1 + (from + syntaxes))
    }
}

/// Rules.
#[derive(Clone, Copy)]
struct Rules<'a>(Tables<'a>);

impl<'a> Amounting for Rules<'a> {
    type Element = ShortRule;

    ghost amount = { λ rules. rule_size (seen rules.0) };

    fn spend(&self, rule: &ShortRule, room: usize) -> Option<usize> {
        let tables = self.0;
        let nodes = NodeWords(tables.groups);
        let from = any_count(&nodes, &rule.from);
        let way = ClassWords(tables.usual, tables.sets);
        let classes = any_count(&way, &rule.classes);
        let except = list_of(rule.except.len());
        let to = count(&nodes, rule.to.as_slice());
        take_volume(room, from, classes, 1 + (except + to))
    }
}

/// Nodes.
#[derive(Clone, Copy)]
pub struct WholeNodes<'a>(pub Tables<'a>);

impl<'a> Amounting for WholeNodes<'a> {
    type Element = ShortNode;

    ghost amount = { λ nodes. node_size (seen nodes.0) };

    fn spend(&self, node: &ShortNode, room: usize) -> Option<usize> {
        let own = take(room, 1)?;
        let left = spend_all(&Rows(self.0), node.accepts.as_slice(), own)?;
        spend_all(&Rules(self.0), node.rules.as_slice(), left)
    }
}

/// How many values a flow lists, and for how many classes and transfer syntaxes it stands.
fn listed_of(tables: Tables<'_>, flow: &ShortFlow) -> usize
    ensures is { result ≡ lists_size (seen tables.entry) flow.now }
    ensures some { 0 < result }
{
    let way = ClassWords(tables.usual, tables.sets);
    let plain = NodeWords(&[]);
    let classes = count(&way, flow.classes.as_slice());
    let syntaxes = count(&plain, flow.syntaxes.as_slice());
    let modalities = values_count(&flow.modalities);
    1 + (classes + syntaxes + modalities + values_count(&flow.stations))
}

/// Flows.
#[derive(Clone, Copy)]
pub struct Flows<'a>(pub Tables<'a>);

impl<'a> Amounting for Flows<'a> {
    type Element = ShortFlow;

    ghost amount = { λ flows. flow_size (seen flows.0) };

    fn spend(&self, flow: &ShortFlow, room: usize) -> Option<usize> {
        let tables = self.0;
        let nodes = NodeWords(tables.groups);
        let at = count(&nodes, flow.at.as_slice());
        let to = count(&nodes, flow.to.as_slice());
        take_volume(room, at, to, listed_of(tables, flow))
    }
}

/// Definitions, by their words.
#[derive(Drop)]
struct Definitions;

impl Amounting for Definitions {
    type Element = Definition;

    ghost amount = { λ _ definition. definition_size definition };

    fn spend(&self, definition: &Definition, room: usize) -> Option<usize> {
        take(room, count(&NodeWords(&[]), definition.words.as_slice()))
    }
}

/// What definitions leave of the room.
pub fn spend_definitions(definitions: &[Definition], room: usize) -> Option<usize>
    ensures { MatchOption result (room < definitions_size definitions.now)
        (λ left. definitions_size definitions.now + left ≡ room) }
{
    let left = take(room, list_of(definitions.len()))?;
    spend_all(&Definitions, definitions, left)
}

/// What a plan leaves of the room, with these tables; None where there isn't room for it.
fn spend_plan(tables: Tables<'_>, short: &ShortPlan, room: usize) -> Option<usize>
    ensures { MatchOption result (room < plan_size (seen tables.entry) short.now)
        (λ left. plan_size (seen tables.entry) short.now + left ≡ room) }
{
    let sets = spend_definitions(short.sets.as_slice(), room)?;
    let groups = spend_definitions(short.groups.as_slice(), sets)?;
    let nodes = spend_all(&WholeNodes(tables), short.nodes.as_slice(), groups)?;
    spend_all(&Flows(tables), short.flows.as_slice(), nodes)
}

/// Whether the plan stands for no more than a plan may.
pub(crate) fn is_within(short: &ShortPlan) -> bool
    ensures { IsTrue result ↔ IsWithin short.now }
{
    let known = standard_tables();
    let tables = tables_of(&known, short);
    match spend_plan(tables, short, MOST) {
        Some(_) => true,
        None => false,
    }
}
