//! The names of a plan.
ghost use Rattle.std.specs.Prelude.{◌≡◌, ◌≢◌, ◌≤◌, ◌<◌, ◌↔◌, IsTrue, All, AllPairs, Contains};
ghost use Rattle.std.specs.Prelude.{MatchOption, IfOk, OnErr, [], map, codes, ◌⊎◌};
ghost use Rattle.dr_base.specs.Texts.{Text as Words};
ghost use Rattle.dr_route.specs.Names.{HasName};
ghost use Rattle.dr_plan_model.specs.Formed.{IsName, HasForm};
ghost use Rattle.dr_plan_core.specs.Reading.{EachCaller, EachNameOfNode, EachName};

use dr_base::Text;
use dr_plan_text::forms::is_trimmed;
use dr_plan_text::{AcceptText, FlowText, NodeText, PlanText};
use dr_route::{Callers, Pattern, Rule};
use std::alloc::{AllocError, Global};
use std::collections::BTreeSet;

/// A property of names that can be tested.
pub trait NameTest {
    ghost holds: { Self → Words → Type 0 };

    /// Whether the name has the property.
    fn test(&self, name: &Text) -> bool
        ensures { IsTrue result ↔ holds self.now name.now };
}

/// A name is well-formed.
#[derive(Drop)]
pub struct WellFormed;

/// Whether each byte is printable and no backslash.
fn is_printable(text: &[u8]) -> bool
    ensures { IsTrue result ↔ All (λ byte. (32 ≤ byte) × (byte < 127) × (byte ≢ 92)) text.now }
{
    text.iter().all(|b| *b >= 32 && *b < 127 && *b != b'\\')
}

/// Whether it is `*` or `-`, which stand for any caller and for the local one.
pub fn is_reserved(text: &[u8]) -> bool
    ensures { IsTrue result ↔ ((text.now ≡ codes "*") ⊎ (text.now ≡ codes "-")) }
{
    text == b"*".as_slice() || text == b"-".as_slice()
}

/// Whether it is a node's title: 1 to 16 printable bytes without a backslash, with no space at an
/// end, and neither `*` nor `-`.
pub fn is_name(text: &[u8]) -> bool
    ensures { IsTrue result ↔ IsName text.now }
{
    if text.is_empty() || text.len() > 16 {
        return false;
    }
    if is_reserved(text) {
        return false;
    }
    is_printable(text) && is_trimmed(text)
}

impl NameTest for WellFormed {
    ghost holds = { λ _ name. IsName name };

    fn test(&self, name: &Text) -> bool {
        is_name(name.as_bytes())
    }
}

/// A name is among these.
#[derive(Drop)]
pub struct Among<'a>(pub &'a BTreeSet<Text>);

impl<'a> NameTest for Among<'a> {
    ghost holds = { λ among name. HasName among.0.now name };

    fn test(&self, name: &Text) -> bool {
        self.0.contains(name)
    }
}

/// Whether each of the names has the property.
fn each_text<T: NameTest>(test: &T, names: &[Text]) -> bool
    ensures { IsTrue result ↔ All (T.holds test.now) names.now }
{
    names.iter().all(|name| test.test(name))
}

fn each_row<T: NameTest>(test: &T, rows: &[AcceptText]) -> bool
    ensures { IsTrue result ↔ All (λ row. EachCaller (T.holds test.now) row.from) rows.now }
{
    rows.iter().all(|row| match &row.from {
        Callers::Any => true,
        Callers::Listed(names) => each_text(test, names.as_slice()),
    })
}

fn is_rule_of<T: NameTest>(test: &T, rule: &Rule) -> bool
    ensures { IsTrue result
        ↔ (HasForm (T.holds test.now) rule.now.from × All (T.holds test.now) rule.now.to) }
{
    let from = match &rule.from {
        Pattern::Any => true,
        Pattern::Literal(name) => test.test(name),
    };
    from && each_text(test, rule.to.as_slice())
}

fn each_rule<T: NameTest>(test: &T, rules: &[Rule]) -> bool
    ensures { IsTrue result
        ↔ All
        (λ rule. HasForm (T.holds test.now) rule.from × All (T.holds test.now) rule.to) rules.now }
{
    rules.iter().all(|rule| is_rule_of(test, rule))
}

fn is_node_of<T: NameTest>(test: &T, node: &NodeText) -> bool
    ensures { IsTrue result ↔ EachNameOfNode (T.holds test.now) node.now }
{
    test.test(&node.name)
        && each_row(test, node.accepts.as_slice())
        && each_rule(test, node.rules.as_slice())
}

fn each_node<T: NameTest>(test: &T, nodes: &[NodeText]) -> bool
    ensures { IsTrue result ↔ All (EachNameOfNode (T.holds test.now)) nodes.now }
{
    nodes.iter().all(|node| is_node_of(test, node))
}

fn each_flow<T: NameTest>(test: &T, flows: &[FlowText]) -> bool
    ensures { IsTrue result
        ↔ All (λ flow. T.holds test.now flow.at × T.holds test.now flow.to) flows.now }
{
    flows
        .iter()
        .all(|flow| test.test(&flow.at) && test.test(&flow.to))
}

/// Whether each name that the plan uses has the property.
pub fn each_name<T: NameTest>(test: &T, plan: &PlanText) -> bool
    ensures { IsTrue result ↔ EachName (T.holds test.now) plan.now }
{
    each_node(test, plan.nodes.as_slice()) && each_flow(test, plan.flows.as_slice())
}

/// The names of the nodes, and None where two of them have the same.
pub fn names_of(alloc: Global, nodes: &[NodeText]) -> Result<Option<BTreeSet<Text>>, AllocError>
    ensures memory { OnErr result (nodes.now ≢ []) }
    ensures names { IfOk result (λ names. MatchOption names
        (AllPairs (λ a b. a ≢ b) (map (λ node. node.name) nodes.now) → ⊥)
        (λ set. AllPairs (λ a b. a ≢ b) (map (λ node. node.name) nodes.now)
        × ((name : Words)
        → HasName set name ↔ Contains (map (λ node. node.name) nodes.now) name))) }
{
    let mut seen = BTreeSet::new(alloc);
    for node in nodes {
        if !seen.insert(node.name.clone()?)? {
            return Ok(None);
        }
    }
    Ok(Some(seen))
}
