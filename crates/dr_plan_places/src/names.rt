//! The first name of a plan that hasn't a property.
ghost use Rattle.std.specs.Prelude.{◌≡◌, ◌↔◌, IsTrue, All, MatchOption};
ghost use Rattle.dr_plan_model.specs.Formed.{HasForm};
ghost use Rattle.dr_plan_core.specs.Reading.{EachCaller, EachNameOfNode, EachName};
ghost use Rattle.dr_plan_places.specs.Named.{EachOfRow, EachOfRule, EachOfFlow, IsCallerAt};
ghost use Rattle.dr_plan_places.specs.Named.{IsRowNameAt, IsRuleNameAt, IsNodeNameAt, IsFlowNameAt};
ghost use Rattle.dr_plan_places.specs.Named.{IsNameAt};

use crate::first::{Look, TextTest, first, first_bad};
use dr_plan_text::{AcceptText, FlowText, NodeText, PlanText};
use dr_route::{Callers, Pattern, Rule};

/// Which name of a rule; all indices count from 0.
#[derive(Clone, Copy, PartialEq, Eq)]
pub enum RuleName {
    /// Its caller, `from`.
    From,
    /// One of its targets, `to`.
    To(usize),
}

/// Which name of a node.
#[derive(Clone, Copy, PartialEq, Eq)]
pub enum NodeName {
    /// Its own.
    Own,
    /// In an accept row, one of its callers.
    Caller(usize, usize),
    /// In a rule.
    InRule(usize, RuleName),
}

/// Which name of a flow.
#[derive(Clone, Copy, PartialEq, Eq)]
pub enum FlowName {
    /// Where it is.
    At,
    /// Where it goes.
    To,
}

/// Where a name stands in a plan.
#[derive(Clone, Copy, PartialEq, Eq)]
pub enum NamePlace {
    /// In a node.
    Node(usize, NodeName),
    /// In a flow.
    Flow(usize, FlowName),
}

/// The first caller that hasn't the property.
fn caller_in<T: TextTest>(test: &T, callers: &Callers) -> Option<usize>
    ensures { MatchOption result (EachCaller (T.holds test.now) callers.now)
        (IsCallerAt (T.holds test.now) callers.now) }
{
    match callers {
        Callers::Any => None,
        Callers::Listed(names) => first_bad(test, names.as_slice()),
    }
}

/// A search in accept rows.
#[derive(Drop)]
struct RowNames<'a, T>(&'a T);

impl<'a, T: TextTest> Look for RowNames<'a, T> {
    type Value = AcceptText;

    type Place = usize;

    ghost is_free = { λ look. EachOfRow (T.holds look.0.now) };

    ghost is_at = { λ look. IsRowNameAt (T.holds look.0.now) };

    fn look(&self, row: &AcceptText) -> Option<usize> {
        caller_in(self.0, &row.from)
    }
}

/// Whether the pattern's name, if it has one, has the property.
fn is_pattern_of<T: TextTest>(test: &T, pattern: &Pattern) -> bool
    ensures { IsTrue result ↔ HasForm (T.holds test.now) pattern.now }
{
    match pattern {
        Pattern::Any => true,
        Pattern::Literal(name) => test.test(name),
    }
}

/// A search in rules.
#[derive(Drop)]
struct RuleNames<'a, T>(&'a T);

impl<'a, T: TextTest> Look for RuleNames<'a, T> {
    type Value = Rule;

    type Place = RuleName;

    ghost is_free = { λ look. EachOfRule (T.holds look.0.now) };

    ghost is_at = { λ look. IsRuleNameAt (T.holds look.0.now) };

    fn look(&self, rule: &Rule) -> Option<RuleName> {
        if !is_pattern_of(self.0, &rule.from) {
            return Some(RuleName::From);
        }
        match first_bad(self.0, rule.to.as_slice()) {
            Some(index) => Some(RuleName::To(index)),
            None => None,
        }
    }
}

/// A search in nodes.
#[derive(Drop)]
struct NodeNames<'a, T>(&'a T);

impl<'a, T: TextTest> Look for NodeNames<'a, T> {
    type Value = NodeText;

    type Place = NodeName;

    ghost is_free = { λ look. EachNameOfNode (T.holds look.0.now) };

    ghost is_at = { λ look. IsNodeNameAt (T.holds look.0.now) };

    fn look(&self, node: &NodeText) -> Option<NodeName> {
        if !self.0.test(&node.name) {
            return Some(NodeName::Own);
        }
        if let Some((row, index)) = first(&RowNames(self.0), node.accepts.as_slice()) {
            return Some(NodeName::Caller(row, index));
        }
        match first(&RuleNames(self.0), node.rules.as_slice()) {
            Some((rule, name)) => Some(NodeName::InRule(rule, name)),
            None => None,
        }
    }
}

/// A search in flows.
#[derive(Drop)]
struct FlowNames<'a, T>(&'a T);

impl<'a, T: TextTest> Look for FlowNames<'a, T> {
    type Value = FlowText;

    type Place = FlowName;

    ghost is_free = { λ look. EachOfFlow (T.holds look.0.now) };

    ghost is_at = { λ look. IsFlowNameAt (T.holds look.0.now) };

    fn look(&self, flow: &FlowText) -> Option<FlowName> {
        if !self.0.test(&flow.at) {
            return Some(FlowName::At);
        }
        if !self.0.test(&flow.to) {
            return Some(FlowName::To);
        }
        None
    }
}

/// The first name of the plan that hasn't the property, and None where each has it.
pub fn name_in<T: TextTest>(test: &T, plan: &PlanText) -> Option<NamePlace>
    ensures { MatchOption result (EachName (T.holds test.now) plan.now)
        (IsNameAt (T.holds test.now) plan.now) }
{
    if let Some((node, name)) = first(&NodeNames(test), plan.nodes.as_slice()) {
        return Some(NamePlace::Node(node, name));
    }
    match first(&FlowNames(test), plan.flows.as_slice()) {
        Some((flow, name)) => Some(NamePlace::Flow(flow, name)),
        None => None,
    }
}
