//! The flow or the rule by which a key goes over a hop.
ghost use Rattle.std.specs.Prelude.{◌≡◌, ◌↔◌, IsTrue, All, MatchOption};
ghost use Rattle.dr_route.specs.Routes.{Holds};
ghost use Rattle.dr_plan_model.specs.Walks.{Sends};
ghost use Rattle.dr_check_reasons.specs.Reasons.{BringsTo, SendsTo, IsSender, IsHolding};

use dr_base::Text;
use dr_plan_model::sending::fits;
use dr_plan_model::{Flow, Plan};
use dr_plan_places::first::{Look, first};
use dr_route::accept::is_listed;
use dr_route::{Key, Rule, holds, is_local};

/// By what a node sends a key on; indices count from 0.
#[derive(Clone, Copy, PartialEq, Eq)]
pub enum Sender {
    /// By a flow of the plan.
    Flow(usize),
    /// By one of its rules.
    Rule(usize),
}

/// A search for a flow that brings a key in at a site, and to a node.
#[derive(Drop)]
struct FlowSearch<'a> {
    site: &'a Text,
    key: &'a Key,
    to: &'a Text,
}

/// Whether the flow brings the key in at the site, and to that node.
fn brings_to(flow: &Flow, site: &Text, key: &Key, to: &Text) -> bool
    ensures { IsTrue result ↔ BringsTo site.now key.now to.now flow.now }
{
    flow.at == *site && flow.to == *to && fits(flow, key)
}

impl<'a> Look for FlowSearch<'a> {
    type Value = Flow;

    type Place = ();

    ghost is_free = { λ look flow. BringsTo look.site.now look.key.now look.to.now flow → ⊥ };

    ghost is_at = { λ look flow _. BringsTo look.site.now look.key.now look.to.now flow };

    fn look(&self, flow: &Flow) -> Option<()> {
        if brings_to(flow, self.site, self.key, self.to) {
            return Some(());
        }
        None
    }
}

/// A search for a rule that sends a key on to a node.
#[derive(Drop)]
struct RuleSearch<'a> {
    caller: &'a Text,
    key: &'a Key,
    to: &'a Text,
}

/// Whether the rule sends the key on to that node.
fn sends_to(rule: &Rule, caller: &Text, key: &Key, to: &Text) -> bool
    ensures { IsTrue result ↔ SendsTo caller.now key.now to.now rule.now }
{
    holds(rule, caller, key) && is_listed(rule.to.as_slice(), to)
}

impl<'a> Look for RuleSearch<'a> {
    type Value = Rule;

    type Place = ();

    ghost is_free = { λ look rule. SendsTo look.caller.now look.key.now look.to.now rule → ⊥ };

    ghost is_at = { λ look rule _. SendsTo look.caller.now look.key.now look.to.now rule };

    fn look(&self, rule: &Rule) -> Option<()> {
        if sends_to(rule, self.caller, self.key, self.to) {
            return Some(());
        }
        None
    }
}

/// By what the node sends the key, which it has from the caller, on to that node: the first flow
/// where it entered there, else the first rule. None where it doesn't send it there.
pub fn sender_of(plan: &Plan, name: &Text, caller: &Text, key: &Key, to: &Text) -> Option<Sender>
    ensures { MatchOption result (Sends plan.now name.now caller.now key.now to.now → ⊥)
        (IsSender plan.now name.now caller.now key.now to.now) }
{
    if is_local(caller) {
        let flows = FlowSearch {
            site: name,
            key,
            to,
        };
        return match first(&flows, plan.flows()) {
            Some((index, ())) => Some(Sender::Flow(index)),
            None => None,
        };
    }
    let Some(node) = plan.node(name) else {
        return None;
    };
    let rules = RuleSearch { caller, key, to };
    match first(&rules, node.rules.as_slice()) {
        Some((index, ())) => Some(Sender::Rule(index)),
        None => None,
    }
}

/// A search for a rule that holds for a key.
#[derive(Drop)]
struct Holding<'a> {
    caller: &'a Text,
    key: &'a Key,
}

impl<'a> Look for Holding<'a> {
    type Value = Rule;

    type Place = ();

    ghost is_free = { λ look rule. Holds rule look.caller.now look.key.now → ⊥ };

    ghost is_at = { λ look rule _. Holds rule look.caller.now look.key.now };

    fn look(&self, rule: &Rule) -> Option<()> {
        if holds(rule, self.caller, self.key) {
            return Some(());
        }
        None
    }
}

/// The first of the rules that holds for the key that the node has from the caller, and None where
/// none does.
pub fn holding_rule(rules: &[Rule], caller: &Text, key: &Key) -> Option<usize>
    ensures { MatchOption result (All (λ rule. Holds rule caller.now key.now → ⊥) rules.now)
        (IsHolding rules.now caller.now key.now) }
{
    match first(&Holding { caller, key }, rules) {
        Some((index, ())) => Some(index),
        None => None,
    }
}
