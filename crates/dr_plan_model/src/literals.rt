//! The values that a plan names for modality and for station.
ghost use Rattle.std.specs.Prelude.{◌≡◌, ◌↔◌, ◌⊎◌, IfOk, OnOk, Contains, flat_map};
ghost use Rattle.dr_base.specs.Texts.{Text as Words, IsInByteOrder};
ghost use Rattle.dr_route.specs.Names.{HasName};
ghost use Rattle.dr_plan_model.specs.Naming.{literal_of, prefix_of, listed_literals};
ghost use Rattle.dr_plan_model.specs.Naming.{listed_prefixes, named_by_rule, named_by_flow};
ghost use Rattle.dr_plan_model.specs.Naming.{named_by_pattern, named_by_except};
ghost use Rattle.dr_plan_model.specs.Naming.{named_by_rules, named_by_flows};
ghost use Rattle.dr_plan_model.specs.Plans.{named_in, AreLiteralsOf};

use crate::plan::{Flow, Plan, Values};
use dr_base::{Seq, Text};
use dr_route::names::{add_names, names_in_order};
use dr_route::{FieldPattern, FieldValues, Literals, Rule};
use std::alloc::{AllocError, Global};
use std::collections::BTreeSet;
use std::slice;

/// What rules and flows name of an instance beside its class and transfer syntax.
#[derive(Clone, Copy, PartialEq, Eq, Debug)]
pub enum Attribute {
    /// Modality (0008,0060).
    Modality,
    /// What modalities begin with.
    ModalityPrefix,
    /// Station name (0008,1010).
    Station,
    /// What station names begin with.
    StationPrefix,
}

/// The literal of the pattern, if it has one.
fn literal_in(pattern: &FieldPattern) -> &[Text]
    ensures { result.now ≡ literal_of pattern.now }
{
    match pattern {
        FieldPattern::Any => &[],
        FieldPattern::Literal(literal) => slice::from_ref(literal),
        FieldPattern::Prefix(_) => &[],
    }
}

/// The prefix of the pattern, if it has one.
fn prefix_in(pattern: &FieldPattern) -> &[Text]
    ensures { result.now ≡ prefix_of pattern.now }
{
    match pattern {
        FieldPattern::Any => &[],
        FieldPattern::Literal(_) => &[],
        FieldPattern::Prefix(prefix) => slice::from_ref(prefix),
    }
}

/// The single values that a flow lists.
pub(crate) fn literals_in(values: &Values) -> &[Text]
    ensures { result.now ≡ listed_literals values.now }
{
    match values {
        Values::Any => &[],
        Values::Listed(own) => own.literals.as_slice(),
    }
}

/// The prefixes that a flow lists.
fn prefixes_in(values: &Values) -> &[Text]
    ensures { result.now ≡ listed_prefixes values.now }
{
    match values {
        Values::Any => &[],
        Values::Listed(own) => own.prefixes.as_slice(),
    }
}

impl Attribute {
    /// What the rule's pattern names of it.
    fn in_pattern(self, rule: &Rule) -> &[Text]
        ensures { result.now ≡ named_by_pattern self rule.now }
    {
        match self {
            Attribute::Modality => literal_in(&rule.modality),
            Attribute::ModalityPrefix => prefix_in(&rule.modality),
            Attribute::Station => literal_in(&rule.station),
            Attribute::StationPrefix => prefix_in(&rule.station),
        }
    }

    /// What the rule's exceptions name of it.
    fn in_except(self, rule: &Rule) -> &[Text]
        ensures { result.now ≡ named_by_except self rule.now }
    {
        match self {
            Attribute::Modality => &[],
            Attribute::ModalityPrefix => &[],
            Attribute::Station => rule.except.as_slice(),
            Attribute::StationPrefix => &[],
        }
    }

    /// What the flow names of it.
    fn in_flow(self, flow: &Flow) -> &[Text]
        ensures { result.now ≡ named_by_flow self flow.now }
    {
        match self {
            Attribute::Modality => literals_in(&flow.modalities),
            Attribute::ModalityPrefix => prefixes_in(&flow.modalities),
            Attribute::Station => literals_in(&flow.stations),
            Attribute::StationPrefix => prefixes_in(&flow.stations),
        }
    }
}

/// Adds what the rule names: by its pattern, and by its exceptions.
fn add_rule(names: &mut BTreeSet<Text>, attribute: Attribute, rule: &Rule) -> Result<(), AllocError>
    ensures { OnOk result
        ((t : Words)
        → HasName names.new t
        ↔ (HasName names.old t ⊎ Contains (named_by_rule attribute rule.now) t)) }
{
    add_names(names, attribute.in_pattern(rule))?;
    add_names(names, attribute.in_except(rule))?;
    Ok(())
}

/// Adds what the rules name.
fn add_rules(
    names: &mut BTreeSet<Text>,
    attribute: Attribute,
    rules: &[Rule],
) -> Result<(), AllocError>
    ensures { OnOk result
        ((t : Words)
        → HasName names.new t
        ↔ (HasName names.old t ⊎ Contains (named_by_rules attribute rules.now) t)) }
{
    for rule in rules {
        add_rule(names, attribute, rule)?;
    }
    Ok(())
}

/// Adds what the flows name.
fn add_flows(
    names: &mut BTreeSet<Text>,
    attribute: Attribute,
    flows: &[Flow],
) -> Result<(), AllocError>
    ensures { OnOk result
        ((t : Words)
        → HasName names.new t
        ↔ (HasName names.old t ⊎ Contains (named_by_flows attribute flows.now) t)) }
{
    for flow in flows {
        add_names(names, attribute.in_flow(flow))?;
    }
    Ok(())
}

/// The values that the plan names of the attribute, in byte order and each once.
fn named(alloc: Global, plan: &Plan, attribute: Attribute) -> Result<Seq<Text>, AllocError>
    ensures same { IfOk result (λ v.
        (t : Words) → Contains v t ↔ Contains (named_in attribute plan.now) t) }
    ensures ordered { IfOk result IsInByteOrder }
{
    let mut names = BTreeSet::new(alloc);
    for node in plan.nodes() {
        add_rules(&mut names, attribute, node.rules.as_slice())?;
    }
    add_flows(&mut names, attribute, plan.flows())?;
    let literals = names_in_order(alloc, names)?;
    Ok(literals)
}

/// What the plan names for modality and for station, in rules and in flows: single values and
/// prefixes, each in byte order and each once.
pub fn literals(alloc: Global, plan: &Plan) -> Result<Literals, AllocError>
    ensures { IfOk result (AreLiteralsOf plan.now) }
{
    let modalities = FieldValues {
        literals: named(alloc, plan, Attribute::Modality)?,
        prefixes: named(alloc, plan, Attribute::ModalityPrefix)?,
    };
    let stations = FieldValues {
        literals: named(alloc, plan, Attribute::Station)?,
        prefixes: named(alloc, plan, Attribute::StationPrefix)?,
    };
    Ok(Literals {
        modalities,
        stations,
    })
}
