//! Whether a format has what a plan names for modality and for station, what its rules except, and
//! how its nodes listen.
ghost use Rattle.std.specs.Prelude.{◌≡◌, ◌↔◌, [], IsTrue, All};
ghost use Rattle.dr_plan_model.specs.Listening.{ListensFits};
ghost use Rattle.dr_plan_model.specs.Naming.{prefix_of, listed_prefixes};
ghost use Rattle.dr_plan_model.specs.Formed.{ModalitiesFit, StationsFit, ExceptionsFit, RuleFits};
ghost use Rattle.dr_plan_model.specs.Formed.{ValuesFit};
ghost use Rattle.dr_plan_text.specs.Tables.{FitsFormat};

use crate::words::{FlowText, NodeText, PlanText};
use dr_base::{Seq, Text};
use dr_plan_model::{Format, Listens, Values};
use dr_route::{FieldPattern, Rule};

/// Whether the pattern is no prefix.
fn has_no_prefix(pattern: &FieldPattern) -> bool
    ensures { IsTrue result ↔ (prefix_of pattern.now ≡ []) }
{
    match pattern {
        FieldPattern::Any => true,
        FieldPattern::Literal(_) => true,
        FieldPattern::Prefix(_) => false,
    }
}

/// Whether no prefix is listed.
fn list_no_prefix(values: &Values) -> bool
    ensures { IsTrue result ↔ (listed_prefixes values.now ≡ []) }
{
    match values {
        Values::Any => true,
        Values::Listed(own) => own.prefixes.is_empty(),
    }
}

/// Whether the format has the modality of a rule: only format 3 has prefixes of modalities.
pub fn modality_fits(format: Format, pattern: &FieldPattern) -> bool
    ensures { IsTrue result ↔ ModalitiesFit format (prefix_of pattern.now) }
{
    match format {
        Format::One => has_no_prefix(pattern),
        Format::Two => has_no_prefix(pattern),
        Format::Three => true,
    }
}

/// Whether the format has the modalities of a flow.
pub fn modalities_fit(format: Format, values: &Values) -> bool
    ensures { IsTrue result ↔ ModalitiesFit format (listed_prefixes values.now) }
{
    match format {
        Format::One => list_no_prefix(values),
        Format::Two => list_no_prefix(values),
        Format::Three => true,
    }
}

/// Whether the format has the station of a rule: format 1 has no prefixes.
pub fn station_fits(format: Format, pattern: &FieldPattern) -> bool
    ensures { IsTrue result ↔ StationsFit format (prefix_of pattern.now) }
{
    match format {
        Format::One => has_no_prefix(pattern),
        Format::Two | Format::Three => true,
    }
}

/// Whether the format has the stations of a flow.
pub fn stations_fit(format: Format, values: &Values) -> bool
    ensures { IsTrue result ↔ StationsFit format (listed_prefixes values.now) }
{
    match format {
        Format::One => list_no_prefix(values),
        Format::Two | Format::Three => true,
    }
}

/// Whether the format has these exceptions of a rule: only format 3 has some.
pub fn exceptions_fit(format: Format, stations: &Seq<Text>) -> bool
    ensures { IsTrue result ↔ ExceptionsFit format stations.now }
{
    match format {
        Format::One | Format::Two => stations.is_empty(),
        Format::Three => true,
    }
}

fn rule_fits(format: Format, rule: &Rule) -> bool
    ensures { IsTrue result ↔ RuleFits format rule.now }
{
    modality_fits(format, &rule.modality)
        && station_fits(format, &rule.station)
        && exceptions_fit(format, &rule.except)
}

fn rules_fit(format: Format, rules: &[Rule]) -> bool
    ensures { IsTrue result ↔ All (λ rule. RuleFits format rule) rules.now }
{
    rules.iter().all(|rule| rule_fits(format, rule))
}

fn node_fits(format: Format, node: &NodeText) -> bool
    ensures { IsTrue result ↔ All (λ rule. RuleFits format rule) node.now.rules }
{
    rules_fit(format, node.rules.as_slice())
}

fn nodes_fit(format: Format, nodes: &[NodeText]) -> bool
    ensures { IsTrue result
        ↔ All (λ node. All (λ rule. RuleFits format rule) node.rules) nodes.now }
{
    nodes.iter().all(|node| node_fits(format, node))
}

fn flow_fits(format: Format, flow: &FlowText) -> bool
    ensures { IsTrue result ↔ ValuesFit format flow.now.modalities flow.now.stations }
{
    modalities_fit(format, &flow.modalities) && stations_fit(format, &flow.stations)
}

fn flows_fit(format: Format, flows: &[FlowText]) -> bool
    ensures { IsTrue result
        ↔ All (λ flow. ValuesFit format flow.modalities flow.stations) flows.now }
{
    flows.iter().all(|flow| flow_fits(format, flow))
}

/// Whether the format has how a node listens: before format 3 each does where others reach it.
pub fn listens_fits(format: Format, listens: &Listens) -> bool
    ensures { IsTrue result ↔ ListensFits format listens.now }
{
    match format {
        Format::One | Format::Two => listens.is_at_its_address(),
        Format::Three => true,
    }
}

fn all_listen(format: Format, nodes: &[NodeText]) -> bool
    ensures { IsTrue result ↔ All (λ node. ListensFits format node.listens) nodes.now }
{
    nodes.iter().all(|node| listens_fits(format, &node.listens))
}

/// Whether the plan's format has what its rules and flows name for modality and for station, what
/// its rules except, and how its nodes listen.
pub(crate) fn fits_format(plan: &PlanText) -> bool
    ensures { IsTrue result ↔ FitsFormat plan.now }
{
    nodes_fit(plan.format, plan.nodes.as_slice())
        && flows_fit(plan.format, plan.flows.as_slice())
        && all_listen(plan.format, plan.nodes.as_slice())
}
