//! A place in a plan in words.
use crate::flaws::{NameFlaw, name_flaw};
use crate::limits::LimitPlace;
use crate::names::{FlowName, NamePlace, NodeName, RuleName};
use crate::own::OwnPlace;
use crate::place::Place;
use crate::print::{add_index, add_name, add_quoted};
use crate::syntaxes::SyntaxPlace;
use dr_base::Text;
use dr_base::fields::add_decimal;
use dr_plan_text::{FlowText, NodeText, PlanText};
use dr_route::{Callers, Pattern};
use std::alloc::{AllocError, Global};

/// Adds a node, as `node 3 "GATE"`.
fn add_node(out: &mut Vec<u8>, plan: &PlanText, node: usize) -> Result<(), AllocError> {
    out.extend_from_slice(b"node ")?;
    add_index(out, node)?;
    out.push(b' ')?;
    match plan.nodes.as_slice().get(node) {
        Some(node) => add_name(out, Some(&node.name)),
        None => add_name(out, None),
    }
}

/// Adds a part of a node, as `, rule 2`.
fn add_part(out: &mut Vec<u8>, part: &[u8], index: usize) -> Result<(), AllocError> {
    out.extend_from_slice(part)?;
    add_index(out, index)
}

/// Adds a flow, as `flow 1 from "CT1" to "GATE"`.
fn add_flow(out: &mut Vec<u8>, plan: &PlanText, flow: usize) -> Result<(), AllocError> {
    out.extend_from_slice(b"flow ")?;
    add_index(out, flow)?;
    let Some(flow) = plan.flows.as_slice().get(flow) else {
        return Ok(());
    };
    out.extend_from_slice(b" from ")?;
    add_quoted(out, flow.at.as_bytes())?;
    out.extend_from_slice(b" to ")?;
    add_quoted(out, flow.to.as_bytes())
}

/// The text at an index.
fn text_at(texts: &[Text], index: usize) -> Option<&Text> {
    texts.get(index)
}

/// The name at a place of a node.
fn name_in_node(node: &NodeText, place: NodeName) -> Option<&Text> {
    match place {
        NodeName::Own => Some(&node.name),
        NodeName::Caller(row, index) => match &node.accepts.as_slice().get(row)?.from {
            Callers::Any => None,
            Callers::Listed(names) => text_at(names.as_slice(), index),
        },
        NodeName::InRule(rule, RuleName::From) => match &node.rules.as_slice().get(rule)?.from {
            Pattern::Any => None,
            Pattern::Literal(name) => Some(name),
        },
        NodeName::InRule(rule, RuleName::To(index)) => {
            text_at(node.rules.as_slice().get(rule)?.to.as_slice(), index)
        }
    }
}

/// The name at a place of a flow.
fn name_in_flow(flow: &FlowText, place: FlowName) -> &Text {
    match place {
        FlowName::At => &flow.at,
        FlowName::To => &flow.to,
    }
}

/// The name at a place.
fn name_at(plan: &PlanText, place: NamePlace) -> Option<&Text> {
    match place {
        NamePlace::Node(node, place) => name_in_node(plan.nodes.as_slice().get(node)?, place),
        NamePlace::Flow(flow, place) => Some(name_in_flow(plan.flows.as_slice().get(flow)?, place)),
    }
}

/// Adds a place of a node.
fn add_node_key(out: &mut Vec<u8>, place: NodeName) -> Result<(), AllocError> {
    match place {
        NodeName::Own => out.extend_from_slice(b", name"),
        NodeName::Caller(row, _) => {
            add_part(out, b", accept row ", row)?;
            out.extend_from_slice(b", from")
        }
        NodeName::InRule(rule, RuleName::From) => {
            add_part(out, b", rule ", rule)?;
            out.extend_from_slice(b", from")
        }
        NodeName::InRule(rule, RuleName::To(_)) => {
            add_part(out, b", rule ", rule)?;
            out.extend_from_slice(b", to")
        }
    }
}

/// Adds the place of a name, and the name.
fn add_name_place(out: &mut Vec<u8>, plan: &PlanText, place: NamePlace) -> Result<(), AllocError> {
    match place {
        NamePlace::Node(node, place) => {
            add_node(out, plan, node)?;
            add_node_key(out, place)?;
        }
        NamePlace::Flow(flow, FlowName::At) => {
            add_flow(out, plan, flow)?;
            out.extend_from_slice(b", at")?;
        }
        NamePlace::Flow(flow, FlowName::To) => {
            add_flow(out, plan, flow)?;
            out.extend_from_slice(b", to")?;
        }
    }
    out.extend_from_slice(b": ")?;
    add_name(out, name_at(plan, place))
}

/// Adds what is wrong with a name.
fn add_flaw(out: &mut Vec<u8>, name: &Text) -> Result<(), AllocError> {
    match name_flaw(name.as_bytes()) {
        Some(NameFlaw::Empty) => out.extend_from_slice(b"it is empty"),
        Some(NameFlaw::Long) => {
            out.extend_from_slice(b"it has ")?;
            add_decimal(out, name.len() as u64)?;
            out.extend_from_slice(b" bytes, and a name has 16 at most")
        }
        Some(NameFlaw::Reserved) => {
            out.extend_from_slice(b"that stands for any caller, or for the local one")
        }
        Some(NameFlaw::Unprintable(index)) => {
            out.extend_from_slice(b"byte ")?;
            add_index(out, index)?;
            out.extend_from_slice(b" is a backslash, or not printable ASCII")
        }
        Some(NameFlaw::Blank) => out.extend_from_slice(b"a space stands at one of its ends"),
        None => Ok(()),
    }
}

/// Adds an ill-formed name.
fn add_ill_named(out: &mut Vec<u8>, plan: &PlanText, place: NamePlace) -> Result<(), AllocError> {
    add_name_place(out, plan, place)?;
    out.extend_from_slice(b" is no name: ")?;
    match name_at(plan, place) {
        Some(name) => add_flaw(out, name),
        None => Ok(()),
    }
}

/// Adds a name that is no node's.
fn add_stranger(out: &mut Vec<u8>, plan: &PlanText, place: NamePlace) -> Result<(), AllocError> {
    add_name_place(out, plan, place)?;
    out.extend_from_slice(b" is the name of no node")
}

/// Adds two nodes of one name.
fn add_twins(
    out: &mut Vec<u8>,
    plan: &PlanText,
    first: usize,
    second: usize,
) -> Result<(), AllocError> {
    add_node(out, plan, second)?;
    out.extend_from_slice(b", name: node ")?;
    add_index(out, first)?;
    out.extend_from_slice(b" has the same")
}

/// The transfer syntax at a place.
fn syntax_at(plan: &PlanText, place: SyntaxPlace) -> Option<&Text> {
    match place {
        SyntaxPlace::Row(node, row, index) => {
            let node = plan.nodes.as_slice().get(node)?;
            text_at(node.accepts.as_slice().get(row)?.syntaxes.as_slice(), index)
        }
        SyntaxPlace::Flow(flow, index) => {
            text_at(plan.flows.as_slice().get(flow)?.syntaxes.as_slice(), index)
        }
    }
}

/// Adds a transfer syntax that isn't routed.
fn add_syntax(out: &mut Vec<u8>, plan: &PlanText, place: SyntaxPlace) -> Result<(), AllocError> {
    match place {
        SyntaxPlace::Row(node, row, _) => {
            add_node(out, plan, node)?;
            add_part(out, b", accept row ", row)?;
        }
        SyntaxPlace::Flow(flow, _) => add_flow(out, plan, flow)?,
    }
    out.extend_from_slice(b", syntax: ")?;
    add_name(out, syntax_at(plan, place))?;
    out.extend_from_slice(b" is neither 1.2.840.10008.1.2 nor 1.2.840.10008.1.2.1")
}

/// How many rules and flows the plan has.
fn rules_and_flows(plan: &PlanText) -> usize {
    let mut count = plan.flows.len();
    for node in plan.nodes.as_slice() {
        count = count.saturating_add(node.rules.len());
    }
    count
}

/// Adds a limit that isn't kept.
fn add_limit(out: &mut Vec<u8>, plan: &PlanText, place: LimitPlace) -> Result<(), AllocError> {
    match place {
        LimitPlace::Nodes => {
            add_decimal(out, plan.nodes.len() as u64)?;
            out.extend_from_slice(b" nodes, and a plan has 64 at most")
        }
        LimitPlace::Rules => {
            add_decimal(out, rules_and_flows(plan) as u64)?;
            out.extend_from_slice(b" rules and flows, and a plan has 1024 at most")
        }
        LimitPlace::MaxPdu(node) => {
            add_node(out, plan, node)?;
            out.extend_from_slice(b", max_pdu: it is neither 0 nor from 1024 to 1048576")
        }
    }
}

/// Adds what goes to its own node.
fn add_own(out: &mut Vec<u8>, plan: &PlanText, place: OwnPlace) -> Result<(), AllocError> {
    match place {
        OwnPlace::Rule(node, rule, _) => {
            add_node(out, plan, node)?;
            add_part(out, b", rule ", rule)?;
            out.extend_from_slice(b", to: it names the node itself")
        }
        OwnPlace::Flow(flow) => {
            add_flow(out, plan, flow)?;
            out.extend_from_slice(b": it goes to the node where it begins")
        }
    }
}

/// Adds the place and what stands there.
fn add_place(out: &mut Vec<u8>, plan: &PlanText, place: Place) -> Result<(), AllocError> {
    match place {
        Place::Syntax(at) => add_syntax(out, plan, at),
        Place::Name(at) => add_ill_named(out, plan, at),
        Place::Twins(first, second) => add_twins(out, plan, first, second),
        Place::Limit(at) => add_limit(out, plan, at),
        Place::Unknown(at) => add_stranger(out, plan, at),
        Place::Own(at) => add_own(out, plan, at),
    }
}

/// The place in words, one line of them, indented by two blanks: the table, the key, the value, and
/// what is wrong with it.
pub fn describe(alloc: Global, plan: &PlanText, place: Place) -> Result<Text, AllocError> {
    let mut out = Vec::from_slice(alloc, b"  ")?;
    add_place(&mut out, plan, place)?;
    out.push(b'\n')?;
    Ok(Text::from_vec(out))
}
