//! The one spelling of a plan of format 3 without names, sets, groups and lists.
ghost use Rattle.std.specs.Prelude.{◌≡◌, ◌++◌, OnOk, IfOk, flat_map};
ghost use Rattle.dr_plan_expand.specs.Spelling.{row_text, rule_text, node_text, flow_text};
ghost use Rattle.dr_plan_expand.specs.Spelling.{plan_text};

use crate::pieces::{
    add_callers, add_exceptions, add_field, add_flag, add_list, add_listens, add_pattern,
    add_signed, add_values,
};
use dr_base::Text;
use dr_base_quoted::put_in_quotes;
use dr_plan_text::{AcceptText, FlowText, NodeText, PlanText};
use dr_route::Rule;
use std::alloc::{AllocError, Global};

/// An accept row.
fn spell_row(alloc: Global, row: &AcceptText) -> Result<Vec<u8>, AllocError>
    ensures { IfOk result (λ out. out.items ≡ row_text row.now) }
{
    let mut out = Vec::from_slice(alloc, b"\n[[node.accept]]\nfrom = ")?;
    add_callers(alloc, &mut out, &row.from)?;
    out.extend_from_slice(b"\nclass = ")?;
    put_in_quotes(&mut out, &row.class)?;
    out.extend_from_slice(b"\nsyntax = ")?;
    add_list(alloc, &mut out, row.syntaxes.as_slice())?;
    out.extend_from_slice(b"\n")?;
    Ok(out)
}

/// Adds accept rows.
fn add_rows(alloc: Global, out: &mut Vec<u8>, rows: &[AcceptText]) -> Result<(), AllocError>
    ensures { OnOk result (out.new.items ≡ out.old.items ++ flat_map row_text rows.now) }
{
    for row in rows {
        let text = spell_row(alloc, row)?;
        out.extend_from_slice(text.as_slice())?;
    }
    Ok(())
}

/// A rule.
fn spell_rule(alloc: Global, rule: &Rule) -> Result<Vec<u8>, AllocError>
    ensures { IfOk result (λ out. out.items ≡ rule_text rule.now) }
{
    let mut out = Vec::from_slice(alloc, b"\n[[node.rule]]\nfrom = ")?;
    add_pattern(&mut out, &rule.from)?;
    out.extend_from_slice(b"\nclass = ")?;
    add_pattern(&mut out, &rule.class)?;
    out.extend_from_slice(b"\nmodality = ")?;
    add_field(alloc, &mut out, &rule.modality)?;
    out.extend_from_slice(b"\nstation = ")?;
    add_field(alloc, &mut out, &rule.station)?;
    add_exceptions(alloc, &mut out, rule.except.as_slice())?;
    out.extend_from_slice(b"\nto = ")?;
    add_list(alloc, &mut out, rule.to.as_slice())?;
    out.extend_from_slice(b"\nkeep = ")?;
    add_flag(&mut out, rule.keep)?;
    out.extend_from_slice(b"\n")?;
    Ok(out)
}

/// Adds rules.
fn add_rules(alloc: Global, out: &mut Vec<u8>, rules: &[Rule]) -> Result<(), AllocError>
    ensures { OnOk result (out.new.items ≡ out.old.items ++ flat_map rule_text rules.now) }
{
    for rule in rules {
        let text = spell_rule(alloc, rule)?;
        out.extend_from_slice(text.as_slice())?;
    }
    Ok(())
}

/// A node.
fn spell_node(alloc: Global, node: &NodeText) -> Result<Vec<u8>, AllocError>
    ensures { IfOk result (λ out. out.items ≡ node_text node.now) }
{
    let mut out = Vec::from_slice(alloc, b"\n[[node]]\nname = ")?;
    put_in_quotes(&mut out, &node.name)?;
    add_listens(alloc, &mut out, &node.listens)?;
    out.extend_from_slice(b"\nmax_pdu = ")?;
    add_signed(&mut out, node.max_pdu)?;
    out.extend_from_slice(b"\n")?;
    add_rows(alloc, &mut out, node.accepts.as_slice())?;
    add_rules(alloc, &mut out, node.rules.as_slice())?;
    Ok(out)
}

/// Adds nodes.
fn add_nodes(alloc: Global, out: &mut Vec<u8>, nodes: &[NodeText]) -> Result<(), AllocError>
    ensures { OnOk result (out.new.items ≡ out.old.items ++ flat_map node_text nodes.now) }
{
    for node in nodes {
        let text = spell_node(alloc, node)?;
        out.extend_from_slice(text.as_slice())?;
    }
    Ok(())
}

/// A flow.
fn spell_flow(alloc: Global, flow: &FlowText) -> Result<Vec<u8>, AllocError>
    ensures { IfOk result (λ out. out.items ≡ flow_text flow.now) }
{
    let mut out = Vec::from_slice(alloc, b"\n[[flow]]\nat = ")?;
    put_in_quotes(&mut out, &flow.at)?;
    out.extend_from_slice(b"\nto = ")?;
    put_in_quotes(&mut out, &flow.to)?;
    out.extend_from_slice(b"\nclass = ")?;
    add_list(alloc, &mut out, flow.classes.as_slice())?;
    out.extend_from_slice(b"\nsyntax = ")?;
    add_list(alloc, &mut out, flow.syntaxes.as_slice())?;
    out.extend_from_slice(b"\nmodality = ")?;
    add_values(alloc, &mut out, &flow.modalities)?;
    out.extend_from_slice(b"\nstation = ")?;
    add_values(alloc, &mut out, &flow.stations)?;
    out.extend_from_slice(b"\n")?;
    Ok(out)
}

/// Adds flows.
fn add_flows(alloc: Global, out: &mut Vec<u8>, flows: &[FlowText]) -> Result<(), AllocError>
    ensures { OnOk result (out.new.items ≡ out.old.items ++ flat_map flow_text flows.now) }
{
    for flow in flows {
        let text = spell_flow(alloc, flow)?;
        out.extend_from_slice(text.as_slice())?;
    }
    Ok(())
}

/// The text of the plan: its format, its nodes, and its flows, with each field of each of them.
pub fn spell(alloc: Global, plan: &PlanText) -> Result<Text, AllocError>
    ensures { IfOk result (λ text. text ≡ plan_text plan.now) }
{
    let mut out = Vec::from_slice(alloc, b"format = 3\n")?;
    add_nodes(alloc, &mut out, plan.nodes.as_slice())?;
    add_flows(alloc, &mut out, plan.flows.as_slice())?;
    Ok(Text::from_vec(out))
}
