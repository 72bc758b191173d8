//! What is sound in a plan and still looks wrong.
ghost use Rattle.std.specs.Prelude.{◌≡◌, ◌↔◌, ◌++◌, ◌-◌, IfOk, OnOk, IsTrue, Contains, take};
ghost use Rattle.dr_cert_lint.specs.Bringing.{BringsClass};
ghost use Rattle.dr_base.specs.Texts.{Text as Words};
ghost use Rattle.dr_cert_lint.specs.Findings.{IsAcceptText, IsFlowText, IsLintText, IsNodeText};
ghost use Rattle.dr_cert_lint.specs.Findings.{IsRuleText, IsSyntaxText, IsUnusedText, IsWholeText};
ghost use Rattle.dr_cert_lint.specs.Findings.{flow_row, rule_row, syntax_row, unused_row};
ghost use Rattle.dr_cert_lint.specs.Findings.{whole_row};
ghost use Rattle.dr_cert_lint.specs.Texts.{AreRows};

use crate::flows::{brings, brings_in, is_among};
use crate::uses::{PartInUse, is_used};
use dr_base::fields::{add_field, add_number};
use dr_base::{Syntax, Text};
use dr_cert::Sealed;
use dr_plan_model::{Flow, Node};
use dr_route::{AcceptRow, Rule};
use std::alloc::{AllocError, Global};

const LF: &[u8] = b"\n";

/// Adds the row of a node to which nothing comes.
fn add_whole_row(out: &mut Vec<u8>, node: &Node) -> Result<(), AllocError>
    ensures { OnOk result (out.new.items ≡ out.old.items ++ whole_row node.now) }
{
    out.extend_from_slice(b"node")?;
    add_field(out, node.name.as_bytes())?;
    out.extend_from_slice(LF)
}

/// Adds a row for a node to which nothing comes.
fn add_whole(
    alloc: Global,
    out: &mut Vec<u8>,
    sealed: &Sealed,
    node: &Node,
) -> Result<(), AllocError>
    ensures { OnOk result
        ((text : Words)
        × IsWholeText sealed.now.plan node.now text
        × (out.new.items ≡ out.old.items ++ text)) }
{
    if is_used(alloc, sealed, &node.name, PartInUse::Whole)? {
        return Ok(());
    }
    add_whole_row(out, node)?;
    Ok(())
}

/// Adds the row of an accept row by which nothing is taken.
fn add_unused_row(
    out: &mut Vec<u8>,
    node: &Node,
    number: usize,
    row: &AcceptRow,
) -> Result<(), AllocError>
    ensures { OnOk result (out.new.items ≡ out.old.items ++ unused_row node.now number row.now) }
{
    out.extend_from_slice(b"accept")?;
    add_field(out, node.name.as_bytes())?;
    add_number(out, number as u64)?;
    add_field(out, row.class.as_bytes())?;
    out.extend_from_slice(LF)
}

/// Adds a row for an accept row by which nothing is taken.
fn add_unused(
    alloc: Global,
    out: &mut Vec<u8>,
    sealed: &Sealed,
    node: &Node,
    number: usize,
    row: &AcceptRow,
) -> Result<(), AllocError>
    ensures { OnOk result
        ((text : Words)
        × IsUnusedText sealed.now.plan node.now number row.now text
        × (out.new.items ≡ out.old.items ++ text)) }
{
    if is_used(alloc, sealed, &node.name, PartInUse::Row(row))? {
        return Ok(());
    }
    add_unused_row(out, node, number, row)?;
    Ok(())
}

/// Adds the row of a transfer syntax in which nothing is brought.
fn add_syntax_row(
    out: &mut Vec<u8>,
    node: &Node,
    number: usize,
    row: &AcceptRow,
    syntax: Syntax,
) -> Result<(), AllocError>
    ensures { OnOk result
        (out.new.items ≡ out.old.items ++ syntax_row node.now number row.now syntax) }
{
    out.extend_from_slice(b"syntax")?;
    add_field(out, node.name.as_bytes())?;
    add_number(out, number as u64)?;
    add_field(out, row.class.as_bytes())?;
    add_field(out, syntax.uid())?;
    out.extend_from_slice(LF)
}

/// Whether the row takes its class in that transfer syntax, and some flow brings the class.
fn is_wanted(flows: &[Flow], row: &AcceptRow, syntax: Syntax) -> bool
    ensures { IsTrue result
        ↔ (Contains row.now.syntaxes syntax × BringsClass flows.now row.now.class) }
{
    row.syntaxes.as_slice().contains(&syntax) && brings(flows, &row.class)
}

/// Adds a row for a transfer syntax of an accept row in which no flow brings the row's class, while
/// some flow brings it.
fn add_syntax(
    out: &mut Vec<u8>,
    flows: &[Flow],
    node: &Node,
    number: usize,
    row: &AcceptRow,
    syntax: Syntax,
) -> Result<(), AllocError>
    ensures { OnOk result
        ((text : Words)
        × IsSyntaxText flows.now node.now number row.now syntax text
        × (out.new.items ≡ out.old.items ++ text)) }
{
    if brings_in(flows, &row.class, syntax) {
        return Ok(());
    }
    if is_wanted(flows, row, syntax) {
        add_syntax_row(out, node, number, row, syntax)?;
        return Ok(());
    }
    Ok(())
}

/// Adds the rows for an accept row.
fn add_accept(
    alloc: Global,
    out: &mut Vec<u8>,
    sealed: &Sealed,
    node: &Node,
    number: usize,
    row: &AcceptRow,
) -> Result<(), AllocError>
    ensures { OnOk result
        ((text : Words)
        × IsAcceptText sealed.now.plan node.now number row.now text
        × (out.new.items ≡ out.old.items ++ text)) }
{
    add_unused(alloc, out, sealed, node, number, row)?;
    let flows = sealed.plan().flows();
    add_syntax(out, flows, node, number, row, Syntax::Implicit)?;
    add_syntax(out, flows, node, number, row, Syntax::Explicit)?;
    Ok(())
}

/// Adds the rows for the accept rows of a node.
fn add_accepts(
    alloc: Global,
    out: &mut Vec<u8>,
    sealed: &Sealed,
    node: &Node,
) -> Result<(), AllocError>
    ensures { OnOk result
        ((text : Words)
        × AreRows (IsAcceptText sealed.now.plan node.now) 1 node.now.accepts text
        × (out.new.items ≡ out.old.items ++ text)) }
{
    let mut number = 0;
    for row in node.accepts.as_slice() {
        number += 1;
        add_accept(alloc, out, sealed, node, number, row)?;
    }
    Ok(())
}

/// Adds the row of a rule that holds for nothing.
fn add_rule_row(out: &mut Vec<u8>, node: &Node, number: usize) -> Result<(), AllocError>
    ensures { OnOk result (out.new.items ≡ out.old.items ++ rule_row node.now number) }
{
    out.extend_from_slice(b"rule")?;
    add_field(out, node.name.as_bytes())?;
    add_number(out, number as u64)?;
    out.extend_from_slice(LF)
}

/// Adds a row for a rule that holds for nothing that comes to the node.
fn add_rule(
    alloc: Global,
    out: &mut Vec<u8>,
    sealed: &Sealed,
    node: &Node,
    number: usize,
    rule: &Rule,
) -> Result<(), AllocError>
    requires node { Contains sealed.now.plan.nodes node.now }
    requires rule { Contains node.now.rules rule.now }
    ensures { OnOk result
        ((text : Words)
        × IsRuleText sealed.now.plan node.now number rule.now text
        × (out.new.items ≡ out.old.items ++ text)) }
{
    if is_used(alloc, sealed, &node.name, PartInUse::Rule(rule))? {
        return Ok(());
    }
    add_rule_row(out, node, number)?;
    Ok(())
}

/// Adds the rows for the rules of a node.
fn add_rules(
    alloc: Global,
    out: &mut Vec<u8>,
    sealed: &Sealed,
    node: &Node,
) -> Result<(), AllocError>
    requires { Contains sealed.now.plan.nodes node.now }
    ensures { OnOk result
        ((text : Words)
        × AreRows (IsRuleText sealed.now.plan node.now) 1 node.now.rules text
        × (out.new.items ≡ out.old.items ++ text)) }
{
    let mut number = 0;
    for rule in node.rules.as_slice() {
        number += 1;
        add_rule(alloc, out, sealed, node, number, rule)?;
    }
    Ok(())
}

/// Adds the rows for a node of the plan.
fn add_node(
    alloc: Global,
    out: &mut Vec<u8>,
    sealed: &Sealed,
    node: &Node,
) -> Result<(), AllocError>
    requires { Contains sealed.now.plan.nodes node.now }
    ensures { OnOk result
        ((text : Words)
        × IsNodeText sealed.now.plan node.now text
        × (out.new.items ≡ out.old.items ++ text)) }
{
    add_whole(alloc, out, sealed, node)?;
    add_accepts(alloc, out, sealed, node)?;
    add_rules(alloc, out, sealed, node)?;
    Ok(())
}

/// Adds the rows for all nodes of the plan.
fn add_nodes(alloc: Global, out: &mut Vec<u8>, sealed: &Sealed) -> Result<(), AllocError>
    ensures { OnOk result
        ((text : Words)
        × AreRows (λ number. IsNodeText sealed.now.plan) 1 sealed.now.plan.nodes text
        × (out.new.items ≡ out.old.items ++ text)) }
{
    for node in sealed.plan().nodes() {
        add_node(alloc, out, sealed, node)?;
    }
    Ok(())
}

/// Adds the row of a flow that was given before.
fn add_flow_row(out: &mut Vec<u8>, number: usize, flow: &Flow) -> Result<(), AllocError>
    ensures { OnOk result (out.new.items ≡ out.old.items ++ flow_row number flow.now) }
{
    out.extend_from_slice(b"flow")?;
    add_number(out, number as u64)?;
    add_field(out, flow.at.as_bytes())?;
    add_field(out, flow.to.as_bytes())?;
    out.extend_from_slice(LF)
}

/// Adds a row for a flow that was given before.
fn add_flow(
    out: &mut Vec<u8>,
    before: &[Flow],
    number: usize,
    flow: &Flow,
) -> Result<(), AllocError>
    ensures { OnOk result
        ((text : Words)
        × IsFlowText before.now number flow.now text
        × (out.new.items ≡ out.old.items ++ text)) }
{
    if is_among(before, flow) {
        add_flow_row(out, number, flow)?;
        return Ok(());
    }
    Ok(())
}

/// Adds the rows for the flows.
fn add_flows(out: &mut Vec<u8>, flows: &[Flow]) -> Result<(), AllocError>
    ensures { OnOk result
        ((text : Words)
        × AreRows (λ number. IsFlowText (take (number - 1) flows.now) number) 1 flows.now text
        × (out.new.items ≡ out.old.items ++ text)) }
{
    let mut number = 0;
    for flow in flows {
        let before = &flows[..number];
        number += 1;
        add_flow(out, before, number, flow)?;
    }
    Ok(())
}

/// What is sound in the plan and still looks wrong: one line for each finding, those for the nodes
/// first, in the order of the plan.
///
/// Errors: want of memory.
pub fn lint_text(alloc: Global, sealed: &Sealed) -> Result<Text, AllocError>
    ensures { IfOk result (IsLintText sealed.now.plan) }
{
    let mut out = Vec::new(alloc);
    add_nodes(alloc, &mut out, sealed)?;
    add_flows(&mut out, sealed.plan().flows())?;
    Ok(Text::from_vec(out))
}
