//! The tables of a plan's text.
ghost use Rattle.std.specs.Prelude.{◌≡◌, ◌≢◌, IfOk, IfErr};
ghost use Rattle.toml.specs.Data.{no_members};
ghost use Rattle.toml.specs.View.{table_view};
ghost use Rattle.dr_plan_text.specs.Tables.{IsAcceptTable, IsRuleTable, IsNodeTable, IsFlowTable};
ghost use Rattle.dr_plan_text.specs.Tables.{IsRoot};
ghost use Rattle.dr_plan_text.specs.declared.fault.ReadFault.TheVariants.{Field, Memory};
ghost use Rattle.dr_plan_text.specs.declared.words.PlanText.{PlanText as Written};

use crate::fault::ReadFault;
use crate::fields::{
    AnyCallers, AnyText, Class, ClassPattern, Flag, FormatNumber, Formed, NamePattern, Number,
    TextsOnce,
};
use crate::fits::fits_format;
use crate::form::{ListOf, SomeOf, TableForm, TableOf, defaulted, has_only, required};
use crate::listening::{listens_in, may_accept};
use crate::values::{AnyValue, AnyValues, Exceptions};
use crate::words::{AcceptText, FlowText, NodeText, PlanText};
use dr_base::Seq;
use dr_plan_model::Format;
use dr_route::{FieldPattern, Pattern, Rule};
use std::alloc::Global;
use toml::Table;

/// A row of an accept list, `[[node.accept]]`.
pub struct AcceptTable;

impl TableForm for AcceptTable {
    type Output = AcceptText;

    ghost is_table = { IsAcceptTable };

    fn read_table(alloc: Global, table: &Table) -> Result<AcceptText, ReadFault> {
        if !has_only(table, &["from", "class", "syntax"]) {
            return Err(ReadFault::Field);
        }
        Ok(AcceptText {
            from: required::<AnyCallers>(alloc, table, "from")?,
            class: required::<Formed<Class>>(alloc, table, "class")?,
            syntaxes: required::<TextsOnce>(alloc, table, "syntax")?,
        })
    }
}

/// A rule, `[[node.rule]]`.
pub struct RuleTable;

impl TableForm for RuleTable {
    type Output = Rule;

    ghost is_table = { IsRuleTable };

    fn read_table(alloc: Global, table: &Table) -> Result<Rule, ReadFault> {
        if !has_only(
            table,
            &[
                "from", "class", "modality", "station", "to", "keep", "except",
            ],
        ) {
            return Err(ReadFault::Field);
        }
        Ok(Rule {
            from: defaulted::<NamePattern>(alloc, table, "from", Pattern::Any)?,
            class: defaulted::<ClassPattern>(alloc, table, "class", Pattern::Any)?,
            modality: defaulted::<AnyValue>(alloc, table, "modality", FieldPattern::Any)?,
            station: defaulted::<AnyValue>(alloc, table, "station", FieldPattern::Any)?,
            except: defaulted::<Exceptions>(alloc, table, "except", Seq::new(alloc))?,
            to: defaulted::<ListOf<AnyText>>(alloc, table, "to", Seq::new(alloc))?,
            keep: defaulted::<Flag>(alloc, table, "keep", false)?,
        })
    }
}

/// A node, `[[node]]`.
pub struct NodeTable;

impl TableForm for NodeTable {
    type Output = NodeText;

    ghost is_table = { IsNodeTable };

    fn read_table(alloc: Global, table: &Table) -> Result<NodeText, ReadFault> {
        if !has_only(
            table,
            &[
                "name", "address", "max_pdu", "accept", "rule", "listens", "bind",
            ],
        ) {
            return Err(ReadFault::Field);
        }
        let name = required::<AnyText>(alloc, table, "name")?;
        let listens = listens_in(alloc, table, false)?;
        let max_pdu = defaulted::<Number>(alloc, table, "max_pdu", 16384)?;
        let accepts = defaulted::<ListOf<TableOf<AcceptTable>>>(
            alloc,
            table,
            "accept",
            Seq::new(alloc),
        )?;
        if !may_accept(&listens, &accepts) {
            return Err(ReadFault::Field);
        }
        Ok(NodeText {
            name,
            listens,
            max_pdu,
            accepts,
            rules: defaulted::<ListOf<TableOf<RuleTable>>>(alloc, table, "rule", Seq::new(alloc))?,
        })
    }
}

/// A flow, `[[flow]]`.
pub struct FlowTable;

impl TableForm for FlowTable {
    type Output = FlowText;

    ghost is_table = { IsFlowTable };

    fn read_table(alloc: Global, table: &Table) -> Result<FlowText, ReadFault> {
        if !has_only(
            table,
            &["at", "to", "class", "syntax", "modality", "station"],
        ) {
            return Err(ReadFault::Field);
        }
        Ok(FlowText {
            at: required::<AnyText>(alloc, table, "at")?,
            to: required::<AnyText>(alloc, table, "to")?,
            classes: required::<SomeOf<Formed<Class>>>(alloc, table, "class")?,
            syntaxes: required::<SomeOf<AnyText>>(alloc, table, "syntax")?,
            modalities: required::<AnyValues>(alloc, table, "modality")?,
            stations: required::<AnyValues>(alloc, table, "station")?,
        })
    }
}

/// The format, nodes and flows of the root table. What its format doesn't have is a fault of a
/// field too.
pub fn read_root(alloc: Global, root: &Table) -> Result<PlanText, ReadFault>
    ensures ok { IfOk result (IsRoot (table_view root.now)) }
    ensures field { IfErr result (λ e.
        e ≡ Field → (plan : Written) → IsRoot (table_view root.now) plan → ⊥) }
    ensures memory { IfErr result (λ e. e ≡ Memory → table_view root.now ≢ no_members) }
{
    if !has_only(root, &["format", "node", "flow"]) {
        return Err(ReadFault::Field);
    }
    let format = defaulted::<FormatNumber>(alloc, root, "format", Format::One)?;
    let nodes = defaulted::<ListOf<TableOf<NodeTable>>>(alloc, root, "node", Seq::new(alloc))?;
    let flows = defaulted::<ListOf<TableOf<FlowTable>>>(alloc, root, "flow", Seq::new(alloc))?;
    let plan = PlanText {
        format,
        nodes,
        flows,
    };
    if !fits_format(&plan) {
        return Err(ReadFault::Field);
    }
    Ok(plan)
}
