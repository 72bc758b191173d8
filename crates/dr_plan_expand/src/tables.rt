//! The tables of a text of format 3.
ghost use Rattle.std.specs.Prelude.{◌≡◌, ◌↔◌, IsTrue, IfOk, IfErr};
ghost use Rattle.toml.specs.View.{table_view};
ghost use Rattle.dr_plan_expand.specs.Tables.{IsShortRow, IsShortRule, IsShortNode, IsShortFlow};
ghost use Rattle.dr_plan_expand.specs.Tables.{IsShortPlan, IsThird};
ghost use Rattle.dr_plan_expand.specs.declared.short.ShortPlan.{ShortPlan as Short};
ghost use Rattle.dr_plan_text.specs.declared.fault.ReadFault.TheVariants.{Field};

use crate::fields::{AnyOrMore, Definitions, OneOrMore, Plain, Stations};
use crate::short::{AnyWords, ShortFlow, ShortNode, ShortPlan, ShortRow, ShortRule};
use dr_base::Seq;
use dr_plan_text::fault::ReadFault;
use dr_plan_text::fields::{AnyCallers, AnyText, Flag, Formed, Number, TextsOnce};
use dr_plan_text::form::{
    ListOf, SomeOf, TableForm, TableOf, defaulted, has_only, required, value_at,
};
use dr_plan_text::listening::{listens_in, may_accept};
use dr_plan_text::values::{AnyValue, AnyValues};
use dr_route::FieldPattern;
use std::alloc::Global;
use toml::Table;

/// A row of an accept list, `[[node.accept]]`.
pub struct ShortRowTable;

impl TableForm for ShortRowTable {
    type Output = ShortRow;

    ghost is_table = { IsShortRow };

    fn read_table(alloc: Global, table: &Table) -> Result<ShortRow, ReadFault> {
        if !has_only(table, &["from", "class", "syntax"]) {
            return Err(ReadFault::Field);
        }
        Ok(ShortRow {
            from: required::<AnyCallers>(alloc, table, "from")?,
            classes: required::<OneOrMore>(alloc, table, "class")?,
            syntaxes: required::<TextsOnce>(alloc, table, "syntax")?,
        })
    }
}

/// A rule, `[[node.rule]]`.
pub struct ShortRuleTable;

impl TableForm for ShortRuleTable {
    type Output = ShortRule;

    ghost is_table = { IsShortRule };

    fn read_table(alloc: Global, table: &Table) -> Result<ShortRule, ReadFault> {
        if !has_only(
            table,
            &[
                "from", "class", "modality", "station", "to", "keep", "except",
            ],
        ) {
            return Err(ReadFault::Field);
        }
        Ok(ShortRule {
            from: defaulted::<AnyOrMore>(alloc, table, "from", AnyWords::Any)?,
            classes: defaulted::<AnyOrMore>(alloc, table, "class", AnyWords::Any)?,
            modality: defaulted::<AnyValue>(alloc, table, "modality", FieldPattern::Any)?,
            station: defaulted::<AnyValue>(alloc, table, "station", FieldPattern::Any)?,
            except: defaulted::<Stations>(alloc, table, "except", Seq::new(alloc))?,
            to: defaulted::<ListOf<AnyText>>(alloc, table, "to", Seq::new(alloc))?,
            keep: defaulted::<Flag>(alloc, table, "keep", false)?,
        })
    }
}

/// A node, `[[node]]`.
pub struct ShortNodeTable;

impl TableForm for ShortNodeTable {
    type Output = ShortNode;

    ghost is_table = { IsShortNode };

    fn read_table(alloc: Global, table: &Table) -> Result<ShortNode, ReadFault> {
        if !has_only(
            table,
            &[
                "name", "address", "max_pdu", "accept", "rule", "listens", "bind",
            ],
        ) {
            return Err(ReadFault::Field);
        }
        let name = required::<Formed<Plain>>(alloc, table, "name")?;
        let listens = listens_in(alloc, table, true)?;
        let max_pdu = defaulted::<Number>(alloc, table, "max_pdu", 16384)?;
        let accepts = defaulted::<ListOf<TableOf<ShortRowTable>>>(
            alloc,
            table,
            "accept",
            Seq::new(alloc),
        )?;
        if !may_accept(&listens, &accepts) {
            return Err(ReadFault::Field);
        }
        Ok(ShortNode {
            name,
            listens,
            max_pdu,
            accepts,
            rules: defaulted::<ListOf<TableOf<ShortRuleTable>>>(
                alloc,
                table,
                "rule",
                Seq::new(alloc),
            )?,
        })
    }
}

/// A flow, `[[flow]]`.
pub struct ShortFlowTable;

impl TableForm for ShortFlowTable {
    type Output = ShortFlow;

    ghost is_table = { IsShortFlow };

    fn read_table(alloc: Global, table: &Table) -> Result<ShortFlow, ReadFault> {
        if !has_only(
            table,
            &["at", "to", "class", "syntax", "modality", "station"],
        ) {
            return Err(ReadFault::Field);
        }
        Ok(ShortFlow {
            at: required::<OneOrMore>(alloc, table, "at")?,
            to: required::<OneOrMore>(alloc, table, "to")?,
            classes: required::<OneOrMore>(alloc, table, "class")?,
            syntaxes: required::<SomeOf<AnyText>>(alloc, table, "syntax")?,
            modalities: required::<AnyValues>(alloc, table, "modality")?,
            stations: required::<AnyValues>(alloc, table, "station")?,
        })
    }
}

/// Whether the text's root table is of format 3.
pub fn is_third(root: &Table) -> bool
    ensures { IsTrue result ↔ IsThird (table_view root.now) }
{
    let Some(value) = value_at(root, "format") else {
        return false;
    };
    value.as_integer() == Some(3)
}

/// A text of format 3 as a whole.
pub struct ShortPlanTable;

impl TableForm for ShortPlanTable {
    type Output = ShortPlan;

    ghost is_table = { IsShortPlan };

    fn read_table(alloc: Global, table: &Table) -> Result<ShortPlan, ReadFault> {
        if !has_only(table, &["format", "set", "group", "node", "flow"]) {
            return Err(ReadFault::Field);
        }
        if !is_third(table) {
            return Err(ReadFault::Field);
        }
        Ok(ShortPlan {
            sets: defaulted::<TableOf<Definitions>>(alloc, table, "set", Seq::new(alloc))?,
            groups: defaulted::<TableOf<Definitions>>(alloc, table, "group", Seq::new(alloc))?,
            nodes: defaulted::<ListOf<TableOf<ShortNodeTable>>>(
                alloc,
                table,
                "node",
                Seq::new(alloc),
            )?,
            flows: defaulted::<ListOf<TableOf<ShortFlowTable>>>(
                alloc,
                table,
                "flow",
                Seq::new(alloc),
            )?,
        })
    }
}
