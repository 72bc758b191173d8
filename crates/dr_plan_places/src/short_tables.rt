//! The forms of the tables of a text of format 3.
ghost use Rattle.dr_plan_expand.specs.Tables.{IsShortRow, IsShortRule, IsShortNode, IsShortFlow};
ghost use Rattle.dr_plan_expand.specs.Tables.{IsShortPlan};

use crate::flaw::Inspected;
use crate::keys::{misreads, misses, unknown_key};
use crate::listening::{calls_and_accepts, listening_fault};
use dr_plan_expand::fields::{AnyOrMore, Definitions, OneOrMore, Plain, Stations};
use dr_plan_expand::tables::{
    ShortFlowTable, ShortNodeTable, ShortPlanTable, ShortRowTable, ShortRuleTable,
};
use dr_plan_expand::{ShortFlow, ShortNode, ShortPlan, ShortRow, ShortRule};
use dr_plan_model::Format;
use dr_plan_text::fields::{AnyCallers, AnyText, Flag, Formed, Number, TextsOnce};
use dr_plan_text::form::{ListOf, SomeOf, TableOf};
use dr_plan_text::values::{AnyValue, AnyValues};
use std::alloc::{AllocError, Global};
use toml::Table;

impl Inspected for ShortRowTable {
    type Output = ShortRow;

    ghost is_table = { λ _. IsShortRow };

    fn unknown_in<'a>(table: &'a Table) -> Option<&'a str> {
        unknown_key(table, &["from", "class", "syntax"])
    }

    fn fault_in(
        alloc: Global,
        _format: Format,
        table: &Table,
    ) -> Result<Option<&'static str>, AllocError> {
        if misses::<AnyCallers>(alloc, table, "from")? {
            return Ok(Some("from"));
        }
        if misses::<OneOrMore>(alloc, table, "class")? {
            return Ok(Some("class"));
        }
        if misses::<TextsOnce>(alloc, table, "syntax")? {
            return Ok(Some("syntax"));
        }
        Ok(None)
    }
}

impl Inspected for ShortRuleTable {
    type Output = ShortRule;

    ghost is_table = { λ _. IsShortRule };

    fn unknown_in<'a>(table: &'a Table) -> Option<&'a str> {
        unknown_key(
            table,
            &[
                "from", "class", "modality", "station", "to", "keep", "except",
            ],
        )
    }

    fn fault_in(
        alloc: Global,
        _format: Format,
        table: &Table,
    ) -> Result<Option<&'static str>, AllocError> {
        if misreads::<AnyOrMore>(alloc, table, "from")? {
            return Ok(Some("from"));
        }
        if misreads::<AnyOrMore>(alloc, table, "class")? {
            return Ok(Some("class"));
        }
        if misreads::<AnyValue>(alloc, table, "modality")? {
            return Ok(Some("modality"));
        }
        if misreads::<AnyValue>(alloc, table, "station")? {
            return Ok(Some("station"));
        }
        if misreads::<Stations>(alloc, table, "except")? {
            return Ok(Some("except"));
        }
        if misreads::<ListOf<AnyText>>(alloc, table, "to")? {
            return Ok(Some("to"));
        }
        if misreads::<Flag>(alloc, table, "keep")? {
            return Ok(Some("keep"));
        }
        Ok(None)
    }
}

impl Inspected for ShortNodeTable {
    type Output = ShortNode;

    ghost is_table = { λ _. IsShortNode };

    fn unknown_in<'a>(table: &'a Table) -> Option<&'a str> {
        unknown_key(
            table,
            &[
                "name", "address", "max_pdu", "accept", "rule", "listens", "bind",
            ],
        )
    }

    fn fault_in(
        alloc: Global,
        _format: Format,
        table: &Table,
    ) -> Result<Option<&'static str>, AllocError> {
        if misses::<Formed<Plain>>(alloc, table, "name")? {
            return Ok(Some("name"));
        }
        if let Some(key) = listening_fault(alloc, Format::Three, table, true)? {
            return Ok(Some(key));
        }
        if misreads::<Number>(alloc, table, "max_pdu")? {
            return Ok(Some("max_pdu"));
        }
        if misreads::<ListOf<TableOf<ShortRowTable>>>(alloc, table, "accept")? {
            return Ok(Some("accept"));
        }
        if calls_and_accepts(table) {
            return Ok(Some("accept"));
        }
        if misreads::<ListOf<TableOf<ShortRuleTable>>>(alloc, table, "rule")? {
            return Ok(Some("rule"));
        }
        Ok(None)
    }
}

impl Inspected for ShortFlowTable {
    type Output = ShortFlow;

    ghost is_table = { λ _. IsShortFlow };

    fn unknown_in<'a>(table: &'a Table) -> Option<&'a str> {
        unknown_key(
            table,
            &["at", "to", "class", "syntax", "modality", "station"],
        )
    }

    fn fault_in(
        alloc: Global,
        _format: Format,
        table: &Table,
    ) -> Result<Option<&'static str>, AllocError> {
        if misses::<OneOrMore>(alloc, table, "at")? {
            return Ok(Some("at"));
        }
        if misses::<OneOrMore>(alloc, table, "to")? {
            return Ok(Some("to"));
        }
        if misses::<OneOrMore>(alloc, table, "class")? {
            return Ok(Some("class"));
        }
        if misses::<SomeOf<AnyText>>(alloc, table, "syntax")? {
            return Ok(Some("syntax"));
        }
        if misses::<AnyValues>(alloc, table, "modality")? {
            return Ok(Some("modality"));
        }
        if misses::<AnyValues>(alloc, table, "station")? {
            return Ok(Some("station"));
        }
        Ok(None)
    }
}

impl Inspected for ShortPlanTable {
    type Output = ShortPlan;

    ghost is_table = { λ _. IsShortPlan };

    fn unknown_in<'a>(table: &'a Table) -> Option<&'a str> {
        unknown_key(table, &["format", "set", "group", "node", "flow"])
    }

    fn fault_in(
        alloc: Global,
        _format: Format,
        table: &Table,
    ) -> Result<Option<&'static str>, AllocError> {
        if misreads::<TableOf<Definitions>>(alloc, table, "set")? {
            return Ok(Some("set"));
        }
        if misreads::<TableOf<Definitions>>(alloc, table, "group")? {
            return Ok(Some("group"));
        }
        if misreads::<ListOf<TableOf<ShortNodeTable>>>(alloc, table, "node")? {
            return Ok(Some("node"));
        }
        if misreads::<ListOf<TableOf<ShortFlowTable>>>(alloc, table, "flow")? {
            return Ok(Some("flow"));
        }
        Ok(None)
    }
}
