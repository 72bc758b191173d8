//! The forms of the text's tables.
ghost use Rattle.dr_plan_text.specs.Tables.{IsAcceptTable, IsRoot};
ghost use Rattle.dr_plan_places.specs.FieldFlaws.{IsRuleText, IsFlowOf, IsNodeOf};

use crate::flaw::Inspected;
use crate::keys::{
    misreads, misreads_except, misreads_modality, misreads_station, misses, misses_modalities,
    misses_stations, unknown_key,
};
use crate::listening::{calls_and_accepts, listening_fault};
use dr_plan_model::Format;
use dr_plan_text::fields::{
    AnyCallers, AnyText, Class, ClassPattern, Flag, FormatNumber, Formed, NamePattern, Number,
    TextsOnce,
};
use dr_plan_text::form::{ListOf, SomeOf, TableOf};
use dr_plan_text::tables::{AcceptTable, FlowTable, NodeTable, RuleTable};
use dr_plan_text::{AcceptText, FlowText, NodeText, PlanText};
use dr_route::Rule;
use std::alloc::{AllocError, Global};
use toml::Table;

impl Inspected for AcceptTable {
    type Output = AcceptText;

    ghost is_table = { λ _. IsAcceptTable };

    fn unknown_in<'a>(table: &'a Table) -> Option<&'a str> {
        unknown_key(table, &["from", "class", "syntax"])
    }

    fn fault_in(
        alloc: Global,
        _format: Format,
        table: &Table,
    ) -> Result<Option<&'static str>, AllocError> {
        if misses::<AnyCallers>(alloc, table, "from")? {
            return Ok(Some("from"));
        }
        if misses::<Formed<Class>>(alloc, table, "class")? {
            return Ok(Some("class"));
        }
        if misses::<TextsOnce>(alloc, table, "syntax")? {
            return Ok(Some("syntax"));
        }
        Ok(None)
    }
}

impl Inspected for RuleTable {
    type Output = Rule;

    ghost is_table = { IsRuleText };

    fn unknown_in<'a>(table: &'a Table) -> Option<&'a str> {
        unknown_key(
            table,
            &[
                "from", "class", "modality", "station", "to", "keep", "except",
            ],
        )
    }

    fn fault_in(
        alloc: Global,
        format: Format,
        table: &Table,
    ) -> Result<Option<&'static str>, AllocError> {
        if misreads::<NamePattern>(alloc, table, "from")? {
            return Ok(Some("from"));
        }
        if misreads::<ClassPattern>(alloc, table, "class")? {
            return Ok(Some("class"));
        }
        if misreads_modality(alloc, format, table)? {
            return Ok(Some("modality"));
        }
        if misreads_station(alloc, format, table)? {
            return Ok(Some("station"));
        }
        if misreads_except(alloc, format, table)? {
            return Ok(Some("except"));
        }
        if misreads::<ListOf<AnyText>>(alloc, table, "to")? {
            return Ok(Some("to"));
        }
        if misreads::<Flag>(alloc, table, "keep")? {
            return Ok(Some("keep"));
        }
        Ok(None)
    }
}

impl Inspected for NodeTable {
    type Output = NodeText;

    ghost is_table = { IsNodeOf };

    fn unknown_in<'a>(table: &'a Table) -> Option<&'a str> {
        unknown_key(
            table,
            &[
                "name", "address", "max_pdu", "accept", "rule", "listens", "bind",
            ],
        )
    }

    fn fault_in(
        alloc: Global,
        format: Format,
        table: &Table,
    ) -> Result<Option<&'static str>, AllocError> {
        if misses::<AnyText>(alloc, table, "name")? {
            return Ok(Some("name"));
        }
        if let Some(key) = listening_fault(alloc, format, table, false)? {
            return Ok(Some(key));
        }
        if misreads::<Number>(alloc, table, "max_pdu")? {
            return Ok(Some("max_pdu"));
        }
        if misreads::<ListOf<TableOf<AcceptTable>>>(alloc, table, "accept")? {
            return Ok(Some("accept"));
        }
        if calls_and_accepts(table) {
            return Ok(Some("accept"));
        }
        if misreads::<ListOf<TableOf<RuleTable>>>(alloc, table, "rule")? {
            return Ok(Some("rule"));
        }
        Ok(None)
    }
}

impl Inspected for FlowTable {
    type Output = FlowText;

    ghost is_table = { IsFlowOf };

    fn unknown_in<'a>(table: &'a Table) -> Option<&'a str> {
        unknown_key(
            table,
            &["at", "to", "class", "syntax", "modality", "station"],
        )
    }

    fn fault_in(
        alloc: Global,
        format: Format,
        table: &Table,
    ) -> Result<Option<&'static str>, AllocError> {
        if misses::<AnyText>(alloc, table, "at")? {
            return Ok(Some("at"));
        }
        if misses::<AnyText>(alloc, table, "to")? {
            return Ok(Some("to"));
        }
        if misses::<SomeOf<Formed<Class>>>(alloc, table, "class")? {
            return Ok(Some("class"));
        }
        if misses::<SomeOf<AnyText>>(alloc, table, "syntax")? {
            return Ok(Some("syntax"));
        }
        if misses_modalities(alloc, format, table)? {
            return Ok(Some("modality"));
        }
        if misses_stations(alloc, format, table)? {
            return Ok(Some("station"));
        }
        Ok(None)
    }
}

/// The text's own table.
pub struct RootTable;

impl Inspected for RootTable {
    type Output = PlanText;

    ghost is_table = { λ _. IsRoot };

    fn unknown_in<'a>(table: &'a Table) -> Option<&'a str> {
        unknown_key(table, &["format", "node", "flow"])
    }

    fn fault_in(
        alloc: Global,
        _format: Format,
        table: &Table,
    ) -> Result<Option<&'static str>, AllocError> {
        if misreads::<FormatNumber>(alloc, table, "format")? {
            return Ok(Some("format"));
        }
        if misreads::<ListOf<TableOf<NodeTable>>>(alloc, table, "node")? {
            return Ok(Some("node"));
        }
        if misreads::<ListOf<TableOf<FlowTable>>>(alloc, table, "flow")? {
            return Ok(Some("flow"));
        }
        Ok(None)
    }
}
