//! The place of a fault among the tables of a text of format 3.
ghost use Rattle.std.specs.Prelude.{IfOk, IfSome};
ghost use Rattle.toml.specs.View.{table_view};
ghost use Rattle.dr_plan_places.specs.ShortFlaws.{IsInShort, IsInShortNode};

use crate::field_place::{FieldPlace, FlawOf, NodePart};
use crate::flaw::{Flaw, flaw_in};
use crate::rows::{TableSearch, first_row};
use dr_plan_expand::tables::{
    ShortFlowTable, ShortNodeTable, ShortPlanTable, ShortRowTable, ShortRuleTable,
};
use dr_plan_model::Format;
use std::alloc::{AllocError, Global};
use toml::Table;

/// A search for a flaw in a node: its accept rows, its rules, and then its own fields.
struct FlawOfShortNode;

impl TableSearch for FlawOfShortNode {
    type Found = (NodePart, Flaw);

    ghost is_found = { λ _ node found. IsInShortNode node found.0 found.1 };

    fn look(
        alloc: Global,
        format: Format,
        table: &Table,
    ) -> Result<Option<(NodePart, Flaw)>, AllocError> {
        if let Some((row, flaw)) = first_row::<FlawOf<ShortRowTable>>(
            alloc, format, table, "accept",
        )? {
            return Ok(Some((NodePart::AcceptRow(row), flaw)));
        }
        if let Some((rule, flaw)) = first_row::<FlawOf<ShortRuleTable>>(
            alloc, format, table, "rule",
        )? {
            return Ok(Some((NodePart::Rule(rule), flaw)));
        }
        match flaw_in::<ShortNodeTable>(alloc, format, table)? {
            Some(flaw) => Ok(Some((NodePart::Own, flaw))),
            None => Ok(None),
        }
    }
}

/// A place at which the tables of a text of format 3 show that they say no plan, and what is wrong
/// there: the nodes are looked at first, then the flows, then the text's own fields.
///
/// Errors: want of memory.
pub fn short_field_in(alloc: Global, root: &Table) -> Result<Option<(FieldPlace, Flaw)>, AllocError>
    ensures { IfOk result (λ found. IfSome found (λ f. IsInShort (table_view root.now) f.0 f.1)) }
{
    if let Some((node, (part, flaw))) = first_row::<FlawOfShortNode>(
        alloc,
        Format::Three,
        root,
        "node",
    )? {
        return Ok(Some((FieldPlace::OfNode(node, part), flaw)));
    }
    if let Some((flow, flaw)) = first_row::<FlawOf<ShortFlowTable>>(
        alloc,
        Format::Three,
        root,
        "flow",
    )? {
        return Ok(Some((FieldPlace::OfFlow(flow), flaw)));
    }
    match flaw_in::<ShortPlanTable>(alloc, Format::Three, root)? {
        Some(flaw) => Ok(Some((FieldPlace::Root, flaw))),
        None => Ok(None),
    }
}
