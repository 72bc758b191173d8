//! The place of a fault among the text's tables.
ghost use Rattle.std.specs.Prelude.{◌≡◌, IfOk, IfSome, codes};
ghost use Rattle.toml.specs.Data.{get_member};
ghost use Rattle.toml.specs.View.{table_view};
ghost use Rattle.dr_plan_places.specs.FieldFlaws.{HasFlaw, IsAt, IsIn, IsInNode, IsReadAs};

use crate::flaw::{Flaw, Inspected, flaw_in};
use crate::rows::{TableSearch, first_row};
use crate::tables::RootTable;
use dr_plan_model::Format;
use dr_plan_text::fault::ReadFault;
use dr_plan_text::fields::FormatNumber;
use dr_plan_text::form::defaulted;
use dr_plan_text::tables::{AcceptTable, FlowTable, NodeTable, RuleTable};
use std::alloc::{AllocError, Global};
use toml::Table;

/// A part of a node; indices count from 0.
#[derive(Clone, Copy, PartialEq, Eq)]
pub enum NodePart {
    /// Its own table.
    Own,
    /// One of its accept rows.
    AcceptRow(usize),
    /// One of its rules.
    Rule(usize),
}

/// A table of a plan's text; indices count from 0.
#[derive(Clone, Copy, PartialEq, Eq)]
pub enum FieldPlace {
    /// That of the whole text.
    Root,
    /// One of a node.
    OfNode(usize, NodePart),
    /// That of a flow.
    OfFlow(usize),
}

/// A search for a flaw in a table of a form.
pub struct FlawOf<T>(T);

impl<T: Inspected> TableSearch for FlawOf<T> {
    type Found = Flaw;

    ghost is_found = { λ format. HasFlaw (T.is_table format) };

    fn look(alloc: Global, format: Format, table: &Table) -> Result<Option<Flaw>, AllocError> {
        flaw_in::<T>(alloc, format, table)
    }
}

/// A search for a flaw in a node: its accept rows, its rules, and then its own fields.
struct FlawOfNode;

impl TableSearch for FlawOfNode {
    type Found = (NodePart, Flaw);

    ghost is_found = { λ format node found. IsInNode format node found.0 found.1 };

    fn look(
        alloc: Global,
        format: Format,
        table: &Table,
    ) -> Result<Option<(NodePart, Flaw)>, AllocError> {
        if let Some((row, flaw)) = first_row::<FlawOf<AcceptTable>>(
            alloc, format, table, "accept",
        )? {
            return Ok(Some((NodePart::AcceptRow(row), flaw)));
        }
        if let Some((rule, flaw)) = first_row::<FlawOf<RuleTable>>(alloc, format, table, "rule")? {
            return Ok(Some((NodePart::Rule(rule), flaw)));
        }
        match flaw_in::<NodeTable>(alloc, format, table)? {
            Some(flaw) => Ok(Some((NodePart::Own, flaw))),
            None => Ok(None),
        }
    }
}

/// The format as which the text's tables are looked at: that of the text, and 3 where the text says
/// none that there is, so that a prefix is no fault beside that of the format.
fn format_of(alloc: Global, root: &Table) -> Result<Format, AllocError>
    ensures { IfOk result (IsReadAs (get_member (codes "format") (table_view root.now))) }
{
    match defaulted::<FormatNumber>(alloc, root, "format", Format::One) {
        Ok(format) => Ok(format),
        Err(ReadFault::Field) => Ok(Format::Three),
        Err(ReadFault::Memory) => Err(AllocError),
    }
}

/// A place at which the tables of a text of that format show that they write no plan, and what is
/// wrong there.
fn field_as(
    alloc: Global,
    format: Format,
    root: &Table,
) -> Result<Option<(FieldPlace, Flaw)>, AllocError>
    ensures { IfOk result (λ found. IfSome found (λ f. IsAt format (table_view root.now) f.0 f.1)) }
{
    if let Some((node, (part, flaw))) = first_row::<FlawOfNode>(alloc, format, root, "node")? {
        return Ok(Some((FieldPlace::OfNode(node, part), flaw)));
    }
    if let Some((flow, flaw)) = first_row::<FlawOf<FlowTable>>(alloc, format, root, "flow")? {
        return Ok(Some((FieldPlace::OfFlow(flow), flaw)));
    }
    match flaw_in::<RootTable>(alloc, format, root)? {
        Some(flaw) => Ok(Some((FieldPlace::Root, flaw))),
        None => Ok(None),
    }
}

/// A place at which the text's tables show that they write no plan, and what is wrong there: the
/// nodes are looked at first, then the flows, then the text's own fields.
///
/// Errors: want of memory.
pub fn field_in(alloc: Global, root: &Table) -> Result<Option<(FieldPlace, Flaw)>, AllocError>
    ensures { IfOk result (λ found. IfSome found (λ f. IsIn (table_view root.now) f.0 f.1)) }
{
    let format = format_of(alloc, root)?;
    let found = field_as(alloc, format, root)?;
    Ok(found)
}
