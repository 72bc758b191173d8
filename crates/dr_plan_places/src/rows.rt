//! The tables of an array.
ghost use Rattle.std.specs.Prelude.{◌≡◌, IfOk, IfSome, Some};
ghost use Rattle.dr_plan_model.specs.declared.plan.Format.{Format as Form};
ghost use Rattle.toml.specs.Data.{Members, get_item, get_member};
ghost use Rattle.toml.specs.View.{items_view, table_view};
ghost use Rattle.dr_plan_places.specs.FieldFlaws.{InRow, items_at, table_in};

use dr_plan_model::Format;
use dr_plan_text::form::value_at;
use std::alloc::{AllocError, Global};
use toml::{Table, Value};

/// A search for something in a table of a text of some format.
pub trait TableSearch {
    type Found: Drop;

    ghost is_found: { Form → Members → Self.Found → Type 0 };

    /// What is found in the table.
    fn look(alloc: Global, format: Format, table: &Table) -> Result<Option<Self::Found>, AllocError>
        ensures { IfOk result (λ found. IfSome found (is_found format (table_view table.now))) };
}

/// The items of the array at a key; none where there is no array.
pub fn items_of<'a>(table: &'a Table, key: &str) -> &'a [Value]
    ensures { items_view result.now ≡ items_at (get_member key.now (table_view table.now)) }
{
    let Some(value) = value_at(table, key) else {
        return &[];
    };
    match value.as_array() {
        Some(items) => items.as_slice(),
        None => &[],
    }
}

/// The first of the values that is a table in which something is found, by its index, and what is
/// found.
fn first_among<S: TableSearch>(
    alloc: Global,
    format: Format,
    items: &[Value],
) -> Result<Option<(usize, S::Found)>, AllocError>
    ensures { IfOk result (λ first. IfSome first (λ f. (row : Members)
        × (table_in (get_item f.0 (items_view items.now)) ≡ Some row)
        × S.is_found format row f.1)) }
{
    for (index, value) in items.iter().enumerate() {
        let Some(row) = value.as_table() else {
            continue;
        };
        if let Some(found) = S::look(alloc, format, row)? {
            return Ok(Some((index, found)));
        }
    }
    Ok(None)
}

/// The first table of the array at a key in which something is found, by its index, and what is
/// found.
///
/// Errors: want of memory.
pub fn first_row<S: TableSearch>(
    alloc: Global,
    format: Format,
    table: &Table,
    key: &str,
) -> Result<Option<(usize, S::Found)>, AllocError>
    ensures { IfOk result (λ first. IfSome first (λ f.
        InRow (λ row. S.is_found format row f.1) key.now (table_view table.now) f.0)) }
{
    first_among::<S>(alloc, format, items_of(table, key))
}
