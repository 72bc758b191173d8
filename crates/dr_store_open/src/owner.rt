//! The row of site, as a query shows it.
ghost use Rattle.std.specs.Prelude.{◌≡◌, IsTrue, Some, pos};
ghost use Rattle.sqlite.specs.Order.{column};
ghost use Rattle.sqlite.specs.declared.types.Value.TheVariants.{Blob, Int, Text as TextCell};
ghost use Rattle.dr_store_reads.specs.Queries.{IsOwnerAsShown, IsOwnerRow};

use dr_base::Text;
use sqlite::Row;
use sqlite::types::ValueRef;

/// Whether the row's first cell is 1.
fn is_first(row: &Row) -> bool
    ensures { IsTrue result → (column row.now 0 ≡ Int (pos 1)) }
{
    match row.get_ref(0) {
        Ok(ValueRef::Int(id)) => id == 1,
        Ok(ValueRef::Null) => false,
        Ok(ValueRef::Real(_)) => false,
        Ok(ValueRef::Text(_)) => false,
        Ok(ValueRef::Blob(_)) => false,
        Err(_) => false,
    }
}

/// Whether the cell has this text.
fn has_text(row: &Row, at: usize, text: &Text) -> bool
    ensures { IsTrue result → (column row.now at ≡ TextCell text.now) }
{
    match row.get_ref(at) {
        Ok(ValueRef::Text(bytes)) => bytes == text.as_bytes(),
        Ok(ValueRef::Null) => false,
        Ok(ValueRef::Int(_)) => false,
        Ok(ValueRef::Real(_)) => false,
        Ok(ValueRef::Blob(_)) => false,
        Err(_) => false,
    }
}

/// Whether the cell has these bytes.
fn has_blob(row: &Row, at: usize, blob: &[u8]) -> bool
    ensures { IsTrue result → (column row.now at ≡ Blob blob.now) }
{
    match row.get_ref(at) {
        Ok(ValueRef::Blob(bytes)) => bytes == blob,
        Ok(ValueRef::Null) => false,
        Ok(ValueRef::Int(_)) => false,
        Ok(ValueRef::Real(_)) => false,
        Ok(ValueRef::Text(_)) => false,
        Err(_) => false,
    }
}

/// Whether the row says this node, and this for its plan.
fn is_row_of(row: &Row, node: &Text, cell: &[u8]) -> bool
    ensures { IsTrue result
        → IsOwnerRow row.now (record { node = node.now; plan = cell.now }) }
{
    is_first(row) && has_text(row, 1, node) && has_blob(row, 2, cell)
}

/// Whether there is one row, which says so.
pub fn shows_owner(rows: &[Row], node: &Text, cell: &[u8]) -> bool
    ensures { IsTrue result
        → IsOwnerAsShown rows.now (Some (record { node = node.now; plan = cell.now })) }
{
    if rows.len() != 1 {
        return false;
    }
    let Some(row) = rows.first() else {
        return false;
    };
    is_row_of(row, node, cell)
}
