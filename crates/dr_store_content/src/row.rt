//! A row's content.
ghost use Rattle.std.specs.Prelude.{◌≡◌, ◌++◌, List, ℕ, flat_map, map};
ghost use Rattle.sqlite_value.specs.Value.{owned};
ghost use Rattle.sha2.specs.Hashers.{Holds256};
ghost use Rattle.dr_store_content.specs.Contents.{amount, weight};
ghost use Rattle.dr_store_content.specs.Rows.{cell_text, counted, row_text};

use crate::content::Content;
use sha2::{Digest, Sha256};
use sqlite_value::value::ValueRef;

/// Adds bytes behind their number.
fn put_counted(hasher: &mut Sha256, bytes: &[u8])
    ensures { (m : List ℕ) → Holds256 hasher.old m
        → Holds256 hasher.new (m ++ counted bytes.now) }
{
    let length = bytes.len() as u64;
    hasher.update(length.to_le_bytes().as_slice());
    hasher.update(bytes);
}

/// Adds a cell.
fn put_cell(hasher: &mut Sha256, cell: ValueRef<'_>)
    ensures { (m : List ℕ) → Holds256 hasher.old m
        → Holds256 hasher.new (m ++ cell_text (owned cell.entry)) }
{
    match cell {
        ValueRef::Null => hasher.update([0].as_slice()),
        ValueRef::Int(number) => {
            hasher.update([1].as_slice());
            hasher.update(number.to_le_bytes().as_slice());
        }
        ValueRef::Real(_) => hasher.update([2].as_slice()),
        ValueRef::Text(text) => {
            hasher.update([3].as_slice());
            put_counted(hasher, text);
        }
        ValueRef::Blob(bytes) => {
            hasher.update([4].as_slice());
            put_counted(hasher, bytes);
        }
    }
}

/// Adds cells.
fn put_cells(hasher: &mut Sha256, cells: &[ValueRef<'_>])
    ensures { (m : List ℕ) → Holds256 hasher.old m
        → Holds256 hasher.new (m ++ flat_map cell_text (map owned cells.now)) }
{
    for cell in cells {
        put_cell(hasher, *cell);
    }
}

/// The content of one row of the table of that name.
pub fn content_of_row(table: &[u8], cells: &[ValueRef<'_>]) -> Content
    ensures { amount result ≡ weight (row_text table.now (map owned cells.now)) }
{
    let mut hasher = Sha256::new();
    put_counted(&mut hasher, table);
    put_cells(&mut hasher, cells);
    Content::of_bytes(&hasher.finalize())
}
