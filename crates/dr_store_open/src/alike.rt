//! Rows of answers that are the same.
ghost use Rattle.std.specs.Prelude.{◌≡◌, IsTrue};
ghost use Rattle.sqlite.specs.Order.{column};
ghost use Rattle.sqlite_value.specs.Value.{owned};

use sqlite::Row;
use sqlite::types::ValueRef;

/// Whether they are one value. No ledger has a number with a fraction.
fn is_value(value: ValueRef<'_>, other: ValueRef<'_>) -> bool
    ensures { IsTrue result → owned value.entry ≡ owned other.entry }
{
    match value {
        ValueRef::Null => match other {
            ValueRef::Null => true,
            _ => false,
        },
        ValueRef::Int(number) => match other {
            ValueRef::Int(same) => number == same,
            _ => false,
        },
        ValueRef::Text(text) => match other {
            ValueRef::Text(same) => text == same,
            _ => false,
        },
        ValueRef::Blob(bytes) => match other {
            ValueRef::Blob(same) => bytes == same,
            _ => false,
        },
        ValueRef::Real(_) => false,
    }
}

/// Whether the rows have one value at that place.
fn is_cell(row: &Row, other: &Row, at: usize) -> bool
    ensures { IsTrue result → column row.now at ≡ column other.now at }
{
    let Ok(value) = row.get_ref(at) else {
        return false;
    };
    let Ok(same) = other.get_ref(at) else {
        return false;
    };
    is_value(value, same)
}

/// Whether they are one row.
fn is_row(row: &Row, other: &Row) -> bool
    ensures { IsTrue result → row.now ≡ other.now }
{
    if row.column_count() != other.column_count() {
        return false;
    }
    for at in 0..row.column_count() {
        if !is_cell(row, other, at) {
            return false;
        }
    }
    true
}

/// Whether they are the same rows in the same order.
pub fn are_rows(rows: &[Row], others: &[Row]) -> bool
    ensures { IsTrue result → rows.now ≡ others.now }
{
    if rows.len() != others.len() {
        return false;
    }
    for (i, row) in rows.iter().enumerate() {
        if !is_row(row, &others[i]) {
            return false;
        }
    }
    true
}
