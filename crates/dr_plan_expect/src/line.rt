//! In which line of a text of expectations its fault shows. Nothing is claimed of the number but by
//! tests.
use crate::tables::ExpectTable;
use dr_plan_text::form::{Form, TableOf};
use std::alloc::Global;
use toml::{Table, Value};

/// The number of the line that holds the byte at this place; lines count from 1.
pub fn line_at(text: &[u8], place: usize) -> usize {
    let mut line: usize = 1;
    for byte in text.iter().take(place) {
        if *byte == b'\n' {
            line = line.saturating_add(1);
        }
    }
    line
}

/// Whether the line begins an array of tables' next one.
fn is_header(line: &[u8]) -> bool {
    line.trim_ascii_start().starts_with(b"[[")
}

/// The line of the header of the row at this index, which counts from 0; and 1 where it has none of
/// its own.
fn header_line(text: &[u8], row: usize) -> usize {
    let mut left = row;
    let mut number: usize = 1;
    for line in text.split(|byte| *byte == b'\n') {
        if is_header(line) {
            if left == 0 {
                return number;
            }
            left -= 1;
        }
        number = number.saturating_add(1);
    }
    1
}

/// Whether the value is an ill-formed row.
fn is_faulty(alloc: Global, row: &Value) -> bool {
    TableOf::<ExpectTable>::read(alloc, row).is_err()
}

/// The index of the first row that is ill-formed, if there is one.
fn faulty_row(alloc: Global, root: &Table) -> Option<usize> {
    let rows = root.get("expect")?.as_array()?;
    rows.iter().position(|row| is_faulty(alloc, row))
}

/// The line where the fault of a root table shows: that of the header of the first row that is
/// ill-formed, and 1 where all rows are right.
pub fn line_of(alloc: Global, text: &[u8], root: &Table) -> usize {
    match faulty_row(alloc, root) {
        Some(row) => header_line(text, row),
        None => 1,
    }
}
