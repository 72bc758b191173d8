//! A page of rows.
ghost use Rattle.std.specs.Prelude.{◌≡◌, ◌++◌, OnOk, flat_map};
ghost use Rattle.dr_run_answer.specs.Answers.{row_line};

use crate::json::put_row;
use dr_base::Text;
use dr_ledger::Progress;
use std::alloc::AllocError;

/// Adds a line for each of the rows.
pub fn put_rows(out: &mut Vec<u8>, rows: &[((Text, Text), Progress)]) -> Result<(), AllocError>
    ensures { OnOk result (out.new.items ≡ out.old.items ++ flat_map row_line rows.now) }
{
    for row in rows {
        put_row(out, &row.0.0, &row.0.1, row.1)?;
    }
    Ok(())
}
