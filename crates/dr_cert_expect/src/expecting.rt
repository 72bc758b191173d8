//! Whether all rows hold.
ghost use Rattle.std.specs.Prelude.{IfOk};
ghost use Rattle.dr_cert_expect.specs.Expected.{Decides};

use crate::answer::Miss;
use crate::row::look_over;
use dr_cert::Sealed;
use dr_plan_expect::Expectation;
use std::alloc::{AllocError, Global};

/// The first row that doesn't hold of the sealed plan, with what shows it; None where all hold. A
/// row looks at each line of the certificate once, and follows one key of each cell that it speaks
/// of.
///
/// Errors: want of memory.
pub fn first_miss(
    alloc: Global,
    sealed: &Sealed,
    rows: &[Expectation],
) -> Result<Option<Miss>, AllocError>
    ensures { IfOk result (Decides sealed.now.plan rows.now) }
{
    for index in 0..rows.len() {
        if let Some(lack) = look_over(alloc, sealed, &rows[index])? {
            let row = index + 1;
            return Ok(Some(Miss { row, lack }));
        }
    }
    Ok(None)
}
