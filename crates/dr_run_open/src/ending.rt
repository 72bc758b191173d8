//! How a word ends.
ghost use Rattle.std.specs.Prelude.{IfOk};
ghost use Rattle.dr_run_open.specs.Ends.{Ends};

use crate::halt::{Halt, tell_halt};
use crate::status::Status;
use dr_base::Text;
use dr_run_files::Failure;
use std::io::Write;

/// Writes what a word comes to: its text to the output, or why there is none to the faults.
///
/// Errors: Stream, and what failed on the way.
pub fn finish<'a, W: Write, E: Write>(
    came: Result<Text, Halt<'a>>,
    output: &mut W,
    faults: &mut E,
) -> Result<Status, Failure<'a>>
    ensures { IfOk result (Ends came.entry (W.contents output.old) (W.contents output.new)) }
{
    let halt = match came {
        Ok(text) => {
            output.write_all(text.as_bytes())?;
            return Ok(Status::Success);
        }
        Err(Halt::Failed(failure)) => return Err(failure),
        Err(halt) => halt,
    };
    tell_halt(&halt, output, faults)?;
    Ok(halt.status())
}
