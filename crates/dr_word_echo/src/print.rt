//! The line that is printed of an echo.
ghost use Rattle.std.specs.Prelude.{◌≡◌, ◌++◌, ◌∷◌, IfOk, OnOk};
ghost use Rattle.dr_word_echo.specs.Lines.{echo_fields, echo_line, ended_fields, status_digits};

use dr_base::Text;
use dr_base::fields::{add_field, add_number};
use dr_session::{Echoed, Ended};
use std::alloc::{AllocError, Global};

const LF: u8 = 10;

/// Adds a status behind a tab.
fn add_status(alloc: Global, line: &mut Vec<u8>, status: u16) -> Result<(), AllocError>
    ensures { OnOk result (line.new.items ≡ line.old.items ++ (9 ∷ status_digits status)) }
{
    let bytes = status.to_be_bytes();
    let digits = hex::encode_upper(alloc, bytes.as_slice())?;
    add_field(line, digits.as_bytes())
}

/// Adds how an association ended.
fn add_ended(line: &mut Vec<u8>, ended: Ended) -> Result<(), AllocError>
    ensures { OnOk result (line.new.items ≡ line.old.items ++ ended_fields ended) }
{
    match ended {
        Ended::Rejected(rejection) => {
            line.extend_from_slice(b"rejected")?;
            add_number(line, rejection.result as u64)?;
            add_number(line, rejection.source as u64)?;
            add_number(line, rejection.reason as u64)
        }
        Ended::Aborted => line.extend_from_slice(b"aborted"),
        Ended::Released => line.extend_from_slice(b"no-context"),
        Ended::Closed => line.extend_from_slice(b"closed"),
    }
}

/// Adds the status of the response, where one came, else how the association ended.
fn add_echoed(alloc: Global, line: &mut Vec<u8>, echoed: Echoed) -> Result<(), AllocError>
    ensures { OnOk result
        (line.new.items ≡ line.old.items ++ echo_fields echoed.status echoed.ended) }
{
    match echoed.status {
        Some(status) => {
            line.extend_from_slice(b"status")?;
            add_status(alloc, line, status)
        }
        None => add_ended(line, echoed.ended),
    }
}

/// The line that is printed of an echo.
pub fn line_of(alloc: Global, echoed: Echoed) -> Result<Text, AllocError>
    ensures { IfOk result (λ line. line ≡ echo_line echoed) }
{
    let mut line = Vec::new(alloc);
    add_echoed(alloc, &mut line, echoed)?;
    line.push(LF)?;
    Ok(Text::from_vec(line))
}
