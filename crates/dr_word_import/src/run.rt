//! The word `import`.
ghost use Rattle.std.specs.Prelude.{IfOk};
ghost use Rattle.dr_word_import.specs.Imports.{PrintsPlan, WritesPlan};

use crate::table::{DeviceTable, gate_of, read_table};
use crate::writing::plan_text;
use dr_plan::{PlanFault, read_plan};
use dr_run_files::{Failure, Files, read_file};
use dr_run_open::Status;
use std::alloc::{AllocError, Global};
use std::io;
use std::io::Write;

/// Writes the text where it reads as a plan; else why it doesn't.
fn write_plan<W: Write, E: Write>(
    alloc: Global,
    text: &[u8],
    is_whole: bool,
    output: &mut W,
    faults: &mut E,
) -> io::Result<Status>
    ensures { IfOk result (λ _.
        WritesPlan text.now (W.contents output.old) (W.contents output.new)) }
{
    match read_plan(alloc, text) {
        Ok(_) => {
            output.write_all(text)?;
            if is_whole {
                return Ok(Status::Success);
            }
            Ok(Status::Refused)
        }
        Err(PlanFault::Memory) => Err(io::Error::from(AllocError)),
        Err(fault) => {
            writeln!(faults, "dr_router: these devices make no plan: {fault}")?;
            Ok(Status::Refused)
        }
    }
}

/// Writes the plan of a table's devices.
fn tell_plan<W: Write, E: Write>(
    alloc: Global,
    table: &DeviceTable,
    output: &mut W,
    faults: &mut E,
) -> io::Result<Status>
    ensures { IfOk result (λ _. PrintsPlan (W.contents output.old) (W.contents output.new)) }
{
    let devices = table.devices.as_slice();
    let Some(gate) = gate_of(devices) else {
        writeln!(faults, "dr_router: no line of the table is a router")?;
        return Ok(Status::Refused);
    };
    match plan_text(alloc, devices, gate) {
        Ok(text) => write_plan(alloc, text.as_slice(), table.is_whole, output, faults),
        Err(AllocError) => Err(io::Error::from(AllocError)),
    }
}

/// Reads a table of devices in a file, and prints a plan to begin with. Each row that can't be
/// placed is named, and then the word is refused; the plan is of the others.
///
/// Errors: Stream, File.
pub fn import_file<'a, F: Files, W: Write, E: Write>(
    alloc: Global,
    files: &F,
    path: &'a str,
    output: &mut W,
    faults: &mut E,
) -> Result<Status, Failure<'a>>
    ensures { IfOk result (λ _. PrintsPlan (W.contents output.old) (W.contents output.new)) }
{
    let text = read_file(alloc, files, path)?;
    let table = read_table(alloc, text.as_slice(), faults)?;
    let status = tell_plan(alloc, &table, output, faults)?;
    Ok(status)
}
