//! The lines of a report.
ghost use Rattle.std.specs.Prelude.{◌≡◌, ◌++◌, ◌∷◌, [], OnOk, flat_map};
ghost use Rattle.dr_ledger_report.specs.Reports.{arrival_line, cause_field, kept_line, name_line};
ghost use Rattle.dr_ledger_report.specs.Reports.{number_field, progress_fields};
ghost use Rattle.dr_base.specs.Texts.{next_field};
ghost use Rattle.dr_ledger_report.specs.Reports.{report_of, row_line};

use dr_base::Text;
use dr_base::fields::{add_field, add_number};
use dr_ledger::{Cause, Progress};
use std::alloc::AllocError;

const LF: u8 = 10;

/// Adds a moment as a field (milliseconds), and a hyphen where there is none.
pub fn put_moment(out: &mut Vec<u8>, moment: Option<u64>) -> Result<(), AllocError>
    ensures { OnOk result (out.new.items ≡ out.old.items ++ next_field (number_field moment)) }
{
    match moment {
        Some(moment) => add_number(out, moment),
        None => add_field(out, b"-"),
    }
}

/// Adds why a row is held, as a field.
pub fn put_cause(out: &mut Vec<u8>, cause: Cause) -> Result<(), AllocError>
    ensures { OnOk result (out.new.items ≡ out.old.items ++ next_field (cause_field cause)) }
{
    match cause {
        Cause::Status(status) => {
            let bytes = status.to_be_bytes();
            let alloc = *out.allocator();
            let digits = hex::encode_upper(alloc, bytes.as_slice())?;
            add_field(out, digits.as_bytes())
        }
        Cause::NoContext => add_field(out, b"no-context"),
        Cause::Unreadable => add_field(out, b"unreadable"),
    }
}

/// Adds how far a row is.
fn put_progress(out: &mut Vec<u8>, progress: Progress) -> Result<(), AllocError>
    ensures { OnOk result
        (out.new.items ≡ out.old.items ++ flat_map next_field (progress_fields progress)) }
{
    match progress {
        Progress::Waiting { tries, due } => {
            add_field(out, b"waiting")?;
            add_number(out, tries as u64)?;
            add_number(out, due)
        }
        Progress::Held(cause) => {
            add_field(out, b"held")?;
            put_cause(out, cause)
        }
        Progress::Done => add_field(out, b"done"),
        Progress::Dropped => add_field(out, b"dropped"),
    }
}

/// Adds the line of an arrival.
fn put_arrival(out: &mut Vec<u8>, caller: &Text, uid: &Text) -> Result<(), AllocError>
    ensures { OnOk result (out.new.items ≡ out.old.items ++ arrival_line (caller.now, uid.now)) }
{
    out.extend_from_slice(b"arrival")?;
    add_field(out, caller.as_bytes())?;
    add_field(out, uid.as_bytes())?;
    out.push(LF)?;
    Ok(())
}

/// Adds the line of a kept instance.
fn put_kept(out: &mut Vec<u8>, uid: &Text, bytes: u64) -> Result<(), AllocError>
    ensures { OnOk result (out.new.items ≡ out.old.items ++ kept_line (uid.now, bytes)) }
{
    out.extend_from_slice(b"kept")?;
    add_field(out, uid.as_bytes())?;
    add_number(out, bytes)?;
    out.push(LF)?;
    Ok(())
}

/// Adds the line of a row.
fn put_row(out: &mut Vec<u8>, uid: &Text, dest: &Text, progress: Progress) -> Result<(), AllocError>
    ensures { OnOk result
        (out.new.items ≡ out.old.items ++ row_line ((uid.now, dest.now), progress)) }
{
    out.extend_from_slice(b"row")?;
    add_field(out, uid.as_bytes())?;
    add_field(out, dest.as_bytes())?;
    put_progress(out, progress)?;
    out.push(LF)?;
    Ok(())
}

/// Adds a line for each arrival.
fn put_arrivals(out: &mut Vec<u8>, arrivals: &[(Text, Text)]) -> Result<(), AllocError>
    ensures { OnOk result (out.new.items ≡ out.old.items ++ flat_map arrival_line arrivals.now) }
{
    for arrival in arrivals {
        put_arrival(out, &arrival.0, &arrival.1)?;
    }
    Ok(())
}

/// Adds a line for each kept instance.
fn put_all_kept(out: &mut Vec<u8>, kept: &[(Text, u64)]) -> Result<(), AllocError>
    ensures { OnOk result (out.new.items ≡ out.old.items ++ flat_map kept_line kept.now) }
{
    for one in kept {
        put_kept(out, &one.0, one.1)?;
    }
    Ok(())
}

/// Adds a line for each row.
fn put_rows(out: &mut Vec<u8>, rows: &[((Text, Text), Progress)]) -> Result<(), AllocError>
    ensures { OnOk result (out.new.items ≡ out.old.items ++ flat_map row_line rows.now) }
{
    for row in rows {
        put_row(out, &row.0.0, &row.0.1, row.1)?;
    }
    Ok(())
}

/// Adds the line that names the node of the lines behind it.
pub fn put_name(out: &mut Vec<u8>, name: &Text) -> Result<(), AllocError>
    ensures { OnOk result (out.new.items ≡ out.old.items ++ name_line name.now) }
{
    out.extend_from_slice(b"node")?;
    add_field(out, name.as_bytes())?;
    out.push(LF)?;
    Ok(())
}

/// Adds what a book has, as a ledger lists it: its arrivals (caller, uid), its kept uids with the
/// lengths of their data sets (bytes), its rows ((uid, destination), progress), and how many lines
/// its journal has.
pub fn put_report(
    out: &mut Vec<u8>,
    arrivals: &[(Text, Text)],
    kept: &[(Text, u64)],
    rows: &[((Text, Text), Progress)],
    lines: u64,
) -> Result<(), AllocError>
    ensures { OnOk result
        (out.new.items ≡ out.old.items ++ report_of arrivals.now kept.now rows.now lines) }
{
    put_arrivals(out, arrivals)?;
    put_all_kept(out, kept)?;
    put_rows(out, rows)?;
    out.extend_from_slice(b"lines")?;
    add_number(out, lines)?;
    out.push(LF)?;
    Ok(())
}
