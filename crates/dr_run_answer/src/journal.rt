//! A page of a journal.
ghost use Rattle.std.specs.Prelude.{◌≡◌, ◌++◌, OnOk};
ghost use Rattle.dr_run_answer.specs.Journals.{journal_head, line_text, lines_text};

use dr_base::Text;
use dr_base_quoted::put_text;
use dr_ledger_history::JournalLine;
use dr_ledger_text::{begin_line, put_number, put_said};
use std::alloc::AllocError;

/// Adds whose journal it is, the digest of the plan by which that node goes, in lower-case
/// hexadecimal digits, and how many lines the journal has.
pub fn put_journal_head(
    out: &mut Vec<u8>,
    name: &Text,
    plan: &str,
    count: u64,
) -> Result<(), AllocError>
    ensures { OnOk result
        (out.new.items ≡ out.old.items ++ journal_head name.now plan.now count) }
{
    out.extend_from_slice(b"{\"node\":")?;
    put_text(out, name)?;
    put_said(out, "plan", plan)?;
    put_number(out, "lines", count)?;
    out.extend_from_slice(b"}\n")?;
    Ok(())
}

/// Adds a line with its number.
fn put_line(out: &mut Vec<u8>, number: u64, line: &JournalLine) -> Result<(), AllocError>
    ensures { OnOk result (out.new.items ≡ out.old.items ++ line_text number line.now) }
{
    begin_line(out, number, line)?;
    out.extend_from_slice(b"}\n")?;
    Ok(())
}

/// Adds lines of a journal, which stand behind the one of that number.
pub fn put_lines(out: &mut Vec<u8>, after: u64, lines: &[JournalLine]) -> Result<(), AllocError>
    ensures { OnOk result (out.new.items ≡ out.old.items ++ lines_text after lines.now) }
{
    let mut number = after;
    for line in lines {
        number = number.saturating_add(1);
        put_line(out, number, line)?;
    }
    Ok(())
}
