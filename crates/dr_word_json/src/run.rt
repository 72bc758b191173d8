//! Words about plans, whose answers are printed as JSON.
ghost use Rattle.std.specs.Prelude.{IfOk, OnOk};
ghost use Rattle.std.specs.Io.KnownBytes.{Appends};
ghost use Rattle.dr_word_json.specs.Documents.{document};
ghost use Rattle.dr_word_json.specs.Runs.{IsAsJson};
ghost use Rattle.dr_word_route.specs.Tasks.{DoesOnPlans};

use crate::document::document_of;
use dr_run_files::{Failure, Files};
use dr_run_open::Status;
use dr_word_line::Task;
use dr_word_route::run_asked;
use std::alloc::{AllocError, Global};
use std::io;
use std::io::{Read, Write};

/// Writes these lines as a document.
fn write_document<W: Write>(alloc: Global, lines: &[u8], output: &mut W) -> io::Result<()>
    ensures { OnOk result
        (Appends (W.contents output.old) (W.contents output.new) (document lines.now)) }
{
    match document_of(alloc, lines) {
        Ok(text) => output.write_all(text.as_bytes()),
        Err(AllocError) => Err(io::Error::from(AllocError)),
    }
}

/// Does what was asked for about plans, and prints as JSON what it would print.
///
/// Errors: Stream, File.
pub fn run_as_json<'a, R: Read, W: Write, E: Write, F: Files>(
    alloc: Global,
    asked: Task<'a>,
    input: &mut R,
    output: &mut W,
    faults: &mut E,
    files: &F,
) -> Result<Status, Failure<'a>>
    ensures { IfOk result
        (IsAsJson (DoesOnPlans (F.holds files.now) (R.remaining input.old) asked.entry)
        (W.contents output.old) (W.contents output.new)) }
{
    let mut lines = Vec::new(alloc);
    let status = run_asked(alloc, asked, input, &mut lines, faults, files)?;
    write_document(alloc, lines.as_slice(), output)?;
    Ok(status)
}
