//! What is printed of a rehearsal.
ghost use Rattle.std.specs.Prelude.{◌≡◌, ◌++◌, ◌∷◌, [], Err, IfOk, MatchResult, Ok, OnOk, flat_map};
ghost use Rattle.std.specs.Io.KnownBytes.{Appends};
ghost use Rattle.std.specs.List.{list_any};
ghost use Rattle.dr_word_rehearse.specs.Endings.{EndsRehearsal, fits as fits_all, is_some_row};
ghost use Rattle.dr_word_rehearse.specs.Endings.{is_in_the_way as is_look_in_the_way};
ghost use Rattle.dr_ledger_report.specs.Reports.{line_of};
ghost use Rattle.dr_word_rehearse.specs.Endings.{lines_of, look_lines, printed_of, row_line};
ghost use Rattle.dr_word_rehearse.specs.Endings.{stands_in_the_way};
ghost use Rattle.dr_word_rehearse.specs.Rehearsals.{halt_of};

use crate::looking::{LedgerLook, Looked};
use dr_base::Text;
use dr_base::fields::add_field;
use dr_run_files::Failure;
use dr_run_open::Status;
use dr_word_adopt::{Halted, tell_stop, unfit_text};
use std::alloc::{AllocError, Global};
use std::io;
use std::io::Write;

const LF: u8 = 10;

/// Whether there is a row.
fn is_some(rows: &[(Text, Text)]) -> bool
    ensures { result ≡ is_some_row rows.now }
{
    !rows.is_empty()
}

/// Whether the node stands in the way, as far as is known.
fn is_in_the_way(look: &LedgerLook) -> bool
    ensures { result ≡ is_look_in_the_way look.now }
{
    match look {
        LedgerLook::Nothing => true,
        LedgerLook::Older => true,
        LedgerLook::Rows(rows) => is_some(rows.as_slice()),
    }
}

/// Whether some node stands in the way.
fn is_any_in_the_way(all: &[Looked]) -> bool
    ensures { result ≡ list_any stands_in_the_way all.now }
{
    all.iter().any(|looked| is_in_the_way(&looked.look))
}

/// Whether no node stands in the way.
fn fits(all: &[Looked]) -> bool
    ensures { result ≡ fits_all all.now }
{
    !is_any_in_the_way(all)
}

/// Adds the line of a row.
fn put_row(
    alloc: Global,
    out: &mut Vec<u8>,
    node: &Text,
    row: &(Text, Text),
) -> Result<(), AllocError>
    ensures { OnOk result (out.new.items ≡ out.old.items ++ row_line node.now row.now) }
{
    let line = unfit_text(alloc, node, &row.0, &row.1)?;
    out.extend_from_slice(line.as_bytes())?;
    Ok(())
}

/// Adds the lines of a node's rows.
fn put_rows(
    alloc: Global,
    out: &mut Vec<u8>,
    node: &Text,
    rows: &[(Text, Text)],
) -> Result<(), AllocError>
    ensures { OnOk result
        (out.new.items ≡ out.old.items ++ flat_map (row_line node.now) rows.now) }
{
    for row in rows {
        put_row(alloc, out, node, row)?;
    }
    Ok(())
}

/// Adds the line of a word and a node.
fn put_word(out: &mut Vec<u8>, word: &[u8], node: &Text) -> Result<(), AllocError>
    ensures { OnOk result
        (out.new.items ≡ out.old.items ++ line_of word.now (node.now ∷ [])) }
{
    out.extend_from_slice(word)?;
    add_field(out, node.as_bytes())?;
    out.push(LF)?;
    Ok(())
}

/// Adds what is printed of a node.
fn put_look(
    alloc: Global,
    out: &mut Vec<u8>,
    node: &Text,
    look: &LedgerLook,
) -> Result<(), AllocError>
    ensures { OnOk result (out.new.items ≡ out.old.items ++ look_lines node.now look.now) }
{
    match look {
        LedgerLook::Nothing => put_word(out, b"missing", node),
        LedgerLook::Older => put_word(out, b"older", node),
        LedgerLook::Rows(rows) => put_rows(alloc, out, node, rows.as_slice()),
    }
}

/// What is printed of all nodes that were looked at.
fn lines_text(alloc: Global, all: &[Looked]) -> Result<Vec<u8>, AllocError>
    ensures { IfOk result (λ text. text.items ≡ flat_map lines_of all.now) }
{
    let mut out = Vec::new(alloc);
    for looked in all {
        put_look(alloc, &mut out, &looked.node, &looked.look)?;
    }
    Ok(out)
}

/// The same, and that all fits, where it does.
fn whole_text(alloc: Global, all: &[Looked], fits: bool) -> Result<Vec<u8>, AllocError>
    requires { fits ≡ fits_all all.now }
    ensures { IfOk result (λ text. text.items ≡ printed_of all.now) }
{
    let mut out = lines_text(alloc, all)?;
    if fits {
        out.extend_from_slice(b"fits\n")?;
        return Ok(out);
    }
    Ok(out)
}

/// Writes a text, or fails for want of memory where there is none.
fn write_text<'a, W: Write>(
    text: Result<Vec<u8>, AllocError>,
    output: &mut W,
) -> Result<(), Failure<'a>>
    ensures { OnOk result (MatchResult text
        (λ bytes. Appends (W.contents output.old) (W.contents output.new) bytes.items) (λ _. ⊥)) }
{
    match text {
        Ok(text) => {
            output.write_all(text.as_slice())?;
            Ok(())
        }
        Err(AllocError) => Err(Failure::Stream(io::Error::from(AllocError))),
    }
}

/// Writes that all nodes were looked at, and what stands in the way.
fn tell_all<'a, W: Write>(
    alloc: Global,
    all: &[Looked],
    output: &mut W,
) -> Result<Status, Failure<'a>>
    ensures { IfOk result
        (EndsRehearsal (Ok tt) all.now (W.contents output.old) (W.contents output.new)) }
{
    let fits = fits(all);
    write_text(whole_text(alloc, all, fits), output)?;
    if fits {
        return Ok(Status::Success);
    }
    Ok(Status::Refused)
}

/// Writes what was shown of the first nodes, and why the others weren't looked at.
fn tell_some<'a, W: Write, E: Write>(
    alloc: Global,
    all: &[Looked],
    stop: Halted<'a>,
    output: &mut W,
    faults: &mut E,
) -> Result<Status, Failure<'a>>
    ensures { IfOk result
        (EndsRehearsal (Err stop.entry.halt) all.now (W.contents output.old)
        (W.contents output.new)) }
{
    match write_text(lines_text(alloc, all), output) {
        Ok(()) => tell_stop(stop, output, faults),
        Err(failure) => {
            drop(stop);
            Err(failure)
        }
    }
}

/// Writes what a rehearsal comes to.
///
/// Errors: Stream, and what failed on the way.
pub fn tell_rehearsal<'a, W: Write, E: Write>(
    alloc: Global,
    all: &[Looked],
    came: Result<(), Halted<'a>>,
    output: &mut W,
    faults: &mut E,
) -> Result<Status, Failure<'a>>
    ensures { IfOk result
        (EndsRehearsal (halt_of came.entry) all.now (W.contents output.old)
        (W.contents output.new)) }
{
    match came {
        Ok(()) => tell_all(alloc, all, output),
        Err(stop) => tell_some(alloc, all, stop, output, faults),
    }
}
