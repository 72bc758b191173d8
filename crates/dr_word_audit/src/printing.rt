//! The line that tells what doesn't hold.
ghost use Rattle.std.specs.Prelude.{◌≡◌, ◌++◌, IfOk, OnOk};
ghost use Rattle.dr_base.specs.Texts.{next_field};
ghost use Rattle.dr_word_audit.specs.Places.{line_start, long_line as longer};
ghost use Rattle.dr_word_audit.specs.Places.{missing_line as line_of_missing, no_line};
ghost use Rattle.dr_word_audit.specs.Places.{short_line as shorter};
ghost use Rattle.dr_ledger_report.specs.Reports.{number_field};

use dr_base::Text;
use dr_base::fields::{add_field, add_number};
use dr_world_audit::audit::Mismatch;
use std::alloc::{AllocError, Global};

const LF: u8 = 10;

/// Adds a number, or a hyphen where there is none.
fn put_place(out: &mut Vec<u8>, number: Option<usize>) -> Result<(), AllocError>
    ensures { OnOk result (out.new.items ≡ out.old.items ++ next_field (number_field number)) }
{
    match number {
        Some(number) => add_number(out, number as u64),
        None => add_field(out, b"-"),
    }
}

/// A line that begins so, without its end.
fn line_head(alloc: Global, code: &[u8], node: &Text) -> Result<Vec<u8>, AllocError>
    ensures { IfOk result (λ out. out.items ≡ line_start code.now node.now) }
{
    let mut out = Vec::new(alloc);
    out.extend_from_slice(b"no")?;
    add_field(&mut out, code)?;
    add_field(&mut out, node.as_bytes())?;
    Ok(out)
}

/// That it doesn't hold at the node.
pub fn short_line(alloc: Global, code: &[u8], node: &Text) -> Result<Text, AllocError>
    ensures { IfOk result (λ line. line ≡ shorter code.now node.now) }
{
    let mut out = line_head(alloc, code, node)?;
    out.push(LF)?;
    Ok(Text::from_vec(out))
}

/// The same, with the number of a line, a UID, and the node to which it went or from which it came.
fn long_line(
    alloc: Global,
    code: &[u8],
    node: &Text,
    number: Option<usize>,
    uid: &Text,
    other: &Text,
) -> Result<Text, AllocError>
    ensures { IfOk result (λ line. line ≡ longer code.now node.now number uid.now other.now) }
{
    let mut out = line_head(alloc, code, node)?;
    put_place(&mut out, number)?;
    add_field(&mut out, uid.as_bytes())?;
    add_field(&mut out, other.as_bytes())?;
    out.push(LF)?;
    Ok(Text::from_vec(out))
}

/// The line of a node that has no ledger.
pub fn missing_line(alloc: Global, node: &Text) -> Result<Text, AllocError>
    ensures { IfOk result (λ line. line ≡ line_of_missing node.now) }
{
    short_line(alloc, b"A1 NoFile", node)
}

/// The line of a mismatch, with the number of the line of which it speaks.
pub fn mismatch_line(
    alloc: Global,
    mismatch: &Mismatch,
    number: Option<usize>,
) -> Result<Text, AllocError>
    ensures { IfOk result (λ line. line ≡ no_line mismatch.now number) }
{
    match mismatch {
        Mismatch::NoHistory { node } => short_line(alloc, b"A2 NoHistory", node),
        Mismatch::NoHop { node, uid, to } => {
            long_line(alloc, b"A3 NoHop", node, number, uid, to)
        }
        Mismatch::NotFair { node, uid, to } => {
            long_line(alloc, b"A4 NotFair", node, number, uid, to)
        }
        Mismatch::NoArrival { node, uid, to } => {
            long_line(alloc, b"A5 NoArrival", node, number, uid, to)
        }
        Mismatch::NoReason { node, uid, from } => {
            long_line(alloc, b"A6 NoReason", node, number, uid, from)
        }
    }
}
