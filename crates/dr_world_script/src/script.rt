//! Scripts as text.
ghost use Rattle.std.specs.Prelude.{◌≡◌, ◌<◌, IfOk, length};
ghost use Rattle.dr_world_script.specs.Scripts.{IsLineAt, ReadsScript, is_skipped, told_lines};

use crate::act::Act;
use crate::fault::{LineFault, ScriptFault};
use crate::fields::parts_of;
use crate::reading::read_line;
use dr_base::Seq;
use std::alloc::{AllocError, Global};

const LF: u8 = 10;

/// Whether the line tells nothing: it has no byte, or begins with `#`.
fn is_skipped(line: &[u8]) -> bool
    ensures { result ≡ is_skipped line.now }
{
    match line {
        [] => true,
        [first, ..] => *first == b'#',
    }
}

/// What a script tells: one step, change of plan or deed of another product a line, whose fields
/// are joined by tabs; lines that are empty or begin with `#` are skipped. Numbers are decimal
/// without leading zeros and below 2^64; a data set, and what is written, is given in hex digits of
/// either case.
///
/// Errors: Line, of the first line that tells nothing of these; Memory, which may come before a
/// later line is known to be wrong.
pub fn read_script(alloc: Global, text: &[u8]) -> Result<Seq<Act>, ScriptFault>
    ensures { ReadsScript text.now result }
{
    let lines = parts_of(alloc, text, LF)?;
    let mut acts = Vec::new(alloc);
    for (i, line) in lines.iter().enumerate() {
        if is_skipped(line) {
            continue;
        }
        match read_line(alloc, line) {
            Ok(act) => acts.push(act)?,
            Err(LineFault::NoStep) => return Err(ScriptFault::Line(i as u64 + 1)),
            Err(LineFault::Memory) => return Err(ScriptFault::Memory),
        }
    }
    Ok(Seq::from_vec(acts))
}

/// The number, counted from 1, of the line of a script that tells what stands at this place of what
/// the script tells, counted from 0.
///
/// Errors: Memory.
pub fn line_of(alloc: Global, text: &[u8], place: usize) -> Result<u64, AllocError>
    requires { place < length (told_lines text.now) }
    ensures { IfOk result (IsLineAt text.now place) }
{
    let lines = parts_of(alloc, text, LF)?;
    let mut left = place;
    for (i, line) in lines.iter().enumerate() {
        if is_skipped(line) {
            continue;
        }
        if left == 0 {
            return Ok(i as u64 + 1);
        }
        left -= 1;
    }
    // the place is one of the script's
    unreachable!()
}
